// Answers requests for single functions as the original does; or, where it is given a file of requests that are each followed by the
// original's answer, replays it and says how many agree.
#![tactic(auto)]

mod replay;
mod reply;
mod wire;

use input::host;
use input::host::Output;
use input::wire::bytes_of;
use reply::{Reply, Room};

// Writes an answer, or that there is none, and returns whether it went out.
fn write_answer(rt: &HostRuntime, out: &[u8], length: Option<usize>) -> bool {
    let Some(n) = length else {
        return host::write(rt, &[255; 4]).is_ok();
    };
    host::write(rt, &bytes_of(n)).is_ok() && host::write(rt, lines::cut(out, 0, n)).is_ok()
}

// Reads one request and writes its answer, and returns whether to go on.
fn serve_one(rt: &HostRuntime, room: &mut Room) -> bool {
    let mut from = rt.stdin();
    match room.reply_one(&mut from) {
        Ok(Reply { length, .. }) => write_answer(rt, &room.out, length),
        Err(_) => false,
    }
}

// Answers until the input ends. No run uses up the turns.
fn serve(rt: &HostRuntime, room: &mut Room) {
    for _ in 0..u64::MAX {
        if !serve_one(rt, room) {
            return;
        }
    }
}

// Replays the file that the first argument names.
fn replay_file(rt: &HostRuntime, room: &mut Room) {
    let mut name = host::buffer();
    let path = host::arg(rt, 1, &mut name);
    match host::open(rt, path) {
        Ok(mut file) => replay::replay(rt, &mut file, room),
        Err(_) => {
            let mut said = Output::new(rt);
            said.text(b"cannot open ");
            said.text(path);
            said.text(b"\n");
        }
    }
}

fn main(rt: HostRuntime) {
    let rt = &rt;
    let mut room = Room::new();
    if host::arg_count(rt) < 2 {
        serve(rt, &mut room);
        return;
    }
    replay_file(rt, &mut room);
}
