// Tidies a listing as optlines does, over room that it lends, and writes then what lies in the room for the text and in that for the result. It is for tests, whose
// listings have no byte 0.
#![tactic(auto)]

use input::host;
use input::host::Failure;

// Room for a text: more than optlines has, so that a test sees that all of it is used.
const TEXT: usize = 40000;

// Room for a result: twice the longest text.
const RESULT: usize = 32769;

// Room for the records of all lines.
const RECORDS: usize = 7168;

// Writes what a room is called, and what lies in it before the first byte 0.
fn show(rt: &HostRuntime, called: &[u8], room: &[u8]) -> Result<(), Failure> {
    host::write(rt, called)?;
    host::write(rt, lines::cut(room, 0, lines::find_byte(room, 0, 0)))
}

// Writes what lies in both rooms.
fn show_both(rt: &HostRuntime, room: &[u8], out: &[u8]) -> Result<(), Failure> {
    show(rt, b"text:\n", room)?;
    show(rt, b"result:\n", out)
}

fn main(rt: HostRuntime) {
    let mut room = host::room::<u8, TEXT>();
    let mut out = host::room::<u8, RESULT>();
    tidying::run(
        &rt,
        b"lentlines",
        false,
        &mut room,
        &mut out,
        &mut host::room::<u8, RECORDS>(),
        |task, _, text, out, orig| tidying::answer_small(task, text, out, orig),
    );
    if let Err(why) = show_both(&rt, &room, &out) {
        host::say_failed(&rt, b"lentlines", b"write", b"standard output", why);
    }
}
