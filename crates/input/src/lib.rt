// Reading a text whole, or saying that it did not come whole.
#![tactic(auto)]

pub mod host;
pub mod lent;
pub mod wire;

ghost use Rattle.std.specs.Prelude.{◌≤◌, length};

use host::Failure;
use std::io::{ErrorKind, Read};

// Reads until the text ends, fills its room, or a read fails. A read of no bytes is the end, so that one Ctrl-D ends what is typed; one that
// is interrupted is made again. Every other turn brings a byte at least. What has to be bounded are the interrupted ones: a loop that is
// proved has to end, so the turns are counted, up to a number that no run uses up.
pub fn read_input<'a, R: Read>(from: &mut R, room: &'a mut [u8]) -> Result<&'a [u8], Failure> {
    let mut n = 0;
    for _ in 0..u64::MAX {
        if n == room.len() {
            return Ok(room);
        }
        match from.read(&mut room[n..]) {
            Ok(0) => return Ok(&room[..n]),
            Ok(more) => n += more,
            Err(e) if e.kind() == ErrorKind::Interrupted => {}
            Err(e) => return Err(e.into()),
        }
    }
    Err(Failure::System(host::INTERRUPTED))
}

// What standard input is called.
const STANDARD: &[u8] = b"standard input";

// Reads standard input whole; says why where it did not come whole.
pub fn read_standard<'a>(rt: &HostRuntime, program: &[u8], room: &'a mut [u8]) -> Option<&'a [u8]> {
    match read_input(&mut rt.stdin(), room) {
        Ok(text) => Some(text),
        Err(why) => {
            host::say_failed(rt, program, b"read", STANDARD, why);
            None
        }
    }
}

// Reads the file of a name, likewise.
pub fn read_named<'a>(
    rt: &HostRuntime,
    program: &[u8],
    name: &[u8],
    room: &'a mut [u8],
) -> Option<&'a [u8]> {
    match host::open(rt, name) {
        Ok(mut from) => match read_input(&mut from, room) {
            Ok(text) => return Some(text),
            Err(why) => host::say_failed(rt, program, b"read", name, why),
        },
        Err(why) => host::say_failed(rt, program, b"open", name, why),
    }
    None
}

// Reads the listing that argument `at` names, standard input where there is none or it is `-`, and returns its name and its text; says why where it did not come whole.
pub fn take_listing<'n, 't>(
    rt: &HostRuntime,
    program: &[u8],
    at: usize,
    name: &'n mut [u8],
    room: &'t mut [u8],
) -> Option<(&'n [u8], &'t [u8])> {
    if host::arg_count(rt) <= at {
        return Some((STANDARD, read_standard(rt, program, room)?));
    }
    match host::take_arg(rt, at, name) {
        Ok(name) => {
            if lines::same(name, b"-") {
                return Some((STANDARD, read_standard(rt, program, room)?));
            }
            Some((name, read_named(rt, program, name, room)?))
        }
        Err(why) => {
            host::say_failed(rt, program, b"take", b"the file's name", why);
            None
        }
    }
}

// The place behind `n` bytes `b`, from a place on; the end where there are fewer.
pub fn behind(s: &[u8], from: usize, b: u8, n: usize) -> usize
    ensures { from ≤ length s.now → result ≤ length s.now }
{
    let mut at = from;
    for _ in 0..n {
        at = lines::after(s, lines::find_byte(s, at, b));
    }
    at
}
