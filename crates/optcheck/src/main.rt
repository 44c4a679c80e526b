// Checks a supplier's pruning: `optcheck RAW PRUNED`. It writes `accepted`, or `refused`, the number and the place, to standard output.
// On standard error it says nothing where it accepts, `optcheck: refused ..` first where it refuses, and anything else where it could not
// read or write: it sets no exit status, so a script makes one of that.
#![tactic(auto)]

mod against;
mod left;
mod tell;

ghost use Rattle.std.specs.Prelude.{◌≡◌, length};

use input::host;
use input::host::Failure;
use pruned::Judged;

// Room for a text: one byte more than is taken, so that a longer text is seen.
fn text_room() -> [u8; 16385]
    ensures { 16385 ≡ length result }
{
    [0; 16385]
}

// Reads the file that an argument names; says why where it did not come whole.
fn load<'a>(rt: &HostRuntime, at: usize, room: &'a mut [u8]) -> Option<&'a [u8]> {
    match host::take_arg(rt, at, &mut host::buffer()) {
        Ok(name) => input::read_named(rt, b"optcheck", name, room),
        Err(why) => {
            host::say_failed(rt, b"optcheck", b"take", b"the name of a file", why);
            None
        }
    }
}

// Writes what is answered as one line.
fn write_answer(rt: &HostRuntime, got: Judged) -> Result<(), Failure> {
    match pruned::number_of(got) {
        0 => host::write(rt, b"accepted\n"),
        number => host::write_refused(rt, number, pruned::place_of(got)),
    }
}

// Checks a pruned text against a raw one, and says what came of it.
fn report(rt: &HostRuntime, raw: &[u8], other: &[u8]) {
    let got = against::judge(raw, other);
    if let Err(why) = write_answer(rt, got) {
        host::say_failed(rt, b"optcheck", b"write", b"standard output", why);
        return;
    }
    let number = pruned::number_of(got);
    if number != 0 {
        tell::explain(rt, number, pruned::place_of(got), raw, other);
    }
}

fn main(rt: HostRuntime) {
    let rt = &rt;
    if host::arg_count(rt) != 3 {
        host::say(
            rt,
            b"optcheck: it wants two files, the raw listing and the pruned one\n",
        );
        return;
    }
    let mut raw_room = text_room();
    let mut other_room = text_room();
    if let Some(raw) = load(rt, 1, &mut raw_room)
        && let Some(other) = load(rt, 2, &mut other_room)
    {
        report(rt, raw, other);
    }
}
