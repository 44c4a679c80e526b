// What the program says on standard error: for a refusal its number, what it means, where it is and what to do, each on a line.
// A file's name stands behind fixed words, so that no name makes one kind of message look like another.
use input::host;
use input::host::{Failure, say, say_number};

// Says what cannot be done to what, and the system's reason.
pub fn fail(rt: &HostRuntime, verb: &[u8], what: &[u8], why: Failure) {
    host::say_failed(rt, b"optwhere", verb, what, why);
}

// Says that standard output did not take everything.
pub fn cannot_write(rt: &HostRuntime, why: Failure) {
    fail(rt, b"write", b"standard output", why);
}

// Says that a file is longer than is taken.
pub fn too_long(rt: &HostRuntime, name: &[u8], most: usize) {
    say(rt, b"optwhere: cannot take more than ");
    say_number(rt, most);
    say(rt, b" bytes of ");
    say(rt, name);
    say(rt, b"\n");
}

// Says that a raw listing is not the one that the records are about.
pub fn other_listing(rt: &HostRuntime, name: &[u8], there: usize, records: usize) {
    say(rt, b"optwhere: the records are not those of ");
    say(rt, name);
    say(rt, b": it has ");
    say_number(rt, there);
    say(rt, b" lines, and they are ");
    say_number(rt, records);
    say(rt, b"\n");
}

// Says that an argument is not the number of a line.
pub fn no_number(rt: &HostRuntime, at: usize) {
    say(rt, b"optwhere: not the number of a line: ");
    say(rt, host::arg(rt, at, &mut host::buffer()));
    say(rt, b"\n");
}

// What a refusal means.
fn meaning(rt: &HostRuntime, number: u8) {
    match number {
        1 => say(rt, b"the records end within a record\n"),
        2 => say(rt, b"a record begins with another mark than the file's\n"),
        3 => say(
            rt,
            b"a record is out of order: its input line is not its own number\n",
        ),
        4 => say(rt, b"a record has an unknown fate\n"),
        5 => say(rt, b"a record's fate and its output line disagree\n"),
        _ => say(
            rt,
            b"there is too little room, which is a fault of this program\n",
        ),
    }
}

// Says what a refusal means.
pub fn explain(rt: &HostRuntime, number: u8, place: usize) {
    say(rt, b"optwhere: refused ");
    say_number(rt, number);
    say(rt, b": ");
    meaning(rt, number);
    say(rt, b"optwhere: at record ");
    say_number(rt, place);
    say(
        rt,
        b", counted from 0\noptwhere: have the records written anew, or get the whole file again\n",
    );
}
