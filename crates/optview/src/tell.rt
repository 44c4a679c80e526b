// What the program says on standard error. A file's name stands behind fixed words, so that no name makes one kind of message look like another.
use input::host;
use input::host::{Failure, say, say_number};

// Says that standard output did not take everything.
pub fn cannot_write(rt: &HostRuntime, why: Failure) {
    host::say_failed(rt, b"optview", b"write", b"standard output", why);
}

// Says that the records of this program's own making are not right.
pub fn bad_records(rt: &HostRuntime, number: u8, place: usize) {
    say(
        rt,
        b"optview: the records are refused, which is a fault of this program: ",
    );
    say_number(rt, number);
    say(rt, b" ");
    say_number(rt, place);
    say(rt, b"\n");
}

// Tells a person of a refusal.
fn explain(rt: &HostRuntime, number: u8, place: usize, name: &[u8]) {
    say(rt, b"optview: refused ");
    say_number(rt, number);
    say(rt, b" ");
    say_number(rt, place);
    say(rt, b" in ");
    say(rt, name);
    say(
        rt,
        b"\noptview: nothing is shown of a listing that cannot be tidied; optlines says of it what is wrong, where, and what to do\n",
    );
}

// Refuses, for a script and for a person.
pub fn refused(rt: &HostRuntime, number: u8, place: usize, name: &[u8]) {
    match host::write_refused(rt, number, place) {
        Ok(()) => explain(rt, number, place, name),
        Err(why) => cannot_write(rt, why),
    }
}
