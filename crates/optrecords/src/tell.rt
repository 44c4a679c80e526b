// What the program says on standard error of a refusal: its number, what it means, where it is and what to do, each on a line.
use input::host::{say, say_number};

// What a refusal means.
fn meaning(rt: &HostRuntime, number: u8) {
    match number {
        1 => say(rt, b"the file ends within a record\n"),
        2 => say(rt, b"a record begins with another mark than the file's\n"),
        3 => say(
            rt,
            b"a record is out of order: its input line is not its own number\n",
        ),
        4 => say(rt, b"a record has an unknown fate\n"),
        5 => say(rt, b"a record's fate and its output line disagree\n"),
        6 => say(rt, b"a record does not fit into OL\n"),
        _ => say(
            rt,
            b"there is too little room, which is a fault of this program\n",
        ),
    }
}

// What to do about it.
fn advice(rt: &HostRuntime, number: u8) {
    match number {
        1 => say(rt, b"optrecords: get the whole file again\n"),
        2 => say(
            rt,
            b"optrecords: every record of a file begins with OL, or every one with OM; get the file again\n",
        ),
        3 => say(
            rt,
            b"optrecords: there is one record for each input line, from 0 on and in order; get the file again\n",
        ),
        4 => say(
            rt,
            b"optrecords: the fates are 0, 1, 2 and 3; get the file again\n",
        ),
        5 => say(
            rt,
            b"optrecords: a line of fate 3, and no other, has the output line 65535 (OM: 4294967295); get the file again\n",
        ),
        _ => say(
            rt,
            b"optrecords: OL has input lines up to 65535 and output lines up to 65534; keep this file in the form OM\n",
        ),
    }
}

// Says what a refusal means.
pub fn explain(rt: &HostRuntime, number: u8, place: usize) {
    say(rt, b"optrecords: refused ");
    say_number(rt, number);
    say(rt, b": ");
    meaning(rt, number);
    say(rt, b"optrecords: at record ");
    say_number(rt, place);
    say(rt, b", counted from 0\n");
    advice(rt, number);
}
