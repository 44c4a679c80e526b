// What the program says on standard error: for a refusal its number, what it means and where, each on a line. A file's name stands behind
// fixed words, so that no name makes one kind of message look like another.
use input::host::{say, say_number};

// The number, from 1, of the line at a place.
fn line_number(text: &[u8], at: usize) -> usize {
    lines::count_byte(lines::cut(text, 0, at), b'\n').saturating_add(1)
}

// Says the line of a text that stands at a place.
fn say_line(rt: &HostRuntime, which: &[u8], text: &[u8], at: usize) {
    say(rt, b"optcheck: ");
    say(rt, which);
    say(rt, b" line ");
    say_number(rt, line_number(text, at));
    say(rt, b": ");
    say(rt, lines::cut(text, at, lines::find_byte(text, at, b'\n')));
    say(rt, b"\n");
}

// Says which name is left out that has to stay, where there is one.
fn say_left_out(rt: &HostRuntime, raw: &[u8], at: usize, p: &[u8]) {
    match crate::left::left_out(raw, at, p) {
        Some(q) => {
            say(rt, b"optcheck: r");
            say_number(rt, q.0);
            say(rt, b" is left out, and raw line ");
            say_number(rt, line_number(raw, crate::left::use_at(raw, at, q)));
            say(rt, b" uses it\n");
        }
        None => {}
    }
}

// Says the raw line that a pruned line `p` stands against, and the name that it leaves out.
fn say_against(rt: &HostRuntime, raw: &[u8], at: usize, p: &[u8]) {
    if at >= raw.len() {
        say(rt, b"optcheck: the raw listing has no line left for it\n");
        return;
    }
    say_line(rt, b"raw", raw, at);
    say_left_out(rt, raw, at, p);
}

// Tells at which line the pruned listing goes astray: `place` lines of it can be had.
fn explain_astray(rt: &HostRuntime, place: usize, raw: &[u8], other: &[u8]) {
    say(rt, b"the pruned listing cannot be had from the raw one\n");
    let at = input::behind(other, 0, b'\n', place);
    if at < other.len() {
        say_line(rt, b"pruned", other, at);
    } else {
        say(
            rt,
            b"optcheck: the pruned listing ends, and the raw one needs more\n",
        );
    }
    let p = lines::cut(other, at, lines::find_byte(other, at, b'\n'));
    match crate::against::raw_line(raw, lines::cut(other, 0, at), place) {
        Some(i) => say_against(rt, raw, i, p),
        None => {}
    }
}

// Says what a check of one of the two listings found.
fn explain_listing(rt: &HostRuntime, number: u8, place: usize) {
    match number {
        2 => say(rt, b" is longer than 16384 bytes\n"),
        4 => {
            say(rt, b" is not UTF-8: the first bad byte has the offset ");
            say_number(rt, place);
            say(rt, b"\n");
        }
        5 => say(rt, b" has more than 1024 lines\n"),
        6 => {
            say(rt, b" has more than 64 opening brackets [ in line ");
            say_number(rt, place.saturating_add(1));
            say(rt, b"\n");
        }
        _ => say(
            rt,
            b" was lent too little room, which is a fault of this program\n",
        ),
    }
}

// Tells a person of a refusal.
pub fn explain(rt: &HostRuntime, number: u8, place: usize, raw: &[u8], other: &[u8]) {
    say(rt, b"optcheck: refused ");
    say_number(rt, number);
    say(rt, b": ");
    if number == 7 {
        explain_astray(rt, place, raw, other);
        return;
    }
    if number < 20 {
        say(rt, b"the raw listing");
        explain_listing(rt, number, place);
        return;
    }
    say(rt, b"the pruned listing");
    explain_listing(rt, number - 20, place);
}
