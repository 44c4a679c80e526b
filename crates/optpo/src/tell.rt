// What the program says on standard error of a refusal: its number, what it means, where it is and what to do, each on a line.
use input::host::{say, say_number};

// Says where a byte stands: its line and its place in that line, from 1, and its place in the text, from 0.
fn say_where(rt: &HostRuntime, text: &[u8], at: usize) {
    let line = lines::count_byte(lines::cut(text, 0, at), b'\n');
    let start = lines::line_start(text, at);
    say(rt, b"optpo: at byte ");
    say_number(rt, lines::cut(text, start, at).len().saturating_add(1));
    say(rt, b" of line ");
    say_number(rt, line.saturating_add(1));
    say(rt, b" (offset ");
    say_number(rt, at);
    say(rt, b")\n");
}

fn explain_name(rt: &HostRuntime, place: usize) {
    say(
        rt,
        b"the file's name is empty, or holds white space or a byte that is not UTF-8\n",
    );
    say(rt, b"optpo: at byte ");
    say_number(rt, place.saturating_add(1));
    say(rt, b" of the name\noptpo: give a name of one word\n");
}

fn explain_bytes(rt: &HostRuntime, place: usize, text: &[u8]) {
    say(rt, b"the listing is not UTF-8\n");
    say_where(rt, text, place);
    say(
        rt,
        b"optpo: mend the byte there, or save the listing as UTF-8\n",
    );
}

fn explain_escape(rt: &HostRuntime, place: usize, text: &[u8]) {
    say(
        rt,
        b"a literal holds an escape other than \\n, \\t, \\\", \\' and \\\\\n",
    );
    say_where(rt, text, place);
    say(rt, b"optpo: put the character itself in its place\n");
}

fn explain_open(rt: &HostRuntime, place: usize, text: &[u8]) {
    say(rt, b"a literal is not closed on its line\n");
    say_where(rt, text, place);
    say(rt, b"optpo: close it on the line that it begins on\n");
}

fn explain_length(rt: &HostRuntime, place: usize) {
    say(rt, b"what there is to write is too long\noptpo: it has ");
    say_number(rt, place);
    say(
        rt,
        b" bytes, and 262144 are written at most\noptpo: give a part of the listing\n",
    );
}

fn explain_line(rt: &HostRuntime, place: usize) {
    say(
        rt,
        b"a line is missing, or is not as optpo writes it\noptpo: at line ",
    );
    say_number(rt, place.saturating_add(1));
    say(
        rt,
        b"\noptpo: change only what stands between the quotes of msgstr, and keep each string on its line (--no-wrap)\n",
    );
}

// Says what a refusal means.
pub fn explain(rt: &HostRuntime, number: u8, place: usize, text: &[u8]) {
    say(rt, b"optpo: refused ");
    say_number(rt, number);
    say(rt, b": ");
    match number {
        1 => explain_name(rt, place),
        2 => explain_bytes(rt, place, text),
        3 => explain_escape(rt, place, text),
        4 => explain_open(rt, place, text),
        5 => explain_length(rt, place),
        _ => explain_line(rt, place),
    }
}
