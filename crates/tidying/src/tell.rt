// What a program says on standard error: for a refusal its number, what it means, where it is and what to do, each on a line with the program's name in front.
// A file's name stands behind fixed words, so that no name makes one kind of message look like another.
use crate::asked::Wrong;
use input::host;
use input::host::{say, say_number};

// Says a line of a program's own.
pub fn say_line(rt: &HostRuntime, program: &[u8], text: &[u8]) {
    say(rt, program);
    say(rt, text);
}

// Says a text, an argument and the end of the line.
pub fn say_word(rt: &HostRuntime, program: &[u8], text: &[u8], at: usize) {
    say_line(rt, program, text);
    say(rt, host::arg(rt, at, &mut host::buffer()));
    say(rt, b"\n");
}

// Says what is wrong with the arguments.
pub fn wrong(rt: &HostRuntime, program: &[u8], wrong: Wrong) {
    match wrong {
        Wrong::Pass(at) => say_word(
            rt,
            program,
            b": --pass wants a number from 1 to 6, not: ",
            at,
        ),
        Wrong::Form(at) => say_word(rt, program, b": --form wants OL or OM, not: ", at),
        Wrong::Option(at) => say_word(rt, program, b": no such option: ", at),
        Wrong::NoRecords => say_line(rt, program, b": --origins wants a file's name\n"),
        Wrong::Files => say_line(rt, program, b": more than one file is named\n"),
    }
}

// Where the byte stands that is one `[` too many, in line `n`.
fn crowded_at(text: &[u8], n: usize) -> usize {
    let start = input::behind(text, 0, b'\n', n);
    lines::find_byte(text, input::behind(text, start, b'[', 64), b'[')
}

// Says where a byte stands: its line and its place in that line, from 1, and its place in the text, from 0.
fn say_where(rt: &HostRuntime, program: &[u8], what: &[u8], text: &[u8], at: usize) {
    let line = lines::count_byte(lines::cut(text, 0, at), 10);
    let start = lines::line_start(text, at);
    say_line(rt, program, b": ");
    say(rt, what);
    say(rt, b" is byte ");
    say_number(rt, lines::cut(text, start, at).len().saturating_add(1));
    say(rt, b" of line ");
    say_number(rt, line.saturating_add(1));
    say(rt, b" (offset ");
    say_number(rt, at);
    say(rt, b")\n");
}

fn say_whole(rt: &HostRuntime, program: &[u8]) {
    say_line(
        rt,
        program,
        b": optlarge takes up to 1,048,576 bytes and 100,000 lines; for more ask for smaller scripts, since a listing that is cut in parts may lose lines that the whole keeps\n",
    );
}

fn explain_pass(rt: &HostRuntime, program: &[u8]) {
    say(rt, b"there is no pass of that number\n");
    say_line(rt, program, b": the passes have the numbers 1 to 6\n");
}

fn explain_mode(rt: &HostRuntime, program: &[u8]) {
    say(rt, b"there is no mode of that number\n");
    say_line(
        rt,
        program,
        b": the modes have the numbers 0, plain, 1, strict, 2, joined, and 3, both\n",
    );
}

// The place of this refusal is how many bytes are taken.
fn explain_long(rt: &HostRuntime, program: &[u8], text: &[u8], place: usize) {
    say(rt, b"it is longer than ");
    say_number(rt, place);
    say(rt, b" bytes\n");
    say_where(rt, program, b"the first byte too many", text, place);
    say_whole(rt, program);
}

fn explain_cut(rt: &HostRuntime, program: &[u8], text: &[u8], place: usize) {
    say(rt, b"it ends within a character\n");
    say_where(
        rt,
        program,
        b"the first byte of that character",
        text,
        place,
    );
    say_line(rt, program, b": the file was cut there: ask for it again\n");
}

// Says what is wrong with bytes that no cut explains.
fn explain_damage(rt: &HostRuntime, program: &[u8], what: &[u8], text: &[u8], place: usize) {
    say(rt, what);
    say_where(rt, program, b"the first bad byte", text, place);
    say_line(
        rt,
        program,
        b": the file is damaged there, or is not in UTF-8: ask for a whole one, or convert it, as iconv does\n",
    );
}

// The place of this refusal is how many lines are taken.
fn explain_lines(rt: &HostRuntime, program: &[u8], text: &[u8], place: usize) {
    say(rt, b"it has more than ");
    say_number(rt, place);
    say(rt, b" lines\n");
    say_where(
        rt,
        program,
        b"the first byte too many",
        text,
        input::behind(text, 0, b'\n', place),
    );
    say_whole(rt, program);
}

fn explain_crowded(rt: &HostRuntime, program: &[u8], text: &[u8], place: usize) {
    say(rt, b"a line has more than 64 opening brackets [\n");
    say_where(
        rt,
        program,
        b"the first bracket too many",
        text,
        crowded_at(text, place),
    );
    say_line(rt, program, b": break that line up, or take it out\n");
}

// The place of this refusal is how many lines the form has numbers for.
fn explain_wide(rt: &HostRuntime, program: &[u8], place: usize) {
    say(rt, b"records of the form OL have numbers for ");
    say_number(rt, place);
    say(rt, b" lines, and it has more\n");
    say_line(rt, program, b": ask for the form OM\n");
}

// The numbers 3, 7 and 8 are of short buffers, and those of the programs are of the stated sizes.
fn explain_other(rt: &HostRuntime) {
    say(
        rt,
        b"this program lends too little room, which is a fault of its own\n",
    );
}

// Tells a person of a refusal.
pub fn explain(
    rt: &HostRuntime,
    program: &[u8],
    number: u8,
    place: usize,
    text: &[u8],
    name: &[u8],
) {
    say_line(rt, program, b": refused ");
    say_number(rt, number);
    say(rt, b" in ");
    say(rt, name);
    say(rt, b": ");
    match number {
        1 => explain_pass(rt, program),
        2 => explain_long(rt, program, text, place),
        4 => explain_damage(rt, program, b"it is not UTF-8\n", text, place),
        5 => explain_lines(rt, program, text, place),
        6 => explain_crowded(rt, program, text, place),
        9 => explain_cut(rt, program, text, place),
        10 => explain_damage(
            rt,
            program,
            b"it has an overlong form, which UTF-8 has not\n",
            text,
            place,
        ),
        11 => explain_damage(
            rt,
            program,
            b"it has a surrogate or a value above U+10FFFF, which UTF-8 has not\n",
            text,
            place,
        ),
        12 => explain_mode(rt, program),
        13 => explain_wide(rt, program, place),
        _ => explain_other(rt),
    }
}
