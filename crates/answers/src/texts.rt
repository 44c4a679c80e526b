// Answers of the functions on texts and lines: trimming, UTF-8, splitting and joining.
use crate::say::{nothing, say_byte, say_eight, say_four};

// From where to where a text is without the white space around it.
fn trim(a: &[u8], out: &mut [u8]) -> usize {
    let w = text::trim_span(a);
    let o = say_four(out, 0, w.from);
    say_four(out, o, w.to)
}

// 0 where the bytes are UTF-8, else 1 and the first place where they are not.
fn utf8(a: &[u8], out: &mut [u8]) -> usize {
    match text::check_utf8(a) {
        Ok(()) => say_byte(out, 0, 0),
        Err(i) => {
            let o = say_byte(out, 0, 1);
            say_four(out, o, i)
        }
    }
}

// The lines of a text, each followed by one LF.
fn split(a: &[u8], out: &mut [u8]) -> usize {
    if out.len() <= a.len() {
        return nothing();
    }
    lines::split_lines(a, out)
}

// Lines with an LF between them, the last LF settled.
fn join(a: &[u8], ended: bool, out: &mut [u8]) -> usize {
    if out.len() < lines::joined_len(a, ended) {
        return nothing();
    }
    lines::join_lines(a, ended, out)
}

// 0, or 1 and the first line with more than 64 bytes `[`.
fn crowded(a: &[u8], out: &mut [u8]) -> usize {
    match lines::crowded_line(a, 64) {
        Some(n) => {
            let o = say_byte(out, 0, 1);
            say_eight(out, o, n as u64)
        }
        None => say_byte(out, 0, 0),
    }
}

// The answer of a function on texts and lines.
pub fn answer(function: u8, number: u64, a: &[u8], out: &mut [u8]) -> usize {
    match function {
        1 => trim(a, out),
        2 => say_four(out, 0, text::trim_from(a)),
        3 => say_four(out, 0, text::trim_to(a)),
        4 => utf8(a, out),
        5 => split(a, out),
        6 => join(a, number != 0, out),
        7 => say_eight(out, 0, lines::count_lines(a) as u64),
        8 => crowded(a, out),
        _ => nothing(),
    }
}
