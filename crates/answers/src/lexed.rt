// Answers of the functions on a cleaned line.
use crate::say::{nothing, say, say_byte, say_flag};

// A cleaned line.
pub fn strip_lexical(a: &[u8], out: &mut [u8]) -> usize {
    if out.len() < a.len() {
        return nothing();
    }
    lexical::strip_lexical(a, out, 0)
}

// The words of a cleaned text, each followed by LF.
fn say_words(t: &[u8], out: &mut [u8]) -> usize {
    let mut p = 0;
    for word in lexical::idents::each(t) {
        let o = say(out, p, word);
        p = say_byte(out, o, 10);
    }
    p
}

// The words of a line, each followed by LF.
fn ident_words(a: &[u8], out: &mut [u8]) -> usize {
    let mut cleaned = input::host::large_buffer();
    let n = strip_lexical(a, &mut cleaned);
    if cleaned.len() < n {
        return nothing();
    }
    say_words(lines::cut(&cleaned, 0, n), out)
}

// The answer of a function on a cleaned line.
pub fn answer(function: u8, a: &[u8], out: &mut [u8]) -> usize {
    match function {
        22 => strip_lexical(a, out),
        23 => say_flag(out, 0, lexical::phi_rhs_pure(a)),
        24 => ident_words(a, out),
        _ => nothing(),
    }
}
