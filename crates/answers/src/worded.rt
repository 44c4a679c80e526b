// Answers of the functions on what a text reads and on searching by text.
use crate::say::{nothing, say_byte, say_eight, say_flag};

// How often a line reads a register.
fn reads(a: &[u8], number: u64, out: &mut [u8]) -> usize {
    let t = parse::text_of(a, parse::parse(a));
    say_eight(out, 0, words::count_reg(t, names::Register(number)) as u64)
}

// 1 and a line with a replacement in the place of a hit. It is no longer than the line twice, the replacement and two bytes.
fn replaced(a: &[u8], w: text::Span, b: &[u8], out: &mut [u8]) -> usize {
    let n = out.len();
    if n < 3 {
        return nothing();
    }
    if (n - 3) / 2 < a.len() {
        return nothing();
    }
    if n - 3 - 2 * a.len() < b.len() {
        return nothing();
    }
    let o = lines::put_byte(out, 0, 1);
    words::put_replaced(a, w, b, out, o)
}

// 0, or 1 and the line with a register replaced by a text.
fn replace_reg(a: &[u8], number: u64, b: &[u8], out: &mut [u8]) -> usize {
    match words::find_reg(a, names::Register(number)) {
        Some(w) => replaced(a, w, b, out),
        None => say_byte(out, 0, 0),
    }
}

// 0, or 1 and whether the one place of a register stands after `new`, and whether it is a target.
fn occurrence_context(a: &[u8], number: u64, out: &mut [u8]) -> usize {
    match words::find_reg(a, names::Register(number)) {
        Some(w) => {
            let o = say_byte(out, 0, 1);
            let p = say_flag(out, o, words::after_new(a, w.from));
            say_flag(out, p, words::as_target(a, w.to))
        }
        None => say_byte(out, 0, 0),
    }
}

// Whether a text is one run of name bytes.
fn is_run(b: &[u8]) -> bool {
    !b.is_empty() && b.iter().all(|&x| text::is_name_byte(x))
}

// How often a name stands in a text, as the number, or as whether it does. A text that is no run of name bytes is not looked for.
fn count_word(a: &[u8], b: &[u8], counted: bool, out: &mut [u8]) -> usize {
    if !is_run(b) {
        return nothing();
    }
    let n = words::count_word(a, b);
    if counted {
        return say_eight(out, 0, n as u64);
    }
    say_flag(out, 0, 0 < n)
}

// The answer of a function on words.
pub fn answer(function: u8, number: u64, a: &[u8], b: &[u8], out: &mut [u8]) -> usize {
    match function {
        13 => reads(a, number, out),
        14 => replace_reg(a, number, b, out),
        15 => occurrence_context(a, number, out),
        16 => count_word(a, b, true, out),
        17 => count_word(a, b, false, out),
        _ => nothing(),
    }
}
