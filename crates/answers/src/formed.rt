// Answers of the functions on the forms of lines and values.
use crate::lexed::strip_lexical;
use crate::say::{nothing, say_flag};

// A value, in parentheses where it needs them.
fn paren_if_needed(a: &[u8], after_new: bool, out: &mut [u8]) -> usize {
    let n = out.len();
    if n < 2 {
        return nothing();
    }
    if n - 2 < a.len() {
        return nothing();
    }
    forms::put_paren(a, after_new, out, 0)
}

// Whether one of some lines breaks a value, which is lent cleaned too.
fn breaks_any(a: &[u8], clean: &[u8], b: &[u8]) -> bool {
    for line in lines::each::each(b) {
        if forms::breaks(a, clean, line.bytes) {
            return true;
        }
    }
    false
}

// Whether one of some lines breaks a value.
fn breaks_dependency(a: &[u8], b: &[u8], out: &mut [u8]) -> usize {
    let n = strip_lexical(a, out);
    if out.len() < n {
        return nothing();
    }
    let breaks = breaks_any(a, lines::cut(out, 0, n), b);
    say_flag(out, 0, breaks)
}

// The answer of a function on forms.
pub fn answer(function: u8, number: u64, a: &[u8], b: &[u8], out: &mut [u8]) -> usize {
    match function {
        30 => say_flag(out, 0, forms::is_control_header(a)),
        31 => paren_if_needed(a, number != 0, out),
        32 => say_flag(out, 0, forms::is_plain_ref(a)),
        33 => say_flag(out, 0, forms::is_primary_expr(a)),
        34 => breaks_dependency(a, b, out),
        _ => nothing(),
    }
}
