// Answers of the functions on values: comments and purity.
use crate::say::{nothing, say_byte, say_flag};
use expr::kinds::Purity;

// A text without its comments.
fn strip_comments(a: &[u8], out: &mut [u8]) -> usize {
    if out.len() < a.len() {
        return nothing();
    }
    expr::strip_comments(a, out, 0)
}

// The number of a purity.
fn code(p: Purity) -> u8 {
    match p {
        Purity::Stable => 0,
        Purity::Ident => 1,
        Purity::Effectful => 2,
    }
}

// The purity of a value in strict mode or plain, as its number, or as whether it is pure.
fn purity(a: &[u8], strict: bool, coded: bool, out: &mut [u8]) -> usize {
    if out.len() < a.len() {
        return nothing();
    }
    let p = expr::purity(a, strict, out);
    if coded {
        return say_byte(out, 0, code(p));
    }
    say_flag(out, 0, expr::is_pure(p))
}

// The answer of a function on values.
pub fn answer(function: u8, a: &[u8], out: &mut [u8]) -> usize {
    match function {
        20 => strip_comments(a, out),
        21 => purity(a, false, true, out),
        36 => purity(a, false, false, out),
        37 => purity(a, true, true, out),
        _ => nothing(),
    }
}
