// Answers of single functions, as bytes: what the program `vectors` writes, to be held against the original's.
#![tactic(auto)]

mod dropped;
mod formed;
mod lexed;
mod named;
mod passed;
mod placed;
pub mod say;
mod texts;
mod values;
mod worded;

// Writes the answer of a function and returns its length, past the end of the buffer where there is none.
pub fn answer(function: u8, number: u64, a: &[u8], b: &[u8], out: &mut [u8]) -> usize {
    match function {
        1..=8 => texts::answer(function, number, a, out),
        9..=12 | 18..=19 => named::answer(function, a, out),
        13..=17 => worded::answer(function, number, a, b, out),
        20..=21 | 36..=37 => values::answer(function, a, out),
        22..=24 => lexed::answer(function, a, out),
        25..=29 => placed::answer(function, number, a, out),
        30..=34 => formed::answer(function, number, a, b, out),
        38..=39 => dropped::answer(function, number, a, out),
        41 | 45 => passed::answer(function, a, out),
        _ => say::nothing(),
    }
}
