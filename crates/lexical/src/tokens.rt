// The tokens of a text, one by one.
ghost use Rattle.std.specs.Prelude.{◌≡◌, [], ◌-◌, length};
ghost use Rattle.std.specs.Iterator.{at_most};
ghost use Rattle.lexical.specs.Inner.Lex.{tail_of};
ghost use Rattle.lexical.specs.Inner.Tokens.{GivesToken};

use crate::{Kind, Tail};

// A token: where it begins, its first byte, and what becomes of it.
#[derive(Clone, Copy)]
pub struct Found {
    pub at: usize,
    pub byte: u8,
    pub kind: Kind,
}

// The tokens of a text from a place on, where `tail` is that of what is left of the text before it.
#[derive(Clone, Copy)]
pub struct Tokens<'a> {
    pub text: &'a [u8],
    pub at: usize,
    pub tail: Tail,
}

impl<'a> Iterator for Tokens<'a> {
    type Item = Found;

    ghost next_gives = { GivesToken };

    ghost remaining = { λ s. at_most (length s.text.now - s.at) };

    fn next(&mut self) -> Option<Found> {
        let text = self.text;
        let at = self.at;
        if at >= text.len() {
            return None;
        }
        let step = crate::step_at(text, at, self.tail);
        self.at = step.next;
        self.tail = step.tail;
        Some(Found {
            at,
            byte: text[at],
            kind: step.kind,
        })
    }
}

// The tokens of a text.
pub fn each(text: &[u8]) -> Tokens<'_>
    ensures text { result.text.now ≡ text.now }
    ensures front { result.at ≡ 0 }
    ensures none_left { result.tail ≡ tail_of [] }
{
    Tokens {
        text,
        at: 0,
        tail: crate::no_tail(),
    }
}
