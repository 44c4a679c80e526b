// The bytes of a literal's text, one by one.
ghost use Rattle.std.specs.Prelude.{◌≡◌, length};
ghost use Rattle.std.specs.Iterator.{at_most};
ghost use Rattle.po.specs.Inner.Units.{GivesByte};

use crate::unit_at;

// What of a literal was not gone over yet, and its quote.
#[derive(Clone, Copy)]
pub struct Units<'a> {
    pub rest: &'a [u8],
    pub quote: u8,
}

impl<'a> Iterator for Units<'a> {
    type Item = u8;

    ghost next_gives = { GivesByte };

    ghost remaining = { λ s. at_most (length s.rest.now) };

    fn next(&mut self) -> Option<u8> {
        let rest = self.rest;
        let x = unit_at(rest, 0, self.quote);
        if x.size == 0 {
            return None;
        }
        self.rest = &rest[x.size..];
        Some(x.byte)
    }
}

// The bytes of the text that follows the quote `q`.
pub fn each(s: &[u8], q: u8) -> Units<'_>
    ensures rest { result.rest.now ≡ s.now }
    ensures quote { result.quote ≡ q }
{
    Units { rest: s, quote: q }
}
