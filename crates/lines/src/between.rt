// The pieces of a text, cut at each of one byte.

ghost use Rattle.std.specs.Prelude.{◌≡◌};
ghost use Rattle.std.specs.Iterator.{YieldsFirstRef, item_count};
ghost use Rattle.lines.specs.Lf.{parts_of};
ghost use Rattle.lines.specs.Inner.Pieces.{pieces_left};

// The pieces that have not come yet: those of the rest of the text, and none once the last has come.
#[derive(Drop)]
pub struct PiecesLeft<'a> {
    rest: Option<&'a [u8]>,
    by: u8,
}

// The pieces between the bytes `by`: one more than there are of these.
pub fn pieces(text: &[u8], by: u8) -> PiecesLeft<'_>
    ensures { pieces_left result ≡ parts_of by text.now }
{
    PiecesLeft {
        rest: Some(text),
        by,
    }
}

impl<'a> Iterator for PiecesLeft<'a> {
    type Item = &'a [u8];

    ghost next_gives = { YieldsFirstRef pieces_left };

    ghost remaining = { item_count pieces_left };

    fn next(&mut self) -> Option<&'a [u8]> {
        let rest = self.rest?;
        let e = crate::find_byte(rest, 0, self.by);
        if e < rest.len() {
            self.rest = Some(&rest[e + 1..]);
            return Some(&rest[..e]);
        }
        self.rest = None;
        Some(rest)
    }
}
