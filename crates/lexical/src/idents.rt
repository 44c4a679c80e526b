// The words of a cleaned text, one by one.
ghost use Rattle.std.specs.Prelude.{◌≡◌};
ghost use Rattle.std.specs.Iterator.{YieldsFirstRef, item_count};
ghost use Rattle.lexical.specs.Idents.{words_in};
ghost use Rattle.lexical.specs.Inner.Words.{words_left};

// The words of a text from a place on, where a character begins.
#[derive(Clone, Copy)]
pub struct Words<'a> {
    text: &'a [u8],
    at: usize,
}

impl<'a> Iterator for Words<'a> {
    type Item = &'a [u8];

    ghost next_gives = { YieldsFirstRef words_left };

    ghost remaining = { item_count words_left };

    fn next(&mut self) -> Option<&'a [u8]> {
        let text = self.text;
        let word = crate::next_word(text, self.at)?;
        self.at = word.to;
        Some(lines::cut(text, word.from, word.to))
    }
}

// The words of a cleaned text.
pub fn each(text: &[u8]) -> Words<'_>
    ensures { words_left result ≡ words_in text.now }
{
    Words { text, at: 0 }
}
