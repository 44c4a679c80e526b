// The lines of a text, one by one.
ghost use Rattle.std.specs.Prelude.{◌≡◌, ◌-◌, length};
ghost use Rattle.std.specs.Iterator.{at_most};
ghost use Rattle.lines.specs.Inner.Each.{GivesLine};

// A line with the place where it begins and the place of its end, before its LF.
#[derive(Clone, Copy)]
pub struct Line<'a> {
    pub from: usize,
    pub to: usize,
    pub bytes: &'a [u8],
}

// The lines of a text from a place on.
#[derive(Clone, Copy)]
pub struct Lines<'a> {
    pub text: &'a [u8],
    pub at: usize,
}

impl<'a> Iterator for Lines<'a> {
    type Item = Line<'a>;

    ghost next_gives = { GivesLine };

    ghost remaining = { λ s. at_most (length s.text.now - s.at) };

    fn next(&mut self) -> Option<Line<'a>> {
        let text = self.text;
        let from = self.at;
        if from >= text.len() {
            return None;
        }
        let to = crate::find_byte(text, from, 10);
        self.at = crate::after(text, to);
        Some(Line {
            from,
            to,
            bytes: &text[from..to],
        })
    }
}

// The lines of a text.
pub fn each(text: &[u8]) -> Lines<'_>
    ensures text { result.text.now ≡ text.now }
    ensures front { result.at ≡ 0 }
{
    Lines { text, at: 0 }
}

// The lines of a text from a place on.
pub fn from(text: &[u8], at: usize) -> Lines<'_>
    ensures text { result.text.now ≡ text.now }
    ensures place { result.at ≡ at }
{
    Lines { text, at }
}
