// The raw lines behind a tidy line, as the reader of records links them: the first of each tidy line, and for each raw line the next one. The number of all raw
// lines, `end`, ends a chain.
ghost use Rattle.std.specs.Prelude.{◌≡◌, length, get_or};
ghost use Rattle.std.specs.Iterator.{YieldsFirst, item_count};
ghost use Rattle.reader.specs.Chains.{along};
ghost use Rattle.optview.specs.Inner.Chained.{lines_left};

// The number at a place; `other` past the end.
pub fn number_or(numbers: &[usize], i: usize, other: usize) -> usize
    ensures { result ≡ get_or numbers.now i other }
{
    if i < numbers.len() { numbers[i] } else { other }
}

// The raw lines of a chain that have not come yet: from `at` on, and at most `left`.
#[derive(Clone, Copy)]
pub struct Chain<'a> {
    next: &'a [usize],
    at: usize,
    end: usize,
    left: usize,
}

// The chain from line `at` on.
pub fn from(next: &[usize], at: usize, end: usize) -> Chain<'_>
    ensures { lines_left result ≡ along end next.now end at }
{
    Chain {
        next,
        at,
        end,
        left: end,
    }
}

impl<'a> Chain<'a> {
    // How many lines the chain has.
    pub fn len(self) -> usize
        ensures { result ≡ length (lines_left self.entry) }
    {
        self.count()
    }
}

impl<'a> Iterator for Chain<'a> {
    type Item = usize;

    ghost next_gives = { YieldsFirst lines_left };

    ghost remaining = { item_count lines_left };

    fn next(&mut self) -> Option<usize> {
        let here = self.at;
        if self.left == 0 || self.end <= here {
            return None;
        }
        self.at = number_or(self.next, here, self.end);
        self.left -= 1;
        Some(here)
    }
}
