// A listing and what it became, line by line.
ghost use Rattle.std.specs.Prelude.{◌-◌};
ghost use Rattle.std.specs.Iterator.{at_most};

use crate::chain;
use crate::chain::Chain;
use crate::stages::{Noted, Stage};
use origins::{Form, Went};

// A listing with what it became, the records of its lines, the stages in which they went, and the links between lines: the first raw line behind each tidy line, and
// the next one behind each raw line. There are `count` raw lines.
#[derive(Clone, Copy)]
pub struct Listing<'a> {
    pub text: &'a [u8],
    pub tidy: &'a [u8],
    pub records: &'a [u8],
    pub noted: &'a Noted,
    pub first: &'a [usize],
    pub next: &'a [usize],
    pub count: usize,
}

impl<'a> Listing<'a> {
    // The raw lines.
    pub fn raw_lines(self) -> RawLines<'a> {
        RawLines {
            all: self,
            number: 0,
            from: 0,
            to: 0,
        }
    }

    // The tidy lines. There is a raw line behind each of them, and the text may lack the last, an empty one.
    pub fn tidy_lines(self) -> TidyLines<'a> {
        TidyLines {
            all: self,
            number: 0,
            from: 0,
        }
    }

    // The raw lines behind the tidy line that a raw line belongs to.
    fn behind(self, went: Went) -> Chain<'a> {
        let at = match tidy_of(went) {
            Some(n) => chain::number_or(self.first, n, self.count),
            None => self.count,
        };
        chain::from(self.next, at, self.count)
    }
}

// The tidy line that a raw line belongs to.
pub fn tidy_of(went: Went) -> Option<usize> {
    match went {
        Went::Equal(n) | Went::Changed(n) | Went::Inside(n) => Some(n),
        Went::Away => None,
    }
}

// A raw line, from 0: where it went, its bytes, the tidy line that stands there, the stages in which it went and in which its value went into another line, and the
// raw lines behind the tidy line that it belongs to.
#[derive(Clone, Copy)]
pub struct Raw<'a> {
    pub number: usize,
    pub went: Went,
    pub line: &'a [u8],
    pub now: &'a [u8],
    pub gone: Option<Stage>,
    pub held: Option<Stage>,
    pub behind: Chain<'a>,
}

// The raw lines from one on: where it begins, and where the next tidy line begins.
#[derive(Clone, Copy)]
pub struct RawLines<'a> {
    all: Listing<'a>,
    number: usize,
    from: usize,
    to: usize,
}

impl<'a> Iterator for RawLines<'a> {
    type Item = Raw<'a>;

    ghost remaining = { λ s. at_most (s.all.count - s.number) };

    fn next(&mut self) -> Option<Raw<'a>> {
        let all = self.all;
        let number = self.number;
        if all.count <= number {
            return None;
        }
        let went = reader::record_at(Form::Ol, all.records, number);
        let raw = Raw {
            number,
            went,
            line: line_at(all.text, self.from),
            now: whole_line(all.tidy, self.to),
            gone: all.noted.gone(number),
            held: all.noted.held(number),
            behind: all.behind(went),
        };
        if matches!(went, Went::Equal(_) | Went::Changed(_)) {
            self.to = next_line(all.tidy, self.to);
        }
        self.from = next_line(all.text, self.from);
        self.number = number + 1;
        Some(raw)
    }
}

// A tidy line, from 0: its bytes, and the raw lines behind it with the first of them.
#[derive(Clone, Copy)]
pub struct Tidy<'a> {
    pub number: usize,
    pub line: &'a [u8],
    pub first: usize,
    pub behind: Chain<'a>,
}

// The tidy lines from one on, and where it begins.
#[derive(Clone, Copy)]
pub struct TidyLines<'a> {
    all: Listing<'a>,
    number: usize,
    from: usize,
}

impl<'a> Iterator for TidyLines<'a> {
    type Item = Tidy<'a>;

    ghost remaining = { λ s. at_most (s.all.count - s.number) };

    fn next(&mut self) -> Option<Tidy<'a>> {
        let all = self.all;
        let number = self.number;
        let first = chain::number_or(all.first, number, all.count);
        if all.count <= number || all.count <= first {
            return None;
        }
        let line = whole_line(all.tidy, self.from);
        self.from = next_line(all.tidy, self.from);
        self.number = number + 1;
        Some(Tidy {
            number,
            line,
            first,
            behind: chain::from(all.next, first, all.count),
        })
    }
}

// The line at a place, without a CR before its LF.
fn line_at(s: &[u8], at: usize) -> &[u8] {
    let line = whole_line(s, at);
    let e = lines::find_byte(s, at, b'\n');
    if e < s.len() {
        return line.strip_suffix(b"\r").unwrap_or(line);
    }
    line
}

// The line at a place, whole.
fn whole_line(s: &[u8], at: usize) -> &[u8] {
    lines::cut(s, at, lines::find_byte(s, at, b'\n'))
}

// The place of the line after that at a place.
fn next_line(s: &[u8], at: usize) -> usize {
    lines::after(s, lines::find_byte(s, at, b'\n'))
}
