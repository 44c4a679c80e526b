// Shows a listing beside what it becomes: `optview [--text] [--strict] [--joined] [--] [FILE]`. It reads FILE, or standard input, and writes a page in HTML, or with
// `--text` plain text, to standard output. On standard error it says nothing where it showed the listing, `optview: refused ..` first where that was
// refused, and anything else where it could not read or write: it sets no exit status, so tools/front.sh makes one of that.
#![tactic(auto)]

mod asked;
mod chain;
mod escape;
mod listing;
mod page;
mod parts;
mod plain;
mod put;
mod stages;
mod tell;
mod why;

ghost use Rattle.std.specs.Prelude.{◌≡◌, cond, ◌*◌, leb};

use asked::Options;
use input::host;
use input::host::Output;
use listing::Listing;
use origins::Form;
use stages::Noted;

// The most lines of a listing.
const LINES: usize = 1024;

// Room for a listing: one byte more than is taken, so that a longer one is seen.
const TEXT: usize = 16385;

// Room for what a listing becomes.
const TIDY: usize = 32769;

// How many bytes the record of a line has.
const RECORD: usize = 7;

// How many bytes the records of `n` lines are: there are at most 1,024 lines.
fn size_of(n: usize) -> usize
    ensures { result ≡ cond (leb n 1024) (n * 7) 0 }
{
    if n <= LINES { n * RECORD } else { 0 }
}

// Shows a listing that is there whole.
fn show(rt: &HostRuntime, options: Options, text: &[u8], name: &[u8]) {
    let mut tidy = [0; TIDY];
    let mut records = [0; RECORD * LINES];
    let mut noted = Noted::new();
    let answer = noted.run_all(options.mode(), text, &mut tidy, &mut records);
    let Ok(length) = answer else {
        tell::refused(
            rt,
            limits::number_of(answer),
            limits::place_of(answer),
            name,
        );
        return;
    };
    let count = lines::count_lines(text);
    let listing = Listing {
        text,
        tidy: lines::cut(&tidy, 0, length),
        records: lines::cut(&records, 0, size_of(count)),
        noted: &noted,
        first: &[],
        next: &[],
        count,
    };
    show_linked(rt, options, listing, name);
}

// Shows a listing, once the reader of records has linked its lines.
fn show_linked(rt: &HostRuntime, options: Options, listing: Listing<'_>, name: &[u8]) {
    let mut first = [0; LINES];
    let mut next = [0; LINES];
    let got = reader::lines_of_all(Form::Ol, listing.records, &mut first, &mut next);
    let number = reader::number_of(got);
    if number != 0 {
        tell::bad_records(rt, number, reader::place_of(got));
        return;
    }
    let linked = Listing {
        first: &first,
        next: &next,
        ..listing
    };
    let mut out = Output::new(rt);
    if options.text {
        plain::put_both(&mut out, linked);
    } else {
        page::put_page(&mut out, linked, name);
    }
    if let Err(why) = out.sent() {
        tell::cannot_write(rt, why);
    }
}

fn main(rt: HostRuntime) {
    let rt = &rt;
    let asked = asked::take_words(rt);
    if asked.rest.saturating_add(1) < host::arg_count(rt) {
        host::say(rt, b"optview: more than one file is named\n");
        return;
    }
    let mut name = host::buffer();
    let mut room = [0; TEXT];
    if let Some((name, text)) = input::take_listing(
        rt, b"optview", asked.rest, &mut name, &mut room,
    ) {
        show(rt, asked.options, text, name);
    }
}
