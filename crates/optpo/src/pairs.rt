// The entries of a PO file that was accepted, a line each.
use input::host::{Failure, Output};

// How long the head of a file is, its three lines with their LFs.
const HEAD: usize = 63;

const ID_WORD: usize = 7;

const STR_WORD: usize = 8;

// The system's number for why an empty line is not written: that of no error.
const EMPTY: i32 = 0;

// Writes what stands between the quotes of the line at a place, behind a word with its quote.
fn put_quoted(out: &mut Output, file: &[u8], at: usize, word: usize) {
    let l = lines::cut(file, at, lines::find_byte(file, at, 10));
    if l.is_empty() {
        out.fail(Failure::System(EMPTY));
    } else {
        out.text(lines::cut(l, word, l.len() - 1));
    }
}

// Writes the entry at a place: its msgid, a TAB and its msgstr.
fn put_pair(out: &mut Output, file: &[u8], at: usize) {
    let id = input::behind(file, at, b'\n', 2);
    let translated = input::behind(file, id, b'\n', 1);
    put_quoted(out, file, id, ID_WORD);
    out.text(b"\t");
    put_quoted(out, file, translated, STR_WORD);
    out.text(b"\n");
}

// Writes the entries of a file, and returns whether they went out.
pub fn put_pairs(rt: &HostRuntime, file: &[u8]) -> Result<(), Failure> {
    let mut out = Output::new(rt);
    let mut at = HEAD;
    for _ in 0..file.len() {
        if file.len() <= at {
            break;
        }
        put_pair(&mut out, file, at);
        out.sent()?;
        at = input::behind(file, at, b'\n', 4);
    }
    Ok(())
}
