// The raw line that a pruned line stands against, found by asking what is accepted.
use lines::each;
use pruned::Judged;

// More lines than a text may have.
const LINES: usize = 1026;

// Room for two texts.
const BOTH: usize = 32770;

// Checks a pruned text against a raw one.
pub fn judge(raw: &[u8], other: &[u8]) -> Judged {
    let mut a = [0; pruned::BYTES];
    let mut b = [0; pruned::BYTES];
    let mut c = [0; pruned::BYTES];
    let mut live = [0; pruned::PLACES];
    pruned::check_pruning(raw, other, &mut a, &mut b, &mut c, &mut live)
}

// Writes a text behind what stands there, where it has room, and returns the place after it.
fn add(out: &mut [u8], o: usize, text: &[u8]) -> usize {
    if o <= out.len() && text.len() <= out.len() - o {
        return lines::put(out, o, text);
    }
    o
}

// Ends the last line of a text of `n` bytes, and returns the place after it.
fn end_line(out: &mut [u8], n: usize) -> usize {
    if n == 0 {
        return 0;
    }
    if lines::byte_at(out, n - 1) == b'\n' {
        return n;
    }
    add(out, n, b"\n")
}

// Whether the raw text is accepted with `front` in the place of its lines before `at`.
fn stands_at(raw: &[u8], front: &[u8], at: usize) -> bool {
    let mut both = [0; BOTH];
    let k = add(&mut both, 0, front);
    let n = end_line(&mut both, k);
    let m = add(&mut both, n, lines::cut(raw, at, raw.len()));
    pruned::number_of(judge(raw, lines::cut(&both, 0, m))) == 0
}

// How many of the first `n` lines are no declarations.
fn others_in(text: &[u8], n: usize) -> usize {
    let declared = each::each(text)
        .take(n)
        .filter(|line| parse::declares(line.bytes))
        .count();
    n.saturating_sub(declared)
}

// Where the line after the first `n` lines stands that are no declarations.
fn behind_others(text: &[u8], n: usize) -> usize {
    let mut rest = n;
    for line in each::each(text) {
        if rest == 0 {
            return line.from;
        }
        if !parse::declares(line.bytes) {
            rest -= 1;
        }
    }
    text.len()
}

// Where the declarations end that begin at a place.
fn run_end(text: &[u8], from: usize) -> usize {
    for line in each::from(text, from) {
        if !parse::declares(line.bytes) {
            return line.from;
        }
    }
    text.len()
}

// Where a line begins that ends just before a place.
fn line_above(text: &[u8], at: usize) -> usize {
    if at == 0 {
        return 0;
    }
    lines::line_start(text, at - 1)
}

// The last raw line at which a reading stands that has taken `front`, the first `n` pruned lines. Lines that are no declarations stay, each
// in its order: so it is among the declarations behind as many of them, or the line that ends these.
pub fn raw_line(raw: &[u8], front: &[u8], n: usize) -> Option<usize> {
    let first = behind_others(raw, others_in(front, n));
    let mut at = run_end(raw, first);
    for _ in 0..LINES {
        if stands_at(raw, front, at) {
            return Some(at);
        }
        if at <= first {
            return None;
        }
        at = line_above(raw, at);
    }
    None
}
