// The name that a pruned line leaves out though its region uses it.
use lines::each;
use names::Register;

// More lines than a text may have.
const LINES: usize = 16385;

// The line at a place.
fn line_at(text: &[u8], at: usize) -> &[u8] {
    lines::cut(text, at, lines::find_byte(text, at, b'\n'))
}

// Where the region begins that the line at a place is in.
fn region_start(text: &[u8], line: usize) -> usize {
    let mut at = line;
    for _ in 0..LINES {
        if at == 0 || place::is_header(line_at(text, at)) {
            return at;
        }
        at = lines::line_start(text, at - 1);
    }
    at
}

// The names of a declaration, with their commas.
fn body_of(line: &[u8]) -> &[u8] {
    let t = text::trim(line);
    if t.is_empty() {
        return t;
    }
    lines::cut(t, 4, t.len() - 1)
}

// How often a line declares a register.
fn times_declared(line: &[u8], reg: Register) -> usize {
    if !parse::declares(line) {
        return 0;
    }
    let mut n: usize = 0;
    for name in lines::pieces(body_of(line), b',') {
        if names::names_reg(text::trim(name), reg) {
            n = n.saturating_add(1);
        }
    }
    n
}

// The register of a name of a line, where the region uses it and the line `p` declares it less often.
fn missing_of(name: &[u8], line: &[u8], region: &[u8], p: &[u8]) -> Option<Register> {
    let reg = names::reg_name(name)?;
    let is_missing = reading::uses(region, reg)
        & (times_declared(p, reg) < times_declared(line, reg));
    is_missing.then_some(reg)
}

// The register that the line `p` leaves out of the raw line at a place, where its region uses it: the first.
pub fn left_out(raw: &[u8], at: usize, p: &[u8]) -> Option<Register> {
    let line = line_at(raw, at);
    if !parse::declares(line) {
        return None;
    }
    let start = region_start(raw, at);
    let region = lines::cut(raw, start, place::region_end(raw, start));
    lines::pieces(body_of(line), b',').find_map(|name| missing_of(
        text::trim(name),
        line,
        region,
        p,
    ))
}

// Where the first line stands of the region around a place that uses a register.
pub fn use_at(raw: &[u8], at: usize, reg: Register) -> usize {
    for line in each::from(raw, region_start(raw, at)) {
        if reading::line_uses(line.bytes, reg) {
            return line.from;
        }
    }
    raw.len()
}
