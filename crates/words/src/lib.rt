// Words: runs of name bytes, what a text reads, and searching by text.
#![tactic(auto)]

ghost use Rattle.std.specs.Prelude.{◌≡◌, false, cond, not, ◌&&◌, ◌||◌, List, [], ◌∷◌, ℕ, ◌+◌, ◌-◌, ◌≤◌, ◌<◌, eqb, length, drop, get_or};
ghost use Rattle.lines.specs.Lf.{same, suffixed};
ghost use Rattle.lines.specs.Inner.Out.{Wrote};
ghost use Rattle.names.specs.Names.{reg_text, phi_text};
ghost use Rattle.words.specs.Runs.{reads_of};
ghost use Rattle.words.specs.Inner.Runs.{gap_len, run_len, reg_gap, after_name, short_at, words_of, NextRun};
ghost use Rattle.words.specs.Hits.{reg_hit, after_new, as_target, glue_left, glue_right, glued, replaced_at};

// The place of the first name byte from a place on, or the end.
fn run_start(s: &[u8], i: usize) -> usize
    ensures { result ≡ i + gap_len (drop i s.now) }
{
    for j in i..s.len() {
        if text::is_name_byte(s[j]) {
            return j;
        }
    }
    i.max(s.len())
}

// The end of the run of name bytes that stands at a place.
pub fn run_end(s: &[u8], i: usize) -> usize
    ensures { result ≡ i + run_len (drop i s.now) }
{
    for j in i..s.len() {
        if !text::is_name_byte(s[j]) {
            return j;
        }
    }
    i.max(s.len())
}

// Whether a run that begins with `r` stands at the place j, where a run may begin at i.
fn begins_reg(s: &[u8], i: usize, j: usize) -> bool
    ensures { result ≡ eqb (get_or s.now j 0) 114 && not (after_name i j s.now) }
{
    if lines::byte_at(s, j) != b'r' {
        return false;
    }
    if j <= i {
        return true;
    }
    !text::is_name_byte(lines::byte_at(s, j - 1))
}

// The place of the first run from a place on that begins with `r`, or the end.
pub fn reg_start(s: &[u8], i: usize) -> usize
    ensures { result ≡ i + reg_gap false (drop i s.now) }
{
    for j in i..s.len() {
        if begins_reg(s, i, j) {
            return j;
        }
    }
    i.max(s.len())
}

// One for a run that passes its test, else none.
fn one_if(b: bool) -> usize
    ensures { result ≡ cond b 1 0 }
{
    if b { 1 } else { 0 }
}

// How often a text reads a register: the runs that begin with `r` are looked at.
pub fn count_reg(s: &[u8], reg: names::Register) -> usize
    ensures { result ≡ reads_of reg.0 s.now }
{
    let mut n = 0;
    let mut i = reg_start(s, 0);
    // Kept: the place moves to the next run that begins with `r`.
    while i < s.len() {
        let e = run_end(s, i);
        n += one_if(names::names_reg(&s[i..e], reg));
        i = reg_start(s, e);
    }
    n
}

// How many runs of a text are a word.
pub fn count_word(s: &[u8], p: &[u8]) -> usize
    ensures { result ≡ words_of p.now s.now }
{
    let mut n = 0;
    let mut i = run_start(s, 0);
    // Kept: the place moves to the next run.
    while i < s.len() {
        let e = run_end(s, i);
        n += one_if(lines::same(lines::cut(s, i, e), p));
        i = run_start(s, e);
    }
    n
}

// How many runs of a text are a phi as it is printed.
pub fn count_phi(s: &[u8], phi: names::Phi) -> usize
    ensures { result ≡ words_of (phi_text phi.0) s.now }
{
    let mut n = 0;
    let mut i = run_start(s, 0);
    // Kept: the place moves to the next run.
    while i < s.len() {
        let e = run_end(s, i);
        n += one_if(names::is_phi_text(lines::cut(s, i, e), phi));
        i = run_start(s, e);
    }
    n
}

// Whether `r` and the digit at the place j are a run, where a run may begin at i.
fn short_at(s: &[u8], i: usize, j: usize) -> bool
    requires { (i < j) × (j < length s.now) }
    ensures { result ≡ short_at i j s.now }
{
    if !begins_reg(s, i, j - 1) {
        return false;
    }
    !text::is_name_byte(lines::byte_at(s, j + 1))
}

// The place of the first run from a place on that is `r` and the digit d, or the end: by the digit, which is rarer than `r`.
fn next_short(s: &[u8], i: usize, d: u8) -> usize
    requires { (48 ≤ d) × (d ≤ 57) }
    ensures { NextRun (λ (w : List ℕ). same w (114 ∷ d ∷ [])) s.now i result }
{
    if s.len() <= i {
        return i;
    }
    let mut j = lines::find_byte(s, i + 1, d);
    // Kept: the place moves to the next digit `d`.
    while j < s.len() {
        if short_at(s, i, j) {
            return j - 1;
        }
        j = lines::find_byte(s, j + 1, d);
    }
    j
}

// The place of the first run from a place on that is a register as it is printed, or the end: by its `r`.
fn next_long(s: &[u8], i: usize, reg: names::Register) -> usize
    ensures { NextRun (λ (w : List ℕ). same w (reg_text reg.0)) s.now i result }
{
    let mut j = reg_start(s, i);
    // Kept: the place moves to the next run that begins with `r`.
    while j < s.len() {
        let e = run_end(s, j);
        if names::is_reg_text(&s[j..e], reg) {
            return j;
        }
        j = reg_start(s, e);
    }
    j
}

// The place of the first run from a place on that is a register as it is printed, or the end.
fn next_reg(s: &[u8], i: usize, reg: names::Register) -> usize
    ensures { NextRun (λ (w : List ℕ). same w (reg_text reg.0)) s.now i result }
{
    if reg.0 < 10 {
        return next_short(s, i, reg.0 as u8 + b'0');
    }
    next_long(s, i, reg)
}

// The one place at which a register stands as it is printed, with no name byte on either side.
pub fn find_reg(s: &[u8], reg: names::Register) -> Option<text::Span>
    ensures { result ≡ reg_hit reg.0 s.now }
{
    let n = s.len();
    let a = next_reg(s, 0, reg);
    if n <= a {
        return None;
    }
    let e = run_end(s, a);
    let b = next_reg(s, e, reg);
    if b < n {
        return None;
    }
    Some(text::Span { from: a, to: e })
}

// Whether what stands before a place ends in `new`.
pub fn after_new(line: &[u8], from: usize) -> bool
    ensures { result ≡ after_new from line.now }
{
    lines::ends_with(text::trim_end(lines::cut(line, 0, from)), b"new")
}

// Whether what follows a place makes what stands before it a target.
pub fn as_target(line: &[u8], to: usize) -> bool
    ensures { result ≡ as_target to line.now }
{
    let a = text::trim_start(lines::cut(line, to, line.len()));
    if lines::starts_with(a, b"++") {
        return true;
    }
    if lines::starts_with(a, b"--") {
        return true;
    }
    if !lines::starts_with(a, b"=") {
        return false;
    }
    !lines::starts_with(a, b"==")
}

// The last byte, or 0 where there is none.
fn last(s: &[u8]) -> u8
    ensures { result ≡ get_or s.now (length s.now - 1) 0 }
{
    if s.len() == 0 {
        return 0;
    }
    s[s.len() - 1]
}

// Whether a replacement would be glued to what stands before or after it.
fn is_glued(before: &[u8], rep: &[u8], after: &[u8]) -> bool
    ensures { result ≡ glue_left before.now rep.now || glue_right rep.now after.now }
{
    let b = last(before);
    let c = lines::byte_at(rep, 0);
    let d = last(rep);
    let e = lines::byte_at(after, 0);
    ((b == b'-') & (c == b'-'))
        | ((b == b'+') & (c == b'+'))
        | (((b'0' <= d) & (d <= b'9')) & (e == b'.'))
}

// Writes a replacement, in parentheses where it would be glued, and returns the place after it.
fn put_glued(before: &[u8], rep: &[u8], after: &[u8], out: &mut [u8], o: usize) -> usize
    requires { o + length (glued before.now rep.now after.now) ≤ length out.old }
    ensures { Wrote out.old o (glued before.now rep.now after.now) out.new result }
{
    if !is_glued(before, rep, after) {
        return lines::put(out, o, rep);
    }
    let p = lines::put_byte(out, o, b'(');
    let q = lines::put(out, p, rep);
    lines::put_byte(out, q, b')')
}

// Writes a line with a replacement in the place of a hit, and returns the place after it.
pub fn put_replaced(line: &[u8], w: text::Span, rep: &[u8], out: &mut [u8], o: usize) -> usize
    requires { o + length (replaced_at w.from w.to line.now rep.now) ≤ length out.old }
    ensures { Wrote out.old o (replaced_at w.from w.to line.now rep.now) out.new result }
{
    let from = w.from;
    let to = w.to;
    let before = lines::cut(line, 0, from);
    let after = lines::cut(line, to, line.len());
    let p = lines::put(out, o, before);
    let q = put_glued(before, rep, after, out, p);
    lines::put(out, q, after)
}
