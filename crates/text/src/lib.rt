// Byte classes, white space, UTF-8 and trimming.
#![tactic(auto)]

ghost use Rattle.std.specs.Prelude.{◌≡◌, [], ◌∷◌, true, cond, ◌&&◌, ◌≤◌, ◌<◌, ◌+◌, ◌-◌, get_or, take, drop, length, leb};
ghost use Rattle.text.specs.Trim.{white_char, white_head, white_tail, from_of, end_white, to_of, to_end, trim_of};
ghost use Rattle.lines.specs.Lf.{within, all, part};
ghost use Rattle.text.specs.Class.{is_name, is_quote, opens_pattern};
ghost use Rattle.text.specs.Inner.Class.{class_of};
ghost use Rattle.text.specs.White.{is_white};
ghost use Rattle.text.specs.Utf8Form.{seq_len, utf8_of};

// The class of each byte: 1 a byte of a name, 2 a quote, 3 one after which `/` starts a pattern, 0 any other.
const CLASSES: [u8; 256] = [
    0, 0, 0, 0, 0, 0, 0, 0, 0, 0, 0, 0, 0, 0, 0, 0, 0, 0, 0, 0, 0, 0, 0, 0, 0, 0, 0, 0, 0, 0, 0, 0,
    0, 3, 2, 0, 1, 3, 3, 2, 3, 0, 3, 3, 3, 3, 0, 0, 1, 1, 1, 1, 1, 1, 1, 1, 1, 1, 3, 3, 3, 3, 3, 3,
    0, 1, 1, 1, 1, 1, 1, 1, 1, 1, 1, 1, 1, 1, 1, 1, 1, 1, 1, 1, 1, 1, 1, 1, 1, 1, 1, 3, 0, 0, 3, 1,
    2, 1, 1, 1, 1, 1, 1, 1, 1, 1, 1, 1, 1, 1, 1, 1, 1, 1, 1, 1, 1, 1, 1, 1, 1, 1, 1, 3, 3, 3, 3, 0,
    0, 0, 0, 0, 0, 0, 0, 0, 0, 0, 0, 0, 0, 0, 0, 0, 0, 0, 0, 0, 0, 0, 0, 0, 0, 0, 0, 0, 0, 0, 0, 0,
    0, 0, 0, 0, 0, 0, 0, 0, 0, 0, 0, 0, 0, 0, 0, 0, 0, 0, 0, 0, 0, 0, 0, 0, 0, 0, 0, 0, 0, 0, 0, 0,
    0, 0, 0, 0, 0, 0, 0, 0, 0, 0, 0, 0, 0, 0, 0, 0, 0, 0, 0, 0, 0, 0, 0, 0, 0, 0, 0, 0, 0, 0, 0, 0,
    0, 0, 0, 0, 0, 0, 0, 0, 0, 0, 0, 0, 0, 0, 0, 0, 0, 0, 0, 0, 0, 0, 0, 0, 0, 0, 0, 0, 0, 0, 0, 0,
];

// The class of a byte.
fn class(b: u8) -> u8
    ensures { result ≡ class_of b }
{
    CLASSES[b as usize]
}

// Whether a byte belongs to a name. All but `$`, `_` and the backtick are answered before the table, which is copied at each use.
pub fn is_name_byte(b: u8) -> bool
    ensures { result ≡ is_name b }
{
    if b'a' <= b {
        return b <= b'z';
    }
    if b < b'0' {
        if b != b'$' {
            return false;
        }
        return class(b) == 1;
    }
    if b <= b'9' {
        return true;
    }
    if b < b'A' {
        return false;
    }
    if b <= b'Z' {
        return true;
    }
    if b < b'_' {
        return false;
    }
    class(b) == 1
}

// Whether a byte is one of the three quotes. All but `"` to `'` and the bytes after `_` are answered before the table.
pub fn is_quote(b: u8) -> bool
    ensures { result ≡ is_quote b }
{
    match b {
        0..=b'!' | b'('..=b'_' | b'a'..=255 => false,
        _ => class(b) == 2,
    }
}

// Whether a `/` after this byte starts a pattern.
pub fn opens_pattern(b: u8) -> bool
    ensures { result ≡ opens_pattern b }
{
    class(b) == 3
}

// Whether a code point is one of Unicode's White_Space.
pub fn is_white(c: u32) -> bool
    ensures { result ≡ is_white c }
{
    match c {
        9..=13 | 32 | 133 | 160 | 5760 | 8192..=8202 | 8232 | 8233 | 8239 | 8287 | 12288 => true,
        _ => false,
    }
}

fn between(x: u32, lo: u32, hi: u32) -> bool
    ensures { result ≡ within lo hi x }
{
    if lo <= x { x <= hi } else { false }
}

// The length 2, 3 or 4 where the bytes after the first are tails, the first of them from lo to hi; else 0.
fn two(b: u32) -> usize
    ensures { result ≡ cond (within 0x80 0xBF b) 2 0 }
{
    if between(b, 0x80, 0xBF) { 2 } else { 0 }
}

fn three(b: u32, lo: u32, hi: u32, c: u32) -> usize
    ensures { result ≡ cond (within lo hi b && within 0x80 0xBF c) 3 0 }
{
    if between(b, lo, hi) {
        if between(c, 0x80, 0xBF) { 3 } else { 0 }
    } else {
        0
    }
}

fn four(b: u32, lo: u32, hi: u32, c: u32, d: u32) -> usize
    ensures { result ≡ cond (within lo hi b && (within 0x80 0xBF c && within 0x80 0xBF d)) 4 0 }
{
    if between(b, lo, hi) {
        if between(c, 0x80, 0xBF) {
            if between(d, 0x80, 0xBF) { 4 } else { 0 }
        } else {
            0
        }
    } else {
        0
    }
}

// The length of the well-formed sequence that four bytes begin with, or 0. A byte that is not there is 0, which is no tail.
fn seq_len(a: u32, b: u32, c: u32, d: u32) -> usize
    ensures { result ≡ seq_len (a ∷ b ∷ c ∷ d ∷ []) }
{
    match a {
        0x00..=0x7F => 1,
        0xC2..=0xDF => two(b),
        0xE0 => three(b, 0xA0, 0xBF, c),
        0xE1..=0xEC | 0xEE..=0xEF => three(b, 0x80, 0xBF, c),
        0xED => three(b, 0x80, 0x9F, c),
        0xF0 => four(b, 0x90, 0xBF, c, d),
        0xF1..=0xF3 => four(b, 0x80, 0xBF, c, d),
        0xF4 => four(b, 0x80, 0x8F, c, d),
        _ => 0,
    }
}

// The byte at a place, or 0 past the end.
fn byte(s: &[u8], i: usize) -> u32
    ensures { result ≡ get_or s.now i 0 }
{
    if i < s.len() { s[i] as u32 } else { 0 }
}

// The length of the well-formed sequence at a place, or 0.
pub fn seq_at(s: &[u8], i: usize) -> usize
    ensures { result ≡ seq_len (drop i s.now) }
{
    if i >= s.len() {
        return 0;
    }
    let lead = byte(s, i);
    if lead < 0x80 {
        return 1;
    }
    seq_len(lead, byte(s, i + 1), byte(s, i + 2), byte(s, i + 3))
}

// Whether a text is UTF-8 by RFC 3629, or the place of the first byte of its first bad sequence, sequence by sequence.
fn scan_utf8(text: &[u8]) -> Result<(), usize>
    ensures { result ≡ utf8_of text.now }
{
    let mut i = 0;
    // Kept: the place moves by the length of the sequence that stands there.
    while i < text.len() {
        let n = seq_at(text, i);
        if n == 0 {
            return Err(i);
        }
        i += n;
    }
    Ok(())
}

// The same: a text of ASCII is.
pub fn check_utf8(text: &[u8]) -> Result<(), usize>
    ensures { result ≡ utf8_of text.now }
{
    if text.is_ascii() {
        return Ok(());
    }
    scan_utf8(text)
}

// Whether one, two or three bytes are a character, and it is white space.
fn white1(a: u32) -> bool
    ensures { result ≡ white_char (a ∷ []) }
{
    if seq_len(a, 0, 0, 0) == 1 {
        is_white(a)
    } else {
        false
    }
}

fn white2(a: u32, b: u32) -> bool
    ensures { result ≡ white_char (a ∷ b ∷ []) }
{
    if seq_len(a, b, 0, 0) == 2 {
        is_white(a % 32 * 64 + b % 64)
    } else {
        false
    }
}

fn white3(a: u32, b: u32, c: u32) -> bool
    ensures { result ≡ white_char (a ∷ b ∷ c ∷ []) }
{
    if seq_len(a, b, c, 0) == 3 {
        is_white(a % 16 * 4096 + b % 64 * 64 + c % 64)
    } else {
        false
    }
}

// The length of the white space at a place, or 0, by one, two and three bytes.
fn wide_at(s: &[u8], i: usize) -> usize
    requires { i < length s.now }
    ensures { result ≡ white_head (drop i s.now) }
{
    let a = byte(s, i);
    let b = byte(s, i + 1);
    let c = byte(s, i + 2);
    if white1(a) {
        return 1;
    }
    if white2(a, b) {
        return 2;
    }
    if white3(a, b, c) {
        return 3;
    }
    0
}

// The byte k before a place, or 0 before the start.
fn back(s: &[u8], e: usize, k: usize) -> u32
    ensures { result ≡ cond (leb k e) (get_or s.now (e - k) 0) 0 }
{
    if k <= e { byte(s, e - k) } else { 0 }
}

// The length of the white space before a place, or 0, by one, two and three bytes.
fn wide_before(s: &[u8], e: usize) -> usize
    requires { (0 < e) × (e ≤ length s.now) }
    ensures { result ≡ white_tail s.now e }
{
    let c = back(s, e, 1);
    let b = back(s, e, 2);
    let a = back(s, e, 3);
    if white1(c) {
        return 1;
    }
    if white2(b, c) {
        return 2;
    }
    if white3(a, b, c) {
        return 3;
    }
    0
}

// 1 where an ASCII byte is white space, else 0.
fn white_ascii(a: u32) -> usize
    requires { a < 0x80 }
    ensures { result ≡ cond (is_white a) 1 0 }
{
    if 32 < a {
        return 0;
    }
    if is_white(a) { 1 } else { 0 }
}

// The length of the white space at a place, or 0: an ASCII byte is decided alone.
fn white_at(s: &[u8], i: usize) -> usize
    requires { i < length s.now }
    ensures { result ≡ white_head (drop i s.now) }
{
    let a = byte(s, i);
    if a < 0x80 {
        return white_ascii(a);
    }
    wide_at(s, i)
}

// The length of the white space before a place, or 0: an ASCII byte is decided alone.
fn white_before(s: &[u8], e: usize) -> usize
    requires { (0 < e) × (e ≤ length s.now) }
    ensures { result ≡ white_tail s.now e }
{
    let c = back(s, e, 1);
    if c < 0x80 {
        return white_ascii(c);
    }
    wide_before(s, e)
}

// Where a text begins without the white space at its front, byte by byte.
fn skip_front(s: &[u8]) -> usize
    ensures { result ≡ from_of s.now }
{
    let mut i = 0;
    // Kept: the place moves by the length of the white space that stands there.
    while i < s.len() {
        let n = white_at(s, i);
        if n == 0 {
            return i;
        }
        i += n;
    }
    i
}

// Where a text ends without the white space at its back, byte by byte.
fn skip_back(s: &[u8]) -> usize
    ensures { result ≡ to_of s.now }
{
    let mut e = s.len();
    // Kept: the place moves back by the length of the white space before it.
    while e > 0 {
        let n = white_before(s, e);
        if n == 0 {
            return e;
        }
        e -= n;
    }
    e
}

// How many spaces a text begins with; they are white space.
fn spaces(s: &[u8]) -> usize
    ensures { (result ≤ length s.now) × (from_of s.now ≡ result + from_of (drop result s.now)) }
{
    s.iter().position(|b| *b != 32).unwrap_or(s.len())
}

// Whether a text begins with two spaces and an ASCII byte above the space, as most lines do.
fn two_spaces(s: &[u8]) -> bool
    ensures { result ≡ true → from_of s.now ≡ 2 }
{
    if s.len() < 3 {
        return false;
    }
    (s[0] == 32) & ((s[1] == 32) & ((32 < s[2]) & (s[2] < 0x80)))
}

// Where a text begins without the white space at its front: after its spaces, where the byte behind them tells.
pub fn trim_from(s: &[u8]) -> usize
    ensures { result ≡ from_of s.now }
{
    if two_spaces(s) {
        return 2;
    }
    let i = spaces(s);
    let a = byte(s, i);
    if 32 < a {
        if a < 0x80 {
            return i;
        }
    }
    skip_front(s)
}

// Where the spaces at the end of a text begin; they are white space.
fn spaces_back(s: &[u8]) -> usize
    ensures { (result ≤ length s.now) × (to_of s.now ≡ end_white s.now 0 result) }
{
    for e in (0..s.len()).rev() {
        if s[e] != 32 {
            return e + 1;
        }
    }
    0
}

// Where a text ends without the white space at its back: before its spaces, where the byte in front of them tells.
pub fn trim_to(s: &[u8]) -> usize
    ensures { result ≡ to_of s.now }
{
    let e = spaces_back(s);
    let c = back(s, e, 1);
    if 32 < c {
        if c < 0x80 {
            return e;
        }
    }
    skip_back(s)
}

// The part of a text after the white space at its front: after its spaces, as `trim_from` says. A text of one byte is gone over by itself.
pub fn trim_start(s: &[u8]) -> &[u8]
    ensures { result.now ≡ drop (from_of s.now) s.now }
{
    if s.len() < 2 {
        let b = skip_front(s);
        return &s[b..];
    }
    let a = trim_from(s);
    &s[a..]
}

// The part of a text before the white space at its back.
pub fn trim_end(s: &[u8]) -> &[u8]
    ensures { result.now ≡ take (to_of s.now) s.now }
{
    let e = skip_back(s);
    &s[..e]
}

// The part of a text without the white space at its ends: it is what stands from `from_of` up to `to_end`.
pub fn trim(s: &[u8]) -> &[u8]
    ensures { (result.now ≡ trim_of s.now)
        × (result.now ≡ part (from_of s.now) (to_end s.now) s.now) }
{
    let w = trim_span(s);
    let a = w.from;
    let e = w.to;
    &s[a..e]
}

#[derive(Clone, Copy)]
pub struct Span {
    pub from: usize,
    pub to: usize,
}

// The places at which a text begins and ends without the white space at its ends.
fn span_by(s: &[u8]) -> Span
    ensures { (result.from ≡ from_of s.now) × (result.to ≡ to_end s.now) }
{
    let a = trim_from(s);
    let n = trim_to(&s[a..]);
    Span { from: a, to: a + n }
}

// The same: most texts begin and end with a byte that tells that there is none.
pub fn trim_span(s: &[u8]) -> Span
    ensures { (result.from ≡ from_of s.now) × (result.to ≡ to_end s.now) }
{
    let n = s.len();
    let a = byte(s, 0);
    let c = back(s, n, 1);
    if (32 < a) & (a < 0x80) {
        if (32 < c) & (c < 0x80) {
            return Span { from: 0, to: n };
        }
    }
    span_by(s)
}
