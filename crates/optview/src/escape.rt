// Text as a page shows it: what has a meaning in HTML is written as a character of it, and what cannot be seen or would turn the writing round as its number.
ghost use Rattle.std.specs.Prelude.{◌≡◌, ◌<◌, ◌≤◌, cond, not, ◌&&◌, eqb, get_or};
ghost use Rattle.optview.specs.Inner.Shown.{unseen_one, unseen_narrow, unseen_wide, unseen_len, is_sign, code_of};

use crate::put;
use input::host::Output;

// Whether a byte is a control, but a TAB.
fn unseen_one(a: u8) -> bool
    ensures { result ≡ unseen_one a }
{
    ((a < 32) & !(a == 9)) | (a == 127)
}

// Whether three bytes begin with a character of three bytes that cannot be seen or turns the writing round: a mark of the order of bytes or of writing, a
// space without width, a separator of lines.
fn unseen_wide(a: u8, b: u8, c: u8) -> bool
    ensures { result ≡ unseen_wide a b c }
{
    ((a == 0xEF) & ((b == 0xBB) & (c == 0xBF)))
        | ((((a == 0xE2) & (b == 0x80))
            & (((0x8B <= c) & (c <= 0x8F)) | ((0xA8 <= c) & (c <= 0xAE))))
            | (((a == 0xE2) & (b == 0x81)) & ((0xA0 <= c) & (c <= 0xAF))))
}

// The same of two bytes and a character of two: a control, a soft hyphen, a mark of writing.
fn unseen_narrow(a: u8, b: u8) -> bool
    ensures { result ≡ unseen_narrow a b }
{
    ((a == 0xC2) & (((0x80 <= b) & (b <= 0x9F)) | (b == 0xAD))) | ((a == 0xD8) & (b == 0x9C))
}

// Whether a byte has a meaning in HTML.
fn is_sign(a: u8) -> bool
    ensures { result ≡ is_sign a }
{
    matches!(a, b'&' | b'<' | b'>' | b'"')
}

// How many bytes the first character has, where it cannot be seen or turns the writing round; 0 for any other.
fn unseen_len(s: &[u8]) -> usize
    ensures { result ≡ unseen_len s.now }
{
    let a = lines::byte_at(s, 0);
    if unseen_one(a) {
        return 1;
    }
    let b = lines::byte_at(s, 1);
    if unseen_narrow(a, b) {
        return 2;
    }
    let c = lines::byte_at(s, 2);
    if unseen_wide(a, b, c) {
        return 3;
    }
    0
}

// The number of the first character, which has n bytes: 1, 2 or 3.
fn code_of(s: &[u8], n: usize) -> u64
    ensures { result ≡ code_of s.now n }
{
    let a = lines::byte_at(s, 0) as u64;
    let b = lines::byte_at(s, 1) as u64;
    let c = lines::byte_at(s, 2) as u64;
    if n == 1 {
        return a;
    }
    if n == 2 {
        return a % 32 * 64 + b % 64;
    }
    a % 16 * 4096 + b % 64 * 64 + c % 64
}

// Writes a character by its number.
fn put_code(out: &mut Output, n: u64) {
    out.text(b"<u>U+");
    out.hex(n);
    out.text(b"</u>");
}

// Writes a byte that has a meaning in HTML.
fn put_sign(out: &mut Output, b: u8) {
    match b {
        b'&' => out.text(b"&amp;"),
        b'<' => out.text(b"&lt;"),
        b'>' => out.text(b"&gt;"),
        _ => out.text(b"&quot;"),
    }
}

// Whether the first byte is written as it is.
fn is_seen(s: &[u8]) -> bool
    ensures { result ≡ (eqb (unseen_len s.now) 0 && not (is_sign (get_or s.now 0 0))) }
{
    let n = unseen_len(s);
    let a = lines::byte_at(s, 0);
    let b = is_sign(a);
    (n == 0) & !b
}

// How many bytes at the front are written as they are.
fn seen_len(s: &[u8]) -> usize {
    for i in 0..s.len() {
        if !is_seen(&s[i..]) {
            return i;
        }
    }
    s.len()
}

// Writes the first character, which is not written as it is.
fn put_other(out: &mut Output, s: &[u8]) {
    let n = unseen_len(s);
    if n == 0 {
        return put_sign(out, lines::byte_at(s, 0));
    }
    put_code(out, code_of(s, n));
}

// How many bytes the first character has that is not written as it is.
fn other_len(s: &[u8]) -> usize
    ensures { result ≡ cond (eqb (unseen_len s.now) 0) 1 (unseen_len s.now) }
{
    let n = unseen_len(s);
    if n == 0 {
        return 1;
    }
    n
}

// Writes a text.
pub fn put_text(out: &mut Output, s: &[u8]) {
    let mut i = 0;
    // Kept: the place moves by what is written as it is, or by the bytes of a character.
    while i < s.len() {
        let n = seen_len(&s[i..]);
        if 0 < n {
            let e = past(i, n, s.len());
            out.text(&s[i..e]);
            i = e;
        } else {
            put_other(out, &s[i..]);
            i = past(i, other_len(&s[i..]), s.len());
        }
    }
}

// The place n places behind i, but not behind the end; at least the next one.
fn past(i: usize, n: usize, end: usize) -> usize
    requires { i < end }
    ensures { (i < result) × (result ≤ end) }
{
    if n == 0 || end - i < n {
        return end;
    }
    i + n
}
