// What a value's text says of its effects, once its comments are cut.
#![tactic(auto)]

pub mod kinds;

ghost use Rattle.std.specs.Prelude.{◌≡◌, [], ◌∷◌, ◌≤◌, ◌+◌, length, take, drop};
ghost use Rattle.lines.specs.Lf.{prefixed, all};
ghost use Rattle.lines.specs.Inner.Out.{put_at, Wrote};
ghost use Rattle.names.specs.Names.{is_digit, reg_of, is_reg};
ghost use Rattle.expr.specs.Comments.{strip_comments};
ghost use Rattle.expr.specs.Quotes.{is_closed};
ghost use Rattle.expr.specs.Pure.{is_space, space_start, space_end, space_trim, is_word, starts_number, is_number_byte, wrapped, quoted_in, shape_of, openings, closings, is_pure, pure_by, cut_in, purity_in};
ghost use Rattle.expr.specs.Inner.Pure.{purity_cut, opens_literal};

use kinds::{Purity, Shape};

// Whether the bytes `x` and `y` stand at `i` and just after it.
fn two_at(s: &[u8], i: usize, x: u8, y: u8) -> bool
    ensures { result ≡ prefixed (x ∷ y ∷ []) (drop i s.now) }
{
    if s.len() <= i {
        return false;
    }
    let j = i + 1;
    if s.len() <= j {
        return false;
    }
    (x == s[i]) & (y == s[j])
}

// Whether a literal begins with a byte: in strict mode one in quotes stays whole.
fn opens_literal(b: u8, strict: bool) -> bool
    ensures { result ≡ opens_literal strict b }
{
    strict && text::is_quote(b)
}

// Writes `s` at `o` without its comments, as the mode takes them, and returns the place after it.
fn strip(s: &[u8], strict: bool, out: &mut [u8], o: usize) -> usize
    requires { o + length (cut_in strict s.now) ≤ length out.old }
    ensures { Wrote out.old o (cut_in strict s.now) out.new result }
{
    let mut i = 0;
    let mut n = o;
    let mut inside = false;
    // Kept: the place moves by the bytes of what opens and closes a comment.
    while i < s.len() {
        let b = s[i];
        if inside {
            if two_at(s, i, b'*', b'/') {
                out[n] = b' ';
                n += 1;
                i += 2;
                inside = false;
            } else {
                i += 1;
            }
        } else if opens_literal(b, strict) {
            let e = lexical::quote_end(s, i + 1, b);
            n = lines::put(out, n, &s[i..e]);
            i = e;
        } else if two_at(s, i, b'/', b'*') {
            i += 2;
            inside = true;
        } else if two_at(s, i, b'/', b'/') {
            return n;
        } else {
            out[n] = b;
            n += 1;
            i += 1;
        }
    }
    n
}

// The same in plain mode: a text without `/` has no comment.
pub fn strip_comments(s: &[u8], out: &mut [u8], o: usize) -> usize
    requires { o + length (strip_comments s.now) ≤ length out.old }
    ensures { Wrote out.old o (strip_comments s.now) out.new result }
{
    let k = lines::find_byte(s, 0, b'/');
    if k >= s.len() {
        return lines::put(out, o, s);
    }
    strip(s, false, out, o)
}

// Writes `s` at `o` without its comments, as the mode takes them.
fn cut_in(s: &[u8], strict: bool, out: &mut [u8], o: usize) -> usize
    requires { o + length (cut_in strict s.now) ≤ length out.old }
    ensures { Wrote out.old o (cut_in strict s.now) out.new result }
{
    if strict {
        return strip(s, true, out, o);
    }
    strip_comments(s, out, o)
}

// Whether a byte is white space of ASCII.
fn is_space(b: u8) -> bool
    ensures { result ≡ is_space b }
{
    if 127 < b {
        return false;
    }
    text::is_white(b as u32)
}

// Where `s` begins, past the white space at its front.
fn space_from(s: &[u8]) -> usize
    ensures { (result ≤ length s.now) × (drop result s.now ≡ space_start s.now) }
{
    for i in 0..s.len() {
        if !is_space(s[i]) {
            return i;
        }
    }
    s.len()
}

// Where `s` ends, before the white space at its end.
fn space_to(s: &[u8]) -> usize
    ensures { (result ≤ length s.now) × (take result s.now ≡ space_end s.now) }
{
    for n in (0..s.len()).rev() {
        if !is_space(s[n]) {
            return n + 1;
        }
    }
    0
}

// `s` without the white space of ASCII around it.
fn space_trim(s: &[u8]) -> &[u8]
    ensures { result.now ≡ space_trim s.now }
{
    let a = space_from(s);
    let u = &s[a..];
    let e = space_to(u);
    &u[..e]
}

// Whether `s` is white space of ASCII alone.
fn is_blank(s: &[u8]) -> bool
    ensures { result ≡ all is_space s.now }
{
    space_from(s) == s.len()
}

// Whether a text names a register.
fn is_register(t: &[u8]) -> bool
    ensures { result ≡ is_reg (reg_of t.now) }
{
    names::reg_name(t).is_some()
}

// Whether a text is one of the six words of a fixed value.
fn is_word(t: &[u8]) -> bool
    ensures { result ≡ is_word t.now }
{
    lines::same(t, b"undefined")
        | (lines::same(t, b"null")
            | (lines::same(t, b"true")
                | (lines::same(t, b"false")
                    | (lines::same(t, b"NaN") | lines::same(t, b"Infinity")))))
}

// Whether a byte is a digit.
fn is_digit(b: u8) -> bool
    ensures { result ≡ is_digit b }
{
    (b'0' <= b) & (b <= b'9')
}

// Whether a text begins as a number does.
fn starts_number(t: &[u8]) -> bool
    ensures { result ≡ starts_number t.now }
{
    is_digit(lines::byte_at(t, 0))
        | ((lines::byte_at(t, 0) == b'-') & is_digit(lines::byte_at(t, 1)))
}

// Whether a byte may stand in a number.
fn is_number_byte(b: u8) -> bool
    ensures { result ≡ is_number_byte b }
{
    ((b'0' <= b) & (b <= b'9'))
        | ((b == b'.')
            | ((b == b'-') | ((b == b'+') | ((b == b'e') | ((b == b'x') | (b == b'_'))))))
}

// Whether every byte may stand in a number.
fn all_number(s: &[u8]) -> bool
    ensures { result ≡ all is_number_byte s.now }
{
    s.iter().all(|b| is_number_byte(*b))
}

// Whether a text has two bytes or more, `x` first and `y` last.
fn wrapped(t: &[u8], x: u8, y: u8) -> bool
    ensures { result ≡ wrapped x y t.now }
{
    let n = t.len();
    if n < 2 {
        return false;
    }
    (t[0] == x) & (t[n - 1] == y)
}

// Whether the quote that a text begins with is closed by its last byte, escapes counted.
fn is_closed(t: &[u8]) -> bool
    ensures { result ≡ is_closed t.now }
{
    let q = lines::byte_at(t, 0);
    if !((q == b'"') | (q == b'\'')) {
        return false;
    }
    if lexical::quote_end(t, 1, q) != t.len() {
        return false;
    }
    lexical::quote_shut(t, 1, q)
}

// Whether a text is a string: in strict mode one literal; else it begins and ends with one quote,
// and what stands between is not looked at.
fn is_quoted(t: &[u8], strict: bool) -> bool
    ensures { result ≡ quoted_in strict t.now }
{
    if strict {
        return is_closed(t);
    }
    wrapped(t, b'"', b'"') | wrapped(t, b'\'', b'\'')
}

// What a trimmed text is: an array, or something whose purity does not hang on its parts.
fn shape(t: &[u8], strict: bool) -> Shape
    ensures { result ≡ shape_of (quoted_in strict) t.now }
{
    if t.len() == 0 {
        return Shape::Plain(Purity::Effectful);
    }
    if is_register(t) {
        return Shape::Plain(Purity::Stable);
    }
    if is_word(t) {
        return Shape::Plain(Purity::Stable);
    }
    if starts_number(t) {
        if all_number(t) {
            return Shape::Plain(Purity::Stable);
        }
        return Shape::Plain(Purity::Effectful);
    }
    if is_quoted(t, strict) {
        return Shape::Plain(Purity::Stable);
    }
    if wrapped(t, b'[', b']') {
        return Shape::Array;
    }
    if names::is_simple_ident(t) {
        return Shape::Plain(Purity::Ident);
    }
    Shape::Plain(Purity::Effectful)
}

// 1 for a bracket that opens, else 0.
fn opens(b: u8) -> usize
    ensures { result ≡ openings b }
{
    if (b == b'(') | ((b == b'[') | (b == b'{')) {
        return 1;
    }
    0
}

// 1 for a bracket that closes, else 0.
fn closes(b: u8) -> usize
    ensures { result ≡ closings b }
{
    if (b == b')') | ((b == b']') | (b == b'}')) {
        return 1;
    }
    0
}

// Whether a value of that purity has no effects.
pub fn is_pure(p: Purity) -> bool
    ensures { result ≡ is_pure p }
{
    match p {
        Purity::Stable => true,
        Purity::Ident => true,
        Purity::Effectful => false,
    }
}

// Whether each element of an array is pure, `s` being what stands between its brackets.
#[cycle(elements_purity_cut)]
fn elements(s: &[u8], strict: bool) -> bool
    ensures { result ≡ pure_by (purity_cut (quoted_in strict)) s.now }
{
    let mut start = 0;
    let mut opened = 0;
    let mut closed = 0;
    for i in 0..s.len() {
        let b = s[i];
        if (b == b',') & (opened == closed) {
            if !is_pure(purity_cut(&s[start..i], strict)) {
                return false;
            }
            start = i + 1;
        } else {
            opened += opens(b);
            closed += closes(b);
        }
    }
    let last = &s[start..];
    if is_blank(last) {
        return true;
    }
    is_pure(purity_cut(last, strict))
}

// The purity of a text whose comments are cut.
#[cycle(elements_purity_cut)]
fn purity_cut(s: &[u8], strict: bool) -> Purity
    ensures { result ≡ purity_cut (quoted_in strict) s.now }
{
    let t = space_trim(s);
    let k = shape(t, strict);
    match k {
        Shape::Plain(p) => p,
        Shape::Array => {
            let m = t.len() - 1;
            if elements(&t[1..m], strict) {
                Purity::Stable
            } else {
                Purity::Effectful
            }
        }
    }
}

// The purity of a value, in strict mode or plain. The text without its comments is left in `scratch`.
pub fn purity(s: &[u8], strict: bool, scratch: &mut [u8]) -> Purity
    requires { length (cut_in strict s.now) ≤ length scratch.old }
    ensures answer { result ≡ purity_in strict s.now }
    ensures memory { scratch.new ≡ put_at scratch.old 0 (cut_in strict s.now) }
{
    let n = cut_in(s, strict, scratch, 0);
    purity_cut(&scratch[..n], strict)
}
