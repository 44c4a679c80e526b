// A mark for each declared name, whether its region uses the register, and its digits.
ghost use Rattle.std.specs.Prelude.{◌≡◌, true, cond, ◌∷◌, ◌≤◌, ◌+◌, ◌-◌, length, get_or, replicate};
ghost use Rattle.lines.specs.Lf.{lines_of, parts_of};
ghost use Rattle.lines.specs.Inner.Out.{Wrote};
ghost use Rattle.text.specs.Trim.{trim_of};
ghost use Rattle.parse.specs.Parse.{is_decl};
ghost use Rattle.decls.specs.Inner.Seen.{AtMost, Says};
ghost use Rattle.pruned.specs.Inner.Fit.{digits_of, tag_of};
ghost use Rattle.pruned.specs.Inner.Marks.{filled, names_marks, line_marks, marks_of};

// Tags are greater than the bytes of digits, and this one stands for no digits.
const FIRST_TAG: u8 = 58;

const NO_TAG: u8 = 255;

// Writes zeros up to a place.
fn put_zeros(out: &mut [u8], o: usize, n: usize) -> usize
    requires { o + n ≤ length out.old }
    ensures { Wrote out.old o (replicate n 0) out.new result }
{
    let e = o + n;
    out[o..e].fill(0);
    e
}

// Writes so many bytes: those of a text, and then zeros.
fn put_filled(out: &mut [u8], o: usize, n: usize, d: &[u8]) -> usize
    requires { o + n ≤ length out.old }
    ensures { Wrote out.old o (filled n d.now) out.new result }
{
    let s = lines::cut(d, 0, n);
    let p = lines::put(out, o, s);
    put_zeros(out, p, n - s.len())
}

// The digits of a name as it is printed: without the zeros that lead.
fn digits(t: &[u8]) -> &[u8]
    ensures { result.now ≡ digits_of t.now }
{
    let y = lines::cut(t, 1, t.len());
    lines::cut(y, names::skip_zeros(y), y.len())
}

// The byte before the last, or 0.
fn before_last(d: &[u8]) -> u8
    ensures { result ≡ get_or (0 ∷ d.now) (length d.now - 1) 0 }
{
    if d.len() < 2 {
        return 0;
    }
    d[d.len() - 2]
}

// What tells a name from most others: by its last two digits.
pub fn tag_of(d: &[u8]) -> u8
    ensures { result ≡ tag_of d.now }
{
    if d.len() == 0 {
        return NO_TAG;
    }
    let b = before_last(d);
    FIRST_TAG + b % 16 * 10 + d[d.len() - 1] % 16
}

// The mark of a name with these digits: 1 where it stays, else its tag.
fn mark_of(stays: bool, d: &[u8]) -> u8
    ensures { result ≡ cond stays 1 (tag_of d.now) }
{
    if stays {
        return 1;
    }
    tag_of(d)
}

// Writes the marks of the names of a declaration's body, each where its piece begins, with its digits behind it.
fn put_names(
    body: &[u8],
    region: &[u8],
    own: &[usize],
    m: usize,
    seen: &[usize],
    out: &mut [u8],
    o: usize,
) -> usize
    requires { (Says own.now m (lines_of region.now) seen.now) × (o + length (names_marks (lines_of region.now) (parts_of 44 body.now)) ≤ length out.old) }
    ensures { Wrote out.old o (names_marks (lines_of region.now) (parts_of 44 body.now)) out.new result }
{
    let mut p = o;
    for piece in lines::pieces(body, b',') {
        let t = text::trim(piece);
        let s = decls::stays_in(region, own, m, seen, t);
        let d = digits(t);
        p = lines::put_byte(out, p, mark_of(s, d));
        p = put_filled(out, p, piece.len(), d);
    }
    p
}

// Writes the marks of a declaration, as many bytes as it has with its LF.
fn put_marks(
    line: &[u8],
    region: &[u8],
    own: &[usize],
    m: usize,
    seen: &[usize],
    out: &mut [u8],
    o: usize,
) -> usize
    requires { (is_decl (trim_of line.now) ≡ true) × ((Says own.now m (lines_of region.now) seen.now) × (o + length (line_marks (lines_of region.now) line.now) ≤ length out.old)) }
    ensures { Wrote out.old o (line_marks (lines_of region.now) line.now) out.new result }
{
    let t = text::trim(line);
    let p = put_names(&t[4..t.len() - 1], region, own, m, seen, out, o);
    put_zeros(out, p, line.len() + 1 - (p - o))
}

// Writes the marks of all lines; the table of registers holds no mark.
pub fn mark_used(raw: &[u8], own: &[usize], seen: &mut [usize], out: &mut [u8]) -> usize
    requires { (AtMost 0 seen.old) × (length (marks_of (lines_of raw.now)) ≤ length out.old) }
    ensures { Wrote out.old 0 (marks_of (lines_of raw.now)) out.new result }
{
    let mut a = 0;
    let mut b = 0;
    let mut m = 0;
    let mut o = 0;
    for line in lines::each::each(raw) {
        if place::is_header(line.bytes) {
            a = line.from;
        }
        if parse::declares(line.bytes) {
            let k = decls::mark_uses(raw, own, a, b, m, seen);
            m = k.mark;
            b = k.end;
            o = put_marks(line.bytes, &raw[a..b], own, m, seen, out, o);
        } else {
            o = put_zeros(out, o, line.bytes.len() + 1);
        }
    }
    o
}
