// Where each line goes: tables of moves and of codes, and the records that say so, as bytes in either form.
#![tactic(auto)]

ghost use Rattle.std.specs.Prelude.{◌≡◌, cond, [], ◌∷◌, ◌≤◌, ◌<◌, ◌+◌, ◌-◌, min, eqb, ltb, length, get_or, set, take, drop, replicate};
ghost use Rattle.lines.specs.Lf.{part, up_to, prefixed, same, lines_of, low_bytes};
ghost use Rattle.lines.specs.Steps.{split_lines};
ghost use Rattle.lines.specs.Inner.Out.{Wrote};
ghost use Rattle.origins.specs.declared.Form.TheVariants as form;
ghost use Rattle.origins.specs.Form.{form_shape, gone_of, size_of, fate_byte, out_line, record_bytes, file_of};
ghost use Rattle.origins.specs.Inner.Codes.{half, far_move, note_of, taken_code, land_go, standing};
ghost use Rattle.origins.specs.Inner.Written.{said_first, first_is, first_end, wents_by, bare_by};

// What a record says of a line: it is kept with equal bytes as an output line, kept with other bytes, its value is inside one, or it is away.
#[derive(Clone, Copy)]
pub enum Went {
    Equal(usize),
    Changed(usize),
    Inside(usize),
    Away,
}

// The forms of a record: a line has 2 bytes, or 4.
#[derive(Clone, Copy)]
pub enum Form {
    Ol,
    Om,
}

// The bytes of fate: kept with equal bytes, kept with other bytes, its value taken into another line, gone.
pub const EQUAL: u8 = 0;

pub const CHANGED: u8 = 1;

pub const INSIDE: u8 = 2;

pub const GONE: u8 = 3;

// The first byte of the mark.
pub const MARK: u8 = b'O';

// The move of a line that is gone, and the code of one that is lost.
pub const FAR: usize = 18446744073709551615;

// The code of what the first line holds.
pub const HALF: usize = 9223372036854775808;

// Notes whether line `k` is gone: where nothing was written of it, from `o` up to `p`. Returns the next line.
pub fn note(moves: &mut [usize], k: usize, o: usize, p: usize) -> usize
    requires { k < length moves.old }
    ensures { Wrote moves.old k (note_of o p ∷ []) moves.new result }
{
    if o == p {
        moves[k] = FAR;
        return k + 1;
    }
    moves[k] = 0;
    k + 1
}

// Notes of `n` lines from `k` on that they stay. Returns the next line.
fn stay(moves: &mut [usize], k: usize, n: usize) -> usize
    requires { k + n ≤ length moves.old }
    ensures { Wrote moves.old k (replicate n 0) moves.new result }
{
    lines::wipe_words(&mut moves[k..k + n]);
    k + n
}

// Notes of the lines of a text, the first of them `k`, that they stay. Returns the next line.
pub fn stay_lines(text: &[u8], moves: &mut [usize], k: usize) -> usize
    requires { k + length (lines_of text.now) ≤ length moves.old }
    ensures { Wrote moves.old k (replicate (length (lines_of text.now)) 0) moves.new result }
{
    let n = lines::count_lines(text);
    stay(moves, k, n)
}

// The first line that stands; where there is none, the place after all.
fn first_standing(moves: &[usize]) -> usize
    ensures { result ≡ up_to 0 moves.now }
{
    moves.iter().position(|m| *m == 0).unwrap_or(moves.len())
}

// The same as `note`, of the next line from `k` on that stands.
pub fn note_next(moves: &mut [usize], k: usize, o: usize, p: usize) -> usize
    requires { 0 < standing (drop k moves.old) }
    ensures { Wrote moves.old (k + up_to 0 (drop k moves.old)) (note_of o p ∷ []) moves.new result }
{
    let j = k + first_standing(&moves[k..]);
    note(moves, j, o, p)
}

// How many lines stand, by their moves.
pub fn count_standing(moves: &[usize]) -> usize
    ensures { result ≡ standing moves.now }
{
    let mut n = 0;
    let mut i = 0;
    // Kept: this loop is made into one over several entries at a time; by `filter` and `count` it runs five times the instructions, by `for` three times.
    while i < moves.len() {
        if moves[i] == 0 {
            n += 1;
            i += 1;
        } else {
            i += 1;
        }
    }
    n
}

// The code of what was taken into a line of the code `c`.
fn taken_code(c: usize) -> usize
    ensures { result ≡ taken_code c }
{
    if c < HALF {
        return HALF + c;
    }
    c
}

// The code at a place; past the end a line is lost.
fn code_at(codes: &[usize], i: usize) -> usize
    ensures { result ≡ get_or codes.now i far_move }
{
    if i < codes.len() {
        return codes[i];
    }
    FAR
}

// Where a line goes that goes `d` lines down, by the codes of the lines below it.
fn land_at(below: &[usize], d: usize) -> usize
    requires { 0 < d }
    ensures { result ≡ taken_code (get_or (far_move ∷ below.now) d far_move) }
{
    let c = code_at(below, d - 1);
    taken_code(c)
}

// Turns the move of line `k` into its code, where `s` lines stand above line `k + 1`, and returns how many stand above it.
fn land_line(moves: &mut [usize], k: usize, s: usize) -> usize
    requires { (k < length moves.old) × (get_or moves.old k 0 ≡ 0 → 0 < s) }
    ensures answer { result ≡ cond (eqb (get_or moves.old k 0) 0) (s - 1) s }
    ensures memory { moves.new ≡ set moves.old k (cond (eqb (get_or moves.old k 0) 0) (s - 1) (taken_code (get_or (far_move ∷ drop (k + 1) moves.old) (get_or moves.old k 0) far_move))) }
{
    let d = moves[k];
    if d == 0 {
        moves[k] = s - 1;
        return s - 1;
    }
    let c = land_at(&moves[k + 1..], d);
    moves[k] = c;
    s
}

// Turns the moves of lines into their codes, and returns how many lines stand.
pub fn land(moves: &mut [usize]) -> usize
    ensures answer { result ≡ standing moves.old }
    ensures memory { moves.new ≡ land_go moves.old 0 }
{
    let n = count_standing(moves);
    let mut s = n;
    for k in (0..moves.len()).rev() {
        s = land_line(moves, k, s);
    }
    n
}

// How many bytes a line has in a form.
pub fn width_of(f: Form) -> usize
    ensures { result ≡ (form_shape f).width }
{
    match f {
        Form::Ol => 2,
        Form::Om => 4,
    }
}

// The second byte of the mark.
pub fn letter_of(f: Form) -> u8
    ensures { result ≡ (form_shape f).letter }
{
    match f {
        Form::Ol => b'L',
        Form::Om => b'M',
    }
}

// The number that stands for gone.
pub fn gone_of(f: Form) -> usize
    ensures { result ≡ gone_of (form_shape f) }
{
    match f {
        Form::Ol => 65535,
        Form::Om => 4294967295,
    }
}

// How long a record is.
pub fn size_of(f: Form) -> usize
    ensures { result ≡ size_of (form_shape f) }
{
    match f {
        Form::Ol => 7,
        Form::Om => 11,
    }
}

// The byte of fate.
pub fn fate_byte(w: Went) -> u8
    ensures { result ≡ fate_byte w }
{
    match w {
        Went::Equal(n) => EQUAL,
        Went::Changed(n) => CHANGED,
        Went::Inside(n) => INSIDE,
        Went::Away => GONE,
    }
}

// The output line of a record: for a line that is gone the number that stands for it.
pub fn out_line(f: Form, w: Went) -> usize
    ensures { result ≡ out_line (form_shape f) w }
{
    match w {
        Went::Equal(n) => n,
        Went::Changed(n) => n,
        Went::Inside(n) => n,
        Went::Away => gone_of(f),
    }
}

// Writes a number in the bytes of a form, the low byte first, and returns the place after it.
fn put_number(out: &mut [u8], o: usize, f: Form, n: usize) -> usize
    requires { o + (form_shape f).width ≤ length out.old }
    ensures { Wrote out.old o (low_bytes (form_shape f).width n) out.new result }
{
    let end = o + width_of(f);
    out[o..end].copy_from_slice(&n.to_le_bytes()[..width_of(f)]);
    end
}

// Writes the record of line `i` in a form, and returns the place after it.
fn put_in(out: &mut [u8], o: usize, f: Form, i: usize, w: Went) -> usize
    requires { o + size_of (form_shape f) ≤ length out.old }
    ensures { Wrote out.old o (record_bytes (form_shape f) i w) out.new result }
{
    let p = lines::put_byte(out, o, MARK);
    let q = lines::put_byte(out, p, letter_of(f));
    let r = put_number(out, q, f, i);
    let s = lines::put_byte(out, r, fate_byte(w));
    put_number(out, s, f, out_line(f, w))
}

// A record in the form `OL`.
fn put_old(out: &mut [u8], o: usize, i: usize, w: Went) -> usize
    requires { o + size_of (form_shape form.Ol) ≤ length out.old }
    ensures { Wrote out.old o (record_bytes (form_shape form.Ol) i w) out.new result }
{
    put_in(out, o, Form::Ol, i, w)
}

// One in the form `OM`.
fn put_new(out: &mut [u8], o: usize, i: usize, w: Went) -> usize
    requires { o + size_of (form_shape form.Om) ≤ length out.old }
    ensures { Wrote out.old o (record_bytes (form_shape form.Om) i w) out.new result }
{
    put_in(out, o, Form::Om, i, w)
}

// Writes the record of line `i`, and returns the place after it. Each form has a function of its own, so that the compiler knows how wide a number is.
pub fn put_record(out: &mut [u8], o: usize, f: Form, i: usize, w: Went) -> usize
    requires { o + size_of (form_shape f) ≤ length out.old }
    ensures { Wrote out.old o (record_bytes (form_shape f) i w) out.new result }
{
    match f {
        Form::Ol => put_old(out, o, i, w),
        Form::Om => put_new(out, o, i, w),
    }
}

// Where a raw line from `i` ends whose LF, or the end, stands at `e`: before a CR just before that LF.
fn bare_end(text: &[u8], i: usize, e: usize) -> usize
    requires { (i ≤ e) × (e ≤ length text.now) }
    ensures { result ≡ i + bare_by (drop i text.now) (e - i) }
{
    if e <= i {
        return e;
    }
    if text[e - 1] != 13 {
        return e;
    }
    if text.len() <= e {
        return e;
    }
    e - 1
}

// Whether `line` stands at the front of `s`, and an LF or nothing behind it.
fn first_is(line: &[u8], s: &[u8]) -> bool
    ensures { result ≡ first_is line.now s.now }
{
    let n = line.len();
    if n < s.len() && s[n] != 10 {
        return false;
    }
    s.starts_with(line)
}

// What is said of a line, and where the next line that came out begins.
#[derive(Clone, Copy)]
struct Told {
    went: Went,
    next: usize,
}

// What is said by its code of the line that stands in the raw text from `i` to `e`, where `p` is the next line that came out: that one is looked at only where the line stands.
fn tell(text: &[u8], i: usize, e: usize, lf: &[u8], p: usize, c: usize) -> Told
    requires { ((i ≤ e) × (e ≤ length text.now)) × (p ≤ length lf.now) }
    ensures went { result.went ≡ said_first (part i (i + bare_by (drop i text.now) (e - i)) text.now) (drop p lf.now) c }
    ensures next { result.next ≡ cond (ltb c half) (min (p + first_end (part i (i + bare_by (drop i text.now) (e - i)) text.now) (drop p lf.now) + 1) (length lf.now)) p }
{
    if c == FAR {
        return Told {
            went: Went::Away,
            next: p,
        };
    }
    if HALF <= c {
        return Told {
            went: Went::Inside(c - HALF),
            next: p,
        };
    }
    let t = bare_end(text, i, e);
    if first_is(&text[i..t], &lf[p..]) {
        return Told {
            went: Went::Equal(c),
            next: lines::after(lf, p + (t - i)),
        };
    }
    let q = lines::find_byte(lf, p, 10);
    Told {
        went: Went::Changed(c),
        next: lines::after(lf, q),
    }
}

// Writes the records of the lines of a raw text, by their codes, where `lf` has the lines that came out. Returns the place after them.
pub fn put_records(f: Form, text: &[u8], lf: &[u8], table: &[usize], orig: &mut [u8]) -> usize
    requires { length (file_of (form_shape f) (wents_by (lines_of lf.now) (split_lines text.now) table.now)) ≤ length orig.old }
    ensures { Wrote orig.old 0 (file_of (form_shape f) (wents_by (lines_of lf.now) (split_lines text.now) table.now)) orig.new result }
{
    let mut p = 0;
    let mut o = 0;
    for (k, line) in lines::each::each(text).enumerate() {
        if k == table.len() {
            return o;
        }
        let told = tell(text, line.from, line.to, lf, p, table[k]);
        o = put_record(orig, o, f, k, told.went);
        p = told.next;
    }
    o
}
