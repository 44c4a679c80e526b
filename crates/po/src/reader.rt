// Reading a PO file: line by line, what is awaited, and what it gives.
ghost use Rattle.std.specs.Prelude.{◌≡◌, [], ◌∷◌, ◌++◌, Bool, true, false, cond, ◌||◌, ◌&&◌, ℕ, suc, ◌+◌, ◌≤◌, ◌<◌, ◌^◌, length, drop, take, get_or};
ghost use Rattle.lines.specs.Lf.{part, same, prefixed, up_to, parts_of, low_bytes};
ghost use Rattle.lines.specs.Inner.Out.{Wrote};
ghost use Rattle.text.specs.Utf8Form.{utf8_of};
ghost use Rattle.names.specs.Names.{decimal, read_number};
ghost use Rattle.po.specs.Found.{decoded, known, empty};
ghost use Rattle.po.specs.Form.{id_word, escape};
ghost use Rattle.po.specs.Name.{is_file_name};
ghost use Rattle.po.specs.Reader.{is_valid, is_quoted_line, quoted_text, colon, value_of, name_in, line_number, is_id, awaited, read_on, packed, read_of};
ghost use Rattle.po.specs.Inner.Index.{Tells};
ghost use Rattle.po.specs.Inner.ReadWalk.{formed, is_reference, follows, next_of, state_at, gives_one, gives, same_id, At, read_verdict};

use crate::{Line, Seek, Strings, StringsRefusal, file_name, index, same_text, unit_at, units};

const QUOTE: u8 = 34;

const ID_WORD: usize = 7;

const ID_QUOTE: usize = 6;

const STR_WORD: usize = 8;

const REF_WORD: usize = 3;

// ---- one line

// Whether bytes are UTF-8.
fn is_utf8(l: &[u8]) -> bool
    ensures { result ≡ is_valid (utf8_of l.now) }
{
    match text::check_utf8(l) {
        Ok(()) => true,
        Err(_) => false,
    }
}

// Whether a byte stands at a place as it is written between quotes.
fn escape_at(l: &[u8], i: usize, b: u8) -> bool
    requires { i < length l.now }
    ensures { result ≡ prefixed (escape b) (drop i l.now) }
{
    let x = lines::byte_at(l, i);
    let y = lines::byte_at(l, i + 1);
    match b {
        10 => (x == b'\\') & (y == b'n'),
        9 => (x == b'\\') & (y == b't'),
        34 => (x == b'\\') & (y == b'"'),
        92 => (x == b'\\') & (y == b'\\'),
        _ => b == x,
    }
}

// Whether a text as it is written and its closing quote follow a place, and nothing else.
fn is_formed(l: &[u8], a: usize) -> bool
    ensures { result ≡ formed (drop a l.now) }
{
    let mut i = a;
    // Kept: the place moves by what a unit takes.
    while i < l.len() {
        let x = unit_at(l, i, QUOTE);
        if x.size == 0 {
            return i + 1 == l.len();
        }
        if !escape_at(l, i, x.byte) {
            return false;
        }
        i += x.size;
    }
    false
}

// Whether a line is a word, with its quote, and a text as it is written.
fn is_quoted(w: &[u8], l: &[u8]) -> bool
    ensures { result ≡ is_quoted_line w.now l.now }
{
    if !lines::starts_with(l, w) {
        return false;
    }
    if !is_formed(l, w.len()) {
        return false;
    }
    is_utf8(l)
}

// Where the last colon stands.
fn last_colon(l: &[u8]) -> usize
    ensures { result ≡ colon l.now (length l.now) }
{
    for e in (0..l.len()).rev() {
        if l[e] == b':' {
            return e;
        }
    }
    0
}

// The number that digits are; 0 where they are none.
fn number_in(s: &[u8]) -> u64
    ensures { result ≡ value_of (read_number s.now) }
{
    match names::read_number(s) {
        Some(n) => n,
        None => 0,
    }
}

// Whether digits are a number as it is printed: equal to it, with no zero in front of another digit.
fn is_decimal(s: &[u8], v: u64) -> bool
    ensures { result ≡ same s.now (decimal v) }
{
    if 0 < names::skip_zeros(s) {
        return false;
    }
    match names::read_number(s) {
        Some(n) => n == v,
        None => false,
    }
}

// Whether a name is the name of a file.
fn is_file_name(name: &[u8]) -> bool
    ensures { result ≡ is_file_name name.now }
{
    if name.len() == 0 {
        return false;
    }
    file_name(name) == name.len()
}

// Whether a line is a reference: its word, the name of a file, a colon, and a number as it is printed.
fn is_reference(l: &[u8]) -> bool
    ensures { result ≡ is_reference l.now }
{
    let c = last_colon(l);
    if !is_file_name(lines::cut(l, REF_WORD, c)) {
        return false;
    }
    if !lines::starts_with(l, b"#: ") {
        return false;
    }
    let digits = lines::cut(l, c + 1, l.len());
    is_decimal(digits, number_in(digits))
}

// Whether a name is the one above, where there is one.
fn is_kept(above: &[u8], name: &[u8]) -> bool
    ensures { result ≡ (empty above.now || same above.now name.now) }
{
    if above.len() == 0 {
        return true;
    }
    lines::same(above, name)
}

// Whether a reference is to the file of this name, where there is one, and to no line above the last.
fn is_next(name: &[u8], least: u64, l: &[u8]) -> bool
    ensures { result ≡ follows name.now least l.now }
{
    let c = last_colon(l);
    if !is_kept(name, lines::cut(l, REF_WORD, c)) {
        return false;
    }
    least <= number_in(lines::cut(l, c + 1, l.len()))
}

// Whether a line is the reference that is awaited.
fn is_ref(name: &[u8], least: u64, l: &[u8]) -> bool
    ensures { result ≡ (is_reference l.now && follows name.now least l.now) }
{
    if is_reference(l) {
        return is_next(name, least, l);
    }
    false
}

// ---- what stands above

// What is awaited after a line.
fn next_awaited(w: usize) -> usize
    requires { w ≤ 6 }
    ensures { result ≡ next_of w }
{
    if w == 6 {
        return 3;
    }
    w + 1
}

// Whether a text is that of a msgid among the first `k` lines of a file.
fn is_above(file: &[u8], k: usize, s: &[u8]) -> bool
    ensures { result ≡ known (state_at file.now k).ids (decoded s.now 34) }
{
    let mut i = 0;
    let mut w = 0;
    for _ in 0..k {
        let e = lines::find_byte(file, i, 10);
        if is_same_id(w, lines::cut(file, i, e), s) {
            return true;
        }
        if file.len() <= e {
            return false;
        }
        w = next_awaited(w);
        i = e + 1;
    }
    false
}

// Whether a line is a msgid of the same text.
fn is_same_id(w: usize, l: &[u8], s: &[u8]) -> bool
    ensures { result ≡ same_id w l.now (decoded s.now 34) }
{
    if w == 5 {
        return same_text(lines::cut(l, ID_WORD, l.len()), QUOTE, s, QUOTE);
    }
    false
}

// Whether a text, whose literal's quote stands at a place, is that of a msgid among the first `k` lines; the table tells then of this one too.
fn is_met(file: &[u8], k: usize, p: usize, s: &[u8], own: &mut [usize]) -> bool
    requires { Tells file.now own.old (state_at file.now k).ids }
    ensures value { result ≡ known (state_at file.now k).ids (decoded s.now 34) }
    ensures tells { Tells file.now own.new (decoded s.now 34 ∷ (state_at file.now k).ids) }
{
    match index::meet(file, p, s, QUOTE, own) {
        Seek::Held => true,
        Seek::Free(_) => false,
        Seek::Unsure => is_above(file, k, s),
    }
}

// Whether a line, with `k` lines above it and its first quote at a place, is a msgid of a text that is not empty and was not met; the table
// tells then of this one too.
fn is_id(file: &[u8], k: usize, p: usize, l: &[u8], own: &mut [usize]) -> bool
    requires { Tells file.now own.old (state_at file.now k).ids }
    ensures value { result ≡ is_id (state_at file.now k) l.now }
    ensures tells { result ≡ true → Tells file.now own.new (quoted_text id_word l.now ∷ (state_at file.now k).ids) }
{
    if !is_quoted(b"msgid \"", l) {
        return false;
    }
    let text = lines::cut(l, ID_WORD, l.len());
    let x = unit_at(text, 0, QUOTE);
    if x.size == 0 {
        return false;
    }
    !is_met(file, k, p, text, own)
}

// Whether a line is what is awaited; the table tells then of the msgids up to this line.
fn is_awaited(file: &[u8], r: Line, own: &mut [usize]) -> bool
    requires at { At file.now r }
    requires tells { Tells file.now own.old (state_at file.now r.number).ids }
    ensures value { result ≡ awaited (state_at file.now r.number) (part r.at r.end file.now) }
    ensures tells_2 { result ≡ true → Tells file.now own.new (read_on (state_at file.now r.number) (part r.at r.end file.now)).ids }
{
    let l = lines::cut(file, r.at, r.end);
    let w = r.awaits;
    match w {
        0 => lines::same(l, b"msgid \"\""),
        1 => lines::same(l, b"msgstr \"\""),
        2 => lines::same(l, b"\"Content-Type: text/plain; charset=UTF-8\\n\""),
        3 => l.len() == 0,
        4 => is_ref(lines::cut(file, r.from, r.to), r.least, l),
        5 => is_id(file, r.number, r.at + ID_QUOTE, l, own),
        _ => is_quoted(b"msgstr \"", l),
    }
}

// The first line.
fn first_line(file: &[u8]) -> Line
    ensures at { At file.now result }
    ensures number_value { (result.number ≡ 0) × (result.at ≡ 0) }
{
    let end = lines::find_byte(file, 0, 10);
    Line {
        number: 0,
        at: 0,
        end,
        awaits: 0,
        from: 0,
        to: 0,
        least: 1,
    }
}

// The line after another.
fn line_after(file: &[u8], r: Line) -> Line
    requires at { At file.now r }
    requires end_in_bounds { r.end < length file.now }
    ensures at_2 { At file.now result }
    ensures number_value { (result.number ≡ r.number + 1) × (result.at ≡ r.end + 1) }
{
    let at = r.end + 1;
    let end = lines::find_byte(file, at, 10);
    let number = r.number + 1;
    let awaits = next_awaited(r.awaits);
    if r.awaits == 4 {
        let l = lines::cut(file, r.at, r.end);
        let c = last_colon(l);
        let least = number_in(lines::cut(l, c + 1, l.len()));
        return Line {
            number,
            at,
            end,
            awaits,
            from: r.at + REF_WORD,
            to: r.at + c,
            least,
        };
    }
    Line {
        number,
        at,
        end,
        awaits,
        from: r.from,
        to: r.to,
        least: r.least,
    }
}

// ---- what is given

// How long the text of a literal is.
fn plain_len(s: &[u8], q: u8) -> usize
    ensures { result ≡ length (decoded s.now q) }
{
    let mut n = 0;
    for _ in units::each(s, q) {
        n += 1;
    }
    n
}

// How much a line gives.
fn given_len(w: usize, l: &[u8]) -> usize
    ensures { result ≡ length (gives_one w l.now) }
{
    if w == 5 {
        return 8 + plain_len(lines::cut(l, ID_WORD, l.len()), QUOTE);
    }
    if w == 6 {
        return 8 + plain_len(lines::cut(l, STR_WORD, l.len()), QUOTE);
    }
    0
}

// How much a file gives, or its first line that is missing or not of our form.
pub fn check_file(file: &[u8], own: &mut [usize]) -> Strings
    ensures { result ≡ read_verdict (read_of file.now) }
{
    slots::wipe(own);
    let mut r = first_line(file);
    let mut n = 0;
    // Kept: each line is read by what the one before it left.
    while r.end < file.len() {
        if !is_awaited(file, r, own) {
            return Err(StringsRefusal::BadLine(r.number));
        }
        n += given_len(r.awaits, lines::cut(file, r.at, r.end));
        r = line_after(file, r);
    }
    if r.awaits != 3 {
        return Err(StringsRefusal::BadLine(r.number));
    }
    if r.at < file.len() {
        return Err(StringsRefusal::BadLine(r.number));
    }
    Ok(n)
}

// Writes a number in 8 bytes, low byte first, and returns the place after it.
fn put_size(out: &mut [u8], o: usize, n: usize) -> usize
    requires { o + 8 ≤ length out.old }
    ensures { Wrote out.old o (low_bytes 8 n) out.new result }
{
    lines::put(out, o, &n.to_le_bytes())
}

// Writes the text of a literal, and returns the place after it.
fn put_plain(out: &mut [u8], o: usize, s: &[u8], q: u8) -> usize
    requires { o + length (decoded s.now q) ≤ length out.old }
    ensures { Wrote out.old o (decoded s.now q) out.new result }
{
    let mut p = o;
    for b in units::each(s, q) {
        p = lines::put_byte(out, p, b);
    }
    p
}

// Writes the text of a literal behind its length, and returns the place after it.
fn put_packed(out: &mut [u8], o: usize, s: &[u8], q: u8) -> usize
    requires { o + length (packed (decoded s.now q)) ≤ length out.old }
    ensures { Wrote out.old o (packed (decoded s.now q)) out.new result }
{
    let p = put_size(out, o, plain_len(s, q));
    put_plain(out, p, s, q)
}

// Writes what a line gives, and returns the place after it.
fn put_given(out: &mut [u8], o: usize, w: usize, l: &[u8]) -> usize
    requires { o + length (gives_one w l.now) ≤ length out.old }
    ensures { Wrote out.old o (gives_one w l.now) out.new result }
{
    if w == 5 {
        return put_packed(out, o, lines::cut(l, ID_WORD, l.len()), QUOTE);
    }
    if w == 6 {
        return put_packed(out, o, lines::cut(l, STR_WORD, l.len()), QUOTE);
    }
    o
}

// Writes what a file gives, and returns the place after it.
pub fn put_strings(out: &mut [u8], file: &[u8]) -> usize
    requires { length (gives 0 (parts_of 10 file.now)) ≤ length out.old }
    ensures { Wrote out.old 0 (gives 0 (parts_of 10 file.now)) out.new result }
{
    let mut o = 0;
    let mut i = 0;
    let mut w = 0;
    let mut e = lines::find_byte(file, 0, 10);
    // Kept: what stands behind the last LF is a part too, even where it is empty.
    while e < file.len() {
        o = put_given(out, o, w, lines::cut(file, i, e));
        w = next_awaited(w);
        i = e + 1;
        e = lines::find_byte(file, i, 10);
    }
    put_given(out, o, w, lines::cut(file, i, e))
}
