// Reading a line.
#![tactic(auto)]

ghost use Rattle.std.specs.Prelude.{◌≡◌, ◌<◌, ◌≤◌, ◌+◌, ◌-◌, ◌^◌, true, cond, not, ◌&&◌, eqb, length, take, drop, get_or};
ghost use Rattle.lines.specs.Lf.{part, up_to, parts_of};
ghost use Rattle.text.specs.Trim.{from_of, trim_of};
ghost use Rattle.names.specs.Names.{reg_of, is_reg};
ghost use Rattle.std.specs.declared.option.Option.TheVariants.{None};
ghost use Rattle.parse.specs.Parse.{all_regs, is_decl, store_in, split_store, parse_of, text_of};
ghost use Rattle.parse.specs.Inner.Parse.{digits_len, short_reg, NameTo, plain_byte, plain_value};

// A store: its register, and the place of its value in the line.
#[derive(Clone, Copy)]
pub struct Store {
    pub reg: names::Register,
    pub from: usize,
    pub to: usize,
}

#[derive(Clone, Copy)]
pub enum Line {
    Decl,
    Store(Store),
    Other,
}

// Whether a text names a register.
fn is_reg(s: &[u8]) -> bool
    ensures { result ≡ is_reg (reg_of s.now) }
{
    names::reg_name(s).is_some()
}

// Where the digits that begin at a place end.
fn digits_end(s: &[u8], i: usize) -> usize
    ensures { result ≡ i + digits_len (drop i s.now) }
{
    for j in i..s.len() {
        if (s[j] < b'0') | (b'9' < s[j]) {
            return j;
        }
    }
    i.max(s.len())
}

// The place after the space at a place, or the place.
fn after_space(s: &[u8], i: usize) -> usize
    ensures { result ≡ cond (eqb (get_or s.now i 0) 32) (i + 1) i }
{
    if lines::byte_at(s, i) == 32 {
        return i + 1;
    }
    i
}

// Whether `r` and a digit stand at a place, and then a comma or the end.
fn short_reg(s: &[u8], a: usize) -> bool
    ensures { result ≡ short_reg a s.now }
{
    let n = s.len();
    if n < 2 {
        return false;
    }
    if n - 2 < a {
        return false;
    }
    let d = s[a + 1];
    if !((s[a] == b'r') & ((b'0' <= d) & (d <= b'9'))) {
        return false;
    }
    if a + 2 == n {
        return true;
    }
    s[a + 2] == b','
}

// Where the piece at a place ends, where it is plainly a register: at most one space, `r` and at most nine digits. Else the place.
fn plain_reg(s: &[u8], i: usize) -> usize
    ensures { i < result → (result ≡ i + up_to 44 (drop i s.now)) × (is_reg (reg_of (trim_of (part i result s.now))) ≡ true) }
{
    let a = after_space(s, i);
    if short_reg(s, a) {
        return a + 2;
    }
    if lines::byte_at(s, a) != b'r' {
        return i;
    }
    let e = digits_end(s, a + 1);
    if e - a < 2 {
        return i;
    }
    if 10 < e - a {
        return i;
    }
    if e >= s.len() {
        return e;
    }
    if s[e] != b',' {
        return i;
    }
    e
}

// Whether each piece between the commas names a register.
fn all_regs(s: &[u8]) -> bool
    ensures { result ≡ all_regs (parts_of 44 s.now) }
{
    let mut i = 0;
    // Kept: the place moves by what stands there, and no comma is looked for before a piece that is plainly a register: that needs twice the time.
    loop {
        let p = plain_reg(s, i);
        if i < p {
            if p >= s.len() {
                return true;
            }
            i = p + 1;
        } else {
            let e = lines::find_byte(s, i, b',');
            if !is_reg(text::trim(&s[i..e])) {
                return false;
            }
            if e >= s.len() {
                return true;
            }
            i = e + 1;
        }
    }
}

// Whether a trimmed line is a declaration.
pub fn is_decl(t: &[u8]) -> bool
    ensures { result ≡ is_decl t.now }
{
    let n = t.len();
    if n <= 4 {
        return false;
    }
    if !lines::starts_with(t, b"let ") {
        return false;
    }
    if t[n - 1] != b';' {
        return false;
    }
    all_regs(&t[4..n - 1])
}

// What a trimmed line that is no declaration is, and begins at the place `a`: a store, or other.
fn store_in(t: &[u8], a: usize) -> Line
    requires { a + length t.now < 2 ^ 64 }
    ensures { result ≡ store_in a t.now }
{
    let n = t.len();
    if n == 0 {
        return Line::Other;
    }
    if t[n - 1] != b';' {
        return Line::Other;
    }
    split_store(&t[..n - 1], a)
}

// The same without its `;`.
fn split_store(u: &[u8], a: usize) -> Line
    requires { a + length u.now + 1 < 2 ^ 64 }
    ensures { result ≡ split_store a u.now }
{
    let k = lines::find_byte(u, 0, b'=');
    if k >= u.len() {
        return Line::Other;
    }
    let b = k + 1;
    if lines::byte_at(u, b) == b'=' {
        return Line::Other;
    }
    match names::reg_name(text::trim(&u[..k])) {
        Some(q) => {
            let v = text::trim_span(&u[b..]);
            Line::Store(Store {
                reg: q,
                from: a + b + v.from,
                to: a + b + v.to,
            })
        }
        None => Line::Other,
    }
}

// What a line is, by its trimmed text.
fn parse_any(line: &[u8]) -> Line
    ensures { result ≡ parse_of line.now }
{
    let w = text::trim_span(line);
    let a = w.from;
    let e = w.to;
    if is_decl(&line[a..e]) {
        return Line::Decl;
    }
    store_in(&line[a..e], a)
}

// Whether ` = ` stands at a place, then a value that neither begins nor ends with white space, and a `;` at the end.
fn plain_value(line: &[u8], e: usize) -> bool
    ensures { result ≡ plain_value e line.now }
{
    let n = line.len();
    if n < 5 {
        return false;
    }
    if n - 5 < e {
        return false;
    }
    let x = line[e + 3];
    let y = line[n - 2];
    (line[e] == b' ')
        & ((line[e + 1] == b'=')
            & ((line[e + 2] == b' ')
                & (((32 < x) & (x < 128)) & (((32 < y) & (y < 128)) & (line[n - 1] == b';')))))
}

// The register whose name stands from a to e, where the line is plainly a store of it.
fn plain_store(line: &[u8], a: usize, e: usize) -> Option<names::Register>
    requires { a ≤ e }
    ensures { result ≡ cond (plain_value e line.now) (reg_of (part a e line.now)) None }
{
    if !plain_value(line, e) {
        return None;
    }
    names::reg_name(&line[a..e])
}

// Where the digits that begin at a place end, in a text whose last byte is `;`: it stops them, so no end is looked for.
fn digits_to(t: &[u8], i: usize) -> usize
    requires { (i < length t.now) × (get_or t.now (length t.now - 1) 0 ≡ 59) }
    ensures { (result ≡ i + digits_len (drop i t.now)) × (result < length t.now) }
{
    let mut j = i;
    // Kept: no end is looked for, and the places are not known before.
    loop {
        if (t[j] < b'0') | (b'9' < t[j]) {
            return j;
        }
        j += 1;
    }
}

// The place after the space at a place, or the place, in a text whose last byte is `;`: both are in it.
fn past_space(t: &[u8], i: usize) -> usize
    requires { (i < length t.now) × (get_or t.now (length t.now - 1) 0 ≡ 59) }
    ensures { (result ≡ cond (eqb (get_or t.now i 0) 32) (i + 1) i) × (result < length t.now) }
{
    if t[i] == 32 {
        return i + 1;
    }
    i
}

// Where the piece at a place ends, where it is plainly a register, in a text whose last byte is `;`: at most one space, `r` and at most nine digits. Else the place.
fn plain_name(t: &[u8], i: usize) -> usize
    requires { (i < length t.now) × (get_or t.now (length t.now - 1) 0 ≡ 59) }
    ensures { i < result → NameTo t.now i result }
{
    let a = past_space(t, i);
    if t[a] != b'r' {
        return i;
    }
    let e = digits_to(t, a + 1);
    if e - a < 2 {
        return i;
    }
    if 10 < e - a {
        return i;
    }
    e
}

// Whether each piece between the commas from a place on is plainly a register, up to the `;` that is the last byte of a text.
fn plain_names(t: &[u8], a: usize) -> bool
    requires { (a < length t.now) × (get_or t.now (length t.now - 1) 0 ≡ 59) }
    ensures { result ≡ true → all_regs (parts_of 44 (drop a (take (length t.now - 1) t.now))) ≡ true }
{
    let mut i = a;
    // Kept: a name is read as far as it goes, and no comma is looked for before.
    loop {
        let e = plain_name(t, i);
        if e <= i {
            return false;
        }
        if t[e] != b',' {
            return e + 1 == t.len();
        }
        i = e + 1;
    }
}

// Whether a line is plainly a declaration, which most are; `a` is the place of its first byte that is no white space.
fn plain_decl(line: &[u8], a: usize) -> bool
    requires { a ≡ from_of line.now }
    ensures { result ≡ true → is_decl (trim_of line.now) ≡ true }
{
    let n = line.len();
    if n < 6 {
        return false;
    }
    if n - 6 < a {
        return false;
    }
    if !((line[a] == b'l')
        & ((line[a + 1] == b'e') & ((line[a + 2] == b't') & (line[a + 3] == b' '))))
    {
        return false;
    }
    if line[n - 1] != b';' {
        return false;
    }
    plain_names(line, a + 4)
}

// Whether an ASCII byte above the space other than `r` stands at a place: no name of a register begins there.
fn names_none(s: &[u8], i: usize) -> bool
    ensures { result ≡ plain_byte (get_or s.now i 0) && not (eqb (get_or s.now i 0) 114) }
{
    let c = lines::byte_at(s, i);
    ((32 < c) & (c < 128)) & (c != b'r')
}

// Whether a line is a declaration; `a` is the place of its first byte that is no white space. Many others that begin with `let ` are told by the byte behind it.
fn declares_at(line: &[u8], a: usize) -> bool
    requires { a ≡ from_of line.now }
    ensures { result ≡ is_decl (trim_of line.now) }
{
    if plain_decl(line, a) {
        return true;
    }
    if names_none(line, a + 4) {
        return false;
    }
    let n = text::trim_to(&line[a..]);
    is_decl(&line[a..a + n])
}

// Whether a line is a declaration: most do not begin with `l`.
pub fn declares(line: &[u8]) -> bool
    ensures { result ≡ is_decl (trim_of line.now) }
{
    let a = text::trim_from(line);
    if lines::byte_at(line, a) != b'l' {
        return false;
    }
    declares_at(line, a)
}

// What a line is whose first byte that is no white space is `r`, at the place `a`: most are plainly stores.
fn parse_reg(line: &[u8], a: usize) -> Line
    requires { (a ≡ from_of line.now) × (get_or line.now a 0 ≡ 114) }
    ensures { result ≡ parse_of line.now }
{
    let e = digits_end(line, a + 1);
    if e - a < 2 {
        return Line::Other;
    }
    match plain_store(line, a, e) {
        Some(q) => {
            return Line::Store(Store {
                reg: q,
                from: e + 3,
                to: line.len() - 1,
            });
        }
        None => {}
    }
    match parse_any(line) {
        Line::Decl => Line::Decl,
        Line::Store(s) => Line::Store(s),
        Line::Other => Line::Other,
    }
}

// What a line is: most are told by their first byte that is no white space. The answer for the others is built anew from its parts: handed on as a whole,
// it would be copied once more for every line.
pub fn parse(line: &[u8]) -> Line
    ensures { result ≡ parse_of line.now }
{
    let a = text::trim_from(line);
    let c = lines::byte_at(line, a);
    if c == b'r' {
        return parse_reg(line, a);
    }
    if (32 < c) & (c < 128) {
        if c != b'l' {
            return Line::Other;
        }
        if declares_at(line, a) {
            return Line::Decl;
        }
        return Line::Other;
    }
    match parse_any(line) {
        Line::Decl => Line::Decl,
        Line::Store(s) => Line::Store(s),
        Line::Other => Line::Other,
    }
}

// The value of a store, as a part of its line.
pub fn value_of(line: &[u8], s: Store) -> &[u8]
    ensures { result.now ≡ part s.from s.to line.now }
{
    lines::cut(line, s.from, s.to)
}

// The expression of a line, as a part of it.
pub fn text_of(line: &[u8], p: Line) -> &[u8]
    ensures { result.now ≡ text_of line.now p }
{
    match p {
        Line::Decl => lines::cut(line, 0, 0),
        Line::Store(s) => value_of(line, s),
        Line::Other => line,
    }
}
