// The forms of a line and of a value: a line that a condition or a loop begins, a value that goes without parentheses, and a line
// that writes what a value needs.
#![tactic(auto)]

ghost use Rattle.std.specs.Prelude.{◌≡◌, cond, ◌||◌, [], ◌∷◌, ◌++◌, suc, ◌+◌, ◌≤◌, ◌<◌, ◌^◌, length, drop};
ghost use Rattle.lines.specs.Lf.{among, parts_of, prefixed};
ghost use Rattle.lines.specs.Inner.Out.{Wrote};
ghost use Rattle.lexical.specs.Idents.{words_in};
ghost use Rattle.forms.specs.Control.{is_control};
ghost use Rattle.forms.specs.Inner.Control.{control_front};
ghost use Rattle.forms.specs.Primary.{all_idents, is_plain_ref, keyword, is_operator, bare_go, is_primary, bare, paren_if_needed};
ghost use Rattle.forms.specs.Breaks.{writes, writes_any, breaks_with};
ghost use Rattle.forms.specs.Inner.Breaks.{writes_here};

// Whether a line, its front trimmed, begins as one that a condition or a loop begins.
fn begins_control(t: &[u8]) -> bool
    ensures { result ≡ control_front t.now }
{
    lines::starts_with(t, b"while (")
        | lines::starts_with(t, b"while(")
        | lines::starts_with(t, b"for (")
        | lines::starts_with(t, b"for(")
        | lines::starts_with(t, b"if (")
        | lines::starts_with(t, b"if(")
        | lines::starts_with(t, b"switch (")
        | lines::starts_with(t, b"switch(")
        | lines::starts_with(t, b"do {")
}

// Whether a line, its front trimmed, is one that a condition or a loop begins: most are told by their fronts, and then nothing is searched for.
pub fn is_control_header(t: &[u8]) -> bool
    ensures { result ≡ is_control t.now }
{
    if begins_control(t) {
        return true;
    }
    lines::contains(t, b": while (")
        | lines::contains(t, b": for (")
        | lines::contains(t, b"} else if (")
}

// Whether each piece between the dots is a simple name.
fn all_idents(t: &[u8]) -> bool
    ensures { result ≡ all_idents (parts_of 46 t.now) }
{
    lines::pieces(t, b'.').all(|p| names::is_simple_ident(p))
}

// Whether a value is names with a `.` between them.
pub fn is_plain_ref(s: &[u8]) -> bool
    ensures { result ≡ is_plain_ref s.now }
{
    all_idents(text::trim(s))
}

// Whether a byte is one of some bytes.
fn is_one_of(bs: &[u8], x: u8) -> bool
    ensures { result ≡ among bs.now x }
{
    lines::find_byte(bs, 0, x) < bs.len()
}

// Whether a byte in front makes a value no primary one.
fn is_unary(x: u8) -> bool
    ensures { result ≡ among (45 ∷ 43 ∷ 33 ∷ 126 ∷ 63 ∷ 123 ∷ []) x }
{
    is_one_of(b"-+!~?{", x)
}

// Whether a byte is an operator, or the `,`.
fn is_operator(x: u8) -> bool
    ensures { result ≡ is_operator x }
{
    is_one_of(b"+-*/%<>=&|^~!?,", x)
}

// Whether a byte is a bracket that opens.
fn opens(x: u8) -> bool
    ensures { result ≡ among (40 ∷ 91 ∷ 123 ∷ []) x }
{
    is_one_of(b"([{", x)
}

// Whether a byte is a bracket that closes.
fn closes(x: u8) -> bool
    ensures { result ≡ among (41 ∷ 93 ∷ 125 ∷ []) x }
{
    is_one_of(b")]}", x)
}

// Whether a word stands in front that makes a value no primary one.
fn starts_keyword(t: &[u8]) -> bool
    ensures { result ≡ keyword t.now }
{
    lines::starts_with(t, b"typeof ")
        | lines::starts_with(t, b"void ")
        | lines::starts_with(t, b"delete ")
        | lines::starts_with(t, b"await ")
        | lines::starts_with(t, b"yield")
        | lines::starts_with(t, b"function")
        | lines::starts_with(t, b"class")
        | lines::starts_with(t, b"async ")
}

// One more where it counts.
fn bump(counts: bool, n: usize) -> usize
    requires { n + 1 < 2 ^ 64 }
    ensures { result ≡ cond counts (suc n) n }
{
    if counts {
        return n + 1;
    }
    n
}

// Whether no operator stands outside brackets and quotes.
fn no_operator(t: &[u8]) -> bool
    ensures { result ≡ bare_go t.now 0 0 0 }
{
    let mut i = 0;
    let mut opened = 0;
    let mut closed = 0;
    // Kept: the place moves past a quote.
    while i < t.len() {
        let x = t[i];
        if text::is_quote(x) {
            let quote = lexical::token_at(t, i, 256);
            i += quote.size;
        } else {
            if is_operator(x) & (opened == closed) {
                return false;
            }
            opened = bump(opens(x), opened);
            closed = bump(closes(x), closed);
            i += 1;
        }
    }
    true
}

// Whether a value is a primary expression.
pub fn is_primary_expr(s: &[u8]) -> bool
    ensures { result ≡ is_primary s.now }
{
    let t = text::trim(s);
    if t.len() == 0 {
        return false;
    }
    if is_unary(t[0]) {
        return false;
    }
    if starts_keyword(t) {
        return false;
    }
    no_operator(t)
}

// Whether a value goes without parentheses: after `new` a plain reference, elsewhere a primary expression.
pub fn bare(rhs: &[u8], after_new: bool) -> bool
    ensures { result ≡ bare rhs.now after_new }
{
    if after_new {
        return is_plain_ref(rhs);
    }
    is_primary_expr(rhs)
}

// Writes a value at `o`, in parentheses where it needs them, and returns the place after it.
pub fn put_paren(rhs: &[u8], after_new: bool, out: &mut [u8], o: usize) -> usize
    requires { o + length (paren_if_needed rhs.now after_new) ≤ length out.old }
    ensures { Wrote out.old o (paren_if_needed rhs.now after_new) out.new result }
{
    if bare(rhs, after_new) {
        return lines::put(out, o, rhs);
    }
    let p = lines::put_byte(out, o, b'(');
    let q = lines::put(out, p, rhs);
    lines::put_byte(out, q, b')')
}

// Whether `name =` or `name++` stands in front.
fn stores_here(name: &[u8], l: &[u8]) -> bool
    ensures { result ≡ prefixed (name.now ++ 32 ∷ 61 ∷ []) l.now || prefixed (name.now ++ 43 ∷ 43 ∷ []) l.now }
{
    if !lines::starts_with(l, name) {
        return false;
    }
    let rest = lines::cut(l, name.len(), l.len());
    lines::starts_with(rest, b" =") | lines::starts_with(rest, b"++")
}

// Whether `name =`, `name++` or `++name` stands in front.
fn writes_here(name: &[u8], l: &[u8]) -> bool
    ensures { result ≡ writes_here name.now l.now }
{
    if stores_here(name, l) {
        return true;
    }
    if !lines::starts_with(l, b"++") {
        return false;
    }
    lines::starts_with(lines::cut(l, 2, l.len()), name)
}

// Whether `name =`, `name++` or `++name` stands in a line: where its first byte does, or a `+`.
fn writes_word(name: &[u8], line: &[u8]) -> bool
    requires { 0 < length name.now }
    ensures { result ≡ writes name.now line.now }
{
    let b = name[0];
    for i in 0..line.len() {
        if (line[i] == b) | (line[i] == b'+') {
            if writes_here(name, &line[i..]) {
                return true;
            }
        }
    }
    false
}

// The same of any name; one without bytes is written by ` =` and `++`.
fn writes(name: &[u8], line: &[u8]) -> bool
    ensures { result ≡ writes name.now line.now }
{
    if name.len() == 0 {
        return lines::contains(line, b" =") | lines::contains(line, b"++");
    }
    writes_word(name, line)
}

// Whether a line writes one of the words of a cleaned text.
fn writes_any(clean: &[u8], line: &[u8]) -> bool
    ensures { result ≡ writes_any (words_in clean.now) line.now }
{
    lexical::idents::each(clean).any(|word| writes(word, line))
}

// Whether a line that was taken in stores a register that a value reads, or writes a word of the cleaned value.
pub fn breaks(rhs: &[u8], clean: &[u8], line: &[u8]) -> bool
    ensures { result ≡ breaks_with rhs.now (words_in clean.now) line.now }
{
    match parse::parse(line) {
        parse::Line::Decl => false,
        parse::Line::Store(s) => {
            if words::count_reg(rhs, s.reg) > 0 {
                return true;
            }
            writes_any(clean, line)
        }
        parse::Line::Other => false,
    }
}
