// What a line reads and stores, and the two sides of an assignment.
#![tactic(auto)]

ghost use Rattle.std.specs.Prelude.{◌≡◌, ◌<◌, ◌+◌, ◌%◌, length};
ghost use Rattle.lines.specs.Lf.{part, lines_of};
ghost use Rattle.parse.specs.Inner.Parse.{plain_byte};
ghost use Rattle.reading.specs.Reading.{strict_at, joined_at};
ghost use Rattle.reading.specs.Uses.{line_reads, stores_by, line_stores, line_uses, used_in};
ghost use Rattle.reading.specs.Inner.Assign.{plain_sides, sides_of, assign_of};

// How values and lines are read: 0 plain, 1 strict, 2 joined, 3 both.
#[derive(Clone, Copy)]
pub struct Mode(pub usize);

// Whether a mode is strict.
pub fn is_strict(mode: Mode) -> bool
    ensures { result ≡ strict_at mode.0 }
{
    mode.0 % 2 == 1
}

// Whether lines are joined in a mode.
pub fn is_joined(mode: Mode) -> bool
    ensures { result ≡ joined_at mode.0 }
{
    1 < mode.0
}

// What a line does with a register: how often it reads it, and whether it stores it.
#[derive(Clone, Copy)]
pub struct Use {
    pub reads: usize,
    pub stores: bool,
}

// The trimmed sides of an assignment, as places of its text.
#[derive(Clone, Copy)]
pub struct Sides {
    pub left: text::Span,
    pub right: text::Span,
}

// Whether a line that is read already stores a register.
fn stores_in(p: parse::Line, reg: names::Register) -> bool
    ensures { result ≡ stores_by reg.0 p }
{
    match p {
        parse::Line::Decl => false,
        parse::Line::Store(s) => s.reg.0 == reg.0,
        parse::Line::Other => false,
    }
}

// What a line does with a register, by reading it.
fn use_read(line: &[u8], reg: names::Register) -> Use
    ensures { (result.reads ≡ line_reads reg.0 line.now) × (result.stores ≡ line_stores reg.0 line.now) }
{
    let p = parse::parse(line);
    let n = words::count_reg(parse::text_of(line, p), reg);
    let s = stores_in(p, reg);
    Use {
        reads: n,
        stores: s,
    }
}

// The last digit of a register.
fn last_digit(reg: names::Register) -> u8
    ensures { result ≡ 48 + reg.0 % 10 }
{
    48 + (reg.0 % 10) as u8
}

// What a line does with a register: nothing, where it lacks the register's last digit.
pub fn use_of(line: &[u8], reg: names::Register) -> Use
    ensures { (result.reads ≡ line_reads reg.0 line.now) × (result.stores ≡ line_stores reg.0 line.now) }
{
    if lines::find_byte(line, 0, last_digit(reg)) >= line.len() {
        return Use {
            reads: 0,
            stores: false,
        };
    }
    use_read(line, reg)
}

// Whether a line reads or stores a register.
pub fn line_uses(line: &[u8], reg: names::Register) -> bool
    ensures { result ≡ line_uses reg.0 line.now }
{
    let u = use_of(line, reg);
    u.stores | (0 < u.reads)
}

// Whether some line of a text does.
pub fn uses(text: &[u8], reg: names::Register) -> bool
    ensures { result ≡ used_in reg.0 (lines_of text.now) }
{
    lines::each::each(text).any(|line| line_uses(line.bytes, reg))
}

// Whether a byte is one of ASCII above the space: it is no white space, nor part of one.
fn is_dark(b: u8) -> bool
    ensures { result ≡ plain_byte b }
{
    (32 < b) & (b < 128)
}

// Whether one space stands on either side of the place k, and both sides are plainly trimmed then.
fn plain_sides(u: &[u8], k: usize) -> bool
    requires { k < length u.now }
    ensures { result ≡ plain_sides k u.now }
{
    let n = u.len();
    if k < 2 {
        return false;
    }
    if n < k + 3 {
        return false;
    }
    (u[k - 1] == b' ')
        & ((u[k + 1] == b' ')
            & (is_dark(u[0]) & (is_dark(u[k - 2]) & (is_dark(u[k + 2]) & is_dark(u[n - 1])))))
}

// The two sides of a text that ended in `;`, without it, split at its first `=`: most have one space on either side of it.
fn sides_of(u: &[u8]) -> Option<Sides>
    ensures { result ≡ sides_of u.now }
{
    let k = lines::find_byte(u, 0, b'=');
    if k >= u.len() {
        return None;
    }
    if plain_sides(u, k) {
        let before = text::Span { from: 0, to: k - 1 };
        let behind = text::Span {
            from: k + 2,
            to: u.len(),
        };
        return Some(Sides {
            left: before,
            right: behind,
        });
    }
    let b = k + 1;
    let left = text::trim_span(&u[..k]);
    let v = text::trim_span(&u[b..]);
    let right = text::Span {
        from: b + v.from,
        to: b + v.to,
    };
    Some(Sides { left, right })
}

// The two sides of a text that ends in `;`, split at its first `=`.
pub fn assign_of(t: &[u8]) -> Option<Sides>
    ensures { result ≡ assign_of t.now }
{
    let n = t.len();
    if n == 0 {
        return None;
    }
    if t[n - 1] != b';' {
        return None;
    }
    sides_of(&t[..n - 1])
}

// The left side of an assignment, as a part of its text.
pub fn left_of(t: &[u8], s: Sides) -> &[u8]
    ensures { result.now ≡ part s.left.from s.left.to t.now }
{
    lines::cut(t, s.left.from, s.left.to)
}

// The right side of an assignment, as a part of its text.
pub fn right_of(t: &[u8], s: Sides) -> &[u8]
    ensures { result.now ≡ part s.right.from s.right.to t.now }
{
    lines::cut(t, s.right.from, s.right.to)
}
