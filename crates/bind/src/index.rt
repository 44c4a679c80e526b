// The index of a region, two tables over registers: `seen` holds a mark at each one that a declaration names, and `first` the row of the line
// that stores it first, and one more.
ghost use Rattle.std.specs.Prelude.{◌≡◌, true, ◌+◌, ◌-◌, ◌≤◌, ◌<◌, ◌^◌, length, get_or, replicate};
ghost use Rattle.lines.specs.Lf.{part, lines_of, parts_of};
ghost use Rattle.text.specs.Trim.{trim_of};
ghost use Rattle.names.specs.Names.{reg_of};
ghost use Rattle.parse.specs.Parse.{is_decl};
ghost use Rattle.parse.specs.declared.Line.TheVariants.{Store};
ghost use Rattle.words.specs.Runs.{runs};
ghost use Rattle.slots.specs.Inner.Slots.{entry_of, with_entry};
ghost use Rattle.decls.specs.Inner.Seen.{mark_name};
ghost use Rattle.bind.specs.Bind.{pieces_of};
ghost use Rattle.bind.specs.Inner.Index.{after_store, after_read, read_name, read_runs, store_line, use_line, use_lines, again_reg, again_name, seen_pieces, again_pieces, seen_lines, again_lines, seen_at, first_at, asked};

// Makes every entry of both tables 0.
pub fn wipe(seen: &mut [usize], first: &mut [usize])
    ensures { (seen.new ≡ replicate (length seen.old) 0) × (first.new ≡ replicate (length first.old) 0) }
{
    slots::wipe(seen);
    slots::wipe(first);
}

// Notes that a line reads a register.
fn read_reg(reg: names::Register, own: &[usize], b: usize, first: &mut [usize])
    ensures { first.new ≡ with_entry own.now reg.0 (after_read b (entry_of own.now reg.0 first.old)) first.old }
{
    let v = slots::slot(reg.0 as usize, first.len(), own);
    if first.len() <= v {
        return;
    }
    if first[v] >= b {
        return;
    }
    first[v] = b;
}

// The same of the register that a text names.
fn read_name(t: &[u8], own: &[usize], b: usize, first: &mut [usize])
    ensures { first.new ≡ read_name own.now b (reg_of t.now) first.old }
{
    if lines::byte_at(t, 0) != b'r' {
        return;
    }
    match names::reg_name(t) {
        Some(q) => read_reg(q, own, b, first),
        None => {}
    }
}

// The same of all registers that a text reads: runs that begin with another byte than `r` name none.
fn read_runs(s: &[u8], own: &[usize], b: usize, first: &mut [usize])
    ensures { first.new ≡ read_runs own.now b (runs s.now) first.old }
{
    let mut i = words::reg_start(s, 0);
    // Kept: the place goes from one run that may name a register to the next.
    while i < s.len() {
        let e = words::run_end(s, i);
        read_name(&s[i..e], own, b, first);
        i = words::reg_start(s, e);
    }
}

// Notes that a line stores a register; `c` is one more than its row.
fn store_reg(reg: names::Register, own: &[usize], b: usize, c: usize, first: &mut [usize])
    ensures { first.new ≡ with_entry own.now reg.0 (after_store b c (entry_of own.now reg.0 first.old)) first.old }
{
    let v = slots::slot(reg.0 as usize, first.len(), own);
    if first.len() <= v {
        return;
    }
    if first[v] < b {
        first[v] = c;
        return;
    }
    first[v] = b;
}

// Notes the registers that a store reads, and the one that it stores.
fn use_store(line: &[u8], own: &[usize], s: parse::Store, b: usize, c: usize, first: &mut [usize])
    ensures { first.new ≡ read_runs own.now b (runs (part s.from s.to line.now)) (store_line own.now b c (Store s) first.old) }
{
    store_reg(s.reg, own, b, c, first);
    read_runs(parse::value_of(line, s), own, b, first);
}

// Marks a register that a declaration names; one that has a mark already is `b` in the other table.
fn see_reg(
    reg: names::Register,
    own: &[usize],
    m: usize,
    b: usize,
    seen: &mut [usize],
    first: &mut [usize],
)
    requires { length seen.old ≡ length first.old }
    ensures marked { seen.new ≡ with_entry own.now reg.0 m seen.old }
    ensures again { first.new ≡ again_reg own.now m b reg.0 seen.old first.old }
{
    let v = slots::slot(reg.0 as usize, first.len(), own);
    if first.len() <= v {
        return;
    }
    let x = seen[v];
    seen[v] = m;
    if x < m {
        return;
    }
    first[v] = b;
}

// The same of the register that a text names.
fn see_name(t: &[u8], own: &[usize], m: usize, b: usize, seen: &mut [usize], first: &mut [usize])
    requires { length seen.old ≡ length first.old }
    ensures marked { seen.new ≡ mark_name own.now m (reg_of t.now) seen.old }
    ensures again { first.new ≡ again_name own.now m b (reg_of t.now) seen.old first.old }
{
    match names::reg_name(t) {
        Some(q) => see_reg(q, own, m, b, seen, first),
        None => {}
    }
}

// The same of the pieces of a declaration.
fn see_pieces(
    body: &[u8],
    own: &[usize],
    m: usize,
    b: usize,
    seen: &mut [usize],
    first: &mut [usize],
)
    requires { length seen.old ≡ length first.old }
    ensures marked { seen.new ≡ seen_pieces own.now m (parts_of 44 body.now) seen.old }
    ensures again { first.new ≡ again_pieces own.now m b (parts_of 44 body.now) seen.old first.old }
{
    for piece in lines::pieces(body, b',') {
        see_name(text::trim(piece), own, m, b, seen, first);
    }
}

// The same of a line that is a declaration.
fn see_decl(line: &[u8], own: &[usize], m: usize, b: usize, seen: &mut [usize], first: &mut [usize])
    requires { (is_decl (trim_of line.now) ≡ true) × (length seen.old ≡ length first.old) }
    ensures marked { seen.new ≡ seen_pieces own.now m (pieces_of line.now) seen.old }
    ensures again { first.new ≡ again_pieces own.now m b (pieces_of line.now) seen.old first.old }
{
    let t = text::trim(line);
    see_pieces(lines::cut(t, 4, t.len() - 1), own, m, b, seen, first);
}

// Notes the registers that a line stores and reads, or declares; `c` is one more than its row.
fn read_line(
    line: &[u8],
    own: &[usize],
    m: usize,
    b: usize,
    c: usize,
    seen: &mut [usize],
    first: &mut [usize],
)
    requires { length seen.old ≡ length first.old }
    ensures marked { seen.new ≡ seen_pieces own.now m (pieces_of line.now) seen.old }
    ensures again { first.new ≡ again_pieces own.now m b (pieces_of line.now) seen.old (use_line own.now b c line.now first.old) }
{
    let p = parse::parse(line);
    match p {
        parse::Line::Decl => see_decl(line, own, m, b, seen, first),
        parse::Line::Store(s) => use_store(line, own, s, b, c, first),
        parse::Line::Other => read_runs(line, own, b, first),
    }
}

// The same of the lines of a text, of which the first has the row `n`.
fn read_lines(
    text: &[u8],
    own: &[usize],
    m: usize,
    b: usize,
    n: usize,
    seen: &mut [usize],
    first: &mut [usize],
)
    requires { (length seen.old ≡ length first.old) × (n + length (lines_of text.now) < 2 ^ 64) }
    ensures marked { seen.new ≡ seen_lines own.now m (lines_of text.now) seen.old }
    ensures again { first.new ≡ again_lines own.now m b (lines_of text.now) seen.old (use_lines own.now b n (lines_of text.now) first.old) }
{
    let mut k = n;
    for line in lines::each::each(text) {
        read_line(line.bytes, own, m, b, k + 1, seen, first);
        k += 1;
    }
}

// Reads a region, from `a` to `e`, into the tables, where the line at `i`, in row `k`, is its first.
pub fn read_region(
    text: &[u8],
    own: &[usize],
    a: usize,
    i: usize,
    e: usize,
    k: usize,
    seen: &mut [usize],
    first: &mut [usize],
)
    requires { (length seen.old ≡ length first.old) × ((a < 2 ^ 64 - 1) × ((k < 2 ^ 64 - 1) × (i ≤ a → k + length (lines_of (part a e text.now)) < 2 ^ 64))) }
    ensures marked { seen.new ≡ seen_at own.now text.now a i e seen.old }
    ensures again { first.new ≡ first_at own.now text.now a i e k seen.old first.old }
{
    if a < i {
        return;
    }
    read_lines(lines::cut(text, a, e), own, a + 1, k + 1, k, seen, first);
}

// Whether a register is bound, by its entries `x` and `y`: its declaration stands in row `k`, in the block `block`, and the region of that begins
// at `a`.
pub fn ask(
    blocks: &[usize],
    starts: &[u8],
    block: usize,
    a: usize,
    k: usize,
    x: usize,
    y: usize,
) -> bool
    requires { (((k + 1 ≤ length blocks.now) × (y ≤ length blocks.now)) × (y ≤ length starts.now)) × (block ≡ get_or blocks.now k 0) }
    ensures { result ≡ asked blocks.now starts.now a k x y }
{
    if x <= a {
        return false;
    }
    if y <= k + 1 {
        return false;
    }
    let n = y - 1;
    if blocks[n] != block {
        return false;
    }
    starts[n] == 1
}
