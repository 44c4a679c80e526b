// Notes of the lines that store a register: how far below the value is read for the last time, and how far below the register is stored again or the
// region ends. They are made from the last line to the first, with two tables over registers. The number of a line is how many lines there are from it on.
ghost use Rattle.std.specs.Prelude.{◌≡◌, true, cond, ◌+◌, ◌-◌, ◌*◌, ◌/◌, ◌%◌, ◌≤◌, ◌<◌, ◌^◌, max, eqb, length, get_or, replicate, take};
ghost use Rattle.lines.specs.Lf.{lines_of};
ghost use Rattle.names.specs.Names.{reg_of};
ghost use Rattle.parse.specs.Parse.{parse_of, text_of};
ghost use Rattle.words.specs.Runs.{runs};
ghost use Rattle.slots.specs.Inner.Slots.{with_entry};
ghost use Rattle.decls.specs.Inner.Seen.{mark_store, AtMost};
ghost use Rattle.records.specs.Inner.Records.{Told};
ghost use Rattle.calls.specs.Inner.Later.{read_in, read_name, read_runs, read_span, note_put, note_line, Spans};

// Every so many lines one is looked at to tell whether notes pay, from that with so many above it on.
const STRIDE: usize = 47;

const FIRST: usize = 15;

// Notes pay where those lines pass as many as this share of all.
const SHARE: usize = 4;

// Texts of fewer lines than this have none.
const FEW: usize = 32;

// Nor do texts of as many lines as this: the number of each line has 32 bits.
const MANY: usize = 4294967295;

// Puts x as the entry of a register, where the table has a place for it.
fn enter(reg: names::Register, x: u32, own: &[usize], table: &mut [u32])
    ensures { table.new ≡ with_entry own.now reg.0 x table.old }
{
    let v = slots::slot(reg.0 as usize, table.len(), own);
    if table.len() <= v {
        return;
    }
    table[v] = x;
}

// Puts x as the entry of the register that a line, read as p, stores.
fn enter_store(p: parse::Line, x: u32, own: &[usize], table: &mut [u32])
    ensures { table.new ≡ mark_store own.now x p table.old }
{
    match p {
        parse::Line::Decl => {}
        parse::Line::Store(s) => enter(s.reg, x, own, table),
        parse::Line::Other => {}
    }
}

// Notes a register as read by the line with the number c, where no line below reads it that stands above the next header, whose number is h.
fn note_read(reg: names::Register, own: &[usize], c: u32, h: u32, near: &mut [u32])
    ensures { near.new ≡ read_in own.now c h reg.0 near.old }
{
    let v = slots::slot(reg.0 as usize, near.len(), own);
    if near.len() <= v {
        return;
    }
    if h < near[v] {
        return;
    }
    near[v] = c;
}

// Notes the register that a text names.
fn note_name(t: &[u8], own: &[usize], c: u32, h: u32, near: &mut [u32])
    ensures { near.new ≡ read_name own.now c h (reg_of t.now) near.old }
{
    match names::reg_name(t) {
        Some(q) => note_read(q, own, c, h, near),
        None => {}
    }
}

// Notes the registers that a text reads: runs that begin with another byte than `r` name none.
fn note_runs(s: &[u8], own: &[usize], c: u32, h: u32, near: &mut [u32])
    ensures { near.new ≡ read_runs own.now c h (runs s.now) near.old }
{
    let mut i = words::reg_start(s, 0);
    // Kept: the place goes from one run that may name a register to the next.
    while i < s.len() {
        let e = words::run_end(s, i);
        note_name(&s[i..e], own, c, h, near);
        i = words::reg_start(s, e);
    }
}

// The greater of two numbers.
fn greater(a: u32, b: u32) -> u32
    ensures { result ≡ max a b }
{
    if a <= b {
        return b;
    }
    a
}

// How far below the line with the number c the one with the number n stands; 0 where it does not.
fn span(c: u32, n: u32) -> u32
    ensures { result ≡ c - n }
{
    if c <= n {
        return 0;
    }
    c - n
}

// How far below a line with the number c its value is read for the last time, by the entry r of its register; 0 where it is not.
fn read_span(c: u32, h: u32, r: u32) -> u32
    ensures { result ≡ read_span c h r }
{
    if h < r {
        return span(c, r);
    }
    0
}

// Puts the note of the line with k above it and the number c, which stores a register, where the tables have places for it.
fn put_note(
    reg: names::Register,
    k: usize,
    own: &[usize],
    c: u32,
    h: u32,
    near: &[u32],
    stores: &[u32],
    notes: &mut [u32],
)
    ensures { notes.new ≡ note_put own.now reg.0 k c h near.now stores.now notes.old }
{
    let v = slots::slot(reg.0 as usize, near.len(), own);
    let w = slots::slot(reg.0 as usize, stores.len(), own);
    if near.len() <= v {
        return;
    }
    if stores.len() <= w {
        return;
    }
    if notes.len() / 2 <= k {
        return;
    }
    notes[2 * k] = read_span(c, h, near[v]);
    notes[2 * k + 1] = span(c, greater(h, stores[w]));
}

// Puts the note of a line, read as p, where it stores a register.
fn put_line_note(
    p: parse::Line,
    k: usize,
    own: &[usize],
    c: u32,
    h: u32,
    near: &[u32],
    stores: &[u32],
    notes: &mut [u32],
)
    ensures { notes.new ≡ note_line own.now p k c h near.now stores.now notes.old }
{
    match p {
        parse::Line::Decl => {}
        parse::Line::Store(s) => put_note(s.reg, k, own, c, h, near, stores, notes),
        parse::Line::Other => {}
    }
}

// Puts the note of a line with k above it and the number c, and notes the registers that it stores and reads.
fn note_line(
    line: &[u8],
    k: usize,
    own: &[usize],
    c: u32,
    h: u32,
    near: &mut [u32],
    stores: &mut [u32],
    notes: &mut [u32],
)
    ensures reads { near.new ≡ read_runs own.now c h (runs (text_of line.now (parse_of line.now))) (mark_store own.now 0 (parse_of line.now) near.old) }
    ensures stores { stores.new ≡ mark_store own.now c (parse_of line.now) stores.old }
    ensures notes { notes.new ≡ note_line own.now (parse_of line.now) k c h near.old stores.old notes.old }
{
    let p = parse::parse(line);
    put_line_note(p, k, own, c, h, near, stores, notes);
    enter_store(p, c, own, stores);
    enter_store(p, 0, own, near);
    note_runs(parse::text_of(line, p), own, c, h, near);
}

// Where the line with k above it begins, by the table of ends.
fn start_at(ends: &[usize], k: usize) -> usize
    requires { k ≤ length ends.now }
    ensures { result ≡ cond (eqb k 0) 0 (get_or ends.now (k - 1) 0 / 2 + 1) }
{
    if k == 0 {
        return 0;
    }
    ends[k - 1] / 2 + 1
}

// The number of the next header from a line with the number c on, by its entry x in the table of ends, where h is that below it.
fn head_at(x: usize, c: u32, h: u32) -> u32
    ensures { result ≡ cond (eqb (x % 2) 1) c h }
{
    if x % 2 == 1 {
        return c;
    }
    h
}

// Makes the notes of all lines; the tables hold zeros.
fn note_up(
    text: &[u8],
    ends: &[usize],
    m: usize,
    own: &[usize],
    near: &mut [u32],
    stores: &mut [u32],
    notes: &mut [u32],
)
    requires { (AtMost 0 near.old) × ((AtMost 0 stores.old) × ((AtMost 0 notes.old) × ((Told text.now ends.now ends.now m) × (m < 2 ^ 32)))) }
    ensures { Spans text.now notes.new }
{
    let mut h = 0;
    for k in (0..m).rev() {
        let c = (m - k) as u32;
        let x = ends[k];
        let line = lines::cut(text, start_at(ends, k), x / 2);
        note_line(line, k, own, c, h, near, stores, notes);
        h = head_at(x, c, h);
    }
}

// How many lines are passed from the one with k above it on until one uses a register or opens a region: at most so many.
fn passed(
    text: &[u8],
    ends: &[usize],
    m: usize,
    k: usize,
    reg: names::Register,
    most: usize,
) -> usize
    requires { (m ≤ length ends.now) × (k ≤ m) }
    ensures { result ≤ most }
{
    let end = most.min(m - k);
    for n in 0..end {
        let j = k + n;
        let x = ends[j];
        if x % 2 == 1 {
            return n;
        }
        if reading::line_uses(lines::cut(text, start_at(ends, j), x / 2), reg) {
            return n;
        }
    }
    end
}

// How many lines are passed below the one with k above it, where it stores a register that a call on the next line may take in.
fn probe(text: &[u8], ends: &[usize], m: usize, k: usize, most: usize) -> usize
    requires { (m ≤ length ends.now) × (k + 1 < m) }
    ensures { result ≤ most }
{
    let read = parse::parse(lines::cut(text, start_at(ends, k), ends[k] / 2));
    let parse::Line::Store(s) = read else {
        return 0
    };
    let next = lines::cut(text, start_at(ends, k + 1), ends[k + 1] / 2);
    if lines::lacks(next, b'(') {
        return 0;
    }
    passed(text, ends, m, k + 2, s.reg, most)
}

// Whether searches below call lines pass so many lines, by some of them, that notes cost less, and the numbers of lines fit them.
fn pays(text: &[u8], ends: &[usize], m: usize) -> bool
    requires { m ≤ length ends.now }
    ensures { result ≡ true → m < 2 ^ 32 }
{
    if m < FEW {
        return false;
    }
    if MANY <= m {
        return false;
    }
    let most = m / SHARE;
    let last = m - 1;
    let mut left = most;
    for k in (FIRST..last).step_by(STRIDE) {
        if left == 0 {
            return true;
        }
        left -= probe(text, ends, m, k, left);
    }
    left == 0
}

// Makes the notes of a text, where they pay, and returns how many entries they have. The tables over registers are zeros afterwards.
pub fn note_lines(
    text: &[u8],
    ends: &[usize],
    m: usize,
    own: &[usize],
    near: &mut [u32],
    stores: &mut [u32],
    notes: &mut [u32],
) -> usize
    requires { Told text.now ends.now ends.now m }
    ensures answer { (result ≤ length notes.old) × (Spans text.now (take result notes.new)) }
    ensures memory { (near.new ≡ replicate (length near.old) 0) × (stores.new ≡ replicate (length stores.old) 0) }
{
    lines::wipe_numbers(near);
    lines::wipe_numbers(stores);
    lines::wipe_numbers(notes);
    if !pays(text, ends, m) {
        return 0;
    }
    note_up(text, ends, m, own, near, stores, notes);
    lines::wipe_numbers(near);
    lines::wipe_numbers(stores);
    notes.len()
}
