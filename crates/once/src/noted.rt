// Tables over registers, of the next lines that read and store each one; and over lines, of what each is and what becomes of what it stores, and
// of where it ends. The number of a line is how many lines there are from it on.
ghost use Rattle.std.specs.Prelude.{◌≡◌, cond, ◌+◌, ◌-◌, ◌≤◌, ◌<◌, length, drop, set, get_or, replicate};
ghost use Rattle.lines.specs.Lf.{up_to, lines_of};
ghost use Rattle.names.specs.Names.{reg_of};
ghost use Rattle.parse.specs.Parse.{text_of};
ghost use Rattle.words.specs.Runs.{runs};
ghost use Rattle.place.specs.Region.{is_header};
ghost use Rattle.slots.specs.Inner.Slots.{entry_of, with_entry};
ghost use Rattle.decls.specs.Inner.Seen.{mark_name, mark_store, AtMost};
ghost use Rattle.once.specs.Inner.Noted.{OneOf, far_name, take_back, back_by, back_name, alone_in, alone_store, read_runs, StartOf, same_path, store_note, line_note, NotesOf, EndIs, EndsOf};

// What the note of a line says: nothing, that it is a declaration, or that it is no store; of a store, what becomes of its value. It is read next
// in the region;
pub const NOTE_NONE: u8 = 0;

pub const NOTE_DECL: u8 = 1;

pub const NOTE_OTHER: u8 = 2;

pub const NOTE_READ: u8 = 3;

// it may go into the next line, and the region reads the register elsewhere too, or there alone;
pub const NOTE_SENT: u8 = 4;

pub const NOTE_ALONE: u8 = 7;

// the register is stored next, by a line that reads it too or in another block path; or nothing wants the value.
pub const NOTE_STORED: u8 = 5;

pub const NOTE_DEAD: u8 = 6;

// The greatest number of a line.
const LAST_ROW: usize = 4294967295;

// The entry of a table, or 0 past its end.
fn entry(d: &[usize], i: usize) -> usize
    ensures { result ≡ get_or d.now i 0 }
{
    if i < d.len() {
        return d[i];
    }
    0
}

// Puts the note x of the line with k above it, where the table reaches to it.
fn put_note(k: usize, x: u8, notes: &mut [u8])
    ensures { notes.new ≡ set notes.old k x }
{
    if notes.len() <= k {
        return;
    }
    notes[k] = x;
}

// Takes back that the region reads the value once that the line with the number f stores, of n lines.
fn take_back(f: u32, n: usize, notes: &mut [u8])
    ensures { notes.new ≡ take_back n f notes.old }
{
    let t = f as usize;
    if n < t {
        return;
    }
    let k = n - t;
    if lines::byte_at(notes, k) != NOTE_ALONE {
        return;
    }
    put_note(k, NOTE_SENT, notes)
}

// Notes a register as read by the line with the number m, of n lines, where h is the number of the next header. Where its entry of `far` is above
// that of `near`, it is the number of a store of it whose value the region reads once so far.
fn note_read(
    reg: names::Register,
    own: &[usize],
    m: u32,
    h: u32,
    n: usize,
    near: &mut [u32],
    far: &mut [u32],
    notes: &mut [u8],
)
    requires { length far.old ≡ length near.old }
    ensures rows { near.new ≡ with_entry own.now reg.0 m near.old }
    ensures seconds { far.new ≡ with_entry own.now reg.0 (entry_of own.now reg.0 near.old) far.old }
    ensures notes { notes.new ≡ back_by n h (entry_of own.now reg.0 near.old) (entry_of own.now reg.0 far.old) notes.old }
{
    let v = slots::slot(reg.0 as usize, near.len(), own);
    if near.len() <= v {
        return;
    }
    let r = near[v];
    let f = far[v];
    far[v] = r;
    near[v] = m;
    if (h < r) & (r < f) {
        return take_back(f, n, notes);
    }
}

// Notes the register that a text names as read.
fn note_name(
    t: &[u8],
    own: &[usize],
    m: u32,
    h: u32,
    n: usize,
    near: &mut [u32],
    far: &mut [u32],
    notes: &mut [u8],
)
    requires { length far.old ≡ length near.old }
    ensures rows { near.new ≡ mark_name own.now m (reg_of t.now) near.old }
    ensures seconds { far.new ≡ far_name own.now (reg_of t.now) near.old far.old }
    ensures notes { notes.new ≡ back_name own.now n h (reg_of t.now) near.old far.old notes.old }
{
    match names::reg_name(t) {
        Some(q) => note_read(q, own, m, h, n, near, far, notes),
        None => {}
    }
}

// Notes the registers that a text reads: runs that begin with another byte than `r` name none.
fn note_runs(
    s: &[u8],
    own: &[usize],
    m: u32,
    h: u32,
    n: usize,
    near: &mut [u32],
    far: &mut [u32],
    notes: &mut [u8],
)
    requires { length far.old ≡ length near.old }
    ensures { (near.new, (far.new, notes.new)) ≡ read_runs own.now n h m (runs s.now) (near.old, (far.old, notes.old)) }
{
    let mut i = words::reg_start(s, 0);
    // Kept: the place goes from one run that may name a register to the next.
    while i < s.len() {
        let e = words::run_end(s, i);
        note_name(&s[i..e], own, m, h, n, near, far, notes);
        i = words::reg_start(s, e);
    }
}

// Notes a register as stored by the line with the number m; x is its note.
fn note_write(
    reg: names::Register,
    own: &[usize],
    m: u32,
    x: u8,
    far: &mut [u32],
    stores: &mut [u32],
)
    requires { length far.old ≡ length stores.old }
    ensures alone { far.new ≡ alone_in own.now m x reg.0 far.old }
    ensures stores { stores.new ≡ with_entry own.now reg.0 m stores.old }
{
    let v = slots::slot(reg.0 as usize, stores.len(), own);
    if stores.len() <= v {
        return;
    }
    stores[v] = m;
    if x == NOTE_ALONE {
        far[v] = m;
    }
}

// Notes the register that a line stores.
fn note_store(p: parse::Line, own: &[usize], m: u32, x: u8, far: &mut [u32], stores: &mut [u32])
    requires { length far.old ≡ length stores.old }
    ensures alone { far.new ≡ alone_store own.now m x p far.old }
    ensures stores { stores.new ≡ mark_store own.now m p stores.old }
{
    match p {
        parse::Line::Decl => {}
        parse::Line::Store(s) => note_write(s.reg, own, m, x, far, stores),
        parse::Line::Other => {}
    }
}

// Notes the registers that a line with the number m and the note x, read as p, stores and reads.
fn note_line(
    line: &[u8],
    own: &[usize],
    p: parse::Line,
    x: u8,
    m: u32,
    h: u32,
    n: usize,
    near: &mut [u32],
    far: &mut [u32],
    stores: &mut [u32],
    notes: &mut [u8],
)
    requires { (length far.old ≡ length near.old) × (length far.old ≡ length stores.old) }
    ensures rows { (near.new, (far.new, notes.new))
        ≡ read_runs own.now n h m (runs (text_of line.now p)) (near.old, (alone_store own.now m x p far.old, notes.old)) }
    ensures stores { stores.new ≡ mark_store own.now m p stores.old }
{
    note_store(p, own, m, x, far, stores);
    note_runs(parse::text_of(line, p), own, m, h, n, near, far, notes);
}

// Whether the line with k above it, and the one with the number s, are in one block path.
fn same_path(paths: &[usize], k: usize, s: u32) -> bool
    ensures { result ≡ same_path paths.now k s }
{
    let t = s as usize;
    let n = paths.len();
    if n < t {
        return false;
    }
    entry(paths, k) == entry(paths, n - t)
}

// The note of a store of a register with k lines above it and m below it, where h is the number of the next header.
fn store_note(
    reg: names::Register,
    own: &[usize],
    paths: &[usize],
    k: usize,
    m: u32,
    h: u32,
    near: &[u32],
    far: &[u32],
    stores: &[u32],
) -> u8
    requires { (length far.now ≡ length near.now) × (length far.now ≡ length stores.now) }
    ensures { result ≡ store_note own.now reg.0 paths.now k m h near.now far.now stores.now }
{
    let v = slots::slot(reg.0 as usize, near.len(), own);
    if near.len() <= v {
        return NOTE_NONE;
    }
    let r = near[v];
    let s = stores[v];
    if (h < r) & (s < r) {
        if (r == m) & !(s < far[v]) {
            if h < far[v] {
                return NOTE_SENT;
            }
            return NOTE_ALONE;
        }
        return NOTE_READ;
    }
    if (h < r) & (s == r) {
        return NOTE_STORED;
    }
    if h < s {
        if same_path(paths, k, s) {
            return NOTE_DEAD;
        }
        return NOTE_STORED;
    }
    if r == m {
        return NOTE_NONE;
    }
    NOTE_DEAD
}

// The note of a line, read as p.
fn line_note(
    p: parse::Line,
    own: &[usize],
    paths: &[usize],
    k: usize,
    m: u32,
    h: u32,
    near: &[u32],
    far: &[u32],
    stores: &[u32],
) -> u8
    requires { (length far.now ≡ length near.now) × (length far.now ≡ length stores.now) }
    ensures { result ≡ line_note own.now p paths.now k m h near.now far.now stores.now }
{
    match p {
        parse::Line::Decl => NOTE_DECL,
        parse::Line::Store(s) => store_note(s.reg, own, paths, k, m, h, near, far, stores),
        parse::Line::Other => NOTE_OTHER,
    }
}

// How many of n lines stand above one with m below it.
fn row_of(n: usize, m: u32) -> usize
    requires { m + 1 ≤ n }
    ensures { result ≡ n - (m + 1) }
{
    n - (m as usize + 1)
}

// Where the line begins that ends at e, before an LF, and has k above it: the table may say where the line above it ends.
fn start_at(text: &[u8], e: usize, k: usize, ends: &[usize]) -> usize
    requires { ((e < length text.now) × (get_or text.now e 0 ≡ 10))
        × ((k + 1 + length (lines_of (drop (e + 1) text.now)) ≡ length (lines_of text.now)) × (EndsOf text.now ends.now)) }
    ensures { StartOf text.now e result }
{
    if k == 0 {
        return 0;
    }
    let m = entry(ends, k - 1);
    if m == 0 {
        return lines::line_start(text, e);
    }
    m + 1
}

// The number of the next header from a line with the number m on, where h is that below it.
fn head_at(line: &[u8], m: u32, h: u32) -> u32
    ensures { result ≡ cond (is_header line.now) m h }
{
    if place::is_header(line) {
        return m;
    }
    h
}

// Notes what lines are, the registers that they use, and what becomes of what they store, from the last to the first; the tables hold zeros, and
// `paths` has the block paths of the lines, and `ends` the places where they end.
fn note_up(
    text: &[u8],
    own: &[usize],
    paths: &[usize],
    near: &mut [u32],
    far: &mut [u32],
    stores: &mut [u32],
    notes: &mut [u8],
    ends: &[usize],
)
    requires { (length paths.now ≡ length (lines_of text.now))
        × (((length far.old ≡ length near.old) × (length far.old ≡ length stores.old))
        × ((AtMost 0 near.old) × ((AtMost 0 far.old) × ((AtMost 0 stores.old) × ((AtMost 0 notes.old) × (EndsOf text.now ends.now)))))) }
    ensures once { OneOf (lines_of text.now) notes.new }
    ensures notes { NotesOf (lines_of text.now) paths.now notes.new }
{
    if !lines::ends_lf(text) {
        return;
    }
    let n = paths.len();
    if LAST_ROW < n {
        return;
    }
    let mut i = text.len();
    let mut m = 0;
    let mut h = 0;
    // Kept: it goes up by lines, and where each begins is read from a table.
    while 0 < i {
        let e = i - 1;
        let k = row_of(n, m);
        let a = start_at(text, e, k, ends);
        let line = &text[a..e];
        let p = parse::parse(line);
        let x = line_note(p, own, paths, k, m, h, near, far, stores);
        put_note(k, x, notes);
        m += 1;
        note_line(line, own, p, x, m, h, n, near, far, stores, notes);
        h = head_at(line, m, h);
        i = a;
    }
}

// The same with tables of any content: those over registers are zeros afterwards.
pub fn note_lines(
    text: &[u8],
    own: &[usize],
    paths: &[usize],
    near: &mut [u32],
    far: &mut [u32],
    stores: &mut [u32],
    notes: &mut [u8],
    ends: &[usize],
)
    requires { (length paths.now ≡ length (lines_of text.now))
        × (((length far.old ≡ length near.old) × (length far.old ≡ length stores.old)) × (EndsOf text.now ends.now)) }
    ensures once { OneOf (lines_of text.now) notes.new }
    ensures notes { NotesOf (lines_of text.now) paths.now notes.new }
    ensures memory { (near.new ≡ replicate (length near.old) 0)
        × ((far.new ≡ replicate (length far.old) 0) × (stores.new ≡ replicate (length stores.old) 0)) }
{
    lines::wipe_numbers(near);
    lines::wipe_numbers(far);
    lines::wipe_numbers(stores);
    lines::wipe(notes, notes.len());
    note_up(text, own, paths, near, far, stores, notes, ends);
    lines::wipe_numbers(near);
    lines::wipe_numbers(far);
    lines::wipe_numbers(stores);
}

// Where the line ends that begins at j and has k above it: by the table, where it says so.
pub fn end_at(text: &[u8], j: usize, k: usize, ends: &[usize]) -> usize
    requires { EndIs text.now j (get_or ends.now k 0) }
    ensures { result ≡ j + up_to 10 (drop j text.now) }
{
    let e = entry(ends, k);
    if e == 0 {
        return lines::find_byte(text, j, 10);
    }
    e
}
