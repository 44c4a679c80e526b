// Tables of flags over the keys of temps, and the table of the owners of high keys.
ghost use Rattle.std.specs.Prelude.{◌≡◌, length, replicate};
ghost use Rattle.parse.specs.Parse.{is_let};
ghost use Rattle.lines.specs.Lf.{parts_of, lines_of};
ghost use Rattle.text.specs.Trim.{trim_of};
ghost use Rattle.words.specs.Runs.{runs};
ghost use Rattle.std.specs.declared.option.Option.TheVariants.{Some};
ghost use Rattle.slots.specs.Inner.Slots.{with_entry};
ghost use Rattle.temps.specs.Inner.Table.{key_by, key_of, flag_at, flag_pieces, flag_decl, flag_decls, skip_after, flag_run, flag_runs, flag_reads, flag_lines, any_flag, reads_if, flag_by};

use crate::is_binding;

// Keys from here on are those of temps with zeros in front: less than `MANY` of them, and a number below `GREAT`.
const LED: u64 = 9223372036854775808;

const MANY: usize = 63;

const GREAT: u64 = 144115188075855872;

// The keys for one more zero begin so much higher: more than there are numbers, and not at the same places of a table of owners.
const STRIDE: u64 = GREAT + 633;

// The key of the number n behind z zeros.
fn key_by(z: usize, n: u64) -> Option<u64>
    ensures { result ≡ key_by z (Some n) }
{
    if z == 0 {
        if n < LED {
            return Some(n);
        }
        return None;
    }
    if MANY <= z {
        return None;
    }
    if GREAT <= n {
        return None;
    }
    Some(LED + (STRIDE * z as u64 + n))
}

// The key of a temp: of `t7` it is 7, and of `t07` another.
pub fn key_of(s: &[u8]) -> Option<u64>
    ensures { result ≡ key_of s.now }
{
    if !lines::starts_with(s, b"t") {
        return None;
    }
    let d = lines::cut(s, 1, s.len());
    match names::read_number(d) {
        Some(n) => key_by(names::skip_zeros(d), n),
        None => None,
    }
}

// Makes every entry of the tables 0.
pub fn wipe(own: &mut [usize], declared: &mut [u8], read: &mut [u8])
    ensures { (own.new ≡ replicate (length own.old) 0)
        × ((declared.new ≡ replicate (length declared.old) 0) × (read.new ≡ replicate (length read.old) 0)) }
{
    slots::wipe(own);
    lines::wipe(declared, declared.len());
    lines::wipe(read, read.len());
}

// Whether a trimmed line begins with `let `, and ends with `;`.
fn is_let(t: &[u8]) -> bool
    ensures { result ≡ is_let t.now }
{
    let n = t.len();
    if n <= 4 {
        return false;
    }
    if !lines::starts_with(t, b"let ") {
        return false;
    }
    t[n - 1] == b';'
}

// Gives a temp that a declaration names a place among the owners, where its key is not below `low`.
fn claim_temp(t: &[u8], low: usize, own: &mut [usize]) {
    match key_of(t) {
        Some(n) => {
            let v = n as usize;
            if low <= v {
                slots::claim(v, own);
            }
        }
        None => {}
    }
}

// The same of the pieces between the commas.
fn claim_pieces(s: &[u8], low: usize, own: &mut [usize]) {
    for piece in lines::pieces(s, b',') {
        claim_temp(text::trim(piece), low, own);
    }
}

// The same of the names that a trimmed line declares.
fn claim_decl(t: &[u8], low: usize, own: &mut [usize]) {
    if !is_let(t) {
        return;
    }
    claim_pieces(lines::cut(t, 4, t.len() - 1), low, own);
}

// The same of the lines of a text.
fn claim_lines(text: &[u8], low: usize, own: &mut [usize]) {
    for line in lines::each::each(text) {
        claim_decl(text::trim(line.bytes), low, own);
    }
}

// How far the third of three bytes stands above `0`, where the first two are `t0`: a digit less than ten, and no other byte.
fn after_zero(a: u8, b: u8, c: u8) -> u8 {
    if (a == b't') & (b == b'0') {
        return std::num::wrapping_sub_u8(c, b'0');
    }
    255
}

// Whether a temp with a zero in front may stand somewhere. It goes on to the end, so that the compiler compares many bytes at a time.
fn may_lead(s: &[u8]) -> bool {
    if s.len() < 3 {
        return false;
    }
    let end = s.len() - 2;
    let mut least = 255;
    for i in 0..end {
        let x = after_zero(s[i], s[i + 1], s[i + 2]);
        if x < least {
            least = x;
        }
    }
    least < 10
}

// The same for tables of n flags and more: a key that is low there needs none. Such a key has four digits, or a zero in front.
pub fn claim_decls(text: &[u8], n: usize, own: &mut [usize]) {
    if own.len() == 0 {
        return;
    }
    if !slots::gather::has_long(text) {
        if !may_lead(text) {
            return;
        }
    }
    claim_lines(text, slots::low_of(n, own.len()), own);
}

// Sets the flag of a key, where it has a place.
fn flag_at(n: u64, own: &[usize], table: &mut [u8])
    ensures { table.new ≡ with_entry own.now n 1 table.old }
{
    let v = slots::slot(n as usize, table.len(), own);
    if table.len() <= v {
        return;
    }
    table[v] = 1;
}

// Sets the flag of a temp.
fn flag_temp(t: &[u8], own: &[usize], table: &mut [u8])
    ensures { table.new ≡ flag_at own.now (key_of t.now) table.old }
{
    match key_of(t) {
        Some(n) => flag_at(n, own, table),
        None => {}
    }
}

// Sets the flags of the pieces between the commas.
fn flag_pieces(s: &[u8], own: &[usize], table: &mut [u8])
    ensures { table.new ≡ flag_pieces own.now (parts_of 44 s.now) table.old }
{
    for piece in lines::pieces(s, b',') {
        flag_temp(text::trim(piece), own, table);
    }
}

// Sets the flags of the names that a trimmed line declares.
fn flag_decl(t: &[u8], own: &[usize], table: &mut [u8])
    ensures { table.new ≡ flag_decl own.now t.now table.old }
{
    if !is_let(t) {
        return;
    }
    flag_pieces(lines::cut(t, 4, t.len() - 1), own, table);
}

// The same of a line: most do not begin with `l`.
fn flag_line(line: &[u8], own: &[usize], table: &mut [u8])
    ensures { table.new ≡ flag_decl own.now (trim_of line.now) table.old }
{
    let a = text::trim_from(line);
    if lines::byte_at(line, a) != b'l' {
        return;
    }
    flag_decl(text::trim(line), own, table);
}

// Sets the flags of the names that some line of a text declares.
pub fn flag_decls(text: &[u8], own: &[usize], table: &mut [u8])
    ensures { table.new ≡ flag_decls own.now (lines_of text.now) table.old }
{
    for line in lines::each::each(text) {
        flag_line(line.bytes, own, table);
    }
}

// Sets the flag of a run, unless it is the left side that is still to be passed over; returns whether that still is.
fn flag_run(r: &[u8], own: &[usize], left: &[u8], skip: bool, table: &mut [u8]) -> bool
    ensures answer { result ≡ skip_after left.now r.now skip }
    ensures memory { table.new ≡ flag_run own.now left.now r.now skip table.old }
{
    if r.len() == 0 {
        return skip;
    }
    if !skip {
        flag_temp(r, own, table);
        return false;
    }
    if lines::same(r, left) {
        return false;
    }
    flag_temp(r, own, table);
    true
}

// Sets the flags of the runs of a text, but for the first that is `left`, where `k` says so.
fn flag_runs(s: &[u8], own: &[usize], left: &[u8], k: bool, table: &mut [u8])
    ensures { table.new ≡ flag_runs own.now left.now (runs s.now) k table.old }
{
    let mut skip = k;
    let mut a = 0;
    for i in 0..s.len() {
        if text::is_name_byte(s[i]) {
            continue;
        }
        skip = flag_run(&s[a..i], own, left, skip, table);
        a = i + 1;
    }
    flag_run(&s[a..], own, left, skip, table);
}

// Sets the flags of the temps that a trimmed line reads.
fn flag_reads(t: &[u8], own: &[usize], table: &mut [u8])
    ensures { table.new ≡ flag_reads own.now t.now table.old }
{
    if is_binding(t) {
        return;
    }
    match reading::assign_of(t) {
        Some(s) => flag_runs(t, own, reading::left_of(t, s), true, table),
        None => flag_runs(t, own, t, false, table),
    }
}

// Sets the flags of the temps that some line of a text reads.
fn flag_lines(text: &[u8], own: &[usize], table: &mut [u8])
    ensures { table.new ≡ flag_lines own.now (lines_of text.now) table.old }
{
    for line in lines::each::each(text) {
        flag_reads(text::trim(line.bytes), own, table);
    }
}

// Whether some flag of a table is set.
fn any_flag(table: &[u8]) -> bool
    ensures { result ≡ any_flag table.now }
{
    for &x in table {
        if x == 1 {
            return true;
        }
    }
    false
}

// Sets the flags of the temps that some line of a text reads, where it declares one.
pub fn flag_used(text: &[u8], own: &[usize], declared: &[u8], table: &mut [u8])
    ensures { table.new ≡ reads_if own.now declared.now (lines_of text.now) table.old }
{
    if !any_flag(declared) {
        return;
    }
    flag_lines(text, own, table);
}

// What a table says of a key.
pub fn flag_of(key: Option<u64>, own: &[usize], table: &[u8]) -> Option<bool>
    ensures { result ≡ flag_by own.now key table.now }
{
    match key {
        Some(n) => {
            let v = slots::slot(n as usize, table.len(), own);
            if v < table.len() {
                return Some(table[v] == 1);
            }
            None
        }
        None => None,
    }
}
