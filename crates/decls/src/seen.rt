// A table over registers: a mark stands at each one that the lines of a region read or store.
ghost use Rattle.std.specs.Prelude.{◌≡◌, true, cond, ◌<◌, ◌+◌, ◌-◌, ◌^◌, ltb, length, get_or, drop};
ghost use Rattle.lines.specs.Lf.{part, up_to, lines_of};
ghost use Rattle.text.specs.Class.{is_name};
ghost use Rattle.text.specs.Trim.{trim_of};
ghost use Rattle.names.specs.Names.{reg_of};
ghost use Rattle.parse.specs.Parse.{is_decl};
ghost use Rattle.words.specs.Runs.{runs};
ghost use Rattle.place.specs.Region.{region};
ghost use Rattle.place.specs.Inner.Region.{region_len};
ghost use Rattle.slots.specs.Inner.Slots.{with_entry};
ghost use Rattle.decls.specs.Inner.Seen.{name_before, run_at, mark_name, mark_runs, mark_line, mark_lines, asked_in, Quiet};

// Puts a mark at a register, where the table has a place for it.
fn mark_reg(reg: names::Register, own: &[usize], m: usize, seen: &mut [usize])
    ensures { seen.new ≡ with_entry own.now reg.0 m seen.old }
{
    let v = slots::slot(reg.0 as usize, seen.len(), own);
    if seen.len() <= v {
        return;
    }
    seen[v] = m;
}

// Marks the register that a text names.
fn mark_name(t: &[u8], own: &[usize], m: usize, seen: &mut [usize])
    ensures { seen.new ≡ mark_name own.now m (reg_of t.now) seen.old }
{
    match names::reg_name(t) {
        Some(q) => mark_reg(q, own, m, seen),
        None => {}
    }
}

// Marks the register that the run of name bytes at a place names; its first two bytes are such.
fn mark_run(s: &[u8], own: &[usize], i: usize, m: usize, seen: &mut [usize])
    requires { (is_name (get_or s.now i 0) ≡ true) × (is_name (get_or s.now (i + 1) 0) ≡ true) }
    ensures { seen.new ≡ mark_name own.now m (reg_of (run_at i s.now)) seen.old }
{
    let rest = i + 2;
    let j = words::run_end(s, rest);
    mark_name(&s[i..j], own, m, seen);
}

// Whether a name byte stands before a place.
fn name_before(s: &[u8], i: usize) -> bool
    ensures { result ≡ name_before i s.now }
{
    if i == 0 {
        return false;
    }
    text::is_name_byte(lines::byte_at(s, i - 1))
}

// The same, where no name byte stands before the place: it begins with `r` and a digit, where it names one. One of one digit is told at once.
fn mark_at(s: &[u8], own: &[usize], i: usize, m: usize, seen: &mut [usize])
    ensures { seen.new ≡ cond (name_before i s.now) seen.old (mark_name own.now m (reg_of (run_at i s.now)) seen.old) }
{
    if lines::byte_at(s, i) != b'r' {
        return;
    }
    let d = lines::byte_at(s, i + 1);
    if (d < b'0') | (b'9' < d) {
        return;
    }
    if name_before(s, i) {
        return;
    }
    if !text::is_name_byte(lines::byte_at(s, i + 2)) {
        mark_reg(names::Register((d - b'0') as u64), own, m, seen);
        return;
    }
    mark_run(s, own, i, m, seen);
}

// Marks the registers that a text reads: the runs that begin with `r` are looked at.
fn mark_runs(s: &[u8], own: &[usize], m: usize, seen: &mut [usize])
    ensures { seen.new ≡ mark_runs own.now m (runs s.now) seen.old }
{
    let mut i = 0;
    // Kept: the place goes from one `r` to the next.
    while i < s.len() {
        let j = lines::find_byte(s, i, b'r');
        mark_at(s, own, j, m, seen);
        i = lines::after(s, j);
    }
}

// Marks the registers that a line reads or stores: those that its runs name, where it is no declaration. Whether it is one is returned.
fn mark_line(line: &[u8], own: &[usize], m: usize, seen: &mut [usize]) -> bool
    ensures answer { result ≡ is_decl (trim_of line.now) }
    ensures memory { seen.new ≡ mark_line own.now m line.now seen.old }
{
    if parse::declares(line) {
        return true;
    }
    mark_runs(line, own, m, seen);
    false
}

// Where a region ends, and a place in it from which on no line is a declaration.
#[derive(Clone, Copy)]
struct Reach {
    end: usize,
    quiet: usize,
}

// Whether the line at `from` is a declaration: that at `i` is one.
fn declares_at(line: &[u8], from: usize, i: usize) -> bool
    requires { from ≡ i → is_decl (trim_of line.now) ≡ true }
    ensures { result ≡ is_decl (trim_of line.now) }
{
    if from == i {
        return true;
    }
    parse::declares(line)
}

// Marks the registers that some line of the region uses that begins at `a`, and returns where it ends. The line at `i` is a declaration, where one is there.
// The lines from `q` on are no declarations, and are marked at once where one follows or the region ends.
fn mark_region(
    text: &[u8],
    own: &[usize],
    a: usize,
    m: usize,
    i: usize,
    seen: &mut [usize],
) -> Reach
    requires { i < length text.now → is_decl (trim_of (part i (i + up_to 10 (drop i text.now)) text.now)) ≡ true }
    ensures answer { (result.end ≡ a + region_len (drop a text.now)) × (Quiet text.now result.quiet result.end) }
    ensures memory { seen.new ≡ mark_lines own.now m (region (lines_of (drop a text.now))) seen.old }
{
    if a >= text.len() {
        return Reach { end: a, quiet: a };
    }
    let e = lines::find_byte(text, a, 10);
    mark_line(&text[a..e], own, m, seen);
    let below = lines::after(text, e);
    let mut q = below;
    for line in lines::each::from(text, below) {
        if place::is_header(line.bytes) {
            mark_runs(&text[q..line.from], own, m, seen);
            return Reach {
                end: line.from,
                quiet: q,
            };
        }
        if !declares_at(line.bytes, line.from, i) {
            continue;
        }
        mark_runs(&text[q..line.from], own, m, seen);
        q = lines::after(text, line.to);
    }
    mark_runs(&text[q..], own, m, seen);
    Reach {
        end: text.len(),
        quiet: q,
    }
}

// The last mark, where the region ends that has it, and where the next line stands that may be a header or a declaration.
#[derive(Clone, Copy)]
pub struct Marked {
    pub mark: usize,
    pub end: usize,
    pub next: usize,
}

// Marks the region that begins at `a`, where that is not done yet: its mark is one more than `a`. `m` is the last mark, and `b` where that region ends. A declaration stands at `i`, where a line does, and the next line at `n`.
pub fn mark_once(
    text: &[u8],
    own: &[usize],
    a: usize,
    b: usize,
    m: usize,
    i: usize,
    n: usize,
    seen: &mut [usize],
) -> Marked
    requires { (a < 2 ^ 64 - 1) × (i < length text.now → is_decl (trim_of (part i (i + up_to 10 (drop i text.now)) text.now)) ≡ true) }
    ensures answer { (result.mark ≡ cond (ltb a m) m (a + 1))
        × ((result.end ≡ cond (ltb a m) b (a + region_len (drop a text.now))) × (Quiet text.now n result.next)) }
    ensures memory { seen.new ≡ cond (ltb a m) seen.old (mark_lines own.now (a + 1) (region (lines_of (drop a text.now))) seen.old) }
{
    if a < m {
        return Marked {
            mark: m,
            end: b,
            next: n,
        };
    }
    let z = mark_region(text, own, a, a + 1, i, seen);
    if n == z.quiet {
        return Marked {
            mark: a + 1,
            end: z.end,
            next: z.end,
        };
    }
    Marked {
        mark: a + 1,
        end: z.end,
        next: n,
    }
}

// Whether some line of a region reads or stores a register, as the table says: it has the mark, where it has a place.
pub fn used_in(region: &[u8], own: &[usize], m: usize, seen: &[usize], reg: names::Register) -> bool
    ensures { result ≡ asked_in own.now m seen.now (lines_of region.now) reg.0 }
{
    let v = slots::slot(reg.0 as usize, seen.len(), own);
    if v < seen.len() {
        return seen[v] == m;
    }
    reading::uses(region, reg)
}
