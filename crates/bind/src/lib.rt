// bind_declarators: a register that is declared and stored once leaves its declaration, and its store becomes one.
#![tactic(auto)]

mod index;

ghost use Rattle.std.specs.Prelude.{◌≡◌, true, false, cond, [], ◌∷◌, ◌++◌, suc, min, ◌≤◌, ◌<◌, ◌+◌, ◌-◌, ◌^◌, eqb, length, get_or, take, drop, replicate};
ghost use Rattle.lines.specs.Lf.{part, lines_of, parts_of, unlines};
ghost use Rattle.lines.specs.Acts.{apply};
ghost use Rattle.lines.specs.Inner.Out.{Wrote};
ghost use Rattle.text.specs.Trim.{trim_of};
ghost use Rattle.names.specs.Names.{reg_of, reg_is};
ghost use Rattle.origins.specs.Inner.Codes.{far_move};
ghost use Rattle.lexical.specs.Joined.{rests_in};
ghost use Rattle.place.specs.Blocks.{cleaned};
ghost use Rattle.place.specs.Inner.Blocks.{block_ids};
ghost use Rattle.place.specs.Starts.{starts_go};
ghost use Rattle.place.specs.Inner.Parents.{ids_parents};
ghost use Rattle.place.specs.Inner.Fill.{Filled, flags_of};
ghost use Rattle.place.specs.Inner.Ends.{end_marks};
ghost use Rattle.slots.specs.Inner.Slots.{slot_of, entry_of};
ghost use Rattle.decls.specs.Inner.Seen.{AtMost};
ghost use Rattle.decls.specs.Inner.Print.{kept, decl_text};
ghost use Rattle.reading.specs.Reading.{joined_at, reading_of};
ghost use Rattle.reading.specs.Uses.{line_stores};
ghost use Rattle.bind.specs.Bind.{piece_count, decl_count, store_count, promoted, bind_go, bind_declarators};
ghost use Rattle.bind.specs.Inner.Index.{site_seen, site_first, Ready, ReadyFor};
ghost use Rattle.bind.specs.Inner.Steps.{line_of, below_of, use_row, stores_at, bound_at, mark_row, passes, left, any_pass, noted, noted_all, other_text, site_text, site_marks, site_notes, notes_go, bind_notes, note_moves, tabled, Reach};
ghost use Rattle.bind.specs.Inner.Sites.{stop_by, first_site, site_of, WalkedSites};

// A line of the text and its region: the region begins at `top` and ends at `end`, the line goes from `from` to `to` and the one below
// begins at `next`, there are `row` lines above it, and it stands in the block `block`.
#[derive(Clone, Copy)]
struct Site {
    top: usize,
    from: usize,
    to: usize,
    next: usize,
    end: usize,
    row: usize,
    block: usize,
}

// The mark of a line that is gone.
const AWAY: u8 = 2;

// One more, where `b` says so, but no more than 2.
fn one_more(n: usize, b: bool) -> usize
    ensures { result ≡ min (n + cond b 1 0) 2 }
{
    if n >= 2 {
        return 2;
    }
    if b {
        return n + 1;
    }
    n
}

// How many of the pieces between the commas name a register, and `n` more; 2 stands for all above.
fn count_pieces(body: &[u8], reg: names::Register, n: usize) -> usize
    requires { n ≤ 2 }
    ensures { result ≡ min (n + piece_count reg.0 (parts_of 44 body.now)) 2 }
{
    let mut m = n;
    for piece in lines::pieces(body, b',') {
        let s = names::names_reg(text::trim(piece), reg);
        m = one_more(m, s);
    }
    m
}

// How often a line declares a register, and `n` more; 2 stands for all above.
fn line_decls(line: &[u8], reg: names::Register, n: usize) -> usize
    requires { n ≤ 2 }
    ensures { result ≡ min (n + decl_count reg.0 (line.now ∷ [])) 2 }
{
    let t = text::trim(line);
    if parse::is_decl(t) {
        return count_pieces(&t[4..t.len() - 1], reg, n);
    }
    n
}

// The same of the lines of a text.
fn count_decls(text: &[u8], reg: names::Register, n: usize) -> usize
    requires { n ≤ 2 }
    ensures { result ≡ min (n + decl_count reg.0 (lines_of text.now)) 2 }
{
    let mut m = n;
    for line in lines::each::each(text) {
        m = line_decls(line.bytes, reg, m);
    }
    m
}

// Whether a line stores a register.
fn stores_reg(line: &[u8], reg: names::Register) -> bool
    ensures { result ≡ line_stores reg.0 line.now }
{
    match parse::parse(line) {
        parse::Line::Decl => false,
        parse::Line::Store(s) => s.reg.0 == reg.0,
        parse::Line::Other => false,
    }
}

// How often the lines of a text store a register, and `n` more; 2 stands for all above.
fn count_stores(text: &[u8], reg: names::Register, n: usize) -> usize
    requires { n ≤ 2 }
    ensures { result ≡ min (n + store_count reg.0 (lines_of text.now)) 2 }
{
    let mut m = n;
    for line in lines::each::each(text) {
        let s = stores_reg(line.bytes, reg);
        m = one_more(m, s);
    }
    m
}

// The first line that uses a register: how many lines stand above it, and where it begins.
#[derive(Clone, Copy)]
struct First {
    row: usize,
    place: usize,
}

// The first line of a text that reads or stores a register, or its end.
fn first_use(text: &[u8], reg: names::Register) -> First
    ensures { (result.row ≡ use_row reg.0 (lines_of text.now))
        × (lines_of (drop result.place text.now) ≡ drop result.row (lines_of text.now)) }
{
    let mut k = 0;
    for line in lines::each::each(text) {
        if reading::line_uses(line.bytes, reg) {
            return First {
                row: k,
                place: line.from,
            };
        }
        k += 1;
    }
    First {
        row: k,
        place: text.len(),
    }
}

// Whether the lines above, a line, and those below declare a register once in all.
fn declared_once(above: &[u8], line: &[u8], below: &[u8], reg: names::Register) -> bool
    ensures { result ≡ eqb (decl_count reg.0 (lines_of above.now) + (decl_count reg.0 (line.now ∷ []) + decl_count reg.0 (lines_of below.now))) 1 }
{
    let a = count_decls(above, reg, 0);
    let b = line_decls(line, reg, a);
    let c = count_decls(below, reg, b);
    c == 1
}

// Whether the lines above and those below store a register once in all.
fn stored_once(above: &[u8], below: &[u8], reg: names::Register) -> bool
    ensures { result ≡ eqb (store_count reg.0 (lines_of above.now) + store_count reg.0 (lines_of below.now)) 1 }
{
    let a = count_stores(above, reg, 0);
    let b = count_stores(below, reg, a);
    b == 1
}

// Whether the first use of a register below line `row` is a store of it, in that line's block, that starts a statement.
fn store_first(
    below: &[u8],
    blocks: &[usize],
    starts: &[u8],
    row: usize,
    reg: names::Register,
) -> bool
    requires { (row + suc (length (lines_of below.now)) ≤ length blocks.now) × (row + suc (length (lines_of below.now)) ≤ length starts.now) }
    ensures { result ≡ stores_at reg.0 (lines_of below.now) blocks.now starts.now row (use_row reg.0 (lines_of below.now)) }
{
    let f = first_use(below, reg);
    if f.place >= below.len() {
        return false;
    }
    let e = lines::find_byte(below, f.place, 10);
    if !stores_reg(lines::cut(below, f.place, e), reg) {
        return false;
    }
    let k = row + (f.row + 1);
    if blocks[k] != blocks[row] {
        return false;
    }
    starts[k] == 1
}

// Whether a register is bound that the line of a site declares: one declaration in the region and one store, no use above, and the
// first use below is that store.
fn bound(text: &[u8], s: Site, blocks: &[usize], starts: &[u8], reg: names::Register) -> bool
    requires { Reach text.now s blocks.now starts.now }
    ensures { result ≡ bound_at text.now s blocks.now starts.now reg.0 }
{
    let above = lines::cut(text, s.top, s.from);
    let below = lines::cut(text, s.next, s.end);
    if !declared_once(above, lines::cut(text, s.from, s.to), below, reg) {
        return false;
    }
    if !stored_once(above, below, reg) {
        return false;
    }
    if reading::uses(above, reg) {
        return false;
    }
    store_first(below, blocks, starts, s.row, reg)
}

// Whether a register is bound that the line of a site declares: the index says so, where it reaches to the register.
fn told(
    text: &[u8],
    own: &[usize],
    s: Site,
    blocks: &[usize],
    starts: &[u8],
    seen: &[usize],
    first: &[usize],
    reg: names::Register,
) -> bool
    requires { Ready own.now text.now s blocks.now starts.now seen.now first.now }
    ensures { result ≡ bound_at text.now s blocks.now starts.now reg.0 }
{
    let v = slots::slot(reg.0 as usize, first.len(), own);
    if v < first.len() {
        return index::ask(blocks, starts, s.block, s.top, s.row, seen[v], first[v]);
    }
    bound(text, s, blocks, starts, reg)
}

// The row of the store that becomes the declaration of a register.
fn store_row(text: &[u8], own: &[usize], s: Site, first: &[usize], reg: names::Register) -> usize
    requires { (slot_of (length first.now) own.now reg.0 < length first.now → entry_of own.now reg.0 first.now ≡ suc (mark_row text.now s reg.0)) × (mark_row text.now s reg.0 < 2 ^ 64) }
    ensures { result ≡ mark_row text.now s reg.0 }
{
    let v = slots::slot(reg.0 as usize, first.len(), own);
    if v < first.len() {
        return first[v] - 1;
    }
    let f = first_use(lines::cut(text, s.next, s.end), reg);
    s.row + (f.row + 1)
}

// Whether a text names a register that is not bound.
fn is_left(
    text: &[u8],
    own: &[usize],
    s: Site,
    blocks: &[usize],
    starts: &[u8],
    seen: &[usize],
    first: &[usize],
    t: &[u8],
) -> bool
    requires { Ready own.now text.now s blocks.now starts.now seen.now first.now }
    ensures { result ≡ left (bound_at text.now s blocks.now starts.now) t.now }
{
    match names::reg_name(t) {
        Some(q) => !told(text, own, s, blocks, starts, seen, first, q),
        None => false,
    }
}

// Whether a name is bound; where it is, marks the line of the store that becomes its declaration.
fn mark_name(
    text: &[u8],
    own: &[usize],
    s: Site,
    blocks: &[usize],
    starts: &[u8],
    seen: &[usize],
    first: &[usize],
    t: &[u8],
    marks: &mut [u8],
) -> bool
    requires { (Ready own.now text.now s blocks.now starts.now seen.now first.now) × (s.row + suc (length (below_of text.now s)) ≤ length marks.old) }
    ensures answer { result ≡ passes (bound_at text.now s blocks.now starts.now) (reg_of t.now) }
    ensures memory { marks.new ≡ noted (bound_at text.now s blocks.now starts.now) (mark_row text.now s) (reg_of t.now) marks.old }
{
    match names::reg_name(t) {
        Some(q) => {
            if !told(text, own, s, blocks, starts, seen, first, q) {
                return false;
            }
            let k = store_row(text, own, s, first, q);
            marks[k] = 1;
            true
        }
        None => false,
    }
}

// Whether some piece of a declaration is bound; marks the lines of the stores for all that are.
fn mark_names(
    body: &[u8],
    text: &[u8],
    own: &[usize],
    s: Site,
    blocks: &[usize],
    starts: &[u8],
    seen: &[usize],
    first: &[usize],
    marks: &mut [u8],
) -> bool
    requires { (Ready own.now text.now s blocks.now starts.now seen.now first.now) × (s.row + suc (length (below_of text.now s)) ≤ length marks.old) }
    ensures answer { result ≡ any_pass (bound_at text.now s blocks.now starts.now) (parts_of 44 body.now) }
    ensures memory { marks.new ≡ noted_all (bound_at text.now s blocks.now starts.now) (mark_row text.now s) (parts_of 44 body.now) marks.old }
{
    let mut any = false;
    for piece in lines::pieces(body, b',') {
        let name = text::trim(piece);
        let b = mark_name(text, own, s, blocks, starts, seen, first, name, marks);
        any = any | b;
    }
    any
}

// Writes a declaration without the names that are bound, with its LF; nothing where none is left.
fn put_decl(
    body: &[u8],
    indent: &[u8],
    text: &[u8],
    own: &[usize],
    s: Site,
    blocks: &[usize],
    starts: &[u8],
    seen: &[usize],
    first: &[usize],
    out: &mut [u8],
    o: usize,
) -> usize
    requires { (Ready own.now text.now s blocks.now starts.now seen.now first.now)
        × (o + length (decl_text indent.now (kept (left (bound_at text.now s blocks.now starts.now)) 1 (parts_of 44 body.now)) false) ≤ length out.old) }
    ensures { Wrote out.old o (decl_text indent.now (kept (left (bound_at text.now s blocks.now starts.now)) 1 (parts_of 44 body.now)) false) out.new result }
{
    let mut p = o;
    for piece in lines::pieces(body, b',') {
        let t = text::trim(piece);
        let l = is_left(text, own, s, blocks, starts, seen, first, t);
        p = decls::print::put_part(indent, o < p, l, t, 1, out, p);
    }
    decls::print::put_end(o < p, out, p)
}

// Writes a store as a declaration: its indent, `let `, the rest of it, and an LF.
fn put_promoted(line: &[u8], out: &mut [u8], o: usize) -> usize
    requires { o + length (promoted line.now ++ 10 ∷ []) ≤ length out.old }
    ensures { Wrote out.old o (promoted line.now ++ 10 ∷ []) out.new result }
{
    let a = text::trim_from(line);
    let p = lines::put(out, o, lines::cut(line, 0, a));
    let q = lines::put(out, p, b"let ");
    let r = lines::put(out, q, lines::cut(line, a, line.len()));
    lines::put_byte(out, r, 10)
}

// Writes a line that gives up no name: as a declaration where its mark `m` is 1, and else as it is.
fn put_other(line: &[u8], m: u8, out: &mut [u8], o: usize) -> usize
    requires { o + length (other_text line.now m) ≤ length out.old }
    ensures { Wrote out.old o (other_text line.now m) out.new result }
{
    if m == 1 {
        return put_promoted(line, out, o);
    }
    let p = lines::put(out, o, line);
    lines::put_byte(out, p, 10)
}

// Writes what the line of a site becomes, and marks the stores that take up the names which it gives up, where it may be a declaration.
fn bind_decl(
    text: &[u8],
    own: &[usize],
    s: Site,
    blocks: &[usize],
    starts: &[u8],
    seen: &[usize],
    first: &[usize],
    marks: &mut [u8],
    out: &mut [u8],
    o: usize,
) -> usize
    requires { (ReadyFor (trim_of (line_of text.now s)) own.now text.now s blocks.now starts.now seen.now first.now)
        × ((s.row + suc (length (below_of text.now s)) ≤ length marks.old)
        × (o + length (site_text (bound_at text.now s blocks.now starts.now) (line_of text.now s) (get_or marks.old s.row 0)) ≤ length out.old)) }
    ensures answer { Wrote out.old o (site_text (bound_at text.now s blocks.now starts.now) (line_of text.now s) (get_or marks.old s.row 0)) out.new result }
    ensures memory { marks.new ≡ site_marks (bound_at text.now s blocks.now starts.now) (mark_row text.now s) (line_of text.now s) marks.old }
{
    let line = lines::cut(text, s.from, s.to);
    let t = text::trim(line);
    let row = s.row;
    if !parse::is_decl(t) {
        return put_other(line, marks[row], out, o);
    }
    let body = lines::cut(t, 4, t.len() - 1);
    if !mark_names(body, text, own, s, blocks, starts, seen, first, marks) {
        return put_other(line, marks[row], out, o);
    }
    let indent = lines::cut(line, 0, text::trim_from(line));
    put_decl(
        body, indent, text, own, s, blocks, starts, seen, first, out, o,
    )
}

// The same of any line: one that does not begin with `l` gives up no name.
fn bind_site(
    text: &[u8],
    own: &[usize],
    s: Site,
    blocks: &[usize],
    starts: &[u8],
    seen: &[usize],
    first: &[usize],
    marks: &mut [u8],
    out: &mut [u8],
    o: usize,
) -> usize
    requires { (ReadyFor (trim_of (line_of text.now s)) own.now text.now s blocks.now starts.now seen.now first.now)
        × ((s.row + suc (length (below_of text.now s)) ≤ length marks.old)
        × (o + length (site_text (bound_at text.now s blocks.now starts.now) (line_of text.now s) (get_or marks.old s.row 0)) ≤ length out.old)) }
    ensures answer { Wrote out.old o (site_text (bound_at text.now s blocks.now starts.now) (line_of text.now s) (get_or marks.old s.row 0)) out.new result }
    ensures memory { marks.new ≡ site_marks (bound_at text.now s blocks.now starts.now) (mark_row text.now s) (line_of text.now s) marks.old }
{
    let line = lines::cut(text, s.from, s.to);
    if lines::byte_at(line, text::trim_from(line)) != b'l' {
        let row = s.row;
        return put_other(line, marks[row], out, o);
    }
    bind_decl(text, own, s, blocks, starts, seen, first, marks, out, o)
}

// The same, and marks the line itself where nothing was written of it.
fn bind_line(
    text: &[u8],
    own: &[usize],
    s: Site,
    blocks: &[usize],
    starts: &[u8],
    seen: &[usize],
    first: &[usize],
    marks: &mut [u8],
    out: &mut [u8],
    o: usize,
) -> usize
    requires { (ReadyFor (trim_of (line_of text.now s)) own.now text.now s blocks.now starts.now seen.now first.now)
        × ((s.row + suc (length (below_of text.now s)) ≤ length marks.old)
        × (o + length (site_text (bound_at text.now s blocks.now starts.now) (line_of text.now s) (get_or marks.old s.row 0)) ≤ length out.old)) }
    ensures answer { Wrote out.old o (site_text (bound_at text.now s blocks.now starts.now) (line_of text.now s) (get_or marks.old s.row 0)) out.new result }
    ensures memory { marks.new ≡ site_notes (bound_at text.now s blocks.now starts.now) (mark_row text.now s) (line_of text.now s) s.row marks.old }
{
    let p = bind_site(text, own, s, blocks, starts, seen, first, marks, out, o);
    if p == o {
        let row = s.row;
        marks[row] = AWAY;
        return p;
    }
    p
}

// Where the first line begins that opens a region, of those from the `k`-th up to the `n`-th, or `len` where there is none; the `k`-th begins at `start`.
fn stop_by(ends: &[usize], k: usize, n: usize, start: usize, len: usize) -> usize
    requires { n ≤ length ends.now }
    ensures { result ≡ stop_by ends.now len (n - k) k start }
{
    let mut p = start;
    for i in k..n {
        let x = ends[i];
        if x % 2 == 1 {
            return p;
        }
        p = x / 2 + 1;
    }
    len
}

// Where the region of line `k`, whose record is `rec`, ends: at `end`, where the line above is of the same region `c`.
fn end_at(
    text: &[u8],
    ends: &[usize],
    rec: records::LineRec,
    k: usize,
    n: usize,
    c: place::Region,
    end: usize,
) -> usize
    requires { (k < n) × (n ≤ length ends.now) }
    ensures { result ≡ cond (eqb rec.region.0 c.0) end
        (stop_by ends.now (length text.now) (n - (k + 1)) (k + 1) (min (rec.end + 1) (length text.now))) }
{
    if rec.region.0 == c.0 {
        return end;
    }
    stop_by(ends, k + 1, n, lines::after(text, rec.end), text.len())
}

// The site above the first line, with the end of the region there.
fn first_site(end: usize) -> Site
    ensures { result ≡ first_site end }
{
    Site {
        top: 0,
        from: 0,
        to: 0,
        next: 0,
        end,
        row: 0,
        block: 0,
    }
}

// Where the region of a line begins, whose record is `rec`: at `top`, where the line above is of the same region `c`.
fn top_at(rec: records::LineRec, c: place::Region, top: usize) -> usize
    ensures { result ≡ cond (eqb rec.region.0 c.0) top rec.start }
{
    if rec.region.0 == c.0 {
        return top;
    }
    rec.start
}

// The site of line `k`, by its record and by its region, from `top` to `end`.
fn site_at(text: &[u8], rec: records::LineRec, top: usize, end: usize, k: usize) -> Site
    ensures { result ≡ site_of (length text.now) rec top end k }
{
    let next = lines::after(text, rec.end);
    Site {
        top,
        from: rec.start,
        to: rec.end,
        next,
        end,
        row: k,
        block: rec.block,
    }
}

// The site of line `k`, by its record, below the site `s` of a line of the region `c`.
fn site_by(
    text: &[u8],
    ends: &[usize],
    rec: records::LineRec,
    k: usize,
    n: usize,
    c: place::Region,
    s: Site,
) -> Site
    requires { (k < n) × (n ≤ length ends.now) }
    ensures { result ≡ site_of (length text.now) rec (cond (eqb rec.region.0 c.0) s.top rec.start)
        (cond (eqb rec.region.0 c.0) s.end
        (stop_by ends.now (length text.now) (n - (k + 1)) (k + 1) (min (rec.end + 1) (length text.now)))) k }
{
    let end = end_at(text, ends, rec, k, n, c, s.end);
    let top = top_at(rec, c, s.top);
    site_at(text, rec, top, end, k)
}

// Reads the region of a site into the index, where the site is its first line, and writes what its line becomes.
fn walk_line(
    text: &[u8],
    own: &[usize],
    s: Site,
    blocks: &[usize],
    starts: &[u8],
    seen: &mut [usize],
    first: &mut [usize],
    marks: &mut [u8],
    out: &mut [u8],
    o: usize,
) -> usize
    requires { ((length seen.old ≡ length first.old) × ((s.top < 2 ^ 64 - 1) × ((s.row < 2 ^ 64 - 1) × (s.from ≤ s.top → s.row + length (lines_of (part s.top s.end text.now)) < 2 ^ 64))))
        × ((ReadyFor (trim_of (line_of text.now s)) own.now text.now s blocks.now starts.now (site_seen own.now text.now s seen.old) (site_first own.now text.now s seen.old first.old))
        × ((s.row + suc (length (below_of text.now s)) ≤ length marks.old)
        × (o + length (site_text (bound_at text.now s blocks.now starts.now) (line_of text.now s) (get_or marks.old s.row 0)) ≤ length out.old))) }
    ensures index { (seen.new ≡ site_seen own.now text.now s seen.old)
        × (first.new ≡ site_first own.now text.now s seen.old first.old) }
    ensures answer { Wrote out.old o (site_text (bound_at text.now s blocks.now starts.now) (line_of text.now s) (get_or marks.old s.row 0)) out.new result }
    ensures memory { marks.new ≡ site_notes (bound_at text.now s blocks.now starts.now) (mark_row text.now s) (line_of text.now s) s.row marks.old }
{
    index::read_region(text, own, s.top, s.from, s.end, s.row, seen, first);
    bind_line(text, own, s, blocks, starts, seen, first, marks, out, o)
}

// The walk down the `n` lines, by their records in a lent window, with the tables of ends, blocks and starts, with no line marked, and with an index
// that is empty.
fn walk_lines(
    text: &[u8],
    own: &[usize],
    ends: &[usize],
    n: usize,
    blocks: &[usize],
    starts: &[u8],
    seen: &mut [usize],
    first: &mut [usize],
    marks: &mut [u8],
    out: &mut [u8],
    recs: &mut [records::LineRec],
) -> usize
    requires { (0 < length recs.old) × (((length seen.old ≡ length first.old) × ((AtMost 0 seen.old) × (AtMost 0 first.old)))
        × (WalkedSites text.now ends.now n blocks.now starts.now marks.old out.old)) }
    ensures answer { Wrote out.old 0 (unlines (apply (bind_go (tabled (lines_of text.now) blocks.now starts.now) [] []) (lines_of text.now))) out.new result }
    ensures memory { Filled marks.old (notes_go (tabled (lines_of text.now) blocks.now starts.now) [] []) marks.new (length (lines_of text.now)) }
{
    let mut c = place::Region(0);
    let mut s = first_site(stop_by(ends, 0, n, 0, text.len()));
    let mut past = 0;
    let mut o = 0;
    for k in 0..n {
        past = records::refill(ends, blocks, n, k, past, recs);
        let rec = records::get(recs, k + recs.len() - past);
        s = site_by(text, ends, rec, k, n, c, s);
        c = rec.region;
        o = walk_line(text, own, s, blocks, starts, seen, first, marks, out, o);
    }
    o
}

// The same with a window of its own.
fn walk_window(
    text: &[u8],
    own: &[usize],
    ends: &[usize],
    n: usize,
    blocks: &[usize],
    starts: &[u8],
    seen: &mut [usize],
    first: &mut [usize],
    marks: &mut [u8],
    out: &mut [u8],
) -> usize
    requires { ((length seen.old ≡ length first.old) × ((AtMost 0 seen.old) × (AtMost 0 first.old)))
        × (WalkedSites text.now ends.now n blocks.now starts.now marks.old out.old) }
    ensures answer { Wrote out.old 0 (unlines (apply (bind_go (tabled (lines_of text.now) blocks.now starts.now) [] []) (lines_of text.now))) out.new result }
    ensures memory { Filled marks.old (notes_go (tabled (lines_of text.now) blocks.now starts.now) [] []) marks.new (length (lines_of text.now)) }
{
    let mut recs = records::window();
    walk_lines(
        text, own, ends, n, blocks, starts, seen, first, marks, out, &mut recs,
    )
}

// The same with an index in lent tables, as long as the shorter of them.
fn walk(
    text: &[u8],
    own: &[usize],
    ends: &[usize],
    n: usize,
    blocks: &[usize],
    starts: &[u8],
    seen: &mut [usize],
    first: &mut [usize],
    marks: &mut [u8],
    out: &mut [u8],
) -> usize
    requires { WalkedSites text.now ends.now n blocks.now starts.now marks.old out.old }
    ensures answer { Wrote out.old 0 (unlines (apply (bind_go (tabled (lines_of text.now) blocks.now starts.now) [] []) (lines_of text.now))) out.new result }
    ensures memory { Filled marks.old (notes_go (tabled (lines_of text.now) blocks.now starts.now) [] []) marks.new (length (lines_of text.now)) }
    ensures index { (seen.new ≡ replicate (length seen.old) 0) × (first.new ≡ replicate (length first.old) 0) }
{
    let h = slots::shorter(seen.len(), first.len());
    index::wipe(seen, first);
    let o = walk_window(
        text,
        own,
        ends,
        n,
        blocks,
        starts,
        &mut seen[..h],
        &mut first[..h],
        marks,
        out,
    );
    index::wipe(seen, first);
    o
}

// A register that is declared once and stored once, with that store its first use, on a later line of its region and block that starts a
// statement, leaves its declaration, and its store becomes one. Each line is followed by one LF. `ends`, `blocks`, `starts` and `up` are
// left as `place::place_lines` fills them, and `marks` says of each line 2 where it is gone, else 1 where it was such a store (moves_of).
// `seen` and `first` are room for the index of a region, where `own` says which places are those of high registers; they are left with zeros.
pub fn bind_declarators(
    mode: reading::Mode,
    text: &[u8],
    own: &[usize],
    ends: &mut [usize],
    blocks: &mut [usize],
    starts: &mut [u8],
    up: &mut [u32],
    marks: &mut [u8],
    seen: &mut [usize],
    first: &mut [usize],
    out: &mut [u8],
) -> usize
    requires { ((length (lines_of text.now) ≤ length blocks.old)
        × ((length (lines_of text.now) ≤ length starts.old)
        × ((length (ids_parents (rests_in (joined_at mode.0) (lines_of text.now))) ≤ length up.old) × (length up.old < 2 ^ 32))))
        × ((length (lines_of text.now) ≤ length marks.old) × ((length (unlines (bind_declarators (reading_of mode.0) (lines_of text.now))) ≤ length out.old)
        × (length (lines_of text.now) ≤ length ends.old))) }
    ensures answer { Wrote out.old 0 (unlines (bind_declarators (reading_of mode.0) (lines_of text.now))) out.new result }
    ensures tables { (Filled blocks.old (block_ids (rests_in (joined_at mode.0) (lines_of text.now))) blocks.new (length (lines_of text.now)))
        × ((Filled starts.old (flags_of (starts_go (cleaned (rests_in (joined_at mode.0) (lines_of text.now))) true)) starts.new (length (lines_of text.now)))
        × (Filled up.old (ids_parents (rests_in (joined_at mode.0) (lines_of text.now))) up.new (length (ids_parents (rests_in (joined_at mode.0) (lines_of text.now)))))) }
    ensures marked { Filled marks.old (bind_notes (reading_of mode.0) (lines_of text.now)) marks.new (length (lines_of text.now)) }
    ensures index { (seen.new ≡ replicate (length seen.old) 0) × (first.new ≡ replicate (length first.old) 0) }
    ensures ends { Filled ends.old (end_marks 0 (lines_of text.now)) ends.new (length (lines_of text.now)) }
{
    let n = place::place_lines(text, reading::is_joined(mode), blocks, starts, up, ends);
    lines::wipe(marks, n);
    walk(text, own, ends, n, blocks, starts, seen, first, marks, out)
}

// Writes the moves of lines by their marks, as bind_declarators leaves them, and returns how many there are.
pub fn moves_of(marks: &[u8], moves: &mut [usize]) -> usize
    requires { length marks.now ≤ length moves.old }
    ensures { Wrote moves.old 0 (note_moves marks.now) moves.new result }
{
    for i in 0..marks.len() {
        moves[i] = move_at(marks[i]);
    }
    marks.len()
}

// The move of a line by its mark.
fn move_at(m: u8) -> usize
    ensures { result ≡ cond (eqb m 2) far_move 0 }
{
    if m == AWAY {
        return origins::FAR;
    }
    0
}
