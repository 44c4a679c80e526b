// `optimize_once`: dead stores and scratch loads go, and a value that is read once on the next line goes there.
#![tactic(auto)]

pub mod below;
mod noted;

ghost use Rattle.std.specs.Prelude.{◌≡◌, true, false, [], ◌∷◌, ◌++◌, ◌≤◌, ◌<◌, ◌+◌, ◌^◌, eqb, length, drop, get_or, replicate};
ghost use Rattle.lines.specs.Inner.Out.{Wrote};
ghost use Rattle.lines.specs.Acts.{act, apply};
ghost use Rattle.parse.specs.Parse.{parse_of};
ghost use Rattle.lines.specs.Lf.{part, up_to, lines_of, unlines, prefixed, holds};
ghost use Rattle.names.specs.Names.{reg_of, is_ident};
ghost use Rattle.once.specs.Scratch.{object_of, is_member, live_below, changes_by, called_below, scratch_at};
ghost use Rattle.once.specs.Once.{read_count, first_of, taken_by, once_acts, optimize_once};
ghost use Rattle.words.specs.Hits.{reg_hit, replace_reg};
ghost use Rattle.reading.specs.Reading.{reading_of, pure_in};
ghost use Rattle.once.specs.Inner.Tables.{read_below, any_call, Zeroed, has_hit, store_drops, line_drops, store_forwards, line_forwards, once_marks, act_by, acts_by, is_set, first_drops, first_takes, mark_by, first_mark, marks_of, area_at};
ghost use Rattle.once.specs.Inner.Noted.{note_stored, note_dead, CalmIn, Calm, LineAt, RowAt, DropIs, DropBy, sent_to, SendIs, SendBy, OneIs, OneBy, OneOf, first_line, NotesOf, EndsOf};
ghost use Rattle.origins.specs.Inner.Codes.{moves_of};
ghost use Rattle.decls.specs.Decls.{prune_decls_acts};
ghost use Rattle.once.specs.Inner.Moves.{mark_move, move_marks};
ghost use Rattle.place.specs.Inner.Fill.{Filled, flags_of};
ghost use Rattle.place.specs.Loops.{inside_loop};
ghost use Rattle.place.specs.Inner.Loops.{some_loop};
ghost use Rattle.place.specs.Region.{region};
ghost use Rattle.place.specs.Paths.{block_paths, tops};
ghost use Rattle.place.specs.Inner.Parents.{path_parents};
ghost use Rattle.place.specs.Inner.Ends.{ends_from};

// The mark of a line: it stays, it goes, or it would go into the next line.
const MARK_STAYS: u8 = 0;

pub const MARK_GOES: u8 = 1;

const MARK_SENDS: u8 = 2;

// Whether a value is a bare member read, `A.B`.
fn is_member(x: &[u8]) -> bool
    ensures { result ≡ is_member x.now }
{
    let n = x.len();
    let k = lines::find_byte(x, 0, b'.');
    if k >= n {
        return false;
    }
    names::is_simple_ident(lines::cut(x, 0, k)) & names::is_simple_ident(lines::cut(x, k + 1, n))
}

// Whether a register is read before it is stored again: in all lines below, or down to the end of the region.
fn read_below(text: &[u8], reg: names::Register, far: bool) -> bool
    ensures { result ≡ read_below far reg.0 (lines_of text.now) }
{
    for line in lines::each::each(text) {
        if !far & place::is_header(line.bytes) {
            return false;
        }
        let u = reading::use_of(line.bytes, reg);
        if u.stores {
            return false;
        }
        if 0 < u.reads {
            return true;
        }
    }
    false
}

// Whether a text begins with `x(`.
fn starts_call(s: &[u8], x: &[u8]) -> bool
    ensures { result ≡ prefixed (x.now ++ 40 ∷ []) s.now }
{
    if !lines::starts_with(s, x) {
        return false;
    }
    lines::byte_at(s, x.len()) == b'('
}

// Whether a line holds `x(`.
fn holds_call(s: &[u8], x: &[u8]) -> bool
    ensures { result ≡ holds (x.now ++ 40 ∷ []) s.now }
{
    for i in 0..s.len() {
        if starts_call(&s[i..], x) {
            return true;
        }
    }
    false
}

// The same; a line without `(` does not.
fn line_calls(s: &[u8], x: &[u8]) -> bool
    ensures { result ≡ holds (x.now ++ 40 ∷ []) s.now }
{
    let k = lines::find_byte(s, 0, b'(');
    if k >= s.len() {
        return false;
    }
    holds_call(s, x)
}

// Whether a line of the region holds `x(`.
fn any_call(text: &[u8], x: &[u8]) -> bool
    ensures { result ≡ any_call x.now (lines_of text.now) }
{
    for line in lines::each::each(text) {
        if place::is_header(line.bytes) {
            return false;
        }
        if line_calls(line.bytes, x) {
            return true;
        }
    }
    false
}

// Bytes that are looked at together.
const BLOCK: usize = 32;

// How many bytes at the end hold no `(`, by whole blocks.
fn calm_len(text: &[u8]) -> usize
    ensures { Calm text.now result }
{
    let mut i = text.len();
    // Kept: the blocks are counted from the end, and stop at the first that holds one.
    while BLOCK <= i {
        if !lines::lacks(&text[i - BLOCK..i], b'(') {
            return text.len() - i;
        }
        i -= BLOCK;
    }
    text.len() - i
}

// Whether a line changes an object: it stores the register that the object is, or mentions the name that it is.
fn changes(line: &[u8], obj: &[u8]) -> bool
    requires { is_ident obj.now ≡ true }
    ensures { result ≡ changes_by (reg_of obj.now) obj.now line.now }
{
    match names::reg_name(obj) {
        Some(q) => {
            let u = reading::use_of(line, q);
            u.stores
        }
        None => {
            let p = parse::parse(line);
            0 < words::count_word(parse::text_of(line, p), obj)
        }
    }
}

// Whether a call of the member x of obj follows in the region, before any line that changes the object.
fn called_below(text: &[u8], x: &[u8], obj: &[u8]) -> bool
    requires { (obj.now ≡ object_of x.now) × (is_ident obj.now ≡ true) }
    ensures { result ≡ called_below x.now (lines_of text.now) }
{
    for line in lines::each::each(text) {
        if place::is_header(line.bytes) {
            return false;
        }
        if holds_call(line.bytes, x) {
            return true;
        }
        if changes(line.bytes, obj) {
            return false;
        }
    }
    false
}

// Whether a register is read before it is stored again, down to the end of the region; the note of the store above may say so.
fn live_below(below: &[u8], reg: names::Register, note: u8) -> bool
    requires { (note ≡ note_stored → live_below reg.0 (lines_of below.now) ≡ false) × (note ≡ note_dead → live_below reg.0 (lines_of below.now) ≡ false) }
    ensures { result ≡ live_below reg.0 (lines_of below.now) }
{
    if note == noted::NOTE_STORED {
        return false;
    }
    if note == noted::NOTE_DEAD {
        return false;
    }
    read_below(below, reg, false)
}

// Whether a store of a register with the value x and a note, above `below`, is a scratch load; no `(` stands in a rest of at most `calm` bytes.
fn scratch_at(x: &[u8], reg: names::Register, below: &[u8], note: u8, calm: usize) -> bool
    requires { ((note ≡ note_stored → live_below reg.0 (lines_of below.now) ≡ false) × (note ≡ note_dead → live_below reg.0 (lines_of below.now) ≡ false)) × (CalmIn below.now calm) }
    ensures { result ≡ scratch_at reg.0 x.now (lines_of below.now) }
{
    if below.len() <= calm {
        return false;
    }
    if !is_member(x) {
        return false;
    }
    if live_below(below, reg, note) {
        return false;
    }
    if !any_call(below, x) {
        return false;
    }
    let k = lines::find_byte(x, 0, b'.');
    called_below(below, x, lines::cut(x, 0, k))
}

// Whether lines read a register once in all.
fn read_once(text: &[u8], reg: names::Register) -> bool
    ensures { result ≡ eqb (read_count reg.0 (lines_of text.now)) 1 }
{
    let mut n = 0;
    for line in lines::each::each(text) {
        let u = reading::use_of(line.bytes, reg);
        if 1 < u.reads {
            return false;
        }
        n += u.reads;
        if 1 < n {
            return false;
        }
    }
    n == 1
}

// Whether a value is pure. Scratch is zeros afterwards, as far as the value is long.
pub fn pure_value(mode: reading::Mode, x: &[u8], scratch: &mut [u8]) -> bool
    requires { length x.now ≤ length scratch.old }
    ensures answer { result ≡ pure_in (reading_of mode.0) x.now }
    ensures memory { Wrote scratch.old 0 (replicate (length x.now) 0) scratch.new (length x.now) }
{
    let p = expr::purity(x, reading::is_strict(mode), scratch);
    lines::wipe(scratch, x.len());
    expr::is_pure(p)
}

// Whether a store of a register with the value x, above `below`, goes: its block path is p, and those of the lines below are `paths`;
// its note is `note`.
fn store_drops(
    mode: reading::Mode,
    x: &[u8],
    reg: names::Register,
    below: &[u8],
    paths: &[usize],
    p: usize,
    in_loop: bool,
    note: u8,
    calm: usize,
    scratch: &mut [u8],
) -> bool
    requires { (Zeroed (length x.now) scratch.old) × ((DropIs reg.0 p (lines_of below.now) paths.now note) × (CalmIn below.now calm)) }
    ensures answer { result ≡ store_drops (reading_of mode.0) reg.0 x.now p in_loop (lines_of below.now) paths.now }
    ensures memory { scratch.new ≡ scratch.old }
{
    if (note == noted::NOTE_READ) | ((note == noted::NOTE_SENT) | (note == noted::NOTE_ALONE)) {
        return false;
    }
    if scratch_at(x, reg, below, note, calm) {
        return true;
    }
    if in_loop {
        return false;
    }
    if note == noted::NOTE_STORED {
        return false;
    }
    if words::count_reg(x, reg) != 0 {
        return false;
    }
    if !pure_value(mode, x, scratch) {
        return false;
    }
    if note == noted::NOTE_DEAD {
        return true;
    }
    below::dead_below(below, paths, p, reg)
}

// Whether a line with a note, read as q, goes.
fn line_drops(
    mode: reading::Mode,
    line: &[u8],
    q: parse::Line,
    below: &[u8],
    paths: &[usize],
    p: usize,
    in_loop: bool,
    note: u8,
    calm: usize,
    scratch: &mut [u8],
) -> bool
    requires { (q ≡ parse_of line.now) × ((Zeroed (length line.now) scratch.old) × ((DropBy line.now p (lines_of below.now) paths.now note) × (CalmIn below.now calm))) }
    ensures answer { result ≡ line_drops (reading_of mode.0) line.now p in_loop (lines_of below.now) paths.now }
    ensures memory { scratch.new ≡ scratch.old }
{
    match q {
        parse::Line::Decl => false,
        parse::Line::Store(s) => {
            let x = parse::value_of(line, s);
            store_drops(
                mode, x, s.reg, below, paths, p, in_loop, note, calm, scratch,
            )
        }
        parse::Line::Other => false,
    }
}

// Whether a line can take a value in the place of a register.
fn takes(line: &[u8], reg: names::Register) -> bool
    ensures { result ≡ has_hit (reg_hit reg.0 line.now) }
{
    match words::find_reg(line, reg) {
        Some(w) => true,
        None => false,
    }
}

// Whether the region at the front of a text reads a register once in all; the note of a store of it may say so.
fn once_in(run: &[u8], reg: names::Register, note: u8) -> bool
    requires { OneIs reg.0 (region (lines_of run.now)) note }
    ensures { result ≡ eqb (read_count reg.0 (region (lines_of run.now))) 1 }
{
    if note == noted::NOTE_ALONE {
        return true;
    }
    if note == noted::NOTE_SENT {
        return false;
    }
    let e = place::region_end(run, 0);
    read_once(lines::cut(run, 0, e), reg)
}

// Whether the next line reads a register once and does not store it, and it is not read again below before it is stored; the note of the store
// above may say so.
fn sent_to(reg: names::Register, next: &[u8], below: &[u8], note: u8) -> bool
    requires { SendIs reg.0 (next.now ∷ lines_of below.now) note }
    ensures { result ≡ sent_to reg.0 (next.now ∷ lines_of below.now) }
{
    if (note == noted::NOTE_SENT) | (note == noted::NOTE_ALONE) {
        return true;
    }
    if noted::NOTE_OTHER < note {
        return false;
    }
    let u = reading::use_of(next, reg);
    if u.stores {
        return false;
    }
    if u.reads != 1 {
        return false;
    }
    !read_below(below, reg, true)
}

// Whether a store of a register with the value x and a note, in the region that `run` begins with, goes into the next line, which goes itself
// where `gone` says so.
fn store_forwards(
    mode: reading::Mode,
    x: &[u8],
    reg: names::Register,
    next: &[u8],
    below: &[u8],
    run: &[u8],
    in_loop: bool,
    gone: bool,
    note: u8,
    scratch: &mut [u8],
) -> bool
    requires { (Zeroed (length x.now) scratch.old) × ((SendIs reg.0 (next.now ∷ lines_of below.now) note) × (OneIs reg.0 (region (lines_of run.now)) note)) }
    ensures answer { result ≡ store_forwards (reading_of mode.0) reg.0 x.now (region (lines_of run.now)) in_loop gone next.now (lines_of below.now) }
    ensures memory { scratch.new ≡ scratch.old }
{
    if in_loop {
        return false;
    }
    if gone {
        return false;
    }
    if !sent_to(reg, next, below, note) {
        return false;
    }
    if !pure_value(mode, x, scratch) {
        return false;
    }
    if !takes(next, reg) {
        return false;
    }
    once_in(run, reg, note)
}

// Whether a line with a note that stays, read as p, goes into the next line.
fn line_forwards(
    mode: reading::Mode,
    line: &[u8],
    p: parse::Line,
    next: &[u8],
    below: &[u8],
    run: &[u8],
    in_loop: bool,
    gone: bool,
    note: u8,
    scratch: &mut [u8],
) -> bool
    requires { (p ≡ parse_of line.now)
        × ((Zeroed (length line.now) scratch.old) × ((SendBy line.now (next.now ∷ lines_of below.now) note) × (OneBy line.now (region (lines_of run.now)) note))) }
    ensures answer { result ≡ line_forwards (reading_of mode.0) line.now (region (lines_of run.now)) in_loop gone next.now (lines_of below.now) }
    ensures memory { scratch.new ≡ scratch.old }
{
    match p {
        parse::Line::Decl => false,
        parse::Line::Store(s) => {
            let x = parse::value_of(line, s);
            store_forwards(
                mode, x, s.reg, next, below, run, in_loop, gone, note, scratch,
            )
        }
        parse::Line::Other => false,
    }
}

// Whether the line from i to e, read as p, with a note, goes; its block path stands in `paths` at k, and those of the lines below after it.
fn drops_at(
    mode: reading::Mode,
    text: &[u8],
    i: usize,
    e: usize,
    p: parse::Line,
    paths: &[usize],
    k: usize,
    in_loop: bool,
    note: u8,
    calm: usize,
    scratch: &mut [u8],
) -> bool
    requires { (LineAt text.now i e p)
        × ((Zeroed (length text.now) scratch.old)
        × ((DropBy (first_line (lines_of (drop i text.now))) (get_or paths.now k 0) (drop 1 (lines_of (drop i text.now))) (drop (k + 1) paths.now) note) × (Calm text.now calm))) }
    ensures answer { result ≡ first_drops (reading_of mode.0) (lines_of (drop i text.now)) (drop k paths.now) in_loop }
    ensures memory { scratch.new ≡ scratch.old }
{
    if i >= text.len() {
        return false;
    }
    if k >= paths.len() {
        return false;
    }
    let j = lines::after(text, e);
    let n = k + 1;
    line_drops(
        mode,
        &text[i..e],
        p,
        &text[j..],
        &paths[n..],
        paths[k],
        in_loop,
        note,
        calm,
        scratch,
    )
}

// Whether the line at j, with k lines above it, goes: its note may say at once that it does not.
fn next_drops(
    mode: reading::Mode,
    text: &[u8],
    j: usize,
    k: usize,
    paths: &[usize],
    loops: &[u8],
    calm: usize,
    notes: &[u8],
    ends: &[usize],
    scratch: &mut [u8],
) -> bool
    requires { (lines_of (drop j text.now) ≡ drop k (lines_of text.now))
        × ((Zeroed (length text.now) scratch.old) × ((Calm text.now calm) × ((NotesOf (lines_of text.now) paths.now notes.now) × (EndsOf text.now ends.now)))) }
    ensures answer { result ≡ first_drops (reading_of mode.0) (lines_of (drop j text.now)) (drop k paths.now) (is_set (get_or loops.now k 0)) }
    ensures memory { scratch.new ≡ scratch.old }
{
    let c = lines::byte_at(notes, k);
    if (c == noted::NOTE_ALONE) | ((noted::NOTE_NONE < c) & (c < noted::NOTE_STORED)) {
        return false;
    }
    let n = noted::end_at(text, j, k, ends);
    let q = parse::parse(lines::cut(text, j, n));
    let h = lines::byte_at(loops, k);
    drops_at(mode, text, j, n, q, paths, k, h != 0, c, calm, scratch)
}

// The mark of a line that does not go, read as p, in the region that `run` begins with, above the line from j to e; `next` says whether that one goes, and `note` is that of the line.
fn mark_at(
    mode: reading::Mode,
    line: &[u8],
    p: parse::Line,
    text: &[u8],
    j: usize,
    e: usize,
    run: &[u8],
    in_loop: bool,
    next: bool,
    note: u8,
    scratch: &mut [u8],
) -> u8
    requires { (p ≡ parse_of line.now)
        × ((e ≡ j + up_to 10 (drop j text.now))
        × ((Zeroed (length line.now) scratch.old)
        × ((SendBy line.now (lines_of (drop j text.now)) note) × (OneBy line.now (region (lines_of run.now)) note)))) }
    ensures answer { result ≡ mark_by false (first_takes (reading_of mode.0) line.now (region (lines_of run.now)) in_loop next (lines_of (drop j text.now))) }
    ensures memory { scratch.new ≡ scratch.old }
{
    if j >= text.len() {
        return MARK_STAYS;
    }
    let n = lines::after(text, e);
    if line_forwards(
        mode,
        line,
        p,
        &text[j..e],
        &text[n..],
        run,
        in_loop,
        next,
        note,
        scratch,
    ) {
        return MARK_SENDS;
    }
    MARK_STAYS
}

// The mark of the line from i to e, with k lines above it, in the region that begins at `run`: it stays, as most notes say at once.
fn mark_line(
    mode: reading::Mode,
    text: &[u8],
    i: usize,
    e: usize,
    k: usize,
    paths: &[usize],
    loops: &[u8],
    calm: usize,
    notes: &[u8],
    ends: &[usize],
    run: usize,
    scratch: &mut [u8],
) -> u8
    requires { (RowAt text.now i e k)
        × ((Zeroed (length text.now) scratch.old)
        × ((OneBy (part i e text.now) (region (lines_of (drop run text.now))) (get_or notes.now k 0))
        × ((Calm text.now calm) × ((NotesOf (lines_of text.now) paths.now notes.now) × (EndsOf text.now ends.now))))) }
    ensures answer { result ≡ first_mark (reading_of mode.0) (lines_of (drop i text.now)) (drop k paths.now) (drop k loops.now) (region (lines_of (drop run text.now))) }
    ensures memory { scratch.new ≡ scratch.old }
{
    let note = lines::byte_at(notes, k);
    if (noted::NOTE_NONE < note) & (note < noted::NOTE_SENT) {
        return MARK_STAYS;
    }
    let line = lines::cut(text, i, e);
    let p = parse::parse(line);
    let h = lines::byte_at(loops, k);
    if drops_at(mode, text, i, e, p, paths, k, h != 0, note, calm, scratch) {
        return MARK_GOES;
    }
    let j = lines::after(text, e);
    let next = next_drops(
        mode,
        text,
        j,
        k + 1,
        paths,
        loops,
        calm,
        notes,
        ends,
        scratch,
    );
    let n = noted::end_at(text, j, k + 1, ends);
    let area = lines::cut(text, run, text.len());
    mark_at(mode, line, p, text, j, n, area, h != 0, next, note, scratch)
}

// Where the region of the line from i to e begins, where `above` is that of the line above.
fn area_at(text: &[u8], i: usize, e: usize, above: usize) -> usize
    requires { (i ≤ e) × (e ≤ length text.now) }
    ensures { result ≡ area_at text.now i e above }
{
    if place::is_header(&text[i..e]) {
        return i;
    }
    above
}

// Writes the mark of each line, by tables of what the lines do with each register and of what they are.
fn mark_with(
    mode: reading::Mode,
    text: &[u8],
    paths: &[usize],
    loops: &[u8],
    calm: usize,
    notes: &[u8],
    ends: &[usize],
    scratch: &mut [u8],
    marks: &mut [u8],
) -> usize
    requires { (Zeroed (length text.now) scratch.old)
        × ((length (lines_of text.now) ≤ length marks.old) × ((OneOf (lines_of text.now) notes.now) × ((Calm text.now calm) × ((NotesOf (lines_of text.now) paths.now notes.now) × (EndsOf text.now ends.now))))) }
    ensures answer { Filled marks.old (marks_of (reading_of mode.0) (lines_of text.now) paths.now loops.now) marks.new result }
    ensures memory { scratch.new ≡ scratch.old }
{
    let mut run = 0;
    let mut i = 0;
    let mut k = 0;
    // Kept: where a line ends is read from a table, and its bytes are not gone over for it.
    while i < text.len() {
        let e = noted::end_at(text, i, k, ends);
        run = area_at(text, i, e, run);
        marks[k] = mark_line(
            mode, text, i, e, k, paths, loops, calm, notes, ends, run, scratch,
        );
        k += 1;
        i = lines::after(text, e);
    }
    k
}

// Writes the mark of each line; `paths` has the block paths of the lines, `loops` whether each stands in a loop, and `ends` where each ends. The
// tables over registers and of notes are zeros afterwards.
fn fill_marks(
    mode: reading::Mode,
    text: &[u8],
    own: &[usize],
    paths: &[usize],
    loops: &[u8],
    scratch: &mut [u8],
    marks: &mut [u8],
    near: &mut [u32],
    far: &mut [u32],
    stores: &mut [u32],
    notes: &mut [u8],
    ends: &[usize],
) -> usize
    requires { (Zeroed (length text.now) scratch.old)
        × ((length (lines_of text.now) ≤ length marks.old)
        × ((length paths.now ≡ length (lines_of text.now))
        × (((length far.old ≡ length near.old) × (length far.old ≡ length stores.old)) × (EndsOf text.now ends.now)))) }
    ensures answer { Filled marks.old (marks_of (reading_of mode.0) (lines_of text.now) paths.now loops.now) marks.new result }
    ensures memory { scratch.new ≡ scratch.old }
    ensures tables { (near.new ≡ replicate (length near.old) 0)
        × ((far.new ≡ replicate (length far.old) 0)
        × ((stores.new ≡ replicate (length stores.old) 0) × (notes.new ≡ replicate (length notes.old) 0))) }
{
    noted::note_lines(text, own, paths, near, far, stores, notes, ends);
    let calm = calm_len(text);
    let n = mark_with(mode, text, paths, loops, calm, notes, ends, scratch, marks);
    lines::wipe(notes, notes.len());
    n
}

// Writes a line with a value in the place of a register, where it can take it.
fn put_into(line: &[u8], reg: names::Register, x: &[u8], out: &mut [u8], o: usize) -> usize
    requires { o + length (unlines (first_of (replace_reg reg.0 line.now x.now) line.now ∷ [])) ≤ length out.old }
    ensures { Wrote out.old o (unlines (first_of (replace_reg reg.0 line.now x.now) line.now ∷ [])) out.new result }
{
    match words::find_reg(line, reg) {
        Some(w) => {
            let p = words::put_replaced(line, w, x, out, o);
            lines::put_byte(out, p, 10)
        }
        None => lines::put_line(out, o, line),
    }
}

// Writes a line with the value of the line above in it.
fn put_taken(line: &[u8], above: &[u8], out: &mut [u8], o: usize) -> usize
    requires { o + length (unlines (taken_by above.now (parse_of above.now) line.now ∷ [])) ≤ length out.old }
    ensures { Wrote out.old o (unlines (taken_by above.now (parse_of above.now) line.now ∷ [])) out.new result }
{
    match parse::parse(above) {
        parse::Line::Decl => lines::put_line(out, o, line),
        parse::Line::Store(s) => {
            let x = parse::value_of(above, s);
            put_into(line, s.reg, x, out, o)
        }
        parse::Line::Other => lines::put_line(out, o, line),
    }
}

// Writes what becomes of a line with the mark m, where n is that of the next, and `given` says whether the line above goes into it.
fn put_act(line: &[u8], above: &[u8], m: u8, n: u8, given: bool, out: &mut [u8], o: usize) -> usize
    requires { o + length (unlines (act (act_by m n given above.now line.now) line.now)) ≤ length out.old }
    ensures { Wrote out.old o (unlines (act (act_by m n given above.now line.now) line.now)) out.new result }
{
    if m == MARK_GOES {
        return o;
    }
    if m == MARK_SENDS {
        if n == MARK_SENDS {
            return lines::put_line(out, o, line);
        }
        return o;
    }
    if given {
        return put_taken(line, above, out, o);
    }
    lines::put_line(out, o, line)
}

// Writes what becomes of lines by their marks; `ends` has the places where they end.
fn put_acts(text: &[u8], marks: &[u8], ends: &[usize], out: &mut [u8]) -> usize
    requires { (EndsOf text.now ends.now) × (length (unlines (apply (acts_by (lines_of text.now) marks.now false []) (lines_of text.now))) ≤ length out.old) }
    ensures { Wrote out.old 0 (unlines (apply (acts_by (lines_of text.now) marks.now false []) (lines_of text.now))) out.new result }
{
    let mut i = 0;
    let mut k = 0;
    let mut o = 0;
    let mut given = false;
    let mut a = 0;
    let mut b = 0;
    let mut c = 0;
    // Kept: where a line ends is read from a table, and its bytes are not gone over for it.
    while i < text.len() {
        let e = noted::end_at(text, i, k, ends);
        let m = lines::byte_at(marks, k);
        if (m == MARK_STAYS) & !given {
            k += 1;
            i = lines::after(text, e);
        } else {
            let n = lines::byte_at(marks, k + 1);
            let p = lines::put(out, o, lines::cut(text, c, i));
            o = put_act(&text[i..e], lines::cut(text, a, b), m, n, given, out, p);
            given = (m == MARK_SENDS) & !(n == MARK_SENDS);
            a = i;
            b = e;
            k += 1;
            i = lines::after(text, e);
            c = i;
        }
    }
    lines::put_lines(lines::cut(text, c, text.len()), out, o)
}

// Writes for each line whether it stands in a loop, and returns how many there are: `rows` says so, and `some` whether one opens a loop's block.
fn fill_loops(text: &[u8], some: bool, rows: usize, loops: &mut [u8]) -> usize
    requires { (some ≡ some_loop (lines_of text.now)) × ((rows ≡ length (lines_of text.now)) × (length (lines_of text.now) ≤ length loops.old)) }
    ensures { Filled loops.old (flags_of (inside_loop (lines_of text.now))) loops.new result }
{
    if some {
        return place::inside_loop(text, loops);
    }
    lines::wipe(loops, rows);
    rows
}

// Fills the tables of a text: which lines stand in a loop, their block paths, what becomes of them, and where they end. The tables over registers
// and of notes are zeros afterwards.
pub fn decide(
    mode: reading::Mode,
    text: &[u8],
    own: &[usize],
    scratch: &mut [u8],
    loops: &mut [u8],
    marks: &mut [u8],
    paths: &mut [usize],
    up: &mut [u32],
    near: &mut [u32],
    far: &mut [u32],
    stores: &mut [u32],
    notes: &mut [u8],
    ends: &mut [usize],
) -> usize
    requires { (length (lines_of text.now) ≤ length loops.old)
        × ((length (lines_of text.now) ≤ length marks.old)
        × ((length (lines_of text.now) ≤ length paths.old)
        × ((length (path_parents (lines_of text.now)) ≤ length up.old)
        × ((length up.old < 2 ^ 32)
        × ((length text.now ≤ length scratch.old) × ((length far.old ≡ length near.old) × (length far.old ≡ length stores.old))))))) }
    ensures answer { Filled marks.old (once_marks (reading_of mode.0) (lines_of text.now)) marks.new result }
    ensures memory { (Wrote scratch.old 0 (replicate (length text.now) 0) scratch.new (length text.now))
        × ((Filled loops.old (flags_of (inside_loop (lines_of text.now))) loops.new (length (flags_of (inside_loop (lines_of text.now)))))
        × ((Filled paths.old (tops (block_paths (lines_of text.now))) paths.new (length (tops (block_paths (lines_of text.now)))))
        × (Filled up.old (path_parents (lines_of text.now)) up.new (length (path_parents (lines_of text.now)))))) }
    ensures tables { (near.new ≡ replicate (length near.old) 0)
        × ((far.new ≡ replicate (length far.old) 0)
        × ((stores.new ≡ replicate (length stores.old) 0) × (notes.new ≡ replicate (length notes.old) 0))) }
    ensures ends { ends.new ≡ ends_from 0 0 (lines_of text.now) (replicate (length ends.old) 0) }
{
    lines::wipe(scratch, text.len());
    slots::wipe(ends);
    let x = place::block_paths(text, paths, up, ends);
    let k = x.rows;
    let n = fill_loops(text, x.loops, k, loops);
    fill_marks(
        mode,
        text,
        own,
        &paths[0..k],
        &loops[0..n],
        scratch,
        marks,
        near,
        far,
        stores,
        notes,
        ends,
    )
}

// The move of a line with the mark m, where `next` is that of the next.
fn move_at(m: u8, next: u8) -> usize
    ensures { result ≡ mark_move m next }
{
    if m == MARK_GOES {
        return origins::FAR;
    }
    if m == MARK_SENDS {
        if next == MARK_SENDS {
            return 0;
        }
        return 1;
    }
    0
}

// Writes the moves of lines by their marks, as optimize_once leaves them, and returns how many there are.
pub fn moves_of(marks: &[u8], moves: &mut [usize]) -> usize
    requires { length marks.now ≤ length moves.old }
    ensures { Wrote moves.old 0 (move_marks marks.now) moves.new result }
{
    for i in 0..marks.len() {
        let next = lines::byte_at(marks, i + 1);
        moves[i] = move_at(marks[i], next);
    }
    marks.len()
}

// Writes the lines of a text without dead stores and scratch loads, with each value that is read once, on the next line, in that line, and
// without the declared registers that are then unused. `mid` takes what the lines are before their declarations are pruned, `marks` what becomes
// of the lines of the text (moves_of), and `moves` the moves of those of `mid`. `own` has the owners of places in the tables over registers:
// `near`, `far` and `stores`, of one length, and `seen`. These, `notes` and `ends`, of one entry a line as far as they reach, are zeros afterwards.
pub fn optimize_once(
    mode: reading::Mode,
    text: &[u8],
    own: &[usize],
    scratch: &mut [u8],
    mid: &mut [u8],
    loops: &mut [u8],
    marks: &mut [u8],
    paths: &mut [usize],
    up: &mut [u32],
    near: &mut [u32],
    far: &mut [u32],
    stores: &mut [u32],
    notes: &mut [u8],
    ends: &mut [usize],
    seen: &mut [usize],
    out: &mut [u8],
    moves: &mut [usize],
) -> usize
    requires { (length (lines_of text.now) ≤ length loops.old)
        × ((length (lines_of text.now) ≤ length marks.old)
        × ((length (lines_of text.now) ≤ length paths.old)
        × ((length (path_parents (lines_of text.now)) ≤ length up.old)
        × ((length up.old < 2 ^ 32)
        × ((length text.now ≤ length scratch.old)
        × ((length (unlines (apply (once_acts (reading_of mode.0) (lines_of text.now)) (lines_of text.now))) ≤ length mid.old)
        × ((length (unlines (optimize_once (reading_of mode.0) (lines_of text.now))) ≤ length out.old)
        × (((length far.old ≡ length near.old) × (length far.old ≡ length stores.old))
        × (length (lines_of text.now) ≤ length moves.old))))))))) }
    ensures answer { Wrote out.old 0 (unlines (optimize_once (reading_of mode.0) (lines_of text.now))) out.new result }
    ensures memory { (Wrote scratch.old 0 (replicate (length text.now) 0) scratch.new (length text.now))
        × ((Wrote mid.old 0 (unlines (apply (once_acts (reading_of mode.0) (lines_of text.now)) (lines_of text.now))) mid.new (length (unlines (apply (once_acts (reading_of mode.0) (lines_of text.now)) (lines_of text.now)))))
        × ((Filled loops.old (flags_of (inside_loop (lines_of text.now))) loops.new (length (flags_of (inside_loop (lines_of text.now)))))
        × ((Filled marks.old (once_marks (reading_of mode.0) (lines_of text.now)) marks.new (length (once_marks (reading_of mode.0) (lines_of text.now))))
        × ((Filled paths.old (tops (block_paths (lines_of text.now))) paths.new (length (tops (block_paths (lines_of text.now)))))
        × (Filled up.old (path_parents (lines_of text.now)) up.new (length (path_parents (lines_of text.now)))))))) }
    ensures tables { (near.new ≡ replicate (length near.old) 0)
        × ((far.new ≡ replicate (length far.old) 0)
        × ((stores.new ≡ replicate (length stores.old) 0)
        × ((notes.new ≡ replicate (length notes.old) 0)
        × ((ends.new ≡ replicate (length ends.old) 0) × (seen.new ≡ replicate (length seen.old) 0))))) }
    ensures moves { Wrote moves.old 0 (moves_of (prune_decls_acts (apply (once_acts (reading_of mode.0) (lines_of text.now)) (lines_of text.now)))) moves.new (length (apply (once_acts (reading_of mode.0) (lines_of text.now)) (lines_of text.now))) }
{
    let n = decide(
        mode, text, own, scratch, loops, marks, paths, up, near, far, stores, notes, ends,
    );
    let m = put_acts(text, &marks[0..n], ends, mid);
    slots::wipe(ends);
    decls::prune_decls(&mid[0..m], own, seen, out, moves)
}
