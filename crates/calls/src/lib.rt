// rebuild_calls: the values of stores go back into the call that follows them.
#![tactic(auto)]

mod later;

ghost use Rattle.std.specs.Prelude.{◌≡◌, true, not, ◌&&◌, [], ◌∷◌, ◌+◌, ◌-◌, ◌*◌, ◌≤◌, ◌<◌, ◌^◌, eqb, length, get_or, replicate};
ghost use Rattle.lines.specs.Lf.{holds, lines_of, unlines};
ghost use Rattle.lines.specs.Inner.Out.{Wrote};
ghost use Rattle.words.specs.Hits.{replaced_at};
ghost use Rattle.lexical.specs.Joined.{rests_in};
ghost use Rattle.lexical.specs.Idents.{words_in};
ghost use Rattle.forms.specs.Primary.{paren_if_needed};
ghost use Rattle.forms.specs.Control.{is_control};
ghost use Rattle.forms.specs.Breaks.{breaks_with, breaks};
ghost use Rattle.reading.specs.Reading.{plain, joined_at, reading_of};
ghost use Rattle.reading.specs.Uses.{line_reads, line_stores};
ghost use Rattle.place.specs.Blocks.{cleaned};
ghost use Rattle.place.specs.Inner.Blocks.{block_ids};
ghost use Rattle.place.specs.Starts.{starts_go};
ghost use Rattle.place.specs.Inner.Parents.{ids_parents};
ghost use Rattle.place.specs.Inner.Fill.{Filled, flags_of};
ghost use Rattle.place.specs.Inner.Ends.{end_marks};
ghost use Rattle.records.specs.Inner.Records.{Told};
ghost use Rattle.calls.specs.LeavesOf.{is_call, is_control_line, context_of, leaves_of};
ghost use Rattle.calls.specs.Calls.{read_later, put_by, rebuild_calls_acts, rebuild_calls};
ghost use Rattle.calls.specs.Inner.Steps.{is_second, may_control, breaks_down, wrapped_call, absorb_step, PutAs};
ghost use Rattle.calls.specs.Inner.Later.{Noted, Spans};
ghost use Rattle.calls.specs.Inner.Tables.{tabled, rows_at, Keeps, Stands, Placed, Foot, Peaked, Ready, TurnedLine, Rebuilt, owners_of};

// Whether a byte stands second in a word that a condition or a loop begins with.
fn is_second(x: u8) -> bool
    ensures { result ≡ is_second x }
{
    (x == b'h') | (x == b'o') | (x == b'f') | (x == b'w')
}

// Whether a line holds a byte.
fn has_byte(line: &[u8], b: u8) -> bool
    ensures { result ≡ holds (b ∷ []) line.now }
{
    lines::find_byte(line, 0, b) < line.len()
}

// Whether a line, its front trimmed, may be one that a condition or a loop begins: by its second byte, a `:` or a `}`.
fn may_control(t: &[u8]) -> bool
    ensures { result ≡ may_control t.now }
{
    if is_second(lines::byte_at(t, 1)) {
        return true;
    }
    if has_byte(t, b':') {
        return true;
    }
    has_byte(t, b'}')
}

// Whether a line, its front trimmed, is one that a condition or a loop begins.
fn is_control(t: &[u8]) -> bool
    ensures { result ≡ is_control t.now }
{
    if !may_control(t) {
        return false;
    }
    forms::is_control_header(t)
}

// Whether a line that `starts` a statement is a call line that may take values in.
fn takes(line: &[u8], starts: bool) -> bool
    ensures { result ≡ is_call line.now && (starts && not (is_control_line line.now)) }
{
    if !starts {
        return false;
    }
    if !has_byte(line, b'(') {
        return false;
    }
    !is_control(text::trim_start(line))
}

// Whether a line below reads a register, in this region and up to the next store of it, whose own reads count.
fn read_later(below: &[u8], reg: names::Register) -> bool
    ensures { result ≡ read_later (leaves_of plain) reg.0 (lines_of below.now) }
{
    for line in lines::each::each(below) {
        if place::is_header(line.bytes) {
            return false;
        }
        let u = reading::use_of(line.bytes, reg);
        if u.reads != 0 {
            return true;
        }
        if u.stores {
            return false;
        }
    }
    false
}

// Whether a line stores a register.
fn stores(line: &[u8], reg: names::Register) -> bool
    ensures { result ≡ line_stores reg.0 line.now }
{
    match parse::parse(line) {
        parse::Line::Decl => false,
        parse::Line::Store(s) => s.reg.0 == reg.0,
        parse::Line::Other => false,
    }
}

// The same as `read_later` of the lines that are d and more below the line `above`, which has k above it: by its note, where it stores the register and
// the note says enough.
fn is_read(
    below: &[u8],
    reg: names::Register,
    above: &[u8],
    k: usize,
    d: usize,
    notes: &[u32],
) -> bool
    requires { Noted reg.0 above.now (get_or notes.now (2 * k) 0) (get_or notes.now (2 * k + 1) 0) d (lines_of below.now) }
    ensures { result ≡ read_later (leaves_of plain) reg.0 (lines_of below.now) }
{
    if notes.len() / 2 <= k {
        return read_later(below, reg);
    }
    if !stores(above, reg) {
        return read_later(below, reg);
    }
    if d < notes[2 * k] as usize {
        return true;
    }
    if d < notes[2 * k + 1] as usize {
        return false;
    }
    read_later(below, reg)
}

// Whether a line that was taken in writes what a value needs; one that was not does not.
fn breaks_if(taken: bool, value: &[u8], clean: &[u8], line: &[u8]) -> bool
    ensures { result ≡ taken && breaks_with value.now (words_in clean.now) line.now }
{
    if !taken {
        return false;
    }
    forms::breaks(value, clean, line)
}

// Whether one of the lines above a call line that were taken into it writes what a value needs. `owner` is for each line how far below
// it the line stands that it was taken into.
fn breaks_taken(value: &[u8], clean: &[u8], text: &[u8], owner: &[usize]) -> bool
    ensures { result ≡ breaks_down (breaks_with value.now (words_in clean.now)) (lines_of text.now) owner.now }
{
    let mut j = 0;
    for line in lines::each::each(text) {
        if j >= owner.len() {
            return false;
        }
        let taken = owner[j] == owner.len() - j;
        if breaks_if(taken, value, clean, line.bytes) {
            return true;
        }
        j += 1;
    }
    false
}

// The same of a value that is not cleaned yet. One of plain bytes is clean as it is; where another has lines above, its cleaned text stands
// in `out` while they are asked: a word of it may be in pieces in the value, as that of `a/**/b` is.
fn breaks_above(value: &[u8], text: &[u8], owner: &[usize], out: &mut [u8]) -> bool
    requires { length value.now ≤ length out.old }
    ensures { result ≡ breaks_down (breaks value.now) (lines_of text.now) owner.now }
{
    if text.len() == 0 {
        return false;
    }
    if lexical::plain_end(value, 0) == value.len() {
        return breaks_taken(value, value, text, owner);
    }
    let n = lexical::strip_lexical(value, out, 0);
    breaks_taken(value, lines::cut(out, 0, n), text, owner)
}

// Writes a line with a value in parentheses in the place of a hit, and returns the place after it.
fn put_wrapped(line: &[u8], w: text::Span, value: &[u8], out: &mut [u8]) -> usize
    requires { length (replaced_at w.from w.to line.now (wrapped_call value.now)) ≤ length out.old }
    ensures { Wrote out.old 0 (replaced_at w.from w.to line.now (wrapped_call value.now)) out.new result }
{
    let from = w.from;
    let to = w.to;
    let p = lines::put(out, 0, lines::cut(line, 0, from));
    let q = lines::put_byte(out, p, b'(');
    let v = lines::put(out, q, value);
    let e = lines::put_byte(out, v, b')');
    lines::put(out, e, lines::cut(line, to, line.len()))
}

// Writes a line with a value in the place of a hit, in parentheses where it needs them, and returns the place after it.
fn put_value(line: &[u8], w: text::Span, value: &[u8], after: bool, out: &mut [u8]) -> usize
    requires { length (replaced_at w.from w.to line.now (paren_if_needed value.now after)) ≤ length out.old }
    ensures { Wrote out.old 0 (replaced_at w.from w.to line.now (paren_if_needed value.now after)) out.new result }
{
    if forms::bare(value, after) {
        return words::put_replaced(line, w, value, out, 0);
    }
    put_wrapped(line, w, value, out)
}

// Writes a line with a value in the place of a register, where the register stands once and not as a target.
fn put_in(line: &[u8], reg: names::Register, value: &[u8], out: &mut [u8]) -> Option<usize>
    requires { length line.now + length value.now + 2 ≤ length out.old }
    ensures { PutAs out.old (put_by (leaves_of plain) (context_of line.now reg.0) line.now reg.0 value.now) out.new result }
{
    match words::find_reg(line, reg) {
        Some(w) => {
            if words::as_target(line, w.to) {
                return None;
            }
            let after = words::after_new(line, w.from);
            let n = put_value(line, w, value, after, out);
            Some(n)
        }
        None => None,
    }
}

// Writes a line with the value of a store above it in the place of the store's register, where the line reads the register once, no line
// below reads it, and no line taken in between writes what the value needs. The store was the line `above`, with k above it.
fn absorb(
    line: &[u8],
    reg: names::Register,
    value: &[u8],
    below: &[u8],
    above: &[u8],
    k: usize,
    notes: &[u32],
    taken: &[u8],
    owner: &[usize],
    out: &mut [u8],
) -> Option<usize>
    requires { (length line.now + length value.now + 2 ≤ length out.old)
        × (Noted reg.0 above.now (get_or notes.now (2 * k) 0) (get_or notes.now (2 * k + 1) 0) (length owner.now + 1) (lines_of below.now)) }
    ensures { PutAs out.old (absorb_step plain line.now reg.0 value.now (lines_of below.now) (lines_of taken.now) owner.now) out.new result }
{
    let u = reading::use_of(line, reg);
    if u.reads != 1 {
        return None;
    }
    if is_read(below, reg, above, k, owner.len() + 1, notes) {
        return None;
    }
    if breaks_above(value, taken, owner, out) {
        return None;
    }
    put_in(line, reg, value, out)
}

// Whether the line that a dropped line k went into has gone into line n itself.
fn is_ours(owner: &[usize], k: usize, n: usize) -> bool
    requires { (k + get_or owner.now k 0 < n) × (n ≤ length owner.now) }
    ensures { result ≡ eqb (get_or owner.now (k + get_or owner.now k 0) 0) (n - (k + get_or owner.now k 0)) }
{
    let j = k + owner[k];
    owner[j] == n - j
}

// Whether region, block and start of statement let line k go into line n.
fn may_go(over: bool, blocks: &[usize], starts: &[u8], k: usize, n: usize) -> bool
    requires { (k < length blocks.now) × ((n < length blocks.now) × (k < length starts.now)) }
    ensures { result ≡ not over && (eqb (get_or blocks.now k 0) (get_or blocks.now n 0) && eqb (get_or starts.now k 0) 1) }
{
    if over {
        return false;
    }
    if blocks[k] != blocks[n] {
        return false;
    }
    starts[k] == 1
}

// Where a walk ends: how many bytes of the stack still stand, and how long the line is that it made.
#[derive(Clone, Copy)]
struct Peak {
    height: usize,
    size: usize,
}

// Walks up from line n, which begins at i and stands at the front of `cur`: at most 64 lines, each a store whose value goes into it, or a
// line that went into one of these before. `owner` gets the lines that go, and the others stand on the stack below `height`.
fn walk_up(
    text: &[u8],
    i: usize,
    below: usize,
    n: usize,
    blocks: &[usize],
    starts: &[u8],
    notes: &[u32],
    owner: &mut [usize],
    stack: &[u8],
    o: usize,
    top: bool,
    size: usize,
    cur: &mut [u8],
    next: &mut [u8],
) -> Peak
    requires { (Keeps text.now n (rows_at text.now blocks.now starts.now n) owner.old stack.now o)
        × ((Stands text.now n i below)
        × ((Placed text.now blocks.now starts.now)
        × ((Foot text.now n top cur.old size)
        × ((o + size ≤ length cur.old) × ((o + size ≤ length next.old) × (Spans text.now notes.now)))))) }
    ensures { Peaked text.now blocks.now starts.now n owner.old owner.new stack.now cur.new result.height result.size (o + size) }
{
    let mut k = n;
    let mut p = i;
    let mut h = o;
    let mut c = size;
    let mut over = top;
    let mut steps: usize = 0;
    // Kept: places in the text and on the stack move up with the rows, and it stops where a value stays.
    while (0 < k) & (steps < 64) {
        steps += 1;
        let q = lines::line_start(text, p - 1);
        if owner[k - 1] != 0 {
            if !is_ours(owner, k - 1, n) {
                break;
            }
            over = over | place::is_header(lines::cut(text, q, p - 1));
            p = q;
            k -= 1;
        } else {
            let b = lines::line_start(stack, h - 1);
            let x = lines::cut(stack, b, h - 1);
            let read = parse::parse(x);
            let parse::Line::Store(s) = read else { break };
            if !may_go(over, blocks, starts, k - 1, n) {
                break;
            }
            let v = parse::value_of(x, s);
            let line = lines::cut(cur, 0, c);
            let under = lines::cut(text, below, text.len());
            let above = lines::cut(text, q, p - 1);
            let taken = lines::cut(text, p, i);
            let made = absorb(
                line,
                s.reg,
                v,
                under,
                above,
                k - 1,
                notes,
                taken,
                &owner[k..n],
                next,
            );
            let Some(m) = made else { break };
            c = lines::put(cur, 0, lines::cut(next, 0, m));
            owner[k - 1] = n - k + 1;
            over = over | place::is_header(above);
            h = b;
            p = q;
            k -= 1;
        }
    }
    Peak { height: h, size: c }
}

// Puts line n, which stands from i up to e, on the stack, with the values of the stores above that go into it.
fn turn_line(
    text: &[u8],
    i: usize,
    e: usize,
    n: usize,
    blocks: &[usize],
    starts: &[u8],
    notes: &[u32],
    owner: &mut [usize],
    stack: &mut [u8],
    o: usize,
    cur: &mut [u8],
    next: &mut [u8],
) -> usize
    requires { (Ready text.now n i e blocks.now starts.now owner.old stack.old o cur.old next.old) × (Spans text.now notes.now) }
    ensures { TurnedLine text.now blocks.now starts.now n owner.old owner.new stack.new o result }
{
    owner[n] = 0;
    if !takes(&text[i..e], starts[n] == 1) {
        return lines::put_line(stack, o, &text[i..e]);
    }
    let size = lines::put(cur, 0, &text[i..e]);
    let top = place::is_header(&text[i..e]);
    let f = lines::after(text, e);
    let w = walk_up(
        text, i, f, n, blocks, starts, notes, owner, stack, o, top, size, cur, next,
    );
    let h = w.height;
    let m = w.size;
    lines::put_line(stack, h, lines::cut(cur, 0, m))
}

// Puts what becomes of the `m` lines on the stack, by their records in a lent window, and returns its height.
fn rebuild_lines(
    text: &[u8],
    ends: &[usize],
    m: usize,
    blocks: &[usize],
    starts: &[u8],
    notes: &[u32],
    owner: &mut [usize],
    stack: &mut [u8],
    cur: &mut [u8],
    next: &mut [u8],
    recs: &mut [records::LineRec],
) -> usize
    requires { (0 < length recs.old) × ((Placed text.now blocks.now starts.now)
        × ((length (lines_of text.now) ≤ length owner.old) × ((length (unlines (lines_of text.now)) ≤ length stack.old)
        × ((length text.now ≤ length cur.old) × ((length text.now ≤ length next.old) × ((Told text.now ends.now blocks.now m) × (Spans text.now notes.now))))))) }
    ensures { Rebuilt text.now blocks.now starts.now owner.old owner.new stack.new result }
{
    let mut past = 0;
    let mut o = 0;
    for n in 0..m {
        past = records::refill(ends, blocks, m, n, past, recs);
        let rec = records::get(recs, n + recs.len() - past);
        o = turn_line(
            text, rec.start, rec.end, n, blocks, starts, notes, owner, stack, o, cur, next,
        );
    }
    o
}

// The same with a window of its own.
fn rebuild_window(
    text: &[u8],
    ends: &[usize],
    m: usize,
    blocks: &[usize],
    starts: &[u8],
    notes: &[u32],
    owner: &mut [usize],
    stack: &mut [u8],
    cur: &mut [u8],
    next: &mut [u8],
) -> usize
    requires { (Placed text.now blocks.now starts.now)
        × ((length (lines_of text.now) ≤ length owner.old) × ((length (unlines (lines_of text.now)) ≤ length stack.old)
        × ((length text.now ≤ length cur.old) × ((length text.now ≤ length next.old) × ((Told text.now ends.now blocks.now m) × (Spans text.now notes.now)))))) }
    ensures { Rebuilt text.now blocks.now starts.now owner.old owner.new stack.new result }
{
    let mut recs = records::window();
    rebuild_lines(
        text, ends, m, blocks, starts, notes, owner, stack, cur, next, &mut recs,
    )
}

// Writes what becomes of all lines, with a stack and two more buffers that are wiped at the end.
fn rebuild_with(
    text: &[u8],
    ends: &[usize],
    m: usize,
    blocks: &[usize],
    starts: &[u8],
    notes: &[u32],
    owner: &mut [usize],
    stack: &mut [u8],
    cur: &mut [u8],
    next: &mut [u8],
    out: &mut [u8],
) -> usize
    requires { ((Placed text.now blocks.now starts.now)
        × ((length (lines_of text.now) ≤ length owner.old) × ((length (unlines (lines_of text.now)) ≤ length stack.old)
        × ((length text.now ≤ length cur.old) × ((length text.now ≤ length next.old)
        × (length (unlines (rebuild_calls (tabled blocks.now starts.now) (lines_of text.now))) ≤ length out.old))))))
        × ((Told text.now ends.now blocks.now m) × (Spans text.now notes.now)) }
    ensures answer { Wrote out.old 0 (unlines (rebuild_calls (tabled blocks.now starts.now) (lines_of text.now))) out.new result }
    ensures owners { Filled owner.old (owners_of (rebuild_calls_acts (tabled blocks.now starts.now) (lines_of text.now))) owner.new (length (lines_of text.now)) }
    ensures scratch { (stack.new ≡ replicate (length stack.old) 0)
        × ((cur.new ≡ replicate (length cur.old) 0) × (next.new ≡ replicate (length next.old) 0)) }
{
    let o = rebuild_window(
        text, ends, m, blocks, starts, notes, owner, stack, cur, next,
    );
    let r = lines::put(out, 0, lines::cut(stack, 0, o));
    lines::wipe(stack, stack.len());
    lines::wipe(cur, cur.len());
    lines::wipe(next, next.len());
    r
}

// How many bytes a text has, with the LF that its last line may lack.
fn whole_size(text: &[u8]) -> usize
    ensures { result ≡ length (unlines (lines_of text.now)) }
{
    let n = text.len();
    if lines::ends_lf(text) {
        return n;
    }
    if n == 0 {
        return n;
    }
    n + 1
}

// The values of stores go back into the call that follows them. Each line is followed by one LF; `owner` gets for each line how far below it
// the line stands that took it in, or 0, `ends`, `blocks`, `starts` and `up` are left as `place::place_lines` fills them, and the front of the
// three buffers before `out` is wiped.
pub fn rebuild_calls(
    mode: reading::Mode,
    text: &[u8],
    own: &[usize],
    ends: &mut [usize],
    owner: &mut [usize],
    blocks: &mut [usize],
    starts: &mut [u8],
    up: &mut [u32],
    near: &mut [u32],
    stores: &mut [u32],
    notes: &mut [u32],
    stack: &mut [u8],
    cur: &mut [u8],
    next: &mut [u8],
    out: &mut [u8],
) -> usize
    requires { ((length (lines_of text.now) ≤ length owner.old) × ((length (lines_of text.now) ≤ length blocks.old) × (length (lines_of text.now) ≤ length starts.old)))
        × (((length (ids_parents (rests_in (joined_at mode.0) (lines_of text.now))) ≤ length up.old) × (length up.old < 2 ^ 32))
        × (((length (unlines (lines_of text.now)) ≤ length stack.old) × ((length text.now ≤ length cur.old) × (length text.now ≤ length next.old)))
        × ((length (unlines (rebuild_calls (leaves_of (reading_of mode.0)) (lines_of text.now))) ≤ length out.old) × (length (lines_of text.now) ≤ length ends.old)))) }
    ensures answer { Wrote out.old 0 (unlines (rebuild_calls (leaves_of (reading_of mode.0)) (lines_of text.now))) out.new result }
    ensures owners { Filled owner.old (owners_of (rebuild_calls_acts (leaves_of (reading_of mode.0)) (lines_of text.now))) owner.new (length (lines_of text.now)) }
    ensures tables { (Filled blocks.old (block_ids (rests_in (joined_at mode.0) (lines_of text.now))) blocks.new (length (lines_of text.now)))
        × ((Filled starts.old (flags_of (starts_go (cleaned (rests_in (joined_at mode.0) (lines_of text.now))) true)) starts.new (length (lines_of text.now)))
        × (Filled up.old (ids_parents (rests_in (joined_at mode.0) (lines_of text.now))) up.new (length (ids_parents (rests_in (joined_at mode.0) (lines_of text.now)))))) }
    ensures scratch { (Wrote stack.old 0 (replicate (length (unlines (lines_of text.now))) 0) stack.new (length (unlines (lines_of text.now))))
        × ((Wrote cur.old 0 (replicate (length text.now) 0) cur.new (length text.now))
        × (Wrote next.old 0 (replicate (length text.now) 0) next.new (length text.now))) }
    ensures notes { (near.new ≡ replicate (length near.old) 0)
        × ((stores.new ≡ replicate (length stores.old) 0) × (notes.new ≡ replicate (length notes.old) 0)) }
    ensures ends { Filled ends.old (end_marks 0 (lines_of text.now)) ends.new (length (lines_of text.now)) }
{
    let m = text.len();
    let h = whole_size(text);
    let n = place::place_lines(text, reading::is_joined(mode), blocks, starts, up, ends);
    let f = later::note_lines(text, ends, n, own, near, stores, notes);
    let r = rebuild_with(
        text,
        ends,
        n,
        blocks,
        starts,
        &notes[..f],
        owner,
        &mut stack[..h],
        &mut cur[..m],
        &mut next[..m],
        out,
    );
    lines::wipe_numbers(notes);
    r
}
