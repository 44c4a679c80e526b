// prune_decls: declarations keep the registers that their region reads or stores.
#![tactic(auto)]

pub mod print;
mod seen;

ghost use Rattle.std.specs.Prelude.{◌≡◌, true, false, cond, [], ◌∷◌, ◌++◌, ◌≤◌, ◌<◌, ◌+◌, ◌-◌, ◌^◌, ltb, length, drop, replicate};
ghost use Rattle.lines.specs.Lf.{part, up_to, lines_of, parts_of, unlines};
ghost use Rattle.lines.specs.Inner.Out.{Wrote};
ghost use Rattle.text.specs.Trim.{trim_of};
ghost use Rattle.names.specs.Names.{reg_of};
ghost use Rattle.parse.specs.Parse.{is_decl};
ghost use Rattle.place.specs.Region.{region};
ghost use Rattle.place.specs.Inner.Region.{region_len};
ghost use Rattle.origins.specs.Inner.Codes.{moves_of, note_of};
ghost use Rattle.decls.specs.Decls.{prune_decls_acts, prune_decls};
ghost use Rattle.decls.specs.Inner.Decls.{stays, line_text};
ghost use Rattle.decls.specs.Inner.Print.{kept, decl_text};
ghost use Rattle.decls.specs.Inner.Seen.{AtMost, Says, seen_stays, mark_lines};

// Whether a text names a register that some line of the region reads or stores, as the table of registers says.
pub fn stays_in(region: &[u8], own: &[usize], m: usize, seen: &[usize], t: &[u8]) -> bool
    ensures { result ≡ seen_stays own.now m seen.now (lines_of region.now) (reg_of t.now) }
{
    match names::reg_name(t) {
        Some(q) => seen::used_in(region, own, m, seen, q),
        None => false,
    }
}

// The last mark of the table of registers, and where the region ends that has it.
#[derive(Clone, Copy)]
pub struct Region {
    pub mark: usize,
    pub end: usize,
}

// Marks the registers that the region uses that begins at `a`, where that is not done yet: its mark is one more than `a`. `m` is the last mark, and `b` where that region ends.
pub fn mark_uses(
    text: &[u8],
    own: &[usize],
    a: usize,
    b: usize,
    m: usize,
    seen: &mut [usize],
) -> Region
    requires { a < 2 ^ 64 - 1 }
    ensures answer { (result.mark ≡ cond (ltb a m) m (a + 1)) × (result.end ≡ cond (ltb a m) b (a + region_len (drop a text.now))) }
    ensures memory { seen.new ≡ cond (ltb a m) seen.old (mark_lines own.now (a + 1) (region (lines_of (drop a text.now))) seen.old) }
{
    let n = text.len();
    let k = seen::mark_once(text, own, a, b, m, n, n, seen);
    Region {
        mark: k.mark,
        end: k.end,
    }
}

// Writes a declaration anew, with its LF; nothing where no name stays.
fn put_decl(
    body: &[u8],
    indent: &[u8],
    region: &[u8],
    own: &[usize],
    m: usize,
    seen: &[usize],
    out: &mut [u8],
    o: usize,
) -> usize
    requires { (Says own.now m (lines_of region.now) seen.now)
        × (o + length (decl_text indent.now (kept (stays (lines_of region.now)) 1 (parts_of 44 body.now)) false) ≤ length out.old) }
    ensures { Wrote out.old o (decl_text indent.now (kept (stays (lines_of region.now)) 1 (parts_of 44 body.now)) false) out.new result }
{
    let mut p = o;
    for piece in lines::pieces(body, b',') {
        let t = text::trim(piece);
        let s = stays_in(region, own, m, seen, t);
        p = print::put_part(indent, o < p, s, t, 1, out, p);
    }
    print::put_end(o < p, out, p)
}

// Writes what a declaration of a region becomes.
fn put_line(
    line: &[u8],
    region: &[u8],
    own: &[usize],
    m: usize,
    seen: &[usize],
    out: &mut [u8],
    o: usize,
) -> usize
    requires { (is_decl (trim_of line.now) ≡ true) × ((Says own.now m (lines_of region.now) seen.now)
        × (o + length (line_text (lines_of region.now) line.now) ≤ length out.old)) }
    ensures { Wrote out.old o (line_text (lines_of region.now) line.now) out.new result }
{
    let t = text::trim(line);
    let a = text::trim_from(line);
    put_decl(
        &t[4..t.len() - 1],
        lines::cut(line, 0, a),
        region,
        own,
        m,
        seen,
        out,
        o,
    )
}

// Notes that the lines of `held` stay, and after them whether a declaration is gone: where nothing was written of it, from `o` up to `p`.
fn note_decl(held: &[u8], moves: &mut [usize], k: usize, o: usize, p: usize) -> usize
    requires { k + length (lines_of held.now) < length moves.old }
    ensures { Wrote moves.old k (replicate (length (lines_of held.now)) 0 ++ (note_of o p ∷ [])) moves.new result }
{
    let n = origins::stay_lines(held, moves, k);
    origins::note(moves, n, o, p)
}

// The same as prune_decls, with a table of registers that holds no mark. The lines from `c` on stay as they are, and are yet to be written.
fn prune_with(
    text: &[u8],
    own: &[usize],
    seen: &mut [usize],
    out: &mut [u8],
    moves: &mut [usize],
) -> usize
    requires { (AtMost 0 seen.old) × ((length (unlines (prune_decls (lines_of text.now))) ≤ length out.old) × (length (lines_of text.now) ≤ length moves.old)) }
    ensures answer { Wrote out.old 0 (unlines (prune_decls (lines_of text.now))) out.new result }
    ensures moves { Wrote moves.old 0 (moves_of (prune_decls_acts (lines_of text.now))) moves.new (length (lines_of text.now)) }
{
    let mut a = 0;
    let mut b = 0;
    let mut m = 0;
    let mut c = 0;
    let mut i = 0;
    let mut o = 0;
    let mut row = 0;
    // Kept: below a declaration the place goes over the lines that are known to be none.
    while i < text.len() {
        let e = lines::find_byte(text, i, 10);
        let line = &text[i..e];
        if place::is_header(line) {
            a = i;
        }
        if parse::declares(line) {
            let n = lines::after(text, e);
            let k = seen::mark_once(text, own, a, b, m, i, n, seen);
            m = k.mark;
            b = k.end;
            let held = &text[c..i];
            let p = lines::put(out, o, held);
            o = put_line(line, &text[a..b], own, m, seen, out, p);
            row = note_decl(held, moves, row, p, o);
            c = n;
            i = k.next;
        } else {
            i = lines::after(text, e);
        }
    }
    let rest = &text[c..];
    origins::stay_lines(rest, moves, row);
    lines::put_lines(rest, out, o)
}

// Writes the lines of a text without the declared registers that their region neither reads nor stores. `own` has the owners of places in the table of
// registers, which is 0 afterwards; `moves` gets the move of each line.
pub fn prune_decls(
    text: &[u8],
    own: &[usize],
    seen: &mut [usize],
    out: &mut [u8],
    moves: &mut [usize],
) -> usize
    requires { (length (unlines (prune_decls (lines_of text.now))) ≤ length out.old) × (length (lines_of text.now) ≤ length moves.old) }
    ensures answer { Wrote out.old 0 (unlines (prune_decls (lines_of text.now))) out.new result }
    ensures memory { seen.new ≡ replicate (length seen.old) 0 }
    ensures moves { Wrote moves.old 0 (moves_of (prune_decls_acts (lines_of text.now))) moves.new (length (lines_of text.now)) }
{
    slots::wipe(seen);
    let n = prune_with(text, own, seen, out, moves);
    slots::wipe(seen);
    n
}
