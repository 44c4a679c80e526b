// The passes by number: the work buffers and tables are split among the tables and the scratch that each asks for.
#![tactic(auto)]

ghost use Rattle.std.specs.Prelude.{◌≡◌, ◌≤◌, ◌<◌, ◌^◌, length, take, replicate};
ghost use Rattle.lines.specs.Lf.{lines_of, unlines};
ghost use Rattle.lines.specs.Inner.Out.{Wrote};
ghost use Rattle.lines.specs.Acts.{apply};
ghost use Rattle.origins.specs.Inner.Codes.{moves_of, standing};
ghost use Rattle.trails.specs.Inner.Trails.{thinned};
ghost use Rattle.reading.specs.Reading.{reading_of};
ghost use Rattle.temps.specs.Temps.{prune_dead_temps_acts, prune_dead_temps};
ghost use Rattle.once.specs.Once.{once_acts, optimize_once};
ghost use Rattle.phis.specs.Phis.{prune_dead_phis};
ghost use Rattle.phis.specs.Moves.{prune_dead_phis_acts};
ghost use Rattle.decls.specs.Decls.{prune_decls_acts};
ghost use Rattle.calls.specs.LeavesOf.{leaves_of};
ghost use Rattle.calls.specs.Calls.{rebuild_calls_acts, rebuild_calls};
ghost use Rattle.bind.specs.Bind.{bind_declarators_acts, bind_declarators};
ghost use Rattle.limits.specs.Entry.{byte_size, block_size};
ghost use Rattle.steps.specs.Step.{step_of};
ghost use Rattle.steps.specs.Inner.Bounds.{Bounded, Sized, Tabled};
ghost use Rattle.steps.specs.Inner.Left.{left_c, left_d, left_e, left_u, Left, cleared, uses_t, Cleared, Few};
ghost use Rattle.steps.specs.Inner.Few.{few_acts, trailed, idle_in};

use limits::Task;

// Takes a table of raw moves on by the moves of `n` lines, makes the table of moves 0, and returns how many of the lines stand.
fn trace(n: usize, moves: &mut [usize], table: &mut [usize]) -> usize
    requires { n ≤ length moves.old }
    ensures answer { result ≡ standing (take n moves.old) }
    ensures memory { moves.new ≡ replicate (length moves.old) 0 }
    ensures origins { table.new ≡ thinned table.old (take n moves.old) }
{
    let s = origins::count_standing(&moves[..n]);
    if s == n {
        slots::wipe(moves);
        return s;
    }
    trails::carry(&moves[..n], table);
    slots::wipe(moves);
    s
}

// Runs prune_dead_temps: `own` gets the temps whose numbers are not low, the tables what is declared and read, and `moves` the moves of the lines.
fn temps_step(
    m: Task,
    src: &[u8],
    scratch: &mut [u8],
    declared: &mut [u8],
    read: &mut [u8],
    own: &mut [usize],
    dst: &mut [u8],
    moves: &mut [usize],
) -> usize
    requires { Bounded m.limits src.now × ((byte_size m.limits ≤ length scratch.old) × ((byte_size m.limits ≤ length dst.old) × (m.limits.lines ≤ length moves.old))) }
    ensures answer { Wrote dst.old 0 (unlines (prune_dead_temps (reading_of m.mode.0) (lines_of src.now))) dst.new result }
    ensures memory { scratch.new ≡ left_c m.mode.0 1 src.now scratch.old }
    ensures tables { (declared.new ≡ replicate (length declared.old) 0) × ((read.new ≡ replicate (length read.old) 0) × (own.new ≡ replicate (length own.old) 0)) }
    ensures moves { Wrote moves.old 0 (moves_of (prune_dead_temps_acts (reading_of m.mode.0) (lines_of src.now))) moves.new (length (lines_of src.now)) }
{
    temps::prune_dead_temps(m.mode, src, own, declared, read, scratch, dst, moves)
}

// Runs optimize_once, takes the table of raw moves on by its moves, and makes its tables over lines 0.
fn once_step(
    m: Task,
    rows: usize,
    src: &[u8],
    own: &[usize],
    scratch: &mut [u8],
    mid: &mut [u8],
    loops: &mut [u8],
    marks: &mut [u8],
    notes: &mut [u8],
    up: &mut [u32],
    near: &mut [u32],
    far: &mut [u32],
    stores: &mut [u32],
    paths: &mut [usize],
    ends: &mut [usize],
    seen: &mut [usize],
    moves: &mut [usize],
    dst: &mut [u8],
    table: &mut [usize],
) -> usize
    requires { (rows ≡ length (lines_of src.now)) × (Bounded m.limits src.now × (((byte_size m.limits ≤ length scratch.old) × ((byte_size m.limits ≤ length mid.old) × (byte_size m.limits ≤ length dst.old))) × (((block_size m.limits ≤ length up.old) × (length up.old < 2 ^ 32)) × (((m.limits.lines ≤ length loops.old) × ((m.limits.lines ≤ length marks.old) × ((m.limits.lines ≤ length paths.old) × (m.limits.lines ≤ length moves.old)))) × ((length far.old ≡ length near.old) × (length far.old ≡ length stores.old)))))) }
    ensures answer { Wrote dst.old 0 (unlines (optimize_once (reading_of m.mode.0) (lines_of src.now))) dst.new result }
    ensures memory { (scratch.new ≡ left_c m.mode.0 2 src.now scratch.old) × ((mid.new ≡ left_d m.mode.0 2 src.now mid.old) × (up.new ≡ left_u m.mode.0 2 src.now up.old)) }
    ensures tables { (loops.new ≡ replicate (length loops.old) 0) × ((marks.new ≡ replicate (length marks.old) 0) × ((notes.new ≡ replicate (length notes.old) 0) × ((near.new ≡ replicate (length near.old) 0) × ((far.new ≡ replicate (length far.old) 0) × ((stores.new ≡ replicate (length stores.old) 0) × ((paths.new ≡ replicate (length paths.old) 0) × ((ends.new ≡ replicate (length ends.old) 0) × ((seen.new ≡ replicate (length seen.old) 0) × (moves.new ≡ replicate (length moves.old) 0))))))))) }
    ensures origins { table.new ≡ thinned (thinned table.old (moves_of (once_acts (reading_of m.mode.0) (lines_of src.now)))) (moves_of (prune_decls_acts (apply (once_acts (reading_of m.mode.0) (lines_of src.now)) (lines_of src.now)))) }
{
    let n = once::optimize_once(
        m.mode, src, own, scratch, mid, loops, marks, paths, up, near, far, stores, notes, ends,
        seen, dst, moves,
    );
    once::moves_of(&marks[..rows], paths);
    lines::wipe(loops, loops.len());
    lines::wipe(marks, marks.len());
    let s = trace(rows, paths, table);
    trace(s, moves, table);
    n
}

// Runs rebuild_calls, takes the table of raw moves on by its moves, which are its owners, and makes its tables over lines 0.
fn calls_step(
    m: Task,
    rows: usize,
    src: &[u8],
    own: &[usize],
    cur: &mut [u8],
    next: &mut [u8],
    stack: &mut [u8],
    starts: &mut [u8],
    up: &mut [u32],
    near: &mut [u32],
    stores: &mut [u32],
    notes: &mut [u32],
    owner: &mut [usize],
    ends: &mut [usize],
    blocks: &mut [usize],
    dst: &mut [u8],
    table: &mut [usize],
) -> usize
    requires { (rows ≡ length (lines_of src.now)) × (Bounded m.limits src.now × (((byte_size m.limits ≤ length cur.old) × ((byte_size m.limits ≤ length next.old) × ((byte_size m.limits ≤ length stack.old) × (byte_size m.limits ≤ length dst.old)))) × (((block_size m.limits ≤ length up.old) × (length up.old < 2 ^ 32)) × ((m.limits.lines ≤ length starts.old) × ((m.limits.lines ≤ length owner.old) × ((m.limits.lines ≤ length ends.old) × (m.limits.lines ≤ length blocks.old))))))) }
    ensures answer { Wrote dst.old 0 (unlines (rebuild_calls (leaves_of (reading_of m.mode.0)) (lines_of src.now))) dst.new result }
    ensures memory { (cur.new ≡ left_c m.mode.0 4 src.now cur.old) × ((next.new ≡ left_d m.mode.0 4 src.now next.old) × ((stack.new ≡ left_e m.mode.0 4 src.now stack.old) × (up.new ≡ left_u m.mode.0 4 src.now up.old))) }
    ensures tables { (starts.new ≡ replicate (length starts.old) 0) × ((near.new ≡ replicate (length near.old) 0) × ((stores.new ≡ replicate (length stores.old) 0) × ((notes.new ≡ replicate (length notes.old) 0) × ((owner.new ≡ replicate (length owner.old) 0) × ((ends.new ≡ replicate (length ends.old) 0) × (blocks.new ≡ replicate (length blocks.old) 0)))))) }
    ensures origins { table.new ≡ thinned table.old (moves_of (rebuild_calls_acts (leaves_of (reading_of m.mode.0)) (lines_of src.now))) }
{
    let n = calls::rebuild_calls(
        m.mode, src, own, ends, owner, blocks, starts, up, near, stores, notes, stack, cur, next,
        dst,
    );
    trace(rows, owner, table);
    lines::wipe(starts, starts.len());
    slots::wipe(ends);
    slots::wipe(blocks);
    n
}

// Runs bind_declarators, takes the table of raw moves on by its moves, and makes its tables over lines 0.
fn bind_step(
    m: Task,
    rows: usize,
    src: &[u8],
    own: &[usize],
    starts: &mut [u8],
    marks: &mut [u8],
    up: &mut [u32],
    blocks: &mut [usize],
    ends: &mut [usize],
    seen: &mut [usize],
    first: &mut [usize],
    dst: &mut [u8],
    table: &mut [usize],
) -> usize
    requires { (rows ≡ length (lines_of src.now)) × (Bounded m.limits src.now × ((byte_size m.limits ≤ length dst.old) × (((block_size m.limits ≤ length up.old) × (length up.old < 2 ^ 32)) × ((m.limits.lines ≤ length starts.old) × ((m.limits.lines ≤ length marks.old) × ((m.limits.lines ≤ length blocks.old) × (m.limits.lines ≤ length ends.old))))))) }
    ensures answer { Wrote dst.old 0 (unlines (bind_declarators (reading_of m.mode.0) (lines_of src.now))) dst.new result }
    ensures memory { up.new ≡ left_u m.mode.0 6 src.now up.old }
    ensures tables { (starts.new ≡ replicate (length starts.old) 0) × ((marks.new ≡ replicate (length marks.old) 0) × ((blocks.new ≡ replicate (length blocks.old) 0) × ((ends.new ≡ replicate (length ends.old) 0) × ((seen.new ≡ replicate (length seen.old) 0) × (first.new ≡ replicate (length first.old) 0))))) }
    ensures origins { table.new ≡ thinned table.old (moves_of (bind_declarators_acts (reading_of m.mode.0) (lines_of src.now))) }
{
    let n = bind::bind_declarators(
        m.mode, src, own, ends, blocks, starts, up, marks, seen, first, dst,
    );
    bind::moves_of(&marks[..rows], blocks);
    trace(rows, blocks, table);
    lines::wipe(starts, starts.len());
    lines::wipe(marks, marks.len());
    slots::wipe(ends);
    n
}

// Runs prune_dead_phis, with a table of phis: `moves` gets the moves of the lines.
fn phis_step(
    m: Task,
    src: &[u8],
    own: &[usize],
    scratch: &mut [u8],
    first: &mut [u8],
    second: &mut [u8],
    table: &mut [u8],
    dst: &mut [u8],
    moves: &mut [usize],
) -> usize
    requires { Bounded m.limits src.now × ((byte_size m.limits ≤ length scratch.old) × ((byte_size m.limits ≤ length first.old) × ((byte_size m.limits ≤ length second.old) × ((byte_size m.limits ≤ length dst.old) × (m.limits.lines ≤ length moves.old))))) }
    ensures answer { Wrote dst.old 0 (unlines (prune_dead_phis (reading_of m.mode.0) (lines_of src.now))) dst.new result }
    ensures memory { (scratch.new ≡ left_c m.mode.0 3 src.now scratch.old) × ((first.new ≡ left_d m.mode.0 3 src.now first.old) × (second.new ≡ left_e m.mode.0 3 src.now second.old)) }
    ensures tables { table.new ≡ replicate (length table.old) 0 }
    ensures moves { Wrote moves.old 0 (moves_of (prune_dead_phis_acts (reading_of m.mode.0) (lines_of src.now))) moves.new (length (lines_of src.now)) }
{
    phis::prune_dead_phis(m.mode, src, own, table, scratch, first, second, dst, moves)
}

// Runs a pass by its number as `step` does, where it has no blocks: for a number that is none of 2, 4 and 6. `p` gets the moves of the lines.
fn few_step(
    k: usize,
    m: Task,
    src: &[u8],
    own: &[usize],
    dst: &mut [u8],
    c: &mut [u8],
    d: &mut [u8],
    e: &mut [u8],
    f: &mut [u8],
    g: &mut [u8],
    p: &mut [usize],
    q: &mut [usize],
    r: &mut [usize],
) -> usize
    requires { ((k ≡ 2 → ⊥) × ((k ≡ 4 → ⊥) × (k ≡ 6 → ⊥))) × (Bounded m.limits src.now × ((byte_size m.limits ≤ length dst.old) × ((byte_size m.limits ≤ length c.old) × ((byte_size m.limits ≤ length d.old) × ((byte_size m.limits ≤ length e.old) × (m.limits.lines ≤ length p.old)))))) }
    ensures answer { Wrote dst.old 0 (unlines (step_of (reading_of m.mode.0) k (lines_of src.now))) dst.new result }
    ensures memory { Few m.mode.0 k src.now c.old d.old e.old f.old g.old q.old r.old c.new d.new e.new f.new g.new q.new r.new }
    ensures moves { Wrote p.old 0 (moves_of (few_acts (reading_of m.mode.0) k (lines_of src.now))) p.new (length (lines_of src.now)) }
{
    if k == 0 {
        return globals::remove_globals(src, dst, p);
    }
    if k == 1 {
        return temps_step(m, src, c, f, g, q, dst, p);
    }
    if k == 3 {
        return phis_step(m, src, own, c, d, e, f, dst, p);
    }
    if k == 5 {
        return decls::prune_decls(src, own, r, dst, p);
    }
    origins::stay_lines(src, p, 0);
    lines::put_lines(src, dst, 0)
}

// Runs a pass by its number as `step` does, for another number than 6.
fn other_step(
    k: usize,
    m: Task,
    rows: usize,
    src: &[u8],
    own: &[usize],
    dst: &mut [u8],
    c: &mut [u8],
    d: &mut [u8],
    e: &mut [u8],
    f: &mut [u8],
    g: &mut [u8],
    h: &mut [u8],
    u: &mut [u32],
    v: &mut [u32],
    w: &mut [u32],
    x: &mut [u32],
    p: &mut [usize],
    q: &mut [usize],
    r: &mut [usize],
    t: &mut [usize],
    table: &mut [usize],
) -> usize
    requires { (rows ≡ length (lines_of src.now)) × ((k ≡ 6 → ⊥) × (Bounded m.limits src.now × (Sized m.limits dst.old c.old d.old e.old u.old × Tabled m.limits f.old g.old v.old w.old x.old p.old q.old r.old t.old))) }
    ensures answer { Wrote dst.old 0 (unlines (step_of (reading_of m.mode.0) k (lines_of src.now))) dst.new result }
    ensures memory { Left m.mode.0 k src.now c.old d.old e.old u.old c.new d.new e.new u.new }
    ensures tables { Cleared k f.old g.old h.old v.old w.old x.old p.old q.old r.old f.new g.new h.new v.new w.new x.new p.new q.new r.new }
    ensures last { t.new ≡ cleared (uses_t k) t.old }
    ensures origins { table.new ≡ trailed (reading_of m.mode.0) k (lines_of src.now) table.old }
{
    if k == 2 {
        return once_step(
            m, rows, src, own, c, d, f, g, h, u, v, w, x, p, q, r, t, dst, table,
        );
    }
    if k == 4 {
        return calls_step(
            m, rows, src, own, c, d, e, f, u, v, w, x, p, q, r, dst, table,
        );
    }
    let n = few_step(k, m, src, own, dst, c, d, e, f, g, p, q, r);
    trace(rows, p, table);
    n
}

// Whether a pass by its number plainly leaves a text as it is: the removal one without `_`, prune_dead_temps one without a digit after a `t`,
// prune_dead_phis one without `phi`.
pub fn idle(k: usize, src: &[u8]) -> bool
    ensures { result ≡ idle_in k src.now }
{
    if k == 0 {
        return lines::lacks(src, b'_');
    }
    if k == 1 {
        return !temps::has_temp(src);
    }
    if k == 3 {
        return !phis::holds_phi(src);
    }
    false
}

// Runs a pass of a task by its number from one buffer into another, and returns the length of what it wrote: 0 is the removal, and another number than
// 1 to 6 changes nothing. The other buffers are scratch, and `f` to `h`, `v` to `x` and `p` to `t` are tables: those that the pass uses are 0 afterwards.
// `own` has the numbers that are not low, and says where their entries stand. `rows` is how many lines the text has. `table` has the raw moves, and is taken on by those of the pass.
pub fn step(
    k: usize,
    m: Task,
    rows: usize,
    src: &[u8],
    own: &[usize],
    dst: &mut [u8],
    c: &mut [u8],
    d: &mut [u8],
    e: &mut [u8],
    f: &mut [u8],
    g: &mut [u8],
    h: &mut [u8],
    u: &mut [u32],
    v: &mut [u32],
    w: &mut [u32],
    x: &mut [u32],
    p: &mut [usize],
    q: &mut [usize],
    r: &mut [usize],
    t: &mut [usize],
    table: &mut [usize],
) -> usize
    requires { (rows ≡ length (lines_of src.now)) × (Bounded m.limits src.now × (Sized m.limits dst.old c.old d.old e.old u.old × Tabled m.limits f.old g.old v.old w.old x.old p.old q.old r.old t.old)) }
    ensures answer { Wrote dst.old 0 (unlines (step_of (reading_of m.mode.0) k (lines_of src.now))) dst.new result }
    ensures memory { Left m.mode.0 k src.now c.old d.old e.old u.old c.new d.new e.new u.new }
    ensures tables { Cleared k f.old g.old h.old v.old w.old x.old p.old q.old r.old f.new g.new h.new v.new w.new x.new p.new q.new r.new }
    ensures last { t.new ≡ cleared (uses_t k) t.old }
    ensures origins { table.new ≡ trailed (reading_of m.mode.0) k (lines_of src.now) table.old }
{
    if k == 6 {
        return bind_step(m, rows, src, own, f, g, u, p, q, r, t, dst, table);
    }
    other_step(
        k, m, rows, src, own, dst, c, d, e, f, g, h, u, v, w, x, p, q, r, t, table,
    )
}
