// Two ways to find the lines that `optimize_once` drops. The plain engine: from each store the lines below are read, down to the end of its region,
// until one reads or stores the register; then it is decided. docs/RULES.md goes through a listing with it. The sweep, from the last line up, is the one
// that the pass itself makes.
#![tactic(auto)]

ghost use Rattle.std.specs.Prelude.{◌≡◌, ◌≤◌, ◌<◌, ◌^◌, length, take, replicate};
ghost use Rattle.lines.specs.Inner.Out.{Wrote};
ghost use Rattle.lines.specs.Lf.{lines_of};
ghost use Rattle.reading.specs.Reading.{reading_of};
ghost use Rattle.place.specs.Inner.Fill.{Filled, flags_of};
ghost use Rattle.place.specs.Loops.{inside_loop};
ghost use Rattle.place.specs.Paths.{block_paths, tops};
ghost use Rattle.place.specs.Inner.Parents.{path_parents};
ghost use Rattle.once.specs.Inner.Tables.{Zeroed, store_drops, line_drops};
ghost use Rattle.engines.specs.Engines.{plain_engine, sweep_engine};
ghost use Rattle.engines.specs.Inner.Flags.{drops_in, goes_in};

// ---- the plain engine

// Whether a store of a register with the value x goes: it is a load for a call, or it stands outside loops, its value does not read the register and
// is pure, and nothing below wants it. Its block path is p; `below` are the lines below, and `paths` has their block paths.
fn store_goes(
    mode: reading::Mode,
    x: &[u8],
    reg: names::Register,
    p: usize,
    in_loop: bool,
    below: &[u8],
    paths: &[usize],
    scratch: &mut [u8],
) -> bool
    requires { Zeroed (length x.now) scratch.old }
    ensures answer { result ≡ store_drops (reading_of mode.0) reg.0 x.now p in_loop (lines_of below.now) paths.now }
    ensures memory { scratch.new ≡ scratch.old }
{
    if once::below::is_scratch(x, reg, below) {
        return true;
    }
    if in_loop {
        return false;
    }
    if words::count_reg(x, reg) != 0 {
        return false;
    }
    if !once::pure_value(mode, x, scratch) {
        return false;
    }
    once::below::dead_below(below, paths, p, reg)
}

// Whether a line goes: no declaration and no other line does, a store may.
fn line_goes(
    mode: reading::Mode,
    line: &[u8],
    p: usize,
    in_loop: bool,
    below: &[u8],
    paths: &[usize],
    scratch: &mut [u8],
) -> bool
    requires { Zeroed (length line.now) scratch.old }
    ensures answer { result ≡ line_drops (reading_of mode.0) line.now p in_loop (lines_of below.now) paths.now }
    ensures memory { scratch.new ≡ scratch.old }
{
    match parse::parse(line) {
        parse::Line::Decl => false,
        parse::Line::Store(s) => {
            let x = parse::value_of(line, s);
            store_goes(mode, x, s.reg, p, in_loop, below, paths, scratch)
        }
        parse::Line::Other => false,
    }
}

// Writes for each line whether it goes; `paths` has the block paths of the lines, and `loops` whether each stands in a loop.
fn flag_lines(
    mode: reading::Mode,
    text: &[u8],
    paths: &[usize],
    loops: &[u8],
    scratch: &mut [u8],
    flags: &mut [u8],
) -> usize
    requires { (Zeroed (length text.now) scratch.old)
        × ((length (lines_of text.now) ≤ length flags.old)
        × ((length (lines_of text.now) ≤ length paths.now) × (length (lines_of text.now) ≤ length loops.now))) }
    ensures answer { Filled flags.old (flags_of (drops_in (reading_of mode.0) (lines_of text.now) paths.now loops.now)) flags.new result }
    ensures memory { scratch.new ≡ scratch.old }
{
    let mut k = 0;
    for line in lines::each::each(text) {
        let below = lines::after(text, line.to);
        let goes = line_goes(
            mode,
            line.bytes,
            paths[k],
            loops[k] != 0,
            &text[below..],
            &paths[k + 1..],
            scratch,
        );
        flags[k] = place::flag(goes);
        k += 1;
    }
    k
}

// Writes for each line whether `optimize_once` drops it, and returns how many lines there are: the plain way. First `paths` and `up` get the block
// paths of the lines, and `loops` whether each stands in a loop; where lines end is not asked for. `scratch` is zeros afterwards, as far as the text
// is long.
pub fn plain_drops(
    mode: reading::Mode,
    text: &[u8],
    scratch: &mut [u8],
    loops: &mut [u8],
    paths: &mut [usize],
    up: &mut [u32],
    flags: &mut [u8],
) -> usize
    requires { (length (lines_of text.now) ≤ length loops.old)
        × ((length (lines_of text.now) ≤ length flags.old)
        × ((length (lines_of text.now) ≤ length paths.old)
        × ((length (path_parents (lines_of text.now)) ≤ length up.old)
        × ((length up.old < 2 ^ 32) × (length text.now ≤ length scratch.old))))) }
    ensures answer { Filled flags.old (flags_of (plain_engine (reading_of mode.0) (lines_of text.now))) flags.new result }
    ensures memory { (Wrote scratch.old 0 (replicate (length text.now) 0) scratch.new (length text.now))
        × ((Filled loops.old (flags_of (inside_loop (lines_of text.now))) loops.new (length (flags_of (inside_loop (lines_of text.now)))))
        × ((Filled paths.old (tops (block_paths (lines_of text.now))) paths.new (length (tops (block_paths (lines_of text.now)))))
        × (Filled up.old (path_parents (lines_of text.now)) up.new (length (path_parents (lines_of text.now)))))) }
{
    lines::wipe(scratch, text.len());
    let mut ends = [0usize; 1];
    let x = place::block_paths(text, paths, up, &mut ends);
    let k = x.rows;
    let n = place::inside_loop(text, loops);
    flag_lines(mode, text, &paths[0..k], &loops[0..n], scratch, flags)
}

// ---- the sweep

// Turns the first n marks into whether each line goes.
fn keep_goes(marks: &mut [u8], n: usize)
    requires { n ≤ length marks.old }
    ensures { Filled marks.old (flags_of (goes_in (take n marks.old))) marks.new n }
{
    for k in 0..n {
        marks[k] = place::flag(marks[k] == once::MARK_GOES);
    }
}

// Writes for each line whether `optimize_once` drops it, and returns how many lines there are: the sweep that the pass itself makes, from the last
// line up. `own` has the owners of places in the tables over registers: `near`, `far` and `stores`, of one length. These, `notes` and `ends`, of
// one entry a line as far as they reach, are zeros afterwards.
pub fn sweep_drops(
    mode: reading::Mode,
    text: &[u8],
    own: &[usize],
    scratch: &mut [u8],
    loops: &mut [u8],
    paths: &mut [usize],
    up: &mut [u32],
    near: &mut [u32],
    far: &mut [u32],
    stores: &mut [u32],
    notes: &mut [u8],
    ends: &mut [usize],
    flags: &mut [u8],
) -> usize
    requires { (length (lines_of text.now) ≤ length loops.old)
        × ((length (lines_of text.now) ≤ length flags.old)
        × ((length (lines_of text.now) ≤ length paths.old)
        × ((length (path_parents (lines_of text.now)) ≤ length up.old)
        × ((length up.old < 2 ^ 32)
        × ((length text.now ≤ length scratch.old) × ((length far.old ≡ length near.old) × (length far.old ≡ length stores.old))))))) }
    ensures answer { Filled flags.old (flags_of (sweep_engine (reading_of mode.0) (lines_of text.now))) flags.new result }
    ensures memory { (Wrote scratch.old 0 (replicate (length text.now) 0) scratch.new (length text.now))
        × ((Filled loops.old (flags_of (inside_loop (lines_of text.now))) loops.new (length (flags_of (inside_loop (lines_of text.now)))))
        × ((Filled paths.old (tops (block_paths (lines_of text.now))) paths.new (length (tops (block_paths (lines_of text.now)))))
        × (Filled up.old (path_parents (lines_of text.now)) up.new (length (path_parents (lines_of text.now)))))) }
    ensures tables { (near.new ≡ replicate (length near.old) 0)
        × ((far.new ≡ replicate (length far.old) 0)
        × ((stores.new ≡ replicate (length stores.old) 0)
        × ((notes.new ≡ replicate (length notes.old) 0) × (ends.new ≡ replicate (length ends.old) 0)))) }
{
    let n = once::decide(
        mode, text, own, scratch, loops, flags, paths, up, near, far, stores, notes, ends,
    );
    slots::wipe(ends);
    keep_goes(flags, n);
    n
}
