// Answers of the passes, over lines that are each followed by an LF.
use crate::dropped::ROWS;
use crate::say::nothing;

// The tables are small, so that few texts do without numbers that are not low, and some have more of them than there are places.
const LOW: usize = 12;

const OWNERS: usize = 8;

const PLACES: usize = LOW + OWNERS;

// The first pass.
fn prune_dead_temps(a: &[u8], out: &mut [u8]) -> usize {
    let mut space = input::host::large_buffer();
    let scratch: &mut [u8] = &mut space;
    if scratch.len() < a.len() {
        return nothing();
    }
    if out.len() / 2 <= a.len() {
        return nothing();
    }
    if ROWS < lines::count_lines(a) {
        return nothing();
    }
    let mut own = [0usize; OWNERS];
    let mut declared = [0u8; PLACES];
    let mut read = [0u8; PLACES];
    let mut moves = [0usize; ROWS];
    temps::prune_dead_temps(
        reading::Mode(0),
        a,
        &mut own,
        &mut declared,
        &mut read,
        scratch,
        out,
        &mut moves,
    )
}

// The fifth.
fn prune_decls(a: &[u8], out: &mut [u8]) -> usize {
    if out.len() / 2 <= a.len() {
        return nothing();
    }
    if ROWS < lines::count_lines(a) {
        return nothing();
    }
    let mut own = [0usize; OWNERS];
    slots::gather::gather(a, LOW, &mut own);
    let mut seen = [0usize; PLACES];
    let mut moves = [0usize; ROWS];
    decls::prune_decls(a, &own, &mut seen, out, &mut moves)
}

// The answer of a pass, 41 for the first.
pub fn answer(function: u8, a: &[u8], out: &mut [u8]) -> usize {
    match function {
        41 => prune_dead_temps(a, out),
        45 => prune_decls(a, out),
        _ => nothing(),
    }
}
