// Answers of the two engines that find the lines that `optimize_once` drops: a byte a line, whether it goes.
use crate::say::nothing;

// Room for lines, and for blocks.
pub const ROWS: usize = 4096;

// The other tables are as large as the entries lend them.
const NOTED: usize = 1024;

const LOW: usize = 1024;

const OWNERS: usize = 1024;

const PLACES: usize = LOW + OWNERS;

// By the plain engine.
fn plain_drops(mode: usize, a: &[u8], out: &mut [u8]) -> usize {
    let mut space = input::host::large_buffer();
    let scratch: &mut [u8] = &mut space;
    if scratch.len() < a.len() {
        return nothing();
    }
    let n = lines::count_lines(a);
    if ROWS < n {
        return nothing();
    }
    if out.len() < n {
        return nothing();
    }
    if ROWS < lines::count_byte(a, b'{') {
        return nothing();
    }
    let mut loops = [0u8; ROWS];
    let mut paths = [0usize; ROWS];
    let mut up = [0u32; ROWS];
    engines::plain_drops(
        reading::Mode(mode),
        a,
        scratch,
        &mut loops,
        &mut paths,
        &mut up,
        out,
    )
}

// By the sweep.
fn sweep_drops(mode: usize, a: &[u8], out: &mut [u8]) -> usize {
    let mut space = input::host::large_buffer();
    let scratch: &mut [u8] = &mut space;
    if scratch.len() < a.len() {
        return nothing();
    }
    let n = lines::count_lines(a);
    if ROWS < n {
        return nothing();
    }
    if out.len() < n {
        return nothing();
    }
    if ROWS < lines::count_byte(a, b'{') {
        return nothing();
    }
    let mut own = [0usize; OWNERS];
    slots::gather::gather(a, LOW, &mut own);
    let mut loops = [0u8; ROWS];
    let mut paths = [0usize; ROWS];
    let mut up = [0u32; ROWS];
    let mut near = [0u32; PLACES];
    let mut far = [0u32; PLACES];
    let mut stores = [0u32; PLACES];
    let mut notes = [0u8; NOTED];
    let mut ends = [0usize; NOTED];
    engines::sweep_drops(
        reading::Mode(mode),
        a,
        &own,
        scratch,
        &mut loops,
        &mut paths,
        &mut up,
        &mut near,
        &mut far,
        &mut stores,
        &mut notes,
        &mut ends,
        out,
    )
}

// The answer of an engine; the number is the mode.
pub fn answer(function: u8, number: u64, a: &[u8], out: &mut [u8]) -> usize {
    match function {
        38 => plain_drops(number as usize, a, out),
        39 => sweep_drops(number as usize, a, out),
        _ => nothing(),
    }
}
