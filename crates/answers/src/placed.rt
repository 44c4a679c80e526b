// Answers of the functions on places: regions, blocks, block paths, loops and starts of statements.
use crate::say::{nothing, say, say_byte, say_four};

// The region of each line.
fn regions(a: &[u8], out: &mut [u8]) -> usize {
    let mut p = 0;
    let mut r = place::Region(0);
    for line in lines::each::each(a) {
        r = place::next_region(r, line.bytes);
        p = say_four(out, p, r.0);
    }
    p
}

// The entry at a place, or 0 past the end.
fn entry(table: &[usize], k: usize) -> usize {
    table.get(k).copied().unwrap_or(0)
}

// The place of the first entry that is equal to that at `k`.
fn first_equal(table: &[usize], k: usize) -> usize {
    for i in 0..k {
        if entry(table, i) == entry(table, k) {
            return i;
        }
    }
    k
}

// The first `n` entries, or for each of them the place of the first that is equal to it.
fn say_entries(table: &[usize], n: usize, equal: bool, out: &mut [u8]) -> usize {
    if table.len() < n {
        return nothing();
    }
    let mut p = 0;
    for k in 0..n {
        let v = if equal {
            first_equal(table, k)
        } else {
            entry(table, k)
        };
        p = say_four(out, p, v);
    }
    p
}

// Fills tables with the block of each line and whether it may begin a statement, where they are large enough.
fn place_lines(a: &[u8], blocks: &mut [usize], starts: &mut [u8], up: &mut [u32]) -> usize {
    let mut ends = [0usize; 4096];
    let n = lines::count_lines(a);
    if 4096 < n {
        return nothing();
    }
    if blocks.len() < n {
        return nothing();
    }
    if starts.len() < n {
        return nothing();
    }
    if up.len() < lines::count_byte(a, b'{') {
        return nothing();
    }
    if 4294967295 < up.len() {
        return nothing();
    }
    place::place_lines(a, false, blocks, starts, up, &mut ends)
}

// The block of each line.
fn block_ids(a: &[u8], out: &mut [u8]) -> usize {
    let mut blocks = [0usize; 4096];
    let mut starts = [0u8; 4096];
    let mut up = [0u32; 4096];
    let n = place_lines(a, &mut blocks, &mut starts, &mut up);
    say_entries(&blocks, n, false, out)
}

// Fills a table with the innermost block of each line's path, where it is large enough.
fn path_lines(a: &[u8], table: &mut [usize], up: &mut [u32]) -> usize {
    if table.len() < lines::count_lines(a) {
        return nothing();
    }
    if up.len() < lines::count_byte(a, b'{') {
        return nothing();
    }
    if 4294967295 < up.len() {
        return nothing();
    }
    let mut ends = [0usize; 1];
    let x = place::block_paths(a, table, up, &mut ends);
    x.rows
}

// For each line the first line with an equal path.
fn block_paths(a: &[u8], out: &mut [u8]) -> usize {
    let mut table = [0usize; 4096];
    let mut up = [0u32; 4096];
    let n = path_lines(a, &mut table, &mut up);
    say_entries(&table, n, true, out)
}

// For each line whether it stands in the body of a loop.
fn inside_loop(a: &[u8], out: &mut [u8]) -> usize {
    if out.len() < lines::count_lines(a) {
        return nothing();
    }
    place::inside_loop(a, out)
}

// Copies lines and puts an empty one after them.
fn one_more(a: &[u8], more: &mut [u8]) -> usize {
    let o = say(more, 0, a);
    if a.is_empty() || lines::ends_lf(a) {
        return say_byte(more, o, 10);
    }
    let p = say_byte(more, o, 10);
    say_byte(more, p, 10)
}

// Whether a statement may begin at the line `number`, or after all lines.
fn starts_statement(a: &[u8], number: usize, out: &mut [u8]) -> usize {
    let mut more = input::host::large_buffer();
    let mut blocks = [0usize; 4096];
    let mut starts = [0u8; 4096];
    let mut up = [0u32; 4096];
    let m = one_more(a, &mut more);
    if more.len() < m {
        return nothing();
    }
    let n = place_lines(lines::cut(&more, 0, m), &mut blocks, &mut starts, &mut up);
    if starts.len() < n {
        return nothing();
    }
    say_byte(out, 0, lines::byte_at(&starts, number))
}

// The answer of a function on places.
pub fn answer(function: u8, number: u64, a: &[u8], out: &mut [u8]) -> usize {
    match function {
        25 => regions(a, out),
        26 => block_ids(a, out),
        27 => block_paths(a, out),
        28 => inside_loop(a, out),
        29 => starts_statement(a, number as usize, out),
        _ => nothing(),
    }
}
