// Line records: for each line of a text where it begins and ends, its region and its block, a window of them at a time in one lent slice.
#![tactic(auto)]

ghost use Rattle.std.specs.Prelude.{◌≡◌, cond, ◌+◌, ◌≤◌, ◌<◌, ◌^◌, min, ltb, length, get_or, set, replicate};
ghost use Rattle.records.specs.Inner.Records.{no_rec, last_record, start_below, region_below, rec_by, Above, window_at};

// A line of a text: where it begins and ends, its region and its block. Its parts stand in this order in memory.
#[repr(C)]
#[derive(Clone, Copy)]
pub struct LineRec {
    pub start: usize,
    pub end: usize,
    pub region: place::Region,
    pub block: usize,
}

// The record at a place.
pub fn get(recs: &[LineRec], i: usize) -> LineRec
    requires { i < length recs.now }
    ensures { result ≡ get_or recs.now i no_rec }
{
    recs[i]
}

// Puts a record at a place.
pub fn put(recs: &mut [LineRec], i: usize, rec: LineRec)
    requires { i < length recs.old }
    ensures { recs.new ≡ set recs.old i rec }
{
    recs[i] = rec;
}

// A record of zeros.
pub fn blank() -> LineRec
    ensures { result ≡ no_rec }
{
    LineRec {
        start: 0,
        end: 0,
        region: place::Region(0),
        block: 0,
    }
}

// A window of records of zeros.
pub fn window() -> [LineRec; 64]
    ensures { result ≡ replicate 64 no_rec }
{
    let z = blank();
    [z; 64]
}

// Where a line begins that has `k` above it, the last of them `above`.
fn start_below(k: usize, above: LineRec) -> usize
    requires { start_below k above ≤ 2 ^ 63 }
    ensures { result ≡ start_below k above }
{
    if k == 0 {
        return 0;
    }
    above.end + 1
}

// The region above it.
fn region_below(k: usize, above: LineRec) -> place::Region
    ensures { result.0 ≡ region_below k above }
{
    if k == 0 {
        return place::Region(0);
    }
    above.region
}

// The record of the line with `k` above it, by the tables of ends and of blocks: it begins at `start`, and `above` is the region above it.
fn record_at(
    ends: &[usize],
    blocks: &[usize],
    k: usize,
    start: usize,
    above: place::Region,
) -> LineRec
    requires { (k < length ends.now) × ((k < length blocks.now) × (above.0 ≤ k)) }
    ensures { result ≡ rec_by start above.0 (get_or ends.now k 0) (get_or blocks.now k 0) }
{
    let x = ends[k];
    LineRec {
        start,
        end: x / 2,
        region: place::Region(above.0 + x % 2),
        block: blocks[k],
    }
}

// Fills a window with the records of the lines that have `k` above them or more, of `n` in all. Its last record is that of the line above, where
// there is one.
pub fn fill(ends: &[usize], blocks: &[usize], n: usize, k: usize, recs: &mut [LineRec])
    requires { ((k ≤ n) × ((n ≤ length ends.now) × ((n ≤ length blocks.now) × (0 < length recs.old)))) × (Above k (last_record recs.old)) }
    ensures { recs.new ≡ window_at ends.now blocks.now n k recs.old }
{
    let m = recs.len().min(n - k);
    let above = get(recs, recs.len() - 1);
    let mut i = start_below(k, above);
    let mut c = region_below(k, above);
    for j in 0..m {
        let rec = record_at(ends, blocks, k + j, i, c);
        put(recs, j, rec);
        i = rec.end + 1;
        c = rec.region;
    }
}

// Has the line with `k` above it in the window, whose last record is that of the line above `past`: where it is past the window, the next one is
// filled. Returns how many lines are above the end of the window.
pub fn refill(
    ends: &[usize],
    blocks: &[usize],
    n: usize,
    k: usize,
    past: usize,
    recs: &mut [LineRec],
) -> usize
    requires { ((k ≤ n) × ((n ≤ length ends.now) × ((n ≤ length blocks.now) × (0 < length recs.old)))) × (past ≤ k → Above past (last_record recs.old)) }
    ensures place { result ≡ cond (ltb k past) past (past + length recs.old) }
    ensures records { recs.new ≡ cond (ltb k past) recs.old (window_at ends.now blocks.now n past recs.old) }
{
    if k < past {
        return past;
    }
    fill(ends, blocks, n, past, recs);
    past + recs.len()
}
