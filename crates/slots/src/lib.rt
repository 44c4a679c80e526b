// Where a table over the numbers of registers or phis holds the entry of each: a low number at its own place, another where the table of owners says so.
#![tactic(auto)]

pub mod gather;

ghost use Rattle.std.specs.Prelude.{◌≡◌, ◌-◌, min, length, replicate};
ghost use Rattle.slots.specs.Inner.Slots.{spot, seek, slot_of, claimed};

const PROBES: usize = 32;

// The first place among the owners that is a number's own or free, of those that are looked at, or their length.
fn spot(v: usize, own: &[usize]) -> usize
    ensures { result ≡ spot own.now v }
{
    let n = own.len();
    if n == 0 {
        return 0;
    }
    let home = v % n;
    let most = PROBES.min(n - home);
    for k in 0..most {
        let x = own[home + k];
        if (x == v) | (x == 0) {
            return home + k;
        }
    }
    n
}

// The place of a number among the owners, or their length where it has none.
pub fn seek(v: usize, own: &[usize]) -> usize
    ensures { result ≡ seek own.now v }
{
    let i = spot(v, own);
    if own.len() <= i {
        return i;
    }
    if own[i] == v {
        return i;
    }
    own.len()
}

// How many of the n entries of a table stand at their own place, where the last h are those of owners.
pub fn low_of(n: usize, h: usize) -> usize
    ensures { result ≡ n - h }
{
    n.saturating_sub(h)
}

// The place of a number in a table of n entries; past its end where it has none.
pub fn slot(v: usize, n: usize, own: &[usize]) -> usize
    ensures { result ≡ slot_of n own.now v }
{
    let low = low_of(n, own.len());
    if v < low {
        return v;
    }
    low + seek(v, own)
}

// Makes every entry of a table 0.
pub fn wipe(table: &mut [usize])
    ensures { table.new ≡ replicate (length table.old) 0 }
{
    lines::wipe_words(table);
}

// Gives a number a place among the owners, where one of those that are looked at is free.
pub fn claim(v: usize, own: &mut [usize])
    ensures { own.new ≡ claimed v own.old }
{
    let i = spot(v, own);
    if own.len() <= i {
        return;
    }
    own[i] = v;
}

// The lesser of two lengths.
pub fn shorter(a: usize, b: usize) -> usize
    ensures { result ≡ min a b }
{
    a.min(b)
}
