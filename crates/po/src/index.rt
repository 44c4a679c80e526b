// Which texts were met: a table in lent room that changes no answer. An entry is 0, or one more than the place of a literal's quote.
ghost use Rattle.std.specs.Prelude.{◌≡◌, ◌<◌, length, set};
ghost use Rattle.lines.specs.Lf.{same};
ghost use Rattle.po.specs.Found.{decoded};
ghost use Rattle.po.specs.Inner.Index.{key_at, hash_of, seek_of, hint_of, free_or, entered};

use crate::{Seek, same_text, units};

const BASE: usize = 65599;

const PRIME: usize = 4294967291;

// A number of a text, by which its place in the table is chosen.
fn hash_text(s: &[u8], q: u8) -> usize
    ensures { result ≡ hash_of 0 (decoded s.now q) }
{
    let mut h = 0;
    for b in units::each(s, q) {
        h = (h * BASE + b as usize) % PRIME;
    }
    h
}

// Whether a text is that of the literal whose quote stands at a place.
fn is_at(t: &[u8], p: usize, s: &[u8], q: u8) -> bool
    requires { p < length t.now }
    ensures { result ≡ same (key_at t.now p) (decoded s.now q) }
{
    same_text(lines::cut(t, p + 1, t.len()), lines::byte_at(t, p), s, q)
}

// Where a text stands in the table, or might.
fn seek(t: &[u8], own: &[usize], s: &[u8], q: u8) -> Seek
    ensures { result ≡ seek_of t.now own.now (decoded s.now q) }
{
    if own.len() == 0 {
        return Seek::Unsure;
    }
    for i in hash_text(s, q) % own.len()..own.len() {
        let v = own[i];
        if v == 0 {
            return Seek::Free(i);
        }
        if t.len() <= v {
            return Seek::Unsure;
        }
        if is_at(t, v - 1, s, q) {
            return Seek::Held;
        }
    }
    Seek::Unsure
}

// The entry of a text whose literal's quote stands at a place: one that says nothing, where the literal is not closed on its line.
fn hint_of(t: &[u8], p: usize, s: &[u8], q: u8) -> usize
    ensures { result ≡ hint_of t.now p (decoded s.now q) }
{
    if t.len() <= p {
        return t.len() + 1;
    }
    if is_at(t, p, s, q) {
        return p + 1;
    }
    t.len() + 1
}

// The free place that was found, or another number where there is none.
fn free_or(found: Seek, n: usize) -> usize
    ensures { result ≡ free_or found n }
{
    match found {
        Seek::Held => n,
        Seek::Free(i) => i,
        Seek::Unsure => n,
    }
}

// Writes an entry, where its place is in the table.
fn put_entry(own: &mut [usize], i: usize, v: usize)
    ensures { own.new ≡ set own.old i v }
{
    if own.len() <= i {
        return;
    }
    own[i] = v;
}

// Looks for a text, and enters it where its place is free.
pub fn meet(t: &[u8], p: usize, s: &[u8], q: u8, own: &mut [usize]) -> Seek
    ensures value { result ≡ seek_of t.now own.old (decoded s.now q) }
    ensures own_after { own.new ≡ entered t.now p (decoded s.now q) own.old }
{
    let found = seek(t, own, s, q);
    let i = free_or(found, own.len());
    put_entry(own, i, hint_of(t, p, s, q));
    found
}
