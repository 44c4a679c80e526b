// Searches downwards from a store, with no table over registers.
ghost use Rattle.std.specs.Prelude.{◌≡◌};
ghost use Rattle.lines.specs.Lf.{lines_of};
ghost use Rattle.once.specs.Once.{dead_by};
ghost use Rattle.once.specs.Scratch.{scratch_at};
ghost use Rattle.once.specs.Inner.Tables.{next_in};

use crate::{noted, scratch_at};

// Whether the value of a store in the block path p is wanted by nothing below in its region; `paths` has the block paths of the lines.
pub fn dead_below(text: &[u8], paths: &[usize], p: usize, reg: names::Register) -> bool
    ensures { result ≡ dead_by p (next_in reg.0 (lines_of text.now) paths.now) }
{
    let mut k = 0;
    for line in lines::each::each(text) {
        if k >= paths.len() {
            return true;
        }
        if place::is_header(line.bytes) {
            return true;
        }
        let u = reading::use_of(line.bytes, reg);
        if 0 < u.reads {
            return false;
        }
        if u.stores {
            return p == paths[k];
        }
        k += 1;
    }
    true
}

// Whether a store of a register with the value x, above `below`, is a scratch load: nothing is noted of it, and no rest of `below` is known to be
// without `(`.
pub fn is_scratch(x: &[u8], reg: names::Register, below: &[u8]) -> bool
    ensures { result ≡ scratch_at reg.0 x.now (lines_of below.now) }
{
    scratch_at(x, reg, below, noted::NOTE_NONE, 0)
}
