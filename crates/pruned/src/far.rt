// A search that is fast where what is looked for stands far away.
ghost use Rattle.std.specs.Prelude.{◌≡◌, ◌+◌, drop};
ghost use Rattle.lines.specs.Lf.{up_to};

// So many bytes are looked at first, and then so many at a time.
const NEAR: usize = 64;

const MANY: usize = 240;

// The place of the first `b` from `i` on, or the end: by many bytes at a time, as long as these lack it.
fn find_many(s: &[u8], i: usize, b: u8) -> usize
    ensures { result ≡ i + up_to b (drop i s.now) }
{
    if s.len() < MANY {
        return lines::find_byte(s, i, b);
    }
    let n = s.len() - MANY;
    let mut j = i;
    // Kept: the place goes on by many bytes at once and is where the search byte by byte begins.
    while j <= n {
        if lines::lacks(&s[j..j + MANY], b) {
            j += MANY;
        } else {
            return lines::find_byte(s, j, b);
        }
    }
    lines::find_byte(s, j, b)
}

// The same, where it may be near.
pub fn find_far(s: &[u8], i: usize, b: u8) -> usize
    ensures { result ≡ i + up_to b (drop i s.now) }
{
    if s.len() < NEAR {
        return lines::find_byte(s, i, b);
    }
    if s.len() - NEAR < i {
        return lines::find_byte(s, i, b);
    }
    let e = lines::find_byte(lines::cut(s, 0, i + NEAR), i, b);
    if e < i + NEAR {
        return e;
    }
    find_many(s, e, b)
}
