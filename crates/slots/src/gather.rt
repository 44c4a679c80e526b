// The owners of a text: its numbers of registers and phis take places, in their order.
ghost use Rattle.std.specs.Prelude.{◌≡◌, ◌+◌, ◌≤◌, max, true, false, length, drop, nat_lt};
ghost use Rattle.names.specs.Names.{is_digit};
ghost use Rattle.slots.specs.Inner.Gather.{four_digits, has_long, grown, entered, is_mark, entered_all, gathered, gathered_len};

// Numbers of more digits than this grow no more.
const LARGE: usize = 1000000000000000000;

// How far a byte stands above `0`: a digit less than ten, and no other byte.
fn above_zero(b: u8) -> u8
    ensures { nat_lt result 10 ≡ is_digit b }
{
    b.wrapping_sub(b'0')
}

// How far the four bytes at a place stand above `0` at most.
fn four_above(s: &[u8], i: usize) -> u8
    requires { i + 4 ≤ length s.now }
    ensures { nat_lt result 10 ≡ four_digits (drop i s.now) }
{
    let front = above_zero(s[i]).max(above_zero(s[i + 1]));
    let back = above_zero(s[i + 2]).max(above_zero(s[i + 3]));
    front.max(back)
}

// Whether a text has a number of four digits: the least of what `four_above` says of its places tells. It goes on to the end, so that the
// compiler compares many bytes at a time.
pub fn has_long(text: &[u8]) -> bool
    ensures { result ≡ has_long text.now }
{
    if text.len() < 4 {
        return false;
    }
    let end = text.len() - 3;
    let mut least = u8::MAX;
    for i in 0..end {
        least = least.min(four_above(text, i));
    }
    least < 10
}

// Enters a number, where it is not low.
fn enter(v: usize, low: usize, own: &mut [usize])
    ensures { own.new ≡ entered low v own.old }
{
    if v < low {
        return;
    }
    crate::claim(v, own);
}

// The number of digits of the value `v` and one more digit.
fn grow(v: usize, b: u8) -> usize
    requires { is_digit b ≡ true }
    ensures { result ≡ grown v b }
{
    if v < LARGE {
        return v * 10 + (b - b'0') as usize;
    }
    v
}

// Whether the number behind a byte may be that of a register or of a phi.
fn is_mark(b: u8) -> bool
    ensures { result ≡ is_mark b }
{
    (b == b'r') | (b == b'i')
}

// Enters the numbers of a text that stand behind a mark.
fn enter_all(text: &[u8], low: usize, own: &mut [usize])
    ensures { own.new ≡ entered_all low false 0 text.now own.old }
{
    let mut marked = false;
    let mut v = 0;
    for &b in text {
        if !b.is_ascii_digit() {
            enter(v, low, own);
            marked = is_mark(b);
            v = 0;
        } else if marked {
            v = grow(v, b);
        }
    }
    enter(v, low, own);
}

// Enters the numbers of a text that are not low, where it has one of four digits, and returns how many owners there are: none where it has no such number.
pub fn gather(text: &[u8], low: usize, own: &mut [usize]) -> usize
    ensures answer { result ≡ gathered_len text.now own.old }
    ensures memory { own.new ≡ gathered low text.now own.old }
{
    if !has_long(text) {
        return 0;
    }
    enter_all(text, low, own);
    own.len()
}
