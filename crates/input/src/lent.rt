// What lent memory holds before a call, and whether it is as it should be afterwards.

// What every byte is before a call, and every block.
pub const BYTE: u8 = 165;

pub const BLOCK: u32 = 2779096485;

// Whether all elements are `x`. It does not stop at the first that is not: so it takes many at a time.
fn all_are<T: Copy + PartialEq>(s: &[T], x: T) -> bool {
    s.iter().fold(true, |all, y| all & (*y == x))
}

// Whether a buffer is as it was from the byte `n` on.
pub fn kept_from(s: &[u8], n: usize) -> bool {
    all_are(lines::cut(s, n, s.len()), BYTE)
}

// Whether a work buffer, which held `fill` before, is as it should be: where the call `ran`, as many zeros as are stated, and what it was else.
pub fn as_fixed<T: Copy + PartialEq + Default>(s: &[T], fill: T, stated: usize, ran: bool) -> bool {
    if !ran {
        return all_are(s, fill);
    }
    let (used, rest) = s.split_at(stated.min(s.len()));
    all_are(used, T::default()) & all_are(rest, fill)
}

// What is lent of a buffer: all, or one element less than is stated where it is to be short.
pub fn part<T>(buffer: &mut [T], short: bool, stated: usize) -> &mut [T] {
    if short && 0 < stated && stated <= buffer.len() {
        &mut buffer[..stated - 1]
    } else {
        buffer
    }
}
