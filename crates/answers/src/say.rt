// Writing an answer into a lent buffer as far as there is room: a place past the end says that there was none.

// The place past every end.
const FULL: usize = usize::MAX;

// No answer.
pub fn nothing() -> usize {
    FULL
}

// Writes `t` at `o`, and returns the place after it.
pub fn say(out: &mut [u8], o: usize, t: &[u8]) -> usize {
    if out.len() < o || out.len() - o < t.len() {
        return FULL;
    }
    lines::put(out, o, t)
}

// Writes one byte at `o`, and returns the place after it.
pub fn say_byte(out: &mut [u8], o: usize, b: u8) -> usize {
    if out.len() <= o {
        return FULL;
    }
    lines::put_byte(out, o, b)
}

// Writes a truth value at `o`, and returns the place after it.
pub fn say_flag(out: &mut [u8], o: usize, b: bool) -> usize {
    say_byte(out, o, u8::from(b))
}

// Writes a number of eight bytes at `o`, the low byte first, and returns the place after it.
pub fn say_eight(out: &mut [u8], o: usize, v: u64) -> usize {
    say(out, o, &v.to_le_bytes())
}

// Writes the four low bytes of a number at `o`, and returns the place after it.
pub fn say_four(out: &mut [u8], o: usize, v: usize) -> usize {
    say(out, o, &v.to_le_bytes()[..4])
}
