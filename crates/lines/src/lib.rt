// Bytes and parts of them, LF form, writing into a lent buffer, and the first and the last step.
#![tactic(auto)]

mod between;
pub mod each;

ghost use Rattle.std.specs.Prelude.{◌≡◌, ℕ, ◌+◌, ◌/◌, ◌<◌, ◌≤◌, min, [], ◌∷◌, ◌++◌, length, take, drop, replicate, slice_index};
ghost use Rattle.std.specs.Int.Count.{count_trailing_zeros};
ghost use Rattle.lines.specs.Lf.{part, up_to, count_of, word, prefixed, suffixed, same, holds, ends_in, lines_of, unlines};
ghost use Rattle.lines.specs.Inner.Lf.{line_start, marks, lacks};
ghost use Rattle.lines.specs.Inner.Out.{Wrote};
ghost use Rattle.lines.specs.Steps.{drop_cr, split_lines, joined, over_from};

pub use between::{PiecesLeft, pieces};

// The byte at a place, or 0 past the end.
pub fn byte_at(s: &[u8], i: usize) -> u8
    ensures { result ≡ slice_index s.now i }
{
    if i < s.len() {
        return s[i];
    }
    0
}

// The place after `e`, but not past the end.
pub fn after(s: &[u8], e: usize) -> usize
    ensures { result ≡ min (e + 1) (length s.now) }
{
    if e < s.len() {
        return e + 1;
    }
    s.len()
}

// The part from `a` up to `e`, as far as it is there.
pub fn cut(s: &[u8], a: usize, e: usize) -> &[u8]
    ensures { result.now ≡ part a e s.now }
{
    let to = e.min(s.len());
    let from = a.min(to);
    &s[from..to]
}

// The place of the first `b` from `i` on, or the end, byte by byte.
fn find_one(s: &[u8], i: usize, b: u8) -> usize
    ensures { result ≡ i + up_to b (drop i s.now) }
{
    for j in i..s.len() {
        if s[j] == b {
            return j;
        }
    }
    i.max(s.len())
}

// A byte as a number of 64 bits.
fn wide(b: u8) -> u64
    ensures { (result ≡ b) × (result < 256) }
{
    b as u64
}

// The eight bytes at a place as one number, the first of them lowest; the compiler loads them at once.
fn word_at(s: &[u8], j: usize) -> u64
    requires { j + 8 ≤ length s.now }
    ensures { result ≡ word (take 8 (drop j s.now)) }
{
    wide(s[j])
        + wide(s[j + 1]) * 256
        + wide(s[j + 2]) * 65536
        + wide(s[j + 3]) * 16777216
        + wide(s[j + 4]) * 4294967296
        + wide(s[j + 5]) * 1099511627776
        + wide(s[j + 6]) * 281474976710656
        + wide(s[j + 7]) * 72057594037927936
}

// Which of the eight bytes at a place are `b`: 128 in the place of each of these, 0 in the place of another. No byte of a sum carries into the next.
fn marks_at(s: &[u8], j: usize, b: u8) -> u64
    requires { j + 8 ≤ length s.now }
    ensures { result ≡ marks b (take 8 (drop j s.now)) }
{
    let y = word_at(s, j) ^ (wide(b) * 0x0101010101010101);
    (((y & 0x7f7f7f7f7f7f7f7f) + 0x7f7f7f7f7f7f7f7f) | y | 0x7f7f7f7f7f7f7f7f) ^ 0xffffffffffffffff
}

// Marks of the eight bytes at a place that are `b`: the lowest stands at the first of these, and there is none where none is; the zeros below it, eight to a byte, say how many bytes stand before it.
// (Above the lowest a mark may stand by a borrow.)
fn low_marks(s: &[u8], j: usize, b: u8) -> u64
    requires { j + 8 ≤ length s.now }
    ensures { count_trailing_zeros 64 result / 8 ≡ min (up_to b (drop j s.now)) 8 }
{
    let y = word_at(s, j) ^ (wide(b) * 0x0101010101010101);
    std::num::wrapping_sub_u64(y, 0x0101010101010101)
        & (y ^ 0xffffffffffffffff)
        & 0x8080808080808080
}

// The place of the first `b` from `i` on, or the end: by eight bytes, as long as these lack it; the zeros below the lowest mark say how many bytes stand before it.
pub fn find_byte(s: &[u8], i: usize, b: u8) -> usize
    ensures { result ≡ i + up_to b (drop i s.now) }
{
    if s.len() < 8 {
        return find_one(s, i, b);
    }
    let n = s.len() - 7;
    let mut j = i;
    // Kept: the place goes on by eight bytes and is where `find_one` begins; chunks would need it beside them.
    while j < n {
        let t = low_marks(s, j, b);
        if t == 0 {
            j += 8;
        } else {
            return j + (u64::trailing_zeros(t) / 8) as usize;
        }
    }
    find_one(s, j, b)
}

// The place after the last LF before `e`, or the front, byte by byte.
fn start_one(s: &[u8], e: usize) -> usize
    requires { e ≤ length s.now }
    ensures { result ≡ line_start s.now e }
{
    for j in (0..e).rev() {
        if s[j] == 10 {
            return j + 1;
        }
    }
    0
}

// Where the line begins that ends at `e`: after the last LF before it, or at the front. By eight bytes, as long as these lack LF; the zeros above the last mark say how many bytes stand after it.
pub fn line_start(s: &[u8], e: usize) -> usize
    ensures { result ≡ line_start s.now e }
{
    let mut j = e.min(s.len());
    // Kept: the place goes back by eight bytes and is where `start_one` begins; chunks would need it beside them.
    while 8 <= j {
        let t = marks_at(s, j - 8, 10);
        if t == 0 {
            j -= 8;
        } else {
            return j - (u64::leading_zeros(t) / 8) as usize;
        }
    }
    start_one(s, j)
}

// How many of at most 255 bytes are `b`. It counts in one byte and goes on to the end, so that the compiler compares many bytes at a time.
fn count_few(s: &[u8], b: u8) -> u8
    requires { length s.now ≤ 255 }
    ensures { result ≡ count_of b s.now }
{
    let mut n = 0;
    for &x in s {
        if x == b {
            n += 1;
        }
    }
    n
}

// So many bytes are counted at a time: as many as fit in a byte, and in whole words of the compiler's.
const COUNTED: usize = 224;

// How many bytes `b` there are.
pub fn count_byte(s: &[u8], b: u8) -> usize
    ensures { result ≡ count_of b s.now }
{
    let mut n = 0;
    for part in s.chunks(COUNTED) {
        n += count_few(part, b) as usize;
    }
    n
}

// Whether no byte is `b`.
pub fn lacks(s: &[u8], b: u8) -> bool
    ensures { result ≡ lacks b s.now }
{
    !s.contains(&b)
}

// Whether `p` stands at the front.
// Kept: the slice's own `starts_with` runs twice as many instructions on the short words that are asked for.
pub fn starts_with(s: &[u8], p: &[u8]) -> bool
    ensures { result ≡ prefixed p.now s.now }
{
    if s.len() < p.len() {
        return false;
    }
    for i in 0..p.len() {
        if p[i] != s[i] {
            return false;
        }
    }
    true
}

// Whether `p` stands at the end.
pub fn ends_with(s: &[u8], p: &[u8]) -> bool
    ensures { result ≡ suffixed p.now s.now }
{
    if s.len() < p.len() {
        return false;
    }
    let a = s.len() - p.len();
    starts_with(&s[a..], p)
}

// Whether the two are equal.
pub fn same(s: &[u8], t: &[u8]) -> bool
    ensures { result ≡ same s.now t.now }
{
    if s.len() != t.len() {
        return false;
    }
    starts_with(t, s)
}

// Whether `p` stands somewhere: it is looked for where its first byte stands.
pub fn contains(s: &[u8], p: &[u8]) -> bool
    ensures { result ≡ holds p.now s.now }
{
    if p.len() == 0 {
        return true;
    }
    let b = p[0];
    let mut i = find_byte(s, 0, b);
    // Kept: the place moves to the next byte that `p` may begin with.
    while i < s.len() {
        if starts_with(&s[i..], p) {
            return true;
        }
        i = find_byte(s, i + 1, b);
    }
    false
}

// Writes one byte at `o`, and returns the place after it.
pub fn put_byte(out: &mut [u8], o: usize, b: u8) -> usize
    requires { o < length out.old }
    ensures { Wrote out.old o (b ∷ []) out.new result }
{
    out[o] = b;
    o + 1
}

// Writes the eight bytes of `t` at `j` at `o`, and returns the place after them; the compiler moves them at once.
fn put_eight(out: &mut [u8], o: usize, t: &[u8], j: usize) -> usize
    requires { (o + 8 ≤ length out.old) × (j + 8 ≤ length t.now) }
    ensures { Wrote out.old o (take 8 (drop j t.now)) out.new result }
{
    let a = t[j];
    let b = t[j + 1];
    let c = t[j + 2];
    let d = t[j + 3];
    let e = t[j + 4];
    let f = t[j + 5];
    let g = t[j + 6];
    let h = t[j + 7];
    out[o] = a;
    out[o + 1] = b;
    out[o + 2] = c;
    out[o + 3] = d;
    out[o + 4] = e;
    out[o + 5] = f;
    out[o + 6] = g;
    out[o + 7] = h;
    o + 8
}

// Writes a text of 8 to 16 bytes: the first eight and the last eight, which may be some of the same.
fn put_pair(out: &mut [u8], o: usize, t: &[u8]) -> usize
    requires { (o + length t.now ≤ length out.old) × ((8 ≤ length t.now) × (length t.now ≤ 16)) }
    ensures { Wrote out.old o t.now out.new result }
{
    let n = t.len();
    put_eight(out, o, t, 0);
    put_eight(out, o + n - 8, t, n - 8);
    o + n
}

// Writes a text of 16 to 32 bytes: the first sixteen and the last sixteen, which may be some of the same.
fn put_pairs(out: &mut [u8], o: usize, t: &[u8]) -> usize
    requires { (o + length t.now ≤ length out.old) × ((16 ≤ length t.now) × (length t.now ≤ 32)) }
    ensures { Wrote out.old o t.now out.new result }
{
    let n = t.len();
    put_pair(out, o, &t[..16]);
    put_pair(out, o + n - 16, &t[n - 16..]);
    o + n
}

// Writes `t` at `o` byte by byte, and returns the place after it.
fn put_each(out: &mut [u8], o: usize, t: &[u8]) -> usize
    requires { o + length t.now ≤ length out.old }
    ensures { Wrote out.old o t.now out.new result }
{
    for j in 0..t.len() {
        out[o + j] = t[j];
    }
    o + t.len()
}

// Writes `t` at `o`, and returns the place after it.
// Kept: up to 32 bytes the moves by eight run two thirds of the instructions that `copy_from_slice` runs, and it has the archives for C need memmove from outside.
pub fn put(out: &mut [u8], o: usize, t: &[u8]) -> usize
    requires { o + length t.now ≤ length out.old }
    ensures { Wrote out.old o t.now out.new result }
{
    let n = t.len();
    if n < 8 {
        return put_each(out, o, t);
    }
    if n <= 16 {
        return put_pair(out, o, t);
    }
    if n <= 32 {
        return put_pairs(out, o, t);
    }
    put_each(out, o, t)
}

// Writes a line with its LF at `o`, and returns the place after it.
pub fn put_line(out: &mut [u8], o: usize, line: &[u8]) -> usize
    requires { o + length (line.now ++ 10 ∷ []) ≤ length out.old }
    ensures { Wrote out.old o (line.now ++ 10 ∷ []) out.new result }
{
    let p = put(out, o, line);
    put_byte(out, p, 10)
}

// Writes a text as it is at `o`, each line with its LF, and returns the place after it.
pub fn put_lines(text: &[u8], out: &mut [u8], o: usize) -> usize
    requires { o + length (unlines (lines_of text.now)) ≤ length out.old }
    ensures { Wrote out.old o (unlines (lines_of text.now)) out.new result }
{
    let p = put(out, o, text);
    if ends_lf(text) {
        return p;
    }
    if text.len() == 0 {
        return p;
    }
    put_byte(out, p, 10)
}

// Zeros are written in blocks of so many bytes: from two kilobytes on the machine's own way to write many is counted byte by byte.
const BLOCK: usize = 1024;

const NUMBERS: usize = BLOCK / 4;

const WORDS: usize = BLOCK / 8;

// Where the block that begins at a place ends, of the first n places: it has so many at most.
fn block_end(i: usize, n: usize, most: usize) -> usize
    requires { i ≤ n }
    ensures { result ≡ min (i + most) n }
{
    if n - i <= most {
        return n;
    }
    i + most
}

// Writes one value over all of a block.
fn fill<T: Copy>(block: &mut [T], value: T)
    ensures { block.new ≡ replicate (length block.old) value }
{
    for i in 0..block.len() {
        block[i] = value;
    }
}

// Writes zeros over all of a buffer, in blocks of `most` entries.
fn wipe_blocks<T: Copy>(s: &mut [T], zero: T, most: usize)
    requires { 0 < most }
    ensures { s.new ≡ replicate (length s.old) zero }
{
    for i in (0..s.len()).step_by(most) {
        let e = block_end(i, s.len(), most);
        fill(&mut s[i..e], zero);
    }
}

// Writes zeros over the first `n` bytes.
pub fn wipe(s: &mut [u8], n: usize)
    requires { n ≤ length s.old }
    ensures { Wrote s.old 0 (replicate n 0) s.new n }
{
    wipe_blocks(&mut s[..n], 0, BLOCK);
}

// Writes zeros over all of a buffer of numbers of 32 bits.
pub fn wipe_numbers(numbers: &mut [u32])
    ensures { numbers.new ≡ replicate (length numbers.old) 0 }
{
    wipe_blocks(numbers, 0, NUMBERS);
}

// Writes zeros over all of a buffer of numbers.
pub fn wipe_words(words: &mut [usize])
    ensures { words.new ≡ replicate (length words.old) 0 }
{
    wipe_blocks(words, 0, WORDS);
}

// Whether the last byte is an LF.
pub fn ends_lf(text: &[u8]) -> bool
    ensures { result ≡ ends_in 10 text.now }
{
    let n = text.len();
    if n == 0 {
        return false;
    }
    text[n - 1] == 10
}

// Whether a CR stands at `i`, and an LF just after it.
fn cr_lf(s: &[u8], i: usize) -> bool
    ensures { result ≡ prefixed (13 ∷ 10 ∷ []) (drop i s.now) }
{
    if byte_at(s, i) != 13 {
        return false;
    }
    byte_at(s, i + 1) == 10
}

// Writes a text without each CR that stands before an LF, byte by byte, and returns the place after it.
fn put_bytes(text: &[u8], out: &mut [u8]) -> usize
    requires { length (drop_cr text.now) ≤ length out.old }
    ensures { Wrote out.old 0 (drop_cr text.now) out.new result }
{
    let mut o = 0;
    for i in 0..text.len() {
        if !cr_lf(text, i) {
            o = put_byte(out, o, text[i]);
        }
    }
    o
}

// The same: a text without CR is written at once.
fn put_bare(text: &[u8], out: &mut [u8]) -> usize
    requires { length (drop_cr text.now) ≤ length out.old }
    ensures { Wrote out.old 0 (drop_cr text.now) out.new result }
{
    if lacks(text, 13) {
        return put(out, 0, text);
    }
    put_bytes(text, out)
}

// Writes the lines of a text, each followed by one LF, and returns the place after them.
pub fn split_lines(text: &[u8], out: &mut [u8]) -> usize
    requires { length (unlines (split_lines text.now)) ≤ length out.old }
    ensures { Wrote out.old 0 (unlines (split_lines text.now)) out.new result }
{
    let o = put_bare(text, out);
    if ends_lf(text) {
        return o;
    }
    if text.len() == 0 {
        return o;
    }
    put_byte(out, o, 10)
}

// How many lines a text has.
pub fn count_lines(text: &[u8]) -> usize
    ensures { result ≡ length (split_lines text.now) }
{
    let n = count_byte(text, 10);
    if ends_lf(text) {
        return n;
    }
    if text.len() == 0 {
        return n;
    }
    n + 1
}

// The first line with more than `most` bytes `b`.
fn first_over(text: &[u8], most: usize, b: u8) -> Option<usize>
    ensures { result ≡ over_from most b 0 (lines_of text.now) }
{
    let mut n = 0;
    for line in each::each(text) {
        if most < count_byte(line.bytes, b) {
            return Some(n);
        }
        n += 1;
    }
    None
}

// The first line with more than `most` bytes `[`: none, where the whole text has no more.
pub fn crowded_line(text: &[u8], most: usize) -> Option<usize>
    ensures { result ≡ over_from most 91 0 (split_lines text.now) }
{
    let b = b'[';
    if count_byte(text, b) <= most {
        return None;
    }
    first_over(text, most, b)
}

// How long the lines of `lf` are when joined, the last LF settled.
pub fn joined_len(lf: &[u8], ended: bool) -> usize
    ensures { result ≡ length (joined ended (lines_of lf.now)) }
{
    let n = lf.len();
    if ends_lf(lf) {
        if ended {
            if ends_lf(&lf[..n - 1]) {
                return n - 1;
            }
            return n;
        }
        return n - 1;
    }
    if ended {
        return n + 1;
    }
    n
}

// Writes the lines of `lf` with an LF between them, the last LF settled, and returns the place after them.
pub fn join_lines(lf: &[u8], ended: bool, out: &mut [u8]) -> usize
    requires { length (joined ended (lines_of lf.now)) ≤ length out.old }
    ensures { Wrote out.old 0 (joined ended (lines_of lf.now)) out.new result }
{
    let n = joined_len(lf, ended);
    if lf.len() < n {
        let o = put(out, 0, lf);
        return put_byte(out, o, 10);
    }
    put(out, 0, &lf[..n])
}
