// Requests and answers as bytes: numbers are low byte first.
ghost use Rattle.std.specs.Prelude.{◌≤◌, length};

use std::io;
use std::io::Read;

// The number of four bytes.
pub fn four(bytes: [u8; 4]) -> usize {
    u32::from_le_bytes(bytes) as usize
}

// The four low bytes of a number.
pub fn bytes_of(n: usize) -> [u8; 4] {
    let [a, b, c, d, _, _, _, _] = n.to_le_bytes();
    [a, b, c, d]
}

// Reads until the buffer is full, the input ends or a read fails, and returns how many bytes came.
// Kept: the place moves by how many bytes a read brings.
pub fn read_full<R: Read>(from: &mut R, buf: &mut [u8]) -> usize
    ensures { result ≤ length buf.new }
{
    let mut done = 0;
    while done < buf.len() {
        match from.read(&mut buf[done..]) {
            Ok(0) | Err(_) => return done,
            Ok(n) => done += n,
        }
    }
    done
}

// Passes `n` bytes over, and returns whether they came.
fn pass_over<R: Read>(from: &mut R, n: usize) -> bool {
    let mut rest = from.by_ref().take(n as u64);
    io::copy(&mut rest, &mut io::sink()).is_ok_and(|came| came == n as u64)
}

// Reads a text of `n` bytes, and passes over what does not fit: whether all of it came.
pub fn read_bytes<R: Read>(from: &mut R, n: usize, text: &mut [u8]) -> bool {
    let here = n.min(text.len());
    read_full(from, &mut text[..here]) == here && (here == n || pass_over(from, n - here))
}
