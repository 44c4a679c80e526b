// Requests for single functions.
use input::wire::{four, read_bytes, read_full};
use std::io::Read;

// A request: the function, its number, and how long its two texts are.
#[derive(Clone, Copy)]
pub struct Request {
    pub function: u8,
    pub number: u64,
    pub a: usize,
    pub b: usize,
}

// Where the input ended: where a request could begin, or within one.
#[derive(Clone, Copy)]
pub enum End {
    Between,
    Within,
}

// Reads a text of `n` bytes, which stands in the buffer only if it fits; gives its length.
fn read_known<R: Read>(from: &mut R, n: usize, buf: &mut [u8]) -> Result<usize, End> {
    if read_bytes(from, n, buf) {
        Ok(n)
    } else {
        Err(End::Within)
    }
}

// Reads a length and a text, likewise.
pub fn read_text<R: Read>(from: &mut R, buf: &mut [u8]) -> Result<usize, End> {
    let mut size = [0; 4];
    if read_full(from, &mut size) != size.len() {
        return Err(End::Within);
    }
    read_known(from, u32::from_le_bytes(size) as usize, buf)
}

// Reads a request and its texts.
pub fn read_request<R: Read>(from: &mut R, a: &mut [u8], b: &mut [u8]) -> Result<Request, End> {
    let mut h = [0; 13];
    match read_full(from, &mut h) {
        0 => return Err(End::Between),
        13 => {}
        _ => return Err(End::Within),
    }
    Ok(Request {
        function: h[0],
        number: u64::from_le_bytes([h[1], h[2], h[3], h[4], h[5], h[6], h[7], h[8]]),
        a: read_known(from, four([h[9], h[10], h[11], h[12]]), a)?,
        b: read_text(from, b)?,
    })
}
