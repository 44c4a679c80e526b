// Requests to check prunings, and answers to them.
use input::host;
use input::wire::{bytes_of, four, read_bytes, read_full};
use std::io::Stdin;

// A request: which work buffer is short, and how much there is of the raw text and of the other.
#[derive(Clone, Copy)]
pub struct Request {
    pub short: u8,
    pub raw: usize,
    pub other: usize,
}

// Reads one byte.
fn read_one(from: &mut Stdin) -> Option<u8> {
    let mut byte = [0; 1];
    (read_full(from, &mut byte) == byte.len()).then_some(byte[0])
}

// Reads four bytes as a number, and then a text of that length: how much of it there is.
fn read_text(from: &mut Stdin, text: &mut [u8]) -> Option<usize> {
    let mut size = [0; 4];
    if read_full(from, &mut size) != size.len() {
        return None;
    }
    let n = four(size);
    read_bytes(from, n, text).then_some(n)
}

// Reads a request and its texts; none where the input ends, also within one.
pub fn read_request(from: &mut Stdin, raw: &mut [u8], other: &mut [u8]) -> Option<Request> {
    Some(Request {
        short: read_one(from)?,
        raw: read_text(from, raw)?,
        other: read_text(from, other)?,
    })
}

// Writes an answer, and returns whether it went out.
pub fn write_answer(rt: &HostRuntime, number: u8, memory: bool, place: usize) -> bool {
    let mut head = [0; 6];
    head[0] = number;
    head[1] = u8::from(memory);
    head[2..].copy_from_slice(&bytes_of(place));
    host::write(rt, &head).is_ok()
}
