// Requests for whole texts, and answers to them.
use input::host;
use input::wire::{bytes_of, four, read_bytes, read_full};
use std::io::Stdin;

// A request: the pass, the mode, which work buffer is short, the rooms for the result and for the records, and how much of the text there is.
#[derive(Clone, Copy)]
pub struct Request {
    pub pass: u8,
    pub mode: u8,
    pub short: u8,
    pub room: usize,
    pub records: usize,
    pub length: usize,
}

// Reads a request and its text; none where the input ends, also within one.
pub fn read_request(from: &mut Stdin, text: &mut [u8]) -> Option<Request> {
    let mut h = [0; 15];
    if read_full(from, &mut h) != h.len() {
        return None;
    }
    let n = four([h[11], h[12], h[13], h[14]]);
    read_bytes(from, n, text).then_some(Request {
        pass: h[0],
        mode: h[1],
        short: h[2],
        room: four([h[3], h[4], h[5], h[6]]),
        records: four([h[7], h[8], h[9], h[10]]),
        length: n,
    })
}

// Writes bytes behind a head, and returns whether all went out.
fn write_behind(rt: &HostRuntime, head: &[u8], bytes: &[u8]) -> bool {
    host::write(rt, head).is_ok() && host::write(rt, bytes).is_ok()
}

// Writes an answer, and returns whether it went out.
pub fn write_answer(rt: &HostRuntime, number: u8, memory: bool, place: usize, res: &[u8]) -> bool {
    let memory = u8::from(memory);
    let [n0, n1, n2, n3] = bytes_of(res.len());
    let [p0, p1, p2, p3] = bytes_of(place);
    let head = [number, memory, n0, n1, n2, n3, p0, p1, p2, p3];
    write_behind(rt, &head, res)
}

// Writes the buffer of records, its length in front, and returns whether it went out.
pub fn write_records(rt: &HostRuntime, records: &[u8]) -> bool {
    write_behind(rt, &bytes_of(records.len()), records)
}
