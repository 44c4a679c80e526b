// Answers requests for whole texts as the original does, and tells of each whether every lent byte is as it should be.
#![tactic(auto)]

mod wire;

use input::lent;
use limits::Answer;
use wire::Request;

// Room for a text: one byte more than is taken, so that a longer text is seen.
const TEXT: usize = 16385;

// The stated sizes of the work buffers.
const BYTES: usize = 32769;

const BLOCKS: usize = 16384;

// How many bytes of records the most lines take.
const RECORDS: usize = 7168;

// How much longer a buffer is than it has to be.
const MORE: usize = 8;

// The first `n` bytes of a buffer, or all of it.
fn front(buffer: &mut [u8], n: usize) -> &mut [u8] {
    if n < buffer.len() {
        &mut buffer[..n]
    } else {
        buffer
    }
}

// The buffers of a run: those of work, and those for the result and the records.
#[derive(Drop)]
struct Memory {
    a: [u8; BYTES + MORE],
    b: [u8; BYTES + MORE],
    c: [u8; BYTES + MORE],
    d: [u8; BYTES + MORE],
    e: [u8; BYTES + MORE],
    u: [u32; BLOCKS + MORE],
    out: [u8; BYTES + MORE],
    records: [u8; RECORDS + MORE],
}

impl Memory {
    // Buffers that hold nothing yet.
    fn new() -> Memory {
        Memory {
            a: [0; BYTES + MORE],
            b: [0; BYTES + MORE],
            c: [0; BYTES + MORE],
            d: [0; BYTES + MORE],
            e: [0; BYTES + MORE],
            u: [0; BLOCKS + MORE],
            out: [0; BYTES + MORE],
            records: [0; RECORDS + MORE],
        }
    }

    // Fills all buffers.
    fn fill(&mut self) {
        self.a.fill(lent::BYTE);
        self.b.fill(lent::BYTE);
        self.c.fill(lent::BYTE);
        self.d.fill(lent::BYTE);
        self.e.fill(lent::BYTE);
        self.u.fill(lent::BLOCK);
        self.out.fill(lent::BYTE);
        self.records.fill(lent::BYTE);
    }

    // Runs the whole or one pass, and lends as much of each buffer as the request says.
    fn run(&mut self, q: Request, text: &[u8]) -> Answer {
        let a = lent::part(&mut self.a, q.short == 1, BYTES);
        let b = lent::part(&mut self.b, q.short == 2, BYTES);
        let c = lent::part(&mut self.c, q.short == 3, BYTES);
        let d = lent::part(&mut self.d, q.short == 4, BYTES);
        let e = lent::part(&mut self.e, q.short == 5, BYTES);
        let u = lent::part(&mut self.u, q.short == 6, BLOCKS);
        let out = front(&mut self.out, q.room);
        let records = front(&mut self.records, q.records);
        let mode = usize::from(q.mode);
        if q.pass == 0 {
            return opt::optimize(mode, text, a, b, c, d, e, u, out, records);
        }
        let pass = usize::from(q.pass);
        opt::run_pass(pass, mode, text, a, b, c, d, e, u, out, records)
    }

    // Whether the work buffers are as they should be.
    fn is_fixed(&self, ran: bool) -> bool {
        lent::as_fixed(&self.a, lent::BYTE, BYTES, ran)
            & lent::as_fixed(&self.b, lent::BYTE, BYTES, ran)
            & lent::as_fixed(&self.c, lent::BYTE, BYTES, ran)
            & lent::as_fixed(&self.d, lent::BYTE, BYTES, ran)
            & lent::as_fixed(&self.e, lent::BYTE, BYTES, ran)
            & lent::as_fixed(&self.u, lent::BLOCK, BLOCKS, ran)
    }
}

// Answers a request over buffers that are filled anew, and returns whether the answer went out.
fn answer(rt: &HostRuntime, memory: &mut Memory, q: Request, text: &[u8]) -> bool {
    memory.fill();
    let got = memory.run(q, text);
    let number = limits::number_of(got);
    let n = limits::length_of(got);
    // The passes ran where the number is one of these.
    let ran = matches!(number, 0 | 7 | 8);
    let is_fixed = memory.is_fixed(ran) & lent::kept_from(&memory.out, n);
    let place = limits::place_of(got);
    wire::write_answer(rt, number, is_fixed, place, lines::cut(&memory.out, 0, n))
        && wire::write_records(rt, lines::cut(&memory.records, 0, q.records))
}

// Reads a request and answers it, and returns whether to go on.
fn serve_one(rt: &HostRuntime, memory: &mut Memory) -> bool {
    let mut text = [0; TEXT];
    let mut from = rt.stdin();
    match wire::read_request(&mut from, &mut text) {
        Some(q) => answer(rt, memory, q, lines::cut(&text, 0, q.length)),
        None => false,
    }
}

// Answers until the input ends. No run uses up the turns.
fn main(rt: HostRuntime) {
    let mut memory = Memory::new();
    for _ in 0..u64::MAX {
        if !serve_one(&rt, &mut memory) {
            return;
        }
    }
}
