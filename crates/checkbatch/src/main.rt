// Answers requests to check prunings, and tells of each whether every lent byte is as it should be.
#![tactic(auto)]

mod wire;

use input::lent;
use pruned::Judged;
use wire::Request;

// Room for a text: one byte more than is taken, so that a longer text is seen.
const TEXT: usize = 16385;

// How much longer a work buffer is than it has to be.
const MORE: usize = 8;

// The work buffers.
#[derive(Drop)]
struct Work {
    a: [u8; pruned::BYTES + MORE],
    b: [u8; pruned::BYTES + MORE],
    c: [u8; pruned::BYTES + MORE],
    live: [u8; pruned::PLACES + MORE],
}

impl Work {
    // Filled buffers.
    fn new() -> Work {
        Work {
            a: [lent::BYTE; pruned::BYTES + MORE],
            b: [lent::BYTE; pruned::BYTES + MORE],
            c: [lent::BYTE; pruned::BYTES + MORE],
            live: [lent::BYTE; pruned::PLACES + MORE],
        }
    }

    // Checks a text against a raw one, and lends as much of each buffer as is asked: the one that is `short` lacks a byte of what is stated.
    fn check(&mut self, short: u8, raw: &[u8], other: &[u8]) -> Judged {
        pruned::check_pruning(
            raw,
            other,
            lent::part(&mut self.a, short == 1, pruned::BYTES),
            lent::part(&mut self.b, short == 2, pruned::BYTES),
            lent::part(&mut self.c, short == 3, pruned::BYTES),
            lent::part(&mut self.live, short == 4, pruned::PLACES),
        )
    }

    // Whether each buffer is as it should be.
    fn is_fixed(&self, ran: bool) -> bool {
        lent::as_fixed(&self.a, lent::BYTE, pruned::BYTES, ran)
            & lent::as_fixed(&self.b, lent::BYTE, pruned::BYTES, ran)
            & lent::as_fixed(&self.c, lent::BYTE, pruned::BYTES, ran)
            & lent::as_fixed(&self.live, lent::BYTE, pruned::PLACES, ran)
    }
}

// Answers a request over buffers that are filled anew, and returns whether the answer went out.
fn answer(rt: &HostRuntime, short: u8, raw: &[u8], other: &[u8]) -> bool {
    let mut work = Work::new();
    let got = work.check(short, raw, other);
    let number = pruned::number_of(got);
    // The lines were held against one another where the number is one of these.
    let ran = matches!(number, 0 | 7);
    wire::write_answer(rt, number, work.is_fixed(ran), pruned::place_of(got))
}

// Reads a request and answers it, and returns whether to go on.
fn serve_one(rt: &HostRuntime) -> bool {
    let mut raw = [0; TEXT];
    let mut other = [0; TEXT];
    let mut from = rt.stdin();
    match wire::read_request(&mut from, &mut raw, &mut other) {
        Some(q) => answer(
            rt,
            q.short,
            lines::cut(&raw, 0, q.raw),
            lines::cut(&other, 0, q.other),
        ),
        None => false,
    }
}

// Answers until the input ends. No run uses up the turns.
fn main(rt: HostRuntime) {
    for _ in 0..u64::MAX {
        if !serve_one(&rt) {
            return;
        }
    }
}
