// One turn: a request is read and answered.
use crate::wire;
use crate::wire::{End, Request};
use std::io::Read;

// Room for a text, and for an answer.
const TEXT: usize = 65536;

const ANSWER: usize = 262144;

// Room for the texts of a request and for its answer.
#[derive(Drop)]
pub struct Room {
    pub a: [u8; TEXT],
    pub b: [u8; TEXT],
    pub out: [u8; ANSWER],
}

// The function of a request and the length of its answer; none where its texts or the answer did not fit.
#[derive(Clone, Copy)]
pub struct Reply {
    pub function: u8,
    pub length: Option<usize>,
}

impl Room {
    pub fn new() -> Room {
        Room {
            a: [0; TEXT],
            b: [0; TEXT],
            out: [0; ANSWER],
        }
    }

    // Writes the answer to a request and gives its length.
    fn answer(&mut self, q: Request) -> Option<usize> {
        if TEXT < q.a || TEXT < q.b {
            return None;
        }
        let a = lines::cut(&self.a, 0, q.a);
        let b = lines::cut(&self.b, 0, q.b);
        let n = answers::answer(q.function, q.number, a, b, &mut self.out);
        (n <= ANSWER).then_some(n)
    }

    // Reads a request and writes its answer.
    pub fn reply_one<R: Read>(&mut self, from: &mut R) -> Result<Reply, End> {
        let q = wire::read_request(from, &mut self.a, &mut self.b)?;
        Ok(Reply {
            function: q.function,
            length: self.answer(q),
        })
    }
}
