// Replays requests that are each followed by the original's answer.
use crate::reply::Room;
use crate::wire;
use crate::wire::End;
use input::host::Output;
use std::fs::File;

// How many requests were answered, how many of these answers agreed, and how many requests have none.
#[derive(Clone, Copy, Default)]
struct Tally {
    asked: u64,
    agreed: u64,
    passed: u64,
}

// How many disagreements are shown.
const SHOWN: u64 = 5;

// Writes a text, a number and a text.
fn say_count(rt: &HostRuntime, before: &[u8], n: u64, after: &[u8]) {
    let mut out = Output::new(rt);
    out.text(before);
    out.number(n);
    out.text(after);
}

impl Tally {
    // How many requests there were.
    fn requests(self) -> u64 {
        self.asked.saturating_add(self.passed)
    }

    // Says that the next request differs, unless enough were shown. Requests count from 0.
    fn differs(self, rt: &HostRuntime, function: u8) {
        if SHOWN <= self.asked.saturating_sub(self.agreed) {
            return;
        }
        say_count(rt, b"differs: request ", self.requests(), b" function ");
        say_count(rt, b"", u64::from(function), b"\n");
    }

    // One answer more, that agrees or differs.
    fn count(&mut self, agrees: bool) {
        self.asked = self.asked.saturating_add(1);
        if agrees {
            self.agreed = self.agreed.saturating_add(1);
        }
    }

    // Replays one request. The original's answer is read into the room of the first text, which is no longer needed then.
    fn replay_one(
        &mut self,
        rt: &HostRuntime,
        from: &mut File,
        room: &mut Room,
    ) -> Result<(), End> {
        let reply = room.reply_one(from)?;
        let m = wire::read_text(from, &mut room.a)?;
        match reply.length {
            Some(n) => {
                let agrees = m <= room.a.len()
                    && lines::same(lines::cut(&room.out, 0, n), lines::cut(&room.a, 0, m));
                if !agrees {
                    self.differs(rt, reply.function);
                }
                self.count(agrees);
            }
            None => self.passed = self.passed.saturating_add(1),
        }
        Ok(())
    }

    // Replays a file, and tells where it ended. No run uses up the turns.
    fn replay_all(&mut self, rt: &HostRuntime, from: &mut File, room: &mut Room) -> End {
        for _ in 0..u64::MAX {
            if let Err(end) = self.replay_one(rt, from, room) {
                return end;
            }
        }
        End::Between
    }

    // Says how a replay came out.
    fn report(self, rt: &HostRuntime) {
        if 0 < self.passed {
            say_count(rt, b"not answered: ", self.passed, b"\n");
        }
        say_count(rt, b"", self.agreed, b" of ");
        say_count(rt, b"", self.asked, b" agree\n");
    }
}

// Replays a file, and says how it came out.
pub fn replay(rt: &HostRuntime, from: &mut File, room: &mut Room) {
    let mut tally = Tally::default();
    match tally.replay_all(rt, from, room) {
        End::Between => tally.report(rt),
        End::Within => say_count(
            rt,
            b"the file is cut after ",
            tally.requests(),
            b" requests\n",
        ),
    }
}
