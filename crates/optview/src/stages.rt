// What becomes of each line, stage by stage. The first stage is the removal of lines that declare globals, and each pass is one more.
use limits::Answer;
use origins::{Form, Went};

// How many lines a listing has at most.
const LINES: usize = 1024;

// The stated sizes of the work buffers.
const BYTES: usize = 32769;

const BLOCKS: usize = 16384;

// A stage: the removal of lines that declare globals, or a pass.
#[derive(Clone, Copy, PartialEq, Eq)]
pub enum Stage {
    Globals,
    Temps,
    Once,
    Phis,
    Calls,
    Decls,
    Bind,
}

impl Stage {
    // The pass that it is, where it is one; they count from 1.
    pub fn pass(self) -> Option<usize> {
        match self {
            Stage::Globals => None,
            Stage::Temps => Some(1),
            Stage::Once => Some(2),
            Stage::Phis => Some(3),
            Stage::Calls => Some(4),
            Stage::Decls => Some(5),
            Stage::Bind => Some(6),
        }
    }

    // How many stages there are up to this one.
    fn number(self) -> usize {
        match self.pass() {
            Some(n) => n.saturating_add(1),
            None => 1,
        }
    }
}

// The stages before the last.
const BEFORE_LAST: [Stage; 6] = [
    Stage::Globals,
    Stage::Temps,
    Stage::Once,
    Stage::Phis,
    Stage::Calls,
    Stage::Decls,
];

// For each line the stage in which it went, and that in which its value went into another line.
#[derive(Drop)]
pub struct Noted {
    gone: [Option<Stage>; LINES],
    held: [Option<Stage>; LINES],
}

impl Noted {
    // Nothing is noted.
    pub fn new() -> Noted {
        Noted {
            gone: [None; LINES],
            held: [None; LINES],
        }
    }

    // The stage in which a line went.
    pub fn gone(&self, line: usize) -> Option<Stage> {
        *self.gone.get(line)?
    }

    // The stage in which its value went into another line.
    pub fn held(&self, line: usize) -> Option<Stage> {
        *self.held.get(line)?
    }

    // Notes of the first `n` lines that they are gone, or that their values are in others, after a stage. What is noted stays.
    fn note(&mut self, stage: Stage, n: usize, records: &[u8]) {
        for i in 0..n.min(LINES) {
            match reader::record_at(Form::Ol, records, i) {
                Went::Equal(_) | Went::Changed(_) => {}
                Went::Inside(_) => self.held[i] = self.held[i].or(Some(stage)),
                Went::Away => self.gone[i] = self.gone[i].or(Some(stage)),
            }
        }
    }

    // Runs the stages up to one over a listing, and notes what became of its lines.
    fn run(
        &mut self,
        stage: Stage,
        mode: usize,
        text: &[u8],
        tidy: &mut [u8],
        records: &mut [u8],
    ) -> Answer {
        let answer = run_first(stage.number(), mode, text, tidy, records);
        if answer.is_ok() {
            self.note(stage, lines::count_lines(text), records);
        }
        answer
    }

    // Runs all stages, one more each time. What the last run answers is left in `tidy` and `records`.
    pub fn run_all(
        &mut self,
        mode: usize,
        text: &[u8],
        tidy: &mut [u8],
        records: &mut [u8],
    ) -> Answer {
        for stage in BEFORE_LAST {
            self.run(stage, mode, text, tidy, records)?;
        }
        self.run(Stage::Bind, mode, text, tidy, records)
    }
}

// Runs the first stages over a listing, with the work buffers that they need.
fn run_first(n: usize, mode: usize, text: &[u8], out: &mut [u8], orig: &mut [u8]) -> Answer {
    let mut a = [0; BYTES];
    let mut b = [0; BYTES];
    let mut c = [0; BYTES];
    let mut d = [0; BYTES];
    let mut e = [0; BYTES];
    let mut u = [0; BLOCKS];
    opt::run_stages(
        n, mode, text, &mut a, &mut b, &mut c, &mut d, &mut e, &mut u, out, orig,
    )
}
