// Tidies a larger listing: `optlarge [--strict] [--joined] [--pass N] [--origins RECORDS] [--form OL|OM] [--] [FILE]`, as optlines does a smaller one. Its buffers take some
// 30 MB of the stack: tools/front.sh raises its limit. A listing that is small enough goes the way of optlines, unless its records are asked for in the form `OM`.
#![tactic(auto)]

use input::host;
use limits::Answer;
use origins::Form;
use tidying::asked::Task;

// Room for a text: one byte more than is taken, so that a longer text is seen.
const TEXT: usize = 1048577;

// A work buffer of bytes, and room for a result.
const WORK: usize = 2097153;

// A work buffer of blocks.
const BLOCKS: usize = 1048576;

// Room for the records of all lines, in either form.
const RECORDS: usize = 1100000;

// A table of flags or words over registers.
const REGISTERS: usize = 262143;

// A table of the owners of places.
const OWNERS: usize = 131071;

// A table with a flag or a word a line, and one with two notes a line.
const LINES: usize = 100000;

const NOTES: usize = 200000;

// Does to a text what is asked, by the second pair, with the work buffers and tables that it needs.
fn answer_large(
    pass: Option<usize>,
    mode: usize,
    form: Form,
    text: &[u8],
    out: &mut [u8],
    orig: &mut [u8],
) -> Answer {
    let mut a = host::room::<u8, WORK>();
    let mut b = host::room::<u8, WORK>();
    let mut c = host::room::<u8, WORK>();
    let mut d = host::room::<u8, WORK>();
    let mut e = host::room::<u8, WORK>();
    let mut f = host::room::<u8, REGISTERS>();
    let mut g = host::room::<u8, REGISTERS>();
    let mut h = host::room::<u8, LINES>();
    let mut u = host::room::<u32, BLOCKS>();
    let mut v = host::room::<u32, NOTES>();
    let mut w = host::room::<u32, NOTES>();
    let mut x = host::room::<u32, NOTES>();
    let mut p = host::room::<usize, LINES>();
    let mut q = host::room::<usize, LINES>();
    let mut r = host::room::<usize, REGISTERS>();
    let mut t = host::room::<usize, REGISTERS>();
    let mut own = host::room::<usize, OWNERS>();
    let mut table = host::room::<usize, LINES>();
    match pass {
        Some(pass) => opt::run_pass_large(
            pass, mode, form, text, &mut a, &mut b, &mut c, &mut d, &mut e, &mut f, &mut g, &mut h,
            &mut u, &mut v, &mut w, &mut x, &mut p, &mut q, &mut r, &mut t, &mut own, &mut table,
            out, orig,
        ),
        None => opt::optimize_large(
            mode, form, text, &mut a, &mut b, &mut c, &mut d, &mut e, &mut f, &mut g, &mut h,
            &mut u, &mut v, &mut w, &mut x, &mut p, &mut q, &mut r, &mut t, &mut own, &mut table,
            out, orig,
        ),
    }
}

// Whether the first pair takes a text, with records in a form.
fn is_small(form: Form, text: &[u8]) -> bool {
    matches!(form, Form::Ol)
        && text.len() <= limits::SMALL_BYTES
        && lines::count_lines(text) <= limits::SMALL_LINES
}

// Does to a text what is asked: by the first pair where it takes it, which needs little of the stack. The function for the second pair is called in two
// places, so that the compiler leaves it a frame of its own.
fn answer(task: Task, form: Form, text: &[u8], out: &mut [u8], orig: &mut [u8]) -> Answer {
    if is_small(form, text) {
        return tidying::answer_small(task, text, out, orig);
    }
    if task.pass.is_some() {
        return answer_large(task.pass, task.mode(), form, text, out, orig);
    }
    answer_large(None, task.mode(), form, text, out, orig)
}

fn main(rt: HostRuntime) {
    tidying::run_with_rooms::<TEXT, WORK, RECORDS, _>(&rt, b"optlarge", true, answer);
}
