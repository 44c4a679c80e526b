// What the programs that tidy a listing share: the first pair of entries over buffers of its own, and the way of a listing in and of what came of it out.
#![tactic(auto)]

pub mod asked;
pub mod tell;

ghost use Rattle.std.specs.Prelude.{◌≡◌, ◌<◌, ◌*◌, ◌^◌, cond, leb};
ghost use Rattle.origins.specs.Form.{form_shape, size_of};

use asked::{Asked, Task};
use input::host;
use input::host::Failure;
use limits::Answer;
use origins::Form;

// The sizes of the work buffers of the first pair.
const BYTES: usize = 32769;

const BLOCKS: usize = 16384;

// Does to a text what is asked, by the first pair, with the work buffers that it needs.
pub fn answer_small(task: Task, text: &[u8], out: &mut [u8], orig: &mut [u8]) -> Answer {
    let mut a = host::room::<u8, BYTES>();
    let mut b = host::room::<u8, BYTES>();
    let mut c = host::room::<u8, BYTES>();
    let mut d = host::room::<u8, BYTES>();
    let mut e = host::room::<u8, BYTES>();
    let mut u = host::room::<u32, BLOCKS>();
    let mode = task.mode();
    match task.pass {
        Some(pass) => opt::run_pass(
            pass, mode, text, &mut a, &mut b, &mut c, &mut d, &mut e, &mut u, out, orig,
        ),
        None => opt::optimize(
            mode, text, &mut a, &mut b, &mut c, &mut d, &mut e, &mut u, out, orig,
        ),
    }
}

// Writes what came of a text to standard output.
fn write_answer(rt: &HostRuntime, answer: Answer, out: &[u8]) -> Result<(), Failure> {
    match limits::number_of(answer) {
        0 => host::write(rt, lines::cut(out, 0, limits::length_of(answer))),
        number => host::write_refused(rt, number, limits::place_of(answer)),
    }
}

// Writes records to the file that argument `at` names, and says why where they did not go there whole.
fn put_records(rt: &HostRuntime, program: &[u8], at: usize, records: &[u8]) {
    match host::take_arg(rt, at, &mut host::buffer()) {
        Ok(name) => {
            if let Err(why) = host::write_file(rt, name, records) {
                host::say_failed(rt, program, b"write", name, why);
            }
        }
        Err(why) => {
            let name = b"the name of the file for the records";
            host::say_failed(rt, program, b"take", name, why);
        }
    }
}

// How many bytes the records of `n` lines are, in a form: a text that is taken has at most 100,000.
pub fn records_size(form: Form, n: usize) -> usize
    ensures { result ≡ cond (leb n 100000) (n * size_of (form_shape form)) 0 }
{
    if n > limits::LARGE_LINES {
        return 0;
    }
    match form {
        Form::Ol => n * 7,
        Form::Om => n * 11,
    }
}

// Says what came of a text. A refusal is told on standard error too: a tidy text may read like one, and a person wants to know more.
pub fn report(
    rt: &HostRuntime,
    program: &[u8],
    task: Task,
    answer: Answer,
    text: &[u8],
    name: &[u8],
    out: &[u8],
    records: &[u8],
) {
    if let Err(why) = write_answer(rt, answer, out) {
        host::say_failed(rt, program, b"write", b"standard output", why);
        return;
    }
    let number = limits::number_of(answer);
    if number != 0 {
        tell::explain(rt, program, number, limits::place_of(answer), text, name);
    } else if let Some(at) = task.records {
        put_records(rt, program, at, records);
    }
}

// Tidies a text that is there whole over lent room for what it becomes and for the records, and says what came of it.
fn tidy_over<Tidy: FnOnce(Task, Form, &[u8], &mut [u8], &mut [u8]) -> Answer>(
    rt: &HostRuntime,
    program: &[u8],
    task: Task,
    text: &[u8],
    name: &[u8],
    out: &mut [u8],
    orig: &mut [u8],
    tidy: Tidy,
)
    requires callable { Tidy.IsAlwaysCallable tidy }
{
    let form = task.form_for(text);
    let answer = tidy(task, form, text, out, orig);
    let size = records_size(form, lines::count_lines(text));
    report(
        rt,
        program,
        task,
        answer,
        text,
        name,
        out,
        lines::cut(orig, 0, size),
    );
}

// The same, over room of its own.
#[inline(never)]
fn tidy_text<
    const RESULT: usize,
    const RECORDS: usize,
    Tidy: FnOnce(Task, Form, &[u8], &mut [u8], &mut [u8]) -> Answer,
>(rt: &HostRuntime, program: &[u8], task: Task, text: &[u8], name: &[u8], tidy: Tidy)
    requires callable { Tidy.IsAlwaysCallable tidy }
    requires sizes { (RESULT < 2 ^ 63) × (RECORDS < 2 ^ 63) }
{
    let mut out = host::room::<u8, RESULT>();
    let mut orig = host::room::<u8, RECORDS>();
    tidy_over::<Tidy>(rt, program, task, text, name, &mut out, &mut orig, tidy);
}

// Reads the listing that is asked for, over room for a text, and tidies it. Of a text that did not come whole nothing is written.
#[inline(never)]
fn tidy_named<
    const TEXT: usize,
    const RESULT: usize,
    const RECORDS: usize,
    Tidy: FnOnce(Task, Form, &[u8], &mut [u8], &mut [u8]) -> Answer,
>(rt: &HostRuntime, program: &[u8], asked: Asked, tidy: Tidy)
    requires callable { Tidy.IsAlwaysCallable tidy }
    requires sizes { (TEXT < 2 ^ 63) × ((RESULT < 2 ^ 63) × (RECORDS < 2 ^ 63)) }
{
    let mut name = host::buffer();
    let mut room = host::room::<u8, TEXT>();
    if let Some((name, text)) = input::take_listing(rt, program, asked.at, &mut name, &mut room) {
        tidy_text::<RESULT, RECORDS, Tidy>(rt, program, asked.task, text, name, tidy);
    }
}

// A program of a name that tidies the listing that its arguments name, by what `tidy` does to a text, with records in a form: over lent room for a text, for what it
// becomes and for the records. Of a text that did not come whole nothing is written; one that is longer than its room is cut there, so lend a byte more than `tidy`
// takes. `forms` says whether the program has the option for a form.
pub fn run<Tidy: FnOnce(Task, Form, &[u8], &mut [u8], &mut [u8]) -> Answer>(
    rt: &HostRuntime,
    program: &[u8],
    forms: bool,
    room: &mut [u8],
    out: &mut [u8],
    orig: &mut [u8],
    tidy: Tidy,
)
    requires { Tidy.IsAlwaysCallable tidy }
{
    let asked = match asked::ask(rt, forms) {
        Ok(asked) => asked,
        Err(wrong) => {
            tell::wrong(rt, program, wrong);
            return;
        }
    };
    let mut name = host::buffer();
    if let Some((name, text)) = input::take_listing(rt, program, asked.at, &mut name, room) {
        tidy_over::<Tidy>(rt, program, asked.task, text, name, out, orig, tidy);
    }
}

// The same, over room of its own. Each room is in the frame of a function that is called where the room is needed: what is wrong with the arguments is told over little
// of the stack.
pub fn run_with_rooms<
    const TEXT: usize,
    const RESULT: usize,
    const RECORDS: usize,
    Tidy: FnOnce(Task, Form, &[u8], &mut [u8], &mut [u8]) -> Answer,
>(rt: &HostRuntime, program: &[u8], forms: bool, tidy: Tidy)
    requires callable { Tidy.IsAlwaysCallable tidy }
    requires sizes { (TEXT < 2 ^ 63) × ((RESULT < 2 ^ 63) × (RECORDS < 2 ^ 63)) }
{
    match asked::ask(rt, forms) {
        Ok(asked) => tidy_named::<TEXT, RESULT, RECORDS, Tidy>(rt, program, asked, tidy),
        Err(wrong) => tell::wrong(rt, program, wrong),
    }
}
