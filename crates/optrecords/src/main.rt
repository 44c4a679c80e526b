// Writes a record file in a form: `optrecords OL` or `optrecords OM`. It reads a file of either form from standard input, told by its first
// mark, and writes it in the form that is asked for, or `refused`, the number and the place, to standard output. On standard error it says
// nothing where it wrote the file, `optrecords: refused ..` first where it refused, and anything else where it could not read or write: it
// sets no exit status, so tools/front.sh makes one of that.
#![tactic(auto)]

mod tell;

use input::host;
use input::host::Failure;
use origins::Form;
use reader::Reply;

// How many bytes are taken: 100,000 records of the longer form.
const MOST: usize = 1100000;

// Room for what is read: one byte more than is taken, so that a longer file is seen.
const ROOM: usize = MOST + 1;

// Writes what came of a file to standard output.
fn write_answer(rt: &HostRuntime, answer: Reply, out: &[u8]) -> Result<(), Failure> {
    match answer {
        Ok(count) => host::write(rt, lines::cut(out, 0, count)),
        Err(_) => host::write_refused(rt, reader::number_of(answer), reader::place_of(answer)),
    }
}

// Writes a file in the form `g`, or why it is not written. No file that is taken is longer in either form.
fn answer_to(rt: &HostRuntime, g: Form, file: &[u8]) {
    let mut out = host::room::<u8, MOST>();
    let answer = reader::turn(reader::form_of(file), g, file, &mut out);
    if let Err(why) = write_answer(rt, answer, &out) {
        host::say_failed(rt, b"optrecords", b"write", b"standard output", why);
        return;
    }
    if answer.is_err() {
        tell::explain(rt, reader::number_of(answer), reader::place_of(answer));
    }
}

// Reads standard input whole, and writes it in the form `g`. Of a file that did not come whole nothing is written.
fn take_input(rt: &HostRuntime, g: Form) {
    let mut room = host::room::<u8, ROOM>();
    match input::read_standard(rt, b"optrecords", &mut room) {
        Some(file) if file.len() <= MOST => answer_to(rt, g, file),
        Some(_) => host::say(
            rt,
            b"optrecords: cannot take more than 1100000 bytes of standard input\n",
        ),
        None => {}
    }
}

fn main(rt: HostRuntime) {
    let rt = &rt;
    let at = if host::arg_is(rt, 1, b"--") { 2 } else { 1 };
    let is_last = host::arg_count(rt) == at + 1;
    match host::arg(rt, at, &mut host::buffer()) {
        b"OL" if is_last => take_input(rt, Form::Ol),
        b"OM" if is_last => take_input(rt, Form::Om),
        _ => host::say(
            rt,
            b"optrecords: give one argument, the form to write: OL or OM\n",
        ),
    }
}
