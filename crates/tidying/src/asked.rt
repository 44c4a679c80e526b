// The arguments of the programs that tidy a listing.
use input::host;
use origins::Form;

// What is asked: all passes or that of a number, in strict mode or not, in joined mode or not, with records in a form or in that which has room for all lines, and the
// place of the argument that names the file for the records, where there is one.
#[derive(Clone, Copy)]
pub struct Task {
    pub pass: Option<usize>,
    pub strict: bool,
    pub joined: bool,
    pub form: Option<Form>,
    pub records: Option<usize>,
}

impl Task {
    // The number of the mode that is asked for.
    pub fn mode(self) -> usize {
        match (self.strict, self.joined) {
            (false, false) => 0,
            (true, false) => 1,
            (false, true) => 2,
            (true, true) => 3,
        }
    }

    // The form of the records: that which is asked for, else `OL` where it has numbers for all lines.
    pub fn form_for(self, text: &[u8]) -> Form {
        match self.form {
            Some(form) => form,
            None if lines::count_lines(text) <= limits::OL_LINES => Form::Ol,
            None => Form::Om,
        }
    }
}

// What is asked, and the place of the argument that names the listing, past the last where there is none.
#[derive(Clone, Copy)]
pub struct Asked {
    pub task: Task,
    pub at: usize,
}

// What is wrong with the arguments: that at a place is no number of a pass, no form or no option that the program has, no file is named for the records, or more than
// one for the listing.
#[derive(Clone, Copy)]
pub enum Wrong {
    Pass(usize),
    Form(usize),
    Option(usize),
    NoRecords,
    Files,
}

// What an argument is: an option that a program has, `--`, an option that it has not, or a file's name.
#[derive(Clone, Copy)]
enum Word {
    Strict,
    Joined,
    Pass,
    Origins,
    Form,
    End,
    Unknown,
    Name,
}

// What an argument is. `forms` says whether the program has the option for a form. One that is missing or very long is a name.
fn word_at(rt: &HostRuntime, at: usize, forms: bool) -> Word {
    match host::arg(rt, at, &mut host::buffer()) {
        b"--strict" => Word::Strict,
        b"--joined" => Word::Joined,
        b"--pass" => Word::Pass,
        b"--origins" => Word::Origins,
        b"--form" if forms => Word::Form,
        b"--" => Word::End,
        [b'-', _, ..] => Word::Unknown,
        _ => Word::Name,
    }
}

// The form that an argument names.
fn form_at(rt: &HostRuntime, at: usize) -> Option<Form> {
    match host::arg(rt, at, &mut host::buffer()) {
        b"OL" => Some(Form::Ol),
        b"OM" => Some(Form::Om),
        _ => None,
    }
}

// Takes the arguments of a program: options in any order, that for a form where the program has it, then `--` or nothing, then a file's name or none.
pub fn ask(rt: &HostRuntime, forms: bool) -> Result<Asked, Wrong> {
    let count = host::arg_count(rt);
    let mut task = Task {
        pass: None,
        strict: false,
        joined: false,
        form: None,
        records: None,
    };
    let mut at = 1usize;
    // Every turn takes an argument at least.
    for _ in 0..count {
        let next = at.saturating_add(1);
        match word_at(rt, at, forms) {
            Word::Strict => task.strict = true,
            Word::Joined => task.joined = true,
            Word::Pass => {
                let pass = host::number_in(host::arg(rt, next, &mut host::buffer()));
                task.pass = Some(pass.ok_or(Wrong::Pass(next))?);
                at = next;
            }
            Word::Form => {
                task.form = Some(form_at(rt, next).ok_or(Wrong::Form(next))?);
                at = next;
            }
            Word::Origins => {
                if count <= next {
                    return Err(Wrong::NoRecords);
                }
                task.records = Some(next);
                at = next;
            }
            Word::End => {
                at = next;
                break;
            }
            Word::Unknown => return Err(Wrong::Option(at)),
            Word::Name => break,
        }
        at = at.saturating_add(1);
    }
    if count > at.saturating_add(1) {
        return Err(Wrong::Files);
    }
    Ok(Asked { task, at })
}
