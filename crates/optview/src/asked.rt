// The arguments of the program.
use input::host;

// What is asked: plain text in the place of a page, and the mode.
#[derive(Clone, Copy, Default)]
pub struct Options {
    pub text: bool,
    strict: bool,
    joined: bool,
}

impl Options {
    // The number of the mode.
    pub fn mode(self) -> usize {
        match (self.joined, self.strict) {
            (false, false) => 0,
            (false, true) => 1,
            (true, false) => 2,
            (true, true) => 3,
        }
    }
}

// What is asked, and the place of the first argument that is no option.
#[derive(Clone, Copy)]
pub struct Asked {
    pub options: Options,
    pub rest: usize,
}

// What an argument is: an option, `--`, or a file's name.
#[derive(Clone, Copy)]
enum Word {
    Text,
    Strict,
    Joined,
    End,
    Name,
}

// What an argument is. One that is missing or very long is no option.
fn word_at(rt: &HostRuntime, at: usize) -> Word {
    match host::arg(rt, at, &mut host::buffer()) {
        b"--text" => Word::Text,
        b"--strict" => Word::Strict,
        b"--joined" => Word::Joined,
        b"--" => Word::End,
        _ => Word::Name,
    }
}

// Takes the options, in any order, and `--`.
pub fn take_words(rt: &HostRuntime) -> Asked {
    let mut options = Options::default();
    let count = host::arg_count(rt);
    for at in 1..count {
        match word_at(rt, at) {
            Word::Text => options.text = true,
            Word::Strict => options.strict = true,
            Word::Joined => options.joined = true,
            Word::End => {
                return Asked {
                    options,
                    rest: at + 1,
                };
            }
            Word::Name => return Asked { options, rest: at },
        }
    }
    Asked {
        options,
        rest: count,
    }
}
