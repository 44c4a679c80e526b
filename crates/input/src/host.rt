// The program's arguments, its standard streams, and files by name, over the system.
ghost use Rattle.std.specs.Prelude.{◌≡◌, ◌≤◌, IfOk, length};

use std::env::{Env, FillError};
use std::fmt::{Display, Formatter, InlineText};
use std::fs::File;
use std::io::{Error, Read, Write};
use std::str::Utf8Error;
use std::{fmt, str};

// Why something failed: an argument is missing or longer than its room, a name, by which no file is opened, is not UTF-8, or the system gave a number.
#[derive(Clone, Copy, PartialEq, Eq)]
pub enum Failure {
    Missing,
    TooLong,
    NotUtf8,
    System(i32),
}

// The system's numbers: for a call that was interrupted, a device that failed, an argument that is missing, a file that cannot be asked to keep what was
// written, an argument that is too long, and a name that is not UTF-8.
pub const INTERRUPTED: i32 = 4;

const DEVICE: i32 = 5;

const MISSING: i32 = 22;

const NOT_ASKED: i32 = 22;

const TOO_LONG: i32 = 36;

const NOT_UTF8: i32 = 84;

impl From<Error> for Failure {
    fn from(e: Error) -> Failure {
        Failure::System(e.raw_os_error().unwrap_or(DEVICE))
    }
}

impl From<FillError> for Failure {
    fn from(e: FillError) -> Failure {
        match e {
            FillError::NotPresent => Failure::Missing,
            FillError::TooLong => Failure::TooLong,
        }
    }
}

impl From<Utf8Error> for Failure {
    fn from(_e: Utf8Error) -> Failure {
        Failure::NotUtf8
    }
}

// The system's reason, without the number behind it.
impl Display for Failure {
    fn fmt<W: fmt::Write>(&self, f: &mut Formatter<W>) -> fmt::Result {
        let number = match *self {
            Failure::Missing => MISSING,
            Failure::TooLong => TOO_LONG,
            Failure::NotUtf8 => NOT_UTF8,
            Failure::System(number) => number,
        };
        let reason = InlineText::<256>::of(Error::from_raw_os_error(number));
        match reason.as_str().split_once(" (os error ") {
            Some((words, _)) => f.write_str(words),
            None => f.write_str(reason.as_str()),
        }
    }
}

// A room of zeros. It is made by a function, so that no proof counts the zeros of a large one.
pub fn room<T: Copy + Default, const N: usize>() -> [T; N]
    ensures { N ≡ length result }
{
    [T::default(); N]
}

// 4,096 zeros, which hold any path.
pub fn buffer() -> [u8; 4096]
    ensures { 4096 ≡ length result }
{
    room()
}

// 65,536 zeros.
pub fn large_buffer() -> [u8; 65536]
    ensures { 65536 ≡ length result }
{
    room()
}

// Writes all of a text, or stops at the first write that takes nothing or fails, when some of it may be written. Of an empty text it writes nothing.
fn write_all<W: Write>(to: &mut W, text: &[u8]) -> Result<(), Failure> {
    let mut done = 0;
    // Kept: the place moves by how many bytes a write takes, and one that is interrupted is told.
    while done < text.len() {
        let n = to.write(&text[done..])?;
        if n == 0 {
            return Err(Failure::System(DEVICE));
        }
        done += n;
    }
    Ok(())
}

// Writes all of a text to standard output, or stops where it takes no more, when some of it may be written.
pub fn write(rt: &HostRuntime, text: &[u8]) -> Result<(), Failure> {
    write_all(&mut rt.stdout(), text)
}

// Writes a number to standard output, in digits.
pub fn write_number<N: Display + Drop>(rt: &HostRuntime, n: N) -> Result<(), Failure> {
    write(rt, InlineText::<24>::of(n).as_str().as_bytes())
}

// Standard output. Each write is tried, and of those that failed the last says why.
#[derive(Clone, Copy)]
pub struct Output<'a> {
    rt: &'a HostRuntime,
    sent: Result<(), Failure>,
}

impl<'a> Output<'a> {
    pub fn new(rt: &'a HostRuntime) -> Output<'a> {
        Output { rt, sent: Ok(()) }
    }

    // Notes why a write failed.
    pub fn fail(&mut self, why: Failure) {
        self.sent = Err(why);
    }

    // Writes a text.
    pub fn text(&mut self, text: &[u8]) {
        if let Err(why) = write(self.rt, text) {
            self.fail(why);
        }
    }

    // Writes a number, in digits.
    pub fn number<N: Display + Drop>(&mut self, n: N) {
        if let Err(why) = write_number(self.rt, n) {
            self.fail(why);
        }
    }

    // The same in four digits of sixteen, or as many as it has.
    pub fn hex(&mut self, n: u64) {
        self.number(format_args!("{n:04x}"));
    }

    // Whether all went out.
    pub fn sent(self) -> Result<(), Failure> {
        self.sent
    }
}

// Writes `refused`, a number and a place as one line to standard output.
pub fn write_refused(rt: &HostRuntime, number: u8, place: usize) -> Result<(), Failure> {
    let mut out = Output::new(rt);
    out.text(b"refused ");
    out.number(number);
    out.text(b" ");
    out.number(place);
    out.text(b"\n");
    out.sent()
}

// Writes a text to standard error, as far as it takes it.
pub fn say(rt: &HostRuntime, text: &[u8]) {
    let _ = write_all(&mut rt.stderr(), text);
}

// Writes a number to standard error, in digits.
pub fn say_number<N: Display + Drop>(rt: &HostRuntime, n: N) {
    say(rt, InlineText::<24>::of(n).as_str().as_bytes());
}

// Writes a line to standard error: the program, what it cannot do to what, and why. A file's name stands behind fixed words, so that no name makes one kind of
// message look like another.
pub fn say_failed(rt: &HostRuntime, program: &[u8], verb: &[u8], what: &[u8], why: Failure) {
    say(rt, program);
    say(rt, b": cannot ");
    say(rt, verb);
    say(rt, b" ");
    say(rt, what);
    say(rt, b": ");
    say(rt, InlineText::<256>::of(why).as_str().as_bytes());
    say(rt, b"\n");
}

// How many arguments the program was started with, its own name among them.
pub fn arg_count(rt: &HostRuntime) -> usize {
    let mut room = [0u8; 1];
    for i in 0..usize::MAX {
        if let Err(FillError::NotPresent) = rt.arg(i, &mut room) {
            return i;
        }
    }
    usize::MAX
}

// Argument i, which is put at the start of a room.
pub fn take_arg<'a>(rt: &HostRuntime, i: usize, room: &'a mut [u8]) -> Result<&'a [u8], Failure>
    ensures { IfOk result (λ word. length word.now ≤ length room.old) }
{
    let n = rt.arg(i, room)?;
    Ok(&room[..n])
}

// The same, or nothing where it is missing or longer than the room.
pub fn arg<'a>(rt: &HostRuntime, i: usize, room: &'a mut [u8]) -> &'a [u8]
    ensures { length result.now ≤ length room.old }
{
    take_arg(rt, i, room).unwrap_or(b"")
}

// Whether argument i is a word. One that is missing or very long is none.
pub fn arg_is(rt: &HostRuntime, i: usize, word: &[u8]) -> bool {
    arg(rt, i, &mut buffer()) == word
}

// The number that a word of digits is, or the greatest where that is greater. A word with any other byte, and an empty one, is none.
pub fn number_in(word: &[u8]) -> Option<usize> {
    if word.is_empty() {
        return None;
    }
    let mut n = 0usize;
    for &b in word {
        if !b.is_ascii_digit() {
            return None;
        }
        n = n.saturating_mul(10).saturating_add((b - b'0') as usize);
    }
    Some(n)
}

// Opens the file of a name for reading.
pub fn open(rt: &HostRuntime, name: &[u8]) -> Result<File, Failure> {
    Ok(File::open(rt, str::from_utf8(name)?)?)
}

// Whether the system keeps what was written to a file: an error that no write has shown yet comes out here. What keeps nothing, as a pipe or a device, refuses to be
// asked, and that is no error.
fn kept(file: &File) -> Result<(), Failure> {
    match file.sync_all() {
        Err(e) if e.raw_os_error() != Some(NOT_ASKED) => Err(e.into()),
        _ => Ok(()),
    }
}

// Writes a text to the file of a name, which is emptied first, or made where it is missing.
pub fn write_file(rt: &HostRuntime, name: &[u8], text: &[u8]) -> Result<(), Failure> {
    let mut file = File::create(rt, str::from_utf8(name)?)?;
    write_all(&mut file, text)?;
    kept(&file)
}
