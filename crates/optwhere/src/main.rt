// Says which raw lines are behind a tidy line: `optwhere RECORDS LINE` writes a number a line, and `optwhere --vim RAW RECORDS LINE` the name
// of RAW, the number and the text. It writes `refused`, the number and the place to standard output where the records are not right. On
// standard error it says nothing where it answered, `optwhere: refused ..` first where it refused, and anything else where it could not read
// or write: it sets no exit status, so tools/front.sh makes one of that.
#![tactic(auto)]

mod show;
mod tell;

use input::host;

// How many bytes of records are taken: 100,000 of the longer form. No file that is taken and is right has more lines.
const MOST: usize = 1100000;

const LINES: usize = 100000;

// How many bytes of a raw listing are taken.
const RAW_MOST: usize = 1048576;

// Rooms for both: one byte more than is taken, so that a longer file is seen.
const ROOM: usize = MOST + 1;

const RAW_ROOM: usize = RAW_MOST + 1;

// Reads the file of a name, of at most so many bytes; says why where it did not come whole.
fn load_named<'a>(
    rt: &HostRuntime,
    name: &[u8],
    most: usize,
    room: &'a mut [u8],
) -> Option<&'a [u8]> {
    let file = input::read_named(rt, b"optwhere", name, room)?;
    if file.len() > most {
        tell::too_long(rt, name, most);
        return None;
    }
    Some(file)
}

// Reads the records that argument `at` names, likewise.
fn load<'a>(rt: &HostRuntime, at: usize, room: &'a mut [u8]) -> Option<&'a [u8]> {
    match host::take_arg(rt, at, &mut host::buffer()) {
        Ok(name) => load_named(rt, name, MOST, room),
        Err(why) => {
            tell::fail(rt, b"take", b"the name of a file", why);
            None
        }
    }
}

// The numbers of the raw lines that are behind line `n`, in a room. A refusal is written, for a script and for a person.
fn behind<'a>(
    rt: &HostRuntime,
    file: &[u8],
    n: usize,
    room: &'a mut [usize],
) -> Option<&'a [usize]> {
    let got = reader::lines_of(reader::form_of(file), file, n, room);
    if let Ok(count) = got {
        return room.get(..count);
    }
    let number = reader::number_of(got);
    let place = reader::place_of(got);
    match host::write_refused(rt, number, place) {
        Ok(()) => tell::explain(rt, number, place),
        Err(why) => tell::cannot_write(rt, why),
    }
    None
}

// Takes the records that argument `at` names, and writes the numbers of the lines that are behind line `n`.
fn answer_numbers(rt: &HostRuntime, at: usize, n: usize) {
    let mut file_room = host::room::<u8, ROOM>();
    let mut line_room = host::room::<usize, LINES>();
    if let Some(file) = load(rt, at, &mut file_room)
        && let Some(numbers) = behind(rt, file, n, &mut line_room)
        && let Err(why) = show::put_numbers(rt, numbers)
    {
        tell::cannot_write(rt, why);
    }
}

// Takes the records that argument `at` names, and writes the lines of a raw listing that are behind line `n`, each behind the name of its file and its number.
fn answer_lines(rt: &HostRuntime, at: usize, n: usize, raw: &[u8], name: &[u8]) {
    let mut file_room = host::room::<u8, ROOM>();
    let mut line_room = host::room::<usize, LINES>();
    let Some(file) = load(rt, at, &mut file_room) else {
        return;
    };
    let Some(numbers) = behind(rt, file, n, &mut line_room) else {
        return;
    };
    let records = reader::count_of(reader::check(reader::form_of(file), file));
    let there = lines::count_lines(raw);
    if records != there {
        tell::other_listing(rt, name, there, records);
    } else if let Err(why) = show::put_lines(rt, numbers, raw, name) {
        tell::cannot_write(rt, why);
    }
}

// Answers `--vim RAW RECORDS LINE`, where the raw listing has a name: lines count from 1.
fn for_editor(rt: &HostRuntime, name: &[u8]) {
    let mut raw_room = host::room::<u8, RAW_ROOM>();
    match number_at(rt, 4) {
        None | Some(0) => tell::no_number(rt, 4),
        Some(n) => {
            if let Some(raw) = load_named(rt, name, RAW_MOST, &mut raw_room) {
                answer_lines(rt, 3, n - 1, raw, name);
            }
        }
    }
}

// The number that an argument is.
fn number_at(rt: &HostRuntime, at: usize) -> Option<usize> {
    host::number_in(host::arg(rt, at, &mut host::buffer()))
}

fn main(rt: HostRuntime) {
    let rt = &rt;
    match host::arg_count(rt) {
        5 if host::arg_is(rt, 1, b"--vim") => match host::take_arg(rt, 2, &mut host::buffer()) {
            Ok(name) => for_editor(rt, name),
            Err(why) => tell::fail(rt, b"take", b"the name of the raw listing", why),
        },
        3 => match number_at(rt, 2) {
            Some(n) => answer_numbers(rt, 1, n),
            None => tell::no_number(rt, 2),
        },
        _ => host::say(
            rt,
            b"optwhere: it wants the file of records and the number of a line\n",
        ),
    }
}
