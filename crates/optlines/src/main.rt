// Tidies a listing: `optlines [--strict] [--joined] [--pass N] [--origins RECORDS] [--] [FILE]`, the options in any order. It reads FILE, or
// standard input, and writes the tidy listing, or `refused`, the number and the place, to standard output, and the records of a tidy one to RECORDS. On standard error it says nothing where it tidied, `optlines: refused ..` first where it refused, and
// anything else where it could not read or write: it sets no exit status, so tools/front.sh makes one of that.
#![tactic(auto)]

use input::host;

// Room for a text: one byte more than is taken, so that a longer text is seen.
const TEXT: usize = 16385;

// Room for a result: twice the longest text.
const RESULT: usize = 32769;

// Room for the records of all lines.
const RECORDS: usize = 7168;

fn main(rt: HostRuntime) {
    tidying::run_with_rooms::<TEXT, RESULT, RECORDS, _>(
        &rt,
        b"optlines",
        false,
        |task, _, text, out, orig| tidying::answer_small(task, text, out, orig),
    );
}
