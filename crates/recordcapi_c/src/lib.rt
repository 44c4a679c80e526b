// Exports the entries of crate recordcapi to C: include/optrecords.h declares them.
#![tactic(auto)]

ghost use Rattle.std.specs.Prelude.{◌≡◌};
ghost use Rattle.origins.specs.declared.Form.TheVariants.{Ol, Om};
ghost use Rattle.origins.specs.Form.{fate_byte, out_line};
ghost use Rattle.reader.specs.Replies.{reply_number, reply_place, reply_count, lines_reply, lines_after, turned_reply, turned_after};
ghost use Rattle.recordcapi.specs.Called.{shown, checked_file, record_in, lines_asked, turned_to};

// Checks a file. Returns the number of the answer, and stores how many records there are and the place.
#[unsafe(no_mangle)]
pub extern "C" fn optrecords_check(file: &[u8], count: &mut usize, place: &mut usize) -> u8
    ensures number { result ≡ reply_number (checked_file file.now) }
    ensures count { count.new ≡ reply_count (checked_file file.now) }
    ensures place { place.new ≡ reply_place (checked_file file.now) }
{
    recordcapi::optrecords_check(file, count, place)
}

// What record `i` says: returns its fate, and stores its output line. Past the whole records the line is gone.
#[unsafe(no_mangle)]
pub extern "C" fn optrecords_record(file: &[u8], i: usize, line: &mut usize) -> u8
    ensures fate { result ≡ fate_byte (record_in file.now i) }
    ensures line { line.new ≡ out_line (shown file.now) (record_in file.now i) }
{
    recordcapi::optrecords_record(file, i, line)
}

// Writes the lines that are behind output line `n`. Returns the number of the answer, and stores how many there are and the place.
#[unsafe(no_mangle)]
pub extern "C" fn optrecords_lines(
    file: &[u8],
    n: usize,
    room: &mut [usize],
    count: &mut usize,
    place: &mut usize,
) -> u8
    ensures number { result ≡ reply_number (lines_reply (lines_asked file.now n room.old)) }
    ensures count { count.new ≡ reply_count (lines_reply (lines_asked file.now n room.old)) }
    ensures place { place.new ≡ reply_place (lines_reply (lines_asked file.now n room.old)) }
    ensures memory { room.new ≡ lines_after (lines_asked file.now n room.old) room.old }
{
    recordcapi::optrecords_lines(file, n, room, count, place)
}

// Writes a file as `OL`. Returns the number of the answer, and stores how many bytes there are and the place.
#[unsafe(no_mangle)]
pub extern "C" fn optrecords_to_ol(
    file: &[u8],
    out: &mut [u8],
    count: &mut usize,
    place: &mut usize,
) -> u8
    ensures number { result ≡ reply_number (turned_reply (turned_to Ol file.now out.old)) }
    ensures count { count.new ≡ reply_count (turned_reply (turned_to Ol file.now out.old)) }
    ensures place { place.new ≡ reply_place (turned_reply (turned_to Ol file.now out.old)) }
    ensures memory { out.new ≡ turned_after (turned_to Ol file.now out.old) out.old }
{
    recordcapi::optrecords_to_ol(file, out, count, place)
}

// Writes a file as `OM`. Returns the number of the answer, and stores how many bytes there are and the place.
#[unsafe(no_mangle)]
pub extern "C" fn optrecords_to_om(
    file: &[u8],
    out: &mut [u8],
    count: &mut usize,
    place: &mut usize,
) -> u8
    ensures number { result ≡ reply_number (turned_reply (turned_to Om file.now out.old)) }
    ensures count { count.new ≡ reply_count (turned_reply (turned_to Om file.now out.old)) }
    ensures place { place.new ≡ reply_place (turned_reply (turned_to Om file.now out.old)) }
    ensures memory { out.new ≡ turned_after (turned_to Om file.now out.old) out.old }
{
    recordcapi::optrecords_to_om(file, out, count, place)
}
