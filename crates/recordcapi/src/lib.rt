// Record files for C, Rust and Python: crate recordcapi_c exports these functions, and include/optrecords.h declares them. The form of a file is told by its first mark.
#![tactic(auto)]

ghost use Rattle.std.specs.Prelude.{◌≡◌};
ghost use Rattle.origins.specs.declared.Form.TheVariants.{Ol, Om};
ghost use Rattle.origins.specs.Form.{fate_byte, out_line};
ghost use Rattle.reader.specs.Replies.{reply_number, reply_place, reply_count, lines_reply, lines_after, turned_reply, turned_after};
ghost use Rattle.recordcapi.specs.Called.{shown, checked_file, record_in, lines_asked, turned_to};

// Checks a file. Returns the number of the answer, and stores how many records there are and the place.
pub fn optrecords_check(file: &[u8], count: &mut usize, place: &mut usize) -> u8
    ensures number { result ≡ reply_number (checked_file file.now) }
    ensures count { count.new ≡ reply_count (checked_file file.now) }
    ensures place { place.new ≡ reply_place (checked_file file.now) }
{
    let f = reader::form_of(file);
    let r = reader::check(f, file);
    *count = reader::count_of(r);
    *place = reader::place_of(r);
    reader::number_of(r)
}

// What record `i` says: returns its fate, and stores its output line. Past the whole records the line is gone.
pub fn optrecords_record(file: &[u8], i: usize, line: &mut usize) -> u8
    ensures fate { result ≡ fate_byte (record_in file.now i) }
    ensures line { line.new ≡ out_line (shown file.now) (record_in file.now i) }
{
    let f = reader::form_of(file);
    let w = reader::record_at(f, file, i);
    *line = origins::out_line(f, w);
    origins::fate_byte(w)
}

// Writes the lines that are behind output line `n`. Returns the number of the answer, and stores how many there are and the place.
pub fn optrecords_lines(
    file: &[u8],
    n: usize,
    room: &mut [usize],
    count: &mut usize,
    place: &mut usize,
) -> u8
    ensures number { result ≡ reply_number (lines_reply (lines_asked file.now n room.old)) }
    ensures count { count.new ≡ reply_count (lines_reply (lines_asked file.now n room.old)) }
    ensures place { place.new ≡ reply_place (lines_reply (lines_asked file.now n room.old)) }
    ensures memory { room.new ≡ lines_after (lines_asked file.now n room.old) room.old }
{
    let f = reader::form_of(file);
    let r = reader::lines_of(f, file, n, room);
    *count = reader::count_of(r);
    *place = reader::place_of(r);
    reader::number_of(r)
}

// Writes a file as `OL`. Returns the number of the answer, and stores how many bytes there are and the place.
pub fn optrecords_to_ol(file: &[u8], out: &mut [u8], count: &mut usize, place: &mut usize) -> u8
    ensures number { result ≡ reply_number (turned_reply (turned_to Ol file.now out.old)) }
    ensures count { count.new ≡ reply_count (turned_reply (turned_to Ol file.now out.old)) }
    ensures place { place.new ≡ reply_place (turned_reply (turned_to Ol file.now out.old)) }
    ensures memory { out.new ≡ turned_after (turned_to Ol file.now out.old) out.old }
{
    let f = reader::form_of(file);
    let r = reader::turn(f, origins::Form::Ol, file, out);
    *count = reader::count_of(r);
    *place = reader::place_of(r);
    reader::number_of(r)
}

// Writes a file as `OM`. Returns the number of the answer, and stores how many bytes there are and the place.
pub fn optrecords_to_om(file: &[u8], out: &mut [u8], count: &mut usize, place: &mut usize) -> u8
    ensures number { result ≡ reply_number (turned_reply (turned_to Om file.now out.old)) }
    ensures count { count.new ≡ reply_count (turned_reply (turned_to Om file.now out.old)) }
    ensures place { place.new ≡ reply_place (turned_reply (turned_to Om file.now out.old)) }
    ensures memory { out.new ≡ turned_after (turned_to Om file.now out.old) out.old }
{
    let f = reader::form_of(file);
    let r = reader::turn(f, origins::Form::Om, file, out);
    *count = reader::count_of(r);
    *place = reader::place_of(r);
    reader::number_of(r)
}
