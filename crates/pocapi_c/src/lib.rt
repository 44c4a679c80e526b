// Exports the entries of crate pocapi to C: include/optpo.h declares them.
#![tactic(auto)]

ghost use Rattle.std.specs.Prelude.{◌≡◌, length, replicate};
ghost use Rattle.po.specs.Reader.{read_of};
ghost use Rattle.po.specs.Answers.{po_text, po_answer, po_number, po_after, index_after, read_text, read_answer, strings_number, read_after};
ghost use Rattle.pocapi.specs.Called.{po_size, po_place, strings_size, strings_place};

// Writes the literals of a listing as a PO file. Returns the number of the answer, and stores its length and its place.
#[unsafe(no_mangle)]
pub extern "C" fn optpo_write(
    name: &[u8],
    text: &[u8],
    index: &mut [usize],
    out: &mut [u8],
    size: &mut usize,
    place: &mut usize,
) -> u8
    ensures number { result ≡ po_number (po_answer name.now text.now (length out.old)) }
    ensures size { size.new ≡ po_size (po_answer name.now text.now (length out.old)) }
    ensures place { place.new ≡ po_place (po_answer name.now text.now (length out.old)) }
    ensures index { index.new ≡ index_after (po_answer name.now text.now (length out.old)) index.old }
    ensures result { out.new ≡ po_after (po_answer name.now text.now (length out.old)) (po_text name.now text.now) out.old }
{
    pocapi::optpo_write(name, text, index, out, size, place)
}

// Reads a PO file of this form. Returns the number of the answer, and stores its length and its place.
#[unsafe(no_mangle)]
pub extern "C" fn optpo_read(
    file: &[u8],
    index: &mut [usize],
    out: &mut [u8],
    size: &mut usize,
    place: &mut usize,
) -> u8
    ensures number { result ≡ strings_number (read_answer file.now (length out.old)) }
    ensures size { size.new ≡ strings_size (read_answer file.now (length out.old)) }
    ensures place { place.new ≡ strings_place (read_answer file.now (length out.old)) }
    ensures index { index.new ≡ replicate (length index.old) 0 }
    ensures result { out.new ≡ read_after (read_answer file.now (length out.old)) (read_text (read_of file.now)) out.old }
{
    pocapi::optpo_read(file, index, out, size, place)
}
