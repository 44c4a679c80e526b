// The entries of crate po as C calls them: crate pocapi_c exports them, and include/optpo.h declares them.
#![tactic(auto)]

ghost use Rattle.std.specs.Prelude.{◌≡◌, length, replicate};
ghost use Rattle.std.specs.declared.result.Result.TheVariants.{Err};
ghost use Rattle.po.specs.Reader.{read_of};
ghost use Rattle.po.specs.Answers.{po_text, po_answer, po_number, po_after, index_after, read_text, read_answer, strings_number, read_after};
ghost use Rattle.pocapi.specs.Called.{po_size, po_place, strings_size, strings_place};

use po::{Po, PoRefusal, Strings, StringsRefusal};

// The length that a writer's answer stores.
#[tactic(auto, unfolding(crate::specs::Called::po_size))]
fn size_of(answer: Po) -> usize
    ensures { result ≡ po_size answer }
{
    match answer {
        Ok(n) => n,
        Err(e) => no_size(e),
    }
}

// A refusal of the writer stores no length.
#[tactic(auto, unfolding(crate::specs::Called::po_size))]
fn no_size(e: PoRefusal) -> usize
    ensures { result ≡ po_size (Err e) }
{
    match e {
        PoRefusal::BadName(_)
        | PoRefusal::NotUtf8(_)
        | PoRefusal::OtherEscape(_)
        | PoRefusal::Open(_)
        | PoRefusal::Short(_) => 0,
    }
}

// The place that a writer's answer stores.
#[tactic(auto, unfolding(crate::specs::Called::po_place))]
fn place_of(answer: Po) -> usize
    ensures { result ≡ po_place answer }
{
    match answer {
        Ok(_) => 0,
        Err(e) => refused_at(e),
    }
}

// The place that a refusal of the writer stores.
#[tactic(auto, unfolding(crate::specs::Called::po_place))]
fn refused_at(e: PoRefusal) -> usize
    ensures { result ≡ po_place (Err e) }
{
    match e {
        PoRefusal::BadName(i)
        | PoRefusal::NotUtf8(i)
        | PoRefusal::OtherEscape(i)
        | PoRefusal::Open(i)
        | PoRefusal::Short(i) => i,
    }
}

// The length that a reader's answer stores.
#[tactic(auto, unfolding(crate::specs::Called::strings_size))]
fn read_size_of(answer: Strings) -> usize
    ensures { result ≡ strings_size answer }
{
    match answer {
        Ok(n) => n,
        Err(e) => no_read_size(e),
    }
}

// A refusal of the reader stores no length.
#[tactic(auto, unfolding(crate::specs::Called::strings_size))]
fn no_read_size(e: StringsRefusal) -> usize
    ensures { result ≡ strings_size (Err e) }
{
    match e {
        StringsRefusal::BadLine(_) | StringsRefusal::Short(_) => 0,
    }
}

// The place that a reader's answer stores.
#[tactic(auto, unfolding(crate::specs::Called::strings_place))]
fn read_place_of(answer: Strings) -> usize
    ensures { result ≡ strings_place answer }
{
    match answer {
        Ok(_) => 0,
        Err(e) => read_refused_at(e),
    }
}

// The place that a refusal of the reader stores.
#[tactic(auto, unfolding(crate::specs::Called::strings_place))]
fn read_refused_at(e: StringsRefusal) -> usize
    ensures { result ≡ strings_place (Err e) }
{
    match e {
        StringsRefusal::BadLine(n) | StringsRefusal::Short(n) => n,
    }
}

// Writes the literals of a listing as a PO file. Returns the number of the answer, and stores its length and its place.
pub fn optpo_write(
    name: &[u8],
    text: &[u8],
    index: &mut [usize],
    out: &mut [u8],
    size: &mut usize,
    place: &mut usize,
) -> u8
    ensures number { result ≡ po_number (po_answer name.now text.now (length out.old)) }
    ensures size { size.new ≡ po_size (po_answer name.now text.now (length out.old)) }
    ensures place { place.new ≡ po_place (po_answer name.now text.now (length out.old)) }
    ensures index { index.new ≡ index_after (po_answer name.now text.now (length out.old)) index.old }
    ensures result { out.new ≡ po_after (po_answer name.now text.now (length out.old)) (po_text name.now text.now) out.old }
{
    let answer = po::write_po(name, text, index, out);
    *size = size_of(answer);
    *place = place_of(answer);
    po::number_of(answer)
}

// Reads a PO file of this form. Returns the number of the answer, and stores its length and its place.
pub fn optpo_read(
    file: &[u8],
    index: &mut [usize],
    out: &mut [u8],
    size: &mut usize,
    place: &mut usize,
) -> u8
    ensures number { result ≡ strings_number (read_answer file.now (length out.old)) }
    ensures size { size.new ≡ strings_size (read_answer file.now (length out.old)) }
    ensures place { place.new ≡ strings_place (read_answer file.now (length out.old)) }
    ensures index { index.new ≡ replicate (length index.old) 0 }
    ensures result { out.new ≡ read_after (read_answer file.now (length out.old)) (read_text (read_of file.now)) out.old }
{
    let answer = po::read_po(file, index, out);
    *size = read_size_of(answer);
    *place = read_place_of(answer);
    po::read_number_of(answer)
}
