// The table of a round: what the lines of a text do with each phi.
ghost use Rattle.std.specs.Prelude.{◌≡◌, cond, not, ◌&&◌, eqb};
ghost use Rattle.lines.specs.Lf.{same, holds, lines_of};
ghost use Rattle.names.specs.Names.{phi_word, phi_of, phi_text, phi_is};
ghost use Rattle.words.specs.Runs.{runs};
ghost use Rattle.slots.specs.Inner.Slots.{entry_of, with_entry};
ghost use Rattle.phis.specs.Inner.Table.{note_store, note_name, note_runs, note_line, note_lines};

use crate::{is_phi, phi_decl, phi_store};

// Whether a text holds the letters `phi`.
pub fn has_phi(s: &[u8]) -> bool
    ensures { result ≡ holds phi_word s.now }
{
    let mut i = 0;
    // Kept: the place goes from one `p` to the next.
    while i < s.len() {
        let j = lines::find_byte(s, i, b'p');
        if lines::starts_with(lines::cut(s, j, s.len()), b"phi") {
            return true;
        }
        i = lines::after(s, j);
    }
    false
}

// Notes that a phi is stored, unless it is read already.
fn note_stored(phi: names::Phi, own: &[usize], table: &mut [u8])
    ensures { table.new ≡ cond (eqb (entry_of own.now phi.0 table.old) 2) table.old (with_entry own.now phi.0 1 table.old) }
{
    let v = slots::slot(phi.0 as usize, table.len(), own);
    if table.len() <= v {
        return;
    }
    if table[v] == 2 {
        return;
    }
    table[v] = 1;
}

// Notes the phi that a line stores.
fn note_store(name: Option<names::Phi>, own: &[usize], table: &mut [u8])
    ensures { table.new ≡ note_store own.now name table.old }
{
    match name {
        Some(q) => note_stored(q, own, table),
        None => {}
    }
}

// Notes that a phi is read, where a run is the phi as it is printed, and not the one that the line stores.
fn note_read(r: &[u8], own: &[usize], phi: names::Phi, stored: Option<names::Phi>, table: &mut [u8])
    ensures { table.new ≡ cond (not (phi_is phi.0 stored) && same r.now (phi_text phi.0)) (with_entry own.now phi.0 2 table.old) table.old }
{
    if is_phi(stored, phi) {
        return;
    }
    if !names::is_phi_text(r, phi) {
        return;
    }
    let v = slots::slot(phi.0 as usize, table.len(), own);
    if table.len() <= v {
        return;
    }
    table[v] = 2;
}

// Notes a run of name bytes.
fn note_run(r: &[u8], own: &[usize], stored: Option<names::Phi>, table: &mut [u8])
    ensures { table.new ≡ note_name own.now stored r.now (phi_of r.now) table.old }
{
    match names::phi_name(r) {
        Some(q) => note_read(r, own, q, stored, table),
        None => {}
    }
}

// Notes the runs of name bytes of a line that stores the phi `stored`.
fn note_runs(s: &[u8], own: &[usize], stored: Option<names::Phi>, table: &mut [u8])
    ensures { table.new ≡ note_runs own.now stored (runs s.now) table.old }
{
    let mut a = 0;
    for i in 0..s.len() {
        if text::is_name_byte(s[i]) {
            continue;
        }
        note_run(lines::cut(s, a, i), own, stored, table);
        a = i + 1;
    }
    note_run(lines::cut(s, a, s.len()), own, stored, table);
}

// Notes what a line does.
fn note_line(line: &[u8], own: &[usize], table: &mut [u8])
    ensures { table.new ≡ note_line own.now line.now table.old }
{
    if !has_phi(line) {
        return;
    }
    let t = text::trim_start(line);
    if phi_decl(t) {
        return;
    }
    let stored = phi_store(t);
    note_store(stored, own, table);
    note_runs(line, own, stored, table);
}

// Notes what the lines of a text do.
pub fn note_lines(text: &[u8], own: &[usize], table: &mut [u8])
    ensures { table.new ≡ note_lines own.now (lines_of text.now) table.old }
{
    for line in lines::each::each(text) {
        note_line(line.bytes, own, table);
    }
}
