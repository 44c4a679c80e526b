// The removal of lines that declare globals, over LF form.
#![tactic(auto)]

ghost use Rattle.std.specs.Prelude.{◌≡◌, ◌≤◌, ◌+◌, length};
ghost use Rattle.lines.specs.Lf.{lines_of, unlines};
ghost use Rattle.lines.specs.Inner.Out.{Wrote};
ghost use Rattle.origins.specs.Inner.Codes.{moves_of};
ghost use Rattle.globals.specs.Globals.{is_globals, globals_acts, remove_globals};
ghost use Rattle.globals.specs.Inner.Globals.{globals_text};

// Whether a line declares globals. A line that is shorter than the shorter of the two words does not.
fn is_globals(line: &[u8]) -> bool
    ensures { result ≡ is_globals line.now }
{
    if line.len() < 25 {
        return false;
    }
    let t = text::trim(line);
    if lines::starts_with(t, b"__runtime.DeclareGlobals(") {
        return true;
    }
    lines::starts_with(t, b"__runtime.DeclareGlobalsForInterpreter(")
}

// Writes a line and its LF, but nothing of a line that declares globals, and returns the place after it.
fn put_line(line: &[u8], out: &mut [u8], o: usize) -> usize
    requires { o + length (globals_text line.now) ≤ length out.old }
    ensures { Wrote out.old o (globals_text line.now) out.new result }
{
    if is_globals(line) {
        return o;
    }
    let p = lines::put(out, o, line);
    lines::put_byte(out, p, 10)
}

// The same as remove_globals, line by line.
fn remove_lines(text: &[u8], out: &mut [u8], moves: &mut [usize]) -> usize
    requires { (length (unlines (remove_globals (lines_of text.now))) ≤ length out.old) × (length (lines_of text.now) ≤ length moves.old) }
    ensures answer { Wrote out.old 0 (unlines (remove_globals (lines_of text.now))) out.new result }
    ensures moves { Wrote moves.old 0 (moves_of (globals_acts (lines_of text.now))) moves.new (length (lines_of text.now)) }
{
    let mut o = 0;
    let mut k = 0;
    for line in lines::each::each(text) {
        let p = put_line(line.bytes, out, o);
        k = origins::note(moves, k, o, p);
        o = p;
    }
    o
}

// Lines that declare globals go, and the others stay. Each line is followed by one LF; `moves` gets the move of each line. A text without
// `_` stays as it is.
pub fn remove_globals(text: &[u8], out: &mut [u8], moves: &mut [usize]) -> usize
    requires { (length (unlines (remove_globals (lines_of text.now))) ≤ length out.old) × (length (lines_of text.now) ≤ length moves.old) }
    ensures answer { Wrote out.old 0 (unlines (remove_globals (lines_of text.now))) out.new result }
    ensures moves { Wrote moves.old 0 (moves_of (globals_acts (lines_of text.now))) moves.new (length (lines_of text.now)) }
{
    if lines::lacks(text, b'_') {
        origins::stay_lines(text, moves, 0);
        return lines::put_lines(text, out, 0);
    }
    remove_lines(text, out, moves)
}
