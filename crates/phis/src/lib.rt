// prune_dead_phis: stores of phis that nothing reads go, and their names leave the declarations.
#![tactic(auto)]

mod table;

ghost use Rattle.std.specs.Prelude.{◌≡◌, true, false, ◌&&◌, ◌||◌, [], ◌∷◌, ◌++◌, ◌≤◌, ◌+◌, max, length, drop, replicate};
ghost use Rattle.parse.specs.Parse.{is_let};
ghost use Rattle.lines.specs.Lf.{holds, parts_of, lines_of, unlines};
ghost use Rattle.lines.specs.Inner.Out.{Wrote};
ghost use Rattle.text.specs.Trim.{trim_start};
ghost use Rattle.names.specs.Names.{phi_word, phi_of, phi_is};
ghost use Rattle.lexical.specs.Phi.{phi_rhs_pure};
ghost use Rattle.decls.specs.Inner.Print.{kept, decl_text};
ghost use Rattle.reading.specs.Reading.{reading_of, pure_in};
ghost use Rattle.reading.specs.Assign.{is_assign, right_of};
ghost use Rattle.origins.specs.Inner.Codes.{moves_of, standing};
ghost use Rattle.origins.specs.Inner.Thin.{thin};
ghost use Rattle.phis.specs.Phis.{is_phi, all_phis, phi_decl, any_phi, phi_store, phi_own, phi_reads, phi_read, phi_stored, dead_phi, phi_dead, any_dead, round_acts, round, prune_dead_phis};
ghost use Rattle.phis.specs.Moves.{prune_dead_phis_acts};
ghost use Rattle.phis.specs.Inner.Table.{Tells};
ghost use Rattle.phis.specs.Inner.Rounds.{live, store_text, change_text, longest};

// Whether a name is that of a phi.
fn is_phi(name: Option<names::Phi>, phi: names::Phi) -> bool
    ensures { result ≡ phi_is phi.0 name }
{
    match name {
        Some(q) => q.0 == phi.0,
        None => false,
    }
}

// Whether a text names a phi.
fn names_phi(t: &[u8]) -> bool
    ensures { result ≡ is_phi (phi_of t.now) }
{
    match names::phi_name(t) {
        Some(q) => true,
        None => false,
    }
}

// Whether a text, its front trimmed, is `let ` .. `;`.
fn is_let(t: &[u8]) -> bool
    ensures { result ≡ is_let t.now }
{
    let n = t.len();
    if n <= 4 {
        return false;
    }
    if !lines::starts_with(t, b"let ") {
        return false;
    }
    t[n - 1] == b';'
}

// Whether each piece between the commas names a phi.
fn all_phis(s: &[u8]) -> bool
    ensures { result ≡ all_phis (parts_of 44 s.now) }
{
    lines::pieces(s, b',').all(|p| names_phi(text::trim(p)))
}

// Whether one of the pieces between the commas names a phi.
fn any_phi(s: &[u8], phi: names::Phi) -> bool
    ensures { result ≡ any_phi phi.0 (parts_of 44 s.now) }
{
    lines::pieces(s, b',').any(|p| is_phi(names::phi_name(text::trim(p)), phi))
}

// Whether a text, its front trimmed, is a declaration of phis alone.
fn phi_decl(t: &[u8]) -> bool
    ensures { result ≡ phi_decl t.now }
{
    if !is_let(t) {
        return false;
    }
    all_phis(lines::cut(t, 4, t.len() - 1))
}

// The phi that a text, its front trimmed, stores.
fn phi_store(t: &[u8]) -> Option<names::Phi>
    ensures { result ≡ phi_store t.now }
{
    if is_let(t) {
        return None;
    }
    match reading::assign_of(t) {
        Some(s) => names::phi_name(reading::left_of(t, s)),
        None => None,
    }
}

// The phi that a line stores.
fn line_store(line: &[u8]) -> Option<names::Phi>
    ensures { result ≡ phi_store (trim_start line.now) }
{
    if !table::has_phi(line) {
        return None;
    }
    phi_store(text::trim_start(line))
}

// Whether a text, its front trimmed, stores a phi or is a declaration of phis that has it.
fn phi_own(t: &[u8], phi: names::Phi) -> bool
    ensures { result ≡ phi_own phi.0 t.now }
{
    if is_phi(phi_store(t), phi) {
        return true;
    }
    if !phi_decl(t) {
        return false;
    }
    any_phi(lines::cut(t, 4, t.len() - 1), phi)
}

// Whether a line mentions a phi, and neither stores nor declares it.
fn phi_reads(line: &[u8], phi: names::Phi) -> bool
    ensures { result ≡ phi_reads phi.0 line.now }
{
    if words::count_phi(line, phi) == 0 {
        return false;
    }
    !phi_own(text::trim_start(line), phi)
}

// Whether some line of a text reads a phi.
fn phi_read(text: &[u8], phi: names::Phi) -> bool
    ensures { result ≡ phi_read phi.0 (lines_of text.now) }
{
    lines::each::each(text).any(|line| phi_reads(line.bytes, phi))
}

// Whether some line of a text stores a phi.
fn phi_stored(text: &[u8], phi: names::Phi) -> bool
    ensures { result ≡ phi_stored phi.0 (lines_of text.now) }
{
    lines::each::each(text).any(|line| is_phi(line_store(line.bytes), phi))
}

// Whether a phi is dead: some line of a text stores it, and none reads it.
fn search_dead(text: &[u8], phi: names::Phi) -> bool
    ensures { result ≡ dead_phi phi.0 (lines_of text.now) }
{
    if phi_read(text, phi) {
        return false;
    }
    phi_stored(text, phi)
}

// The same: the table says so, where it has a place for the phi.
fn dead_phi(text: &[u8], own: &[usize], phi: names::Phi, table: &[u8]) -> bool
    requires { Tells own.now (lines_of text.now) table.now }
    ensures { result ≡ dead_phi phi.0 (lines_of text.now) }
{
    let v = slots::slot(phi.0 as usize, table.len(), own);
    if v < table.len() {
        return table[v] == 1;
    }
    search_dead(text, phi)
}

// Whether a name is that of a phi that is dead in a text.
fn dead_by(name: Option<names::Phi>, text: &[u8], own: &[usize], table: &[u8]) -> bool
    requires { Tells own.now (lines_of text.now) table.now }
    ensures { result ≡ phi_dead name (lines_of text.now) }
{
    match name {
        Some(q) => dead_phi(text, own, q, table),
        None => false,
    }
}

// Whether some line of a text stores a phi that is dead.
fn any_dead(text: &[u8], own: &[usize], table: &[u8]) -> bool
    requires { Tells own.now (lines_of text.now) table.now }
    ensures { result ≡ any_dead (lines_of text.now) (lines_of text.now) }
{
    lines::each::each(text).any(|line| dead_by(line_store(line.bytes), text, own, table))
}

// Whether a text names a phi that is not dead.
fn is_live(t: &[u8], text: &[u8], own: &[usize], table: &[u8]) -> bool
    requires { Tells own.now (lines_of text.now) table.now }
    ensures { result ≡ live (lines_of text.now) t.now }
{
    match names::phi_name(t) {
        Some(q) => !dead_phi(text, own, q, table),
        None => false,
    }
}

// Writes a declaration of phis anew, with its LF, without those that are dead; nothing where none is left.
fn put_decl(
    body: &[u8],
    indent: &[u8],
    text: &[u8],
    own: &[usize],
    table: &[u8],
    out: &mut [u8],
    o: usize,
) -> usize
    requires { (Tells own.now (lines_of text.now) table.now) × (o + length (decl_text indent.now (kept (live (lines_of text.now)) 3 (parts_of 44 body.now)) false) ≤ length out.old) }
    ensures { Wrote out.old o (decl_text indent.now (kept (live (lines_of text.now)) 3 (parts_of 44 body.now)) false) out.new result }
{
    let mut p = o;
    for piece in lines::pieces(body, b',') {
        let t = text::trim(piece);
        let s = is_live(t, text, own, table);
        p = decls::print::put_part(indent, o < p, s, t, 3, out, p);
    }
    decls::print::put_end(o < p, out, p)
}

// Whether a value has no effect in a mode, by either test. Of the scratch only as much is used as the value is long.
fn no_effect(mode: reading::Mode, x: &[u8], scratch: &mut [u8]) -> bool
    requires { length x.now ≤ length scratch.old }
    ensures answer { result ≡ pure_in (reading_of mode.0) x.now || phi_rhs_pure x.now }
    ensures memory { drop (length x.now) scratch.new ≡ drop (length x.now) scratch.old }
{
    if lexical::phi_rhs_pure(x) {
        return true;
    }
    expr::is_pure(expr::purity(x, reading::is_strict(mode), scratch))
}

// Writes a value as a statement.
fn put_value(indent: &[u8], x: &[u8], out: &mut [u8], o: usize) -> usize
    requires { o + length (indent.now ++ x.now ++ 59 ∷ 10 ∷ []) ≤ length out.old }
    ensures { Wrote out.old o (indent.now ++ x.now ++ 59 ∷ 10 ∷ []) out.new result }
{
    let p = lines::put(out, o, indent);
    let q = lines::put(out, p, x);
    lines::put(out, q, b";\n")
}

// Writes what is left of a store of a dead phi: nothing, or its value where it has an effect.
fn put_store(
    mode: reading::Mode,
    t: &[u8],
    indent: &[u8],
    scratch: &mut [u8],
    out: &mut [u8],
    o: usize,
) -> usize
    requires { (is_assign t.now ≡ true) × ((length t.now ≤ length scratch.old) × (o + length (store_text (reading_of mode.0) indent.now (right_of t.now)) ≤ length out.old)) }
    ensures answer { Wrote out.old o (store_text (reading_of mode.0) indent.now (right_of t.now)) out.new result }
    ensures memory { drop (length t.now) scratch.new ≡ drop (length t.now) scratch.old }
{
    match reading::assign_of(t) {
        Some(s) => {
            let x = reading::right_of(t, s);
            if no_effect(mode, x, scratch) {
                return o;
            }
            put_value(indent, x, out, o)
        }
        None => o,
    }
}

// Writes what a line becomes, in a text that has a dead phi.
fn put_change(
    mode: reading::Mode,
    line: &[u8],
    text: &[u8],
    own: &[usize],
    table: &[u8],
    scratch: &mut [u8],
    out: &mut [u8],
    o: usize,
) -> usize
    requires { (Tells own.now (lines_of text.now) table.now) × ((length line.now ≤ length scratch.old) × (o + length (change_text (reading_of mode.0) (lines_of text.now) line.now) ≤ length out.old)) }
    ensures answer { Wrote out.old o (change_text (reading_of mode.0) (lines_of text.now) line.now) out.new result }
    ensures memory { drop (length line.now) scratch.new ≡ drop (length line.now) scratch.old }
{
    let t = text::trim_start(line);
    let indent = lines::cut(line, 0, text::trim_from(line));
    if dead_by(phi_store(t), text, own, table) {
        return put_store(mode, t, indent, scratch, out, o);
    }
    if phi_decl(t) {
        return put_decl(
            lines::cut(t, 4, t.len() - 1),
            indent,
            text,
            own,
            table,
            out,
            o,
        );
    }
    lines::put_line(out, o, line)
}

// Writes what a line becomes, in a text that has a dead phi: a line without the letters `phi` stays.
fn put_line(
    mode: reading::Mode,
    line: &[u8],
    text: &[u8],
    own: &[usize],
    table: &[u8],
    scratch: &mut [u8],
    out: &mut [u8],
    o: usize,
) -> usize
    requires { (Tells own.now (lines_of text.now) table.now) × ((length line.now ≤ length scratch.old) × (o + length (change_text (reading_of mode.0) (lines_of text.now) line.now) ≤ length out.old)) }
    ensures answer { Wrote out.old o (change_text (reading_of mode.0) (lines_of text.now) line.now) out.new result }
    ensures memory { drop (length line.now) scratch.new ≡ drop (length line.now) scratch.old }
{
    if table::has_phi(line) {
        return put_change(mode, line, text, own, table, scratch, out, o);
    }
    lines::put_line(out, o, line)
}

// Where what a round wrote ends, and whether it found a dead phi.
#[derive(Clone, Copy)]
struct Round {
    end: usize,
    dead: bool,
}

// Writes one round, with its table; `moves` goes on for the lines that stand. Of the scratch only as much is used as the text is long.
fn put_with(
    mode: reading::Mode,
    text: &[u8],
    own: &[usize],
    table: &[u8],
    scratch: &mut [u8],
    out: &mut [u8],
    moves: &mut [usize],
) -> Round
    requires { (Tells own.now (lines_of text.now) table.now) × ((length text.now ≤ length scratch.old) × ((length (unlines (round (reading_of mode.0) (lines_of text.now))) ≤ length out.old) × (length (lines_of text.now) ≤ standing moves.old))) }
    ensures answer { Wrote out.old 0 (unlines (round (reading_of mode.0) (lines_of text.now))) out.new result.end }
    ensures found { result.dead ≡ any_dead (lines_of text.now) (lines_of text.now) }
    ensures memory { drop (length text.now) scratch.new ≡ drop (length text.now) scratch.old }
    ensures moves { moves.new ≡ thin moves.old (moves_of (round_acts (reading_of mode.0) (lines_of text.now))) }
{
    if !any_dead(text, own, table) {
        let p = lines::put_lines(text, out, 0);
        return Round {
            end: p,
            dead: false,
        };
    }
    let mut o = 0;
    let mut k = 0;
    for line in lines::each::each(text) {
        let p = put_line(mode, line.bytes, text, own, table, scratch, out, o);
        k = origins::note_next(moves, k, o, p);
        o = p;
    }
    Round { end: o, dead: true }
}

// Whether a text holds the letters `phi`.
pub fn holds_phi(text: &[u8]) -> bool
    ensures { result ≡ holds phi_word text.now }
{
    table::has_phi(text)
}

// Whether a round may find a dead phi, where the one before found one.
fn may_change(text: &[u8], dead: bool) -> bool
    ensures { result ≡ dead && holds phi_word text.now }
{
    if dead {
        return table::has_phi(text);
    }
    false
}

// Writes one round; `dead` is false where it is known that no phi is dead. `moves` goes on for the lines that stand. Of the scratch only
// as much is used as the text is long.
fn put_round(
    mode: reading::Mode,
    text: &[u8],
    own: &[usize],
    dead: bool,
    table: &mut [u8],
    scratch: &mut [u8],
    out: &mut [u8],
    moves: &mut [usize],
) -> Round
    requires { (dead ≡ false → any_dead (lines_of text.now) (lines_of text.now) ≡ false)
        × ((length text.now ≤ length scratch.old) × ((length (unlines (round (reading_of mode.0) (lines_of text.now))) ≤ length out.old) × (length (lines_of text.now) ≤ standing moves.old))) }
    ensures answer { Wrote out.old 0 (unlines (round (reading_of mode.0) (lines_of text.now))) out.new result.end }
    ensures found { result.dead ≡ any_dead (lines_of text.now) (lines_of text.now) }
    ensures memory { drop (length text.now) scratch.new ≡ drop (length text.now) scratch.old }
    ensures moves { moves.new ≡ thin moves.old (moves_of (round_acts (reading_of mode.0) (lines_of text.now))) }
{
    if !may_change(text, dead) {
        let p = lines::put_lines(text, out, 0);
        return Round {
            end: p,
            dead: false,
        };
    }
    lines::wipe(table, table.len());
    table::note_lines(text, own, table);
    put_with(mode, text, own, table, scratch, out, moves)
}

// The larger of two numbers.
fn larger(a: usize, b: usize) -> usize
    ensures { result ≡ max a b }
{
    if a < b {
        return b;
    }
    a
}

// Stores of phis that nothing reads go, and their names leave the declarations, in three rounds: from the text to `first`, from there to
// `second`, from there to `out`. `own` has the owners of places in the table of phis, which is 0 afterwards. The scratch is left with zeros, as far
// as it was of use; `moves` gets the move of each line.
pub fn prune_dead_phis(
    mode: reading::Mode,
    text: &[u8],
    own: &[usize],
    table: &mut [u8],
    scratch: &mut [u8],
    first: &mut [u8],
    second: &mut [u8],
    out: &mut [u8],
    moves: &mut [usize],
) -> usize
    requires { (longest (reading_of mode.0) text.now ≤ length scratch.old) × ((length (unlines (round (reading_of mode.0) (lines_of text.now))) ≤ length first.old) × ((length (unlines (round (reading_of mode.0) (round (reading_of mode.0) (lines_of text.now)))) ≤ length second.old) × ((length (unlines (prune_dead_phis (reading_of mode.0) (lines_of text.now))) ≤ length out.old) × (length (lines_of text.now) ≤ length moves.old)))) }
    ensures answer { Wrote out.old 0 (unlines (prune_dead_phis (reading_of mode.0) (lines_of text.now))) out.new result }
    ensures one { Wrote first.old 0 (unlines (round (reading_of mode.0) (lines_of text.now))) first.new (length (unlines (round (reading_of mode.0) (lines_of text.now)))) }
    ensures two { Wrote second.old 0 (unlines (round (reading_of mode.0) (round (reading_of mode.0) (lines_of text.now)))) second.new (length (unlines (round (reading_of mode.0) (round (reading_of mode.0) (lines_of text.now))))) }
    ensures memory { Wrote scratch.old 0 (replicate (longest (reading_of mode.0) text.now) 0) scratch.new (longest (reading_of mode.0) text.now) }
    ensures noted { table.new ≡ replicate (length table.old) 0 }
    ensures moves { Wrote moves.old 0 (moves_of (prune_dead_phis_acts (reading_of mode.0) (lines_of text.now))) moves.new (length (lines_of text.now)) }
{
    origins::stay_lines(text, moves, 0);
    let a = put_round(mode, text, own, true, table, scratch, first, moves);
    let b = put_round(
        mode,
        lines::cut(first, 0, a.end),
        own,
        a.dead,
        table,
        scratch,
        second,
        moves,
    );
    let c = put_round(
        mode,
        lines::cut(second, 0, b.end),
        own,
        b.dead,
        table,
        scratch,
        out,
        moves,
    );
    lines::wipe(table, table.len());
    lines::wipe(scratch, larger(text.len(), larger(a.end, b.end)));
    c.end
}
