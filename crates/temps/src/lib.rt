// prune_dead_temps, over LF form.
#![tactic(auto)]

mod table;

ghost use Rattle.std.specs.Prelude.{◌≡◌, ℕ, ◌+◌, ◌≤◌, true, not, ◌&&◌, ◌||◌, List, length, replicate, ◌==◌, nat_lt};
ghost use Rattle.lines.specs.Lf.{parts_of, lines_of, unlines, prefixed, same};
ghost use Rattle.lines.specs.Inner.Out.{Wrote};
ghost use Rattle.names.specs.Names.{is_digit, is_temp};
ghost use Rattle.origins.specs.Inner.Codes.{moves_of};
ghost use Rattle.parse.specs.Parse.{let_word};
ghost use Rattle.place.specs.Region.{var_word, const_word};
ghost use Rattle.reading.specs.Reading.{strict_at, reading_of};
ghost use Rattle.reading.specs.Assign.{is_assign, left_of};
ghost use Rattle.temps.specs.Temps.{any_piece, declares, temp_reads, declared_in, temp_read, prune_dead_temps_acts, prune_dead_temps};
ghost use Rattle.temps.specs.Inner.Scratch.{temp_in, temp_goes, temp_text, scratch_line, temp_scratch};
ghost use Rattle.temps.specs.Inner.Table.{key_of, Tells, TellsOf};

// Whether one of the pieces between the commas, trimmed, is a name.
fn any_piece(s: &[u8], name: &[u8]) -> bool
    ensures { result ≡ any_piece name.now (parts_of 44 s.now) }
{
    lines::pieces(s, b',').any(|p| lines::same(text::trim(p), name))
}

// Whether a trimmed line declares a name.
fn declares(t: &[u8], name: &[u8]) -> bool
    ensures { result ≡ declares name.now t.now }
{
    let n = t.len();
    if n <= 4 {
        return false;
    }
    if !lines::starts_with(t, b"let ") {
        return false;
    }
    if t[n - 1] != b';' {
        return false;
    }
    any_piece(&t[4..n - 1], name)
}

// Whether some line of a text declares a name.
fn declared_in(text: &[u8], name: &[u8]) -> bool
    ensures { result ≡ declared_in name.now (lines_of text.now) }
{
    lines::each::each(text).any(|line| declares(text::trim(line.bytes), name))
}

// Whether a trimmed line begins with `let `, `var ` or `const `.
fn is_binding(t: &[u8]) -> bool
    ensures { result ≡ prefixed let_word t.now || (prefixed var_word t.now || prefixed const_word t.now) }
{
    if lines::starts_with(t, b"let ") {
        return true;
    }
    if lines::starts_with(t, b"var ") {
        return true;
    }
    lines::starts_with(t, b"const ")
}

// Whether a trimmed line is a store of a name.
fn is_store(t: &[u8], name: &[u8]) -> bool
    ensures { result ≡ is_assign t.now && same (left_of t.now) name.now }
{
    match reading::assign_of(t) {
        Some(s) => lines::same(reading::left_of(t, s), name),
        None => false,
    }
}

// How often a trimmed line reads a temp.
fn temp_reads(t: &[u8], name: &[u8]) -> usize
    requires { is_temp name.now ≡ true }
    ensures { result ≡ temp_reads name.now t.now }
{
    if is_binding(t) {
        return 0;
    }
    let n = words::count_word(t, name);
    if n == 0 {
        return 0;
    }
    if is_store(t, name) {
        return n - 1;
    }
    n
}

// Whether some line of a text reads a temp.
fn temp_read(text: &[u8], name: &[u8]) -> bool
    requires { is_temp name.now ≡ true }
    ensures { result ≡ temp_read name.now (lines_of text.now) }
{
    lines::each::each(text).any(|line| 0 < temp_reads(text::trim(line.bytes), name))
}

// Whether some line of a text declares a temp: the table says so, where it reaches to it.
fn is_declared(text: &[u8], own: &[usize], name: &[u8], key: Option<u64>, declared: &[u8]) -> bool
    requires { ((is_temp name.now ≡ true) × (key ≡ key_of name.now)) × (Tells own.now (λ (x : List ℕ). declared_in x (lines_of text.now)) declared.now) }
    ensures { result ≡ declared_in name.now (lines_of text.now) }
{
    match table::flag_of(key, own, declared) {
        Some(b) => b,
        None => declared_in(text, name),
    }
}

// Whether some line of a text reads a temp that is declared: the table says so, where it reaches to it.
fn is_read(text: &[u8], own: &[usize], name: &[u8], key: Option<u64>, read: &[u8]) -> bool
    requires { ((is_temp name.now ≡ true) × ((key ≡ key_of name.now) × (declared_in name.now (lines_of text.now) ≡ true)))
        × (TellsOf own.now (λ (x : List ℕ). declared_in x (lines_of text.now)) (λ (x : List ℕ). temp_read x (lines_of text.now)) read.now) }
    ensures { result ≡ temp_read name.now (lines_of text.now) }
{
    match table::flag_of(key, own, read) {
        Some(b) => b,
        None => temp_read(text, name),
    }
}

// Whether a temp is dead: some line of a text declares it, and none reads it.
fn is_dead(text: &[u8], own: &[usize], name: &[u8], declared: &[u8], read: &[u8]) -> bool
    requires { (is_temp name.now ≡ true)
        × ((Tells own.now (λ (x : List ℕ). declared_in x (lines_of text.now)) declared.now) × (TellsOf own.now (λ (x : List ℕ). declared_in x (lines_of text.now)) (λ (x : List ℕ). temp_read x (lines_of text.now)) read.now)) }
    ensures { result ≡ declared_in name.now (lines_of text.now) && not (temp_read name.now (lines_of text.now)) }
{
    let key = table::key_of(name);
    if !is_declared(text, own, name, key, declared) {
        return false;
    }
    !is_read(text, own, name, key, read)
}

// Whether a line of a text goes. The value of a store of a temp is judged first, and left in `scratch` without its comments.
fn goes(
    mode: reading::Mode,
    line: &[u8],
    text: &[u8],
    own: &[usize],
    declared: &[u8],
    read: &[u8],
    scratch: &mut [u8],
) -> bool
    requires { (length line.now ≤ length scratch.old)
        × ((Tells own.now (λ (x : List ℕ). declared_in x (lines_of text.now)) declared.now) × (TellsOf own.now (λ (x : List ℕ). declared_in x (lines_of text.now)) (λ (x : List ℕ). temp_read x (lines_of text.now)) read.now)) }
    ensures answer { result ≡ temp_goes (reading_of mode.0) (lines_of text.now) line.now }
    ensures memory { scratch.new ≡ scratch_line (strict_at mode.0) line.now scratch.old }
{
    let t = text::trim(line);
    let c = lines::byte_at(t, 0);
    if ((32 < c) & (c < 128)) & (c != b't') {
        return false;
    }
    match reading::assign_of(t) {
        Some(s) => {
            let name = reading::left_of(t, s);
            if !names::is_temp_name(name) {
                return false;
            }
            if !expr::is_pure(expr::purity(
                reading::right_of(t, s),
                reading::is_strict(mode),
                scratch,
            )) {
                return false;
            }
            is_dead(text, own, name, declared, read)
        }
        None => false,
    }
}

// Writes what a line of a text becomes, and returns the place after it.
fn put_line(
    mode: reading::Mode,
    line: &[u8],
    text: &[u8],
    own: &[usize],
    declared: &[u8],
    read: &[u8],
    scratch: &mut [u8],
    out: &mut [u8],
    o: usize,
) -> usize
    requires { ((length line.now ≤ length scratch.old)
        × ((Tells own.now (λ (x : List ℕ). declared_in x (lines_of text.now)) declared.now) × (TellsOf own.now (λ (x : List ℕ). declared_in x (lines_of text.now)) (λ (x : List ℕ). temp_read x (lines_of text.now)) read.now)))
        × (o + length (temp_text (reading_of mode.0) (lines_of text.now) line.now) ≤ length out.old) }
    ensures answer { Wrote out.old o (temp_text (reading_of mode.0) (lines_of text.now) line.now) out.new result }
    ensures memory { scratch.new ≡ scratch_line (strict_at mode.0) line.now scratch.old }
{
    if goes(mode, line, text, own, declared, read, scratch) {
        return o;
    }
    let p = lines::put(out, o, line);
    lines::put_byte(out, p, 10)
}

// The same as prune_dead_temps, with tables of the temps that the text declares and reads.
fn prune_with(
    mode: reading::Mode,
    text: &[u8],
    own: &[usize],
    declared: &[u8],
    read: &[u8],
    scratch: &mut [u8],
    out: &mut [u8],
    moves: &mut [usize],
) -> usize
    requires { ((length text.now ≤ length scratch.old)
        × ((Tells own.now (λ (x : List ℕ). declared_in x (lines_of text.now)) declared.now) × (TellsOf own.now (λ (x : List ℕ). declared_in x (lines_of text.now)) (λ (x : List ℕ). temp_read x (lines_of text.now)) read.now)))
        × ((length (unlines (prune_dead_temps (reading_of mode.0) (lines_of text.now))) ≤ length out.old) × (length (lines_of text.now) ≤ length moves.old)) }
    ensures answer { Wrote out.old 0 (unlines (prune_dead_temps (reading_of mode.0) (lines_of text.now))) out.new result }
    ensures memory { scratch.new ≡ temp_scratch (strict_at mode.0) (lines_of text.now) scratch.old }
    ensures moves { Wrote moves.old 0 (moves_of (prune_dead_temps_acts (reading_of mode.0) (lines_of text.now))) moves.new (length (lines_of text.now)) }
{
    let mut o = 0;
    let mut k = 0;
    for line in lines::each::each(text) {
        let p = put_line(mode, line.bytes, text, own, declared, read, scratch, out, o);
        k = origins::note(moves, k, o, p);
        o = p;
    }
    o
}

// The same as prune_dead_temps, with tables of zeros, as long as each other, for the temps that the text declares and reads.
fn prune_tables(
    mode: reading::Mode,
    text: &[u8],
    own: &mut [usize],
    declared: &mut [u8],
    read: &mut [u8],
    scratch: &mut [u8],
    out: &mut [u8],
    moves: &mut [usize],
) -> usize
    requires { ((declared.old ≡ replicate (length read.old) 0) × (read.old ≡ replicate (length read.old) 0))
        × ((length text.now ≤ length scratch.old) × ((length (unlines (prune_dead_temps (reading_of mode.0) (lines_of text.now))) ≤ length out.old) × (length (lines_of text.now) ≤ length moves.old))) }
    ensures answer { Wrote out.old 0 (unlines (prune_dead_temps (reading_of mode.0) (lines_of text.now))) out.new result }
    ensures memory { scratch.new ≡ temp_scratch (strict_at mode.0) (lines_of text.now) scratch.old }
    ensures moves { Wrote moves.old 0 (moves_of (prune_dead_temps_acts (reading_of mode.0) (lines_of text.now))) moves.new (length (lines_of text.now)) }
{
    table::claim_decls(text, declared.len(), own);
    table::flag_decls(text, own, declared);
    table::flag_used(text, own, declared, read);
    prune_with(mode, text, own, declared, read, scratch, out, moves)
}

// How far the second of two bytes stands above `0`, where the first is a `t`: a digit less than ten, and no other byte.
fn after_t(a: u8, b: u8) -> u8
    ensures { nat_lt result 10 ≡ (116 == a) && is_digit b }
{
    if a == b't' {
        return std::num::wrapping_sub_u8(b, b'0');
    }
    255
}

// Whether a digit stands after a `t` somewhere: the least of what `after_t` says tells. It goes on to the end, so that the compiler
// compares many bytes at a time.
pub fn has_temp(s: &[u8]) -> bool
    ensures { result ≡ temp_in s.now }
{
    if s.len() == 0 {
        return false;
    }
    let end = s.len() - 1;
    let mut least = 255;
    for i in 0..end {
        let x = after_t(s[i], s[i + 1]);
        if x < least {
            least = x;
        }
    }
    least < 10
}

// A store of a declared temp that nothing reads goes, where its value is pure in the given mode. Each line is followed by one LF; the values of the stores
// of temps are left in `scratch`, one over the other, without their comments. A text that names no temp stays as it is. `declared` and `read`
// are room for the flags of temps, and `own` for the owners of those with high keys; they are left with zeros. `moves` gets the move of each line.
pub fn prune_dead_temps(
    mode: reading::Mode,
    text: &[u8],
    own: &mut [usize],
    declared: &mut [u8],
    read: &mut [u8],
    scratch: &mut [u8],
    out: &mut [u8],
    moves: &mut [usize],
) -> usize
    requires { (length text.now ≤ length scratch.old) × ((length (unlines (prune_dead_temps (reading_of mode.0) (lines_of text.now))) ≤ length out.old) × (length (lines_of text.now) ≤ length moves.old)) }
    ensures answer { Wrote out.old 0 (unlines (prune_dead_temps (reading_of mode.0) (lines_of text.now))) out.new result }
    ensures memory { scratch.new ≡ temp_scratch (strict_at mode.0) (lines_of text.now) scratch.old }
    ensures tables { (own.new ≡ replicate (length own.old) 0)
        × ((declared.new ≡ replicate (length declared.old) 0) × (read.new ≡ replicate (length read.old) 0)) }
    ensures moves { Wrote moves.old 0 (moves_of (prune_dead_temps_acts (reading_of mode.0) (lines_of text.now))) moves.new (length (lines_of text.now)) }
{
    table::wipe(own, declared, read);
    if !has_temp(text) {
        origins::stay_lines(text, moves, 0);
        return lines::put_lines(text, out, 0);
    }
    let n = slots::shorter(declared.len(), read.len());
    let o = prune_tables(
        mode,
        text,
        own,
        &mut declared[..n],
        &mut read[..n],
        scratch,
        out,
        moves,
    );
    table::wipe(own, declared, read);
    o
}
