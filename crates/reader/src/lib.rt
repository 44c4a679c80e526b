// Reads record files: checks them, answers which lines are behind an output line, and turns them into the other form.
#![tactic(auto)]

mod each;

ghost use Rattle.std.specs.Prelude.{◌≡◌, ◌≤◌, ◌<◌, ◌+◌, ◌*◌, length, get_or, set, take, drop};
ghost use Rattle.std.specs.declared.result.Result.TheVariants.{Err};
ghost use Rattle.lines.specs.Lf.{word};
ghost use Rattle.lines.specs.Inner.Out.{Wrote};
ghost use Rattle.origins.specs.declared.Went.TheVariants.{Away};
ghost use Rattle.origins.specs.Form.{form_shape, size_of, file_of};
ghost use Rattle.origins.specs.Read.{line_in, fate_in, out_in, fault_in, went_by, went_in, says, read_file};
ghost use Rattle.origins.specs.Answers.{is_in, behind, roomed_lines, lines_for, fits, unfit, turn_by, turn};
ghost use Rattle.reader.specs.Replies.{reply_number, reply_place, reply_count, form_in, check_reply, at_front, lines_reply, lines_after, turned_reply, turned_after, wents_in};
ghost use Rattle.reader.specs.Chains.{firsts_from, next_in, first_in, nexts_from, roomed_chains, chains_for, chains_reply, firsts_after, nexts_after};
ghost use Rattle.reader.specs.Inner.Walk.{flaw, one_in};

// Why there is nothing, with the record, or the room that is needed.
#[derive(Clone, Copy)]
pub enum Refusal {
    Cut(usize),
    WrongMark(usize),
    OutOfOrder(usize),
    UnknownFate(usize),
    Disagree(usize),
    Unfit(usize),
    Short(usize),
    NoRoom(usize),
}

// What is answered: how much there is, or why there is nothing.
pub type Reply = Result<usize, Refusal>;

// The number of the check that refused.
fn check_of(e: Refusal) -> u8
    ensures { result ≡ reply_number (Err e) }
{
    match e {
        Refusal::Cut(_) => 1,
        Refusal::WrongMark(_) => 2,
        Refusal::OutOfOrder(_) => 3,
        Refusal::UnknownFate(_) => 4,
        Refusal::Disagree(_) => 5,
        Refusal::Unfit(_) | Refusal::NoRoom(_) => 6,
        Refusal::Short(_) => 7,
    }
}

// The number of an answer: 0, or that of the check that refused.
pub fn number_of(r: Reply) -> u8
    ensures { result ≡ reply_number r }
{
    match r {
        Ok(_) => 0,
        Err(e) => check_of(e),
    }
}

// The record that was refused, or how much room is needed.
fn refused_at(e: Refusal) -> usize
    ensures { result ≡ reply_place (Err e) }
{
    match e {
        Refusal::Cut(i)
        | Refusal::WrongMark(i)
        | Refusal::OutOfOrder(i)
        | Refusal::UnknownFate(i)
        | Refusal::Disagree(i)
        | Refusal::Unfit(i)
        | Refusal::Short(i)
        | Refusal::NoRoom(i) => i,
    }
}

// The place of a refusal: the record, or how much room is needed; 0 where there is none.
pub fn place_of(r: Reply) -> usize
    ensures { result ≡ reply_place r }
{
    match r {
        Ok(_) => 0,
        Err(e) => refused_at(e),
    }
}

// How much there is: records, lines or bytes; 0 for a refusal.
pub fn count_of(r: Reply) -> usize
    ensures { result ≡ reply_count r }
{
    match r {
        Ok(n) => n,
        Err(_) => 0,
    }
}

// The form that a file shows by the second byte of its first mark; `OL` where it shows none.
pub fn form_of(file: &[u8]) -> origins::Form
    ensures { result ≡ form_in file.now }
{
    if lines::byte_at(file, 1) == b'M' {
        return origins::Form::Om;
    }
    origins::Form::Ol
}

// The number in two bytes, the low byte first.
fn two_at(s: &[u8], i: usize) -> usize
    requires { i + 2 ≤ length s.now }
    ensures value { result ≡ word (take 2 (drop i s.now)) }
    ensures small { result < 65536 }
{
    let a = s[i] as usize;
    let b = s[i + 1] as usize;
    b * 256 + a
}

// The number of a line, in the bytes of a form.
fn number_at(f: origins::Form, s: &[u8], i: usize) -> usize
    requires { i + (form_shape f).width ≤ length s.now }
    ensures { result ≡ word (take (form_shape f).width (drop i s.now)) }
{
    match f {
        origins::Form::Ol => two_at(s, i),
        origins::Form::Om => {
            let a = two_at(s, i);
            let b = two_at(s, i + 2);
            b * 65536 + a
        }
    }
}

// The parts of the record at `o`: its line, its fate and its output line.
fn line_at(f: origins::Form, s: &[u8], o: usize) -> usize
    requires { o + size_of (form_shape f) ≤ length s.now }
    ensures { result ≡ line_in (form_shape f) (drop o s.now) }
{
    number_at(f, s, o + 2)
}

fn fate_at(f: origins::Form, s: &[u8], o: usize) -> u8
    requires { o + size_of (form_shape f) ≤ length s.now }
    ensures { result ≡ fate_in (form_shape f) (drop o s.now) }
{
    let w = origins::width_of(f);
    s[o + 2 + w]
}

fn out_at(f: origins::Form, s: &[u8], o: usize) -> usize
    requires { o + size_of (form_shape f) ≤ length s.now }
    ensures { result ≡ out_in (form_shape f) (drop o s.now) }
{
    let w = origins::width_of(f);
    number_at(f, s, o + 3 + w)
}

// What is wrong with the record of line `i` at `o`, by the first check that fails.
fn fault_at(f: origins::Form, s: &[u8], i: usize, o: usize) -> Result<(), Refusal>
    requires { o ≤ length s.now }
    ensures { result ≡ flaw (fault_in (form_shape f) i (drop o s.now)) i }
{
    let z = origins::size_of(f);
    if s.len() - o < z {
        return Err(Refusal::Cut(i));
    }
    if s[o] != origins::MARK {
        return Err(Refusal::WrongMark(i));
    }
    let l = origins::letter_of(f);
    if s[o + 1] != l {
        return Err(Refusal::WrongMark(i));
    }
    let j = line_at(f, s, o);
    if j != i {
        return Err(Refusal::OutOfOrder(i));
    }
    let k = fate_at(f, s, o);
    if k > origins::GONE {
        return Err(Refusal::UnknownFate(i));
    }
    let n = out_at(f, s, o);
    let g = origins::gone_of(f);
    if k == origins::GONE {
        if n == g {
            return Ok(());
        }
        return Err(Refusal::Disagree(i));
    }
    if n == g {
        return Err(Refusal::Disagree(i));
    }
    Ok(())
}

// Checks a file: how many records it has, or what is wrong with the first that is wrong.
pub fn check(f: origins::Form, file: &[u8]) -> Reply
    ensures { result ≡ check_reply (read_file (form_shape f) file.now) }
{
    let z = origins::size_of(f);
    let mut i = 0;
    let mut o = 0;
    // Kept: the place moves by the size of a record, and the bytes of a last record that is cut are looked at too.
    while o < file.len() {
        fault_at(f, file, i, o)?;
        i += 1;
        o += z;
    }
    Ok(i)
}

// What is said by a fate and an output line.
fn went_by(k: u8, n: usize) -> origins::Went
    ensures { result ≡ went_by k n }
{
    if k == origins::EQUAL {
        return origins::Went::Equal(n);
    }
    if k == origins::CHANGED {
        return origins::Went::Changed(n);
    }
    if k == origins::INSIDE {
        return origins::Went::Inside(n);
    }
    origins::Went::Away
}

// What the record at `o` says.
fn went_at(f: origins::Form, s: &[u8], o: usize) -> origins::Went
    requires { o + size_of (form_shape f) ≤ length s.now }
    ensures { result ≡ went_in (form_shape f) (drop o s.now) }
{
    let k = fate_at(f, s, o);
    let n = out_at(f, s, o);
    went_by(k, n)
}

// What record `i` of a file says; past its whole records, that the line is away.
pub fn record_at(f: origins::Form, file: &[u8], i: usize) -> origins::Went
    ensures { result ≡ get_or (wents_in (form_shape f) file.now) i Away }
{
    let z = origins::size_of(f);
    if i < file.len() / z {
        return went_at(f, file, z * i);
    }
    origins::Went::Away
}

// Whether a line of which this is said is in output line `n`.
fn is_in(w: origins::Went, n: usize) -> bool
    ensures { result ≡ is_in n w }
{
    match w {
        origins::Went::Equal(k) => k == n,
        origins::Went::Changed(k) => k == n,
        origins::Went::Inside(k) => k == n,
        origins::Went::Away => false,
    }
}

// Writes the number of line `i`, where it is in output line `n`, and returns the place after it.
fn put_in(room: &mut [usize], k: usize, i: usize, w: origins::Went, n: usize) -> usize
    requires { k + length (one_in n i w) ≤ length room.old }
    ensures { Wrote room.old k (one_in n i w) room.new result }
{
    if is_in(w, n) {
        room[k] = i;
        return k + 1;
    }
    k
}

// How many lines are in output line `n`.
fn count_behind(f: origins::Form, file: &[u8], n: usize) -> usize
    ensures { result ≡ length (behind n (wents_in (form_shape f) file.now)) }
{
    each::each(f, file).filter(|w| is_in(*w, n)).count()
}

// Writes the lines that are in output line `n`, and returns how many.
fn put_behind(f: origins::Form, file: &[u8], n: usize, room: &mut [usize]) -> usize
    requires { length (behind n (wents_in (form_shape f) file.now)) ≤ length room.old }
    ensures { Wrote room.old 0 (behind n (wents_in (form_shape f) file.now)) room.new result }
{
    let mut k = 0;
    for (i, w) in each::each(f, file).enumerate() {
        k = put_in(room, k, i, w, n);
    }
    k
}

// The lines behind an output line of a file that is right, where there is room.
fn answer_lines(f: origins::Form, file: &[u8], n: usize, room: &mut [usize]) -> Reply
    ensures answer { result ≡ lines_reply (roomed_lines (behind n (wents_in (form_shape f) file.now)) (length room.old)) }
    ensures memory { room.new ≡ lines_after (roomed_lines (behind n (wents_in (form_shape f) file.now)) (length room.old)) room.old }
{
    let k = count_behind(f, file, n);
    if room.len() < k {
        return Err(Refusal::NoRoom(k));
    }
    let m = put_behind(f, file, n, room);
    Ok(m)
}

// Writes the lines that are in output line `n` of a file, ascending, and answers how many.
pub fn lines_of(f: origins::Form, file: &[u8], n: usize, room: &mut [usize]) -> Reply
    ensures answer { result ≡ lines_reply (lines_for (form_shape f) file.now n (length room.old)) }
    ensures memory { room.new ≡ lines_after (lines_for (form_shape f) file.now n (length room.old)) room.old }
{
    let _ = check(f, file)?;
    answer_lines(f, file, n, room)
}

// Puts line `i` in front of the chain of output line `n`, and answers which line was there; `end` where there is no such chain.
fn link(first: &mut [usize], n: usize, i: usize, end: usize) -> usize
    ensures answer { result ≡ get_or first.old n end }
    ensures memory { first.new ≡ set first.old n i }
{
    if n < first.len() {
        let x = first[n];
        first[n] = i;
        return x;
    }
    end
}

// The same of a line of which `w` is said. One that is gone is in no chain.
fn link_line(first: &mut [usize], w: origins::Went, i: usize, end: usize) -> usize
    ensures answer { result ≡ next_in end first.old w }
    ensures memory { first.new ≡ first_in i first.old w }
{
    match w {
        origins::Went::Equal(n) => link(first, n, i, end),
        origins::Went::Changed(n) => link(first, n, i, end),
        origins::Went::Inside(n) => link(first, n, i, end),
        origins::Went::Away => end,
    }
}

// Links the `m` lines of a file, from the last to the first.
fn link_all(f: origins::Form, file: &[u8], m: usize, first: &mut [usize], next: &mut [usize])
    requires { (m ≡ length (wents_in (form_shape f) file.now)) × (m ≤ length next.old) }
    ensures firsts { first.new ≡ firsts_from m 0 (wents_in (form_shape f) file.now) 0 (length first.old) }
    ensures nexts { next.new ≡ at_front (nexts_from m (length first.old) 0 (wents_in (form_shape f) file.now)) next.old }
{
    first.fill(m);
    for i in (0..m).rev() {
        let w = record_at(f, file, i);
        let x = link_line(first, w, i, m);
        next[i] = x;
    }
}

// The chains of the `m` lines of a file that is right, where there is room.
fn answer_chains(
    f: origins::Form,
    file: &[u8],
    m: usize,
    first: &mut [usize],
    next: &mut [usize],
) -> Reply
    requires { m ≡ length (wents_in (form_shape f) file.now) }
    ensures answer { result ≡ chains_reply (roomed_chains (length first.old) (wents_in (form_shape f) file.now) (length next.old)) }
    ensures memory { (first.new ≡ firsts_after (roomed_chains (length first.old) (wents_in (form_shape f) file.now) (length next.old)) first.old)
        × (next.new ≡ nexts_after (roomed_chains (length first.old) (wents_in (form_shape f) file.now) (length next.old)) next.old) }
{
    if next.len() < m {
        return Err(Refusal::NoRoom(m));
    }
    link_all(f, file, m, first, next);
    Ok(m)
}

// Writes the lines that are in each output line of a file, as chains, in one walk, and answers how many lines there are: into `first` for each output line, as
// many as it is long, the first of its lines, and into `next` for each line the next one of the same output line. The number of all lines stands for none.
pub fn lines_of_all(f: origins::Form, file: &[u8], first: &mut [usize], next: &mut [usize]) -> Reply
    ensures answer { result ≡ chains_reply (chains_for (form_shape f) file.now (length first.old) (length next.old)) }
    ensures memory { (first.new ≡ firsts_after (chains_for (form_shape f) file.now (length first.old) (length next.old)) first.old)
        × (next.new ≡ nexts_after (chains_for (form_shape f) file.now (length first.old) (length next.old)) next.old) }
{
    let lines = check(f, file)?;
    answer_chains(f, file, lines, first, next)
}

// Whether the record of line `i` can be written in a form.
fn fits_in(g: origins::Form, i: usize, w: origins::Went) -> bool
    ensures { result ≡ fits (form_shape g) i w }
{
    let n = origins::gone_of(g);
    if i > n {
        return false;
    }
    match w {
        origins::Went::Equal(k) => k < n,
        origins::Went::Changed(k) => k < n,
        origins::Went::Inside(k) => k < n,
        origins::Went::Away => true,
    }
}

// The first of the `m` records of a file that cannot be written in a form, or how many there are.
fn unfit_at(f: origins::Form, g: origins::Form, file: &[u8], m: usize) -> usize
    requires { m ≡ length (wents_in (form_shape f) file.now) }
    ensures { result ≡ unfit (form_shape g) 0 (wents_in (form_shape f) file.now) }
{
    for (i, w) in each::each(f, file).enumerate() {
        if !fits_in(g, i, w) {
            return i;
        }
    }
    m
}

// Writes the records of a file in a form, and returns the place after them.
fn put_file(f: origins::Form, g: origins::Form, file: &[u8], out: &mut [u8]) -> usize
    requires { length (file_of (form_shape g) (wents_in (form_shape f) file.now)) ≤ length out.old }
    ensures { Wrote out.old 0 (file_of (form_shape g) (wents_in (form_shape f) file.now)) out.new result }
{
    let mut p = 0;
    for (i, w) in each::each(f, file).enumerate() {
        p = origins::put_record(out, p, g, i, w);
    }
    p
}

// Turns a file of `m` records that is right, where they fit and there is room.
fn answer_turn(f: origins::Form, g: origins::Form, file: &[u8], m: usize, out: &mut [u8]) -> Reply
    requires { m ≡ length (wents_in (form_shape f) file.now) }
    ensures answer { result ≡ turned_reply (turn_by (form_shape g) (length out.old) (says (wents_in (form_shape f) file.now))) }
    ensures memory { out.new ≡ turned_after (turn_by (form_shape g) (length out.old) (says (wents_in (form_shape f) file.now))) out.old }
{
    let u = unfit_at(f, g, file, m);
    if u < m {
        return Err(Refusal::Unfit(u));
    }
    let z = origins::size_of(g);
    let n = z * m;
    if out.len() < n {
        return Err(Refusal::Short(n));
    }
    let e = put_file(f, g, file, out);
    Ok(e)
}

// Writes the records of a file of one form in another, and answers how many bytes they are.
pub fn turn(f: origins::Form, g: origins::Form, file: &[u8], out: &mut [u8]) -> Reply
    ensures answer { result ≡ turned_reply (turn (form_shape f) (form_shape g) file.now (length out.old)) }
    ensures memory { out.new ≡ turned_after (turn (form_shape f) (form_shape g) file.now (length out.old)) out.old }
{
    let records = check(f, file)?;
    answer_turn(f, g, file, records, out)
}
