// The limits of the entries: what they answer, the checks in their order, and the last step into the result buffer.
#![tactic(auto)]

ghost use Rattle.std.specs.Prelude.{◌≡◌, length};
ghost use Rattle.lines.specs.Lf.{lines_of};
ghost use Rattle.lines.specs.Steps.{joined};
ghost use Rattle.std.specs.declared.result.Result.TheVariants.{Ok, Err};
ghost use Rattle.limits.specs.Answer.{number_of, length_of, place_of};
ghost use Rattle.limits.specs.Entry.{small, large, byte_size, is_short, tables_short, is_wide, by_flaw, checked_lines, checked, in_mode, roomed, out_after};
ghost use Rattle.limits.specs.Inner.Sane.{Sane};

// How much an entry takes: the most bytes and the most lines of a text.
#[derive(Clone, Copy)]
pub struct Limits {
    pub bytes: usize,
    pub lines: usize,
}

// What is asked of a run: the passes from `from` up to `to`, in a mode, with records in a form, over a text within limits.
#[derive(Clone, Copy)]
pub struct Task {
    pub from: usize,
    pub to: usize,
    pub mode: reading::Mode,
    pub form: origins::Form,
    pub limits: Limits,
}

// There are so many modes, with the numbers from 0 on.
pub const MODES: usize = 4;

// The limits of `optimize` and `run_pass`.
pub const SMALL_BYTES: usize = 16384;

pub const SMALL_LINES: usize = 1024;

pub fn small() -> Limits
    ensures { result ≡ small }
{
    Limits {
        bytes: SMALL_BYTES,
        lines: SMALL_LINES,
    }
}

// The limits of `optimize_large` and `run_pass_large`.
pub const LARGE_BYTES: usize = 1048576;

pub const LARGE_LINES: usize = 100000;

pub fn large() -> Limits
    ensures { result ≡ large }
{
    Limits {
        bytes: LARGE_BYTES,
        lines: LARGE_LINES,
    }
}

// Their tables over registers or phis have an entry for each of the numbers below this,
const LARGE_LOW: usize = 131072;

// and for so many others, a prime, so that numbers with a common step do not meet.
pub const LARGE_OWNERS: usize = 131071;

// The entries of such a table,
pub const LARGE_PLACES: usize = LARGE_LOW + LARGE_OWNERS;

// and of one that rebuild_calls keeps two notes a line in.
pub const LARGE_NOTES: usize = 2 * LARGE_LINES;

// How many bytes of each work buffer are used: a text may come to twice its length, and an LF.
pub fn byte_size(m: Limits) -> usize
    requires { Sane m }
    ensures { result ≡ byte_size m }
{
    2 * m.bytes + 1
}

// The form `OL` has numbers for so many lines: the one after the last of them stands for gone.
pub const OL_LINES: usize = 65535;

// Why there is no result.
#[derive(Clone, Copy)]
pub enum Refusal {
    BadPass,
    TooLong(usize),
    ShortWork,
    NotUtf8(usize),
    TooManyLines(usize),
    Crowded(usize),
    ShortResult(usize),
    Cut(usize),
    Overlong(usize),
    Outside(usize),
    BadMode,
    ShortRecords(usize),
    WideLines,
}

// What an entry answers: the length of the result, or why there is none.
pub type Answer = Result<usize, Refusal>;

// The number of the check that refused.
#[tactic(auto, unfolding(crate::specs::Answer::number_of))]
fn check_of(e: Refusal) -> u8
    ensures { result ≡ number_of (Err e) }
{
    match e {
        Refusal::BadPass => 1,
        Refusal::TooLong(n) => 2,
        Refusal::ShortWork => 3,
        Refusal::NotUtf8(i) => 4,
        Refusal::TooManyLines(n) => 5,
        Refusal::Crowded(n) => 6,
        Refusal::ShortResult(n) => 7,
        Refusal::Cut(i) => 9,
        Refusal::Overlong(i) => 10,
        Refusal::Outside(i) => 11,
        Refusal::BadMode => 12,
        Refusal::ShortRecords(n) => 8,
        Refusal::WideLines => 13,
    }
}

// The number of an answer: 0, or that of the check that refused.
#[tactic(auto, unfolding(crate::specs::Answer::number_of))]
pub fn number_of(r: Answer) -> u8
    ensures { result ≡ number_of r }
{
    match r {
        Ok(_) => 0,
        Err(e) => check_of(e),
    }
}

// The length of the result, 0 where there is none.
#[tactic(auto, unfolding(crate::specs::Answer::length_of))]
pub fn length_of(r: Answer) -> usize
    ensures { result ≡ length_of r }
{
    match r {
        Ok(n) => n,
        Err(_) => 0,
    }
}

// Where a check refused: 0 where it names no place.
#[tactic(auto, unfolding(crate::specs::Answer::place_of))]
fn refused_at(e: Refusal) -> usize
    ensures { result ≡ place_of (Err e) }
{
    match e {
        Refusal::BadPass | Refusal::ShortWork | Refusal::BadMode => 0,
        Refusal::TooLong(n)
        | Refusal::NotUtf8(n)
        | Refusal::TooManyLines(n)
        | Refusal::Crowded(n)
        | Refusal::ShortResult(n)
        | Refusal::Cut(n)
        | Refusal::Overlong(n)
        | Refusal::Outside(n)
        | Refusal::ShortRecords(n) => n,
        Refusal::WideLines => OL_LINES,
    }
}

// The place of a refusal.
#[tactic(auto, unfolding(crate::specs::Answer::place_of))]
pub fn place_of(r: Answer) -> usize
    ensures { result ≡ place_of r }
{
    match r {
        Ok(_) => 0,
        Err(e) => refused_at(e),
    }
}

// Whether one of six work buffers, of these lengths, is shorter than its stated size.
pub fn too_short(m: Limits, a: usize, b: usize, c: usize, d: usize, e: usize, u: usize) -> bool
    requires { Sane m }
    ensures { result ≡ is_short m a b c d e u }
{
    let size = byte_size(m);
    if a < size {
        return true;
    }
    if b < size {
        return true;
    }
    if c < size {
        return true;
    }
    if d < size {
        return true;
    }
    if e < size {
        return true;
    }
    u < m.bytes
}

// Whether one of the twelve tables of the second pair, of these lengths, is shorter than its stated size.
pub fn tables_short(
    f: usize,
    g: usize,
    h: usize,
    v: usize,
    w: usize,
    x: usize,
    p: usize,
    q: usize,
    r: usize,
    t: usize,
    own: usize,
    table: usize,
) -> bool
    ensures { result ≡ tables_short large f g h v w x p q r t own table }
{
    (f < LARGE_PLACES)
        | ((g < LARGE_PLACES)
            | ((h < LARGE_LINES)
                | ((v < LARGE_NOTES)
                    | ((w < LARGE_NOTES)
                        | ((x < LARGE_NOTES)
                            | ((p < LARGE_LINES)
                                | ((q < LARGE_LINES)
                                    | ((r < LARGE_PLACES)
                                        | ((t < LARGE_PLACES)
                                            | ((own < LARGE_OWNERS)
                                                | (table < LARGE_LINES)))))))))))
}

// Whether a form has no numbers for so many lines.
fn is_wide(form: origins::Form, n: usize) -> bool
    ensures { result ≡ is_wide form n }
{
    match form {
        origins::Form::Ol => n > OL_LINES,
        origins::Form::Om => false,
    }
}

// Why a text is refused by its lines, where its records are asked for in a form, or `Ok` where it is not.
fn refused_lines(m: Limits, form: origins::Form, text: &[u8]) -> Answer
    ensures { result ≡ checked_lines m form text.now (Ok 0) }
{
    let n = lines::count_lines(text);
    if n > m.lines {
        return Err(Refusal::TooManyLines(m.lines));
    }
    if is_wide(form, n) {
        return Err(Refusal::WideLines);
    }
    match lines::crowded_line(text, 64) {
        Some(n) => Err(Refusal::Crowded(n)),
        None => Ok(0),
    }
}

// The answer for a text whose first bad sequence stands at a place.
fn by_flaw(f: flaws::Flaw, i: usize) -> Answer
    ensures { result ≡ by_flaw f i }
{
    match f {
        flaws::Flaw::Other => Err(Refusal::NotUtf8(i)),
        flaws::Flaw::Cut => Err(Refusal::Cut(i)),
        flaws::Flaw::Overlong => Err(Refusal::Overlong(i)),
        flaws::Flaw::Outside => Err(Refusal::Outside(i)),
    }
}

// Why a text is refused, or `Ok` where it is not. The checks stand in their order.
pub fn refused(m: Limits, form: origins::Form, text: &[u8], short: bool) -> Answer
    ensures { result ≡ checked m form short text.now (Ok 0) }
{
    if text.len() > m.bytes {
        return Err(Refusal::TooLong(m.bytes));
    }
    if short {
        return Err(Refusal::ShortWork);
    }
    match text::check_utf8(text) {
        Err(i) => by_flaw(flaws::flaw_at(text, i), i),
        Ok(()) => refused_lines(m, form, text),
    }
}

// Why a task is refused over a text, or `Ok` where it is not: its mode is looked at first.
pub fn refused_task(m: Task, text: &[u8], short: bool) -> Answer
    ensures { result ≡ in_mode m.mode.0 (checked m.limits m.form short text.now (Ok 0)) }
{
    if m.mode.0 >= MODES {
        return Err(Refusal::BadMode);
    }
    let form = m.form;
    refused(m.limits, form, text, short)
}

// Joins the lines of `lf` into the result buffer, where it is long enough, and the `have` bytes lent for records are the `need` bytes that they take.
pub fn finish(lf: &[u8], ended: bool, need: usize, have: usize, out: &mut [u8]) -> Answer
    ensures answer { result ≡ roomed (length (joined ended (lines_of lf.now))) (length out.old) need have }
    ensures memory { out.new ≡ out_after result (joined ended (lines_of lf.now)) out.old }
{
    let n = lines::joined_len(lf, ended);
    if out.len() < n {
        return Err(Refusal::ShortResult(n));
    }
    if have < need {
        return Err(Refusal::ShortRecords(need));
    }
    let m = lines::join_lines(lf, ended, out);
    Ok(m)
}
