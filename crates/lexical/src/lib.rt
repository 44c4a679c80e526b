// Cleaning a line: comments go, and a literal leaves `S`; what is read from a cleaned line.
#![tactic(auto)]

pub mod idents;
pub mod tokens;

ghost use Rattle.std.specs.Prelude.{◌≡◌, [], true, false, cond, not, ℕ, ◌+◌, ◌≤◌, ◌<◌, max, length, take, drop, get_or, MatchOption};
ghost use Rattle.lines.specs.Ascii.{ascii};
ghost use Rattle.lines.specs.Lf.{all, part, holds};
ghost use Rattle.lines.specs.Inner.Lf.{lacks};
ghost use Rattle.lines.specs.Inner.Out.{Wrote};
ghost use Rattle.text.specs.White.{is_white};
ghost use Rattle.text.specs.Trim.{point, white_char};
ghost use Rattle.lexical.specs.Lex.{quote_len, quote_shut, pattern_len, comment_len, pattern_after, token, leaves, strip_lexical};
ghost use Rattle.lexical.specs.Inner.Lex.{token_at, tail_of, last_after, pushed, grown, clean_step};
ghost use Rattle.lexical.specs.Inner.Plain.{is_plain, plain_len, is_mild, all_mild, low_last, low_tail};
ghost use Rattle.lexical.specs.Phi.{phi_rhs_pure};
ghost use Rattle.lexical.specs.Inner.Phi.{sees, sees_all};
ghost use Rattle.lexical.specs.Idents.{char_len, joins, no_word};
ghost use Rattle.lexical.specs.Inner.Idents.{next_word};
ghost use Rattle.lexical.specs.Joined.{taken, shut_in, rest_at, opens_comment, opens_template, open_of, open_below};
ghost use Rattle.lexical.specs.Inner.Joined.{rest_in};

// What becomes of a token: its one byte is kept, a literal leaves `S`, a comment goes.
#[derive(Clone, Copy)]
pub enum Kind {
    Kept,
    Literal,
    Gone,
}

// How many bytes a token has, and what becomes of it.
#[derive(Clone, Copy)]
pub struct Token {
    pub size: usize,
    pub kind: Kind,
}

// Where the quote `q` closes that was opened just before `i`: past its last byte, where it is closed.
fn quote_close(s: &[u8], i: usize, q: u8) -> Option<usize>
    ensures { MatchOption result
        ((quote_shut (drop i s.now) q ≡ false) × (max i (length s.now) ≡ i + quote_len (drop i s.now) q))
        (λ e. (quote_shut (drop i s.now) q ≡ true) × (e ≡ i + quote_len (drop i s.now) q)) }
{
    let mut j = i;
    // Kept: the place moves past what stands behind a backslash.
    while j < s.len() {
        let b = s[j];
        let next = j + 1;
        if b == b'\\' {
            j = lines::after(s, next);
        } else if b == q {
            return Some(next);
        } else {
            j = next;
        }
    }
    None
}

// Where the quote `q` ends that was opened just before `i`: past what closes it, or at the end.
pub fn quote_end(s: &[u8], i: usize, q: u8) -> usize
    ensures { result ≡ i + quote_len (drop i s.now) q }
{
    quote_close(s, i, q).unwrap_or(i.max(s.len()))
}

// Whether the quote `q` that was opened just before `i` is closed.
pub fn quote_shut(s: &[u8], i: usize, q: u8) -> bool
    ensures { result ≡ quote_shut (drop i s.now) q }
{
    quote_close(s, i, q).is_some()
}

// Where the pattern ends that was opened just before `i`. A `/` inside a class does not close it.
fn pattern_end(s: &[u8], i: usize) -> usize
    ensures { result ≡ i + pattern_len (drop i s.now) false }
{
    let mut j = i;
    let mut inside = false;
    // Kept: the place moves past what stands behind a backslash.
    while j < s.len() {
        let next = j + 1;
        match s[j] {
            b'\\' => j = lines::after(s, next),
            b'[' => {
                inside = true;
                j = next;
            }
            b']' => {
                inside = false;
                j = next;
            }
            b'/' => {
                if inside {
                    j = next;
                } else {
                    return next;
                }
            }
            _ => j = next,
        }
    }
    j
}

// Where the block comment ends whose `/*` stands just before `i`.
fn comment_end(s: &[u8], i: usize) -> usize
    ensures { result ≡ i + comment_len (drop i s.now) }
{
    for j in i..s.len() {
        if s[j] == b'*' {
            if lines::byte_at(s, j + 1) == b'/' {
                return j + 2;
            }
        }
    }
    i.max(s.len())
}

// Whether a `/` after this last character starts a pattern; 256 stands for none.
fn pattern_after(last: u16) -> bool
    ensures { result ≡ pattern_after last }
{
    if last == 256 {
        return true;
    }
    if last < 256 {
        return text::opens_pattern(last as u8);
    }
    false
}

// A token of its size and its kind.
fn sized(size: usize, kind: Kind) -> Token
    ensures { result ≡ token size kind }
{
    Token { size, kind }
}

// The token that begins at `i`, where `last` is the last character left before it that is no white space.
pub fn token_at(s: &[u8], i: usize, last: u16) -> Token
    ensures { result ≡ token_at last (drop i s.now) }
{
    if s.len() <= i {
        return sized(0, Kind::Gone);
    }
    let x = s[i];
    let next = i + 1;
    if x == b'/' {
        let y = lines::byte_at(s, next);
        if y == b'/' {
            return sized(s.len() - i, Kind::Gone);
        }
        if y == b'*' {
            return sized(comment_end(s, next + 1) - i, Kind::Gone);
        }
        if pattern_after(last) {
            return sized(pattern_end(s, next) - i, Kind::Literal);
        }
        return sized(1, Kind::Kept);
    }
    if text::is_quote(x) {
        return sized(quote_end(s, next, x) - i, Kind::Literal);
    }
    sized(1, Kind::Kept)
}

// What decides the last character of a text as it grows: its last two bytes, 0 where there is none; and the last character that is
// no white space, 256 where there is none, of the text, of it without its last byte, and of it without its last two.
#[derive(Clone, Copy)]
pub struct Tail {
    pub byte: u8,
    pub byte2: u8,
    pub last: u16,
    pub last2: u16,
    pub last3: u16,
}

// The tail of an empty text.
fn no_tail() -> Tail
    ensures { result ≡ tail_of [] }
{
    Tail {
        byte: 0,
        byte2: 0,
        last: 256,
        last2: 256,
        last3: 256,
    }
}

// The code point of a character.
fn code_point(c: &[u8]) -> u32
    ensures { result ≡ point c.now }
{
    let x = lines::byte_at(c, 0) as u32;
    let y = lines::byte_at(c, 1) as u32;
    let z = lines::byte_at(c, 2) as u32;
    let w = lines::byte_at(c, 3) as u32;
    match c.len() {
        0 => 0,
        1 => x,
        2 => x % 32 * 64 + y % 64,
        3 => x % 16 * 4096 + y % 64 * 64 + z % 64,
        _ => x % 8 * 262144 + y % 64 * 4096 + z % 64 * 64 + w % 64,
    }
}

// Whether bytes are one character, and it is white space.
fn white_char(c: &[u8]) -> bool
    ensures { result ≡ white_char c.now }
{
    if text::seq_at(c, 0) == c.len() {
        return text::is_white(code_point(c));
    }
    false
}

// The last character that is no white space, once `b` stands after the text.
fn last_after(t: Tail, b: u8) -> u16
    ensures { result ≡ last_after t b }
{
    if b < 128 {
        if text::is_white(b as u32) {
            return t.last;
        }
        return b as u16;
    }
    let x = t.byte;
    let y = t.byte2;
    if white_char(&[x, b]) {
        return t.last2;
    }
    if white_char(&[y, x, b]) {
        return t.last3;
    }
    b as u16
}

// The tail once `b` stands after the text.
pub fn push(t: Tail, b: u8) -> Tail
    ensures { result ≡ pushed t b }
{
    Tail {
        byte: b,
        byte2: t.byte,
        last: last_after(t, b),
        last2: t.last,
        last3: t.last2,
    }
}

// The tail with what a token leaves that begins with `b`.
fn grow(t: Tail, kind: Kind, b: u8) -> Tail
    ensures { result ≡ grown t (leaves kind b) }
{
    match kind {
        Kind::Kept => push(t, b),
        Kind::Literal => push(t, b'S'),
        Kind::Gone => t,
    }
}

// One token of a line: where the next begins, what becomes of it, and the tail of the text left after it.
#[derive(Clone, Copy)]
pub struct Step {
    pub next: usize,
    pub kind: Kind,
    pub tail: Tail,
}

// The step from `i` on, where `tail` is that of the text left so far.
pub fn step_at(s: &[u8], i: usize, tail: Tail) -> Step
    ensures { result ≡ clean_step i tail (drop i s.now) }
{
    let token = token_at(s, i, tail.last);
    let kind = token.kind;
    let b = lines::byte_at(s, i);
    Step {
        next: i + token.size,
        kind,
        tail: grow(tail, kind, b),
    }
}

// Whether a byte is plain: below 123, and no LF, no quote and no `/`. It is kept as it is, and is no brace.
fn is_plain(b: u8) -> bool
    ensures { result ≡ is_plain b }
{
    if 97 <= b {
        return b < 123;
    }
    if b == 32 {
        return true;
    }
    if 48 <= b {
        return b < 96;
    }
    if 40 <= b {
        return b < 47;
    }
    !((b == 10) | ((b == 34) | (b == 39)))
}

// Whether a byte is a space, or from `(` to `z`.
fn is_mild(b: u8) -> bool
    ensures { result ≡ is_mild b }
{
    (b == 32) | ((40 <= b) & (b < 123))
}

// Whether the eight bytes at a place are so; the compiler tests them at once.
fn mild_eight(s: &[u8], j: usize) -> bool
    requires { j + 8 ≤ length s.now }
    ensures { result ≡ all (λ (x : ℕ). is_mild x) (take 8 (drop j s.now)) }
{
    is_mild(s[j])
        & (is_mild(s[j + 1])
            & (is_mild(s[j + 2])
                & (is_mild(s[j + 3])
                    & (is_mild(s[j + 4])
                        & (is_mild(s[j + 5]) & (is_mild(s[j + 6]) & is_mild(s[j + 7])))))))
}

// Where the plain bytes from `i` on end, byte by byte.
fn plain_one(s: &[u8], i: usize) -> usize
    ensures { result ≡ i + plain_len (drop i s.now) }
{
    for j in i..s.len() {
        if !is_plain(s[j]) {
            return j;
        }
    }
    i.max(s.len())
}

// Whether none of the eight bytes at a place is `b`; the compiler compares them at once.
fn lacks_eight(s: &[u8], j: usize, b: u8) -> bool
    requires { j + 8 ≤ length s.now }
    ensures { result ≡ lacks b (take 8 (drop j s.now)) }
{
    !((s[j] == b)
        | ((s[j + 1] == b)
            | ((s[j + 2] == b)
                | ((s[j + 3] == b)
                    | ((s[j + 4] == b)
                        | ((s[j + 5] == b) | ((s[j + 6] == b) | (s[j + 7] == b))))))))
}

// Whether the eight bytes at a place are mild, and none is `/` or a backtick: they are plain then.
fn tame_eight(s: &[u8], j: usize) -> bool
    requires { j + 8 ≤ length s.now }
    ensures { result ≡ all_mild (take 8 (drop j s.now)) }
{
    mild_eight(s, j) & (lacks_eight(s, j, b'/') & lacks_eight(s, j, b'`'))
}

// Where the plain bytes from `i` on end: by eight bytes, as long as these are tame.
pub fn plain_end(s: &[u8], i: usize) -> usize
    ensures { result ≡ i + plain_len (drop i s.now) }
{
    if s.len() < 8 {
        return plain_one(s, i);
    }
    let n = s.len() - 7;
    let mut j = i;
    // Kept: the place moves by the eight bytes that are tested at once.
    while j < n {
        if tame_eight(s, j) {
            j += 8;
        } else {
            return plain_one(s, j);
        }
    }
    plain_one(s, j)
}

// Where the plain bytes at the front of a line end: by eights, the last of which overlap, so that only the last byte is left over.
pub fn plain_to(s: &[u8]) -> usize
    ensures { result ≡ plain_len s.now }
{
    let n = s.len();
    if n < 9 {
        return plain_one(s, 0);
    }
    let m = n - 9;
    let mut j = 0;
    // Kept: the place moves by the eight bytes that are tested at once.
    while j < m {
        if !tame_eight(s, j) {
            return plain_one(s, j);
        }
        j += 8;
    }
    if tame_eight(s, m) {
        return plain_one(s, n - 1);
    }
    plain_one(s, j)
}

// Whether a byte, taken as a code point, is no white space: most are told by being ASCII above the space.
fn is_dark(b: u8) -> bool
    ensures { result ≡ not (is_white b) }
{
    if (32 < b) & (b < 128) {
        return true;
    }
    !text::is_white(b as u32)
}

// The last character that is no white space, once the byte `b` below 128 stands after a text with this last one.
fn low_after(last: u16, b: u8) -> u16
    ensures { result ≡ cond (is_white b) last b }
{
    if is_dark(b) {
        return b as u16;
    }
    last
}

// The last character that is no white space, once the bytes of `t`, all below 128, stand after a text with this last one.
fn low_end(t: &[u8], last: u16) -> u16
    ensures { result ≡ low_last last t.now }
{
    match t.iter().rev().find(|b| is_dark(**b)) {
        Some(b) => *b as u16,
        None => last,
    }
}

// The same of the bytes from `i` to `j`.
pub fn low_last(s: &[u8], i: usize, j: usize, last: u16) -> u16
    ensures { result ≡ low_last last (part i j s.now) }
{
    low_end(lines::cut(s, i, j), last)
}

// The tail once the plain bytes from `i` to `j` stand after the text.
fn run_tail(s: &[u8], i: usize, j: usize, t: Tail) -> Tail
    requires { j ≡ i + plain_len (drop i s.now) }
    ensures { result ≡ grown t (part i j s.now) }
{
    if i == j {
        return t;
    }
    let b = s[j - 1];
    if j - i == 1 {
        return push(t, b);
    }
    let a = s[j - 2];
    let last3 = low_last(s, i, j - 2, t.last);
    let last2 = low_after(last3, a);
    Tail {
        byte: b,
        byte2: a,
        last: low_after(last2, b),
        last2,
        last3,
    }
}

// The tail of a text, each byte taken as a character: what plain bytes leave.
fn low_tail(s: &[u8]) -> Tail
    ensures { result ≡ low_tail s.now }
{
    let n = s.len();
    if n == 0 {
        return no_tail();
    }
    let b = s[n - 1];
    if n == 1 {
        return Tail {
            byte: b,
            byte2: 0,
            last: low_after(256, b),
            last2: 256,
            last3: 256,
        };
    }
    let a = s[n - 2];
    let last3 = low_last(s, 0, n - 2, 256);
    let last2 = low_after(last3, a);
    Tail {
        byte: b,
        byte2: a,
        last: low_after(last2, b),
        last2,
        last3,
    }
}

// The tail of the first `k` bytes of a text, each taken as a character: what plain bytes leave.
pub fn front_tail(s: &[u8], k: usize) -> Tail
    ensures { result ≡ low_tail (take k s.now) }
{
    low_tail(lines::cut(s, 0, k))
}

// Where a run of plain bytes ends, and the tail once it stands after the text.
#[derive(Clone, Copy)]
pub struct Run {
    pub end: usize,
    pub tail: Tail,
}

// The run of the plain bytes from `i` on.
pub fn plain_run(s: &[u8], i: usize, t: Tail) -> Run
    ensures { (result.end ≡ i + plain_len (drop i s.now))
        × (result.tail ≡ grown t (part i (i + plain_len (drop i s.now)) s.now)) }
{
    let j = plain_end(s, i);
    Run {
        end: j,
        tail: run_tail(s, i, j, t),
    }
}

// Writes what a token leaves that begins with `b`.
fn put_left(out: &mut [u8], o: usize, kind: Kind, b: u8) -> usize
    requires { o + length (leaves kind b) ≤ length out.old }
    ensures { Wrote out.old o (leaves kind b) out.new result }
{
    match kind {
        Kind::Kept => lines::put_byte(out, o, b),
        Kind::Literal => lines::put_byte(out, o, b'S'),
        Kind::Gone => o,
    }
}

// Writes the cleaned line at `o`, and returns the place after it.
pub fn strip_lexical(s: &[u8], out: &mut [u8], o: usize) -> usize
    requires { o + length (strip_lexical s.now) ≤ length out.old }
    ensures { Wrote out.old o (strip_lexical s.now) out.new result }
{
    let mut p = o;
    let mut i = 0;
    let mut tail = no_tail();
    // Kept: runs of plain bytes and tokens take turns, and a run is written at once.
    while i < s.len() {
        let j = plain_end(s, i);
        if i < j {
            p = lines::put(out, p, &s[i..j]);
            tail = run_tail(s, i, j, tail);
            i = j;
        } else {
            let b = s[i];
            let step = step_at(s, i, tail);
            let kind = step.kind;
            p = put_left(out, p, kind, b);
            tail = step.tail;
            i = step.next;
        }
    }
    p
}

// What of the bytes seen decides whether a value is pure: the last, whether it is an `=` that may still become `==`, and whether
// there was a call, a member, an index or an assignment.
#[derive(Clone, Copy)]
pub struct Seen {
    pub prev: u8,
    pub waits: bool,
    pub effect: bool,
}

// The byte `c` is seen.
fn see(w: Seen, c: u8) -> Seen
    ensures { result ≡ sees w c }
{
    let p = w.prev;
    let equals = c == b'=';
    let compares = (p == b'=') | ((p == b'!') | ((p == b'<') | (p == b'>')));
    let reaches = (c == b'(') | ((c == b'[') | (c == b'.'));
    Seen {
        prev: c,
        waits: equals & !compares,
        effect: w.effect | (reaches | (w.waits & !equals)),
    }
}

// What a token leaves that begins with `b` is seen.
fn see_left(w: Seen, kind: Kind, b: u8) -> Seen
    ensures { result ≡ sees_all w (leaves kind b) }
{
    match kind {
        Kind::Kept => see(w, b),
        Kind::Literal => see(w, b'S'),
        Kind::Gone => w,
    }
}

// Whether a value of a phi has no call, no member, no index and no assignment.
pub fn phi_rhs_pure(s: &[u8]) -> bool
    ensures { result ≡ phi_rhs_pure s.now }
{
    let mut seen = Seen {
        prev: b' ',
        waits: false,
        effect: false,
    };
    for token in tokens::each(s) {
        seen = see_left(seen, token.kind, token.byte);
    }
    !(seen.effect | seen.waits)
}

// How many bytes the character at a place has; a byte that begins none stands alone.
fn char_len(t: &[u8], i: usize) -> usize
    ensures { result ≡ char_len (drop i t.now) }
{
    let n = text::seq_at(t, i);
    if n == 0 {
        return 1;
    }
    n
}

// Whether a character goes on with the word so far, or begins one where there is `none`.
fn joins_word(c: &[u8], none: bool) -> bool
    ensures { result ≡ joins c.now none }
{
    let p = code_point(c);
    let low = (p % 256) as u8;
    text::is_name_byte(low) & (!((48 <= p) & (p <= 57)) | !none)
}

// Whether a run is no word: nothing, or `r` with digits or none.
fn is_no_word(w: &[u8]) -> bool
    ensures { result ≡ no_word w.now }
{
    if w.len() == 0 {
        return true;
    }
    if w[0] != b'r' {
        return false;
    }
    w[1..].iter().all(|b| b.is_ascii_digit())
}

// The first word at or after the place `i` of a cleaned text, where a character begins: from the place 0, and then from the end of
// the last, these are the words of the text.
pub fn next_word(t: &[u8], i: usize) -> Option<text::Span>
    ensures { result ≡ next_word t.now i }
{
    let mut a = i;
    let mut j = i;
    // Kept: the place moves by the bytes of a character.
    while j < t.len() {
        let e = j + char_len(t, j);
        if joins_word(&t[j..e], a == j) {
            j = e;
        } else {
            if !is_no_word(&t[a..j]) {
                return Some(text::Span { from: a, to: j });
            }
            a = e;
            j = e;
        }
    }
    if !is_no_word(lines::cut(t, a, j)) {
        return Some(text::Span { from: a, to: j });
    }
    None
}

// What a line leaves open for the next: nothing, a block comment, or a template.
#[derive(Clone, Copy)]
pub enum Open {
    Nothing,
    Comment,
    Template,
}

// Whether the block comment whose `/*` stands just before `i` is closed.
fn comment_shut(s: &[u8], i: usize) -> bool
    ensures { result ≡ holds (ascii "*/") (drop i s.now) }
{
    lines::contains(lines::cut(s, i, s.len()), b"*/")
}

// Whether a block comment begins at `i` that is not closed.
fn opens_comment(s: &[u8], i: usize) -> bool
    requires { i < length s.now }
    ensures { result ≡ opens_comment (get_or s.now i 0) (drop (i + 1) s.now) }
{
    if s[i] != b'/' {
        return false;
    }
    let next = i + 1;
    if lines::byte_at(s, next) != b'*' {
        return false;
    }
    !comment_shut(s, next + 1)
}

// Whether a template begins at `i` that is not closed.
fn opens_template(s: &[u8], i: usize) -> bool
    requires { i < length s.now }
    ensures { result ≡ opens_template (get_or s.now i 0) (drop (i + 1) s.now) }
{
    if s[i] != b'`' {
        return false;
    }
    !quote_shut(s, i + 1, b'`')
}

// What a text leaves open that begins with nothing open, token by token.
fn open_tokens(s: &[u8]) -> Open
    ensures { result ≡ open_of s.now }
{
    let mut i = 0;
    let mut tail = no_tail();
    // Kept: whether a token opens what stays open is asked before the step over it, which goes to the end of the text: `tokens::each` steps first, and needs four times the time.
    while i < s.len() {
        if opens_comment(s, i) {
            return Open::Comment;
        }
        if opens_template(s, i) {
            return Open::Template;
        }
        let step = step_at(s, i, tail);
        tail = step.tail;
        i = step.next;
    }
    Open::Nothing
}

// The same: a text with no backtick and no `/` leaves nothing open.
fn open_of(s: &[u8]) -> Open
    ensures { result ≡ open_of s.now }
{
    if lines::lacks(s, b'`') & lines::lacks(s, b'/') {
        return Open::Nothing;
    }
    open_tokens(s)
}

// How many bytes at the front of a line belong to what was left open above it.
fn taken_by(s: &[u8], above: Open) -> usize
    ensures { result ≡ taken above s.now }
{
    match above {
        Open::Nothing => 0,
        Open::Comment => comment_end(s, 0),
        Open::Template => quote_end(s, 0, b'`'),
    }
}

// Whether what was left open above a line is closed in it.
fn shuts(s: &[u8], above: Open) -> bool
    ensures { result ≡ shut_in above s.now }
{
    match above {
        Open::Nothing => true,
        Open::Comment => comment_shut(s, 0),
        Open::Template => quote_shut(s, 0, b'`'),
    }
}

// The rest of a line, past what was left open above it: it is cleaned as a line of its own.
fn rest_of(s: &[u8], above: Open) -> &[u8]
    ensures { result.now ≡ rest_at above s.now }
{
    lines::cut(s, taken_by(s, above), s.len())
}

// What a line leaves open for the next, where `above` was left open above it.
fn open_below(s: &[u8], above: Open) -> Open
    ensures { result ≡ open_below above s.now }
{
    if !shuts(s, above) {
        return above;
    }
    open_of(rest_of(s, above))
}

// Where the rest of a line begins, and what the line leaves open for the next.
#[derive(Clone, Copy)]
pub struct Rest {
    pub from: usize,
    pub below: Open,
}

// The rest of a line where lines are `joined`; else the line itself, and it leaves nothing open.
pub fn rest_in(joined: bool, s: &[u8], above: Open) -> Rest
    ensures { result ≡ rest_in joined above s.now }
{
    if !joined {
        return Rest {
            from: 0,
            below: Open::Nothing,
        };
    }
    let from = taken_by(s, above);
    Rest {
        from,
        below: open_below(s, above),
    }
}
