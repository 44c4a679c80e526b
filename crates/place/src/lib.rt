// Regions, blocks, block paths, loops: four notions of place, each with its own rule for braces.
#![tactic(auto)]

ghost use Rattle.std.specs.Prelude.{◌≡◌, true, cond, ◌||◌, [], ◌∷◌, ◌++◌, ◌≤◌, ◌<◌, ◌+◌, ◌-◌, ◌^◌, take, drop, set, length, replicate};
ghost use Rattle.lines.specs.Lf.{prefixed, lines_of, ends_in};
ghost use Rattle.lexical.specs.Lex.{last_of, leaves, strip_lexical};
ghost use Rattle.lexical.specs.Joined.{rests_in};
ghost use Rattle.lexical.specs.Inner.Plain.{plain_len};
ghost use Rattle.place.specs.Region.{function_word, is_header};
ghost use Rattle.place.specs.Inner.Region.{region_next, region_len};
ghost use Rattle.place.specs.Blocks.{opens, closes, brace_of, cleaned};
ghost use Rattle.place.specs.Inner.Blocks.{block_ids};
ghost use Rattle.place.specs.Paths.{path_closes, block_paths, tops};
ghost use Rattle.place.specs.Inner.Paths.{is_flat};
ghost use Rattle.place.specs.Inner.Ends.{ends_from, end_mark, end_marks};
ghost use Rattle.place.specs.Loops.{opens_loop, inside_loop};
ghost use Rattle.place.specs.Inner.Loops.{loop_front, loop_label, nest_open, nest_close, nest_line, starts_loop, some_loop, above_loop};
ghost use Rattle.place.specs.Inner.Parents.{around, cur_by, Room, Moved, braces, ids_post, ids_parents, path_pre, path_open, path_post, path_parents};
ghost use Rattle.place.specs.Starts.{starts_go};
ghost use Rattle.place.specs.Inner.Starts.{starts_by_last};
ghost use Rattle.place.specs.Inner.Fill.{Filled, flags_of};

// The number of a region: of its own type, so that no other number is taken for one.
#[repr(C)]
#[derive(Clone, Copy)]
pub struct Region(pub usize);

// Whether a line opens a region: most lines begin with a space, and none of these does.
pub fn is_header(line: &[u8]) -> bool
    ensures { result ≡ is_header line.now }
{
    if lines::byte_at(line, 0) == 32 {
        return false;
    }
    opens_region(line)
}

// Whether a line begins with `function` and a space; the compiler compares the word at once.
fn begins_function(line: &[u8]) -> bool
    ensures { result ≡ prefixed function_word line.now }
{
    if line.len() < 9 {
        return false;
    }
    (line[0] == b'f')
        & ((line[1] == b'u')
            & ((line[2] == b'n')
                & ((line[3] == b'c')
                    & ((line[4] == b't')
                        & ((line[5] == b'i')
                            & ((line[6] == b'o') & ((line[7] == b'n') & (line[8] == b' '))))))))
}

// The same, of any line.
fn opens_region(line: &[u8]) -> bool
    ensures { result ≡ is_header line.now }
{
    if begins_function(line) {
        return true;
    }
    let x = lines::byte_at(line, 0);
    if !((x == b'l') | ((x == b'c') | (x == b'v'))) {
        return false;
    }
    !lines::starts_with(line, b"let phi")
        & (lines::starts_with(line, b"var ")
            | (lines::starts_with(line, b"let ")
                | (lines::starts_with(line, b"const ") | lines::starts_with(line, b"class "))))
}

// Where the region ends that the line at `i` opens, or is at the top of: at the next header, or at the end.
pub fn region_end(text: &[u8], i: usize) -> usize
    ensures { result ≡ i + region_len (drop i text.now) }
{
    if i >= text.len() {
        return i;
    }
    let e = lines::find_byte(text, i, 10);
    for line in lines::each::from(text, lines::after(text, e)) {
        if is_header(line.bytes) {
            return line.from;
        }
    }
    text.len()
}

// The region of a line, given that of the line above; the largest number there is stays.
pub fn next_region(r: Region, line: &[u8]) -> Region
    ensures { result.0 ≡ region_next r.0 line.now }
{
    if lines::byte_at(line, 0) == 32 {
        return r;
    }
    if !opens_region(line) {
        return r;
    }
    if r.0 < 18446744073709551615 {
        return Region(r.0 + 1);
    }
    r
}

// A number of a block as an entry.
pub fn wide(c: u32) -> usize
    ensures { result ≡ c }
{
    c as usize
}

// A test as an entry.
pub fn flag(b: bool) -> u8
    ensures { result ≡ cond b 1 0 }
{
    if b { 1 } else { 0 }
}

// The open block, and how many blocks are known.
#[derive(Clone, Copy)]
struct Open {
    block: u32,
    next: usize,
}

// The block around `c`, of `n` that are known.
fn around(up: &[u32], c: u32, n: usize) -> u32
    requires { n ≤ length up.now }
    ensures { result ≡ around c (take n up.now) }
{
    if c == 0 {
        return 0;
    }
    let k = wide(c - 1);
    if k < n {
        return up[k];
    }
    0
}

// The block `k` blocks further out than `c`.
fn outward(up: &[u32], c: u32, n: usize, k: usize) -> u32
    requires { n ≤ length up.now }
    ensures { result ≡ cur_by (replicate k closes) c (take n up.now) }
{
    let mut b = c;
    for _ in 0..k {
        b = around(up, b, n);
    }
    b
}

// Opens a block in `c`, with `n` blocks known.
fn enter(c: u32, up: &mut [u32], n: usize) -> Open
    requires { Room (opens ∷ []) c up.old n }
    ensures { Moved (opens ∷ []) c up.old n result.block up.new result.next }
{
    up[n] = c;
    Open {
        block: (n + 1) as u32,
        next: n + 1,
    }
}

// One byte of a cleaned line, with `c` open.
fn brace(b: u8, c: u32, up: &mut [u32], n: usize) -> Open
    requires { Room (brace_of b ∷ []) c up.old n }
    ensures { Moved (brace_of b ∷ []) c up.old n result.block up.new result.next }
{
    if b == b'{' {
        return enter(c, up, n);
    }
    if b == b'}' {
        let a = around(up, c, n);
        return Open { block: a, next: n };
    }
    Open { block: c, next: n }
}

// What a token of a line leaves that begins with `b`, with `c` open.
fn left(kind: lexical::Kind, b: u8, c: u32, up: &mut [u32], n: usize) -> Open
    requires { Room (braces (leaves kind b)) c up.old n }
    ensures { Moved (braces (leaves kind b)) c up.old n result.block up.new result.next }
{
    match kind {
        lexical::Kind::Kept => brace(b, c, up, n),
        lexical::Kind::Literal => Open { block: c, next: n },
        lexical::Kind::Gone => Open { block: c, next: n },
    }
}

// Below a line: the open block, how many blocks are known, and the line's last character once it is cleaned, or 256 where it is blank.
#[derive(Clone, Copy)]
pub struct At {
    pub block: u32,
    pub next: usize,
    pub last: u16,
}

// The braces of a line that begins with `k` plain bytes, token by token, from the block `block`, with `n` blocks known.
fn walk_tokens(line: &[u8], k: usize, block: u32, up: &mut [u32], n: usize) -> At
    requires { (k ≡ plain_len line.now) × Room (ids_post line.now) block up.old n }
    ensures { (Moved (ids_post line.now) block up.old n result.block up.new result.next)
        × (result.last ≡ last_of (strip_lexical line.now)) }
{
    let mut i = k;
    let mut tail = lexical::front_tail(line, k);
    let mut c = block;
    let mut m = n;
    // Kept: the place moves by what a token has and the plain bytes behind it.
    while i < line.len() {
        let b = line[i];
        let step = lexical::step_at(line, i, tail);
        let kind = step.kind;
        let x = left(kind, b, c, up, m);
        c = x.block;
        m = x.next;
        let run = lexical::plain_run(line, step.next, step.tail);
        i = run.end;
        tail = run.tail;
    }
    At {
        block: c,
        next: m,
        last: tail.last,
    }
}

// The same of a line that begins with `k` plain bytes; most lines need no tokens: they are plain, or they end in a brace and are plain before it.
fn walk_from(line: &[u8], k: usize, block: u32, up: &mut [u32], n: usize) -> At
    requires { (k ≡ plain_len line.now) × Room (ids_post line.now) block up.old n }
    ensures { (Moved (ids_post line.now) block up.old n result.block up.new result.next)
        × (result.last ≡ last_of (strip_lexical line.now)) }
{
    if k == line.len() {
        return At {
            block,
            next: n,
            last: lexical::low_last(line, 0, k, 256),
        };
    }
    let b = line[k];
    if (k + 1 == line.len()) & ((b == b'{') | (b == b'}')) {
        let x = brace(b, block, up, n);
        return At {
            block: x.block,
            next: x.next,
            last: b as u16,
        };
    }
    walk_tokens(line, k, block, up, n)
}

// The braces of a line as `block_ids` counts them, from the block `block`, with `n` blocks known.
pub fn walk_line(line: &[u8], block: u32, up: &mut [u32], n: usize) -> At
    requires { Room (ids_post line.now) block up.old n }
    ensures { (Moved (ids_post line.now) block up.old n result.block up.new result.next)
        × (result.last ≡ last_of (strip_lexical line.now)) }
{
    walk_from(line, lexical::plain_to(line), block, up, n)
}

// Whether the line below may begin a statement: where a cleaned line is blank, whether that one might, and else whether it ends in
// `;`, `{`, `}` or `:`.
pub fn starts_after(last: u16, st: bool) -> bool
    ensures { result ≡ starts_by_last last st }
{
    if last == 256 {
        return st;
    }
    (last == 59) | ((last == 123) | ((last == 125) | (last == 58)))
}

// Where a line ends, twice over, and one more where it opens a region: both in one number. Most lines begin with a space.
fn end_mark(line: &[u8], e: usize) -> usize
    requires { e < 2 ^ 63 }
    ensures { result ≡ end_mark e line.now }
{
    if lines::byte_at(line, 0) == 32 {
        return 2 * e;
    }
    if opens_region(line) {
        return 2 * e + 1;
    }
    2 * e
}

// For each line its block, whether it may begin a statement, where it ends and whether it opens a region, and the block around each block;
// returns how many lines there are. Blocks and starts are those of `joined` lines, or of each line by itself.
pub fn place_lines(
    text: &[u8],
    joined: bool,
    blocks: &mut [usize],
    starts: &mut [u8],
    up: &mut [u32],
    ends: &mut [usize],
) -> usize
    requires { (length (lines_of text.now) ≤ length blocks.old)
        × ((length (lines_of text.now) ≤ length starts.old)
        × (((length (ids_parents (rests_in joined (lines_of text.now))) ≤ length up.old) × (length up.old < 2 ^ 32)) × (length (lines_of text.now) ≤ length ends.old))) }
    ensures tables { (Filled blocks.old (block_ids (rests_in joined (lines_of text.now))) blocks.new result)
        × ((Filled starts.old (flags_of (starts_go (cleaned (rests_in joined (lines_of text.now))) true)) starts.new result)
        × (Filled up.old (ids_parents (rests_in joined (lines_of text.now))) up.new (length (ids_parents (rests_in joined (lines_of text.now)))))) }
    ensures ends { Filled ends.old (end_marks 0 (lines_of text.now)) ends.new result }
{
    let mut k = 0;
    let mut c = 0;
    let mut n = 0;
    let mut st = true;
    let mut above = lexical::Open::Nothing;
    for line in lines::each::each(text) {
        ends[k] = end_mark(line.bytes, line.to);
        blocks[k] = wide(c);
        starts[k] = flag(st);
        k += 1;
        let rest = lexical::rest_in(joined, line.bytes, above);
        let from = rest.from;
        let x = walk_line(&line.bytes[from..], c, up, n);
        c = x.block;
        n = x.next;
        st = starts_after(x.last, st);
        above = rest.below;
    }
    k
}

// Whether a text ends in `{`.
fn ends_open(t: &[u8]) -> bool
    ensures { result ≡ ends_in 123 t.now }
{
    let n = t.len();
    if n == 0 {
        return false;
    }
    t[n - 1] == b'{'
}

// How many blocks a trimmed line closes, as `block_paths` counts.
fn path_closes(t: &[u8]) -> usize
    ensures { result ≡ path_closes t.now }
{
    if !lines::starts_with(t, b"}") {
        return 0;
    }
    let n = lines::count_byte(t, b'}');
    if !ends_open(t) {
        return n;
    }
    n - 1
}

// The block that a trimmed line opens in `c`, as `block_paths` counts.
fn path_open(t: &[u8], c: u32, up: &mut [u32], n: usize) -> Open
    requires { Room (path_open t.now) c up.old n }
    ensures { Moved (path_open t.now) c up.old n result.block up.new result.next }
{
    if ends_open(t) {
        return enter(c, up, n);
    }
    Open { block: c, next: n }
}

// Whether a trimmed line begins as a loop does.
fn begins_loop(t: &[u8]) -> bool
    ensures { result ≡ loop_front t.now }
{
    lines::starts_with(t, b"while (")
        | (lines::starts_with(t, b"while(")
            | (lines::starts_with(t, b"for (")
                | (lines::starts_with(t, b"for(") | lines::same(t, b"do {"))))
}

// Whether a loop stands behind a label in a trimmed line: none does where there is no `:`.
fn labels_loop(t: &[u8]) -> bool
    ensures { result ≡ loop_label t.now }
{
    if lines::find_byte(t, 0, b':') >= t.len() {
        return false;
    }
    lines::contains(t, b": while (") | lines::contains(t, b": for (")
}

// Whether a trimmed line begins a loop.
pub fn opens_loop(t: &[u8]) -> bool
    ensures { result ≡ opens_loop t.now }
{
    if begins_loop(t) {
        return true;
    }
    if lines::ends_with(t, b" do {") {
        return true;
    }
    labels_loop(t)
}

// The open blocks as far as `inside_loop` asks: how many, and how many there were when the outermost loop's was opened, or 0 where none is a loop's.
#[derive(Clone, Copy)]
struct Nest {
    depth: usize,
    outer: usize,
}

// After the brace at the end of a trimmed line.
fn nest_open(t: &[u8], d: usize, o: usize) -> Nest
    requires { d < 2 ^ 64 - 1 }
    ensures { result ≡ nest_open t.now d o }
{
    if !ends_open(t) {
        return Nest { depth: d, outer: o };
    }
    if o != 0 {
        return Nest {
            depth: d + 1,
            outer: o,
        };
    }
    if opens_loop(t) {
        return Nest {
            depth: d + 1,
            outer: d + 1,
        };
    }
    Nest {
        depth: d + 1,
        outer: 0,
    }
}

// After `k` blocks have been closed.
fn nest_close(k: usize, d: usize, o: usize) -> Nest
    ensures { result ≡ nest_close k d o }
{
    if d < k {
        return Nest { depth: 0, outer: 0 };
    }
    if d - k < o {
        return Nest {
            depth: d - k,
            outer: 0,
        };
    }
    Nest {
        depth: d - k,
        outer: o,
    }
}

// After a trimmed line.
fn nest_line(t: &[u8], d: usize, o: usize) -> Nest
    requires { d < 2 ^ 64 - 1 }
    ensures { result ≡ nest_line t.now d o }
{
    let x = nest_open(t, d, o);
    nest_close(lines::count_byte(t, b'}'), x.depth, x.outer)
}

// For each line whether it stands in the body of a loop.
fn walk_loops(text: &[u8], flags: &mut [u8]) -> usize
    requires { length (lines_of text.now) ≤ length flags.old }
    ensures { Filled flags.old (flags_of (inside_loop (lines_of text.now))) flags.new result }
{
    let mut k = 0;
    let mut d = 0;
    let mut o = 0;
    for line in lines::each::each(text) {
        flags[k] = flag(o != 0);
        k += 1;
        let x = nest_line(text::trim(line.bytes), d, o);
        d = x.depth;
        o = x.outer;
    }
    k
}

// Whether a line opens a loop's block: one that ends in an ASCII byte above the space other than `{` does not.
fn starts_loop(line: &[u8]) -> bool
    ensures { result ≡ starts_loop line.now }
{
    let n = line.len();
    if n == 0 {
        return false;
    }
    let c = line[n - 1];
    if (32 < c) & ((c < 128) & (c != b'{')) {
        return false;
    }
    let t = text::trim(line);
    if !ends_open(t) {
        return false;
    }
    opens_loop(t)
}

// Puts the place x where a line ends that has k above it, where the table reaches to it.
fn put_end(k: usize, x: usize, ends: &mut [usize])
    ensures { ends.new ≡ set ends.old k x }
{
    if ends.len() <= k {
        return;
    }
    ends[k] = x;
}

// Whether a line plainly neither closes a block nor opens one, as `block_paths` counts: it ends in an ASCII byte above the space other than
// `{`, and what follows its indent is not `}`.
fn is_flat(line: &[u8]) -> bool
    ensures { result ≡ is_flat line.now }
{
    let n = line.len();
    if n == 0 {
        return false;
    }
    let c = line[n - 1];
    if !((32 < c) & ((c < 128) & (c != b'{'))) {
        return false;
    }
    lines::byte_at(line, text::trim_from(line)) != b'}'
}

// Whether a loop's block was opened above a line, or the line opens one.
fn loop_by(seen: bool, line: &[u8]) -> bool
    ensures { result ≡ seen || starts_loop line.now }
{
    if seen {
        return true;
    }
    starts_loop(line)
}

// Of a line, the innermost block of its path; and below it, the open block, how many blocks are known, and whether a loop's block was opened.
#[derive(Clone, Copy)]
struct Passed {
    top: u32,
    block: u32,
    next: usize,
    loops: bool,
}

// One line of `block_paths`, with `c` open and `n` blocks known.
fn path_line(line: &[u8], c: u32, up: &mut [u32], n: usize, seen: bool) -> Passed
    requires { Room (path_pre line.now ++ path_post line.now) c up.old n }
    ensures { (result.top ≡ cur_by (path_pre line.now) c (take n up.old))
        × ((Moved (path_pre line.now ++ path_post line.now) c up.old n result.block up.new result.next)
        × (result.loops ≡ seen || starts_loop line.now)) }
{
    if is_flat(line) {
        return Passed {
            top: c,
            block: c,
            next: n,
            loops: seen,
        };
    }
    let t = text::trim(line);
    let b = outward(up, c, n, path_closes(t));
    let x = path_open(t, b, up, n);
    Passed {
        top: b,
        block: x.block,
        next: x.next,
        loops: loop_by(seen, line),
    }
}

// How many lines there are, and whether some line opens a loop's block.
#[derive(Clone, Copy)]
pub struct Pathed {
    pub rows: usize,
    pub loops: bool,
}

// The innermost block of each line's path, the block around each block, and where each line ends, as far as that table reaches.
pub fn block_paths(text: &[u8], table: &mut [usize], up: &mut [u32], ends: &mut [usize]) -> Pathed
    requires { (length (lines_of text.now) ≤ length table.old)
        × ((length (path_parents (lines_of text.now)) ≤ length up.old) × (length up.old < 2 ^ 32)) }
    ensures paths { (Filled table.old (tops (block_paths (lines_of text.now))) table.new result.rows)
        × (Filled up.old (path_parents (lines_of text.now)) up.new (length (path_parents (lines_of text.now)))) }
    ensures loops { result.loops ≡ some_loop (lines_of text.now) }
    ensures ends { ends.new ≡ ends_from 0 0 (lines_of text.now) ends.old }
{
    let mut k = 0;
    let mut c = 0;
    let mut n = 0;
    let mut loops = false;
    for line in lines::each::each(text) {
        put_end(k, line.to, ends);
        let x = path_line(line.bytes, c, up, n, loops);
        table[k] = wide(x.top);
        k += 1;
        c = x.block;
        n = x.next;
        loops = x.loops;
    }
    Pathed { rows: k, loops }
}

// Whether some line opens a loop's block, and how many stand above the first that does.
#[derive(Clone, Copy)]
struct Ahead {
    found: bool,
    rows: usize,
}

fn find_loop(text: &[u8]) -> Ahead
    ensures { (result.found ≡ some_loop (lines_of text.now)) × (result.rows ≡ above_loop (lines_of text.now)) }
{
    let mut k = 0;
    for line in lines::each::each(text) {
        if starts_loop(line.bytes) {
            return Ahead {
                found: true,
                rows: k,
            };
        }
        k += 1;
    }
    Ahead {
        found: false,
        rows: k,
    }
}

// The same: where no line opens a loop's block, none stands in one.
pub fn inside_loop(text: &[u8], flags: &mut [u8]) -> usize
    requires { length (lines_of text.now) ≤ length flags.old }
    ensures { Filled flags.old (flags_of (inside_loop (lines_of text.now))) flags.new result }
{
    let x = find_loop(text);
    if x.found {
        return walk_loops(text, flags);
    }
    lines::wipe(flags, x.rows);
    x.rows
}
