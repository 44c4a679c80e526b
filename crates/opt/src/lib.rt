// The entries: all passes over a text, or one of them, in lent buffers.
#![tactic(auto)]

ghost use Rattle.std.specs.Prelude.{◌≡◌, ◌≤◌, ◌-◌, length, ◌||◌};
ghost use Rattle.lines.specs.Lf.{within};
ghost use Rattle.origins.specs.declared.Form.TheVariants as form-is;
ghost use Rattle.reading.specs.Reading.{reading_of};
ghost use Rattle.limits.specs.Entry.{small, large, is_short, tables_short, records_need, roomed, whole_answer, pass_answer, out_after};
ghost use Rattle.limits.specs.Inner.Sane.{Sane, Within};
ghost use Rattle.steps.specs.Step.{step_of, step_fates};
ghost use Rattle.passes.specs.Passes.{result_of, origins_of};
ghost use Rattle.passes.specs.Inner.Passes.{steps_of, steps_fates};
ghost use Rattle.passes.specs.Inner.Buffers.{Unused};
ghost use Rattle.steps.specs.Inner.Bounds.{Tabled};
ghost use Rattle.opt.specs.Whole.{whole, whole_fates};
ghost use Rattle.opt.specs.Room.{After, AfterLarge};
ghost use Rattle.opt.specs.Inner.Room.{task_of, Long, Wiped, Tables, TallPlaces, TallRows, Even, Places, Rows};

use limits::{Limits, Task};
use origins::Form;

// The tables of the two entries have an entry for each of so many lines,
const LINES: usize = limits::SMALL_LINES;

// for each of the numbers below this,
const LOW: usize = 1024;

// and for so many others, a prime, so that numbers with a common step do not meet.
const OWNERS: usize = 641;

// The entries of a table over registers or phis,
const PLACES: usize = LOW + OWNERS;

// and of one that rebuild_calls keeps two notes a line in.
const NOTES: usize = 2 * LINES;

// Runs the passes of a task over a text, in the front of longer work buffers.
fn run(
    m: Task,
    text: &[u8],
    a: &mut [u8],
    b: &mut [u8],
    c: &mut [u8],
    d: &mut [u8],
    e: &mut [u8],
    f: &mut [u8],
    g: &mut [u8],
    h: &mut [u8],
    u: &mut [u32],
    v: &mut [u32],
    w: &mut [u32],
    x: &mut [u32],
    p: &mut [usize],
    q: &mut [usize],
    r: &mut [usize],
    t: &mut [usize],
    own: &mut [usize],
    table: &mut [usize],
    out: &mut [u8],
    orig: &mut [u8],
) -> limits::Answer
    requires { Within m.limits text.now × (Long m.limits a.old b.old c.old d.old e.old u.old
        × (Tabled m.limits f.old g.old v.old w.old x.old p.old q.old r.old t.old × (m.limits.lines ≤ length table.old))) }
    ensures answer { result ≡ roomed (length (result_of (steps_of (reading_of m.mode.0) m.from (m.to - m.from)) text.now)) (length out.old) (records_need m.form text.now) (length orig.old) }
    ensures memory { (out.new ≡ out_after result (result_of (steps_of (reading_of m.mode.0) m.from (m.to - m.from)) text.now) out.old)
        × Wiped m.limits a.old b.old c.old d.old e.old u.old a.new b.new c.new d.new e.new u.new }
    ensures records { orig.new ≡ out_after result (origins_of m.form (steps_of (reading_of m.mode.0) m.from (m.to - m.from)) (steps_fates (reading_of m.mode.0) m.from (m.to - m.from)) text.now) orig.old }
    ensures tables { Unused f.old g.old h.old v.old w.old x.old p.old q.old r.old t.old own.old table.old f.new g.new h.new v.new w.new x.new p.new q.new r.new t.new own.new table.new }
{
    let n = limits::byte_size(m.limits);
    let blocks = m.limits.bytes;
    passes::work(
        m,
        text,
        &mut a[..n],
        &mut b[..n],
        &mut c[..n],
        &mut d[..n],
        &mut e[..n],
        f,
        g,
        h,
        &mut u[..blocks],
        v,
        w,
        x,
        p,
        q,
        r,
        t,
        own,
        table,
        out,
        orig,
    )
}

// Checks the mode of a task and a text, and runs the passes over it.
fn tidy(
    m: Task,
    text: &[u8],
    a: &mut [u8],
    b: &mut [u8],
    c: &mut [u8],
    d: &mut [u8],
    e: &mut [u8],
    f: &mut [u8],
    g: &mut [u8],
    h: &mut [u8],
    u: &mut [u32],
    v: &mut [u32],
    w: &mut [u32],
    x: &mut [u32],
    p: &mut [usize],
    q: &mut [usize],
    r: &mut [usize],
    t: &mut [usize],
    own: &mut [usize],
    table: &mut [usize],
    out: &mut [u8],
    orig: &mut [u8],
) -> limits::Answer
    requires { Sane m.limits × (Tabled m.limits f.old g.old v.old w.old x.old p.old q.old r.old t.old × (m.limits.lines ≤ length table.old)) }
    ensures answer { result ≡ whole_answer m.limits m.form m.mode.0 (is_short m.limits (length a.old) (length b.old) (length c.old) (length d.old) (length e.old) (length u.old)) text.now (result_of (steps_of (reading_of m.mode.0) m.from (m.to - m.from)) text.now) (length out.old) (length orig.old) }
    ensures memory { (out.new ≡ out_after result (result_of (steps_of (reading_of m.mode.0) m.from (m.to - m.from)) text.now) out.old)
        × After m.limits result a.old b.old c.old d.old e.old u.old a.new b.new c.new d.new e.new u.new }
    ensures records { orig.new ≡ out_after result (origins_of m.form (steps_of (reading_of m.mode.0) m.from (m.to - m.from)) (steps_fates (reading_of m.mode.0) m.from (m.to - m.from)) text.now) orig.old }
    ensures tables { Tables result f.old g.old h.old v.old w.old x.old p.old q.old r.old t.old own.old table.old f.new g.new h.new v.new w.new x.new p.new q.new r.new t.new own.new table.new }
{
    let short = limits::too_short(
        m.limits,
        a.len(),
        b.len(),
        c.len(),
        d.len(),
        e.len(),
        u.len(),
    );
    let refused = limits::refused_task(m, text, short);
    if limits::number_of(refused) != 0 {
        return refused;
    }
    run(
        m, text, a, b, c, d, e, f, g, h, u, v, w, x, p, q, r, t, own, table, out, orig,
    )
}

// The passes from a number up to another, in the mode of a number, with records in a form, within limits.
fn task(limits: Limits, from: usize, to: usize, mode: usize, form: Form) -> Task
    ensures { result ≡ task_of limits from to mode form }
{
    Task {
        from,
        to,
        mode: reading::Mode(mode),
        form,
        limits,
    }
}

// Runs the passes from a number up to another over a text, in the mode of a number and within the limits of the two entries, in tables of its own.
fn tidy_small(
    from: usize,
    to: usize,
    mode: usize,
    text: &[u8],
    a: &mut [u8],
    b: &mut [u8],
    c: &mut [u8],
    d: &mut [u8],
    e: &mut [u8],
    u: &mut [u32],
    out: &mut [u8],
    orig: &mut [u8],
) -> limits::Answer
    ensures answer { result ≡ whole_answer small form-is.Ol mode (is_short small (length a.old) (length b.old) (length c.old) (length d.old) (length e.old) (length u.old)) text.now (result_of (steps_of (reading_of mode) from (to - from)) text.now) (length out.old) (length orig.old) }
    ensures memory { (out.new ≡ out_after result (result_of (steps_of (reading_of mode) from (to - from)) text.now) out.old)
        × After small result a.old b.old c.old d.old e.old u.old a.new b.new c.new d.new e.new u.new }
    ensures records { orig.new ≡ out_after result (origins_of form-is.Ol (steps_of (reading_of mode) from (to - from)) (steps_fates (reading_of mode) from (to - from)) text.now) orig.old }
{
    let mut f = [0u8; PLACES];
    let mut g = [0u8; PLACES];
    let mut h = [0u8; LINES];
    let mut v = [0u32; NOTES];
    let mut w = [0u32; NOTES];
    let mut x = [0u32; NOTES];
    let mut p = [0usize; LINES];
    let mut q = [0usize; LINES];
    let mut r = [0usize; PLACES];
    let mut t = [0usize; PLACES];
    let mut own = [0usize; OWNERS];
    let mut table = [0usize; LINES];
    tidy(
        task(limits::small(), from, to, mode, Form::Ol),
        text,
        a,
        b,
        c,
        d,
        e,
        &mut f,
        &mut g,
        &mut h,
        u,
        &mut v,
        &mut w,
        &mut x,
        &mut p,
        &mut q,
        &mut r,
        &mut t,
        &mut own,
        &mut table,
        out,
        orig,
    )
}

// Removes the lines that declare globals from a text, runs the six passes over it, and writes the result to the front of `out` and, to that of
// `orig`, a record for each line of the text that says where it went. Mode 0 reads values as the original does, mode 1 is strict, 2 is joined, and 3 both. Of each of the work buffers `a` to `e` 32,769 bytes are used, and of `u` 16,384 numbers: these are 0
// afterwards where the passes ran.
pub fn optimize(
    mode: usize,
    text: &[u8],
    a: &mut [u8],
    b: &mut [u8],
    c: &mut [u8],
    d: &mut [u8],
    e: &mut [u8],
    u: &mut [u32],
    out: &mut [u8],
    orig: &mut [u8],
) -> limits::Answer
    ensures answer { result ≡ whole_answer small form-is.Ol mode (is_short small (length a.old) (length b.old) (length c.old) (length d.old) (length e.old) (length u.old)) text.now (result_of (whole (reading_of mode)) text.now) (length out.old) (length orig.old) }
    ensures memory { (out.new ≡ out_after result (result_of (whole (reading_of mode)) text.now) out.old)
        × After small result a.old b.old c.old d.old e.old u.old a.new b.new c.new d.new e.new u.new }
    ensures records { orig.new ≡ out_after result (origins_of form-is.Ol (whole (reading_of mode)) (whole_fates (reading_of mode)) text.now) orig.old }
{
    tidy_small(0, 7, mode, text, a, b, c, d, e, u, out, orig)
}

// Whether a number is that of a pass.
fn is_pass(pass: usize) -> bool
    ensures { result ≡ within 1 6 pass }
{
    (pass >= 1) & (pass <= 6)
}

// Runs one pass over a text, by its number from 1 to 6, with no removal, and writes the result and the records likewise, in the same work buffers.
pub fn run_pass(
    pass: usize,
    mode: usize,
    text: &[u8],
    a: &mut [u8],
    b: &mut [u8],
    c: &mut [u8],
    d: &mut [u8],
    e: &mut [u8],
    u: &mut [u32],
    out: &mut [u8],
    orig: &mut [u8],
) -> limits::Answer
    ensures answer { result ≡ pass_answer small form-is.Ol pass mode (is_short small (length a.old) (length b.old) (length c.old) (length d.old) (length e.old) (length u.old)) text.now (result_of (step_of (reading_of mode) pass) text.now) (length out.old) (length orig.old) }
    ensures memory { (out.new ≡ out_after result (result_of (step_of (reading_of mode) pass) text.now) out.old)
        × After small result a.old b.old c.old d.old e.old u.old a.new b.new c.new d.new e.new u.new }
    ensures records { orig.new ≡ out_after result (origins_of form-is.Ol (step_of (reading_of mode) pass) (step_fates (reading_of mode) pass) text.now) orig.old }
{
    if !is_pass(pass) {
        return Err(limits::Refusal::BadPass);
    }
    tidy_small(pass, pass + 1, mode, text, a, b, c, d, e, u, out, orig)
}

// Runs the first stages over a text, so many as `n` says: the removal of the lines that declare globals is the first of seven, and each pass one more. It writes the
// result and the records likewise, in the same work buffers.
pub fn run_stages(
    n: usize,
    mode: usize,
    text: &[u8],
    a: &mut [u8],
    b: &mut [u8],
    c: &mut [u8],
    d: &mut [u8],
    e: &mut [u8],
    u: &mut [u32],
    out: &mut [u8],
    orig: &mut [u8],
) -> limits::Answer
    ensures answer { result ≡ whole_answer small form-is.Ol mode (is_short small (length a.old) (length b.old) (length c.old) (length d.old) (length e.old) (length u.old)) text.now (result_of (steps_of (reading_of mode) 0 n) text.now) (length out.old) (length orig.old) }
    ensures memory { (out.new ≡ out_after result (result_of (steps_of (reading_of mode) 0 n) text.now) out.old)
        × After small result a.old b.old c.old d.old e.old u.old a.new b.new c.new d.new e.new u.new }
    ensures records { orig.new ≡ out_after result (origins_of form-is.Ol (steps_of (reading_of mode) 0 n) (steps_fates (reading_of mode) 0 n) text.now) orig.old }
{
    tidy_small(0, n, mode, text, a, b, c, d, e, u, out, orig)
}

// Runs the passes of a task as `tidy` does, in the front of tables over registers and of owners that are long enough.
fn tidy_placed(
    m: Task,
    places: usize,
    owners: usize,
    text: &[u8],
    a: &mut [u8],
    b: &mut [u8],
    c: &mut [u8],
    d: &mut [u8],
    e: &mut [u8],
    f: &mut [u8],
    g: &mut [u8],
    h: &mut [u8],
    u: &mut [u32],
    v: &mut [u32],
    w: &mut [u32],
    x: &mut [u32],
    p: &mut [usize],
    q: &mut [usize],
    r: &mut [usize],
    t: &mut [usize],
    own: &mut [usize],
    table: &mut [usize],
    out: &mut [u8],
    orig: &mut [u8],
) -> limits::Answer
    requires { Sane m.limits × ((m.limits.lines ≤ places) × (TallPlaces places owners f.old g.old r.old t.old own.old × Even m.limits v.old w.old x.old p.old q.old table.old)) }
    ensures answer { result ≡ whole_answer m.limits m.form m.mode.0 (is_short m.limits (length a.old) (length b.old) (length c.old) (length d.old) (length e.old) (length u.old)) text.now (result_of (steps_of (reading_of m.mode.0) m.from (m.to - m.from)) text.now) (length out.old) (length orig.old) }
    ensures memory { (out.new ≡ out_after result (result_of (steps_of (reading_of m.mode.0) m.from (m.to - m.from)) text.now) out.old)
        × After m.limits result a.old b.old c.old d.old e.old u.old a.new b.new c.new d.new e.new u.new }
    ensures records { orig.new ≡ out_after result (origins_of m.form (steps_of (reading_of m.mode.0) m.from (m.to - m.from)) (steps_fates (reading_of m.mode.0) m.from (m.to - m.from)) text.now) orig.old }
    ensures tables { Places result places owners f.old g.old r.old t.old own.old f.new g.new r.new t.new own.new × Rows result (length h.old) (length v.old) (length w.old) (length x.old) (length p.old) (length q.old) (length table.old) h.old v.old w.old x.old p.old q.old table.old h.new v.new w.new x.new p.new q.new table.new }
{
    tidy(
        m,
        text,
        a,
        b,
        c,
        d,
        e,
        &mut f[..places],
        &mut g[..places],
        h,
        u,
        v,
        w,
        x,
        p,
        q,
        &mut r[..places],
        &mut t[..places],
        &mut own[..owners],
        table,
        out,
        orig,
    )
}

// Runs the passes of a task as `tidy` does, in the front of tables that are all long enough: `lines` entries are used of one over lines, and `notes` of one that has two notes
// a line.
fn tidy_lined(
    m: Task,
    lines: usize,
    notes: usize,
    places: usize,
    owners: usize,
    text: &[u8],
    a: &mut [u8],
    b: &mut [u8],
    c: &mut [u8],
    d: &mut [u8],
    e: &mut [u8],
    f: &mut [u8],
    g: &mut [u8],
    h: &mut [u8],
    u: &mut [u32],
    v: &mut [u32],
    w: &mut [u32],
    x: &mut [u32],
    p: &mut [usize],
    q: &mut [usize],
    r: &mut [usize],
    t: &mut [usize],
    own: &mut [usize],
    table: &mut [usize],
    out: &mut [u8],
    orig: &mut [u8],
) -> limits::Answer
    requires { Sane m.limits × (((m.limits.lines ≤ lines) × (m.limits.lines ≤ places)) × (TallPlaces places owners f.old g.old r.old t.old own.old × TallRows lines notes h.old v.old w.old x.old p.old q.old table.old)) }
    ensures answer { result ≡ whole_answer m.limits m.form m.mode.0 (is_short m.limits (length a.old) (length b.old) (length c.old) (length d.old) (length e.old) (length u.old)) text.now (result_of (steps_of (reading_of m.mode.0) m.from (m.to - m.from)) text.now) (length out.old) (length orig.old) }
    ensures memory { (out.new ≡ out_after result (result_of (steps_of (reading_of m.mode.0) m.from (m.to - m.from)) text.now) out.old)
        × After m.limits result a.old b.old c.old d.old e.old u.old a.new b.new c.new d.new e.new u.new }
    ensures records { orig.new ≡ out_after result (origins_of m.form (steps_of (reading_of m.mode.0) m.from (m.to - m.from)) (steps_fates (reading_of m.mode.0) m.from (m.to - m.from)) text.now) orig.old }
    ensures tables { Places result places owners f.old g.old r.old t.old own.old f.new g.new r.new t.new own.new × Rows result lines notes notes notes lines lines lines h.old v.old w.old x.old p.old q.old table.old h.new v.new w.new x.new p.new q.new table.new }
{
    tidy_placed(
        m,
        places,
        owners,
        text,
        a,
        b,
        c,
        d,
        e,
        f,
        g,
        &mut h[..lines],
        u,
        &mut v[..notes],
        &mut w[..notes],
        &mut x[..notes],
        &mut p[..lines],
        &mut q[..lines],
        r,
        t,
        own,
        &mut table[..lines],
        out,
        orig,
    )
}

// Runs the passes from a number up to another over a text, in the mode of a number and with records in a form, within the limits of the second pair of entries.
fn tidy_large(
    from: usize,
    to: usize,
    mode: usize,
    form: Form,
    text: &[u8],
    a: &mut [u8],
    b: &mut [u8],
    c: &mut [u8],
    d: &mut [u8],
    e: &mut [u8],
    f: &mut [u8],
    g: &mut [u8],
    h: &mut [u8],
    u: &mut [u32],
    v: &mut [u32],
    w: &mut [u32],
    x: &mut [u32],
    p: &mut [usize],
    q: &mut [usize],
    r: &mut [usize],
    t: &mut [usize],
    own: &mut [usize],
    table: &mut [usize],
    out: &mut [u8],
    orig: &mut [u8],
) -> limits::Answer
    ensures answer { result ≡ whole_answer large form mode (is_short large (length a.old) (length b.old) (length c.old) (length d.old) (length e.old) (length u.old) || tables_short large (length f.old) (length g.old) (length h.old) (length v.old) (length w.old) (length x.old) (length p.old) (length q.old) (length r.old) (length t.old) (length own.old) (length table.old)) text.now (result_of (steps_of (reading_of mode) from (to - from)) text.now) (length out.old) (length orig.old) }
    ensures memory { (out.new ≡ out_after result (result_of (steps_of (reading_of mode) from (to - from)) text.now) out.old)
        × AfterLarge large result a.old b.old c.old d.old e.old f.old g.old h.old u.old v.old w.old x.old p.old q.old r.old t.old own.old table.old a.new b.new c.new d.new e.new f.new g.new h.new u.new v.new w.new x.new p.new q.new r.new t.new own.new table.new }
    ensures records { orig.new ≡ out_after result (origins_of form (steps_of (reading_of mode) from (to - from)) (steps_fates (reading_of mode) from (to - from)) text.now) orig.old }
{
    let m = task(limits::large(), from, to, mode, form);
    let short = limits::tables_short(
        f.len(),
        g.len(),
        h.len(),
        v.len(),
        w.len(),
        x.len(),
        p.len(),
        q.len(),
        r.len(),
        t.len(),
        own.len(),
        table.len(),
    );
    if short {
        return limits::refused_task(m, text, true);
    }
    tidy_lined(
        m,
        limits::LARGE_LINES,
        limits::LARGE_NOTES,
        limits::LARGE_PLACES,
        limits::LARGE_OWNERS,
        text,
        a,
        b,
        c,
        d,
        e,
        f,
        g,
        h,
        u,
        v,
        w,
        x,
        p,
        q,
        r,
        t,
        own,
        table,
        out,
        orig,
    )
}

// The same as `optimize` for larger texts, with records in a form that the caller chooses, and with its tables lent too: of each of the work buffers `a` to `e` 2,097,153
// bytes are used, of `u` 1,048,576 numbers, of the tables `f`, `g`, `r` and `t` 262,143 places, of `h`, `p`, `q` and `table` 100,000, of `v`, `w` and `x` 200,000, and of `own`
// 131,071: these are 0 afterwards where the passes ran.
pub fn optimize_large(
    mode: usize,
    form: Form,
    text: &[u8],
    a: &mut [u8],
    b: &mut [u8],
    c: &mut [u8],
    d: &mut [u8],
    e: &mut [u8],
    f: &mut [u8],
    g: &mut [u8],
    h: &mut [u8],
    u: &mut [u32],
    v: &mut [u32],
    w: &mut [u32],
    x: &mut [u32],
    p: &mut [usize],
    q: &mut [usize],
    r: &mut [usize],
    t: &mut [usize],
    own: &mut [usize],
    table: &mut [usize],
    out: &mut [u8],
    orig: &mut [u8],
) -> limits::Answer
    ensures answer { result ≡ whole_answer large form mode (is_short large (length a.old) (length b.old) (length c.old) (length d.old) (length e.old) (length u.old) || tables_short large (length f.old) (length g.old) (length h.old) (length v.old) (length w.old) (length x.old) (length p.old) (length q.old) (length r.old) (length t.old) (length own.old) (length table.old)) text.now (result_of (whole (reading_of mode)) text.now) (length out.old) (length orig.old) }
    ensures memory { (out.new ≡ out_after result (result_of (whole (reading_of mode)) text.now) out.old)
        × AfterLarge large result a.old b.old c.old d.old e.old f.old g.old h.old u.old v.old w.old x.old p.old q.old r.old t.old own.old table.old a.new b.new c.new d.new e.new f.new g.new h.new u.new v.new w.new x.new p.new q.new r.new t.new own.new table.new }
    ensures records { orig.new ≡ out_after result (origins_of form (whole (reading_of mode)) (whole_fates (reading_of mode)) text.now) orig.old }
{
    tidy_large(
        0, 7, mode, form, text, a, b, c, d, e, f, g, h, u, v, w, x, p, q, r, t, own, table, out,
        orig,
    )
}

// Runs one pass over a larger text, by its number from 1 to 6, with no removal, and writes the result and the records likewise, in the same work buffers.
pub fn run_pass_large(
    pass: usize,
    mode: usize,
    form: Form,
    text: &[u8],
    a: &mut [u8],
    b: &mut [u8],
    c: &mut [u8],
    d: &mut [u8],
    e: &mut [u8],
    f: &mut [u8],
    g: &mut [u8],
    h: &mut [u8],
    u: &mut [u32],
    v: &mut [u32],
    w: &mut [u32],
    x: &mut [u32],
    p: &mut [usize],
    q: &mut [usize],
    r: &mut [usize],
    t: &mut [usize],
    own: &mut [usize],
    table: &mut [usize],
    out: &mut [u8],
    orig: &mut [u8],
) -> limits::Answer
    ensures answer { result ≡ pass_answer large form pass mode (is_short large (length a.old) (length b.old) (length c.old) (length d.old) (length e.old) (length u.old) || tables_short large (length f.old) (length g.old) (length h.old) (length v.old) (length w.old) (length x.old) (length p.old) (length q.old) (length r.old) (length t.old) (length own.old) (length table.old)) text.now (result_of (step_of (reading_of mode) pass) text.now) (length out.old) (length orig.old) }
    ensures memory { (out.new ≡ out_after result (result_of (step_of (reading_of mode) pass) text.now) out.old)
        × AfterLarge large result a.old b.old c.old d.old e.old f.old g.old h.old u.old v.old w.old x.old p.old q.old r.old t.old own.old table.old a.new b.new c.new d.new e.new f.new g.new h.new u.new v.new w.new x.new p.new q.new r.new t.new own.new table.new }
    ensures records { orig.new ≡ out_after result (origins_of form (step_of (reading_of mode) pass) (step_fates (reading_of mode) pass) text.now) orig.old }
{
    if !is_pass(pass) {
        return Err(limits::Refusal::BadPass);
    }
    tidy_large(
        pass,
        pass + 1,
        mode,
        form,
        text,
        a,
        b,
        c,
        d,
        e,
        f,
        g,
        h,
        u,
        v,
        w,
        x,
        p,
        q,
        r,
        t,
        own,
        table,
        out,
        orig,
    )
}
