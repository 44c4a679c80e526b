// The passes one after the other, over work buffers of the stated sizes.
#![tactic(auto)]

ghost use Rattle.std.specs.Prelude.{◌≡◌, ◌≤◌, ◌<◌, ◌-◌, ◌*◌, ◌^◌, length, take};
ghost use Rattle.lines.specs.Lf.{ends_in, lines_of, unlines};
ghost use Rattle.lines.specs.Steps.{split_lines, joined};
ghost use Rattle.origins.specs.Form.{form_shape, size_of, file_of};
ghost use Rattle.origins.specs.Inner.Codes.{codes_of};
ghost use Rattle.origins.specs.Inner.Written.{wents_by};
ghost use Rattle.reading.specs.Reading.{reading_of};
ghost use Rattle.limits.specs.Entry.{byte_size, records_need, roomed, out_after};
ghost use Rattle.limits.specs.Inner.Sane.{Within};
ghost use Rattle.steps.specs.Inner.Bounds.{Sized, Tabled};
ghost use Rattle.passes.specs.Passes.{result_of, origins_of};
ghost use Rattle.passes.specs.Inner.Passes.{steps_of, steps_fates};
ghost use Rattle.passes.specs.Inner.Buffers.{Front, Blank, Unused};

use limits::Task;
use origins::Form;

// The first `n` owners, where there are so many.
fn front(own: &[usize], n: usize) -> &[usize] {
    if own.len() < n {
        return own;
    }
    &own[..n]
}

// How many numbers have a place of their own in two tables over registers, of n and k entries, of which the last h are those of owners.
fn low_in(n: usize, k: usize, h: usize) -> usize {
    slots::low_of(slots::shorter(n, k), h)
}

// Writes the lines of a text into a buffer, runs the passes of a task over them, and returns how many bytes they are then. `own` gets the numbers
// that have no place of their own in the tables over registers, and `table` the codes of the lines of the text: where each one is in the end.
fn chain(
    m: Task,
    text: &[u8],
    a: &mut [u8],
    b: &mut [u8],
    c: &mut [u8],
    d: &mut [u8],
    e: &mut [u8],
    f: &mut [u8],
    g: &mut [u8],
    h: &mut [u8],
    u: &mut [u32],
    v: &mut [u32],
    w: &mut [u32],
    x: &mut [u32],
    p: &mut [usize],
    q: &mut [usize],
    r: &mut [usize],
    t: &mut [usize],
    own: &mut [usize],
    table: &mut [usize],
) -> usize
    requires { Within m.limits text.now × ((byte_size m.limits ≤ length a.old)
        × (Sized m.limits b.old c.old d.old e.old u.old × (Tabled m.limits f.old g.old v.old w.old x.old p.old q.old r.old t.old × (length table.old ≡ length (split_lines text.now))))) }
    ensures answer { Front a.new result (unlines (steps_of (reading_of m.mode.0) m.from (m.to - m.from) (split_lines text.now))) }
    ensures origins { table.new ≡ codes_of (steps_fates (reading_of m.mode.0) m.from (m.to - m.from) (split_lines text.now)) }
{
    let mut n = lines::split_lines(text, a);
    slots::wipe(table);
    let low = low_in(r.len(), v.len(), own.len());
    slots::wipe(own);
    let high = slots::gather::gather(&a[..n], low, own);
    for j in m.from..m.to {
        if steps::idle(j, &a[..n]) {
            continue;
        }
        let rows = origins::count_standing(table);
        let k = steps::step(
            j,
            m,
            rows,
            &a[..n],
            front(own, high),
            b,
            c,
            d,
            e,
            f,
            g,
            h,
            u,
            v,
            w,
            x,
            p,
            q,
            r,
            t,
            table,
        );
        n = lines::put(a, 0, &b[..k]);
    }
    origins::land(table);
    n
}

// Makes every work buffer 0.
fn wipe_all(a: &mut [u8], b: &mut [u8], c: &mut [u8], d: &mut [u8], e: &mut [u8], u: &mut [u32])
    ensures { Blank a.old b.old c.old d.old e.old u.old a.new b.new c.new d.new e.new u.new }
{
    lines::wipe(a, a.len());
    lines::wipe(b, b.len());
    lines::wipe(c, c.len());
    lines::wipe(d, d.len());
    lines::wipe(e, e.len());
    lines::wipe_numbers(u);
}

// Makes every table 0.
fn wipe_tables(
    f: &mut [u8],
    g: &mut [u8],
    h: &mut [u8],
    v: &mut [u32],
    w: &mut [u32],
    x: &mut [u32],
    p: &mut [usize],
    q: &mut [usize],
    r: &mut [usize],
    t: &mut [usize],
    own: &mut [usize],
    table: &mut [usize],
)
    ensures { Unused f.old g.old h.old v.old w.old x.old p.old q.old r.old t.old own.old table.old f.new g.new h.new v.new w.new x.new p.new q.new r.new t.new own.new table.new }
{
    lines::wipe(f, f.len());
    lines::wipe(g, g.len());
    lines::wipe(h, h.len());
    lines::wipe_numbers(v);
    lines::wipe_numbers(w);
    lines::wipe_numbers(x);
    slots::wipe(p);
    slots::wipe(q);
    slots::wipe(r);
    slots::wipe(t);
    slots::wipe(own);
    slots::wipe(table);
}

// Joins lines into the result buffer, with a last LF where the text has one, and writes the records of the text's lines by their codes and in a form, where
// both have room.
fn put_all(
    form: Form,
    lf: &[u8],
    text: &[u8],
    table: &[usize],
    out: &mut [u8],
    orig: &mut [u8],
) -> limits::Answer
    requires { length table.now < 2 ^ 32 }
    ensures answer { result ≡ roomed (length (joined (ends_in 10 text.now) (lines_of lf.now))) (length out.old) (size_of (form_shape form) * length table.now) (length orig.old) }
    ensures result { out.new ≡ out_after result (joined (ends_in 10 text.now) (lines_of lf.now)) out.old }
    ensures records { orig.new ≡ out_after result (file_of (form_shape form) (wents_by (lines_of lf.now) (split_lines text.now) table.now)) orig.old }
{
    let ended = lines::ends_lf(text);
    let need = origins::size_of(form) * table.len();
    let r = limits::finish(lf, ended, need, orig.len(), out);
    if limits::number_of(r) == 0 {
        origins::put_records(form, text, lf, table, orig);
    }
    r
}

// Puts out the lines in the first `n` bytes of a buffer and the records, in a form, and makes every work buffer 0.
fn close(
    form: Form,
    n: usize,
    text: &[u8],
    table: &[usize],
    a: &mut [u8],
    b: &mut [u8],
    c: &mut [u8],
    d: &mut [u8],
    e: &mut [u8],
    u: &mut [u32],
    out: &mut [u8],
    orig: &mut [u8],
) -> limits::Answer
    requires { (n ≤ length a.old) × (length table.now < 2 ^ 32) }
    ensures answer { result ≡ roomed (length (joined (ends_in 10 text.now) (lines_of (take n a.old)))) (length out.old) (size_of (form_shape form) * length table.now) (length orig.old) }
    ensures memory { (out.new ≡ out_after result (joined (ends_in 10 text.now) (lines_of (take n a.old))) out.old)
        × Blank a.old b.old c.old d.old e.old u.old a.new b.new c.new d.new e.new u.new }
    ensures records { orig.new ≡ out_after result (file_of (form_shape form) (wents_by (lines_of (take n a.old)) (split_lines text.now) table.now)) orig.old }
{
    let r = put_all(form, &a[..n], text, table, out, orig);
    wipe_all(a, b, c, d, e, u);
    r
}

// Runs the passes of a task over a text, in work buffers of the stated sizes and in tables, and leaves these 0.
pub fn work(
    m: Task,
    text: &[u8],
    a: &mut [u8],
    b: &mut [u8],
    c: &mut [u8],
    d: &mut [u8],
    e: &mut [u8],
    f: &mut [u8],
    g: &mut [u8],
    h: &mut [u8],
    u: &mut [u32],
    v: &mut [u32],
    w: &mut [u32],
    x: &mut [u32],
    p: &mut [usize],
    q: &mut [usize],
    r: &mut [usize],
    t: &mut [usize],
    own: &mut [usize],
    table: &mut [usize],
    out: &mut [u8],
    orig: &mut [u8],
) -> limits::Answer
    requires { Within m.limits text.now × ((byte_size m.limits ≤ length a.old)
        × (Sized m.limits b.old c.old d.old e.old u.old × (Tabled m.limits f.old g.old v.old w.old x.old p.old q.old r.old t.old × (m.limits.lines ≤ length table.old)))) }
    ensures answer { result ≡ roomed (length (result_of (steps_of (reading_of m.mode.0) m.from (m.to - m.from)) text.now)) (length out.old) (records_need m.form text.now) (length orig.old) }
    ensures memory { (out.new ≡ out_after result (result_of (steps_of (reading_of m.mode.0) m.from (m.to - m.from)) text.now) out.old)
        × Blank a.old b.old c.old d.old e.old u.old a.new b.new c.new d.new e.new u.new }
    ensures records { orig.new ≡ out_after result (origins_of m.form (steps_of (reading_of m.mode.0) m.from (m.to - m.from)) (steps_fates (reading_of m.mode.0) m.from (m.to - m.from)) text.now) orig.old }
    ensures tables { Unused f.old g.old h.old v.old w.old x.old p.old q.old r.old t.old own.old table.old f.new g.new h.new v.new w.new x.new p.new q.new r.new t.new own.new table.new }
{
    let k = lines::count_lines(text);
    let n = chain(
        m,
        text,
        a,
        b,
        c,
        d,
        e,
        f,
        g,
        h,
        u,
        v,
        w,
        x,
        p,
        q,
        r,
        t,
        own,
        &mut table[..k],
    );
    let form = m.form;
    let y = close(form, n, text, &table[..k], a, b, c, d, e, u, out, orig);
    wipe_tables(f, g, h, v, w, x, p, q, r, t, own, table);
    y
}
