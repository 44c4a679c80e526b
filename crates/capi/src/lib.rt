// The entries for C and Rust: crate capi_c exports them, and include/optlines.h declares them.
#![tactic(auto)]

ghost use Rattle.std.specs.Prelude.{◌≡◌};
ghost use Rattle.origins.specs.declared.Form.TheVariants as form-is;
ghost use Rattle.limits.specs.Answer.{number_of, length_of, place_of};
ghost use Rattle.limits.specs.Entry.{small, large, out_after};
ghost use Rattle.opt.specs.Room.{After, AfterLarge};
ghost use Rattle.capi.specs.Called.{form_of, tidied, passed, tidied_origins, passed_origins, tidy_answer, one_pass_answer, tidy_large_answer, one_pass_large_answer};

use origins::Form;

// Runs all passes over a text, in mode 0 (plain), 1 (strict), 2 (joined) or 3 (both). Returns the number of the answer, and stores its length and its place.
pub fn optlines_optimize(
    mode: usize,
    text: &[u8],
    a: &mut [u8],
    b: &mut [u8],
    c: &mut [u8],
    d: &mut [u8],
    e: &mut [u8],
    u: &mut [u32],
    out: &mut [u8],
    orig: &mut [u8],
    size: &mut usize,
    place: &mut usize,
) -> u8
    ensures number { result ≡ number_of (tidy_answer mode text.now a.old b.old c.old d.old e.old u.old out.old orig.old) }
    ensures size { size.new ≡ length_of (tidy_answer mode text.now a.old b.old c.old d.old e.old u.old out.old orig.old) }
    ensures place { place.new ≡ place_of (tidy_answer mode text.now a.old b.old c.old d.old e.old u.old out.old orig.old) }
    ensures result { out.new ≡ out_after (tidy_answer mode text.now a.old b.old c.old d.old e.old u.old out.old orig.old) (tidied mode text.now) out.old }
    ensures records { orig.new ≡ out_after (tidy_answer mode text.now a.old b.old c.old d.old e.old u.old out.old orig.old) (tidied_origins form-is.Ol mode text.now) orig.old }
    ensures work { After small (tidy_answer mode text.now a.old b.old c.old d.old e.old u.old out.old orig.old) a.old b.old c.old d.old e.old u.old a.new b.new c.new d.new e.new u.new }
{
    let answer = opt::optimize(mode, text, a, b, c, d, e, u, out, orig);
    *size = limits::length_of(answer);
    *place = limits::place_of(answer);
    limits::number_of(answer)
}

// Runs one pass, 1 to 6, over a text, in mode 0 (plain), 1 (strict), 2 (joined) or 3 (both). Returns the number of the answer, and stores its length and its place.
pub fn optlines_run_pass(
    pass: usize,
    mode: usize,
    text: &[u8],
    a: &mut [u8],
    b: &mut [u8],
    c: &mut [u8],
    d: &mut [u8],
    e: &mut [u8],
    u: &mut [u32],
    out: &mut [u8],
    orig: &mut [u8],
    size: &mut usize,
    place: &mut usize,
) -> u8
    ensures number { result ≡ number_of (one_pass_answer pass mode text.now a.old b.old c.old d.old e.old u.old out.old orig.old) }
    ensures size { size.new ≡ length_of (one_pass_answer pass mode text.now a.old b.old c.old d.old e.old u.old out.old orig.old) }
    ensures place { place.new ≡ place_of (one_pass_answer pass mode text.now a.old b.old c.old d.old e.old u.old out.old orig.old) }
    ensures result { out.new ≡ out_after (one_pass_answer pass mode text.now a.old b.old c.old d.old e.old u.old out.old orig.old) (passed pass mode text.now) out.old }
    ensures records { orig.new ≡ out_after (one_pass_answer pass mode text.now a.old b.old c.old d.old e.old u.old out.old orig.old) (passed_origins form-is.Ol pass mode text.now) orig.old }
    ensures work { After small (one_pass_answer pass mode text.now a.old b.old c.old d.old e.old u.old out.old orig.old) a.old b.old c.old d.old e.old u.old a.new b.new c.new d.new e.new u.new }
{
    let answer = opt::run_pass(pass, mode, text, a, b, c, d, e, u, out, orig);
    *size = limits::length_of(answer);
    *place = limits::place_of(answer);
    limits::number_of(answer)
}

// The form of a number: 0 is `OL`, and every other number `OM`.
fn form_of(form: usize) -> Form
    ensures { result ≡ form_of form }
{
    if form == 0 {
        return Form::Ol;
    }
    Form::Om
}

// Runs all passes over a larger text, with records in the form `OL` (0) or `OM` (any other number). Returns the number of the answer, and stores its length and its place.
pub fn optlines_optimize_large(
    mode: usize,
    form: usize,
    text: &[u8],
    a: &mut [u8],
    b: &mut [u8],
    c: &mut [u8],
    d: &mut [u8],
    e: &mut [u8],
    f: &mut [u8],
    g: &mut [u8],
    h: &mut [u8],
    u: &mut [u32],
    v: &mut [u32],
    w: &mut [u32],
    x: &mut [u32],
    p: &mut [usize],
    q: &mut [usize],
    r: &mut [usize],
    t: &mut [usize],
    own: &mut [usize],
    table: &mut [usize],
    out: &mut [u8],
    orig: &mut [u8],
    size: &mut usize,
    place: &mut usize,
) -> u8
    ensures number { result ≡ number_of (tidy_large_answer mode (form_of form) text.now a.old b.old c.old d.old e.old f.old g.old h.old u.old v.old w.old x.old p.old q.old r.old t.old own.old table.old out.old orig.old) }
    ensures size { size.new ≡ length_of (tidy_large_answer mode (form_of form) text.now a.old b.old c.old d.old e.old f.old g.old h.old u.old v.old w.old x.old p.old q.old r.old t.old own.old table.old out.old orig.old) }
    ensures place { place.new ≡ place_of (tidy_large_answer mode (form_of form) text.now a.old b.old c.old d.old e.old f.old g.old h.old u.old v.old w.old x.old p.old q.old r.old t.old own.old table.old out.old orig.old) }
    ensures result { out.new ≡ out_after (tidy_large_answer mode (form_of form) text.now a.old b.old c.old d.old e.old f.old g.old h.old u.old v.old w.old x.old p.old q.old r.old t.old own.old table.old out.old orig.old) (tidied mode text.now) out.old }
    ensures records { orig.new ≡ out_after (tidy_large_answer mode (form_of form) text.now a.old b.old c.old d.old e.old f.old g.old h.old u.old v.old w.old x.old p.old q.old r.old t.old own.old table.old out.old orig.old) (tidied_origins (form_of form) mode text.now) orig.old }
    ensures work { AfterLarge large (tidy_large_answer mode (form_of form) text.now a.old b.old c.old d.old e.old f.old g.old h.old u.old v.old w.old x.old p.old q.old r.old t.old own.old table.old out.old orig.old) a.old b.old c.old d.old e.old f.old g.old h.old u.old v.old w.old x.old p.old q.old r.old t.old own.old table.old a.new b.new c.new d.new e.new f.new g.new h.new u.new v.new w.new x.new p.new q.new r.new t.new own.new table.new }
{
    let answer = opt::optimize_large(
        mode,
        form_of(form),
        text,
        a,
        b,
        c,
        d,
        e,
        f,
        g,
        h,
        u,
        v,
        w,
        x,
        p,
        q,
        r,
        t,
        own,
        table,
        out,
        orig,
    );
    *size = limits::length_of(answer);
    *place = limits::place_of(answer);
    limits::number_of(answer)
}

// Runs one pass, 1 to 6, over a larger text, with records in the form `OL` (0) or `OM` (any other number). Returns the number of the answer, and stores its length and its place.
pub fn optlines_run_pass_large(
    pass: usize,
    mode: usize,
    form: usize,
    text: &[u8],
    a: &mut [u8],
    b: &mut [u8],
    c: &mut [u8],
    d: &mut [u8],
    e: &mut [u8],
    f: &mut [u8],
    g: &mut [u8],
    h: &mut [u8],
    u: &mut [u32],
    v: &mut [u32],
    w: &mut [u32],
    x: &mut [u32],
    p: &mut [usize],
    q: &mut [usize],
    r: &mut [usize],
    t: &mut [usize],
    own: &mut [usize],
    table: &mut [usize],
    out: &mut [u8],
    orig: &mut [u8],
    size: &mut usize,
    place: &mut usize,
) -> u8
    ensures number { result ≡ number_of (one_pass_large_answer pass mode (form_of form) text.now a.old b.old c.old d.old e.old f.old g.old h.old u.old v.old w.old x.old p.old q.old r.old t.old own.old table.old out.old orig.old) }
    ensures size { size.new ≡ length_of (one_pass_large_answer pass mode (form_of form) text.now a.old b.old c.old d.old e.old f.old g.old h.old u.old v.old w.old x.old p.old q.old r.old t.old own.old table.old out.old orig.old) }
    ensures place { place.new ≡ place_of (one_pass_large_answer pass mode (form_of form) text.now a.old b.old c.old d.old e.old f.old g.old h.old u.old v.old w.old x.old p.old q.old r.old t.old own.old table.old out.old orig.old) }
    ensures result { out.new ≡ out_after (one_pass_large_answer pass mode (form_of form) text.now a.old b.old c.old d.old e.old f.old g.old h.old u.old v.old w.old x.old p.old q.old r.old t.old own.old table.old out.old orig.old) (passed pass mode text.now) out.old }
    ensures records { orig.new ≡ out_after (one_pass_large_answer pass mode (form_of form) text.now a.old b.old c.old d.old e.old f.old g.old h.old u.old v.old w.old x.old p.old q.old r.old t.old own.old table.old out.old orig.old) (passed_origins (form_of form) pass mode text.now) orig.old }
    ensures work { AfterLarge large (one_pass_large_answer pass mode (form_of form) text.now a.old b.old c.old d.old e.old f.old g.old h.old u.old v.old w.old x.old p.old q.old r.old t.old own.old table.old out.old orig.old) a.old b.old c.old d.old e.old f.old g.old h.old u.old v.old w.old x.old p.old q.old r.old t.old own.old table.old a.new b.new c.new d.new e.new f.new g.new h.new u.new v.new w.new x.new p.new q.new r.new t.new own.new table.new }
{
    let answer = opt::run_pass_large(
        pass,
        mode,
        form_of(form),
        text,
        a,
        b,
        c,
        d,
        e,
        f,
        g,
        h,
        u,
        v,
        w,
        x,
        p,
        q,
        r,
        t,
        own,
        table,
        out,
        orig,
    );
    *size = limits::length_of(answer);
    *place = limits::place_of(answer);
    limits::number_of(answer)
}
