// Writing a declaration anew, name by name.
ghost use Rattle.std.specs.Prelude.{◌≡◌, [], ◌∷◌, ◌≤◌, ◌+◌, length};
ghost use Rattle.lines.specs.Inner.Out.{Wrote};
ghost use Rattle.decls.specs.Inner.Print.{bare_name, one, lead_of, end_of, named};

// Writes what stands before a name, and returns the place after it; `some` says whether a name went before.
pub fn put_lead(indent: &[u8], some: bool, out: &mut [u8], o: usize) -> usize
    requires { o + length (lead_of indent.now some) ≤ length out.old }
    ensures { Wrote out.old o (lead_of indent.now some) out.new result }
{
    if some {
        let p = lines::put_byte(out, o, b',');
        return lines::put_byte(out, p, b' ');
    }
    let p = lines::put(out, o, indent);
    lines::put(out, p, b"let ")
}

// Writes a name with what stands before it; its word is `k` bytes, and zeros that lead its digits are left out. Where none leads it is written whole.
pub fn put_name(indent: &[u8], some: bool, t: &[u8], k: usize, out: &mut [u8], o: usize) -> usize
    requires { o + length (named indent.now (bare_name k t.now ∷ []) some) ≤ length out.old }
    ensures { Wrote out.old o (named indent.now (bare_name k t.now ∷ []) some) out.new result }
{
    let z = names::skip_zeros(lines::cut(t, k, t.len()));
    let p = put_lead(indent, some, out, o);
    if z == 0 {
        return lines::put(out, p, t);
    }
    let q = lines::put(out, p, lines::cut(t, 0, k));
    lines::put(out, q, lines::cut(t, k + z, t.len()))
}

// Writes a name of a declaration, where it stays.
pub fn put_part(
    indent: &[u8],
    some: bool,
    stays: bool,
    t: &[u8],
    k: usize,
    out: &mut [u8],
    o: usize,
) -> usize
    requires { o + length (named indent.now (one stays k t.now) some) ≤ length out.old }
    ensures { Wrote out.old o (named indent.now (one stays k t.now) some) out.new result }
{
    if stays {
        return put_name(indent, some, t, k, out, o);
    }
    o
}

// Writes the end of a declaration, where it has names.
pub fn put_end(some: bool, out: &mut [u8], o: usize) -> usize
    requires { o + length (end_of some) ≤ length out.old }
    ensures { Wrote out.old o (end_of some) out.new result }
{
    if some {
        let p = lines::put_byte(out, o, b';');
        return lines::put_byte(out, p, 10);
    }
    o
}
