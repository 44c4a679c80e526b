// Answers of the functions on names and on a line as it is read.
use crate::say::{nothing, say, say_byte, say_eight, say_flag};

// 0, or 1 and the number of the register or the phi that a text names.
fn say_name(number: Option<u64>, out: &mut [u8]) -> usize {
    match number {
        Some(n) => {
            let o = say_byte(out, 0, 1);
            say_eight(out, o, n)
        }
        None => say_byte(out, 0, 0),
    }
}

// The register that a piece of a declaration names.
fn say_reg(piece: &[u8], out: &mut [u8], o: usize) -> usize {
    match names::reg_name(text::trim(piece)) {
        Some(q) => say_eight(out, o, q.0),
        None => nothing(),
    }
}

// The registers between the commas of a text.
fn say_regs(s: &[u8], out: &mut [u8], o: usize) -> usize {
    let mut p = o;
    for piece in lines::pieces(s, b',') {
        p = say_reg(piece, out, p);
    }
    p
}

// What stands between `let ` and `;` of a declaration.
fn body(line: &[u8]) -> &[u8] {
    let t = text::trim(line);
    if t.is_empty() {
        return t;
    }
    lines::cut(t, 4, t.len() - 1)
}

// What a line is: 0 and its registers, 1 and its register and value, or 2.
fn parse(a: &[u8], out: &mut [u8]) -> usize {
    match parse::parse(a) {
        parse::Line::Decl => {
            let o = say_byte(out, 0, 0);
            say_regs(body(a), out, o)
        }
        parse::Line::Store(s) => {
            let o = say_byte(out, 0, 1);
            let q = s.reg;
            let p = say_eight(out, o, q.0);
            say(out, p, parse::value_of(a, s))
        }
        parse::Line::Other => say_byte(out, 0, 2),
    }
}

// For each byte whether it is a name byte.
fn name_bytes(a: &[u8], out: &mut [u8]) -> usize {
    let mut p = 0;
    for &b in a {
        p = say_flag(out, p, text::is_name_byte(b));
    }
    p
}

// The answer of a function on names.
pub fn answer(function: u8, a: &[u8], out: &mut [u8]) -> usize {
    match function {
        9 => say_name(names::reg_name(a).map(|reg| reg.0), out),
        10 => say_name(names::phi_name(a).map(|phi| phi.0), out),
        11 => say_flag(out, 0, names::is_temp_name(a)),
        12 => parse(a, out),
        18 => say_flag(out, 0, names::is_simple_ident(a)),
        19 => name_bytes(a, out),
        _ => nothing(),
    }
}
