// What the program writes to standard output.
use input::host;
use input::host::{Failure, Output};

// Writes numbers, a line each.
pub fn put_numbers(rt: &HostRuntime, numbers: &[usize]) -> Result<(), Failure> {
    for &n in numbers {
        host::write_number(rt, n)?;
        host::write(rt, b"\n")?;
    }
    Ok(())
}

// The line at a place, without a CR before its LF.
fn line_at(raw: &[u8], at: usize) -> &[u8] {
    let e = lines::find_byte(raw, at, 10);
    let line = lines::cut(raw, at, e);
    if e < raw.len() {
        if lines::ends_with(line, b"\r") {
            if line.len() > 0 {
                return lines::cut(line, 0, line.len() - 1);
            }
        }
    }
    line
}

// Writes a line of a raw listing as an editor reads it: the name, the number from 1, the text.
fn put_line(rt: &HostRuntime, name: &[u8], number: usize, line: &[u8]) -> Result<(), Failure> {
    let mut out = Output::new(rt);
    out.text(name);
    out.text(b":");
    out.number(number.saturating_add(1));
    out.text(b":");
    out.text(line);
    out.text(b"\n");
    out.sent()
}

// Writes the raw lines of numbers, which ascend.
pub fn put_lines(
    rt: &HostRuntime,
    numbers: &[usize],
    raw: &[u8],
    name: &[u8],
) -> Result<(), Failure> {
    let mut at = 0;
    let mut line = 0;
    for &next in numbers {
        at = input::behind(raw, at, b'\n', next.saturating_sub(line));
        line = next;
        put_line(rt, name, next, line_at(raw, at))?;
    }
    Ok(())
}
