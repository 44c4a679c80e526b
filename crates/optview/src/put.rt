// Writing the numbers of lines, which count from 1.
use input::host::Output;

// Writes a number from 0, counted from 1.
pub fn place(out: &mut Output, n: usize) {
    out.number(n.saturating_add(1));
}

// The same, to the right of a column of five.
pub fn column(out: &mut Output, n: usize) {
    out.number(format_args!("{:>5}", n.saturating_add(1)));
}
