// A listing and what it became as a page in HTML, side by side. Which lines belong together is what the reader of records answers.
use crate::chain::Chain;
use crate::listing::{Listing, Raw, Tidy, tidy_of};
use crate::{escape, parts, plain, put, why};
use input::host::Output;
use origins::Went;

// The class and the sign of a fate.
fn put_fate(out: &mut Output, went: Went) {
    match went {
        Went::Equal(_) => out.text(b"f0\"><i title=\"as it was\">=</i>"),
        Went::Changed(_) => out.text(b"f1\"><i title=\"changed\">~</i>"),
        Went::Inside(_) => out.text(b"f2\"><i title=\"inside another line\">&gt;</i>"),
        Went::Away => out.text(b"f3\"><i title=\"gone\">&times;</i>"),
    }
}

// The tidy line that a raw line belongs to, where there is one.
fn put_to(out: &mut Output, went: Went) {
    if let Some(n) = tidy_of(went) {
        out.text(b"t");
        put::place(out, n);
    }
}

// What is said below a raw line where it did not stay as it was.
fn put_note(out: &mut Output, raw: Raw<'_>) {
    match raw.went {
        Went::Equal(_) => {}
        Went::Changed(_) => {
            out.text(b"<small>");
            why::put_changed(out, raw);
            out.text(b"</small>");
        }
        Went::Inside(n) => {
            out.text(b"<small>");
            why::put_inside(out, raw.held, n);
            out.text(b"</small>");
        }
        Went::Away => {
            out.text(b"<small>");
            why::put_gone(out, raw);
            out.text(b"</small>");
        }
    }
}

// The front of a raw line: its name, where it belongs, its fate and its number.
fn put_raw_front(out: &mut Output, number: usize, went: Went) {
    out.text(b"<li tabindex=\"0\" id=\"r");
    put::place(out, number);
    out.text(b"\" data-to=\"");
    put_to(out, went);
    out.text(b"\" class=\"");
    put_fate(out, went);
    out.text(b"<b>");
    put::place(out, number);
}

// A line as it stands, behind its number.
fn put_code(out: &mut Output, line: &[u8]) {
    out.text(b"</b><code>");
    escape::put_text(out, line);
    out.text(b"</code>");
}

// Writes a raw line.
fn put_raw(out: &mut Output, raw: Raw<'_>) {
    put_raw_front(out, raw.number, raw.went);
    put_code(out, raw.line);
    put_note(out, raw);
    out.text(b"</li>\n");
}

// Writes the raw lines.
fn put_all_raw(out: &mut Output, listing: Listing<'_>) {
    for raw in listing.raw_lines() {
        put_raw(out, raw);
    }
}

// Writes the names of the raw lines behind a tidy line, with a blank between them.
fn put_names(out: &mut Output, tidy: Tidy<'_>) {
    for line in tidy.behind {
        if line != tidy.first {
            out.text(b" ");
        }
        out.text(b"r");
        put::place(out, line);
    }
}

// Says of which raw lines a tidy line is, where that is not one alone.
fn put_sources(out: &mut Output, chain: Chain<'_>) {
    if chain.len() == 1 {
        return;
    }
    out.text(b"<small>from raw lines");
    plain::put_numbers(out, chain);
    out.text(b"</small>");
}

// Writes a tidy line.
fn put_tidy(out: &mut Output, tidy: Tidy<'_>) {
    out.text(b"<li tabindex=\"0\" id=\"t");
    put::place(out, tidy.number);
    out.text(b"\" data-to=\"");
    put_names(out, tidy);
    out.text(b"\"><b>");
    put::place(out, tidy.number);
    put_code(out, tidy.line);
    put_sources(out, tidy.behind);
    out.text(b"</li>\n");
}

// Writes the tidy lines.
fn put_all_tidy(out: &mut Output, listing: Listing<'_>) {
    for tidy in listing.tidy_lines() {
        put_tidy(out, tidy);
    }
}

// Writes the page.
pub fn put_page(out: &mut Output, listing: Listing<'_>, name: &[u8]) {
    parts::put_head(out);
    escape::put_text(out, name);
    out.text(parts::LEGEND);
    put_all_raw(out, listing);
    out.text(parts::MIDDLE);
    put_all_tidy(out, listing);
    parts::put_tail(out);
}
