// A listing and what it became as plain text: each raw line with where it went and why, and each tidy line with the raw lines behind it.
use crate::chain::Chain;
use crate::listing::{Listing, Raw, Tidy, tidy_of};
use crate::{put, why};
use input::host::Output;
use origins::Went;

// The front of a raw line: its number, that of its tidy line, and a sign for its fate.
fn put_front(out: &mut Output, number: usize, went: Went) {
    put::column(out, number);
    let sign = match went {
        Went::Equal(_) => b" = | ",
        Went::Changed(_) => b" ~ | ",
        Went::Inside(_) => b" > | ",
        Went::Away => b" x | ",
    };
    match tidy_of(went) {
        Some(n) => put::column(out, n),
        None => out.text(b"    -"),
    }
    out.text(sign);
}

// The front of a line that says more of the one above.
fn put_margin(out: &mut Output) {
    out.text(b"               ");
}

// What is said of a raw line below it.
fn put_more(out: &mut Output, raw: Raw<'_>) {
    match raw.went {
        Went::Equal(_) => {}
        Went::Changed(_) => {
            put_margin(out);
            out.text(b"became: ");
            out.text(raw.now);
            out.text(b"\n");
            put_margin(out);
            why::put_changed(out, raw);
            out.text(b"\n");
        }
        Went::Inside(n) => {
            put_margin(out);
            why::put_inside(out, raw.held, n);
            out.text(b"\n");
        }
        Went::Away => {
            put_margin(out);
            why::put_gone(out, raw);
            out.text(b"\n");
        }
    }
}

// Writes the raw lines, each with where it went.
fn put_all_raw(out: &mut Output, listing: Listing<'_>) {
    for raw in listing.raw_lines() {
        put_front(out, raw.number, raw.went);
        out.text(raw.line);
        out.text(b"\n");
        put_more(out, raw);
    }
}

// Writes the numbers of the lines of a chain from 1, with a blank before each.
pub fn put_numbers(out: &mut Output, chain: Chain<'_>) {
    for line in chain {
        out.text(b" ");
        put::place(out, line);
    }
}

// Writes a tidy line with the raw lines behind it: beside it where there is one, else below it.
fn put_tidy(out: &mut Output, tidy: Tidy<'_>) {
    put::column(out, tidy.number);
    if tidy.behind.len() == 1 {
        put::column(out, tidy.first);
        out.text(b" | ");
        out.text(tidy.line);
        out.text(b"\n");
    } else {
        out.text(b"      | ");
        out.text(tidy.line);
        out.text(b"\n             from raw lines");
        put_numbers(out, tidy.behind);
        out.text(b"\n");
    }
}

// Writes the tidy lines.
fn put_all_tidy(out: &mut Output, listing: Listing<'_>) {
    for tidy in listing.tidy_lines() {
        put_tidy(out, tidy);
    }
}

// Writes both listings.
pub fn put_both(out: &mut Output, listing: Listing<'_>) {
    out.text(b"  raw tidy     (= as it was, ~ changed, > inside another line, x gone)\n");
    put_all_raw(out, listing);
    out.text(b"\n tidy  raw\n");
    put_all_tidy(out, listing);
}
