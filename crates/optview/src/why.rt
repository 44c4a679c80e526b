// Why a line went, or is another, in a person's words.
use crate::chain::Chain;
use crate::listing::Raw;
use crate::put;
use crate::stages::Stage;
use input::host::Output;

// Why a line went in a stage.
fn reason(stage: Option<Stage>, line: &[u8]) -> &'static [u8] {
    match stage {
        Some(Stage::Globals) => b"it declares globals to the runtime",
        Some(Stage::Temps) => b"it stores a temp that no line reads, and its value has no effect",
        Some(Stage::Once) if !parse::declares(line) => {
            b"nothing below in its region needs what it stores, or a call below holds the member that it loads"
        }
        Some(Stage::Phis) if is_let(line) => b"it declares phis that no line reads",
        Some(Stage::Phis) => b"it stores a phi that no line reads, and its value has no effect",
        Some(Stage::Once | Stage::Decls) => {
            b"nothing that is left of its region reads or stores the registers that it declares"
        }
        Some(Stage::Bind) => b"its registers are declared at their stores",
        Some(Stage::Calls) | None => b"no stage is noted",
    }
}

// The pass that a stage is.
fn put_pass(out: &mut Output, stage: Option<Stage>) {
    match stage.and_then(|s| s.pass()) {
        Some(pass) => {
            out.text(b"pass ");
            out.number(pass);
        }
        None => out.text(b"before the passes"),
    }
}

// Why a raw line is gone, perhaps after its value went into another line.
pub fn put_gone(out: &mut Output, raw: Raw<'_>) {
    out.text(b"gone, ");
    put_pass(out, raw.gone);
    out.text(b": ");
    if raw.held.is_none() {
        out.text(reason(raw.gone, raw.line));
    } else {
        out.text(b"its value went into another line in ");
        put_pass(out, raw.held);
        out.text(b", and that one went");
    }
}

// Where the value of a line is, which went there in the stage `held`.
pub fn put_inside(out: &mut Output, held: Option<Stage>, n: usize) {
    out.text(b"its value stands in tidy line ");
    put::place(out, n);
    out.text(b", ");
    put_pass(out, held);
    out.text(if held == Some(Stage::Once) {
        b": it is read once, in the next line"
    } else {
        b": it is an argument, or what is called, of a call below"
    });
}

// Writes the numbers of the raw lines behind what a raw line became, from 1, but its own.
fn put_others(out: &mut Output, raw: Raw<'_>) {
    for line in raw.behind {
        if line != raw.number {
            out.text(b" ");
            put::place(out, line);
        }
    }
}

// What a changed line has of others, behind a sign. It is itself among the raw lines behind what it became.
fn put_taken(out: &mut Output, sign: &[u8], raw: Raw<'_>) {
    match raw.behind.len() {
        0 | 1 => {}
        2 => {
            out.text(sign);
            out.text(b"it has the value of raw line");
            put_others(out, raw);
        }
        _ => {
            out.text(sign);
            out.text(b"it has the values of raw lines");
            put_others(out, raw);
        }
    }
}

// Whether a line begins with `let`.
fn is_let(line: &[u8]) -> bool {
    lines::starts_with(text::trim(line), b"let ")
}

// Why a raw line is another.
pub fn put_changed(out: &mut Output, raw: Raw<'_>) {
    if parse::declares(raw.line) {
        out.text(
            b"changed: registers that its region does not need, or that are declared at their stores, are left out",
        );
    } else if is_let(raw.now) && !is_let(raw.line) {
        out.text(b"changed: it declares the register that it stores");
        put_taken(out, b"; ", raw);
    } else {
        out.text(b"changed");
        put_taken(out, b": ", raw);
    }
}
