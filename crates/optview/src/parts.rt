// The parts of the page that are the same for every listing: everything that it needs is in it.
use input::host::Output;

// What the page is.
const META: &[u8] = b"<!DOCTYPE html>
<html lang=\"en\">
<head>
<meta charset=\"utf-8\">
<meta name=\"viewport\" content=\"width=device-width, initial-scale=1\">
<title>Raw and tidy</title>
";

// How its parts look.
const LOOKS: &[u8] = b"<style>
:root { --same: #444; --changed: #1a5fb4; --inside: #8a5a00; --gone: #a51d2d; --mark: #fff3b0; --pin: #ffd75e; }
body { margin: 0; font: 15px/1.4 system-ui, sans-serif; color: #111; background: #fff; }
header { padding: .6em 1em; border-bottom: 1px solid #bbb; }
h1 { font-size: 1.1em; margin: 0 0 .3em; overflow-wrap: anywhere; }
header p { margin: .2em 0; }
main { display: grid; grid-template-columns: 1fr 1fr; }
section { min-width: 0; height: calc(100vh - 8.5em); overflow: auto; border-right: 1px solid #bbb; }
h2 { font-size: 1em; margin: 0; padding: .3em 1em; position: sticky; top: 0; background: #eee; }
ol { list-style: none; margin: 0; padding: 0; }
li { display: grid; grid-template-columns: 1.6em 3.4em 1fr; padding: 0 .5em; border-left: .4em solid transparent; cursor: pointer; scroll-margin-top: 2.2em; }
";

// How lines look by their fates: by colour, by sign and by shape.
const FATES: &[u8] = b"li:focus { outline: 2px solid #000; outline-offset: -2px; }
code { font: 14px/1.5 ui-monospace, monospace; white-space: pre-wrap; overflow-wrap: anywhere; unicode-bidi: isolate; direction: ltr; }
#tidy li { grid-template-columns: 3.4em 1fr; }
b { text-align: right; margin-right: .6em; font-weight: normal; color: #666; font-variant-numeric: tabular-nums; }
i { display: inline-block; width: 1.4em; font-style: normal; font-weight: bold; text-align: center; }
small { grid-column: 3; color: #333; } #tidy small { grid-column: 2; }
u { text-decoration: none; background: #ddd; border: 1px solid #888; border-radius: .2em; font-size: .8em; padding: 0 .2em; }
.f0 i { color: var(--same); } .f1 i { color: var(--changed); } .f2 i { color: var(--inside); } .f3 i { color: var(--gone); }
.f1 { border-left: .4em double var(--changed); } .f2 { border-left: .4em dotted var(--inside); } .f3 { border-left: .4em solid var(--gone); }
.f3 code { text-decoration: line-through 1px var(--gone); }
li.on { background: var(--mark); } li.pin { background: var(--pin); }
</style>
</head>
<body>
<header>
<h1>
";

// What stands above the name of the listing.
pub fn put_head(out: &mut Output) {
    out.text(META);
    out.text(LOOKS);
    out.text(FATES);
}

// What stands between that name and the raw lines.
pub const LEGEND: &[u8] = b"</h1>
<p>Move over a line, or click it, to see the lines that belong to it. Keys: arrows up and down to move, left and right to change sides, Enter to keep a line marked, Escape to let go.</p>
<p><span class=\"f0\"><i>=</i>as it was</span> <span class=\"f1\"><i>~</i>changed</span> <span class=\"f2\"><i>&gt;</i>its value is inside another line</span> <span class=\"f3\"><i>&times;</i>gone</span></p>
</header>
<main>
<section aria-label=\"raw listing\"><h2>raw</h2><ol id=\"raw\">
";

// What stands between the raw lines and the tidy ones.
pub const MIDDLE: &[u8] = b"</ol></section>
<section aria-label=\"tidy listing\"><h2>tidy</h2><ol id=\"tidy\">
";

// How lines that belong together are found and marked.
const MARKS: &[u8] = b"</ol></section>
</main>
<script>
(function () {
  \"use strict\";
  var pinned = null;
  function each(list, f) { Array.prototype.forEach.call(list, f); }
  function linked(line) {
    var to = line.getAttribute(\"data-to\");
    return to ? to.split(\" \").map(function (id) { return document.getElementById(id); }) : [];
  }
  function group(line) {
    if (line.parentNode.id === \"tidy\") return linked(line).concat([line]);
    var there = linked(line);
    return there.length ? linked(there[0]).concat(there) : [line];
  }
  function clear(name) { each(document.querySelectorAll(\".\" + name), function (l) { l.classList.remove(name); }); }
  function mark(line, name) { clear(name); if (line) group(line).forEach(function (l) { l.classList.add(name); }); }
  function show(line) {
    var to = linked(line);
    to.slice(-1).concat(to.slice(0, 1)).forEach(function (l) { l.scrollIntoView({ block: \"nearest\" }); });
  }
  function pin(line) {
    pinned = pinned === line ? null : line;
    mark(pinned, \"pin\");
";

// What the mouse and the keys do.
const MOVES: &[u8] = b"    if (pinned) show(pinned);
  }
  function lineOf(e) { return e.target.closest ? e.target.closest(\"li\") : null; }
  function step(line, key) {
    if (key === \"ArrowDown\") return line.nextElementSibling;
    if (key === \"ArrowUp\") return line.previousElementSibling;
    var side = line.parentNode.id;
    if ((key === \"ArrowRight\" && side === \"raw\") || (key === \"ArrowLeft\" && side === \"tidy\")) return linked(line)[0];
    return null;
  }
  document.addEventListener(\"mouseover\", function (e) { mark(lineOf(e), \"on\"); });
  document.addEventListener(\"focusin\", function (e) { var l = lineOf(e); mark(l, \"on\"); if (l) show(l); });
  document.addEventListener(\"click\", function (e) { var l = lineOf(e); if (l) pin(l); });
  document.addEventListener(\"keydown\", function (e) {
    var l = lineOf(e);
    if (e.key === \"Escape\") { pinned = null; mark(null, \"pin\"); mark(null, \"on\"); return; }
    if (!l) return;
    if (e.key === \"Enter\" || e.key === \" \") { pin(l); e.preventDefault(); return; }
    var to = step(l, e.key);
    if (to) { to.focus(); e.preventDefault(); }
  });
}());
</script>
</body>
</html>
";

// What stands below the tidy lines.
pub fn put_tail(out: &mut Output) {
    out.text(MARKS);
    out.text(MOVES);
}
