//! The template: each text of pages that comes from the program, by its number.
ghost use Rattle.std.specs.Prelude.{◌≡◌, [], map, slice_index_or};
ghost use Rattle.census_page.specs.Pages.{own_text};

/// The beginning of each row of a table of codes or patterns.
pub const ROW: &[u8] = b"<tr class=\"";

/// The tags around the name of a code.
pub const BOLD: &[u8] = b"<b>";

pub const BOLD_END: &[u8] = b"</b>, ";

/// The texts. All that a page has besides these, the beginnings of rows and the tags around the names of codes is escaped.
const OWN: &[&[u8]] = &[
    // The frame.
    b"<!DOCTYPE html>
<html lang=\"en\">
<head>
<meta charset=\"utf-8\">
<meta name=\"viewport\" content=\"width=device-width,initial-scale=1\">
<title>",
    b"</title>
<style>
:root{color-scheme:light dark;--fg:#1c2024;--dim:#59636e;--bg:#fff;--head:#f2f4f6;--line:#d8dde2;--link:#0a559e;--cell:#16344f}
@media(prefers-color-scheme:dark){
:root{--fg:#dde2e6;--dim:#9ba6b0;--bg:#14171a;--head:#1d2226;--line:#32393f;--link:#83b9f2;--cell:#bcd6ee}
}
*{box-sizing:border-box}
body{margin:0 auto;max-width:88rem;padding:1.5rem 1.5rem 4rem;background:var(--bg);color:var(--fg);font:.9375rem/1.4 system-ui,sans-serif}
h1{margin:0 0 .25rem;font-size:1.75rem;line-height:1.2;overflow-wrap:anywhere;text-wrap:balance}
h2{margin:2.5rem 0 .25rem;font-size:1.25rem;overflow-wrap:anywhere}
p{margin:0}
footer{max-width:48rem;margin-top:3rem}
a{color:var(--link);text-decoration:none}
a:hover{text-decoration:underline}
:focus-visible{outline:2px solid var(--link);outline-offset:2px}
small,i,header>p,section>p,footer{color:var(--dim);font-size:.8125rem;font-style:normal}
small{font-weight:400}
dl{display:flex;flex-wrap:wrap;gap:.5rem 2rem;margin:1rem 0 1.5rem}
dt{color:var(--dim);font-size:.8125rem}
dd{margin:0;font-size:1.25rem;font-variant-numeric:tabular-nums}
table{width:100%;margin:.75rem 0 1.5rem;border-collapse:collapse;table-layout:fixed}
th,td{padding:.375rem .5rem;border-bottom:1px solid var(--line);text-align:left;vertical-align:top;font-weight:400;font-variant-numeric:tabular-nums}
thead th{position:sticky;top:0;z-index:1;background:var(--head);color:var(--dim);font-size:.8125rem;vertical-align:bottom}
tr{scroll-margin-top:2.5rem}
tr:target{background:var(--head)}
bdi{overflow-wrap:anywhere}
b,code,small{unicode-bidi:isolate}
b{font-weight:600;overflow-wrap:anywhere}
.index :is(th,td){padding:.375rem .25rem}
.index :is(th,td):nth-child(n+2){width:10%;text-align:right}
.objects :is(th,td):nth-child(1){width:11.5%}
.objects :is(th,td):is(:nth-child(3),:nth-child(4)),.patterns :is(th,td):nth-child(2){width:4.5rem;text-align:right}
.objects :is(th,td):nth-child(5){width:44%;padding-left:1.5rem}
.patterns :is(th,td):nth-child(1){width:27%}
.patterns :is(th,td):nth-child(3){padding-left:1.5rem}
svg{display:block;max-width:100%;height:auto;stroke:var(--cell)}
.g{stroke-width:.9;stroke-dasharray:.9 .1}
.h{margin:.75rem 0;stroke:none;fill:var(--cell);font:.75rem system-ui,sans-serif;font-variant-numeric:tabular-nums}
.h text{fill:var(--fg)}
th>p{text-wrap:pretty}
th>div{display:flex;flex-wrap:wrap;align-items:baseline;gap:0 .75rem}
code,pre{font:.8125rem/1.4 ui-monospace,monospace;overflow-wrap:anywhere}
pre{margin:.25rem 0;padding:.5rem;background:var(--head);white-space:pre-wrap}
summary{color:var(--link);font-size:.8125rem;cursor:pointer}
th details[open]{flex-basis:100%}
details>code,pre{display:block;max-height:12rem;overflow:auto}
ul{margin:0;padding:0;list-style:none}
li{display:inline-block;margin-right:1rem;max-width:100%}
.objects small,.patterns small{white-space:nowrap}
fieldset{display:flex;flex-wrap:wrap;gap:.25rem 1rem;margin:0;padding:0;border:0}
legend{float:left;color:var(--dim)}
label{cursor:pointer;white-space:nowrap}
input{accent-color:var(--link);margin:0 .375rem 0 0}
body:has(#fs:checked) :is(tr[class]:not(.s),:is(section,section>table):not(:has(tr.s))),
body:has(#fo:checked) :is(tr[class]:not(.o),:is(section,section>table):not(:has(tr.o))),
body:has(#fq:checked) :is(tr[class]:not(.q),:is(section,section>table):not(:has(tr.q))),
body:has(#fu:checked) :is(tr[class]:not(.u),:is(section,section>table):not(:has(tr.u))){display:none}
@media(max-width:62rem){
.index thead th{font-size:.75rem}
.index :is(th,td):nth-child(n+6){display:none}
.objects :is(th,td):nth-child(1){width:16%}
.objects :is(th,td):nth-child(5){width:33%}
}
@media screen and (max-width:44rem){
body{padding:1rem .75rem 3rem}
dl{gap:.5rem 1.25rem}
thead{display:none}
table,tbody{display:block}
tbody tr{display:flex;flex-wrap:wrap;gap:0 .75rem;padding:.375rem 0;border-bottom:1px solid var(--line)}
table tr :is(th,td):is(:nth-child(n),#x){width:auto;padding:0;border:0;text-align:left}
.objects tr{display:grid;grid-template-columns:5.5rem 5.5rem 1fr}
.objects tr>td:nth-child(1){grid-row:1/span 3}
.objects tr>:is(th,td:nth-child(5)){grid-column:2/4}
.index tr th,.patterns tr td:nth-child(3){flex-basis:100%}
.index tr td:nth-child(n+6){display:none}
td:empty{display:none}
td:not(:first-child,:last-child)::before{color:var(--dim);font-size:.8125rem;content:\"cells \"}
.objects td:nth-child(4)::before{content:\"count \"}
.index td:nth-child(2)::before{content:\"patterns \"}
.index td:nth-child(3)::before{content:\"resolved \"}
.index td:nth-child(4)::before{content:\"unresolved \"}
.index td:nth-child(5)::before{content:\"refused \"}
}
@media print{
:root{color-scheme:light;--fg:#000;--dim:#444;--bg:#fff;--head:#eee;--line:#bbb;--link:#000;--cell:#000}
@page{margin:14mm}
html{font-size:12px}
body{max-width:none;padding:0}
fieldset,.rle{display:none}
thead th{position:static}
tr{break-inside:avoid}
h2,section>p{break-after:avoid}
}
</style>
</head>
<body>
<header>
<h1>",
    b"</h1>\n",
    b"<p>",
    b"</p>\n",
    b"</header>\n<main>\n<dl><div><dt>Collections</dt><dd>",
    b"</dd></div><div><dt>Patterns</dt><dd>",
    b"</dd></div><div><dt>Resolved</dt><dd>",
    b"</dd></div><div><dt>Unresolved</dt><dd>",
    b"</dd></div><div><dt>Refused</dt><dd>",
    b"</dd></div></dl>\n",
    b"<nav aria-label=\"Collections\">
<table class=\"index\">
<thead><tr><th scope=\"col\">Collection</th><th scope=\"col\">Patterns</th><th scope=\"col\">Resolved</th><th scope=\"col\">Unresolved</th><th scope=\"col\">Refused</th><th scope=\"col\">Still lifes</th><th scope=\"col\">Oscillators</th><th scope=\"col\">Spaceships</th></tr></thead>
<tbody>
",
    b"<tr><th scope=\"row\"><a href=\"#c",
    b"</tr>\n",
    b"</a></th>",
    b"</tbody>
</table>
</nav>
",
    b"<fieldset><legend>Show</legend><label><input type=\"radio\" name=\"f\" id=\"fa\" checked>All <small>",
    b"</small></label><label><input type=\"radio\" name=\"f\" id=\"fs\">Still lifes <small>",
    b"</small></label><label><input type=\"radio\" name=\"f\" id=\"fo\">Oscillators <small>",
    b"</small></label><label><input type=\"radio\" name=\"f\" id=\"fq\">Spaceships <small>",
    b"</small></label><label><input type=\"radio\" name=\"f\" id=\"fu\">Others <small>",
    b"</small></label></fieldset>\n",
    b"</p>
</footer>
</body>
</html>
",
    // Collections.
    b"<section id=\"c",
    b"\">\n<h2>",
    b"</h2>\n<p>Patterns: ",
    b". Resolved: ",
    b", unresolved: ",
    b", refused: ",
    b".</p>\n",
    b"</section>\n",
    b"<table class=\"objects\">
<thead><tr><th scope=\"col\">Picture</th><th scope=\"col\">Object</th><th scope=\"col\">Cells</th><th scope=\"col\">Count</th><th scope=\"col\">Patterns</th></tr></thead>
<tbody>
",
    b"<table class=\"patterns\">
<thead><tr><th scope=\"col\">Pattern</th><th scope=\"col\">Cells</th><th scope=\"col\">What becomes of it</th></tr></thead>
<tbody>
",
    b"</tbody>
</table>
",
    // Rows.
    b"s\"><td>",
    b"o\"><td>",
    b"q\"><td>",
    b"u\"><td>",
    b"u\"><th scope=\"row\">",
    b"</td><th scope=\"row\"><p>",
    b"</p><div>",
    b"</div></th><td>",
    b"</th><td></td><td>refused: ",
    b"</small></th><td>",
    b"<td>",
    b"</td><td>",
    b"</td>",
    b"</td></tr>\n",
    // Names, codes and numbers.
    b"<bdi>",
    b"</bdi>",
    b"<a href=\"",
    b"<a href=\"https://catagolue.hatsya.com/object/",
    b"/",
    b"\">",
    b"</a>",
    b"<code>",
    b"</code>",
    b"<details><summary><code>",
    b"&hellip;</code></summary>",
    b"</details>",
    b"<small>",
    b" <small>",
    b"</small>",
    b",",
    b"s",
    // Lists.
    b"<ul>",
    b"</ul>",
    b"<li>",
    b"</small></li>",
    b" <small>&times; ",
    b" <small>population ",
    b", onset ",
    b"<details><summary>",
    b" more</summary><ul>",
    b"</ul></details>",
    b"<small>and ",
    b" other",
    // Pictures.
    b"<svg role=\"img\" width=\"",
    b"\" height=\"",
    b"\" viewBox=\"0 -.5 ",
    b" ",
    b"\"><title>",
    b"\" class=\"g\"><title>",
    b" by ",
    b" cells",
    b"</title><path d=\"",
    b"M",
    b"h",
    b"\"/></svg>",
    b"<i>no cells</i>",
    b"<i>",
    b": too large to draw</i>",
    b"<details class=\"rle\"><summary>RLE</summary><pre>",
    b"</pre></details>",
    // Descriptions of objects.
    b"nothing: all cells die",
    b"still life of ",
    b"oscillator of period ",
    b"spaceship of period ",
    b"spaceship ",
    b", period ",
    b"object",
    b"c",
    b" orthogonal",
    b" diagonal",
    b"(",
    b", ",
    b")c",
    // Fates of patterns.
    b" object",
    b" from generation ",
    b" on",
    b"unresolved within the bound",
    b"unresolved: at generation ",
    b" it has more cells than the limit",
    b"<div>",
    b"&nbsp;",
    b"gun",
    b"rake",
    b"puffer",
    b" of period ",
    b" that",
    b" move",
    b" (",
    b") and",
    b" emit",
    b" leave",
    b"</div><ul>",
    // Kinds of objects, and lifespans.
    b"</dd></div><div><dt>Kinds of objects</dt><dd>",
    b"</dd></div><div><dt>Objects</dt><dd>",
    b"</h2>\n<p>",
    b"</p>\n<p>Patterns: ",
    b". ",
    b" kind",
    b" of objects, ",
    b"<p>Left out: ",
    b" more kind",
    b" of objects.</p>\n",
    b"<svg class=\"h\" role=\"img\" width=\"320\" height=\"",
    b"\" viewBox=\"0 0 320 ",
    b"\"><title>How many patterns live how long</title>",
    b"<text x=\"100\" y=\"",
    b"\" text-anchor=\"end\">",
    b"&ndash;",
    b"</text><rect x=\"108\" y=\"",
    b"\" height=\"12\" width=\"",
    b"\"/><text x=\"",
    b"\" y=\"",
    b"\">",
    b"</text>",
    b"</svg>\n<p>Life spans of ",
    b" patterns, as their onsets. Median: ",
    b".5",
    b". The longest:</p>\n<ul>",
    b"</ul>\n",
    b" <small>onset ",
    // The foot, before the version.
    b"</main>
<footer>
<p>Cells: of the phase that is drawn, which is the one that the code describes. Population: of the first generation. Onset: the generation from which a pattern recurs. Guns, rakes and puffers: how far they move, to the right and down, and what they emit is told of one period. Unresolved: nothing was found within the bound. Refused: the text means no pattern.</p>
<p>",
];

// The text with this number among these, or nothing if there is none.
fn text_at(texts: &'static [&'static [u8]], number: usize) -> &'static [u8]
    ensures { result.now ≡ slice_index_or (map (λ text. text.now) texts.now) number [] }
{
    if number < texts.len() {
        texts[number]
    } else {
        b""
    }
}

/// The text with this number, or nothing if there is none.
pub fn text_of(number: usize) -> &'static [u8]
    ensures { result.now ≡ own_text number }
{
    text_at(OWN, number)
}

pub const PAGE: usize = 0;

pub const STYLE: usize = 1;

pub const TITLE_END: usize = 2;

pub const NOTE: usize = 3;

pub const NOTE_END: usize = 4;

pub const COLLECTIONS: usize = 5;

pub const PATTERNS: usize = 6;

pub const RESOLVED: usize = 7;

pub const UNRESOLVED: usize = 8;

pub const REFUSED: usize = 9;

pub const TOTALS_END: usize = 10;

pub const INDEX: usize = 11;

pub const INDEX_ROW: usize = 12;

pub const INDEX_ROW_END: usize = 13;

pub const INDEX_LINK_END: usize = 14;

pub const INDEX_END: usize = 15;

pub const CHOICES: usize = 16;

pub const STILL_LIFES: usize = 17;

pub const OSCILLATORS: usize = 18;

pub const SPACESHIPS: usize = 19;

pub const OTHERS: usize = 20;

pub const CHOICES_END: usize = 21;

pub const PAGE_END: usize = 22;

pub const SECTION: usize = 23;

pub const HEADING: usize = 24;

pub const COUNTS: usize = 25;

pub const COUNT_RESOLVED: usize = 26;

pub const COUNT_UNRESOLVED: usize = 27;

pub const COUNT_REFUSED: usize = 28;

pub const COUNTS_END: usize = 29;

pub const SECTION_END: usize = 30;

pub const CODES: usize = 31;

pub const STRAYS: usize = 32;

pub const TABLE_END: usize = 33;

pub const STILL_LIFE_ROW: usize = 34;

pub const OSCILLATOR_ROW: usize = 35;

pub const SPACESHIP_ROW: usize = 36;

pub const OTHER_ROW: usize = 37;

pub const STRAY_ROW: usize = 38;

pub const OBJECT: usize = 39;

pub const OBJECT_END: usize = 40;

pub const CODE_END: usize = 41;

pub const NAME_END: usize = 42;

pub const RULE_END: usize = 43;

pub const CELL: usize = 44;

pub const CELL_NEXT: usize = 45;

pub const CELL_END: usize = 46;

pub const ROW_END: usize = 47;

pub const NAME: usize = 48;

pub const TOLD_END: usize = 49;

pub const LINK: usize = 50;

pub const CATALOGUE: usize = 51;

pub const SLASH: usize = 52;

pub const LINK_TEXT: usize = 53;

pub const LINK_END: usize = 54;

pub const CODE: usize = 55;

pub const WHOLE_CODE_END: usize = 56;

pub const LONG_CODE: usize = 57;

pub const LONG_CODE_CUT: usize = 58;

pub const DETAILS_END: usize = 59;

pub const SMALL: usize = 60;

pub const SMALL_NEXT: usize = 61;

pub const SMALL_END: usize = 62;

pub const COMMA: usize = 63;

pub const PLURAL: usize = 64;

pub const LIST: usize = 65;

pub const LIST_END: usize = 66;

pub const ITEM: usize = 67;

pub const ITEM_END: usize = 68;

pub const TIMES: usize = 69;

pub const POPULATION: usize = 70;

pub const ONSET: usize = 71;

pub const MORE: usize = 72;

pub const MORE_LIST: usize = 73;

pub const MORE_END: usize = 74;

pub const AND: usize = 75;

pub const OTHER: usize = 76;

pub const SVG: usize = 77;

pub const SVG_HEIGHT: usize = 78;

pub const SVG_BOX: usize = 79;

pub const SPACE: usize = 80;

pub const SVG_TITLE: usize = 81;

pub const SVG_GRID: usize = 82;

pub const BY: usize = 83;

pub const CELLS: usize = 84;

pub const SVG_PATH: usize = 85;

pub const MOVE: usize = 86;

pub const STROKE: usize = 87;

pub const SVG_END: usize = 88;

pub const NO_CELLS: usize = 89;

pub const TOO_LARGE: usize = 90;

pub const TOO_LARGE_END: usize = 91;

pub const RLE: usize = 92;

pub const RLE_END: usize = 93;

pub const NOTHING: usize = 94;

pub const STILL_LIFE: usize = 95;

pub const OSCILLATOR: usize = 96;

pub const SPACESHIP: usize = 97;

pub const MOVING_SPACESHIP: usize = 98;

pub const PERIOD: usize = 99;

pub const OBJECT_ALONE: usize = 100;

pub const C: usize = 101;

pub const ORTHOGONAL: usize = 102;

pub const DIAGONAL: usize = 103;

pub const PAIR: usize = 104;

pub const PAIR_NEXT: usize = 105;

pub const PAIR_SPEED: usize = 106;

pub const OBJECTS: usize = 107;

pub const FROM_GENERATION: usize = 108;

pub const ON: usize = 109;

pub const WITHIN_BOUND: usize = 110;

pub const AT_GENERATION: usize = 111;

pub const TOO_MANY_CELLS: usize = 112;

pub const ENGINE: usize = 113;

pub const SEVERAL: usize = 114;

pub const GUN: usize = 115;

pub const RAKE: usize = 116;

pub const PUFFER: usize = 117;

pub const OF_PERIOD: usize = 118;

pub const THAT: usize = 119;

pub const MOVES: usize = 120;

pub const MOVES_BY: usize = 121;

pub const MOVES_END: usize = 122;

pub const EMITS: usize = 123;

pub const LEAVES: usize = 124;

pub const ENGINE_LIST: usize = 125;

pub const KINDS: usize = 126;

pub const ALL_OBJECTS: usize = 127;

pub const PATH: usize = 128;

pub const PATH_COUNTS: usize = 129;

pub const COUNT_KINDS: usize = 130;

pub const KIND: usize = 131;

pub const COUNT_OBJECTS: usize = 132;

pub const LEFT_OUT: usize = 133;

pub const MORE_KINDS: usize = 134;

pub const LEFT_OUT_END: usize = 135;

pub const LIVES: usize = 136;

pub const LIVES_SIZE: usize = 137;

pub const LIVES_TITLE: usize = 138;

pub const BAR: usize = 139;

pub const BAR_FROM: usize = 140;

pub const BAR_TO: usize = 141;

pub const BAR_RECT: usize = 142;

pub const BAR_WIDTH: usize = 143;

pub const BAR_COUNT: usize = 144;

pub const BAR_COUNT_Y: usize = 145;

pub const BAR_TEXT: usize = 146;

pub const BAR_END: usize = 147;

pub const LIVES_OF: usize = 148;

pub const LIVES_MEDIAN: usize = 149;

pub const HALF: usize = 150;

pub const LIVES_LIST: usize = 151;

pub const LIVES_END: usize = 152;

pub const ONSET_ALONE: usize = 153;

pub const FOOT: usize = 154;
