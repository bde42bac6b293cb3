//! Reports as a page: its options, the order of its parts, and its words about patterns that grow.

use census_page::{PageOptions, Sort, default_options};
use census_reports::{Form, Reading, write_reports};
use std::test::Fail;
use watched::Streams;

// Four codes, one of which occurs twice, and one pattern that is not resolved; and a second report, with one that
// grows.
const REPORT: &[u8] = b"open 1 6 a&b/c d
line 1 1 ok B3/S23 4 0 1 0 0 xs4_33 block
line 1 2 ok B3/S23 3 0 2 0 0 xp2_7 Blinker
line 1 3 ok B3/S23 22 0 15 0 0 xp15_4r4z4r4 a
line 1 4 ok B3/S23 5 0 4 1 1 xq4_153 q\"<'>/\xff
line 1 5 ok B3/S23 3 0 2 0 0 xp2_7 z
line 1 6 none B3/S23 5 n
code 1 B3/S23 xs4_33 1
code 1 B3/S23 xp2_7 2
code 1 B3/S23 xp15_4r4z4r4 1
code 1 B3/S23 xq4_153 1
close 1 6 5 1 0
end 1 6
open 1 1 e
line 1 1 grows B3/S23 36 1 g
engine 1 1 1 30 0 0 1
emits 1 1 1 xq4_153 1
close 1 1 1 0 0
end 1 1
";

// A gun, two of them, a rake, and puffers: one that leaves only still lifes, and two that leave spaceships too.
const GROWTH: &[u8] = b"open 1 6 c
line 1 1 grows B3/S23 36 1 gosper
engine 1 1 1 30 0 0 1
emits 1 1 1 xq4_153 1
line 1 2 grows B3/S23 72 2 <two>
engine 1 2 1 30 0 0 2
emits 1 2 1 xq4_153 1
line 1 3 grows B3/S23 65 1 rake
engine 1 3 1 90 0 -30 1
emits 1 3 1 xq4_153 1
line 1 4 ash B3/S23 4 7 2 b
part 1 4 xs4_33 2
line 1 5 grows B3/S23 28 4 row
engine 1 5 1 288 24 24 1
emits 1 5 1 xs4_33 8
engine 1 5 2 1000 -1 0 3
emits 1 5 2 xp2_7 1234
emits 1 5 2 xs4_33 1
emits 1 5 2 xq4_153 2
line 1 6 none B3/S23 5 n
code 1 B3/S23 xs4_33 2
close 1 6 5 1 0
end 1 6
";

const GROWTH_TABLE: &str = "<tbody>
<tr class=\"u\"><th scope=\"row\"><bdi>gosper</bdi> <small>B3/S23</small></th><td>36</td><td><div>gun of period 30 that emits</div><ul><li><svg role=\"img\" width=\"24\" height=\"24\" viewBox=\"0 -.5 3 3\" class=\"g\"><title>3 by 3 cells</title><path d=\"M0 0h3M2 1h1M1 2h1\"/></svg><code>xq4_153</code> <small>&times; 1</small></li></ul></td></tr>
<tr class=\"u\"><th scope=\"row\"><bdi>&lt;two&gt;</bdi> <small>B3/S23</small></th><td>72</td><td><div>2&nbsp;guns of period 30 that emit</div><ul><li><svg role=\"img\" width=\"24\" height=\"24\" viewBox=\"0 -.5 3 3\" class=\"g\"><title>3 by 3 cells</title><path d=\"M0 0h3M2 1h1M1 2h1\"/></svg><code>xq4_153</code> <small>&times; 1</small></li></ul></td></tr>
<tr class=\"u\"><th scope=\"row\"><bdi>rake</bdi> <small>B3/S23</small></th><td>65</td><td><div>rake of period 90 that moves (0, -30) and emits</div><ul><li><svg role=\"img\" width=\"24\" height=\"24\" viewBox=\"0 -.5 3 3\" class=\"g\"><title>3 by 3 cells</title><path d=\"M0 0h3M2 1h1M1 2h1\"/></svg><code>xq4_153</code> <small>&times; 1</small></li></ul></td></tr>
<tr class=\"u\"><th scope=\"row\"><bdi>b</bdi> <small>B3/S23</small></th><td>4</td><td>2 objects from generation 7 on<ul><li><code>xs4_33</code> <small>&times; 2</small></li></ul></td></tr>
<tr class=\"u\"><th scope=\"row\"><bdi>row</bdi> <small>B3/S23</small></th><td>28</td><td><div>puffer of period 288 that moves (24, 24) and leaves</div><ul><li><svg role=\"img\" width=\"16\" height=\"16\" viewBox=\"0 -.5 2 2\" class=\"g\"><title>2 by 2 cells</title><path d=\"M0 0h2M0 1h2\"/></svg><code>xs4_33</code> <small>&times; 8</small></li></ul><div>3&nbsp;puffers of period 1,000 that move (-1, 0) and leave</div><ul><li><svg role=\"img\" width=\"8\" height=\"24\" viewBox=\"0 -.5 1 3\" class=\"g\"><title>1 by 3 cells</title><path d=\"M0 0h1M0 1h1M0 2h1\"/></svg><code>xp2_7</code> <small>&times; 1,234</small></li><li><svg role=\"img\" width=\"16\" height=\"16\" viewBox=\"0 -.5 2 2\" class=\"g\"><title>2 by 2 cells</title><path d=\"M0 0h2M0 1h2\"/></svg><code>xs4_33</code> <small>&times; 1</small></li><li><svg role=\"img\" width=\"24\" height=\"24\" viewBox=\"0 -.5 3 3\" class=\"g\"><title>3 by 3 cells</title><path d=\"M0 0h3M2 1h1M1 2h1\"/></svg><code>xq4_153</code> <small>&times; 2</small></li></ul></td></tr>
<tr class=\"u\"><th scope=\"row\"><bdi>n</bdi> <small>B3/S23</small></th><td>5</td><td>unresolved within the bound</td></tr>
</tbody>
</table>
</section>
";

// Names of codes: one of a pattern's code, one with markup in it, and one of a code that no report has.
const NAMES: &[u8] = b"xs4_33\tblock
xq4_153\t</b><script>\"'&
xp2_111\tblinker
";

const BLOCK: &str = "<code>xs4_33</code>";

const BLINKER: &str = "<code>xp2_7</code>";

const FIFTEEN: &str = "<code>xp15_4r4z4r4</code>";

const GLIDER: &str = "<code>xq4_153</code>";

// The default options of a page.
const PLAIN: PageOptions<'static> = PageOptions {
    title: b"Census",
    note: b"",
    sort: Sort::Report,
    top: None,
    base: None,
    links: false,
    patterns: true,
};

// The options of a page with the codes in an order.
macro_rules! sorted {
    ($sort:ident) => {
        PageOptions {
            sort: Sort::$sort,
            patterns: false,
            ..PLAIN
        }
    };
}

/// Options, a text of names if there is one, a report, parts that the page has one after another, and parts that it has
/// nowhere.
type Case = (
    PageOptions<'static>,
    Option<&'static [u8]>,
    &'static [u8],
    &'static [&'static str],
    &'static [&'static str],
);

const CASES: &[Case] = &[
    (
        sorted!(Report),
        None,
        REPORT,
        &[
            "<dt>Kinds of objects</dt><dd>4</dd>",
            "<dt>Objects</dt><dd>5</dd>",
            "Others <small>1</small>",
            "<h2><bdi>c d</bdi></h2>\n<p><bdi>a&amp;b/c d</bdi></p>\n<p>Patterns: 6.",
            "refused: 0. 4 kinds of objects, 5 objects.</p>",
            BLOCK,
            BLINKER,
            "<bdi>Blinker</bdi> <small>population 3, onset 0</small></li></ul><small>and 1 other</small>",
            FIFTEEN,
            GLIDER,
            "<bdi>n</bdi> <small>B3/S23</small></th><td>5</td><td>unresolved within the bound</td>",
        ],
        &[
            "<bdi>g</bdi>",
            "<bdi>z</bdi>",
            "catagolue",
            "example",
            "Left out",
            "Life spans",
            "<b>",
        ],
    ),
    (
        sorted!(Count),
        None,
        REPORT,
        &[BLINKER, BLOCK, FIFTEEN, GLIDER],
        &[],
    ),
    (
        sorted!(Rare),
        None,
        REPORT,
        &[BLOCK, FIFTEEN, GLIDER, BLINKER],
        &[],
    ),
    (
        PLAIN,
        Some(NAMES),
        REPORT,
        &[
            "<p><b>block</b>, still life of 4 cells</p>",
            "<p>oscillator of period 2</p>",
            "<p>oscillator of period 15</p>",
            "<p><b>&lt;/b&gt;&lt;script&gt;&quot;&#39;&amp;</b>, spaceship c/4 diagonal, period 4</p>",
        ],
        &["<script", "blinker"],
    ),
    (
        sorted!(Code),
        None,
        REPORT,
        &[BLINKER, BLOCK, GLIDER, FIFTEEN],
        &[],
    ),
    (
        sorted!(Period),
        None,
        REPORT,
        &[FIFTEEN, GLIDER, BLINKER, BLOCK],
        &[],
    ),
    (
        sorted!(Name),
        None,
        REPORT,
        &[BLINKER, FIFTEEN, BLOCK, GLIDER],
        &[],
    ),
    (
        PageOptions {
            sort: Sort::Period,
            top: Some(2),
            ..PLAIN
        },
        None,
        REPORT,
        &[
            "Still lifes <small>1</small>",
            "<p>oscillator of period 15</p>",
            "<p>spaceship c/4 diagonal, period 4</p>",
            "</table>\n<p>Left out: 2 more kinds of objects.</p>\n",
        ],
        &[
            "<p>oscillator of period 2</p>",
            "<p>still life of 4 cells</p>",
        ],
    ),
    (
        PageOptions {
            base: Some(b"https://example.org/?a=1&b=\"<'>\xff/"),
            links: true,
            ..PLAIN
        },
        None,
        REPORT,
        &[
            "<a href=\"https://example.org/?a=1&amp;b=&quot;&lt;&#39;&gt;\u{fffd}/a%26b/c%20d/block\"><bdi>block</bdi></a> <small>population 4",
            "<code><a href=\"https://catagolue.hatsya.com/object/xq4_153/b3s23\">xq4_153</a></code>",
            "/a%26b/c%20d/q%22%3C%27%3E%2F%FF\"><bdi>q&quot;&lt;&#39;&gt;/\u{fffd}</bdi></a>",
            "/a%26b/c%20d/n\"><bdi>n</bdi></a> <small>B3/S23</small></th>",
        ],
        &[GLIDER, BLOCK],
    ),
    (
        PageOptions {
            title: b"</title><script>alert(\"1\")</script>\0\xff",
            note: b"</p>&lt;'\x1b[31m\xc3",
            ..PLAIN
        },
        None,
        b"end 0 0\n",
        &[
            "<h1>&lt;/title&gt;&lt;script&gt;alert(&quot;1&quot;)&lt;/script&gt;\0\u{fffd}</h1>",
            "<p>&lt;/p&gt;&amp;lt;&#39;\x1b[31m\u{fffd}</p>",
        ],
        &["<script"],
    ),
    (
        PLAIN,
        None,
        GROWTH,
        &["Others <small>6</small>", GROWTH_TABLE],
        &[],
    ),
];

// True where a text has these parts one after another.
fn stand_in_order(text: &str, parts: &[&str]) -> bool {
    let mut left = text;
    for part in parts {
        match left.split_once(*part) {
            Some((_, rest)) => left = rest,
            None => return false,
        }
    }
    true
}

#[test]
fn a_page_has_what_is_asked_for(rt: HostRuntime) -> Result<(), Fail> {
    assert!(rt; default_options() == PLAIN);
    for (options, names, report, parts, absent) in CASES {
        let form = Form::Page {
            options: *options,
            names: *names,
        };
        let mut streams = Streams::new(*report, Vec::new(rt.alloc()), Vec::new(rt.alloc()));
        let reading = Reading {
            cut: false,
            limit: None,
        };
        write_reports(&rt, rt.alloc(), form, reading, &[], &mut streams)?;
        let (_, output, _) = streams.into_inner();
        let text = str::from_utf8(&output)?;
        assert!(rt; stand_in_order(text, parts), "{parts:?}");
        for part in *absent {
            assert!(rt; !text.contains(*part), "{part}");
        }
    }
    Ok(())
}

#[test]
fn a_page_of_many_patterns_says_how_long_they_live(rt: HostRuntime) -> Result<(), Fail> {
    let mut report = format!(in rt.alloc(); "open 1 100 s\n")?;
    for index in 0u64..100 {
        let onset = index * index;
        let line = format!(in rt.alloc();
            "line 1 {} ok B3/S23 4 {onset} 1 0 0 xs4_33 p{index}\n",
            index + 1
        )?;
        report.push_str(line.as_str())?;
    }
    report.push_str("code 1 B3/S23 xs4_33 100\nclose 1 100 100 0 0\nend 1 100\n")?;
    let form = Form::Page {
        options: PLAIN,
        names: None,
    };
    let mut streams = Streams::new(
        report.as_bytes(),
        Vec::new(rt.alloc()),
        Vec::new(rt.alloc()),
    );
    let reading = Reading {
        cut: false,
        limit: None,
    };
    write_reports(&rt, rt.alloc(), form, reading, &[], &mut streams)?;
    let (_, output, _) = streams.into_inner();
    let text = str::from_utf8(&output)?;
    let parts = [
        "text-anchor=\"end\">0&ndash;999</text>",
        "width=\"140\"/><text x=\"254\" y=\"12\">32</text>",
        "text-anchor=\"end\">9,000&ndash;9,999</text>",
        ">5</text></svg>\n<p>Life spans of 100 patterns, as their onsets. Median: 2,450.5. The longest:</p>\n",
        "<ul><li><bdi>p99</bdi> <small>onset 9,801</small></li><li><bdi>p98</bdi>",
        "<bdi>p90</bdi> <small>onset 8,100</small></li></ul>\n<table",
        "<li><bdi>p2</bdi> <small>population 4, onset 4</small></li></ul><details><summary>97 more</summary>",
    ];
    assert!(rt; stand_in_order(text, &parts));
    Ok(())
}
