//! The response of the program to a command line: its exit status and its output to the standard streams.

use crate::program::{called, called_through};
use census_crew::OpenGate;

const GLIDER: &[u8] = b"x = 3, y = 3, rule = B3/S23\r\nbo$2bo$3o!";

// Gosper's glider gun.
const GUN: &[u8] = b"x = 36, y = 9, rule = B3/S23
24bo$22bobo$12b2o6b2o12b2o$11bo3bo4b2o12b2o$2o8bo5bo3b2o$2o8bo3bob2o4bobo$10bo5bo7bo$11bo3bo$12b2o!
";

// A traffic light after whose end the next pattern is lost, a text without its end, and a folder without a pattern.
const BUNDLE: &[u8] = b"@folder f
@file l
x = 9, y = 9
4bo$4bo$4bo2$3o3b3o2$4bo$4bo$4bo!@file m
@file broken
x = 3, y = 1
3o
@folder none
";

const OBJECTS: &[u8] = b"open 1 2 f
open 2 0 none
close 2 0 0 0 0
line 1 1 ash B3/S23 12 0 4 l
part 1 1 xp2_7 4
line 1 2 bad 10 broken
code 1 B3/S23 xp2_7 4
close 1 2 1 0 1
end 2 2
";

const NEAR: &[u8] = b"open 1 2 f
open 2 0 none
close 2 0 0 0 0
line 1 1 ok B3/S23 12 0 2 0 0 xp2_s01110szw222 l
line 1 2 bad 10 broken
code 1 B3/S23 xp2_s01110szw222 1
close 1 2 1 0 1
end 2 2
";

const REFUSALS: &[u8] = b"  f/broken:3:1: the text ends too early: its body must end with `!`
  f/l: `@file ` or `@folder ` stands after the `!` of a text, on a line that something else begins: the next pattern may be lost in it
  collections without a pattern: 1
";

const GUN_BUNDLE: &[u8] = b"@folder g
@file gun
x = 36, y = 9, rule = B3/S23
24bo$22bobo$12b2o6b2o12b2o$11bo3bo4b2o12b2o$2o8bo5bo3b2o$2o8bo3bob2o4bobo$10bo5bo7bo$11bo3bo$12b2o!
";

const GROWS: &[u8] = b"open 1 1 g
line 1 1 grows B3/S23 36 1 gun
engine 1 1 1 30 0 0 1
emits 1 1 1 xq4_153 1
close 1 1 1 0 0
end 1 1
";

const GUN_BLOCK: &[u8] = b"rule B3/S23
population 36
box 36 9
engines 1
engine 1 30 0 0 1
emits 1 xq4_153 1
";

const CODE_FAULT: &[u8] = b"census: code fault 1
  1:5: the code has no body: something must follow its first `_`, as `153` in `xq4_153`
";

/// The arguments, whether standard error is a terminal, standard input, the exit status, standard output and standard error.
type Call = (
    &'static [&'static str],
    bool,
    &'static [u8],
    u8,
    &'static [u8],
    &'static [u8],
);

const CALLS: &[Call] = &[
    (
        &["advance", "1"],
        false,
        GLIDER,
        0,
        b"x = 3, y = 3, rule = B3/S23\nobo$b2o$bo!\n",
        b"",
    ),
    (
        &["advance", "1", "--explain"],
        false,
        b"x = 3, y = 3\n3o1 2b!",
        1,
        b"",
        b"census: rle fault 7 at 15\n  2:3: a count is 0 or has nothing to count: it must be 1 or more and stand before a cell or `$`\n",
    ),
    (
        &["draw", "--rule", "23/36", "xs4_33"],
        false,
        b"",
        0,
        b"x = 2, y = 2, rule = B36/S23\n2o$2o!\n",
        b"",
    ),
    (&["draw", "xq4_"], true, b"", 1, b"", CODE_FAULT),
    (
        &["run"],
        false,
        b"@folder a\n@fold b",
        1,
        b"",
        b"census: bundle fault 3 at line 2\n",
    ),
    (
        &["objects", "-b", "2", "-w", "16"],
        true,
        BUNDLE,
        0,
        OBJECTS,
        REFUSALS,
    ),
    (
        &["objects", "-b2", "--near", "-w1"],
        false,
        BUNDLE,
        0,
        NEAR,
        b"",
    ),
    (&["objects", "-b", "200"], false, GUN_BUNDLE, 0, GROWS, b""),
    (&["identify", "-b200"], false, GUN, 0, GUN_BLOCK, b""),
    (
        &["identify", "-b200", "--json"],
        false,
        GUN,
        0,
        b"{\"box\":[36,9],\"engines\":[{\"count\":1,\"displacement\":[0,0],\"emits\":[{\"code\":\"xq4_153\",\"count\":1}],\"period\":30}],\"population\":36,\"rule\":\"B3/S23\"}\n",
        b"",
    ),
];

#[test]
fn commands_are_answered(rt: HostRuntime) {
    for (words, is_terminal, input, wanted, written, told) in CALLS {
        let (status, output, errors) = called_through(
            &rt,
            rt.alloc(),
            words,
            &mut OpenGate,
            (*input, Vec::new(rt.alloc()), Vec::new(rt.alloc())),
            *is_terminal,
        );
        assert!(rt; status == *wanted, "{words:?}");
        assert!(rt;
            output.as_slice() == *written && errors.as_slice() == *told,
            "{words:?}"
        );
    }
}

#[test]
fn words_that_are_refused_and_help(rt: HostRuntime) {
    const REFUSED: &[&[&str]] = &[
        &[],
        &["advance", "4194305"],
        &["draw", "0", "1"],
        &["table", "--codes", "--parts"],
        &["page", "--base", "ftp://a"],
    ];
    for words in REFUSED {
        let ends = (b"".as_slice(), Vec::new(rt.alloc()), Vec::new(rt.alloc()));
        let (status, output, errors) = called(&rt, rt.alloc(), words, ends);
        let errors = errors.as_slice();
        assert!(rt; status == 2 && output.is_empty(), "{words:?}");
        assert!(rt;
            errors.starts_with(b"error: ") && errors.ends_with(b"\n"),
            "{words:?}"
        );
    }
    const HELPED: &[&[&str]] = &[&["--help"], &["help", "draw"], &["advance", "-h"]];
    for words in HELPED {
        let ends = (b"".as_slice(), Vec::new(rt.alloc()), Vec::new(rt.alloc()));
        let (status, output, errors) = called(&rt, rt.alloc(), words, ends);
        assert!(rt; status == 0 && errors.is_empty(), "{words:?}");
        assert!(rt;
            output.len() > 100 && output.as_slice().ends_with(b"\n"),
            "{words:?}"
        );
    }
}
