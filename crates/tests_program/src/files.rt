//! The response of the program where it reads folders and files of a disk.

use crate::program::called;
use std::rt::Files;
use std::test::Fail;
use std::{fs, io};

const TREE: &str = "tests_tree";

// A folder is not a file, even if its name ends in `.rle`.
const FOLDERS: &[&str] = &[
    "tests_tree",
    "tests_tree/below",
    "tests_tree/below/deeper",
    "tests_tree/a.rle",
];

const FILES: &[(&str, &[u8])] = &[
    ("tests_tree/b.rle", b"x = 3, y = 3\n3o!"),
    ("tests_tree/b.mc", b""),
    ("tests_tree/below/deeper/c.rle", b"x = 3, y = 3\n2o$2o!"),
    ("tests_tree/below/deeper/d.rle", b"x = 3\n3o!"),
    ("tests_tree/names", b"xp2_7\tblinker\n"),
    ("tests_tree/claims", b"name,period\np,2\nq,3\n"),
];

const REPORT: &[u8] = b"open 1 2 r
line 1 1 ok B3/S23 3 0 2 0 0 xp2_7 p
line 1 2 ok B3/S23 3 0 2 0 0 xp2_7 q
code 1 B3/S23 xp2_7 2
close 1 2 2 0 0
end 1 2
";

/// The arguments, standard input, the exit status, standard output and standard error.
type Call = (
    &'static [&'static str],
    &'static [u8],
    u8,
    &'static [u8],
    &'static [u8],
);

const CALLS: &[Call] = &[
    (
        &["run", "-rk", "-w1", "--explain", TREE, "tests_tree/missing"],
        b"",
        4,
        b"open 1 2 tests_tree
open 2 2 tests_tree/below/deeper
open 3 0 tests_tree/missing
close 3 0 0 0 0
line 1 1 bad 0 a.rle
line 1 2 ok B3/S23 3 0 2 0 0 xp2_7 b.rle
code 1 B3/S23 xp2_7 1
close 1 2 1 0 1
line 2 1 ok B3/S23 4 0 1 0 0 xs4_33 c.rle
line 2 2 bad 2 d.rle
code 2 B3/S23 xs4_33 1
close 2 2 1 0 1
end 3 4
",
        b"census: lost tests_tree/a.rle
census: lost tests_tree/missing
  tests_tree/a.rle: reading failed: a folder must be one that can be listed, and a file a regular file that can be read
  tests_tree/below/deeper/d.rle:1:1: the header line is malformed: it must have the form `x = 3, y = 3` or `x = 3, y = 3, rule = B3/S23`
  collections without a pattern: 1; names passed over that look like patterns: 1; the name of a pattern file must end in `.rle`
",
    ),
    (
        &["run", "-r", "tests_tree"],
        b"",
        4,
        b"",
        b"census: read failed\n",
    ),
    (
        &["objects", "tests_tree/below/deeper", "--explain", " a"],
        b"",
        1,
        b"",
        b"census: folder fault 1\n   a: the name of a folder or of a file is not lawful: it must have 1 to 255 bytes, none of them a control character, and no blank at either end\n",
    ),
    (
        &[
            "identify",
            "--json",
            "--names",
            "tests_tree/names",
            "tests_tree/b.rle",
            "tests_tree/missing",
            "-",
        ],
        b"x",
        4,
        b"{\"apgcode\":\"xp2_7\",\"box\":[3,1],\"displacement\":[0,0],\"file\":\"tests_tree/b.rle\",\"name\":\"blinker\",\"onset\":0,\"period\":2,\"population\":3,\"rule\":\"B3/S23\"}\n",
        b"census: tests_tree/missing: No such file or directory (os error 2)
census: -:1:1: the header line is malformed: it must have the form `x = 3, y = 3` or `x = 3, y = 3, rule = B3/S23` (rle fault 2)
",
    ),
    (
        &["advance", "1", "tests_tree/b.rle"],
        b"",
        0,
        b"x = 1, y = 3, rule = B3/S23\no$o$o!\n",
        b"",
    ),
    (
        &["table", "--codes", "--names", "tests_tree/names"],
        REPORT,
        0,
        b"rule,code,common_name,count,patterns,first_collection_name,first_name,share\nB3/S23,xp2_7,blinker,2,2,r,p,1.000000\n",
        b"",
    ),
    (
        &["verify", "--explain", "tests_tree/claims"],
        REPORT,
        5,
        b"wrong q period 3 2\n",
        b"census: compared: period\n",
    ),
    (
        &["verify", "-", "tests_tree/claims", "--explain"],
        b"name\n",
        1,
        b"",
        b"census: tests_tree/claims: report fault at line 1\n  tests_tree/claims:1: a line is not one that a report has in this place: it must be as `census run` or `census objects` writes it\n",
    ),
    (
        &["merge", "--cut", "--input=1000"],
        REPORT_CUT,
        0,
        b"open 1 0 a\nclose 1 0 0 0 0\nend 1 0\n",
        b"census: cut after line 2: 1 collections kept, 0 left out\n",
    ),
];

const REPORT_CUT: &[u8] = b"open 1 0 a\nclose 1 0 0 0 0\nend";

fn grow<R: Files + Alloc + Clone + Drop>(rt: &R) -> io::Result<()> {
    for folder in FOLDERS {
        fs::create_dir(rt, folder)?;
    }
    for (path, text) in FILES {
        fs::write(rt, path, *text)?;
    }
    Ok(())
}

#[test]
fn folders_and_files_are_read(rt: HostRuntime) -> Result<(), Fail> {
    let _ = fs::remove_dir_all(&rt, TREE);
    grow(&rt)?;
    for (words, input, wanted, written, told) in CALLS {
        let ends = (*input, Vec::new(rt.alloc()), Vec::new(rt.alloc()));
        let (status, output, errors) = called(&rt, rt.alloc(), words, ends);
        assert!(rt;
            status == *wanted && output.as_slice() == *written,
            "{words:?}"
        );
        assert!(rt; errors.as_slice() == *told, "{words:?}");
    }
    fs::remove_dir_all(&rt, TREE)?;
    Ok(())
}
