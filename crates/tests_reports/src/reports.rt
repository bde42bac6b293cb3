//! Reports from a file and standard input, written as one report, as tables, as groups of patterns that are one object, and as
//! a verdict.

use crate::ends::{FailingReader, FailingWriter};
use census_folders::{ShelfFault, Unread};
use census_merge::Cut;
use census_readback::read_report;
use census_reports::{Form, Reading, ReportsError, TextKind, merge_reports, write_reports};
use census_rows::Rows;
use census_table::{Choice, Format, Subject, put_listing, table_of};
use std::fs;
use std::test::Fail;
use watched::{Block, Output, Streams, send};

// The file that has the first report.
const FILE: &str = "tests_reports_first";

// The reason why a missing file can't be read.
const MISSING: Unread = Unread {
    code: Some(2),
    is_file: false,
};

const FIRST: &[u8] = b"open 1 2 a
line 1 1 ok B3/S23 4 0 1 0 0 xs4_33 block
line 1 2 bad 10 broken
code 1 B3/S23 xs4_33 1
close 1 2 1 0 1
end 1 2
";

// Two reports.
const SECOND: &[u8] = b"open 2 0 c
open 1 1 b
line 1 1 none B3/S23 5 r
close 2 0 0 0 0
close 1 1 0 1 0
end 2 1
end 0 0
";

const MERGED: &[u8] = b"open 1 2 a
line 1 1 ok B3/S23 4 0 1 0 0 xs4_33 block
line 1 2 bad 10 broken
code 1 B3/S23 xs4_33 1
close 1 2 1 0 1
open 3 0 c
open 2 1 b
line 2 1 none B3/S23 5 r
close 3 0 0 0 0
close 2 1 0 1 0
end 3 3
";

const CSV: &[u8] =
    b"collection,collection_name,pattern,name,status,rule,population,onset,period,dx,dy,code,fault,collection_name_hex,name_hex,objects,generation,engines,fault_text
1,a,1,block,ok,B3/S23,4,0,1,0,0,xs4_33,,,,,,,
1,a,2,broken,bad,,,,,,,,10,,,,,,the text ends too early: its body must end with `!`
2,b,1,r,none,B3/S23,5,,,,,,,,,,,,
";

// A report that was cut in its fourth line.
const CUT: &[u8] = b"open 2 0 d\nopen 1 0 e\nclose 2 0 0 0 0\ncl";

// Two collections that interleave, and a second report, with engines one of which emits two codes, two kinds of parts,
// and faults: of a file that can't be read, of a text, and one that has no sentence.
const ALL_KINDS: &[u8] = b"open 2 3 second
open 1 3 first
line 2 1 ash B3/S23 9 12 3 two kinds
part 2 1 xp2_7 1
part 2 1 xs4_33 2
line 1 1 grows B3/S23 60 3 guns
engine 1 1 1 30 0 0 2
emits 1 1 1 xq4_153 1
engine 1 1 2 288 24 -24 1
emits 1 1 2 xs4_33 8
emits 1 1 2 xq4_153 2
line 2 2 none B3/S23 5 =1
line 1 2 bad 0 lost
line 2 3 large B36/S23 5 100 wide
line 1 3 bad 10 broken
code 2 B3/S23 xp2_7 1
code 2 B3/S23 xs4_33 2
close 2 3 1 2 0
close 1 3 1 0 2
end 2 6
open 1 2 third
line 1 1 ok B3/S23 5 0 4 -1 1 xq4_153 glider
line 1 2 bad 10 later
code 1 B3/S23 xq4_153 1
close 1 2 1 0 1
end 1 2
";

const SAFE: &[u8] =
    b"collection,collection_name,pattern,name,status,rule,population,onset,period,dx,dy,code,fault,collection_name_hex,name_hex,objects,generation,engines,fault_text
1,first,1,guns,grows,B3/S23,60,,,,,,,,,,,3,
1,first,2,lost,bad,,,,,,,,0,,,,,,the file can't be read
1,first,3,broken,bad,,,,,,,,10,,,,,,the text ends too early: its body must end with `!`
2,second,1,two kinds,ash,B3/S23,9,12,,,,,,,,3,,,
2,second,2,'=1,none,B3/S23,5,,,,,,,,,,,,
2,second,3,wide,large,B36/S23,5,,,,,,,,,,100,,
3,third,1,glider,ok,B3/S23,5,0,4,-1,1,xq4_153,,,,,,,
3,third,2,later,bad,,,,,,,,10,,,,,,the text ends too early: its body must end with `!`
";

const JSON: &[u8] =
    b"{\"code\":null,\"collection\":1,\"collection_name\":\"first\",\"collection_name_hex\":null,\"dx\":null,\"dy\":null,\"engines\":[{\"count\":2,\"displacement\":[0,0],\"emits\":[{\"code\":\"xq4_153\",\"count\":1}],\"period\":30},{\"count\":1,\"displacement\":[24,-24],\"emits\":[{\"code\":\"xs4_33\",\"count\":8},{\"code\":\"xq4_153\",\"count\":2}],\"period\":288}],\"fault\":null,\"fault_text\":null,\"generation\":null,\"name\":\"guns\",\"name_hex\":null,\"objects\":null,\"onset\":null,\"parts\":null,\"pattern\":1,\"period\":null,\"population\":60,\"rule\":\"B3/S23\",\"status\":\"grows\"}
{\"code\":null,\"collection\":1,\"collection_name\":\"first\",\"collection_name_hex\":null,\"dx\":null,\"dy\":null,\"engines\":null,\"fault\":0,\"fault_text\":\"the file can't be read\",\"generation\":null,\"name\":\"lost\",\"name_hex\":null,\"objects\":null,\"onset\":null,\"parts\":null,\"pattern\":2,\"period\":null,\"population\":null,\"rule\":null,\"status\":\"bad\"}
{\"code\":null,\"collection\":1,\"collection_name\":\"first\",\"collection_name_hex\":null,\"dx\":null,\"dy\":null,\"engines\":null,\"fault\":10,\"fault_text\":\"the text ends too early: its body must end with `!`\",\"generation\":null,\"name\":\"broken\",\"name_hex\":null,\"objects\":null,\"onset\":null,\"parts\":null,\"pattern\":3,\"period\":null,\"population\":null,\"rule\":null,\"status\":\"bad\"}
{\"code\":null,\"collection\":2,\"collection_name\":\"second\",\"collection_name_hex\":null,\"dx\":null,\"dy\":null,\"engines\":null,\"fault\":null,\"fault_text\":null,\"generation\":null,\"name\":\"two kinds\",\"name_hex\":null,\"objects\":3,\"onset\":12,\"parts\":[{\"code\":\"xp2_7\",\"count\":1},{\"code\":\"xs4_33\",\"count\":2}],\"pattern\":1,\"period\":null,\"population\":9,\"rule\":\"B3/S23\",\"status\":\"ash\"}
{\"code\":null,\"collection\":2,\"collection_name\":\"second\",\"collection_name_hex\":null,\"dx\":null,\"dy\":null,\"engines\":null,\"fault\":null,\"fault_text\":null,\"generation\":null,\"name\":\"=1\",\"name_hex\":null,\"objects\":null,\"onset\":null,\"parts\":null,\"pattern\":2,\"period\":null,\"population\":5,\"rule\":\"B3/S23\",\"status\":\"none\"}
{\"code\":null,\"collection\":2,\"collection_name\":\"second\",\"collection_name_hex\":null,\"dx\":null,\"dy\":null,\"engines\":null,\"fault\":null,\"fault_text\":null,\"generation\":100,\"name\":\"wide\",\"name_hex\":null,\"objects\":null,\"onset\":null,\"parts\":null,\"pattern\":3,\"period\":null,\"population\":5,\"rule\":\"B36/S23\",\"status\":\"large\"}
{\"code\":\"xq4_153\",\"collection\":3,\"collection_name\":\"third\",\"collection_name_hex\":null,\"dx\":-1,\"dy\":1,\"engines\":null,\"fault\":null,\"fault_text\":null,\"generation\":null,\"name\":\"glider\",\"name_hex\":null,\"objects\":null,\"onset\":0,\"parts\":null,\"pattern\":1,\"period\":4,\"population\":5,\"rule\":\"B3/S23\",\"status\":\"ok\"}
{\"code\":null,\"collection\":3,\"collection_name\":\"third\",\"collection_name_hex\":null,\"dx\":null,\"dy\":null,\"engines\":null,\"fault\":10,\"fault_text\":\"the text ends too early: its body must end with `!`\",\"generation\":null,\"name\":\"later\",\"name_hex\":null,\"objects\":null,\"onset\":null,\"parts\":null,\"pattern\":2,\"period\":null,\"population\":null,\"rule\":null,\"status\":\"bad\"}
";

const PARTS: &[u8] = b"collection,collection_name,pattern,name,rule,code,count
2,second,1,two kinds,B3/S23,xp2_7,1
2,second,1,two kinds,B3/S23,xs4_33,2
";

const NAMED_CODES: &[u8] =
    b"{\"code\":\"xs4_33\",\"common_name\":\"block\",\"count\":2,\"first_collection_name\":\"second\",\"first_name\":\"two kinds\",\"patterns\":1,\"rule\":\"B3/S23\",\"share\":0.500000}
{\"code\":\"xp2_7\",\"common_name\":null,\"count\":1,\"first_collection_name\":\"second\",\"first_name\":\"two kinds\",\"patterns\":1,\"rule\":\"B3/S23\",\"share\":0.250000}
{\"code\":\"xq4_153\",\"common_name\":null,\"count\":1,\"first_collection_name\":\"third\",\"first_name\":\"glider\",\"patterns\":1,\"rule\":\"B3/S23\",\"share\":0.250000}
";

const RARE_UNNAMED: &[u8] =
    b"rule,code,common_name,count,patterns,first_collection_name,first_name,share
B3/S23,xp2_7,,1,1,second,two kinds,0.250000
B3/S23,xq4_153,,1,1,third,glider,0.250000
";

const RARE: &[u8] = b"rule,code,count,patterns,first_collection_name,first_name,share
B3/S23,xp2_7,1,1,second,two kinds,0.250000
B3/S23,xq4_153,1,1,third,glider,0.250000
B3/S23,xs4_33,2,1,second,two kinds,0.500000
";

const ENGINES: &[u8] =
    b"collection,collection_name,pattern,name,rule,engine,kind,period,dx,dy,count,emits,emits_count
1,first,1,guns,B3/S23,1,gun,30,0,0,2,xq4_153,1
1,first,1,guns,B3/S23,2,puffer,288,24,-24,1,xs4_33,8
1,first,1,guns,B3/S23,2,puffer,288,24,-24,1,xq4_153,2
";

const ENGINES_JSON: &[u8] =
    b"{\"collection\":1,\"collection_name\":\"first\",\"collection_name_hex\":null,\"count\":2,\"dx\":0,\"dy\":0,\"emits\":\"xq4_153\",\"emits_count\":1,\"engine\":1,\"kind\":\"gun\",\"name\":\"guns\",\"name_hex\":null,\"pattern\":1,\"period\":30,\"rule\":\"B3/S23\"}
{\"collection\":1,\"collection_name\":\"first\",\"collection_name_hex\":null,\"count\":1,\"dx\":24,\"dy\":-24,\"emits\":\"xs4_33\",\"emits_count\":8,\"engine\":2,\"kind\":\"puffer\",\"name\":\"guns\",\"name_hex\":null,\"pattern\":1,\"period\":288,\"rule\":\"B3/S23\"}
{\"collection\":1,\"collection_name\":\"first\",\"collection_name_hex\":null,\"count\":1,\"dx\":24,\"dy\":-24,\"emits\":\"xq4_153\",\"emits_count\":2,\"engine\":2,\"kind\":\"puffer\",\"name\":\"guns\",\"name_hex\":null,\"pattern\":1,\"period\":288,\"rule\":\"B3/S23\"}
";

// Codes in their two orders, and those without a name.
const COMMON: Subject = Subject::Codes(Choice {
    rare: false,
    unnamed: false,
});

const RAREST: Subject = Subject::Codes(Choice {
    rare: true,
    unnamed: false,
});

const RAREST_UNNAMED: Subject = Subject::Codes(Choice {
    rare: true,
    unnamed: true,
});

const SAME: &[u8] = b"B3/S23 xs4_33
  a/block
  a/block
";

const SAME_JSON: &[u8] =
    b"{\"code\":\"xs4_33\",\"collection_name\":\"a\",\"collection_name_hex\":null,\"name\":\"block\",\"name_hex\":null,\"rule\":\"B3/S23\"}
{\"code\":\"xs4_33\",\"collection_name\":\"a\",\"collection_name_hex\":null,\"name\":\"block\",\"name_hex\":null,\"rule\":\"B3/S23\"}
";

// A table with a row for each of these, in this format, with the names of a text.
macro_rules! table {
    ($subject:expr, $format:expr, $names:expr $(,)?) => {
        Form::Table {
            subject: $subject,
            format: $format,
            names: $names,
        }
    };
}

const CSV_FORM: Form<'static> = table!(Subject::Patterns, Format::Csv { safe: false }, None);

// Arguments for the file and standard input, or for standard input alone.
const BOTH: &[&str] = &[FILE, "-"];

const INPUT: &[&str] = &[];

/// A form, arguments, standard input, and the output that is made of them, or the fault for which there is none.
type Case = (
    Form<'static>,
    &'static [&'static str],
    &'static [u8],
    Result<&'static [u8], ReportsError>,
);

const CASES: &[Case] = &[
    (Form::Merged, BOTH, SECOND, Ok(MERGED)),
    (CSV_FORM, BOTH, SECOND, Ok(CSV)),
    (
        table!(Subject::Patterns, Format::Csv { safe: true }, None),
        INPUT,
        ALL_KINDS,
        Ok(SAFE),
    ),
    (
        table!(Subject::Patterns, Format::Json, None),
        INPUT,
        ALL_KINDS,
        Ok(JSON),
    ),
    (
        table!(Subject::Parts, Format::Csv { safe: false }, None),
        INPUT,
        ALL_KINDS,
        Ok(PARTS),
    ),
    (
        table!(COMMON, Format::Json, Some(b"# names\nxs4_33\tblock\n")),
        INPUT,
        ALL_KINDS,
        Ok(NAMED_CODES),
    ),
    (
        table!(COMMON, Format::Json, Some(b"a\tb\na\tc\n")),
        INPUT,
        ALL_KINDS,
        Err(ReportsError::Names { line: 2 }),
    ),
    (Form::Same { json: false }, BOTH, FIRST, Ok(SAME)),
    (Form::Same { json: true }, BOTH, FIRST, Ok(SAME_JSON)),
    (
        Form::Verdict {
            claims: b"name,period\nblock,2\n",
        },
        INPUT,
        FIRST,
        Ok(b"wrong block period 2 1\nunclaimed a/broken\n"),
    ),
    (
        Form::Verdict {
            claims: b"name,period\nblock,one\n",
        },
        INPUT,
        FIRST,
        Err(ReportsError::Claims {
            line: 2,
            is_named: false,
        }),
    ),
    (
        Form::Merged,
        BOTH,
        CUT,
        Err(ReportsError::Fault {
            text: 2,
            line: 4,
            kind: TextKind::Other,
        }),
    ),
    (
        Form::Merged,
        &["-", "none"],
        FIRST,
        Err(ReportsError::Unread {
            text: 2,
            fault: ShelfFault::Unread(MISSING),
        }),
    ),
];

// Cases for tables of codes in their orders, and for tables of engines.
const TABLES: &[Case] = &[
    (
        table!(RAREST, Format::Csv { safe: false }, None),
        INPUT,
        ALL_KINDS,
        Ok(RARE),
    ),
    (
        table!(
            RAREST_UNNAMED,
            Format::Csv { safe: false },
            Some(b"xs4_33\tblock\n"),
        ),
        INPUT,
        ALL_KINDS,
        Ok(RARE_UNNAMED),
    ),
    (
        table!(Subject::Engines, Format::Csv { safe: false }, None),
        INPUT,
        ALL_KINDS,
        Ok(ENGINES),
    ),
    (
        table!(Subject::Engines, Format::Json, None),
        INPUT,
        ALL_KINDS,
        Ok(ENGINES_JSON),
    ),
];

// Texts are read as they are, however long all of them are together.
const PLAIN: Reading = Reading {
    cut: false,
    limit: None,
};

// The output for reports, where there is enough memory, is that of these cases.
macro_rules! makes {
    ($rt:ident, $cases:expr $(,)?) => {
        for (form, words, input, wanted) in $cases {
            let mut streams = Streams::new(*input, Vec::new($rt.alloc()), Vec::new($rt.alloc()));
            let result = write_reports(&$rt, $rt.alloc(), *form, PLAIN, words, &mut streams);
            let (_, output, _) = streams.into_inner();
            let (found, text) = match (result, wanted) {
                (Ok(written), Ok(text)) => (Ok(written.found), *text),
                (Ok(written), Err(_)) => (Ok(written.found), b"".as_slice()),
                (Err(error), _) => (Err(error), b"".as_slice()),
            };
            let looks = matches!(form, Form::Same { .. } | Form::Verdict { .. });
            assert!($rt; found == wanted.map(|_| looks), "{form:?}");
            assert!($rt; output.as_slice() == text, "{form:?}");
        }
    };
}

#[test]
fn reports_of_a_file_and_of_standard_input(rt: HostRuntime) -> Result<(), Fail> {
    fs::write(&rt, FILE, FIRST)?;
    makes!(rt, CASES);
    fs::remove_file(&rt, FILE)?;
    Ok(())
}

#[test]
fn tables_of_codes_and_of_engines(rt: HostRuntime) -> Result<(), Fail> {
    makes!(rt, TABLES);
    Ok(())
}

#[test]
fn a_text_that_was_cut_is_mended(rt: HostRuntime) -> Result<(), Fail> {
    let reading = Reading {
        cut: true,
        limit: Some(CUT.len() as u64),
    };
    let mut streams = Streams::new(CUT, Vec::new(rt.alloc()), Vec::new(rt.alloc()));
    let written = merge_reports(&rt, rt.alloc(), reading, INPUT, &mut streams)?;
    let cut = Cut {
        line: 3,
        kept: 1,
        left: 1,
    };
    assert!(rt; written.cuts.as_slice() == [cut].as_slice());
    let (_, output, _) = streams.into_inner();
    assert!(rt; output.as_slice() == b"open 1 0 d\nclose 1 0 0 0 0\nend 1 0\n".as_slice());
    Ok(())
}

#[test]
fn streams_that_fail(rt: HostRuntime) -> Result<(), Fail> {
    let alloc = rt.alloc();
    let reader = FailingReader::after(FIRST);
    let mut streams = Streams::new(reader, Vec::new(alloc), Vec::new(alloc));
    let result = merge_reports(&rt, alloc, PLAIN, INPUT, &mut streams);
    let (_, output, _) = streams.into_inner();
    assert!(rt; matches!(result, Err(ReportsError::Unread { text: 1, .. })) && output.is_empty());
    for (form, whole) in [(Form::Merged, FIRST), (CSV_FORM, CSV)] {
        let writer = FailingWriter::after(alloc, 20, 20);
        let mut streams = Streams::new(FIRST, writer, Vec::new(alloc));
        let result = write_reports(&rt, alloc, form, PLAIN, INPUT, &mut streams);
        assert!(rt; matches!(result, Err(ReportsError::Write)));
        let (_, output, errors) = streams.into_inner();
        let written = output.written.as_slice();
        assert!(rt; written.len() == 20 && whole.starts_with(written) && errors.is_empty());
    }
    Ok(())
}

#[test]
fn rows_are_written_as_a_table(rt: HostRuntime) -> Result<(), Fail> {
    let alloc = rt.alloc();
    let mut rows = Rows::new(alloc);
    if read_report(alloc, ALL_KINDS, &mut rows)?.is_err() {
        panic!(rt; "a fault");
    }
    let mut block = Block::new(alloc);
    let mut writer = Output::new(Vec::new(alloc));
    let table = table_of(alloc, Subject::Patterns, None, &rows)?;
    put_listing(alloc, Format::Json, None, &table, &mut block, &mut writer)?;
    assert!(rt; send(&mut block, &mut writer).is_ok());
    assert!(rt; writer.into_inner().as_slice() == JSON);
    Ok(())
}
