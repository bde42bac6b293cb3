//! What words ask for.
ghost use Rattle.std.specs.Prelude.{◌≡◌, ◌≢◌, IfNone, IfOk, IfSome, MatchResult, Some, codes, false, map, option_map, true};
ghost use Rattle.clap.specs.Words.{first_of, found_of, rows_of, subcommand_rows_of};
ghost use Rattle.census_cli.specs.Asking.{AsksFor, Gives, GivesCollections, GivesReports, Uses, argument_number, codes_asked, format_asked, is_address, is_used, order_of, others_asked, rarity, subject_asked, values_of, GivesStarts, starts_asked};
ghost use Rattle.census_cli.specs.Holding.{GivesAsked, GivesRequest, HasCollections, HasFlag, HasIdentify, HasLimit, HasNumber, HasObjects, HasPage, HasReports, HasRun, HasTable, HasText, IsCommand, RefusesCommand, HasSame};
ghost use Rattle.census_cli.specs.Refusing.{RefusesWords, is_topic};

use crate::fault::{WordsFault, fault_of};
use crate::{command, help};
use clap::ArgMatches;
use life_answer::Question;
use std::alloc::{AllocError, Global};

/// How a table is written.
#[derive(Clone, Copy, Debug, PartialEq, Eq)]
pub enum TableFormat {
    /// Comma-separated values under a row of the columns' names.
    Csv {
        /// Whether each text that a spreadsheet may take for a formula begins with an added `'`.
        safe: bool,
    },
    /// One JSON object a line.
    Json,
}

/// What each row of a table is about.
#[derive(Clone, Copy, Debug, PartialEq, Eq)]
pub enum TableSubject {
    /// A pattern.
    Patterns,
    /// A `part` line.
    Parts,
    /// An `emits` line.
    Engines,
    /// A rule and a code.
    Codes {
        /// Whether the rare ones come first.
        rare: bool,
        /// Whether those that have a name are left out.
        unnamed: bool,
    },
}

/// The order of the codes on a page.
#[derive(Clone, Copy, Debug, PartialEq, Eq)]
pub enum PageSort {
    /// As in the reports.
    Report,
    /// By how often they occur.
    Count,
    /// By how often they occur, the rarest first.
    Rare,
    /// By themselves.
    Code,
    /// By their periods.
    Period,
    /// By the names of patterns.
    Name,
}

/// What a page has in addition to what the reports say.
#[derive(Clone, Copy, Debug, PartialEq, Eq)]
pub struct PageAsked<'a> {
    /// Its title, where it has one of its own.
    pub title: Option<&'a str>,
    /// The text under the title, where there is one.
    pub note: Option<&'a str>,
    /// The order of its codes.
    pub sort: PageSort,
    /// The largest number of codes of a collection, 1 to 4,294,967,295, where there is such a limit.
    pub top: Option<u32>,
    /// The address where the patterns are published, where its names are links: a text that begins with `http://` or `https://`.
    pub base: Option<&'a str>,
    /// Whether its codes are links.
    pub links: bool,
    /// Whether it has all patterns.
    pub patterns: bool,
}

/// Which reports are read, and how.
#[derive(Debug, PartialEq, Drop)]
pub struct Reports<'a> {
    /// Whether a report may have been cut.
    pub cut: bool,
    /// The largest number of bytes of all reports together, 1 to 9,223,372,036,854,775,807, where there is such a limit.
    pub input: Option<u64>,
    /// In the order of the words. `-` is standard input; without any, standard input is read too.
    pub words: Vec<&'a str>,
}

/// The collections of a census, and how they are read.
#[derive(Debug, PartialEq, Drop)]
pub struct Collections<'a> {
    /// The largest number of bytes of the files of the folders together, 1 to 9,223,372,036,854,775,807, where there is such a
    /// limit.
    pub input: Option<u64>,
    /// Whether the folders below a folder are collections too.
    pub recursive: bool,
    /// Whether the census continues past what can't be read.
    pub keep_going: bool,
    /// In the order of the words. Where there is none, the collections are those of the bundle on standard input.
    pub folders: Vec<&'a str>,
}

/// A census of collections.
#[derive(Debug, PartialEq, Drop)]
pub struct Census<'a> {
    /// What is asked of each pattern, with its numbers in their ranges. There is always a limit of cells where objects are
    /// asked for.
    pub question: Question,
    /// How many threads work, 1 to 16.
    pub workers: u32,
    pub collections: Collections<'a>,
}

/// What words ask for.
#[derive(Debug, PartialEq, Drop)]
pub enum Request<'a> {
    /// The report of a census.
    Census(Census<'a>),
    /// What the pattern of each of these files is, or, where there is none, that on standard input.
    Identify {
        /// How many generations are searched, 1 to 100,000.
        bound: u32,
        /// The largest number of live cells of a pattern, 1 to 4,294,967,295.
        cells: u32,
        /// Whether what comes near each other is counted as one object.
        near: bool,
        /// The number of generations within which growth is looked for, 1 to 10,000.
        horizon: u32,
        /// Whether each pattern is reported as a JSON object.
        json: bool,
        /// The file of the names of codes, where there is one. `-` is standard input.
        names: Option<&'a str>,
        /// In the order of the words. `-` is standard input.
        files: Vec<&'a str>,
    },
    /// The RLE text of a pattern after `generations` generations, 0 to 4,194,304.
    Advance {
        generations: u32,
        /// The largest number of live cells of each generation up to that one, 1 to 4,294,967,295, where there is such a limit.
        cells: Option<u32>,
        /// The file that has the pattern; `-`, and no file, is standard input.
        file: Option<&'a str>,
    },
    /// The RLE text of what a code draws under the rule that a text names.
    Draw {
        code: &'a str,
        rule: &'a str,
    },
    /// One report of all collections of reports.
    Merge {
        reports: Reports<'a>,
    },
    /// A row for each pattern, part or code of reports, or for what engines emit.
    Table {
        subject: TableSubject,
        format: TableFormat,
        /// The file of the names of codes, where there is one. `-` is standard input.
        names: Option<&'a str>,
        reports: Reports<'a>,
    },
    /// One HTML page of reports.
    Page {
        page: PageAsked<'a>,
        /// The file of the names of codes, where there is one. `-` is standard input.
        names: Option<&'a str>,
        reports: Reports<'a>,
    },
    /// The patterns of reports that are one object.
    Same {
        /// Whether each of these patterns is reported as a JSON object.
        json: bool,
        reports: Reports<'a>,
    },
    /// The patterns of collections that are the same at the start.
    Starts {
        /// Whether each of these patterns is reported as a JSON object.
        json: bool,
        /// They are read up to the first thing that can't be read.
        collections: Collections<'a>,
    },
    /// What does not agree between claims and reports.
    Verify {
        /// The file of the claims. `-` is standard input.
        claims: &'a str,
        reports: Reports<'a>,
    },
}

/// What words ask for, and how its faults are to be reported.
#[derive(Debug, PartialEq, Drop)]
pub struct Asked<'a> {
    /// Whether a fault is also explained in a sentence, with its place.
    pub explain: bool,
    /// Whether the progress of a run is kept from a terminal.
    pub quiet: bool,
    pub request: Request<'a>,
}

// The number of an argument that has one.
fn number(matches: &ArgMatches<'_>, id: &str) -> u32
    requires { HasNumber id.now (rows_of (found_of matches.now)) }
    ensures { argument_number id.now (rows_of (found_of matches.now)) ≡ Some result }
{
    matches.get_one::<u64>(id).unwrap() as u32
}

// The number of an argument, where it has one.
fn limit(matches: &ArgMatches<'_>, id: &str) -> Option<u32>
    requires { HasLimit 4294967295 id.now (rows_of (found_of matches.now)) }
    ensures { argument_number id.now (rows_of (found_of matches.now)) ≡ result }
{
    match matches.get_one::<u64>(id) {
        Some(number) => Some(number as u32),
        None => None,
    }
}

// The number of an argument that may be greater, where it has one.
fn long_limit(matches: &ArgMatches<'_>, id: &str) -> Option<u64>
    requires { HasLimit 9223372036854775807 id.now (rows_of (found_of matches.now)) }
    ensures { argument_number id.now (rows_of (found_of matches.now)) ≡ result }
{
    matches.get_one::<u64>(id)
}

// Whether a flag was used.
fn flag(matches: &ArgMatches<'_>, id: &str) -> bool
    requires { HasFlag id.now (rows_of (found_of matches.now)) }
    ensures { is_used id.now (rows_of (found_of matches.now)) ≡ result }
{
    matches.get_flag(id)
}

// The text of an argument that has one.
fn text<'a>(matches: &ArgMatches<'a>, id: &str) -> &'a str
    requires { HasText id.now (rows_of (found_of matches.now)) }
    ensures { first_of id.now (rows_of (found_of matches.now)) ≡ Some result.now }
{
    matches.get_str(id).unwrap()
}

// The text of an argument, where it has one.
fn text_if_used<'a>(matches: &ArgMatches<'a>, id: &str) -> Option<&'a str>
    ensures { first_of id.now (rows_of (found_of matches.now)) ≡ option_map (λ s. s.now) result }
{
    matches.get_str(id)
}

// All texts of an argument.
fn texts<'a>(alloc: Global, matches: &ArgMatches<'a>, id: &str) -> Result<Vec<&'a str>, AllocError>
    ensures { IfOk result
        (λ texts. values_of id.now (rows_of (found_of matches.now)) ≡
        map (λ s. s.now) texts.items) }
{
    match matches.get_strs(id) {
        Some(texts) => texts.to_vec(alloc),
        None => Ok(Vec::new(alloc)),
    }
}

// The collections that the matches of a census name, and how they are read.
fn collections_of<'a>(alloc: Global, census: &ArgMatches<'a>) -> Result<Collections<'a>, AllocError>
    requires { HasCollections (rows_of (found_of census.now)) }
    ensures { IfOk result (GivesCollections (rows_of (found_of census.now))) }
{
    Ok(Collections {
        input: long_limit(census, "input"),
        recursive: flag(census, "recursive"),
        keep_going: flag(census, "keep-going"),
        folders: texts(alloc, census, "folder")?,
    })
}

// What the matches of `run` ask for.
fn run_of<'a>(alloc: Global, run: &ArgMatches<'a>) -> Result<Request<'a>, AllocError>
    requires { HasRun (rows_of (found_of run.now)) }
    ensures { IfOk result (Gives (codes "run") (rows_of (found_of run.now))) }
{
    Ok(Request::Census(Census {
        question: Question::Settles {
            bound: number(run, "bound"),
            cells: limit(run, "cells"),
        },
        workers: number(run, "workers"),
        collections: collections_of(alloc, run)?,
    }))
}

// What the matches of `objects` ask for.
fn objects_of<'a>(alloc: Global, objects: &ArgMatches<'a>) -> Result<Request<'a>, AllocError>
    requires { HasObjects (rows_of (found_of objects.now)) }
    ensures { IfOk result (Gives (codes "objects") (rows_of (found_of objects.now))) }
{
    Ok(Request::Census(Census {
        question: Question::Objects {
            bound: number(objects, "bound"),
            cells: Some(number(objects, "cells")),
            near: flag(objects, "near"),
            horizon: number(objects, "horizon"),
        },
        workers: number(objects, "workers"),
        collections: collections_of(alloc, objects)?,
    }))
}

// What the matches of `identify` ask for.
fn identify_of<'a>(alloc: Global, identify: &ArgMatches<'a>) -> Result<Request<'a>, AllocError>
    requires { HasIdentify (rows_of (found_of identify.now)) }
    ensures { IfOk result (Gives (codes "identify") (rows_of (found_of identify.now))) }
{
    Ok(Request::Identify {
        bound: number(identify, "bound"),
        cells: number(identify, "cells"),
        near: flag(identify, "near"),
        horizon: number(identify, "horizon"),
        json: flag(identify, "json"),
        names: text_if_used(identify, "names"),
        files: texts(alloc, identify, "file")?,
    })
}

// The reports that the matches of a command name, and how they are read.
fn reports_of<'a>(alloc: Global, command: &ArgMatches<'a>) -> Result<Reports<'a>, AllocError>
    requires { HasReports (rows_of (found_of command.now)) }
    ensures { IfOk result (GivesReports (rows_of (found_of command.now))) }
{
    Ok(Reports {
        cut: flag(command, "cut"),
        input: long_limit(command, "input"),
        words: texts(alloc, command, "report")?,
    })
}

// The format that the flags of `table` name, where they don't name two.
fn format(table: &ArgMatches<'_>) -> Option<TableFormat>
    requires { HasTable (rows_of (found_of table.now)) }
    ensures { result ≡ format_asked (rows_of (found_of table.now)) }
{
    match (flag(table, "csv"), flag(table, "json"), flag(table, "safe")) {
        (_, false, safe) => Some(TableFormat::Csv { safe }),
        (false, true, false) => Some(TableFormat::Json),
        (_, true, _) => None,
    }
}

// Whether the rare codes come first in the order of codes that a word names, where it names one.
fn rarity(word: &str) -> Option<bool>
    ensures { result ≡ rarity word.now }
{
    if word == "report" {
        Some(false)
    } else if word == "rare" {
        Some(true)
    } else {
        None
    }
}

// The codes that the options of `table` ask for, where they can be had.
fn codes_in(table: &ArgMatches<'_>) -> Option<TableSubject>
    requires { HasTable (rows_of (found_of table.now)) }
    ensures { result ≡ codes_asked (rows_of (found_of table.now)) }
{
    let unnamed = flag(table, "unnamed");
    if unnamed && text_if_used(table, "names").is_none() {
        return None;
    }
    let Some(word) = text_if_used(table, "sort") else {
        return Some(TableSubject::Codes {
            rare: false,
            unnamed,
        });
    };
    match rarity(word) {
        Some(rare) => Some(TableSubject::Codes { rare, unnamed }),
        None => None,
    }
}

// What is no code, where no option of `table` is about codes.
fn others_in(table: &ArgMatches<'_>, subject: TableSubject) -> Option<TableSubject>
    requires { HasTable (rows_of (found_of table.now)) }
    ensures { result ≡ others_asked (rows_of (found_of table.now)) subject }
{
    if flag(table, "unnamed") || text_if_used(table, "sort").is_some() {
        None
    } else {
        Some(subject)
    }
}

// What each row is about by the options of `table`, where they fit each other.
fn subject(table: &ArgMatches<'_>) -> Option<TableSubject>
    requires { HasTable (rows_of (found_of table.now)) }
    ensures { result ≡ subject_asked (rows_of (found_of table.now)) }
{
    let parts = flag(table, "parts");
    match (parts, flag(table, "engines"), flag(table, "codes")) {
        (false, false, true) => codes_in(table),
        (false, false, false) => others_in(table, TableSubject::Patterns),
        (true, false, false) => others_in(table, TableSubject::Parts),
        (false, true, false) => others_in(table, TableSubject::Engines),
        _ => None,
    }
}

// What is said of options of `table` that do not fit each other.
fn no_subject(alloc: Global, table: &ArgMatches<'_>) -> Result<String, AllocError>
    requires { HasTable (rows_of (found_of table.now)) }
{
    let (engines, codes) = (flag(table, "engines"), flag(table, "codes"));
    let unnamed = flag(table, "unnamed");
    let words = if flag(table, "parts") && (engines || codes) {
        if engines {
            command::PARTS_AND_ENGINES
        } else {
            command::PARTS_AND_CODES
        }
    } else if engines && codes {
        command::ENGINES_AND_CODES
    } else if codes && unnamed && text_if_used(table, "names").is_none() {
        command::UNNAMED_ONLY
    } else if codes {
        return command::no_code_order(alloc, text_if_used(table, "sort").unwrap_or(""));
    } else if unnamed {
        command::UNNAMED_OF_OTHERS
    } else {
        command::SORT_OF_OTHERS
    };
    command::conflict(alloc, words)
}

// What the matches of `table` ask for.
fn table_of<'a>(alloc: Global, table: &ArgMatches<'a>) -> Result<Request<'a>, WordsFault>
    requires { HasTable (rows_of (found_of table.now)) }
    ensures { MatchResult result (Gives (codes "table") (rows_of (found_of table.now)))
        (RefusesCommand (Some (codes "table", rows_of (found_of table.now)))) }
{
    let Some(format) = format(table) else {
        let words = if flag(table, "csv") {
            command::TWO_FORMATS
        } else {
            command::SAFE_JSON
        };
        return Err(WordsFault::Refused(command::conflict(alloc, words)?));
    };
    let Some(subject) = subject(table) else {
        return Err(WordsFault::Refused(no_subject(alloc, table)?));
    };
    Ok(Request::Table {
        subject,
        format,
        names: text_if_used(table, "names"),
        reports: reports_of(alloc, table)?,
    })
}

// The order that a word names, where it names one.
fn order(word: &str) -> Option<PageSort>
    ensures { result ≡ order_of word.now }
{
    if word == "report" {
        Some(PageSort::Report)
    } else if word == "count" {
        Some(PageSort::Count)
    } else if word == "rare" {
        Some(PageSort::Rare)
    } else if word == "code" {
        Some(PageSort::Code)
    } else if word == "period" {
        Some(PageSort::Period)
    } else if word == "name" {
        Some(PageSort::Name)
    } else {
        None
    }
}

// Whether a text begins as the address of a page does.
fn is_address(text: &str) -> bool
    ensures { result ≡ is_address text.now }
{
    let text = text.as_bytes();
    text.starts_with(b"http://") || text.starts_with(b"https://")
}

// The base of a page, where it has one that is not an address.
fn strange_base<'a>(base: Option<&'a str>) -> Option<&'a str>
    ensures some { IfSome result
        (λ text. (option_map (λ s. s.now) base.entry ≡ Some text.now) × (is_address text.now ≡ false)) }
    ensures none { IfNone result (option_map is_address (option_map (λ s. s.now) base.entry) ≢ Some false) }
{
    let Some(text) = base else {
        return None;
    };
    if is_address(text) { None } else { Some(text) }
}

// What the matches of `page` ask for.
fn page_of<'a>(alloc: Global, page: &ArgMatches<'a>) -> Result<Request<'a>, WordsFault>
    requires { HasPage (rows_of (found_of page.now)) }
    ensures { MatchResult result (Gives (codes "page") (rows_of (found_of page.now)))
        (RefusesCommand (Some (codes "page", rows_of (found_of page.now)))) }
{
    let word = text(page, "sort");
    let Some(sort) = order(word) else {
        return Err(WordsFault::Refused(command::no_order(alloc, word)?));
    };
    let base = text_if_used(page, "base");
    if let Some(text) = strange_base(base) {
        return Err(WordsFault::Refused(command::no_address(alloc, text)?));
    }
    let asked = PageAsked {
        title: text_if_used(page, "title"),
        note: text_if_used(page, "note"),
        sort,
        top: limit(page, "top"),
        base,
        links: flag(page, "links"),
        patterns: !flag(page, "no-patterns"),
    };
    Ok(Request::Page {
        page: asked,
        names: text_if_used(page, "names"),
        reports: reports_of(alloc, page)?,
    })
}

// The folders that the matches of `same` name, and how they are read.
fn folders_of<'a>(alloc: Global, same: &ArgMatches<'a>) -> Result<Collections<'a>, AllocError>
    requires holds { HasSame (rows_of (found_of same.now)) }
    requires starts { starts_asked (rows_of (found_of same.now)) ≡ Some true }
    ensures { IfOk result (GivesStarts (rows_of (found_of same.now))) }
{
    Ok(Collections {
        input: long_limit(same, "input"),
        recursive: flag(same, "recursive"),
        keep_going: false,
        folders: texts(alloc, same, "report")?,
    })
}

// Whether `same` is to compare patterns at the start, where its flags fit each other.
fn starts_asked(same: &ArgMatches<'_>) -> Option<bool>
    requires { HasSame (rows_of (found_of same.now)) }
    ensures { result ≡ starts_asked (rows_of (found_of same.now)) }
{
    match (
        flag(same, "starts"),
        flag(same, "cut"),
        flag(same, "recursive"),
    ) {
        (true, false, _) => Some(true),
        (false, _, false) => Some(false),
        _ => None,
    }
}

// What the matches of `same` ask for.
fn same_of<'a>(alloc: Global, same: &ArgMatches<'a>) -> Result<Request<'a>, WordsFault>
    requires { HasSame (rows_of (found_of same.now)) }
    ensures { MatchResult result (Gives (codes "same") (rows_of (found_of same.now)))
        (RefusesCommand (Some (codes "same", rows_of (found_of same.now)))) }
{
    let Some(starts) = starts_asked(same) else {
        let words = if flag(same, "starts") {
            command::STARTS_AND_CUT
        } else {
            command::RECURSIVE_OF_REPORTS
        };
        return Err(WordsFault::Refused(command::same_conflict(alloc, words)?));
    };
    let json = flag(same, "json");
    if starts {
        return Ok(Request::Starts {
            json,
            collections: folders_of(alloc, same)?,
        });
    }
    Ok(Request::Same {
        json,
        reports: reports_of(alloc, same)?,
    })
}

// What the matches ask for.
fn request_of<'a>(alloc: Global, matches: &ArgMatches<'a>) -> Result<Request<'a>, WordsFault>
    requires { IsCommand (subcommand_rows_of matches.now) }
    ensures { MatchResult result (GivesRequest (subcommand_rows_of matches.now))
        (RefusesCommand (subcommand_rows_of matches.now)) }
{
    if let Some(run) = matches.subcommand_matches("run") {
        return Ok(run_of(alloc, run)?);
    }
    if let Some(objects) = matches.subcommand_matches("objects") {
        return Ok(objects_of(alloc, objects)?);
    }
    if let Some(identify) = matches.subcommand_matches("identify") {
        return Ok(identify_of(alloc, identify)?);
    }
    if let Some(advance) = matches.subcommand_matches("advance") {
        return Ok(Request::Advance {
            generations: number(advance, "generations"),
            cells: limit(advance, "cells"),
            file: text_if_used(advance, "file"),
        });
    }
    if let Some(draw) = matches.subcommand_matches("draw") {
        return Ok(Request::Draw {
            code: text(draw, "code"),
            rule: text(draw, "rule"),
        });
    }
    if let Some(merge) = matches.subcommand_matches("merge") {
        return Ok(Request::Merge {
            reports: reports_of(alloc, merge)?,
        });
    }
    if let Some(table) = matches.subcommand_matches("table") {
        return table_of(alloc, table);
    }
    if let Some(page) = matches.subcommand_matches("page") {
        return page_of(alloc, page);
    }
    if let Some(same) = matches.subcommand_matches("same") {
        return same_of(alloc, same);
    }
    if let Some(verify) = matches.subcommand_matches("verify") {
        return Ok(Request::Verify {
            claims: text(verify, "claims"),
            reports: reports_of(alloc, verify)?,
        });
    }
    unreachable!()
}

// Whether the flag `--explain` of the command was used.
fn explains(matches: &ArgMatches<'_>) -> bool
    requires { IsCommand (subcommand_rows_of matches.now) }
    ensures { Uses (codes "explain") (subcommand_rows_of matches.now) result }
{
    let Some((_, command)) = matches.subcommand() else {
        unreachable!()
    };
    flag(command, "explain")
}

// Whether the flag `--no-progress` of a command that has it was used.
fn is_quiet(matches: &ArgMatches<'_>) -> bool
    requires { IsCommand (subcommand_rows_of matches.now) }
    ensures { Uses (codes "no-progress") (subcommand_rows_of matches.now) result }
{
    if let Some(run) = matches.subcommand_matches("run") {
        return flag(run, "no-progress");
    }
    match matches.subcommand_matches("objects") {
        Some(objects) => flag(objects, "no-progress"),
        None => false,
    }
}

// What the matches ask for, and how its faults are to be reported.
fn asked_of<'a>(alloc: Global, matches: &ArgMatches<'a>) -> Result<Asked<'a>, WordsFault>
    requires { IsCommand (subcommand_rows_of matches.now) }
    ensures { MatchResult result (GivesAsked (subcommand_rows_of matches.now))
        (RefusesCommand (subcommand_rows_of matches.now)) }
{
    Ok(Asked {
        explain: explains(matches),
        quiet: is_quiet(matches),
        request: request_of(alloc, matches)?,
    })
}

// The text of the topic that words ask for help on, if they do.
fn topic_of(words: &[&str]) -> Option<&'static str>
    ensures { IfSome result (λ _. is_topic (map (λ s. s.now) words.now) ≡ true) }
{
    match words {
        [first, topic] => {
            if *first != "help" {
                None
            } else if *topic == "report" {
                Some(help::REPORT_LINES)
            } else if *topic == "bundle" {
                Some(help::BUNDLE)
            } else {
                None
            }
        }
        _ => None,
    }
}

/// What the words after the program's own name ask for.
///
/// Words mean what clap's matches for them say: their command, the value of each option or its default, whether each flag is
/// used, and the folders, files or reports in order. Numbers are decimal, with any zeros or one `+` in front, and clap checks
/// their ranges.
/// A fault other than `Memory` occurs only where clap has no matches for the words: `Help` where it answers them with help or
/// with the version, or where they are `help report` or `help bundle`; `Refused` where it refuses them. There are these
/// exceptions: words that name both formats of `table`, safe texts of JSON, or both parts and codes, an order of a page that does
/// not exist, a base that does not begin with `http://` or `https://`, or `same` with both `--starts` and `--cut`, or with
/// `--recursive` and without `--starts`, are `Refused` though clap has matches for them.
pub fn read_words<'a>(alloc: Global, words: &'a [&'a str]) -> Result<Asked<'a>, WordsFault>
    ensures { MatchResult result (AsksFor (map (λ s. s.now) words.entry.now))
        (RefusesWords (map (λ s. s.now) words.entry.now)) }
{
    if let Some(topic) = topic_of(words) {
        return Err(WordsFault::Help(String::from_str(alloc, topic)?));
    }
    let command = command::census(alloc)?;
    match command.try_get_matches_from(words) {
        Ok(matches) => asked_of(alloc, &matches),
        Err(error) => Err(fault_of(alloc, &error)),
    }
}
