//! The command line, built with `clap`.
ghost use Rattle.std.specs.Prelude.{◌≡◌, ◌∷◌, [], IfOk, Some, codes, false, true};
ghost use Rattle.clap.specs.Words.{app_of, rule_of, shape_of};
ghost use Rattle.clap.specs.declared.builder.command.Command.TheViews.{out-Command};
ghost use Rattle.clap.specs.declared.builder.value_parser.ValueParser.TheVariants.{Unsigned};
ghost use Rattle.census_cli.specs.CommandLine.{bare_app, census_app, command_named, flag, number, option, search_rule, several, with_reading, word, workers_rule};

use crate::help;
use census_facts::VERSION;
use clap::error::ErrorKind;
use clap::{Arg, ArgAction, Command, value_parser};
use std::alloc::{AllocError, Global};

// The greatest bound of `run`.
const SETTLES_BOUND_LIMIT: i64 = 1_000_000;

// The greatest bound of `objects` and of `identify`.
const OBJECTS_BOUND_LIMIT: i64 = 100_000;

// The greatest horizon of `objects` and of `identify`.
const HORIZON_LIMIT: i64 = 10_000;

// The greatest N of `advance`.
const GENERATION_LIMIT: i64 = 4_194_304;

fn bound<'a>(alloc: Global) -> Arg<'a>
    ensures { (rule_of result ≡ record (number "bound" 1000000) { short = Some 98; defaults = codes "1000" ∷ [] })
        × (result.global ≡ false) }
{
    Arg::new(alloc, "bound")
        .short('b')
        .long("bound")
        .value_name("N")
        .value_parser(value_parser!(u64).range(1..=SETTLES_BOUND_LIMIT))
        .default_value("1000")
        .help("Generations to search, 1 to 1000000")
}

fn search<'a>(alloc: Global) -> Arg<'a>
    ensures { (rule_of result ≡ search_rule) × (result.global ≡ false) }
{
    Arg::new(alloc, "bound")
        .short('b')
        .long("bound")
        .value_name("N")
        .value_parser(value_parser!(u64).range(1..=OBJECTS_BOUND_LIMIT))
        .default_value("10000")
        .help("Generations to search, 1 to 100000")
}

fn limit<'a>(alloc: Global) -> Arg<'a>
    ensures { (rule_of result ≡ number "cells" 4294967295) × (result.global ≡ false) }
{
    Arg::new(alloc, "cells")
        .long("cells")
        .value_name("N")
        .value_parser(value_parser!(u64).range(1..=4_294_967_295))
        .help("Live cells that a pattern may have, 1 to 4294967295\n[default: no limit]")
}

fn cells<'a>(alloc: Global) -> Arg<'a>
    ensures { (rule_of result ≡ record (number "cells" 4294967295) { defaults = codes "200000" ∷ [] })
        × (result.global ≡ false) }
{
    Arg::new(alloc, "cells")
        .long("cells")
        .value_name("N")
        .value_parser(value_parser!(u64).range(1..=4_294_967_295))
        .default_value("200000")
        .help("Live cells that a pattern may have,\n1 to 4294967295")
}

fn near<'a>(alloc: Global) -> Arg<'a>
    ensures { (rule_of result ≡ flag "near") × (result.global ≡ false) }
{
    Arg::new(alloc, "near")
        .long("near")
        .action(ArgAction::SetTrue)
        .help("Count what comes within two cells as one object")
}

fn horizon<'a>(alloc: Global) -> Arg<'a>
    ensures { (rule_of result ≡ record (number "horizon" 10000) { defaults = codes "1000" ∷ [] })
        × (result.global ≡ false) }
{
    Arg::new(alloc, "horizon")
        .long("horizon")
        .value_name("N")
        .value_parser(value_parser!(u64).range(1..=HORIZON_LIMIT))
        .default_value("1000")
        .help("Generations within which growth is looked for,\n1 to 10000")
}

fn input<'a>(alloc: Global) -> Arg<'a>
    ensures { (rule_of result ≡ number "input" 9223372036854775807) × (result.global ≡ false) }
{
    Arg::new(alloc, "input")
        .long("input")
        .value_name("N")
        .value_parser(value_parser!(u64).range(1..=9_223_372_036_854_775_807))
        .help(help::INPUT)
}

fn workers<'a>(alloc: Global) -> Arg<'a>
    ensures { (rule_of result ≡ workers_rule) × (result.global ≡ false) }
{
    Arg::new(alloc, "workers")
        .short('w')
        .long("workers")
        .value_name("N")
        .value_parser(value_parser!(u64).range(1..=16))
        .default_value("4")
        .help("Threads that work, 1 to 16")
}

fn recursive<'a>(alloc: Global) -> Arg<'a>
    ensures { (rule_of result ≡ record (flag "recursive") { short = Some 114 }) × (result.global ≡ false) }
{
    Arg::new(alloc, "recursive")
        .short('r')
        .long("recursive")
        .action(ArgAction::SetTrue)
        .help("Also take folders below each FOLDER that have *.rle files")
}

fn keep_going<'a>(alloc: Global) -> Arg<'a>
    ensures { (rule_of result ≡ record (flag "keep-going") { short = Some 107 }) × (result.global ≡ false) }
{
    Arg::new(alloc, "keep-going")
        .short('k')
        .long("keep-going")
        .action(ArgAction::SetTrue)
        .help(help::KEEP_GOING)
}

fn explain<'a>(alloc: Global) -> Arg<'a>
    ensures { (rule_of result ≡ flag "explain") × (result.global ≡ false) }
{
    Arg::new(alloc, "explain")
        .long("explain")
        .action(ArgAction::SetTrue)
        .help(help::EXPLAIN)
}

fn no_progress<'a>(alloc: Global) -> Arg<'a>
    ensures { (rule_of result ≡ flag "no-progress") × (result.global ≡ false) }
{
    Arg::new(alloc, "no-progress")
        .long("no-progress")
        .action(ArgAction::SetTrue)
        .help(help::NO_PROGRESS)
}

fn folder<'a>(alloc: Global) -> Arg<'a>
    ensures { (rule_of result ≡ several "folder") × (result.global ≡ false) }
{
    Arg::new(alloc, "folder")
        .value_name("FOLDER")
        .num_args(1..)
        .help(
            "A collection: its patterns are the *.rle files in the\nfolder. With no FOLDER a bundle of collections is read\nfrom standard input",
        )
}

fn files<'a>(alloc: Global) -> Arg<'a>
    ensures { (rule_of result ≡ several "file") × (result.global ≡ false) }
{
    Arg::new(alloc, "file")
        .value_name("FILE")
        .num_args(1..)
        .help(help::FILE)
}

fn generations<'a>(alloc: Global) -> Arg<'a>
    ensures { (rule_of result ≡ record (word "generations") { required = true; parser = Some (Unsigned 0 4194304) })
        × (result.global ≡ false) }
{
    Arg::new(alloc, "generations")
        .value_name("N")
        .required(true)
        .value_parser(value_parser!(u64).range(0..=GENERATION_LIMIT))
        .help("Generations, 0 to 4194304")
}

fn file<'a>(alloc: Global) -> Arg<'a>
    ensures { (rule_of result ≡ word "file") × (result.global ≡ false) }
{
    Arg::new(alloc, "file").value_name("FILE").help(help::FILE)
}

fn code<'a>(alloc: Global) -> Arg<'a>
    ensures { (rule_of result ≡ record (word "code") { required = true }) × (result.global ≡ false) }
{
    Arg::new(alloc, "code")
        .value_name("CODE")
        .required(true)
        .help("An apgcode, or the part of one after its first _")
}

fn rule<'a>(alloc: Global) -> Arg<'a>
    ensures { (rule_of result ≡ record (option "rule") { defaults = codes "B3/S23" ∷ [] })
        × (result.global ≡ false) }
{
    Arg::new(alloc, "rule")
        .long("rule")
        .value_name("R")
        .default_value("B3/S23")
        .help("A Life-like rule without B0")
}

fn csv<'a>(alloc: Global) -> Arg<'a>
    ensures { (rule_of result ≡ flag "csv") × (result.global ≡ false) }
{
    Arg::new(alloc, "csv")
        .long("csv")
        .action(ArgAction::SetTrue)
        .help("Comma-separated values under a row of names (the default)")
}

fn json<'a>(alloc: Global) -> Arg<'a>
    ensures { (rule_of result ≡ flag "json") × (result.global ≡ false) }
{
    Arg::new(alloc, "json")
        .long("json")
        .action(ArgAction::SetTrue)
        .help("JSON, one object a line")
}

fn safe<'a>(alloc: Global) -> Arg<'a>
    ensures { (rule_of result ≡ flag "safe") × (result.global ≡ false) }
{
    Arg::new(alloc, "safe")
        .long("safe")
        .action(ArgAction::SetTrue)
        .help("In CSV put a ' before each text that a spreadsheet takes\nfor a formula")
}

fn parts<'a>(alloc: Global) -> Arg<'a>
    ensures { (rule_of result ≡ flag "parts") × (result.global ≡ false) }
{
    Arg::new(alloc, "parts")
        .long("parts")
        .action(ArgAction::SetTrue)
        .help("A row for each part line in place of each pattern")
}

fn codes<'a>(alloc: Global) -> Arg<'a>
    ensures { (rule_of result ≡ flag "codes") × (result.global ≡ false) }
{
    Arg::new(alloc, "codes")
        .long("codes")
        .action(ArgAction::SetTrue)
        .help("A row for each code and rule in place of each pattern,\nby falling count")
}

fn engines<'a>(alloc: Global) -> Arg<'a>
    ensures { (rule_of result ≡ flag "engines") × (result.global ≡ false) }
{
    Arg::new(alloc, "engines")
        .long("engines")
        .action(ArgAction::SetTrue)
        .help("A row for each thing that engines emit in place of each\npattern")
}

fn code_sort<'a>(alloc: Global) -> Arg<'a>
    ensures { (rule_of result ≡ option "sort") × (result.global ≡ false) }
{
    Arg::new(alloc, "sort")
        .long("sort")
        .value_name("ORDER")
        .help("Order of codes: report or rare, the rarest first\n[default: report]")
}

fn unnamed<'a>(alloc: Global) -> Arg<'a>
    ensures { (rule_of result ≡ flag "unnamed") × (result.global ≡ false) }
{
    Arg::new(alloc, "unnamed")
        .long("unnamed")
        .action(ArgAction::SetTrue)
        .help("Leave out the codes that have a name")
}

fn starts<'a>(alloc: Global) -> Arg<'a>
    ensures { (rule_of result ≡ flag "starts") × (result.global ≡ false) }
{
    Arg::new(alloc, "starts")
        .long("starts")
        .action(ArgAction::SetTrue)
        .help(help::STARTS)
}

fn reports<'a>(alloc: Global) -> Arg<'a>
    ensures { (rule_of result ≡ several "report") × (result.global ≡ false) }
{
    Arg::new(alloc, "report")
        .value_name("REPORT")
        .num_args(1..)
        .help(help::REPORT)
}

fn names<'a>(alloc: Global) -> Arg<'a>
    ensures { (rule_of result ≡ option "names") × (result.global ≡ false) }
{
    Arg::new(alloc, "names")
        .long("names")
        .value_name("FILE")
        .help(help::NAMES)
}

fn title<'a>(alloc: Global) -> Arg<'a>
    ensures { (rule_of result ≡ option "title") × (result.global ≡ false) }
{
    Arg::new(alloc, "title")
        .long("title")
        .value_name("TEXT")
        .help("The title of the page [default: Census]")
}

fn note<'a>(alloc: Global) -> Arg<'a>
    ensures { (rule_of result ≡ option "note") × (result.global ≡ false) }
{
    Arg::new(alloc, "note")
        .long("note")
        .value_name("TEXT")
        .help("A text under the title")
}

fn sort<'a>(alloc: Global) -> Arg<'a>
    ensures { (rule_of result ≡ record (option "sort") { defaults = codes "report" ∷ [] })
        × (result.global ≡ false) }
{
    Arg::new(alloc, "sort")
        .long("sort")
        .value_name("ORDER")
        .default_value("report")
        .help("Order of codes: report, count, rare, code, period or\nname")
}

fn top<'a>(alloc: Global) -> Arg<'a>
    ensures { (rule_of result ≡ number "top" 4294967295) × (result.global ≡ false) }
{
    Arg::new(alloc, "top")
        .long("top")
        .value_name("N")
        .value_parser(value_parser!(u64).range(1..=4_294_967_295))
        .help("Codes of each collection, 1 to 4294967295 [default: all]")
}

fn base<'a>(alloc: Global) -> Arg<'a>
    ensures { (rule_of result ≡ option "base") × (result.global ≡ false) }
{
    Arg::new(alloc, "base")
        .long("base")
        .value_name("URL")
        .help(help::BASE)
}

fn links<'a>(alloc: Global) -> Arg<'a>
    ensures { (rule_of result ≡ flag "links") × (result.global ≡ false) }
{
    Arg::new(alloc, "links")
        .long("links")
        .action(ArgAction::SetTrue)
        .help("Make each code of up to 100 letters a link to its page at\nCatagolue")
}

fn no_patterns<'a>(alloc: Global) -> Arg<'a>
    ensures { (rule_of result ≡ flag "no-patterns") × (result.global ≡ false) }
{
    Arg::new(alloc, "no-patterns")
        .long("no-patterns")
        .action(ArgAction::SetTrue)
        .help("Leave out patterns, but for the first of each code and\nthose unresolved")
}

fn cut<'a>(alloc: Global) -> Arg<'a>
    ensures { (rule_of result ≡ flag "cut") × (result.global ≡ false) }
{
    Arg::new(alloc, "cut")
        .long("cut")
        .action(ArgAction::SetTrue)
        .help(help::CUT)
}

fn report_input<'a>(alloc: Global) -> Arg<'a>
    ensures { (rule_of result ≡ number "input" 9223372036854775807) × (result.global ≡ false) }
{
    Arg::new(alloc, "input")
        .long("input")
        .value_name("N")
        .value_parser(value_parser!(u64).range(1..=9_223_372_036_854_775_807))
        .help(help::REPORT_INPUT)
}

fn claims<'a>(alloc: Global) -> Arg<'a>
    ensures { (rule_of result ≡ record (word "claims") { required = true }) × (result.global ≡ false) }
{
    Arg::new(alloc, "claims")
        .value_name("CLAIMS")
        .required(true)
        .help("A file of comma-separated values with a column `name`;\n- is standard input")
}

fn run<'a>(alloc: Global) -> Result<Command<'a>, AllocError>
    ensures { IfOk result (λ c. (shape_of c ≡ command_named "run") × ((out-Command c).has_globals ≡ false)) }
{
    Command::new(alloc, "run")
        .about("Report what the patterns of collections become")
        .after_help(help::RUN)
        .arg(bound(alloc))?
        .arg(workers(alloc))?
        .arg(limit(alloc))?
        .arg(input(alloc))?
        .arg(recursive(alloc))?
        .arg(keep_going(alloc))?
        .arg(explain(alloc))?
        .arg(no_progress(alloc))?
        .arg(folder(alloc))
}

fn objects<'a>(alloc: Global) -> Result<Command<'a>, AllocError>
    ensures { IfOk result
        (λ c. (shape_of c ≡ command_named "objects") × ((out-Command c).has_globals ≡ false)) }
{
    Command::new(alloc, "objects")
        .about("Report the objects in what the patterns of collections become")
        .after_help(help::OBJECTS)
        .arg(search(alloc))?
        .arg(workers(alloc))?
        .arg(cells(alloc))?
        .arg(near(alloc))?
        .arg(horizon(alloc))?
        .arg(input(alloc))?
        .arg(recursive(alloc))?
        .arg(keep_going(alloc))?
        .arg(explain(alloc))?
        .arg(no_progress(alloc))?
        .arg(folder(alloc))
}

fn identify<'a>(alloc: Global) -> Result<Command<'a>, AllocError>
    ensures { IfOk result
        (λ c. (shape_of c ≡ command_named "identify") × ((out-Command c).has_globals ≡ false)) }
{
    Command::new(alloc, "identify")
        .about("Read RLE texts and say what each pattern is")
        .after_help(help::IDENTIFY)
        .arg(search(alloc))?
        .arg(cells(alloc))?
        .arg(near(alloc))?
        .arg(horizon(alloc))?
        .arg(json(alloc))?
        .arg(names(alloc))?
        .arg(explain(alloc))?
        .arg(files(alloc))
}

fn advance<'a>(alloc: Global) -> Result<Command<'a>, AllocError>
    ensures { IfOk result
        (λ c. (shape_of c ≡ command_named "advance") × ((out-Command c).has_globals ≡ false)) }
{
    Command::new(alloc, "advance")
        .about("Read an RLE text and write that of its generation N")
        .after_help(help::ADVANCE)
        .arg(generations(alloc))?
        .arg(limit(alloc))?
        .arg(explain(alloc))?
        .arg(file(alloc))
}

fn draw<'a>(alloc: Global) -> Result<Command<'a>, AllocError>
    ensures { IfOk result (λ c. (shape_of c ≡ command_named "draw") × ((out-Command c).has_globals ≡ false)) }
{
    Command::new(alloc, "draw")
        .about("Write the RLE text of the pattern that an apgcode names")
        .after_help(help::DRAW)
        .arg(code(alloc))?
        .arg(rule(alloc))?
        .arg(explain(alloc))
}

// The command, with the arguments of those that read reports after its own.
fn with_reading<'a>(alloc: Global, command: Command<'a>) -> Result<Command<'a>, AllocError>
    requires { (out-Command command).has_globals ≡ false }
    ensures { IfOk result
        (λ c. (app_of c ≡ with_reading (app_of command.entry)) × ((out-Command c).has_globals ≡ false)) }
{
    command
        .arg(cut(alloc))?
        .arg(report_input(alloc))?
        .arg(explain(alloc))?
        .arg(reports(alloc))
}

fn merge<'a>(alloc: Global) -> Result<Command<'a>, AllocError>
    ensures { IfOk result
        (λ c. (shape_of c ≡ command_named "merge") × ((out-Command c).has_globals ≡ false)) }
{
    let merge = Command::new(alloc, "merge")
        .about("Make one report of several: all their collections, numbered on")
        .after_help(help::MERGE);
    with_reading(alloc, merge)
}

fn table<'a>(alloc: Global) -> Result<Command<'a>, AllocError>
    ensures { IfOk result
        (λ c. (shape_of c ≡ command_named "table") × ((out-Command c).has_globals ≡ false)) }
{
    let table = Command::new(alloc, "table")
        .about("Write a row for each pattern of reports")
        .after_help(help::TABLE)
        .arg(csv(alloc))?
        .arg(json(alloc))?
        .arg(safe(alloc))?
        .arg(parts(alloc))?
        .arg(codes(alloc))?
        .arg(engines(alloc))?
        .arg(code_sort(alloc))?
        .arg(unnamed(alloc))?
        .arg(names(alloc))?;
    with_reading(alloc, table)
}

fn page<'a>(alloc: Global) -> Result<Command<'a>, AllocError>
    ensures { IfOk result (λ c. (shape_of c ≡ command_named "page") × ((out-Command c).has_globals ≡ false)) }
{
    let page = Command::new(alloc, "page")
        .about("Write one HTML page of reports, with pictures")
        .after_help(help::PAGE)
        .arg(title(alloc))?
        .arg(note(alloc))?
        .arg(sort(alloc))?
        .arg(top(alloc))?
        .arg(base(alloc))?
        .arg(links(alloc))?
        .arg(no_patterns(alloc))?
        .arg(names(alloc))?;
    with_reading(alloc, page)
}

fn same<'a>(alloc: Global) -> Result<Command<'a>, AllocError>
    ensures { IfOk result (λ c. (shape_of c ≡ command_named "same") × ((out-Command c).has_globals ≡ false)) }
{
    let same = Command::new(alloc, "same")
        .about("List the patterns of reports that are one object")
        .after_help(help::SAME)
        .arg(json(alloc))?
        .arg(starts(alloc))?
        .arg(recursive(alloc))?;
    with_reading(alloc, same)
}

fn verify<'a>(alloc: Global) -> Result<Command<'a>, AllocError>
    ensures { IfOk result
        (λ c. (shape_of c ≡ command_named "verify") × ((out-Command c).has_globals ≡ false)) }
{
    let verify = Command::new(alloc, "verify")
        .about("Compare claims about patterns with what reports say")
        .after_help(help::VERIFY)
        .arg(claims(alloc))?;
    with_reading(alloc, verify)
}

/// What is said of words that name both formats of a table.
pub(crate) const TWO_FORMATS: &str = "the argument '--csv' cannot be used with '--json'";

/// What is said of words that ask for safe texts in JSON.
pub(crate) const SAFE_JSON: &str = "the argument '--safe' cannot be used with '--json'";

/// What is said of words that name two tables.
pub(crate) const PARTS_AND_CODES: &str = "the argument '--parts' cannot be used with '--codes'";

pub(crate) const PARTS_AND_ENGINES: &str = "the argument '--parts' cannot be used with '--engines'";

pub(crate) const ENGINES_AND_CODES: &str = "the argument '--engines' cannot be used with '--codes'";

/// What is said of options of codes beside another table.
pub(crate) const SORT_OF_OTHERS: &str =
    "the argument '--sort <ORDER>' cannot be used without '--codes'";

pub(crate) const UNNAMED_OF_OTHERS: &str =
    "the argument '--unnamed' cannot be used without '--codes'";

/// What is said of codes without a name where there are no names.
pub(crate) const UNNAMED_ONLY: &str =
    "the argument '--unnamed' cannot be used without '--names <FILE>'";

/// What is said of options of `same` that are about folders beside those that are about reports.
pub(crate) const STARTS_AND_CUT: &str = "the argument '--starts' cannot be used with '--cut'";

pub(crate) const RECURSIVE_OF_REPORTS: &str =
    "the argument '--recursive' cannot be used without '--starts'";

/// Clap's words for arguments of `same` that are in conflict.
pub(crate) fn same_conflict(alloc: Global, words: &str) -> Result<String, AllocError> {
    let mut command = same(alloc)?.bin_name("census same")?;
    let error = command.error(ErrorKind::ArgumentConflict, words)?;
    format!(in alloc; "{error}")
}

/// Clap's words for arguments of `table` that are in conflict.
pub(crate) fn conflict(alloc: Global, words: &str) -> Result<String, AllocError> {
    let mut command = table(alloc)?.bin_name("census table")?;
    let error = command.error(ErrorKind::ArgumentConflict, words)?;
    format!(in alloc; "{error}")
}

// Clap's words for a value that an option of `page` does not take. They end with the reason.
fn no_value(alloc: Global, value: &str, option: &str, why: &str) -> Result<String, AllocError> {
    let words = format!(in alloc; "invalid value '{value}' for '{option}'{why}")?;
    let mut command = page(alloc)?.bin_name("census page")?;
    let error = command.error(ErrorKind::InvalidValue, words.as_str())?;
    format!(in alloc; "{error}")
}

/// Clap's words for an order of a page that does not exist.
pub(crate) fn no_order(alloc: Global, word: &str) -> Result<String, AllocError> {
    let orders = "\n  [possible values: report, count, rare, code, period, name]";
    no_value(alloc, word, "--sort <ORDER>", orders)
}

/// Clap's words for an order of a table of codes that does not exist.
pub(crate) fn no_code_order(alloc: Global, word: &str) -> Result<String, AllocError> {
    let words = format!(in alloc;
        "invalid value '{word}' for '--sort <ORDER>'\n  [possible values: report, rare]"
    )?;
    let mut command = table(alloc)?.bin_name("census table")?;
    let error = command.error(ErrorKind::InvalidValue, words.as_str())?;
    format!(in alloc; "{error}")
}

/// Clap's words for a base of a page that is not an address.
pub(crate) fn no_address(alloc: Global, text: &str) -> Result<String, AllocError> {
    let start = ": it does not begin with http:// or https://";
    no_value(alloc, text, "--base <URL>", start)
}

fn bare<'a>(alloc: Global) -> Result<Command<'a>, AllocError>
    ensures { IfOk result (λ c. app_of c ≡ bare_app) }
{
    let named = Command::new(alloc, "census")
        .about("Takes a census of Life-like patterns: what each becomes on the unbounded plane")
        .version(VERSION)
        .after_help(help::PROGRAM)
        .bin_name("census")?;
    Ok(named.no_binary_name(true).subcommand_required(true))
}

/// The whole command line.
pub(crate) fn census<'a>(alloc: Global) -> Result<Command<'a>, AllocError>
    ensures { IfOk result (λ c. app_of c ≡ census_app) }
{
    bare(alloc)?
        .subcommand(run(alloc)?)?
        .subcommand(objects(alloc)?)?
        .subcommand(identify(alloc)?)?
        .subcommand(advance(alloc)?)?
        .subcommand(draw(alloc)?)?
        .subcommand(merge(alloc)?)?
        .subcommand(table(alloc)?)?
        .subcommand(page(alloc)?)?
        .subcommand(same(alloc)?)?
        .subcommand(verify(alloc)?)
}
