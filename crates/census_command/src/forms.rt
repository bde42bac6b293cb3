//! What the words of `table`, `page` and `verify` ask to make of reports, and how reports are read.
ghost use Rattle.std.specs.Prelude.{◌≡◌, None, option_map, unwrap_or};
ghost use Rattle.census_reports.specs.declared.form.Form.TheVariants as form;
ghost use Rattle.census_command.specs.declared.forms.Beside.TheVariants as beside;
ghost use Rattle.census_page.specs.Options.{options_of};
ghost use Rattle.census_command.specs.Forms.{form_beside, format_of, options_asked, reading_of, sort_of, subject_of};

use census_cli::{PageAsked, PageSort, Reports, TableFormat, TableSubject};
use census_page::{PageOptions, Sort};
use census_reports::{Form, Reading};
use census_table::{Choice, Format, Subject};

/// How a table is written.
pub fn format_of(format: TableFormat) -> Format
    ensures { result ≡ format_of format }
{
    match format {
        TableFormat::Csv { safe } => Format::Csv { safe },
        TableFormat::Json => Format::Json,
    }
}

/// What each row of a table is about.
pub fn subject_of(subject: TableSubject) -> Subject
    ensures { result ≡ subject_of subject }
{
    match subject {
        TableSubject::Patterns => Subject::Patterns,
        TableSubject::Parts => Subject::Parts,
        TableSubject::Engines => Subject::Engines,
        TableSubject::Codes { rare, unnamed } => Subject::Codes(Choice { rare, unnamed }),
    }
}

// The order of the codes on a page.
fn sort_of(sort: PageSort) -> Sort
    ensures { result ≡ sort_of sort }
{
    match sort {
        PageSort::Report => Sort::Report,
        PageSort::Count => Sort::Count,
        PageSort::Rare => Sort::Rare,
        PageSort::Code => Sort::Code,
        PageSort::Period => Sort::Period,
        PageSort::Name => Sort::Name,
    }
}

// The bytes of a text, or `other` where there is none.
fn bytes_or<'a>(text: Option<&'a str>, other: &'a [u8]) -> &'a [u8]
    ensures { result.now ≡ unwrap_or (option_map (λ s. s.now) text.entry) other.entry.now }
{
    match text {
        Some(text) => text.as_bytes(),
        None => other,
    }
}

// The bytes of a text, where there is one.
fn bytes_of<'a>(text: Option<&'a str>) -> Option<&'a [u8]>
    ensures { option_map (λ s. s.now) result ≡ option_map (λ s. s.now) text.entry }
{
    match text {
        Some(text) => Some(text.as_bytes()),
        None => None,
    }
}

// The largest number of codes on a page, where that is limited, as pages count them.
fn count_of(top: Option<u32>) -> Option<u64>
    ensures { result ≡ top }
{
    match top {
        Some(count) => Some(u64::from(count)),
        None => None,
    }
}

/// What a page is asked to have.
pub fn options_asked<'a>(page: &PageAsked<'a>) -> PageOptions<'a>
    ensures { options_of result ≡ options_asked page.now }
{
    let base = bytes_of(page.base);
    PageOptions {
        title: bytes_or(page.title, b"Census"),
        note: bytes_or(page.note, b""),
        sort: sort_of(page.sort),
        top: count_of(page.top),
        base,
        links: page.links,
        patterns: page.patterns,
    }
}

/// A table of this subject in this format, without names of codes.
pub fn table_form<'a>(subject: TableSubject, format: TableFormat) -> Form<'a>
    ensures { result ≡ form.Table (subject_of subject) (format_of format) None }
{
    Form::Table {
        subject: subject_of(subject),
        format: format_of(format),
        names: None,
    }
}

/// A table of this subject in this format, with names of codes.
pub fn names_beside<'a>(subject: TableSubject, format: TableFormat) -> Beside<'a>
    ensures { result ≡ beside.Names (subject_of subject) (format_of format) }
{
    Beside::Names {
        subject: subject_of(subject),
        format: format_of(format),
    }
}

/// How reports are read.
pub fn reading_of(reports: &Reports<'_>) -> Reading
    ensures { result ≡ reading_of reports.now }
{
    Reading {
        cut: reports.cut,
        limit: reports.input,
    }
}

/// What is made of reports with a text that is read before them.
#[derive(Clone, Copy, Debug, PartialEq, Eq)]
pub enum Beside<'a> {
    /// A table with the names of codes that the text has.
    Names { subject: Subject, format: Format },
    /// A page with the names of codes that the text has.
    NamesOnPage { options: PageOptions<'a> },
    /// What does not agree with the claims that the text has.
    Claims,
}

/// What `beside` makes of reports, with this text.
pub fn form_beside<'a>(beside: Beside<'a>, text: &'a [u8]) -> Form<'a>
    ensures { result ≡ form_beside beside.entry text.entry }
{
    match beside {
        Beside::Names { subject, format } => Form::Table {
            subject,
            format,
            names: Some(text),
        },
        Beside::NamesOnPage { options } => Form::Page {
            options,
            names: Some(text),
        },
        Beside::Claims => Form::Verdict { claims: text },
    }
}
