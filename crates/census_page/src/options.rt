//! The options of a page.
ghost use Rattle.std.specs.Prelude.{◌≡◌};
ghost use Rattle.census_page.specs.Options.{default_options, options_of};

/// The order of the rows of a table of codes. Rows that are equal in it are as in the report.
#[derive(Clone, Copy, Debug, PartialEq, Eq)]
pub enum Sort {
    /// As in the report.
    Report,
    /// By falling count.
    Count,
    /// By rising count: the rarest first.
    Rare,
    /// By the length of codes, then by their bytes, and then by those of rules. A table of codes has codes with equal counts in
    /// this order.
    Code,
    /// By falling period, as given by codes: the number after `xp` and `xq`, and 1 for `xs`. Codes that give none come last.
    Period,
    /// By the bytes of the name of the first pattern that has the code.
    Name,
}

/// The options of a page. Its texts may have any bytes.
#[derive(Clone, Copy, Debug, PartialEq, Eq)]
pub struct PageOptions<'a> {
    /// Its title and first heading.
    pub title: &'a [u8],
    /// A note below the heading, unless it is empty.
    pub note: &'a [u8],
    /// The order of the rows in each collection's table of codes.
    pub sort: Sort,
    /// The greatest number of rows in this table, which are the first ones in that order. If it is `None`, the table has all
    /// rows.
    pub top: Option<u64>,
    /// The beginning of the addresses of patterns, if names are links. An address is this, the path of the collection, a slash,
    /// and the name. This is written as it is; the caller must ensure that it begins with `http://` or `https://`. If it is
    /// `None`, names are not links.
    pub base: Option<&'a [u8]>,
    /// True where codes of at most 100 bytes are links to their pages at Catagolue.
    pub links: bool,
    /// True where all patterns are shown: each that has a code, after the code, and each that does not recur, in a table for
    /// these. Otherwise only the first pattern that has a code is shown, and those that are unresolved.
    pub patterns: bool,
}

/// The default options: the title `Census`, no note, everything in reports in its order, and no links that leave the page.
pub fn default_options() -> PageOptions<'static>
    ensures { options_of result ≡ default_options }
{
    PageOptions {
        title: b"Census",
        note: b"",
        sort: Sort::Report,
        top: None,
        base: None,
        links: false,
        patterns: true,
    }
}
