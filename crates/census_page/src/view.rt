//! The settings for the rows of a collection, beside its report.
use census_facts::Names;

/// The settings for the rows of a collection, beside its report.
#[derive(Clone, Copy)]
pub struct View<'a> {
    /// The names of codes, if there are any.
    pub names: Option<&'a Names>,
    /// The beginning of the addresses of patterns, if their names are links.
    pub base: Option<&'a [u8]>,
    /// The name of the collection.
    pub collection: &'a [u8],
    /// True where codes are links to their pages at Catagolue.
    pub catalogue: bool,
    /// True where all patterns are shown: each that has a code, and each that does not recur. Otherwise only the first pattern
    /// that has a code is shown, and those that are unresolved.
    pub patterns: bool,
}
