//! Calls on bundles.

use crate::call;
use crate::calls::promised;
use census_bundle::{Bundle, read_bundle};
use std::alloc::Global;

const SHORT: &[u8] = b"before";

// A name and a text that need memory of their own.
const NAME: &[u8] = b"a name that takes more bytes than a name that needs no memory of its own has";

const PATTERN: &[u8] =
    b"#C a text that takes more bytes than one that needs no memory has\nx = 3, y = 1\n3o!\n";

const TEXT: &[u8] =
    b"@folder a name that takes more bytes than a name that needs no memory of its own has
@file one
x = 2, y = 2
2o$2o!
@file a name that takes more bytes than a name that needs no memory of its own has
#C a text that takes more bytes than one that needs no memory has
x = 3, y = 1
3o!
";

// True where a bundle has this number of folders, and the last of them this name and this number of patterns.
fn has(bundle: &Bundle, folders: usize, name: &[u8], entries: usize) -> bool {
    match bundle.folders().last() {
        Some(folder) => {
            bundle.folders().len() == folders
                && folder.name.as_slice() == name
                && folder.entries.as_slice().len() == entries
        }
        None => false,
    }
}

// True where the last pattern of a bundle is `PATTERN` under the name `NAME`.
fn ends_in_pattern(bundle: &Bundle) -> bool {
    match bundle.folders().last() {
        Some(folder) => match folder.entries.as_slice().last() {
            Some(entry) => entry.name.as_slice() == NAME && entry.text.as_slice() == PATTERN,
            None => false,
        },
        None => false,
    }
}

/// A bundle of one folder with this number of patterns.
pub fn bundle_of(alloc: Global, patterns: u32) -> Option<Bundle> {
    let mut bundle = Bundle::empty(alloc);
    bundle.add_folder(SHORT).ok()?;
    for _ in 0..patterns {
        bundle.add_entry(SHORT, PATTERN).ok()?;
    }
    Some(bundle)
}

/// Calls that change and read a bundle.
pub fn call_bundles(rt: &impl Print, alloc: Global) -> Option<()> {
    let mut bundle = bundle_of(alloc, 4)?;
    call!(
        rt,
        "Bundle::add_entry",
        bundle.add_entry(NAME, PATTERN),
        has(&bundle, 1, SHORT, 4),
    )?;
    promised(has(&bundle, 1, SHORT, 5) && ends_in_pattern(&bundle))?;
    call!(
        rt,
        "Bundle::add_folder",
        bundle.add_folder(NAME),
        has(&bundle, 1, SHORT, 5) && ends_in_pattern(&bundle),
    )?;
    promised(has(&bundle, 2, NAME, 0))?;
    let read = call!(rt, "read_bundle", read_bundle(alloc, TEXT))?;
    promised(has(&read, 1, NAME, 2) && ends_in_pattern(&read))
}
