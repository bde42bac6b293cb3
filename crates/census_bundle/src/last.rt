//! The last folder of several.
ghost use Rattle.std.specs.Prelude.{◌≡◌, ◌<◌, length, OnOk, OnErr};
ghost use Rattle.census_bundle.specs.Growing.{with_entry, last_entries};

use crate::bundle::{Entry, Folder};
use std::alloc::AllocError;

// The number of entries in the last folder.
pub fn last_len(folders: &[Folder]) -> usize
    ensures { result ≡ length (last_entries folders.now) }
{
    match folders {
        [.., folder] => folder.entries.as_slice().len(),
        [] => 0,
    }
}

// Adds one more entry to the last folder.
pub fn push_to_last(folders: &mut Vec<Folder>, entry: Entry) -> Result<(), AllocError>
    requires { 0 < length folders.old.items }
    ensures added { OnOk result (folders.new.items ≡ with_entry folders.old.items entry) }
    ensures unchanged { OnErr result (folders.new.items ≡ folders.old.items) }
{
    let at = folders.len() - 1;
    let folder = &mut folders[at];
    folder.entries.push(entry)?;
    Ok(())
}
