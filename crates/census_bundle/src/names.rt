//! Names of folders and entries.
ghost use Rattle.std.specs.Prelude.{◌≡◌, ◌||◌, codes, nat_eq};
ghost use Rattle.std.specs.List.{list_all, starts_with, ends_with};
ghost use Rattle.census_bundle.specs.Names.{is_name, is_name_byte};

use crate::limits::NAME_LIMIT;

// True where no byte is below 32 or equal to 127.
fn is_printed(name: &[u8]) -> bool
    ensures { result ≡ list_all is_name_byte name.now }
{
    name.iter().all(|byte| *byte >= 32 && *byte != 127)
}

// True where the first or the last byte is a blank.
fn has_blank_end(name: &[u8]) -> bool
    ensures { result ≡
        (starts_with nat_eq name.now (codes " ") || ends_with nat_eq name.now (codes " ")) }
{
    name.starts_with(b" ") || name.ends_with(b" ")
}

/// True where a name is lawful: it has 1 to 255 bytes, none of them below 32 or equal to 127, and the first and the last are
/// not blank.
pub fn is_lawful_name(name: &[u8]) -> bool
    ensures { result ≡ is_name name.now }
{
    !name.is_empty() && name.len() <= NAME_LIMIT && is_printed(name) && !has_blank_end(name)
}
