//! The names of codes in tables.
ghost use Rattle.std.specs.Prelude.{◌≡◌};
ghost use Rattle.std.specs.Option.{option_copied};
ghost use Rattle.census_table.specs.Called.{called};
ghost use Rattle.census_table.specs.Contents.{content_of};

use crate::cell::Cell;
use census_facts::Names;

// The cell of the name of a code.
pub fn called<'a>(names: Option<&'a Names>, code: &[u8]) -> Cell<'a>
    ensures { content_of result ≡ called (option_copied names.entry) code.now }
{
    let Some(names) = names else {
        return Cell::Empty;
    };
    match names.name_of(code) {
        Some(name) => Cell::Text(name),
        None => Cell::Empty,
    }
}
