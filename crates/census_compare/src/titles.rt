//! The titles of a header.
ghost use Rattle.std.specs.Prelude.{◌≡◌, IfOk, map};
ghost use Rattle.census_compare.specs.Columns.{title_of};
ghost use Rattle.census_compare.specs.Claims.{are_titles, title_read};

use crate::columns::{Title, is_compared, is_name, title_of};
use std::alloc::{AllocError, Global};

/// The titles in the cells of a header.
pub fn titles_of(alloc: Global, cells: &[Vec<u8>]) -> Result<Vec<Title>, AllocError>
    ensures { IfOk result (λ titles. map title_read titles.items
        ≡ map title_of (map (λ cell. cell.items) cells.now)) }
{
    let mut titles = Vec::new(alloc);
    for cell in cells {
        titles.push(title_of(alloc, cell.as_slice())?)?;
    }
    Ok(titles)
}

/// Whether there is a column of names, and one that is compared.
pub fn are_titles(titles: &[Title]) -> bool
    ensures { result ≡ are_titles (map title_read titles.now) }
{
    let mut named = false;
    let mut compared = false;
    for title in titles {
        named |= is_name(&title.column);
        compared |= is_compared(&title.column);
    }
    named && compared
}
