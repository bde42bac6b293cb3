//! How many collections rows open and close.
ghost use Rattle.std.specs.Prelude.{◌≡◌, ◌+◌, count_by};
ghost use Rattle.census_merge.specs.Kept.{is_close, is_open};

use census_rows::Row;

fn is_open(row: &Row) -> bool
    ensures { result ≡ is_open row.now }
{
    match row {
        Row::Open { .. } => true,
        _ => false,
    }
}

fn is_close(row: &Row) -> bool
    ensures { result ≡ is_close row.now }
{
    match row {
        Row::Close { .. } => true,
        _ => false,
    }
}

// How many rows open a collection.
pub fn count_open(rows: &[Row]) -> usize
    ensures { result ≡ count_by is_open rows.now }
{
    rows.iter().filter(|row| is_open(*row)).count()
}

// How many rows close a collection.
pub fn count_close(rows: &[Row]) -> usize
    ensures { result ≡ count_by is_close rows.now }
{
    rows.iter().filter(|row| is_close(*row)).count()
}
