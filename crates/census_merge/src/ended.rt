//! Where the last whole report ends.
ghost use Rattle.std.specs.Prelude.{◌≡◌, ◌≤◌, length};
ghost use Rattle.census_merge.specs.Kept.{is_end, whole_count};

use census_rows::Row;

// Whether a row ends a report.
fn is_end(row: &Row) -> bool
    ensures { result ≡ is_end row.now }
{
    match row {
        Row::End { .. } => true,
        _ => false,
    }
}

// How many rows there are up to the last that ends a report.
pub fn whole_count(rows: &[Row]) -> usize
    ensures value { result ≡ whole_count rows.now }
    ensures within { result ≤ length rows.now }
{
    let mut count = rows.len();
    while 0 < count && !is_end(&rows[count - 1]) {
        count -= 1;
    }
    count
}
