//! How many collections and patterns reports have.
ghost use Rattle.std.specs.Prelude.{◌≡◌, ◌≤◌};
ghost use Rattle.census_readback.specs.Limits.{count_limit};
ghost use Rattle.census_merge.specs.Sums.{no_sums, sums_of, with_more};

use census_readback::COUNT_LIMIT;
use census_rows::Row;

#[derive(Clone, Copy)]
pub struct Sums {
    pub collections: u64,
    pub patterns: u64,
}

impl Sums {
    /// The sums of no report.
    pub fn none() -> Self
        ensures { result ≡ no_sums }
    {
        Sums {
            collections: 0,
            patterns: 0,
        }
    }

    // The sums with those of one more report, if these aren't too many.
    pub fn with(self, more: Sums) -> Option<Sums>
        requires { self.collections ≤ count_limit }
        ensures { result ≡ with_more self more }
    {
        if more.collections <= COUNT_LIMIT - self.collections
            && more.patterns <= u64::MAX - self.patterns
        {
            Some(Sums {
                collections: self.collections + more.collections,
                patterns: self.patterns + more.patterns,
            })
        } else {
            None
        }
    }
}

// The sums of the report that this row ends, if it ends one.
pub fn sums_at_end(row: &Row) -> Option<Sums>
    ensures { result ≡ sums_of row.now }
{
    match row {
        Row::End {
            collections,
            patterns,
        } => Some(Sums {
            collections: *collections,
            patterns: *patterns,
        }),
        _ => None,
    }
}
