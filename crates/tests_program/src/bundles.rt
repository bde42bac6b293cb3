//! A bundle, and its report and tally.

use census_crew::Tally;
use life_answer::Question;

// A folder `demo` of five patterns: two blocks, a glider, a methuselah, and a text without its end.
pub(crate) const DEMO: &[u8] = b"@folder demo
@file block
x = 2, y = 2, rule = B3/S23
2o$2o!
@file glider
x = 3, y = 3, rule = B3/S23
bo$2bo$3o!
@file block2
x = 2, y = 2, rule = 23/3
2o$2o!
@file rpent
x = 3, y = 3, rule = B3/S23
b2o$2o$bo!
@file broken
x = 3, y = 1, rule = B3/S23
3o
";

// The report of `DEMO` under the bound 50.
pub(crate) const DEMO_REPORT: &[u8] = b"open 1 5 demo
line 1 1 ok B3/S23 4 0 1 0 0 xs4_33 block
line 1 2 ok B3/S23 5 0 4 1 1 xq4_153 glider
line 1 3 ok B3/S23 4 0 1 0 0 xs4_33 block2
line 1 4 none B3/S23 5 rpent
line 1 5 bad 10 broken
code 1 B3/S23 xs4_33 2
code 1 B3/S23 xq4_153 1
close 1 5 3 1 1
end 1 5
";

// The question of `DEMO_REPORT`.
pub(crate) const SETTLES: Question = Question::Settles {
    bound: 50,
    cells: None,
};

// The tally of `DEMO`, if the caller itself worked `caught_up` tickets.
pub(crate) fn demo_tally(caught_up: u64) -> Tally {
    Tally {
        patterns: 5,
        resolved: 3,
        unresolved: 1,
        refused: 1,
        doubles: 0,
        strangers: 0,
        caught_up,
    }
}
