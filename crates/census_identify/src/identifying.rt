//! `census identify`: a report on what each of several patterns is.
ghost use Rattle.std.specs.Prelude.{◌≡◌, ◌≤◌, false, [], map, MatchResult};
ghost use Rattle.census_identify.specs.Identifies.{Identifies, Stops, TellsAll};

use crate::blocks::{HORIZON_LIMIT, Inquiry};
use crate::course::{Course, tell};
use crate::error::IdentifyError;
use crate::onlooker::{Onlooker, WordObserver};
use crate::told::told_of;
use census_facts::Names;
use census_folders::{Shelf, hear, words_or_input};
use life_orbit::BOUND_LIMIT;
use std::alloc::Global;
use std::io::{Read, Write};
use watched::Streams;

// Reports what the pattern of each argument is, and returns the greatest status of a line.
fn identify_each<S: Shelf, I: Read, O: Write, E: Write, L: Onlooker>(
    shelf: &S,
    alloc: Global,
    onlooker: &L,
    inquiry: Inquiry,
    names: &Names,
    words: &[&str],
    streams: &mut Streams<I, O, E>,
) -> Result<u8, IdentifyError>
    requires bound { 1 ≤ inquiry.bound × inquiry.bound ≤ BOUND_LIMIT }
    requires horizon { 1 ≤ inquiry.horizon × inquiry.horizon ≤ HORIZON_LIMIT }
    requires output { streams.old.output.failed ≡ false }
    requires errors { streams.old.errors.failed ≡ false }
    ensures { MatchResult result
        (λ status. TellsAll ((S.tellings shelf.now).held []) inquiry names.now (map (λ s. s.now) words.now)
        status streams.old streams.new)
        (λ error. Stops error [] ((S.tellings shelf.now).held []) inquiry names.now (map (λ s. s.now) words.now)
        streams.old streams.new) }
{
    let Streams {
        input,
        output,
        errors,
    } = streams;
    let mut course = Course {
        has_block: false,
        status: 0,
    };
    for word in words {
        let heard = hear(shelf, alloc, word, input)?;
        let observer = WordObserver { onlooker, word };
        let told = told_of(alloc, &observer, names, word, &heard, inquiry)?;
        tell(inquiry.form, &told, &mut course, output, errors)?;
    }
    Ok(course.status)
}

/// Reports what the pattern of each argument is, in the order of the arguments: for `-` that of the RLE text in the rest of
/// standard input, and for any other argument that of the file with this path. Without arguments it is that of standard input
/// alone. The bound is 1 to 100,000 generations, and the horizon 1 to 10,000.
///
/// The block of a text goes to standard output, and names the file too where the argument isn't `-`. It is lines, separated by
/// an empty line from the block before, or a JSON object on a line of its own, in the form of the inquiry. Objects are reported
/// with the names that they have. Where a text has a fault, is longer than 67,108,864 bytes or can't be read, a line goes to
/// standard error, and the next argument follows. The result is the exit status: the greatest status of a line, 1 for a fault
/// or a text that is too long and 4 for one that can't be read; without such a line it is 0.
///
/// Where memory runs out or standard output fails, this is reported on standard error and ends the report at once: the result
/// is 3 or 4, and the output before it stays. Where standard error fails, the lines from then on are lost, and nothing else
/// changes.
///
/// The generations that are examined, up to three times the bound, are reported to an onlooker.
pub fn identify<S: Shelf, I: Read, O: Write, E: Write, L: Onlooker>(
    shelf: &S,
    alloc: Global,
    onlooker: &L,
    inquiry: Inquiry,
    names: &Names,
    words: &[&str],
    streams: &mut Streams<I, O, E>,
) -> u8
    requires bound { 1 ≤ inquiry.bound × inquiry.bound ≤ BOUND_LIMIT }
    requires horizon { 1 ≤ inquiry.horizon × inquiry.horizon ≤ HORIZON_LIMIT }
    requires output { streams.old.output.failed ≡ false }
    requires errors { streams.old.errors.failed ≡ false }
    ensures { Identifies ((S.tellings shelf.now).held []) inquiry names.now (map (λ s. s.now) words.now) result
        streams.old streams.new }
{
    match identify_each(
        shelf,
        alloc,
        onlooker,
        inquiry,
        names,
        words_or_input(words),
        streams,
    ) {
        Ok(status) => status,
        Err(error) => {
            streams.errors.tell(error.line().as_bytes());
            error.status()
        }
    }
}
