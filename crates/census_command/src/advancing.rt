//! `census advance N [FILE]`: generation N of the pattern of a file, or of that on standard input.
ghost use Rattle.std.specs.Prelude.{◌≡◌, ◌<◌, ◌≤◌, ℕ, All, IfErr, IfOk, MatchResult, None, OnOk, Option, Some, option_map};
ghost use Rattle.std.specs.Io.KnownBytes.{Appends};
ghost use Rattle.life_answer.specs.Limited.{first_past};
ghost use Rattle.life_cells.specs.Limits.{IsWithin};
ghost use Rattle.life_model.specs.Evolution.{generation};
ghost use Rattle.life_model.specs.Generation as sets;
ghost use Rattle.census_command.specs.Advances.{AdvanceFails, AdvancesBy, IsAdvanced, LacksText, Outgrows, Takes};
ghost use Rattle.census_command.specs.Streams.{HasSoundStreams};
ghost use Rattle.census_errors.specs.Files.{file_of};
ghost use Rattle.census_errors.specs.declared.advance_error.AdvanceError.TheVariants.{TooManyCells};

use census_bundle::INPUT_LIMIT;
use census_errors::{AdvanceError, file_of};
use census_faults::{spot_of_text, text_fault};
use census_folders::{Shelf, read_file};
use life_advance::generation_of;
use life_board::Board;
use life_cells::{CellList, Rule};
use life_plane::{AGE_LIMIT, Plane};
use life_text::{RleFault, read_rle, write_rle};
use std::alloc::Global;
use std::io::{Read, Write};
use watched::{Streams, put_all, read_all};

// Fails where a plane has more than `most` cells.
fn check_cells(board: &Board, most: u32) -> Result<(), AdvanceError>
    ensures { MatchResult result (λ _. sets.size board.now.0 ≤ most)
        (λ error. (error ≡ TooManyCells most board.now.1) × (most < sets.size board.now.0)) }
{
    if board.population() > u64::from(most) {
        return Err(AdvanceError::TooManyCells {
            most,
            generation: board.age(),
        });
    }
    Ok(())
}

// What the cells of a list become after `generations` generations, by steps alone. The first generation that has more than `most`
// cells ends it.
fn walked(
    alloc: Global,
    rule: &Rule,
    list: &CellList,
    generations: u32,
    most: u32,
) -> Result<CellList, AdvanceError>
    requires generations { generations ≤ AGE_LIMIT }
    requires within { All (IsWithin 0) (sets.cells list.now) }
    ensures later { IfOk result (λ later. later ≡ generation rule.now list.now generations) }
    ensures small { OnOk result (first_past (Some most) rule.now list.now generations ≡ None) }
    ensures fails { IfErr result (λ e. Outgrows e rule.now list.now generations (Some most)) }
{
    let mut board = Board::from_cells(alloc, list)?;
    for age in 0..generations {
        check_cells(&board, most)?;
        board.step(rule)?;
    }
    check_cells(&board, most)?;
    Ok(board.cells()?)
}

// What the cells of a list become after `generations` generations, none of which may have more than `cells` cells, where there is
// such a limit.
fn later_cells(
    alloc: Global,
    rule: &Rule,
    list: &CellList,
    generations: u32,
    cells: Option<u32>,
) -> Result<CellList, AdvanceError>
    requires generations { generations ≤ AGE_LIMIT }
    requires within { All (IsWithin 0) (sets.cells list.now) }
    ensures later { IfOk result (λ later. later ≡ generation rule.now list.now generations) }
    ensures small { OnOk result (first_past cells rule.now list.now generations ≡ None) }
    ensures fails { IfErr result (λ e. Outgrows e rule.now list.now generations cells) }
{
    match cells {
        Some(most) => walked(alloc, rule, list, generations, most),
        None => Ok(generation_of(alloc, rule, list, generations)?),
    }
}

// The RLE text of a generation of the pattern that a text means.
fn advanced_text(
    alloc: Global,
    text: &[u8],
    generations: u32,
    cells: Option<u32>,
) -> Result<Vec<u8>, AdvanceError>
    requires { generations ≤ AGE_LIMIT }
    ensures { MatchResult result
        (λ written. IsAdvanced text.now generations cells written.items)
        (λ error. LacksText error text.now generations cells) }
{
    let pattern = match read_rle(alloc, text) {
        Ok(pattern) => pattern,
        Err(RleFault::Memory) => return Err(AdvanceError::Memory),
        Err(fault) => {
            return Err(AdvanceError::Text {
                fault,
                told: text_fault(text, fault),
                spot: spot_of_text(text, &fault),
            });
        }
    };
    let rule = pattern.rule();
    let later = later_cells(alloc, &rule, pattern.cells(), generations, cells)?;
    let mut written = Vec::new(alloc);
    write_rle(&rule, &later, &mut written)?;
    Ok(written)
}

// The text of a file, or of standard input where there is none, read to its end.
fn given_text<S: Shelf, I: Read, O: Write, E: Write>(
    shelf: &S,
    alloc: Global,
    file: Option<&str>,
    streams: &mut Streams<I, O, E>,
) -> Result<Vec<u8>, AdvanceError>
    requires sound { HasSoundStreams streams.old }
    ensures taken { IfOk result
        (λ text. Takes (S.tellings shelf.now)
        (option_map (λ s. s.now) file.entry) text.items streams.old streams.new) }
    ensures sound { OnOk result (HasSoundStreams streams.new) }
    ensures fails { IfErr result (λ e. (n : ℕ) (limit : Option ℕ) → AdvanceFails e
        (S.tellings shelf.now)
        (option_map (λ s. s.now) file.entry) n limit streams.old streams.new) }
    ensures unwritten { streams.new.output ≡ streams.old.output }
    ensures quiet { streams.new.errors ≡ streams.old.errors }
{
    match file {
        Some(path) => Ok(read_file(shelf, alloc, path.as_bytes())?),
        None => Ok(read_all(alloc, &mut streams.input, INPUT_LIMIT)?),
    }
}

/// Reads RLE text to its end, from a file, or from standard input where there is none or it is `-`. Writes the RLE text of
/// generation N of its pattern, unless one of the generations from 0 to N has more than `cells` cells, where there is such a limit.
///
/// The whole text is made before its first byte is written, so nothing is written where the input is refused or memory is. A file
/// that is not a regular file is not opened, and can't be read.
pub fn advance<S: Shelf, I: Read, O: Write, E: Write>(
    shelf: &S,
    alloc: Global,
    generations: u32,
    cells: Option<u32>,
    file: Option<&str>,
    streams: &mut Streams<I, O, E>,
) -> Result<(), AdvanceError>
    requires generations { generations ≤ AGE_LIMIT }
    requires sound { HasSoundStreams streams.old }
    ensures done { OnOk result
        (AdvancesBy Appends (S.tellings shelf.now)
        (file_of (option_map (λ s. s.now) file.entry)) generations cells streams.old streams.new) }
    ensures sound { OnOk result (HasSoundStreams streams.new) }
    ensures fails { IfErr result (λ e. AdvanceFails e
        (S.tellings shelf.now)
        (file_of (option_map (λ s. s.now) file.entry)) generations cells streams.old streams.new) }
    ensures quiet { streams.new.errors ≡ streams.old.errors }
{
    let text = given_text(shelf, alloc, file_of(file), streams)?;
    let later = advanced_text(alloc, text.as_slice(), generations, cells)?;
    put_all(&mut streams.output, later.as_slice())?;
    Ok(())
}
