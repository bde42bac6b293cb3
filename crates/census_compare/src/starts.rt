//! The patterns of folders that are the same at the start.
ghost use Rattle.std.specs.Prelude.{◌≡◌, ◌≢◌, ◌↔◌, ◌++◌, ℕ, All, List, [], None, codes, false, map, IfOk, OnErr, OnOk};
ghost use Rattle.std.specs.List.{cons_option, filter_map};
ghost use Rattle.watched.specs.Telling.{sheet, TellsAfter};
ghost use Rattle.life_model.specs.Generation as generation;
ghost use Rattle.life_cells.specs.Limits.{IsWithin};
ghost use Rattle.life_cells.specs.Rules.{rule_text};
ghost use Rattle.life_text.specs.declared.rle.RleFault.TheVariants.{Memory};
ghost use Rattle.census_format.specs.Lines.{pattern_count};
ghost use Rattle.census_table.specs.Places.{AreRising};
ghost use Rattle.census_compare.specs.Alike.{least_body, AreAlike};
ghost use Rattle.census_compare.specs.Same.{FindsSame};
ghost use Rattle.census_compare.specs.Starts.{WritesStarts, has_failed, picture_in, start_in, start_of, started_note, starts_of};
ghost use Rattle.census_compare.specs.StartsRead.{start_read, told_in};
ghost use Rattle.census_compare.specs.declared.told.Told.{Told as ModelTold};

use crate::listing::{AtPlaces, shared_tolds};
use crate::notes::counted_line;
use crate::same::put_tolds;
use crate::told::{Told, no_told};
use census_bundle::{Bundle, Entry};
use census_faults::RunFault;
use census_table::Place;
use life_cells::{CellList, Rule};
use life_codes::LeastText;
use life_text::{Pattern, RleFault, read_rle};
use std::alloc::{AllocError, Global};
use std::io::Write;
use watched::{Block, Output, send};

// A pattern of a bundle: its rule, `_` and the least text of its cells in all eight orientations, and its names.
#[derive(Drop)]
struct Begun<'a> {
    rule: Vec<u8>,
    code: Vec<u8>,
    collection: &'a [u8],
    name: &'a [u8],
}

// `_` and the least text of cells in all eight orientations.
fn code_of(alloc: Global, cells: &CellList) -> Result<Vec<u8>, AllocError>
    requires { All (IsWithin 0) (generation.cells cells.now) }
    ensures { IfOk result (λ code. code.items ≡ codes "_" ++ least_body cells.now) }
{
    let mut least = LeastText::new(alloc);
    least.add(cells)?;
    let mut code = Vec::from_slice(alloc, b"_")?;
    code.extend_from_slice(least.text())?;
    Ok(code)
}

// The text of a rule.
fn text_of(alloc: Global, rule: Rule) -> Result<Vec<u8>, AllocError>
    ensures { IfOk result (λ text. text.items ≡ rule_text rule) }
{
    let mut text = Vec::new(alloc);
    rule.text_into(&mut text)?;
    Ok(text)
}

// No pattern, for this fault of a text.
fn no_pattern(fault: RleFault) -> Result<Option<Pattern>, AllocError>
    ensures { IfOk result (λ pattern. (pattern ≡ None) × (fault ≢ Memory)) }
{
    match fault {
        RleFault::Memory => Err(AllocError),
        _ => Ok(None),
    }
}

// The pattern that the text of an entry means, where it is there and has no fault.
fn pattern_of(alloc: Global, entry: &Entry) -> Result<Option<Pattern>, AllocError>
    ensures { IfOk result (λ pattern. pattern ≡ picture_in entry.now) }
{
    if entry.is_lost {
        return Ok(None);
    }
    match read_rle(alloc, entry.text.as_slice()) {
        Ok(pattern) => Ok(Some(pattern)),
        Err(fault) => no_pattern(fault),
    }
}

// Adds the pattern of an entry of this collection, where its text is there and has no fault.
fn add_entry<'a>(
    alloc: Global,
    collection: &'a [u8],
    entry: &'a Entry,
    starts: &mut Vec<Begun<'a>>,
) -> Result<(), AllocError>
    ensures { OnOk result (map start_read starts.new.items ≡ map start_read starts.old.items
        ++ cons_option (start_in collection.now entry.now) []) }
{
    if let Some(pattern) = pattern_of(alloc, entry)? {
        starts.push(Begun {
            rule: text_of(alloc, pattern.rule())?,
            code: code_of(alloc, pattern.cells())?,
            collection,
            name: entry.name.as_slice(),
        })?;
    }
    Ok(())
}

// Adds the patterns of the entries of this collection.
fn add_entries<'a>(
    alloc: Global,
    collection: &'a [u8],
    entries: &'a [Entry],
    starts: &mut Vec<Begun<'a>>,
) -> Result<(), AllocError>
    ensures { OnOk result (map start_read starts.new.items ≡ map start_read starts.old.items
        ++ filter_map (start_in collection.now) entries.now) }
{
    for entry in entries {
        add_entry(alloc, collection, entry, starts)?;
    }
    Ok(())
}

// The patterns of a bundle whose texts are there and have no fault, folder by folder.
fn read_starts<'a>(alloc: Global, bundle: &'a Bundle) -> Result<Vec<Begun<'a>>, AllocError>
    ensures { IfOk result (λ starts. map start_read starts.items ≡ starts_of bundle.now) }
{
    let mut starts = Vec::new(alloc);
    for folder in bundle.folders() {
        add_entries(
            alloc,
            folder.name.as_slice(),
            folder.entries.as_slice(),
            &mut starts,
        )?;
    }
    Ok(starts)
}

// How many patterns a bundle has.
fn patterns_in(bundle: &Bundle) -> u64
    ensures { result ≡ pattern_count bundle.now }
{
    let mut count: u64 = 0;
    for folder in bundle.folders() {
        count += folder.entries.as_slice().len() as u64;
    }
    count
}

// The line that says how many patterns of a bundle are compared, which are these, and how many there are; nothing where all are.
fn started_note(alloc: Global, bundle: &Bundle, starts: &[Begun]) -> Result<Vec<u8>, AllocError>
    requires { map start_read starts.now ≡ starts_of bundle.now }
    ensures { IfOk result (λ line. line.items ≡ started_note bundle.now) }
{
    counted_line(alloc, starts.len() as u64, patterns_in(bundle))
}

// A pattern, as it is compared with others.
fn told_of<'s>(start: &'s Begun<'_>) -> Told<'s>
    ensures { start_of result ≡ start_read start.now }
{
    Told {
        rule: start.rule.as_slice(),
        code: start.code.as_slice(),
        collection: start.collection,
        name: start.name,
    }
}

// Patterns, as they are compared with each other.
fn tolds_of<'s>(alloc: Global, starts: &'s [Begun<'_>]) -> Result<Vec<Told<'s>>, AllocError>
    ensures { IfOk result (λ tolds. map start_of tolds.items ≡ map start_read starts.now) }
{
    let mut tolds = Vec::with_capacity(alloc, starts.len())?;
    for start in starts {
        tolds.push(told_of(start))?;
    }
    Ok(tolds)
}

// Patterns of a bundle. The rows of their places are their indices.
#[derive(Drop)]
struct InFolders<'a> {
    tolds: Vec<Told<'a>>,
    // What is there where no pattern is. No place has it.
    nothing: Told<'a>,
}

impl<'a> AtPlaces for InFolders<'a> {
    ghost use Rattle.census_compare.specs.StartsRead.{told_in};

    ghost told = { λ f place. told_in f.nothing f.tolds.items place };

    fn told_at(&self, place: Place) -> Told<'_> {
        let index = place.row as usize;
        if index < self.tolds.len() {
            self.tolds[index]
        } else {
            self.nothing
        }
    }

    fn keyed_at(&self, place: Place) -> Told<'_> {
        self.told_at(place)
    }
}

// The places of these patterns.
fn places_of(alloc: Global, nothing: &Told, tolds: &[Told]) -> Result<Vec<Place>, AllocError>
    ensures told { IfOk result (λ places. map (told_in nothing.now tolds.now) places.items ≡ tolds.now) }
    ensures rising { IfOk result (λ places. AreRising places.items) }
{
    let mut places = Vec::with_capacity(alloc, tolds.len())?;
    for index in 0..tolds.len() {
        places.push(Place::of(0, 0, index)?)?;
    }
    Ok(places)
}

// Puts the patterns that are the same at the start. Returns whether there are any. The only error is out of memory; then a prefix
// has been put.
fn put_starts<W: Write>(
    alloc: Global,
    json: bool,
    starts: &[Begun],
    block: &mut Block,
    writer: &mut Output<W>,
) -> Result<bool, AllocError>
    ensures { IfOk result (λ found. (tolds : List ModelTold) × (map start_of tolds ≡ map start_read starts.now)
        × (text : List ℕ) × FindsSame json tolds found text
        × TellsAfter text (sheet block.old writer.old) (sheet block.new writer.new)) }
{
    let tolds = tolds_of(alloc, starts)?;
    let nothing = no_told();
    let places = places_of(alloc, &nothing, tolds.as_slice())?;
    let same = shared_tolds(alloc, InFolders { tolds, nothing }, places)?;
    put_tolds(alloc, json, &same, block, writer)
}

/// Writes the patterns of a bundle that are the same at the start, under one rule, as `put_same` writes those that are one object.
/// In place of a code they have `_` and the least text of their cells in all eight orientations. Patterns whose texts are lost or
/// have faults are left out: then a line on standard error says how many were compared. Returns whether there are any that are the
/// same.
///
/// The cells of one pattern are held at a time, and the texts of all of them. On an error nothing is said on standard error: on
/// `Memory` nothing was written, or a prefix, and on `Write` a prefix.
pub fn write_starts<O: Write, E: Write>(
    alloc: Global,
    json: bool,
    bundle: &Bundle,
    output: &mut Output<O>,
    errors: &mut Output<E>,
) -> Result<bool, RunFault>
    requires { output.old.stream.failed ≡ false }
    ensures writes { IfOk result (λ found. WritesStarts json bundle.now found output.old.stream output.new.stream
        errors.old.stream errors.new.stream) }
    ensures failed { output.new.stream.failed ≡ has_failed result }
    ensures quiet { OnErr result (errors.new.stream ≡ errors.old.stream) }
{
    let starts = read_starts(alloc, bundle)?;
    let note = started_note(alloc, bundle, starts.as_slice())?;
    let mut block = Block::new(alloc);
    let put = put_starts(alloc, json, starts.as_slice(), &mut block, output);
    send(&mut block, output)?;
    let found = put?;
    errors.tell(note.as_slice());
    Ok(found)
}

/// Two sets have the same least text in all eight orientations exactly if one of the eight maps takes the one to the other, but for
/// a move.
pub fn least_texts_tell_sets()
    ensures { (G H : generation.Generation) → (least_body G ≡ least_body H) ↔ AreAlike G H }
{}
