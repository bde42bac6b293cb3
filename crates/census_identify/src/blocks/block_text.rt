//! Blocks: the texts about single patterns.
ghost use Rattle.std.specs.Prelude.{◌≡◌, ◌≢◌, ◌≤◌, ◌++◌, All, IfOk, Ok, OnOk};
ghost use Rattle.std.specs.Option.{option_copied};
ghost use Rattle.life_model.specs.Box.{height, width};
ghost use Rattle.life_model.specs.Generation as generation;
ghost use Rattle.life_cells.specs.Limits.{IsWithin};
ghost use Rattle.life_text.specs.Picture.{picture_of};
ghost use Rattle.life_text.specs.Rle.{reading};
ghost use Rattle.life_text.specs.declared.rle.RleFault.TheVariants.{Memory};
ghost use Rattle.census_identify.specs.Blocks.Blocks.{block_of, pattern_block};
ghost use Rattle.census_identify.specs.Blocks.Things.{head_things};
ghost use Rattle.census_facts.specs.Facts.{things_in};

use crate::blocks::facts::{push_head, push_known};
use crate::blocks::inquiry::{HORIZON_LIMIT, Inquiry};
use crate::blocks::known::known_of;
use crate::blocks::size::size;
use census_facts::{Fact, Names, facts_text};
use life_cells::CellList;
use life_orbit::BOUND_LIMIT;
use life_plane::Observer;
use life_text::{Pattern, RleFault, read_rle};
use std::alloc::{AllocError, Global};
use std::marker::Model;

/// The bytes of the text about one pattern.
#[derive(Drop)]
pub struct BlockText {
    text: Vec<u8>,
}

impl Model for BlockText {
    ghost use Rattle.std.specs.Prelude.{List, ℕ};

    ghost Value = { List ℕ };

    ghost view = { λ b. b.text.items };
}

impl BlockText {
    /// Its bytes. They end with LF.
    pub fn as_slice(&self) -> &[u8]
        ensures { result.now ≡ self.now }
    {
        self.text.as_slice()
    }
}

// A fault of the text. Out of memory is not one, but an error.
fn told(fault: RleFault) -> Result<RleFault, AllocError>
    ensures same { IfOk result (λ told. told ≡ fault) }
    ensures text { OnOk result (fault ≢ Memory) }
{
    match fault {
        RleFault::Memory => Err(AllocError),
        _ => Ok(fault),
    }
}

// Adds the facts about generation 0.
fn push_beginning<'a>(
    alloc: Global,
    facts: &mut Vec<Fact<'a>>,
    file: Option<&'a [u8]>,
    rule: &'a [u8],
    list: &CellList,
) -> Result<(), AllocError>
    requires { All (IsWithin 0) (generation.cells list.now) }
    ensures { OnOk result (things_in facts.new.items ≡ things_in facts.old.items
        ++ head_things (option_copied file.entry) rule.now (generation.size list.now)
        (width list.now, height list.now)) }
{
    push_head(facts, file, rule, list.len(), size(alloc, list)?)
}

// The block of the pattern that a text means.
#[tactic(auto, unfolding(crate::specs::Blocks::Blocks::pattern_block))]
fn block_of_pattern<W: Observer>(
    alloc: Global,
    observer: &W,
    names: &Names,
    file: Option<&[u8]>,
    text: &[u8],
    pattern: &Pattern,
    inquiry: Inquiry,
) -> Result<BlockText, AllocError>
    requires bound { 1 ≤ inquiry.bound × inquiry.bound ≤ BOUND_LIMIT }
    requires horizon { 1 ≤ inquiry.horizon × inquiry.horizon ≤ HORIZON_LIMIT }
    requires meant { picture_of (reading text.now) ≡ Ok pattern.now }
    ensures { IfOk result (λ block.
        block ≡ pattern_block inquiry names.now (option_copied file.entry) pattern.now) }
{
    let mut rule = Vec::new(alloc);
    pattern.rule().text_into(&mut rule)?;
    let known = known_of(alloc, observer, text, pattern, inquiry)?;
    let mut facts = Vec::new(alloc);
    push_beginning(alloc, &mut facts, file, rule.as_slice(), pattern.cells())?;
    push_known(&mut facts, names, &known, inquiry.bound)?;
    let text = facts_text(alloc, inquiry.form, names, facts.as_slice())?;
    Ok(BlockText { text })
}

/// The block about the pattern of an RLE text, in the form of the inquiry, or the text's fault. The bound is 1 to 100,000
/// generations, and the horizon 1 to 10,000.
///
/// It has the file, where one is given, and the rule, the population and the bounding box of generation 0. Then it has, where
/// the pattern becomes one part within the bound, its onset, period, displacement and apgcode, and the name of that code, where
/// it has one; else, where it has fallen apart within the bound, the onset of its ash, the period and the displacement of the
/// whole, where all parts have one velocity and recur together within the bound, the number of objects that it has become, or
/// of independent parts where those that come near each other are not one object, and the number of each code, with its name;
/// else, where it grows within the horizon, the number of its engines, and the facts about each; else, where some generation
/// has more cells than the limit, the first such generation; else that it is unresolved within the bound. Generations past the
/// bound may be examined, up to four times the bound. Those on the way, up to three times the bound, are reported to an
/// observer.
pub fn block<W: Observer>(
    alloc: Global,
    observer: &W,
    names: &Names,
    file: Option<&[u8]>,
    text: &[u8],
    inquiry: Inquiry,
) -> Result<Result<BlockText, RleFault>, AllocError>
    requires bound { 1 ≤ inquiry.bound × inquiry.bound ≤ BOUND_LIMIT }
    requires horizon { 1 ≤ inquiry.horizon × inquiry.horizon ≤ HORIZON_LIMIT }
    ensures { IfOk result (λ block.
        block ≡ block_of inquiry names.now (option_copied file.entry) text.now) }
{
    match read_rle(alloc, text) {
        Ok(pattern) => Ok(Ok(block_of_pattern(
            alloc, observer, names, file, text, &pattern, inquiry,
        )?)),
        Err(fault) => Ok(Err(told(fault)?)),
    }
}
