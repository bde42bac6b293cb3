//! The least text of sets in all eight orientations.
ghost use Rattle.std.specs.Prelude.{◌≡◌, ◌*◌, ◌<◌, ◌≤◌, All, IfSome, IsTrue, None, OnErr, OnOk, T, [], false, length, true, unwrap_or};
ghost use Rattle.std.specs.List.{fold};
ghost use Rattle.life_model.specs.Box.{height, width};
ghost use Rattle.life_model.specs.Generation.{cells, from_list, is_rising};
ghost use Rattle.life_model.specs.Symmetry.{Half, Same, Swap, SwapHalf};
ghost use Rattle.life_cells.specs.Limits.{IsPlace, extent_limit};
ghost use Rattle.life_cells.specs.Orients.{orientation};
ghost use Rattle.life_answer.specs.Apgcode.{turned_bodies};
ghost use Rattle.life_codes.specs.Lengths.Frames.{IsBounded, frame_of};
ghost use Rattle.life_codes.specs.Lengths.Grids.{both_texts, grid_text};
ghost use Rattle.life_codes.specs.Keys.{key_text};
ghost use Rattle.life_codes.specs.Least.{IsTaken, two_bodies, with_text};
ghost use Rattle.life_codes.specs.Lengths.Words.{AreLengths};

use crate::choice::Choice;
use crate::grid::{Grid, make_grid};
use crate::keys::{key_of, push_key};
use crate::lengths::{
    FourLengths, Frame, Lengths, WideMarks, four_lengths, frame_of, wide_lengths,
};
use crate::writing::{begin_text, digit, end_text, strip_of, value_at};
use life_cells::{CellList, Orient, Shape};
use std::alloc::{AllocError, Global};
use std::marker::Model;
use std::mem::swap;

/// The least Wechsler text of sets in all eight orientations, by length, then by bytes, found set by set.
#[derive(Drop)]
pub struct LeastText {
    least: Choice,
    next: Choice,
    room: Room,
    alloc: Global,
}

impl Model for LeastText {
    ghost use Rattle.std.specs.Prelude.{List, Option, ℕ};

    ghost Value = { Option (List ℕ) };

    ghost view = { λ l. l.least };
}

/// Memory for two grids, for marks and for a text.
#[derive(Drop)]
struct Room {
    first: Grid,
    second: Grid,
    marks: WideMarks,
    text: Vec<u8>,
}

impl Room {
    /// Sets the number of strips of the first grid to 0.
    fn forget(&mut self)
        ensures { self.new.first.strips ≡ 0 }
    {
        self.first.forget();
    }
}

/// True where the least text is less than that of a grid, which has `bytes` bytes, by its length or by its first byte alone.
fn is_beyond(
    least: &Choice,
    values: &[u8],
    wide: usize,
    strips: usize,
    back: bool,
    bytes: usize,
) -> bool
    requires some { 0 < strips }
    requires wide { 0 < wide }
    requires room { length values.now ≡ strips * wide }
    requires small { All (λ v. v < 36) values.now }
    requires bytes { bytes ≡ length (grid_text values.now wide strips back) }
    ensures { IsTrue result →
        with_text least.now (grid_text values.now wide strips back) ≡ least.now }
{
    if least.is_shorter(bytes) {
        return true;
    }
    let first = value_at(strip_of(values, wide, 0), 0, back);
    first != 0 && least.is_before(bytes, digit(first))
}

/// Takes the text of a grid, which has `bytes` bytes. It is written only until the least text is known to be less.
fn add_text(
    least: &mut Choice,
    text: &mut Vec<u8>,
    grid: &Grid,
    back: bool,
    bytes: usize,
) -> Result<(), AllocError>
    requires some { 0 < grid.now.strips }
    requires wide { 0 < grid.now.wide }
    requires room { length grid.now.values.items ≡ grid.now.strips * grid.now.wide }
    requires small { All (λ v. v < 36) grid.now.values.items }
    requires bytes { bytes ≡ length (grid_text grid.now.values.items grid.now.wide grid.now.strips
        back) }
    ensures { OnOk result
        (least.new ≡
        with_text least.old (grid_text grid.now.values.items grid.now.wide grid.now.strips back)) }
{
    if is_beyond(least, &grid.values, grid.wide, grid.strips, back, bytes) {
        return Ok(());
    }
    text.clear();
    text.reserve(bytes)?;
    begin_text(text, &grid.values, grid.wide, back)?;
    if !least.is_begun_before(bytes, text) {
        end_text(text, &grid.values, grid.wide, grid.strips, back)?;
        least.offer(text);
    }
    Ok(())
}

/// Takes the text of the first `wide` columns of a key, unless the least text is shorter.
fn add_key(least: &mut Choice, text: &mut Vec<u8>, key: u32, wide: usize) -> Result<(), AllocError>
    requires { wide ≤ 5 }
    ensures ok { OnOk result (least.new ≡ with_text least.old (key_text wide key)) }
    ensures err { OnErr result (least.new ≡ least.old) }
{
    if least.is_shorter(wide) {
        return Ok(());
    }
    text.clear();
    text.reserve(wide)?;
    push_key(text, key, wide)?;
    least.offer(text);
    Ok(())
}

/// Makes a grid of cells, turned by a map, whose texts are those of the cells and of their mirror image. It is compiled
/// once for each of the four maps that it is called with, so that a cell's turn costs no branch.
#[inline(always)]
fn make_turned(
    grid: &mut Grid,
    cells: &[(i32, i32)],
    frame: Frame,
    orient: Orient,
) -> Result<(), AllocError>
    requires some { 0 < length cells.now }
    requires rising { T (is_rising cells.now) }
    requires placed { All IsPlace cells.now }
    requires frame { frame ≡ frame_of cells.now }
    requires bounded { IsBounded frame }
    ensures some { OnOk result (0 < grid.new.strips) }
    ensures wide { OnOk result (0 < grid.new.wide) }
    ensures room { OnOk result (length grid.new.values.items ≡ grid.new.strips * grid.new.wide) }
    ensures small { OnOk result (All (λ v. v < 36) grid.new.values.items) }
    ensures texts { OnOk result
        (both_texts grid.new.values.items grid.new.wide grid.new.strips ≡
        two_bodies (from_list cells.now) (orientation orient)) }
{
    let turned = frame.turned(orient);
    make_grid(&mut grid.values, cells, orient, turned)?;
    grid.wide = turned.width();
    grid.strips = turned.strips();
    Ok(())
}

/// Takes the texts of the second grid, unless it is the same as the first, whose texts were taken. It becomes the first.
fn add_second(least: &mut Choice, room: &mut Room, lengths: Lengths) -> Result<(), AllocError>
    requires some { 0 < room.old.second.strips }
    requires wide { 0 < room.old.second.wide }
    requires room { length room.old.second.values.items ≡
        room.old.second.strips * room.old.second.wide }
    requires small { All (λ v. v < 36) room.old.second.values.items }
    requires forward { lengths.forward ≡
        length (grid_text room.old.second.values.items room.old.second.wide room.old.second.strips
        false) }
    requires backward { lengths.backward ≡
        length (grid_text room.old.second.values.items room.old.second.wide room.old.second.strips
        true) }
    requires taken { IsTaken least.old room.old.first.values.items room.old.first.wide
        room.old.first.strips }
    ensures texts { OnOk result
        (least.new ≡
        fold with_text least.old
        (both_texts room.old.second.values.items room.old.second.wide room.old.second.strips)) }
    ensures taken { OnOk result
        (IsTaken least.new room.new.first.values.items room.new.first.wide room.new.first.strips) }
{
    if room.second.is_same(&room.first) {
        return Ok(());
    }
    add_text(least, &mut room.text, &room.second, false, lengths.forward)?;
    add_text(least, &mut room.text, &room.second, true, lengths.backward)?;
    swap(&mut room.first, &mut room.second);
    Ok(())
}

/// Takes the texts of cells, turned by a map, and of their mirror image, which have these lengths. A grid is made only if the
/// least text is not known to be shorter than both. The first grid is the last one whose texts were taken.
#[inline(always)]
fn add_turned(
    least: &mut Choice,
    room: &mut Room,
    cells: &[(i32, i32)],
    frame: Frame,
    orient: Orient,
    lengths: Lengths,
) -> Result<(), AllocError>
    requires some { 0 < length cells.now }
    requires rising { T (is_rising cells.now) }
    requires placed { All IsPlace cells.now }
    requires frame { frame ≡ frame_of cells.now }
    requires bounded { IsBounded frame }
    requires lengths { AreLengths lengths (from_list cells.now) (orientation orient) }
    requires taken { IsTaken least.old room.old.first.values.items room.old.first.wide
        room.old.first.strips }
    ensures texts { OnOk result
        (least.new ≡
        fold with_text least.old (two_bodies (from_list cells.now) (orientation orient))) }
    ensures taken { OnOk result
        (IsTaken least.new room.new.first.values.items room.new.first.wide room.new.first.strips) }
{
    if least.is_shorter(lengths.forward) && least.is_shorter(lengths.backward) {
        return Ok(());
    }
    make_turned(&mut room.second, cells, frame, orient)?;
    add_second(least, room, lengths)
}

/// Takes the texts of cells and of their half turn, and of the mirror images of both.
fn add_upright(
    least: &mut Choice,
    room: &mut Room,
    cells: &[(i32, i32)],
    frame: Frame,
    lengths: FourLengths,
) -> Result<(), AllocError>
    requires some { 0 < length cells.now }
    requires rising { T (is_rising cells.now) }
    requires placed { All IsPlace cells.now }
    requires frame { frame ≡ frame_of cells.now }
    requires bounded { IsBounded frame }
    requires same { AreLengths lengths.same (from_list cells.now) Same }
    requires half { AreLengths lengths.half (from_list cells.now) Half }
    requires taken { IsTaken least.old room.old.first.values.items room.old.first.wide
        room.old.first.strips }
    ensures texts { OnOk result
        (least.new ≡
        fold with_text
        (fold with_text least.old (two_bodies (from_list cells.now) Same))
        (two_bodies (from_list cells.now) Half)) }
    ensures taken { OnOk result
        (IsTaken least.new room.new.first.values.items room.new.first.wide room.new.first.strips) }
{
    add_turned(least, room, cells, frame, Orient::Same, lengths.same)?;
    add_turned(least, room, cells, frame, Orient::Half, lengths.half)
}

/// Takes the texts of cells with x and y swapped and of their half turn, and of the mirror images of both.
fn add_swapped(
    least: &mut Choice,
    room: &mut Room,
    cells: &[(i32, i32)],
    frame: Frame,
    lengths: FourLengths,
) -> Result<(), AllocError>
    requires some { 0 < length cells.now }
    requires rising { T (is_rising cells.now) }
    requires placed { All IsPlace cells.now }
    requires frame { frame ≡ frame_of cells.now }
    requires bounded { IsBounded frame }
    requires swap { AreLengths lengths.swap (from_list cells.now) Swap }
    requires swap_half { AreLengths lengths.swap_half (from_list cells.now) SwapHalf }
    requires taken { IsTaken least.old room.old.first.values.items room.old.first.wide
        room.old.first.strips }
    ensures texts { OnOk result
        (least.new ≡
        fold with_text
        (fold with_text least.old (two_bodies (from_list cells.now) SwapHalf))
        (two_bodies (from_list cells.now) Swap)) }
    ensures taken { OnOk result
        (IsTaken least.new room.new.first.values.items room.new.first.wide room.new.first.strips) }
{
    let turned = lengths.swap_half;
    add_turned(least, room, cells, frame, Orient::SwapHalf, turned)?;
    add_turned(least, room, cells, frame, Orient::Swap, lengths.swap)
}

/// Takes the texts of cells, turned by each of the eight maps, with the shortest of them among the first.
fn add_eight(
    least: &mut Choice,
    room: &mut Room,
    cells: &[(i32, i32)],
    frame: Frame,
    lengths: FourLengths,
) -> Result<(), AllocError>
    requires some { 0 < length cells.now }
    requires rising { T (is_rising cells.now) }
    requires placed { All IsPlace cells.now }
    requires frame { frame ≡ frame_of cells.now }
    requires bounded { IsBounded frame }
    requires same { AreLengths lengths.same (from_list cells.now) Same }
    requires half { AreLengths lengths.half (from_list cells.now) Half }
    requires swap { AreLengths lengths.swap (from_list cells.now) Swap }
    requires swap_half { AreLengths lengths.swap_half (from_list cells.now) SwapHalf }
    ensures { OnOk result
        (least.new ≡ fold with_text least.old (turned_bodies (from_list cells.now))) }
{
    room.forget();
    if lengths.swapped() < lengths.upright() {
        add_swapped(least, room, cells, frame, lengths)?;
        add_upright(least, room, cells, frame, lengths)
    } else {
        add_upright(least, room, cells, frame, lengths)?;
        add_swapped(least, room, cells, frame, lengths)
    }
}

/// Takes the texts of a shape, turned by each of the eight maps.
fn add_shape(least: &mut Choice, shape: &Shape) -> Result<(), AllocError>
    ensures { OnOk result (least.new ≡ fold with_text least.old (turned_bodies shape.now)) }
{
    for orient in &Orient::ALL {
        let mut text = shape.turned(*orient)?.text()?;
        least.offer(&mut text);
    }
    Ok(())
}

impl LeastText {
    /// The least text of no set. Takes no memory.
    pub fn new(alloc: Global) -> LeastText
        ensures { result ≡ None }
    {
        LeastText {
            least: Choice::new(alloc),
            next: Choice::new(alloc),
            room: Room {
                first: Grid::new(alloc),
                second: Grid::new(alloc),
                marks: WideMarks::new(alloc),
                text: Vec::new(alloc),
            },
            alloc,
        }
    }

    /// Adds the texts of cells in order, turned by each of the eight maps, which have these lengths.
    fn add_cells(
        &mut self,
        cells: &[(i32, i32)],
        frame: Frame,
        lengths: FourLengths,
    ) -> Result<(), AllocError>
        requires some { 0 < length cells.now }
        requires rising { T (is_rising cells.now) }
        requires placed { All IsPlace cells.now }
        requires frame { frame ≡ frame_of cells.now }
        requires bounded { IsBounded frame }
        requires same { AreLengths lengths.same (from_list cells.now) Same }
        requires half { AreLengths lengths.half (from_list cells.now) Half }
        requires swap { AreLengths lengths.swap (from_list cells.now) Swap }
        requires swap_half { AreLengths lengths.swap_half (from_list cells.now) SwapHalf }
        ensures ok { OnOk result
            (self.new ≡ fold with_text self.old (turned_bodies (from_list cells.now))) }
        ensures err { OnErr result (self.new ≡ self.old) }
    {
        if self.least.is_below(lengths.same, lengths.half)
            && self.least.is_below(lengths.swap, lengths.swap_half)
        {
            return Ok(());
        }
        self.next.copy(&self.least)?;
        add_eight(&mut self.next, &mut self.room, cells, frame, lengths)?;
        swap(&mut self.least, &mut self.next);
        Ok(())
    }

    /// Adds the texts of a set by its shapes.
    fn add_shapes(&mut self, list: &CellList) -> Result<(), AllocError>
        requires wide { width list.now ≤ extent_limit }
        requires high { height list.now ≤ extent_limit }
        ensures ok { OnOk result (self.new ≡ fold with_text self.old (turned_bodies list.now)) }
        ensures err { OnErr result (self.new ≡ self.old) }
    {
        let (shape, _) = Shape::of(self.alloc, list)?;
        self.next.copy(&self.least)?;
        add_shape(&mut self.next, &shape)?;
        swap(&mut self.least, &mut self.next);
        Ok(())
    }

    /// Adds the texts of a set with this frame: from words of bits and from grids, unless those would be mostly empty, and
    /// otherwise from shapes.
    fn add_framed(&mut self, list: &CellList, frame: Option<Frame>) -> Result<(), AllocError>
        requires wide { width list.now ≤ extent_limit }
        requires high { height list.now ≤ extent_limit }
        requires some { IfSome frame (λ f. 0 < length (cells list.now)) }
        requires frame { IfSome frame (λ f. f ≡ frame_of (cells list.now)) }
        requires bounded { IfSome frame IsBounded }
        ensures ok { OnOk result (self.new ≡ fold with_text self.old (turned_bodies list.now)) }
        ensures err { OnErr result (self.new ≡ self.old) }
    {
        let cells = list.as_slice();
        match frame {
            Some(frame) if frame.is_small() => {
                let lengths = four_lengths(cells, frame);
                self.add_cells(cells, frame, lengths)
            }
            Some(frame) if frame.is_dense(cells.len()) => {
                let lengths = wide_lengths(&mut self.room.marks, cells, frame)?;
                self.add_cells(cells, frame, lengths)
            }
            _ => self.add_shapes(list),
        }
    }

    /// Adds the texts of a set. After an `Err` nothing has changed.
    ///
    /// The bounding box of the set is at most 16,777,216 wide and high.
    pub fn add(&mut self, list: &CellList) -> Result<(), AllocError>
        requires wide { width list.now ≤ extent_limit }
        requires high { height list.now ≤ extent_limit }
        ensures ok { OnOk result (self.new ≡ fold with_text self.old (turned_bodies list.now)) }
        ensures err { OnErr result (self.new ≡ self.old) }
    {
        let cells = list.as_slice();
        let frame = frame_of(cells);
        match key_of(cells, frame) {
            Some((key, wide)) => add_key(&mut self.least, &mut self.room.text, key, wide),
            None => self.add_framed(list, frame),
        }
    }

    /// The least text so far, or no bytes if no set was added.
    pub fn text(&self) -> &[u8]
        ensures { result.now ≡ unwrap_or self.now [] }
    {
        self.least.text()
    }

    /// The least text itself, or no bytes if no set was added.
    pub fn into_text(self) -> Vec<u8>
        ensures { result.items ≡ unwrap_or self [] }
    {
        self.least.into_text()
    }
}
