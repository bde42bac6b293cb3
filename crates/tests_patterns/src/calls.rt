//! Calls on rules, lists of cells, texts, codes and counts by code.

use life_answer::{Code, EngineList, Parts, Tale};
use life_cells::{CellFault, CellList, CodeFault, Rule, RuleFault};
use life_codes::prefix;
use life_slots::{Leaf, push_row};
use life_text::{RleFault, read_rle, write_rle};
use std::test::Fail;

const RULE: &[u8] = b"s32/b33";

const LIFE: &[u8] = b"B3/S23";

const SPELLED: &[u8] = b"x=3,y=3\r\n.A$2.A$3A!";

const WRITTEN: &[u8] = b"B3/S23x = 3, y = 3, rule = B3/S23\nbo$2bo$3o!\n";

const PREFIX: &[u8] = b"xq4_";

const CELLS: &[(i32, i32)] = &[(1, 1), (0, 1), (1, 1), (-5, 0)];

const IN_ORDER: &[(i32, i32)] = &[(-5, 0), (0, 1), (1, 1)];

// The cells of the bits of 5, from (-3, 7) on.
const ROW: &[(i32, i32)] = &[(-3, 7), (-1, 7)];

const CORNER: &[(i32, i32)] = &[(100, 200), (103, 200), (131, 231)];

#[test]
fn cells_are_listed(rt: HostRuntime) -> Result<(), Fail> {
    let list = CellList::of(rt.alloc(), CELLS)?;
    assert!(rt; list.as_slice() == IN_ORDER);
    let mut cells = CellList::with_capacity(rt.alloc(), 5)?.into_vec();
    Leaf::of(CORNER, (100, 200)).push_cells((100, 200), &mut cells)?;
    assert!(rt; cells.as_slice() == CORNER);
    push_row(&mut cells, -3, 7, 5)?;
    assert!(rt; cells.as_slice().ends_with(ROW));
    Ok(())
}

#[test]
fn texts_are_read_and_written(rt: HostRuntime) -> Result<(), Fail> {
    let mut text = Vec::new(rt.alloc());
    Rule::parse(RULE)?.text_into(&mut text)?;
    assert!(rt; text.as_slice() == LIFE);
    let pattern = read_rle(rt.alloc(), SPELLED)?;
    write_rle(&pattern.rule(), pattern.cells(), &mut text)?;
    assert!(rt; text.as_slice() == WRITTEN);
    Ok(())
}

// A code that is too long to be held without memory of its own.
const LONG: &[u8] = b"xs14_123456789012345678901234567890";

#[test]
fn codes_are_counted(rt: HostRuntime) -> Result<(), Fail> {
    let head = prefix(rt.alloc(), 5, 4, (1, 1))?;
    assert!(rt; head.as_slice() == PREFIX);
    let mut emits = Parts::none(rt.alloc());
    for _ in 0..2 {
        let code = Code::of(rt.alloc(), LONG)?;
        assert!(rt; code.as_slice() == LONG);
        emits.add(code)?;
    }
    assert!(rt; matches!(emits.as_slice(), [part] if part.count == 2));
    let mut engines = EngineList::none(rt.alloc());
    engines.add(Tale {
        period: 30,
        dx: 0,
        dy: 0,
        emits,
    })?;
    assert!(rt; matches!(engines.as_slice(), [one] if one.count == 1));
    Ok(())
}

#[test]
fn faults_say_their_numbers(rt: HostRuntime) -> Result<(), Fail> {
    let cell = format!(in rt.alloc(); "{}", CellFault::OutOfField)?;
    let code = format!(in rt.alloc(); "{}", CodeFault::TooFar { at: 209_715 })?;
    let rule = format!(in rt.alloc(); "{}", RuleFault::HasB0)?;
    let text = format!(in rt.alloc(); "{} {}", RleFault::BadChar { at: 17 }, RleFault::NoEnd)?;
    assert!(rt; cell.as_str() == "cell fault 1" && code.as_str() == "code fault 4 at 209715");
    assert!(rt;
        rule.as_str() == "rule fault 2" && text.as_str() == "rle fault 6 at 17 rle fault 10"
    );
    Ok(())
}
