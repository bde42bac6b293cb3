//! The place of a fault.

use crate::rle::{Place, line_and_column, place_of};
use census_bundle::BundleFault;
use life_cells::{CodeFault, body_of};
use life_text::RleFault;

/// The place of a fault in the input, as far as it is known.
#[derive(Clone, Copy, Debug, PartialEq, Eq, Drop)]
pub enum Spot {
    /// Nothing.
    Nowhere,
    /// Its line, counted from 1.
    Line(u64),
    /// Its line and its column, both counted from 1.
    At(Place),
}

/// The place of a fault of an RLE text: the line and the column at which a reader should look.
pub fn spot_of_text(text: &[u8], fault: &RleFault) -> Spot {
    match fault {
        RleFault::Memory => Spot::Nowhere,
        _ => Spot::At(place_of(text, fault)),
    }
}

/// The place of a fault of a bundle text: its line.
pub fn spot_of_bundle(fault: BundleFault) -> Spot {
    match fault {
        BundleFault::StrayText { line }
        | BundleFault::FileBeforeFolder { line }
        | BundleFault::BadAtLine { line }
        | BundleFault::BadName { line }
        | BundleFault::TooMany { line } => Spot::Line(line as u64),
        BundleFault::Memory => Spot::Nowhere,
    }
}

// The spot of a byte of a code's body, which is the end of the code. A byte after its end counts as the end.
fn body_spot(code: &[u8], at: usize) -> Spot {
    let body = body_of(code);
    let left = body.len() - at.min(body.len());
    Spot::At(line_and_column(code, code.len().saturating_sub(left)))
}

/// The place of a fault of a code's body: its byte in the code as a whole, or the code's end where it has no body.
pub fn spot_of_code(code: &[u8], fault: CodeFault) -> Spot {
    match fault {
        CodeFault::Empty => body_spot(code, 0),
        CodeFault::BadChar { at } | CodeFault::CutRun { at } | CodeFault::TooFar { at } => {
            body_spot(code, at)
        }
        CodeFault::Memory => Spot::Nowhere,
    }
}
