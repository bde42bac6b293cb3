//! Fingerprints of generations, by which most generations are distinguished without their cells.
ghost use Rattle.std.specs.Prelude.{◌≡◌, IfOk};
ghost use Rattle.life_model.specs.Generation as generations;
ghost use Rattle.life_find.specs.Fingerprint.{IsFingerprint, may_match, counts_agree, spans_agree};

use life_cells::CellList;
use life_plane::{Plane, span_of};
use std::alloc::AllocError;

/// The number of cells of a generation, and the offset of the last of them from the first, each if it was determined.
#[derive(Clone, Copy)]
pub struct Fingerprint {
    pub population: Option<u64>,
    pub span: Option<(i32, i32)>,
}

impl Fingerprint {
    /// The fingerprint of a generation that wasn't examined.
    pub const UNKNOWN: Fingerprint = Fingerprint {
        population: None,
        span: None,
    };
}

/// True where two populations may be those of one shape: they are equal if both are known.
fn counts_agree(one: Option<u64>, other: Option<u64>) -> bool
    ensures { result ≡ counts_agree one other }
{
    match one {
        None => true,
        Some(one) => match other {
            None => true,
            Some(other) => one == other,
        },
    }
}

/// True where two spans may be those of one shape: they are equal if both are known.
fn spans_agree(one: Option<(i32, i32)>, other: Option<(i32, i32)>) -> bool
    ensures { result ≡ spans_agree one other }
{
    match one {
        None => true,
        Some(one) => match other {
            None => true,
            Some(other) => one == other,
        },
    }
}

/// True where two fingerprints may be those of one shape.
pub fn may_match(one: Fingerprint, other: Fingerprint) -> bool
    ensures { result ≡ may_match one other }
{
    counts_agree(one.population, other.population) && spans_agree(one.span, other.span)
}

/// The fingerprint of a list of cells.
pub fn fingerprint_of(list: &CellList) -> Fingerprint
    ensures { IsFingerprint list.now result }
{
    Fingerprint {
        population: Some(list.len() as u64),
        span: Some(span_of(list.as_slice())),
    }
}

/// The fingerprint of the cells of a plane, of which there are `population`, with their span if `spanned`.
pub fn fingerprint_on<P: Plane>(
    plane: &P,
    population: u64,
    spanned: bool,
) -> Result<Fingerprint, AllocError>
    requires { population ≡ generations.size (P.members plane.now) }
    ensures { IfOk result (IsFingerprint (P.members plane.now)) }
{
    if !spanned {
        return Ok(Fingerprint {
            population: Some(population),
            span: None,
        });
    }
    let span = plane.span()?;
    Ok(Fingerprint {
        population: Some(population),
        span: Some(span),
    })
}
