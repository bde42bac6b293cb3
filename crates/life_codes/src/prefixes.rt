//! The prefix of the code of an object.
ghost use Rattle.std.specs.Prelude.{◌≡◌, ◌++◌, IfOk, codes};
ghost use Rattle.life_answer.specs.Apgcode.{prefix};

use itoa::Buffer;
use std::alloc::{AllocError, Global};

// The number of bytes of most codes, for which there is room from the start.
const CODE_ROOM: usize = 48;

/// The prefix of a code, with the `_` after it: `xs` and the population of a still life, `xp` and the period of an
/// oscillator, `xq` and the period of a spaceship.
pub fn prefix(
    alloc: Global,
    population: u64,
    period: u32,
    displacement: (i32, i32),
) -> Result<Vec<u8>, AllocError>
    ensures { IfOk result
        (λ text. text.items ≡ prefix population period displacement ++ codes "_") }
{
    let (mark, number) = if displacement != (0, 0) {
        (b'q', u64::from(period))
    } else if period == 1 {
        (b's', population)
    } else {
        (b'p', u64::from(period))
    };
    let mut text = Vec::with_capacity(alloc, CODE_ROOM)?;
    text.extend_from_slice(&[b'x', mark])?;
    text.extend_from_slice(Buffer::new().format(number).as_bytes())?;
    text.push(b'_')?;
    Ok(text)
}
