//! `census draw CODE`: the pattern whose apgcode has this body.
ghost use Rattle.std.specs.Prelude.{◌≡◌, IfErr, MatchResult, OnOk};
ghost use Rattle.census_command.specs.Draws.{DrawFails, Draws, IsDrawn, RefusesCode};
ghost use Rattle.census_command.specs.Streams.{HasSoundStreams};

use census_errors::DrawError;
use life_cells::{Rule, body_of, read_wechsler};
use life_text::write_rle;
use std::alloc::Global;
use std::io::{Read, Write};
use watched::{Streams, put_all};

// The RLE text of what a code draws under a rule.
fn drawn_text(alloc: Global, code: &[u8], rule: &[u8]) -> Result<Vec<u8>, DrawError>
    ensures { MatchResult result
        (λ written. IsDrawn code.now rule.now written.items)
        (λ error. RefusesCode error code.now rule.now) }
{
    let rule = Rule::parse(rule)?;
    let shape = read_wechsler(alloc, body_of(code))?;
    let mut written = Vec::new(alloc);
    write_rle(&rule, shape.list(), &mut written)?;
    Ok(written)
}

/// Writes the RLE text of the shape that the body of a code spells, under the rule that a rule text names. The body is
/// what follows the code's first `_`, or the whole code where there is none.
///
/// The rule is checked before the code, and the whole text is made before its first byte is written.
pub fn draw<I: Read, O: Write, E: Write>(
    alloc: Global,
    code: &[u8],
    rule: &[u8],
    streams: &mut Streams<I, O, E>,
) -> Result<(), DrawError>
    requires { HasSoundStreams streams.old }
    ensures done { OnOk result
        (Draws code.now rule.now streams.old streams.new) }
    ensures sound { OnOk result (HasSoundStreams streams.new) }
    ensures fails { IfErr result
        (λ e. DrawFails e code.now rule.now streams.old streams.new) }
    ensures quiet { streams.new.errors ≡ streams.old.errors }
{
    let written = drawn_text(alloc, code, rule)?;
    put_all(&mut streams.output, written.as_slice())?;
    Ok(())
}
