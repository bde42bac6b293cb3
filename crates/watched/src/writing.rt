//! Writing a whole text to a watched writer.
ghost use Rattle.std.specs.Prelude.{◌≡◌, true, false, MatchResult};
ghost use Rattle.std.specs.Io.KnownBytes.{Appends};
ghost use Rattle.watched.specs.Watching.{AppendsFront};

use crate::failed::Failed;
use crate::output::Output;
use std::io::Write;

/// Writes all the bytes. `Failed` is returned if the writer fails or takes nothing before the last byte, and then a prefix of
/// the bytes was written; or if it had failed before, and then it is not called, even for no bytes.
#[tactic(auto, using(crate::proofs::Fronts::front_none, crate::proofs::Fronts::front_more, crate::proofs::Fronts::front_err, crate::proofs::Fronts::front_all))]
pub fn put_all<W: Write>(writer: &mut Output<W>, bytes: &[u8]) -> Result<(), Failed>
    ensures failed { MatchResult result (λ _. writer.new.stream.failed ≡ false)
        (λ _. writer.new.stream.failed ≡ true) }
    ensures uncalled { writer.old.stream.failed ≡ true → writer.new ≡ writer.old }
    ensures bytes { MatchResult result
        (λ _. Appends writer.old.stream.written writer.new.stream.written
        bytes.now)
        (λ _. AppendsFront writer.old.stream.written writer.new.stream.written
        bytes.now) }
{
    if writer.failed() {
        return Err(Failed);
    }
    let mut rest = bytes;
    while !rest.is_empty() {
        match writer.put(rest) {
            Ok(count) => rest = &rest[count..],
            Err(failed) => return Err(failed),
        }
    }
    Ok(())
}
