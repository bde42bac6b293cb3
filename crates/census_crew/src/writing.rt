//! Writing what a collector releases.
ghost use Rattle.std.specs.Prelude.{◌≡◌, [], true, false, MatchResult};
ghost use Rattle.census_crew.specs.Writing.{StaysInStep, StopsInStep};

use census_book::Collector;
use std::io::Write;
use watched::{Failed, Output, put_all};

/// Writes all that is unsent.
pub(crate) fn flush<W: Write>(collector: &mut Collector, out: &mut Output<W>) -> Result<(), Failed>
    ensures failed { MatchResult result (λ _. out.new.stream.failed ≡ false)
        (λ _. out.new.stream.failed ≡ true) }
    ensures step { MatchResult result
        (λ _. StaysInStep out.old.stream.written collector.old out.new.stream.written collector.new)
        (λ _. StopsInStep out.old.stream.written collector.old out.new.stream.written) }
    ensures sent { MatchResult result (λ _. collector.new.unsent ≡ [])
        (λ _. collector.new ≡ collector.old) }
    ensures taken { collector.new.taken ≡ collector.old.taken }
    ensures bundle { collector.new.bundle ≡ collector.old.bundle }
    ensures question { collector.new.question ≡ collector.old.question }
{
    put_all(out, collector.unsent())?;
    let count = collector.unsent().len();
    collector.sent(count);
    Ok(())
}
