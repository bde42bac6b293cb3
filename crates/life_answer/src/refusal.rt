//! The answer to a text that is no pattern.
ghost use Rattle.std.specs.Prelude.{◌≡◌, ◌≢◌, IfOk, OnErr, OnOk};
ghost use Rattle.life_text.specs.declared.rle.RleFault.TheVariants.{Memory};
ghost use Rattle.life_text.specs.Faults.{fault_number};
ghost use Rattle.life_answer.specs.declared.finding.Answer.TheVariants.{Refused};

use crate::finding::Answer;
use life_text::RleFault;
use std::alloc::AllocError;

/// The answer to a text that has a fault. The result is an error exactly if the fault is out of memory.
pub fn refused(fault: RleFault) -> Result<Answer, AllocError>
    ensures answer { IfOk result (λ answer. answer ≡ Refused (fault_number fault)) }
    ensures fault { OnOk result (fault ≢ Memory) }
    ensures memory { OnErr result (fault ≡ Memory) }
{
    match fault {
        RleFault::Memory => Err(AllocError),
        _ => Ok(Answer::Refused(fault.number())),
    }
}
