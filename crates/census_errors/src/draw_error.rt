//! Why `draw` writes no text.

use life_cells::{CodeFault, RuleFault};
use std::alloc::AllocError;
use thiserror::Error;
use watched::Failed;

/// Why `draw` did not write the whole text of a code's shape.
#[derive(Clone, Copy, Debug, PartialEq, Eq, Drop, Error)]
pub enum DrawError {
    /// The text of `--rule` names no rule.
    #[error("{0}")]
    Rule(RuleFault),
    /// The body of the code has this fault; its place counts from the body's first byte.
    #[error("{0}")]
    Code(CodeFault),
    #[error("out of memory")]
    Memory,
    /// Standard output has failed.
    #[error("write failed")]
    Write,
}

impl From<AllocError> for DrawError {
    ghost use Rattle.std.specs.Prelude.{◌≡◌};
    ghost use Rattle.census_errors.specs.declared.draw_error.DrawError.TheVariants.{Memory};

    ghost from_gives = { λ _ error. error ≡ Memory };

    fn from(_: AllocError) -> DrawError {
        DrawError::Memory
    }
}

impl From<RuleFault> for DrawError {
    ghost use Rattle.std.specs.Prelude.{◌≡◌};
    ghost use Rattle.census_errors.specs.declared.draw_error.DrawError.TheVariants as errors;

    ghost from_gives = { λ fault error. error ≡ errors.Rule fault };

    fn from(fault: RuleFault) -> DrawError {
        DrawError::Rule(fault)
    }
}

impl From<CodeFault> for DrawError {
    ghost use Rattle.std.specs.Prelude.{◌≡◌};
    ghost use Rattle.census_errors.specs.Errors.{draw_error_of_code};

    ghost from_gives = { λ fault error. error ≡ draw_error_of_code fault };

    fn from(fault: CodeFault) -> DrawError {
        match fault {
            CodeFault::Memory => DrawError::Memory,
            other => DrawError::Code(other),
        }
    }
}

impl From<Failed> for DrawError {
    ghost use Rattle.std.specs.Prelude.{◌≡◌};
    ghost use Rattle.census_errors.specs.declared.draw_error.DrawError.TheVariants.{Write};

    ghost from_gives = { λ _ error. error ≡ Write };

    fn from(_: Failed) -> DrawError {
        DrawError::Write
    }
}
