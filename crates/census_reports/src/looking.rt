//! Texts that are mended before they are looked at.
ghost use Rattle.std.specs.Prelude.{◌≡◌, ◌<◌, length, map, true, MatchResult};
ghost use Rattle.census_reports.specs.Looking.{RefusesRead};
ghost use Rattle.census_reports.specs.Mending.{AreMended, HasBrokenText, LackMending};

use crate::error::ReportsError;
use crate::kind::kind_of;
use census_folders::Bytes;
use census_merge::{Cut, Mended, mend};
use std::alloc::{AllocError, Global};

// Texts that were mended, and the cuts of those that were cut.
#[derive(Drop)]
pub struct Looked {
    pub texts: Vec<Bytes>,
    pub cuts: Vec<Cut>,
}

impl Looked {
    ghost use Rattle.std.specs.Prelude.{◌≡◌, ◌++◌, ◌∷◌, [], OnOk};
    ghost use Rattle.std.specs.Option.{option_to_list};

    // Adds a text that was mended.
    fn add(&mut self, mended: Mended) -> Result<(), AllocError>
        ensures texts { OnOk result (self.new.texts.items ≡
            self.old.texts.items ++ mended.text.items ∷ []) }
        ensures cuts { OnOk result (self.new.cuts.items ≡
            self.old.cuts.items ++ option_to_list mended.cut) }
    {
        if let Some(cut) = mended.cut {
            self.cuts.push(cut)?;
        }
        self.texts.push(Bytes::new(mended.text))?;
        Ok(())
    }
}

// Mends each of these texts.
pub fn mend_each(alloc: Global, texts: &[Bytes]) -> Result<Looked, ReportsError>
    ensures { MatchResult result
        (λ looked. AreMended texts.now looked.texts.items looked.cuts.items)
        (λ error. LackMending error texts.now) }
{
    let mut looked = Looked {
        texts: Vec::new(alloc),
        cuts: Vec::new(alloc),
    };
    for index in 0..texts.len() {
        match mend(alloc, texts[index].as_slice())? {
            Ok(mended) => looked.add(mended)?,
            Err(line) => {
                return Err(ReportsError::Fault {
                    text: index + 1,
                    line,
                    kind: kind_of(texts[index].as_slice()),
                });
            }
        }
    }
    Ok(looked)
}
