//! The texts of files, and of standard input.
ghost use Rattle.std.specs.Prelude.{◌≡◌, ◌+◌, [], false, map, IfErr, IfOk, OnOk};
ghost use Rattle.watched.specs.Watching.{ConsumesAtMost};
ghost use Rattle.census_folders.specs.Hearing.{Hears};
ghost use Rattle.census_folders.specs.declared.heard.Heard.TheVariants.{Text};
ghost use Rattle.census_reports.specs.Texts.{FitTogether, ReadsEach, RefusesWord, StopsReadingTexts};

use crate::error::ReportsError;
use crate::limit::left_behind;
use census_bundle::INPUT_LIMIT;
use census_folders::{Bytes, Shelf, ShelfFault, is_input, read_file};
use std::alloc::Global;
use std::io::Read;
use watched::{Input, read_all};

/// The text of a word: for `-` what standard input has left, for any other word that of the file of this path, which may be
/// whatever can be read. It is `TooLong` where it has more than 67,108,864 bytes.
pub fn read_text<S: Shelf, I: Read>(
    shelf: &S,
    alloc: Global,
    word: &str,
    input: &mut Input<I>,
) -> Result<Vec<u8>, ShelfFault>
    requires { input.old.stream.failed ≡ false }
    ensures read { IfOk result
        (λ bytes. Hears ((S.tellings shelf.now).held []) word.now (Text bytes.items)
        input.old.stream input.new.stream) }
    ensures sound { OnOk result (input.new.stream.failed ≡ false) }
    ensures taken { ConsumesAtMost (INPUT_LIMIT + 1)
        input.old.stream.unread input.new.stream.unread }
    ensures fault { IfErr result
        (λ fault. RefusesWord fault ((S.tellings shelf.now).held []) word.now
        input.old.stream input.new.stream) }
{
    if is_input(word) {
        Ok(read_all(alloc, input, INPUT_LIMIT)?)
    } else {
        read_file(shelf, alloc, word.as_bytes())
    }
}

// The texts of words, in their order, which are within the limit together. (The text that exceeds it is read whole.)
pub fn read_texts<S: Shelf, I: Read>(
    shelf: &S,
    alloc: Global,
    limit: Option<u64>,
    words: &[&str],
    input: &mut Input<I>,
) -> Result<Vec<Bytes>, ReportsError>
    requires { input.old.stream.failed ≡ false }
    ensures read { IfOk result
        (λ texts. ReadsEach ((S.tellings shelf.now).held []) (map (λ s. s.now) words.now)
        texts.items input.old.stream input.new.stream) }
    ensures fits { IfOk result (λ texts. FitTogether limit texts.items) }
    ensures sound { OnOk result (input.new.stream.failed ≡ false) }
    ensures fault { IfErr result
        (λ error. StopsReadingTexts error limit ((S.tellings shelf.now).held [])
        (map (λ s. s.now) words.now)
        input.old.stream input.new.stream) }
{
    let mut texts = Vec::new(alloc);
    let mut left = limit;
    for word in words {
        let number = texts.len() + 1;
        let text = match read_text(shelf, alloc, word, input) {
            Ok(text) => text,
            Err(fault) => {
                return Err(ReportsError::Unread {
                    text: number,
                    fault,
                });
            }
        };
        let Some(rest) = left_behind(left, text.len()) else {
            return Err(ReportsError::Unread {
                text: number,
                fault: ShelfFault::TooLong,
            });
        };
        left = rest;
        texts.push(Bytes::new(text))?;
    }
    Ok(texts)
}
