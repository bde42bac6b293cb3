//! The files of words.
ghost use Rattle.std.specs.Prelude.{◌≡◌, option_map};
ghost use Rattle.census_errors.specs.Files.{file_of};

use census_folders::is_input;

/// The file that a word names. Neither `-` nor a missing word names one.
pub fn file_of<'a>(word: Option<&'a str>) -> Option<&'a str>
    ensures { option_map (λ s. s.now) result ≡ file_of (option_map (λ s. s.now) word.entry) }
{
    match word {
        Some(word) if !is_input(word) => Some(word),
        _ => None,
    }
}
