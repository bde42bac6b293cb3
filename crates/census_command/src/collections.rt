//! The collections of a census, and how they are read.
ghost use Rattle.std.specs.Prelude.{◌≡◌, true, false};
ghost use Rattle.census_folders.specs.Sources.{asked_by};
ghost use Rattle.census_errors.specs.Sources.{Folders, StopsAtFirstLoss, asked_of, on_loss_of, source_of};

use census_cli::Collections;
use census_folders::{OnLoss, Source};

// What reading does at a loss.
fn on_loss_of(keep_going: bool) -> OnLoss
    ensures { result ≡ on_loss_of keep_going }
{
    if keep_going {
        OnLoss::Keep
    } else {
        OnLoss::Stop
    }
}

/// The folders, and how they are read.
pub fn folders_of<'r, 'a>(collections: &'r Collections<'a>) -> Source<'r, 'a>
    ensures { asked_by result ≡ asked_of collections.now }
{
    Source {
        words: collections.folders.as_slice(),
        below: collections.recursive,
        limit: collections.input,
        on_loss: on_loss_of(collections.keep_going),
    }
}

/// Whether a census continues past what can't be read. A census without a folder never does.
pub fn goes_on(collections: &Collections<'_>) -> bool
    ensures folders { result ≡ true → source_of collections.now ≡ Folders (asked_of collections.now) }
    ensures keeps { result ≡ true → (asked_of collections.now).on_loss ≡ OnLoss.Keep }
    ensures stops { result ≡ false → StopsAtFirstLoss (source_of collections.now) }
{
    collections.keep_going && !collections.folders.is_empty()
}
