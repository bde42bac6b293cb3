//! The laws that tie sets and their texts.
ghost use Rattle.std.specs.Prelude.{◌≡◌, ◌↔◌, ◌≤◌, None};
ghost use Rattle.life_model.specs.Box.{height, width};
ghost use Rattle.life_model.specs.Generation.{Generation};
ghost use Rattle.life_model.specs.Symmetry.{normal};
ghost use Rattle.life_cells.specs.Limits.{place_limit};
ghost use Rattle.life_cells.specs.CodeReading.{refusal, cells_spelled};
ghost use Rattle.life_cells.specs.Wechsler.{body};

/// The text of a set, of any size, spells the set, moved so that its least x and its least y are 0.
pub fn a_text_spells_its_set()
    ensures spelt { (G : Generation) → cells_spelled (body G) ≡ normal G }
    ensures normal { (G : Generation) → normal (cells_spelled (body G)) ≡ normal G }
{}

/// Two sets, of any size, have the same text exactly if they are equal up to a move.
pub fn texts_tell_sets()
    ensures { (G H : Generation) → (body G ≡ body H) ↔ (normal G ≡ normal H) }
{}

/// The text of a set that is within the limit of places is read without a fault.
pub fn a_text_is_lawful()
    ensures { (G : Generation) → width G ≤ place_limit → height G ≤ place_limit →
        refusal (body G) ≡ None }
{}
