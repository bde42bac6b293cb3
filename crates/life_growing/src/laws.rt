//! Theorems about engines that are found.
ghost use Rattle.std.specs.Prelude.{ℕ};
ghost use Rattle.life_model.specs.Generation.{Generation};
ghost use Rattle.life_model.specs.Rule.{Rule};
ghost use Rattle.life_growth.specs.Things.{IsMadeOf};
ghost use Rattle.life_growing.specs.Emissions.{Emission, IsEmission, IsEmissionThing};

/// At each time an engine is the union of its things of that time: its cores, and the things that leave.
pub fn an_engine_is_made_of_its_things()
    ensures { (R : Rule) (b : ℕ) (E : Generation) (e : Emission) → IsEmission R b E e →
        IsMadeOf R E (IsEmissionThing e) }
{}
