ghost use Rattle.std.specs.Prelude.{Bool};
ghost use Rattle.slots.specs.Laws.{Searches};

/// A search finds the lowest, or the highest, that passes its test, and none only where none passes.
pub fn searches<X>()
    ensures { (test : X → Bool) → Searches test }
{}
