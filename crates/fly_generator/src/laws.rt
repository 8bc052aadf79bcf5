ghost use Rattle.fly_generator.specs.Laws.{SamplesAreTyped};

/// Each generated bundle is in form, typed and acyclic. The call does nothing: its contract is the law.
pub fn samples_are_typed()
    ensures { SamplesAreTyped }
{}
