ghost use Rattle.fly_closures.specs.Laws.{ClosuresAreTyped};

/// The closure of a typed and acyclic bundle has typed and acyclic templates. The call does nothing: its contract is
/// the law.
pub fn closures_are_typed()
    ensures { ClosuresAreTyped }
{}
