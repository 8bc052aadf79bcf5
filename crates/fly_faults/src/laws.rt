ghost use Rattle.fly_faults.specs.Laws.{NoFaultsExactlyWhereTyped};

/// A bundle has no fault exactly where it is typed and no node that is run needs itself. The call does nothing: its
/// contract is the law.
pub fn no_faults_exactly_where_typed()
    ensures { NoFaultsExactlyWhereTyped }
{}
