ghost use Rattle.std.specs.Prelude.{◌≡◌};
ghost use Rattle.std.specs.Option.{option_copied};
ghost use Rattle.std.specs.Ordering.{nat_cmp};
ghost use Rattle.std.specs.Cmp.Lexicographic.{slice_cmp};
ghost use Rattle.fly_types.specs.Sound.{AreNamesSorted};
ghost use Rattle.fly_types.specs.Lookup.{value_of, variable_of, AreVariablesSorted};

use crate::{List, Literal, Text, Variable};

/// The variable with the name, of an interface's inputs or outputs. Takes no memory, and as many comparisons of names
/// as the list can be halved.
pub fn find_variable<'a>(variables: &'a List<Variable>, name: &Text) -> Option<&'a Variable>
    requires { AreVariablesSorted variables.now }
    ensures { option_copied result ≡ variable_of variables.now name.now }
{
    let variables = variables.as_slice();
    match variables.binary_search_by(
        |variable|
            ensures { result ≡ slice_cmp nat_cmp variable.now.name name.entry.now }
        { variable.name.cmp(name) },
    ) {
        Ok(at) => Some(&variables[at]),
        Err(_) => None,
    }
}

pub(crate) fn find_value<'a>(entries: &'a [(Text, Literal)], name: &Text) -> Option<&'a Literal>
    requires { AreNamesSorted entries.now }
    ensures { option_copied result ≡ value_of entries.now name.now }
{
    match entries.binary_search_by(
        |entry|
            ensures { result ≡ slice_cmp nat_cmp entry.now.0 name.entry.now }
        { entry.0.cmp(name) },
    ) {
        Ok(at) => Some(&entries[at].1),
        Err(_) => None,
    }
}
