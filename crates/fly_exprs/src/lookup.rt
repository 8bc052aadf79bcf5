ghost use Rattle.std.specs.Prelude.{◌≡◌};
ghost use Rattle.std.specs.Option.{option_copied};
ghost use Rattle.fly_types.specs.Lookup.{value_of};

use fly_types::{Simple, Text};

/// The type of the first variable with the name.
pub(crate) fn find_type<'a>(vars: &'a [(Text, Simple)], name: &Text) -> Option<&'a Simple>
    ensures { option_copied result ≡ value_of vars.now name.now }
{
    match vars.iter().find(|var| var.0 == *name) {
        Some(var) => Some(&var.1),
        None => None,
    }
}
