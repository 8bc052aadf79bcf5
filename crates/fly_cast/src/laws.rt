ghost use Rattle.fly_cast.specs.Laws.{DecidesMembership, IsReflexive, StaysAtEqualTypes, MembersStay, CastsByRules, ConvertsByRules, FitsByRules, ConversionReaches, ConversionStaysSound, FittingReaches, FittingStaysSound};

/// The test of membership that fitting asks first is membership. The call does nothing: its contract is the law.
pub fn membership_is_decided()
    ensures { DecidesMembership }
{}

/// A type casts to itself, and a literal stays where the two types are equal. The call does nothing: its contract is the
/// law.
pub fn equal_types_change_nothing()
    ensures castable { IsReflexive }
    ensures converted { StaysAtEqualTypes }
{}

/// A member of a type fits it as it is. The call does nothing: its contract is the law.
pub fn members_fit_as_they_are()
    ensures { MembersStay }
{}

/// Castability, conversion and fitting are what their rules say. The call does nothing: its contract is the law.
pub fn rules_decide()
    ensures castable { CastsByRules }
    ensures converted { ConvertsByRules }
    ensures fits { FitsByRules }
{}

/// What was converted or fitted is of the type that was wanted, and is sound. The call does nothing: its contract is the
/// law.
pub fn wanted_types_are_reached()
    ensures converted { ConversionReaches }
    ensures converted_sound { ConversionStaysSound }
    ensures fitted { FittingReaches }
    ensures fitted_sound { FittingStaysSound }
{}
