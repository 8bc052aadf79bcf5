//! Values that follow the edges of an acyclic graph: a rule that gives each number a value by those of the numbers that
//! it looks at has exactly one solution.
#![tactic(auto)]

ghost use Rattle.std.specs.Prelude.{◌≡◌, ℕ, ◌<◌};
ghost use Rattle.fly_rules.specs.Rules.{Rule, IsSolution, IsGrounded, solution_of};

/// Along an acyclic graph a rule has one solution, and no other. The call does nothing: its contract is the law.
pub fn rules_have_one_solution<V>()
    ensures exists { (rule : Rule V) (count : ℕ) → IsGrounded rule.looks count → IsSolution rule count (solution_of rule count) }
    ensures only { (rule : Rule V) (count : ℕ) (f g : ℕ → V) → IsGrounded rule.looks count
        → IsSolution rule count f → IsSolution rule count g → (v : ℕ) → v < count → f v ≡ g v }
{}
