ghost use Rattle.std.specs.Prelude.{◌≡◌, Bool, List, ℕ};

use fly_types::Text;

/// Whether what an owner does has ended, so that nobody waits for it.
pub trait OwnerTest {
    /// The owners that have ended.
    ghost ends: { Self → List ℕ → Bool };

    fn ends(&self, owner: &Text) -> bool
        ensures { result ≡ ends self.now owner.now };
}
