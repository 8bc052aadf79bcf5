ghost use Rattle.std.specs.Prelude.{◌≡◌, IfOk};

use crate::{NoMemory, TryCopy};
use std::alloc::Global;
use std::marker::Model;

/// A value on the heap, as a message field that leads back to its own message. Contracts see the value itself.
#[derive(Debug, Drop)]
pub struct Boxed<T> {
    inner: Box<T>,
}

impl<T> Model for Boxed<T> {
    ghost Value = { T };

    ghost coded = { T.code };

    ghost view = { λ b. b.inner.value };
}

impl<T> Boxed<T> {
    /// The value.
    pub fn get(&self) -> &T
        ensures { result.now ≡ self.now }
    {
        &self.inner
    }

    /// The value, moved out.
    pub fn into_inner(self) -> T
        ensures { result ≡ self }
    {
        let Boxed { inner } = self;
        Box::into_inner(inner)
    }
}

impl<T: Drop> Boxed<T> {
    /// The value, moved to the heap.
    pub fn new(alloc: Global, value: T) -> Result<Boxed<T>, NoMemory>
        ensures { IfOk result (λ b. b ≡ value) }
    {
        Ok(Boxed {
            inner: Box::new(alloc, value)?,
        })
    }
}

impl<T: TryCopy> TryCopy for Boxed<T> {
    fn copy(&self, alloc: Global) -> Result<Boxed<T>, NoMemory> {
        let value = self.get().copy(alloc)?;
        Boxed::new(alloc, value)
    }
}

impl<T: PartialEq> PartialEq for Boxed<T> {
    ghost eq = { T.eq };

    ghost laws = { T.laws };

    fn eq(&self, other: &Boxed<T>) -> bool {
        self.get() == other.get()
    }
}

impl<T: Eq> Eq for Boxed<T> {
    ghost laws = { T.Eq.laws };
}
