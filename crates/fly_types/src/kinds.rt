ghost use Rattle.std.specs.Prelude.{◌≡◌, ◌↔◌, ◌≤◌, IfOk, IsTrue, map};
ghost use Rattle.fly_types.specs.Levels.{type_levels, largest};

use crate::same::{is_same_form, is_same_type};
use crate::{Boxed, List, NoMemory, Text, TryCopy};
use std::alloc::Global;

/// A type without parts, as flyteidl's `SimpleType`. STRUCT is a JSON object, and NONE the type of no value.
#[derive(Clone, Copy, Debug, PartialEq, Eq)]
pub enum Simple {
    None,
    Integer,
    Text,
    Boolean,
    Datetime,
    Duration,
    Binary,
    Error,
    Struct,
}

/// The form of a blob, as flyteidl's `BlobType`: its format, and whether it is one file or a folder of parts.
#[derive(Debug, Drop)]
pub struct BlobType {
    pub format: Text,
    pub multipart: bool,
}

/// The type of a literal, as flyteidl's `LiteralType`.
#[derive(Debug, Drop)]
pub enum LiteralType {
    Simple(Simple),
    /// Of each element.
    Collection(Boxed<LiteralType>),
    /// Of each value; the keys are texts.
    Map(Boxed<LiteralType>),
    Blob(BlobType),
    /// The texts that it has.
    Enum(List<Text>),
    /// The variants, of which a union scalar names its own.
    Union(List<LiteralType>),
}

impl BlobType {
    /// A second one.
    pub fn copy(&self, alloc: Global) -> Result<BlobType, NoMemory>
        ensures { IfOk result (λ c. c ≡ self.now) }
    {
        Ok(BlobType {
            format: self.format.copy(alloc)?,
            multipart: self.multipart,
        })
    }
}

impl TryCopy for BlobType {
    fn copy(&self, alloc: Global) -> Result<BlobType, NoMemory> {
        BlobType::copy(self, alloc)
    }
}

impl PartialEq for BlobType {
    ghost use Rattle.std.specs.Prelude.{◌≡◌, ◌↔◌, IsTrue};
    ghost use Rattle.fly_types.specs.Same.{same_form};
    ghost use Rattle.fly_types.specs.Laws.{same_form-partial_laws};

    ghost eq = { same_form };

    ghost laws = { same_form-partial_laws };

    fn eq(&self, other: &BlobType) -> bool
        ensures value { result ≡ same_form self.now other.now }
        ensures same { IsTrue result ↔ (self.now ≡ other.now) }
    {
        is_same_form(self, other)
    }
}

impl Eq for BlobType {
    ghost use Rattle.fly_types.specs.Laws.{same_form-laws};

    ghost laws = { same_form-laws };
}

impl LiteralType {
    /// A second one.
    #[cycle(copy_type)]
    pub fn copy(&self, alloc: Global) -> Result<LiteralType, NoMemory>
        ensures { IfOk result (λ c. c ≡ self.now) }
    {
        match self {
            LiteralType::Simple(simple) => Ok(LiteralType::Simple(*simple)),
            LiteralType::Collection(inner) => {
                let copied = inner.get().copy(alloc)?;
                Ok(LiteralType::Collection(Boxed::new(alloc, copied)?))
            }
            LiteralType::Map(inner) => {
                let copied = inner.get().copy(alloc)?;
                Ok(LiteralType::Map(Boxed::new(alloc, copied)?))
            }
            LiteralType::Blob(form) => Ok(LiteralType::Blob(form.copy(alloc)?)),
            LiteralType::Enum(texts) => Ok(LiteralType::Enum(texts.copy(alloc)?)),
            LiteralType::Union(variants) => {
                let copied = copy_types(alloc, variants.as_slice())?;
                Ok(LiteralType::Union(List::from_vec(copied)))
            }
        }
    }

    /// What `==` answers, for callers that want it as equality.
    pub fn is_same(&self, other: &LiteralType) -> bool
        ensures { IsTrue result ↔ (self.now ≡ other.now) }
    {
        is_same_type(self, other)
    }

    /// Whether the type has at most so many levels. A type without parts is one level, and a collection, a map or a
    /// union one more than its deepest part.
    #[cycle(levels)]
    pub fn has_at_most(&self, levels: usize) -> bool
        ensures { IsTrue result ↔ (type_levels self.now ≤ levels) }
    {
        if levels == 0 {
            return false;
        }
        match self {
            LiteralType::Simple(_) | LiteralType::Blob(_) | LiteralType::Enum(_) => true,
            LiteralType::Collection(element) => element.get().has_at_most(levels - 1),
            LiteralType::Map(value) => value.get().has_at_most(levels - 1),
            LiteralType::Union(variants) => have_at_most(variants.as_slice(), levels - 1),
        }
    }
}

#[cycle(copy_type)]
fn copy_types(alloc: Global, types: &[LiteralType]) -> Result<Vec<LiteralType>, NoMemory>
    ensures { IfOk result (λ c. c.items ≡ types.now) }
{
    let mut copied = Vec::with_capacity(alloc, types.len())?;
    for kind in types {
        copied.push(kind.copy(alloc)?)?;
    }
    Ok(copied)
}

#[cycle(levels)]
fn have_at_most(kinds: &[LiteralType], levels: usize) -> bool
    ensures { IsTrue result ↔ (largest (map type_levels kinds.now) ≤ levels) }
{
    for kind in kinds {
        if !kind.has_at_most(levels) {
            return false;
        }
    }
    true
}

impl TryCopy for LiteralType {
    fn copy(&self, alloc: Global) -> Result<LiteralType, NoMemory> {
        LiteralType::copy(self, alloc)
    }
}

impl PartialEq for LiteralType {
    ghost use Rattle.std.specs.Prelude.{◌≡◌, ◌↔◌, IsTrue};
    ghost use Rattle.fly_types.specs.Same.{same_type};
    ghost use Rattle.fly_types.specs.Laws.{same_type-partial_laws};

    ghost eq = { same_type };

    ghost laws = { same_type-partial_laws };

    fn eq(&self, other: &LiteralType) -> bool
        ensures value { result ≡ same_type self.now other.now }
        ensures same { IsTrue result ↔ (self.now ≡ other.now) }
    {
        is_same_type(self, other)
    }
}

impl Eq for LiteralType {
    ghost use Rattle.fly_types.specs.Laws.{same_type-laws};

    ghost laws = { same_type-laws };
}
