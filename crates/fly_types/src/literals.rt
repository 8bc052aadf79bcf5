ghost use Rattle.std.specs.Prelude.{◌≡◌, ◌↔◌, IfOk, IsTrue};
ghost use Rattle.std.specs.Option.{option_copied};
ghost use Rattle.fly_types.specs.Sound.{AreNamesSorted};
ghost use Rattle.fly_types.specs.Lookup.{value_of};

use crate::lookup::find_value;
use crate::same::{are_same_entries, is_same_literal, is_same_tree};
use crate::{BlobType, Boxed, Bytes, List, LiteralType, NoMemory, Text, TryCopy};
use std::alloc::Global;

/// A JSON value whose numbers are whole, as the content of a STRUCT (protobuf's `Struct`).
#[derive(Debug, Drop)]
pub enum Tree {
    Null,
    Bool(bool),
    /// At most 2^53 - 1 either way in a sound value, so that a JSON number has it exactly.
    Whole(i64),
    Text(Text),
    List(List<Tree>),
    /// Members by key, in the order of the keys' bytes, each key once in a sound value.
    Object(List<(Text, Tree)>),
}

/// A value of a workflow, as flyteidl's `Literal`. Ranges and orders are those of a sound value.
#[derive(Debug, Drop)]
pub enum Literal {
    /// The value of the type NONE.
    None,
    Integer(i64),
    Text(Text),
    Boolean(bool),
    /// Seconds since 1970-01-01T00:00:00Z, from 0001-01-01T00:00:00Z to 9999-12-31T23:59:59Z, and 0 to 999,999,999
    /// nanoseconds after that second, also where it is negative.
    Datetime {
        seconds: i64,
        nanos: u32,
    },
    /// At most 315,576,000,000 seconds either way in all; the nanoseconds are below a second either way, and have no
    /// other sign than the seconds.
    Duration {
        seconds: i64,
        nanos: i32,
    },
    /// Where a blob lies, and its form.
    Blob {
        uri: Text,
        form: BlobType,
    },
    /// Bytes, and the tag that says how they are to be read.
    Binary {
        value: Bytes,
        tag: Text,
    },
    /// The message of an error, and the node that failed.
    Error {
        node: Text,
        message: Text,
    },
    /// A STRUCT, which is an object.
    Generic(Tree),
    /// A value of a union type, with the variant that it is of.
    Union {
        value: Boxed<Literal>,
        variant: Boxed<LiteralType>,
    },
    Collection(List<Literal>),
    /// Values by name, in the order of the names' bytes, each name once.
    Map(List<(Text, Literal)>),
}

/// Literals by name, as flyteidl's `LiteralMap`. The entries are sorted by name, and the names differ.
#[derive(Debug, Drop)]
pub struct LiteralMap {
    pub entries: List<(Text, Literal)>,
}

impl Tree {
    /// A second one.
    #[cycle(copy_tree)]
    pub fn copy(&self, alloc: Global) -> Result<Tree, NoMemory>
        ensures { IfOk result (λ c. c ≡ self.now) }
    {
        match self {
            Tree::Null => Ok(Tree::Null),
            Tree::Bool(value) => Ok(Tree::Bool(*value)),
            Tree::Whole(value) => Ok(Tree::Whole(*value)),
            Tree::Text(text) => Ok(Tree::Text(text.copy(alloc)?)),
            Tree::List(trees) => {
                let copied = copy_trees(alloc, trees.as_slice())?;
                Ok(Tree::List(List::from_vec(copied)))
            }
            Tree::Object(members) => {
                let copied = copy_members(alloc, members.as_slice())?;
                Ok(Tree::Object(List::from_vec(copied)))
            }
        }
    }

    /// What `==` answers, for callers that want it as equality.
    pub fn is_same(&self, other: &Tree) -> bool
        ensures { IsTrue result ↔ (self.now ≡ other.now) }
    {
        is_same_tree(self, other)
    }
}

#[cycle(copy_tree)]
fn copy_trees(alloc: Global, trees: &[Tree]) -> Result<Vec<Tree>, NoMemory>
    ensures { IfOk result (λ c. c.items ≡ trees.now) }
{
    let mut copied = Vec::with_capacity(alloc, trees.len())?;
    for tree in trees {
        copied.push(tree.copy(alloc)?)?;
    }
    Ok(copied)
}

#[cycle(copy_tree)]
fn copy_members(alloc: Global, members: &[(Text, Tree)]) -> Result<Vec<(Text, Tree)>, NoMemory>
    ensures { IfOk result (λ c. c.items ≡ members.now) }
{
    let mut copied = Vec::with_capacity(alloc, members.len())?;
    for (name, tree) in members {
        let name = name.copy(alloc)?;
        copied.push((name, tree.copy(alloc)?))?;
    }
    Ok(copied)
}

impl PartialEq for Tree {
    ghost use Rattle.std.specs.Prelude.{◌≡◌, ◌↔◌, IsTrue};
    ghost use Rattle.fly_types.specs.Same.{same_tree};
    ghost use Rattle.fly_types.specs.Laws.{same_tree-partial_laws};

    ghost eq = { same_tree };

    ghost laws = { same_tree-partial_laws };

    fn eq(&self, other: &Tree) -> bool
        ensures value { result ≡ same_tree self.now other.now }
        ensures same { IsTrue result ↔ (self.now ≡ other.now) }
    {
        is_same_tree(self, other)
    }
}

impl Eq for Tree {
    ghost use Rattle.fly_types.specs.Laws.{same_tree-laws};

    ghost laws = { same_tree-laws };
}

impl TryCopy for Tree {
    fn copy(&self, alloc: Global) -> Result<Tree, NoMemory> {
        Tree::copy(self, alloc)
    }
}

impl Literal {
    /// A second one.
    #[cycle(copy_literal)]
    pub fn copy(&self, alloc: Global) -> Result<Literal, NoMemory>
        ensures { IfOk result (λ c. c ≡ self.now) }
    {
        match self {
            Literal::None => Ok(Literal::None),
            Literal::Integer(value) => Ok(Literal::Integer(*value)),
            Literal::Text(text) => Ok(Literal::Text(text.copy(alloc)?)),
            Literal::Boolean(value) => Ok(Literal::Boolean(*value)),
            Literal::Datetime { seconds, nanos } => Ok(Literal::Datetime {
                seconds: *seconds,
                nanos: *nanos,
            }),
            Literal::Duration { seconds, nanos } => Ok(Literal::Duration {
                seconds: *seconds,
                nanos: *nanos,
            }),
            Literal::Blob { uri, form } => Ok(Literal::Blob {
                uri: uri.copy(alloc)?,
                form: form.copy(alloc)?,
            }),
            Literal::Binary { value, tag } => Ok(Literal::Binary {
                value: value.copy(alloc)?,
                tag: tag.copy(alloc)?,
            }),
            Literal::Error { node, message } => Ok(Literal::Error {
                node: node.copy(alloc)?,
                message: message.copy(alloc)?,
            }),
            Literal::Generic(tree) => Ok(Literal::Generic(tree.copy(alloc)?)),
            Literal::Union { value, variant } => {
                let value = value.get().copy(alloc)?;
                let variant = variant.get().copy(alloc)?;
                Ok(Literal::Union {
                    value: Boxed::new(alloc, value)?,
                    variant: Boxed::new(alloc, variant)?,
                })
            }
            Literal::Collection(literals) => {
                let copied = copy_literals(alloc, literals.as_slice())?;
                Ok(Literal::Collection(List::from_vec(copied)))
            }
            Literal::Map(entries) => {
                let copied = copy_entries(alloc, entries.as_slice())?;
                Ok(Literal::Map(List::from_vec(copied)))
            }
        }
    }

    /// What `==` answers, for callers that want it as equality.
    pub fn is_same(&self, other: &Literal) -> bool
        ensures { IsTrue result ↔ (self.now ≡ other.now) }
    {
        is_same_literal(self, other)
    }
}

#[cycle(copy_literal)]
fn copy_literals(alloc: Global, literals: &[Literal]) -> Result<Vec<Literal>, NoMemory>
    ensures { IfOk result (λ c. c.items ≡ literals.now) }
{
    let mut copied = Vec::with_capacity(alloc, literals.len())?;
    for literal in literals {
        copied.push(literal.copy(alloc)?)?;
    }
    Ok(copied)
}

#[cycle(copy_literal)]
fn copy_entries(
    alloc: Global,
    entries: &[(Text, Literal)],
) -> Result<Vec<(Text, Literal)>, NoMemory>
    ensures { IfOk result (λ c. c.items ≡ entries.now) }
{
    let mut copied = Vec::with_capacity(alloc, entries.len())?;
    for (name, literal) in entries {
        let name = name.copy(alloc)?;
        copied.push((name, literal.copy(alloc)?))?;
    }
    Ok(copied)
}

impl PartialEq for Literal {
    ghost use Rattle.std.specs.Prelude.{◌≡◌, ◌↔◌, IsTrue};
    ghost use Rattle.fly_types.specs.Same.{same_literal};
    ghost use Rattle.fly_types.specs.Laws.{same_literal-partial_laws};

    ghost eq = { same_literal };

    ghost laws = { same_literal-partial_laws };

    fn eq(&self, other: &Literal) -> bool
        ensures value { result ≡ same_literal self.now other.now }
        ensures same { IsTrue result ↔ (self.now ≡ other.now) }
    {
        is_same_literal(self, other)
    }
}

impl Eq for Literal {
    ghost use Rattle.fly_types.specs.Laws.{same_literal-laws};

    ghost laws = { same_literal-laws };
}

impl TryCopy for Literal {
    fn copy(&self, alloc: Global) -> Result<Literal, NoMemory> {
        Literal::copy(self, alloc)
    }
}

impl LiteralMap {
    /// The literal under the name. Takes no memory, and as many comparisons of names as the entries can be halved.
    pub fn get(&self, name: &Text) -> Option<&Literal>
        requires { AreNamesSorted self.now.entries }
        ensures { option_copied result ≡ value_of self.now.entries name.now }
    {
        find_value(self.entries.as_slice(), name)
    }

    /// A second one.
    pub fn copy(&self, alloc: Global) -> Result<LiteralMap, NoMemory>
        ensures { IfOk result (λ c. c ≡ self.now) }
    {
        let copied = copy_entries(alloc, self.entries.as_slice())?;
        Ok(LiteralMap {
            entries: List::from_vec(copied),
        })
    }

    /// What `==` answers, for callers that want it as equality.
    pub fn is_same(&self, other: &LiteralMap) -> bool
        ensures { IsTrue result ↔ (self.now ≡ other.now) }
    {
        are_same_entries(self.entries.as_slice(), other.entries.as_slice())
    }
}

impl TryCopy for LiteralMap {
    fn copy(&self, alloc: Global) -> Result<LiteralMap, NoMemory> {
        LiteralMap::copy(self, alloc)
    }
}

impl PartialEq for LiteralMap {
    ghost use Rattle.std.specs.Prelude.{◌≡◌, ◌↔◌, IsTrue};
    ghost use Rattle.fly_types.specs.Same.{same_map};
    ghost use Rattle.fly_types.specs.Laws.{same_map-partial_laws};

    ghost eq = { same_map };

    ghost laws = { same_map-partial_laws };

    fn eq(&self, other: &LiteralMap) -> bool
        ensures value { result ≡ same_map self.now other.now }
        ensures same { IsTrue result ↔ (self.now ≡ other.now) }
    {
        self.is_same(other)
    }
}

impl Eq for LiteralMap {
    ghost use Rattle.fly_types.specs.Laws.{same_map-laws};

    ghost laws = { same_map-laws };
}
