ghost use Rattle.std.specs.Prelude.{◌≡◌, ◌↔◌, IsTrue};
ghost use Rattle.fly_docs.specs.Names as names;
ghost use Rattle.fly_docs.specs.Names.{IsId, IsField, IsIdentifier};
ghost use Rattle.fly_docs.specs.Interfaces.{names_of, AreInOrder};

use crate::Identifier;
use fly_types::Variable;

/// The longest id, in bytes.
const LONGEST_ID: usize = 63;

/// The longest field of an identifier, in bytes.
const LONGEST_FIELD: usize = 255;

/// Whether a node, an execution or a variable may have this name.
pub fn is_id(id: &str) -> bool
    ensures { IsTrue result ↔ IsId id.now }
{
    !id.is_empty() && id.len() <= LONGEST_ID && id.as_bytes().iter().all(|b| is_id_byte(*b))
}

fn is_id_byte(byte: u8) -> bool
    ensures { result ≡ names.is_id_byte byte }
{
    byte.is_ascii_alphanumeric() || byte == b'-' || byte == b'_'
}

/// Whether a field of an identifier may have this text.
pub fn is_field(text: &str) -> bool
    ensures { IsTrue result ↔ IsField text.now }
{
    text.len() <= LONGEST_FIELD && text.as_bytes().iter().all(|b| is_field_byte(*b))
}

fn is_field_byte(byte: u8) -> bool
    ensures { result ≡ names.is_field_byte byte }
{
    b'!' <= byte && byte <= b'~'
}

/// Whether this may name a task or a workflow.
pub fn is_identifier(id: &Identifier) -> bool
    ensures { IsTrue result ↔ IsIdentifier id.now }
{
    is_field(id.project.as_str())
        && is_field(id.domain.as_str())
        && is_field(id.name.as_str())
        && !id.name.as_str().is_empty()
        && is_field(id.version.as_str())
}

/// Whether the variables ascend by the bytes of their names, so that no name comes twice.
pub fn are_in_order(variables: &[Variable]) -> bool
    ensures { IsTrue result ↔ AreInOrder (names_of variables.now) }
{
    for i in 1..variables.len() {
        if variables[i - 1].name >= variables[i].name {
            return false;
        }
    }
    true
}
