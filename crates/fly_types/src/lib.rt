//! The values that every layer names: texts, bytes, lists, and want of memory; and the types and literals of workflows.
#![tactic(auto)]

mod boxed;
mod bytes;
mod canonical_bytes;
mod kinds;
mod list;
mod literals;
mod lookup;
mod membership;
mod memory;
mod said;
mod same;
mod text;
mod variable;

pub use boxed::Boxed;
pub use bytes::Bytes;
pub use canonical_bytes::{bytes_are_prefix_free, canonical, maps_have_own_bytes};
pub use kinds::{BlobType, LiteralType, Simple};
pub use list::{List, TryCopy};
pub use literals::{Literal, LiteralMap, Tree};
pub use lookup::find_variable;
pub use membership::{is_member, simple_type};
pub use memory::NoMemory;
pub use said::Said;
pub use text::Text;
pub use variable::Variable;
