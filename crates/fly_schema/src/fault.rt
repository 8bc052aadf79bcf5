use fly_types::Text;

/// Why a document was not read.
#[derive(Clone, Copy, Debug, PartialEq, Eq)]
pub enum DocKind {
    /// The bytes are no JSON of at most 127 levels.
    NotJson,
    /// The type FLOAT, a float, or a number that is no whole number of 64 bits where a whole number is read.
    FloatRefused,
    /// Another kind of JSON value, an unknown name of an enum, a number or text out of its range or form, or two members of a
    /// `oneof`.
    WrongKind,
    /// A required field is absent, or all members of a required `oneof` are.
    Missing,
    /// A field that is not read, at a value at which it may not be passed over.
    LeftOut,
    /// More levels of types, literals or JSON values than there may be.
    TooDeep,
    /// The document has more bytes than it may.
    TooLarge,
    NoMemory,
}

/// The first rule that a document breaks, and where: a path of field names and of numbers from 0, as `/tasks/0/id`, and `/` for the
/// whole document. For want of memory it is empty.
#[derive(Debug, Drop)]
pub struct DocFault {
    pub kind: DocKind,
    pub place: Text,
}
