/// A field's two spellings: the lowerCamelCase one that is written, and its original one with underscores.
#[derive(Clone, Copy)]
pub struct Name {
    pub camel: &'static str,
    pub original: &'static str,
}

/// Which texts may stand.
#[derive(Clone, Copy)]
pub enum TextForm {
    Any,
    /// Texts of `least` to `most` bytes, each in one of the ranges, of which both ends belong to it.
    Bytes {
        least: usize,
        most: usize,
        ranges: &'static [(u8, u8)],
    },
}

/// A value of an enum.
#[derive(Clone, Copy)]
pub struct EnumValue {
    pub name: &'static str,
    pub number: u64,
}

/// Scalar fields, by the form and the range of their values.
#[derive(Clone, Copy)]
pub enum Scalar {
    Bool,
    Text(TextForm),
    /// A signed number of 64 bits, as a number or as a text.
    Integer,
    /// A number from 0 to this one, as a number or as a text.
    Whole(u32),
    /// One of the values, by name or by number. Those that are refused are not read as whole numbers or names: they are floats.
    Enum {
        values: &'static [EnumValue],
        refused: &'static [EnumValue],
    },
    /// Bytes in base64.
    Bytes,
    Datetime,
    Duration,
    /// A duration that is not negative.
    Timeout,
    /// A floating-point number, which is refused.
    Float,
}

/// What one value is.
#[derive(Clone, Copy)]
pub enum Kind {
    Scalar(Scalar),
    /// A message, by the number of its row in the table.
    Message(usize),
    /// Any JSON object, whose numbers are whole and at most 2^53 - 1 either way.
    Struct,
    /// An object that is passed over.
    Empty,
}

/// Whether a field has one value, a list of them, or a map of them by keys of a form.
#[derive(Clone, Copy)]
pub enum Shape {
    One,
    List,
    Map(TextForm),
}

/// How a field's values change the count of open levels.
#[derive(Clone, Copy)]
pub enum Level {
    /// They stay at the level of the message.
    Same,
    /// They are at the first level.
    First,
    /// They are one level deeper.
    Deeper,
}

/// What may stand at a field.
#[derive(Clone, Copy)]
pub struct Form {
    pub shape: Shape,
    pub kind: Kind,
    pub level: Level,
}

/// Whether a field may be absent.
#[derive(Clone, Copy)]
pub enum Need {
    Optional,
    Required,
    /// It may be absent, or an empty list, where the other field is not.
    UnlessFilled(Name),
}

/// A field of a message.
#[derive(Clone, Copy)]
pub struct Field {
    pub name: Name,
    pub need: Need,
    pub form: Form,
}

/// What is read next of a message.
#[derive(Clone, Copy)]
pub enum Part {
    Single(Field),
    /// A `oneof`: at most one of its members is there, and exactly one where it is required. What its members need is not asked.
    OneOf {
        required: bool,
        members: &'static [Field],
    },
}

/// When a field that is not read is refused.
#[derive(Clone, Copy)]
pub enum When {
    Present,
    /// Where it is there, and no empty list.
    Filled,
    /// Where it is `true`.
    True,
    /// Where it is absent: then the message is refused.
    Absent,
}

/// A field that is not read, and is refused in some cases.
#[derive(Clone, Copy)]
pub struct LeftOut {
    pub name: Name,
    pub when: When,
}

/// Another row, by which a message is read where the field has one of the texts.
#[derive(Clone, Copy)]
pub struct Instead {
    pub name: Name,
    pub texts: &'static [&'static str],
    pub row: usize,
}

/// What one message has: the fields that are refused, and then the fields that are read, each in reading order.
#[derive(Clone, Copy)]
pub struct Row {
    pub instead: Option<Instead>,
    pub left_out: &'static [LeftOut],
    pub parts: &'static [Part],
}
