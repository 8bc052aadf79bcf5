//! The table of messages that documents are made of (flyteidl's messages in this project's profile): what is read of each, in reading
//! order, and what is refused.
ghost use Rattle.std.specs.Prelude.{◌≡◌};
ghost use Rattle.fly_schema.specs.Views.{row_of, table_of, form_of};
ghost use Rattle.fly_idl.specs.Rows as rows;

use fly_schema::{
    EnumValue, Field, Form, Kind, LeftOut, Level, Name, Need, Part, Row, Scalar, Shape, TextForm,
    When,
};

/// A name, in lowerCamelCase and as it was written.
macro_rules! name {
    ($camel:literal) => {
        Name { camel: $camel, original: $camel }
    };
    ($camel:literal, $original:literal) => {
        Name { camel: $camel, original: $original }
    };
}

const ID_RANGES: &[(u8, u8)] = &[
    (b'-', b'-'),
    (b'0', b'9'),
    (b'A', b'Z'),
    (b'_', b'_'),
    (b'a', b'z'),
];

const ID: TextForm = TextForm::Bytes {
    least: 1,
    most: 63,
    ranges: ID_RANGES,
};

const TEXT: Kind = Kind::Scalar(Scalar::Text(TextForm::Any));

const ID_TEXT: Kind = Kind::Scalar(Scalar::Text(ID));
/// The id of a node, which may be empty.
const NODE_ID: Kind = Kind::Scalar(Scalar::Text(TextForm::Bytes {
    least: 0,
    most: 63,
    ranges: ID_RANGES,
}));
/// A field of an identifier, and its name, which may not be empty.
const FIELD: Kind = Kind::Scalar(Scalar::Text(TextForm::Bytes {
    least: 0,
    most: 255,
    ranges: &[(b'!', b'~')],
}));

const NAME: Kind = Kind::Scalar(Scalar::Text(TextForm::Bytes {
    least: 1,
    most: 255,
    ranges: &[(b'!', b'~')],
}));

const BOOL: Kind = Kind::Scalar(Scalar::Bool);

const TIMEOUT: Kind = Kind::Scalar(Scalar::Timeout);

/// The names and numbers of simple types; FLOAT is none that is read.
const SIMPLE: Kind = Kind::Scalar(Scalar::Enum {
    values: &[
        EnumValue {
            name: "NONE",
            number: 0,
        },
        EnumValue {
            name: "INTEGER",
            number: 1,
        },
        EnumValue {
            name: "STRING",
            number: 3,
        },
        EnumValue {
            name: "BOOLEAN",
            number: 4,
        },
        EnumValue {
            name: "DATETIME",
            number: 5,
        },
        EnumValue {
            name: "DURATION",
            number: 6,
        },
        EnumValue {
            name: "BINARY",
            number: 7,
        },
        EnumValue {
            name: "ERROR",
            number: 8,
        },
        EnumValue {
            name: "STRUCT",
            number: 9,
        },
    ],
    refused: &[EnumValue {
        name: "FLOAT",
        number: 2,
    }],
});

/// Whether a blob is one file or several.
const DIMENSIONALITY: Kind = Kind::Scalar(Scalar::Enum {
    values: &[
        EnumValue {
            name: "SINGLE",
            number: 0,
        },
        EnumValue {
            name: "MULTIPART",
            number: 1,
        },
    ],
    refused: &[],
});

/// What becomes of a workflow's other nodes where one fails.
const ON_FAILURE: Kind = Kind::Scalar(Scalar::Enum {
    values: &[
        EnumValue {
            name: "FAIL_IMMEDIATELY",
            number: 0,
        },
        EnumValue {
            name: "FAIL_AFTER_EXECUTABLE_NODES_COMPLETE",
            number: 1,
        },
    ],
    refused: &[],
});

/// Whether an error is worth another attempt.
const ERROR_KIND: Kind = Kind::Scalar(Scalar::Enum {
    values: &[
        EnumValue {
            name: "NON_RECOVERABLE",
            number: 0,
        },
        EnumValue {
            name: "RECOVERABLE",
            number: 1,
        },
    ],
    refused: &[],
});

// The numbers of the rows.
const BUNDLE: usize = 0;

const IDENTIFIER: usize = 1;

const TASK: usize = 2;

const TASK_METADATA: usize = 3;

const RETRY_STRATEGY: usize = 4;

const CONTAINER: usize = 5;

const INTERFACE: usize = 6;

const VARIABLE_MAP: usize = 7;

const VARIABLE: usize = 8;

const LITERAL_TYPE: usize = 9;

const BLOB_TYPE: usize = 10;

const ENUM_TYPE: usize = 11;

const UNION_TYPE: usize = 12;

const WORKFLOW: usize = 13;

const WORKFLOW_METADATA: usize = 14;

const NODE: usize = 15;

const NODE_METADATA: usize = 16;

const TASK_NODE: usize = 17;

const BINDING: usize = 18;

const BINDING_DATA: usize = 19;

const BINDING_LIST: usize = 20;

const BINDING_MAP: usize = 21;

const OUTPUT_REFERENCE: usize = 22;

const LITERAL: usize = 23;

const LITERAL_LIST: usize = 24;

const LITERAL_MAP: usize = 25;

const SCALAR: usize = 26;

const PRIMITIVE: usize = 27;

const BLOB: usize = 28;

const BLOB_METADATA: usize = 29;

const BINARY: usize = 30;

const ERROR: usize = 31;

const UNION: usize = 32;

const ERROR_DOCUMENT: usize = 33;

const CONTAINER_ERROR: usize = 34;

const SUBMISSION: usize = 35;

/// A field that is not read, with when it is refused.
macro_rules! refused {
    ($name:expr, $when:ident) => {
        LeftOut { name: $name, when: When::$when }
    };
}

/// A field of a kind, at the level of its message unless another is said.
macro_rules! field {
    ($need:expr, $shape:expr, $name:expr, $kind:expr) => {
        field!($need, $shape, $name, $kind, Same)
    };
    ($need:expr, $shape:expr, $name:expr, $kind:expr, $level:ident) => {
        Field { name: $name, need: $need, form: Form { shape: $shape, kind: $kind, level: Level::$level } }
    };
}

/// A field that is read by itself: its need, whether it is one value or a list, its name and its kind.
macro_rules! single {
    ($need:ident, $shape:ident, $name:expr, $($kind:tt)+) => {
        Part::Single(field!(Need::$need, Shape::$shape, $name, $($kind)+))
    };
}

/// A member of a `oneof`.
macro_rules! member {
    ($name:expr, $($kind:tt)+) => {
        field!(Need::Optional, Shape::One, $name, $($kind)+)
    };
}

mod literals;
mod tasks;
mod types;
mod workflows;

use literals::{
    binary_row, blob_metadata_row, blob_row, container_error_row, error_document_row, error_row,
    literal_list_row, literal_map_row, literal_row, primitive_row, scalar_row, submission_row,
    union_row,
};
use tasks::{
    bundle_row, container_row, identifier_row, interface_row, retry_strategy_row,
    task_metadata_row, task_row, variable_map_row, variable_row,
};
use types::{blob_type_row, enum_type_row, literal_type_row, union_type_row};
use workflows::{
    binding_data_row, binding_list_row, binding_map_row, binding_row, node_metadata_row, node_row,
    output_reference_row, task_node_row, workflow_metadata_row, workflow_row,
};

/// The rows of all messages that documents have.
pub(crate) fn message_table() -> [Row; 36]
    ensures { table_of result ≡ rows.message_table }
{
    [
        bundle_row(),
        identifier_row(),
        task_row(),
        task_metadata_row(),
        retry_strategy_row(),
        container_row(),
        interface_row(),
        variable_map_row(),
        variable_row(),
        literal_type_row(),
        blob_type_row(),
        enum_type_row(),
        union_type_row(),
        workflow_row(),
        workflow_metadata_row(),
        node_row(),
        node_metadata_row(),
        task_node_row(),
        binding_row(),
        binding_data_row(),
        binding_list_row(),
        binding_map_row(),
        output_reference_row(),
        literal_row(),
        literal_list_row(),
        literal_map_row(),
        scalar_row(),
        primitive_row(),
        blob_row(),
        blob_metadata_row(),
        binary_row(),
        error_row(),
        union_row(),
        error_document_row(),
        container_error_row(),
        submission_row(),
    ]
}

/// The form of a bundle.
pub(crate) fn bundle_form() -> Form
    ensures { form_of result ≡ rows.bundle_form }
{
    Form {
        shape: Shape::One,
        kind: Kind::Message(BUNDLE),
        level: Level::Same,
    }
}

/// The form of a literal map.
pub(crate) fn literal_map_form() -> Form
    ensures { form_of result ≡ rows.literal_map_form }
{
    Form {
        shape: Shape::One,
        kind: Kind::Message(LITERAL_MAP),
        level: Level::Same,
    }
}

/// The form of an error document.
pub(crate) fn error_document_form() -> Form
    ensures { form_of result ≡ rows.error_document_form }
{
    Form {
        shape: Shape::One,
        kind: Kind::Message(ERROR_DOCUMENT),
        level: Level::Same,
    }
}

/// The form of a file of submissions.
pub(crate) fn submissions_form() -> Form
    ensures { form_of result ≡ rows.submissions_form }
{
    Form {
        shape: Shape::List,
        kind: Kind::Message(SUBMISSION),
        level: Level::Same,
    }
}
