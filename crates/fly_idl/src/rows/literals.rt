//! Literals, and the documents that have them.
ghost use Rattle.std.specs.Prelude.{◌≡◌};
ghost use Rattle.fly_schema.specs.Views.{row_of};
ghost use Rattle.fly_idl.specs.Rows as rows;

use super::*;

/// Literal.
pub(crate) fn literal_row() -> Row
    ensures { row_of result ≡ rows.literal_row }
{
    const ROW: Row = Row {
        instead: None,
        left_out: &[refused!(name!("offloadedMetadata", "offloaded_metadata"), Present)],
        parts: &[Part::OneOf {
            required: true,
            members: &[
                member!(name!("scalar"), Kind::Message(SCALAR)),
                member!(name!("collection"), Kind::Message(LITERAL_LIST), Deeper),
                member!(name!("map"), Kind::Message(LITERAL_MAP), Deeper),
            ],
        }],
    };
    ROW
}

/// LiteralCollection.
pub(crate) fn literal_list_row() -> Row
    ensures { row_of result ≡ rows.literal_list_row }
{
    const ROW: Row = Row {
        instead: None,
        left_out: &[],
        parts: &[single!(Optional, List, name!("literals"), Kind::Message(LITERAL))],
    };
    ROW
}

/// LiteralMap.
pub(crate) fn literal_map_row() -> Row
    ensures { row_of result ≡ rows.literal_map_row }
{
    const ROW: Row = Row {
        instead: None,
        left_out: &[],
        parts: &[Part::Single(field!(
            Need::Optional,
            Shape::Map(TextForm::Any),
            name!("literals"),
            Kind::Message(LITERAL)
        ))],
    };
    ROW
}

/// Scalar.
pub(crate) fn scalar_row() -> Row
    ensures { row_of result ≡ rows.scalar_row }
{
    const ROW: Row = Row {
        instead: None,
        left_out: &[
            refused!(name!("schema"), Present),
            refused!(name!("structuredDataset", "structured_dataset"), Present),
        ],
        parts: &[Part::OneOf {
            required: true,
            members: &[
                member!(name!("primitive"), Kind::Message(PRIMITIVE)),
                member!(name!("blob"), Kind::Message(BLOB)),
                member!(name!("binary"), Kind::Message(BINARY)),
                member!(name!("noneType", "none_type"), Kind::Empty),
                member!(name!("error"), Kind::Message(ERROR)),
                member!(name!("generic"), Kind::Struct),
                member!(name!("union"), Kind::Message(UNION), Deeper),
            ],
        }],
    };
    ROW
}

/// Primitive.
pub(crate) fn primitive_row() -> Row
    ensures { row_of result ≡ rows.primitive_row }
{
    const ROW: Row = Row {
        instead: None,
        left_out: &[],
        parts: &[Part::OneOf {
            required: true,
            members: &[
                member!(name!("integer"), Kind::Scalar(Scalar::Integer)),
                member!(name!("stringValue", "string_value"), TEXT),
                member!(name!("boolean"), BOOL),
                member!(name!("datetime"), Kind::Scalar(Scalar::Datetime)),
                member!(name!("duration"), Kind::Scalar(Scalar::Duration)),
                member!(
                    name!("floatValue", "float_value"),
                    Kind::Scalar(Scalar::Float)
                ),
            ],
        }],
    };
    ROW
}

/// Blob.
pub(crate) fn blob_row() -> Row
    ensures { row_of result ≡ rows.blob_row }
{
    const ROW: Row = Row {
        instead: None,
        left_out: &[],
        parts: &[
            single!(
                Required,
                One,
                name!("metadata"),
                Kind::Message(BLOB_METADATA)
            ),
            single!(Optional, One, name!("uri"), TEXT),
        ],
    };
    ROW
}

/// BlobMetadata.
pub(crate) fn blob_metadata_row() -> Row
    ensures { row_of result ≡ rows.blob_metadata_row }
{
    const ROW: Row = Row {
        instead: None,
        left_out: &[],
        parts: &[single!(Required, One, name!("type"), Kind::Message(BLOB_TYPE))],
    };
    ROW
}

/// Binary.
pub(crate) fn binary_row() -> Row
    ensures { row_of result ≡ rows.binary_row }
{
    const ROW: Row = Row {
        instead: None,
        left_out: &[],
        parts: &[
            single!(Optional, One, name!("value"), Kind::Scalar(Scalar::Bytes)),
            single!(Optional, One, name!("tag"), TEXT),
        ],
    };
    ROW
}

/// Error.
pub(crate) fn error_row() -> Row
    ensures { row_of result ≡ rows.error_row }
{
    const ROW: Row = Row {
        instead: None,
        left_out: &[],
        parts: &[
            single!(Optional, One, name!("failedNodeId", "failed_node_id"), TEXT),
            single!(Optional, One, name!("message"), TEXT),
        ],
    };
    ROW
}

/// Union.
pub(crate) fn union_row() -> Row
    ensures { row_of result ≡ rows.union_row }
{
    const ROW: Row = Row {
        instead: None,
        left_out: &[],
        parts: &[
            single!(Required, One, name!("value"), Kind::Message(LITERAL)),
            single!(
                Required,
                One,
                name!("type"),
                Kind::Message(LITERAL_TYPE),
                First
            ),
        ],
    };
    ROW
}

/// ErrorDocument.
pub(crate) fn error_document_row() -> Row
    ensures { row_of result ≡ rows.error_document_row }
{
    const ROW: Row = Row {
        instead: None,
        left_out: &[],
        parts: &[single!(
            Required,
            One,
            name!("error"),
            Kind::Message(CONTAINER_ERROR)
        )],
    };
    ROW
}

/// ContainerError.
pub(crate) fn container_error_row() -> Row
    ensures { row_of result ≡ rows.container_error_row }
{
    const ROW: Row = Row {
        instead: None,
        left_out: &[],
        parts: &[
            single!(Optional, One, name!("code"), TEXT),
            single!(Optional, One, name!("message"), TEXT),
            single!(Optional, One, name!("kind"), ERROR_KIND),
        ],
    };
    ROW
}

/// The submission, which is this project's own.
pub(crate) fn submission_row() -> Row
    ensures { row_of result ≡ rows.submission_row }
{
    const ROW: Row = Row {
        instead: None,
        left_out: &[],
        parts: &[
            single!(Required, One, name!("name"), ID_TEXT),
            single!(Optional, One, name!("inputs"), Kind::Message(LITERAL_MAP)),
        ],
    };
    ROW
}
