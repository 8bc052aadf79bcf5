//! Types of literals.
ghost use Rattle.std.specs.Prelude.{◌≡◌};
ghost use Rattle.fly_schema.specs.Views.{row_of};
ghost use Rattle.fly_idl.specs.Rows as rows;

use super::*;

/// LiteralType.
pub(crate) fn literal_type_row() -> Row
    ensures { row_of result ≡ rows.literal_type_row }
{
    const ROW: Row = Row {
        instead: None,
        left_out: &[
            refused!(name!("schema"), Present),
            refused!(
                name!("structuredDatasetType", "structured_dataset_type"),
                Present
            ),
        ],
        parts: &[Part::OneOf {
            required: true,
            members: &[
                member!(name!("simple"), SIMPLE),
                member!(
                    name!("collectionType", "collection_type"),
                    Kind::Message(LITERAL_TYPE),
                    Deeper
                ),
                member!(
                    name!("mapValueType", "map_value_type"),
                    Kind::Message(LITERAL_TYPE),
                    Deeper
                ),
                member!(name!("blob"), Kind::Message(BLOB_TYPE)),
                member!(name!("enumType", "enum_type"), Kind::Message(ENUM_TYPE)),
                member!(name!("unionType", "union_type"), Kind::Message(UNION_TYPE)),
            ],
        }],
    };
    ROW
}

/// BlobType.
pub(crate) fn blob_type_row() -> Row
    ensures { row_of result ≡ rows.blob_type_row }
{
    const ROW: Row = Row {
        instead: None,
        left_out: &[],
        parts: &[
            single!(Optional, One, name!("format"), TEXT),
            single!(Optional, One, name!("dimensionality"), DIMENSIONALITY),
        ],
    };
    ROW
}

/// EnumType.
pub(crate) fn enum_type_row() -> Row
    ensures { row_of result ≡ rows.enum_type_row }
{
    const ROW: Row = Row {
        instead: None,
        left_out: &[],
        parts: &[single!(Optional, List, name!("values"), TEXT)],
    };
    ROW
}

/// UnionType.
pub(crate) fn union_type_row() -> Row
    ensures { row_of result ≡ rows.union_type_row }
{
    const ROW: Row = Row {
        instead: None,
        left_out: &[],
        parts: &[single!(
            Optional,
            List,
            name!("variants"),
            Kind::Message(LITERAL_TYPE),
            Deeper
        )],
    };
    ROW
}
