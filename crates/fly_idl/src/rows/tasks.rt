//! Bundles, identifiers, tasks and interfaces.
ghost use Rattle.std.specs.Prelude.{◌≡◌};
ghost use Rattle.fly_schema.specs.Views.{row_of};
ghost use Rattle.fly_idl.specs.Rows as rows;

use super::*;

/// The bundle, which is this project's own.
pub(crate) fn bundle_row() -> Row
    ensures { row_of result ≡ rows.bundle_row }
{
    const ROW: Row = Row {
        instead: None,
        left_out: &[],
        parts: &[
            single!(Optional, List, name!("tasks"), Kind::Message(TASK)),
            single!(Optional, List, name!("workflows"), Kind::Message(WORKFLOW)),
            single!(Required, One, name!("primary"), Kind::Message(IDENTIFIER)),
        ],
    };
    ROW
}

/// Identifier.
pub(crate) fn identifier_row() -> Row
    ensures { row_of result ≡ rows.identifier_row }
{
    const ROW: Row = Row {
        instead: None,
        left_out: &[],
        parts: &[
            single!(Optional, One, name!("project"), FIELD),
            single!(Optional, One, name!("domain"), FIELD),
            single!(Required, One, name!("name"), NAME),
            single!(Optional, One, name!("version"), FIELD),
        ],
    };
    ROW
}

/// TaskTemplate.
pub(crate) fn task_row() -> Row
    ensures { row_of result ≡ rows.task_row }
{
    const ROW: Row = Row {
        instead: None,
        left_out: &[
            refused!(name!("k8sPod", "k8s_pod"), Present),
            refused!(name!("sql"), Present),
        ],
        parts: &[
            single!(Required, One, name!("id"), Kind::Message(IDENTIFIER)),
            single!(
                Optional,
                One,
                name!("metadata"),
                Kind::Message(TASK_METADATA)
            ),
            single!(Optional, One, name!("interface"), Kind::Message(INTERFACE)),
            single!(Required, One, name!("container"), Kind::Message(CONTAINER)),
        ],
    };
    ROW
}

/// TaskMetadata; outputs are not cached yet.
pub(crate) fn task_metadata_row() -> Row
    ensures { row_of result ≡ rows.task_metadata_row }
{
    const ROW: Row = Row {
        instead: None,
        left_out: &[
            refused!(
                name!("cacheIgnoreInputVars", "cache_ignore_input_vars"),
                Filled
            ),
            refused!(name!("discoverable"), True),
        ],
        parts: &[
            single!(Optional, One, name!("discoverable"), BOOL),
            single!(Optional, One, name!("timeout"), TIMEOUT),
            single!(
                Optional,
                One,
                name!("retries"),
                Kind::Message(RETRY_STRATEGY)
            ),
            single!(
                Optional,
                One,
                name!("discoveryVersion", "discovery_version"),
                TEXT
            ),
            single!(
                Optional,
                One,
                name!("cacheSerializable", "cache_serializable"),
                BOOL
            ),
        ],
    };
    ROW
}

/// RetryStrategy.
pub(crate) fn retry_strategy_row() -> Row
    ensures { row_of result ≡ rows.retry_strategy_row }
{
    const ROW: Row = Row {
        instead: None,
        left_out: &[],
        parts: &[single!(
            Optional,
            One,
            name!("retries"),
            Kind::Scalar(Scalar::Whole(10))
        )],
    };
    ROW
}

/// Container.
pub(crate) fn container_row() -> Row
    ensures { row_of result ≡ rows.container_row }
{
    const ROW: Row = Row {
        instead: None,
        left_out: &[],
        parts: &[
            Part::Single(field!(
                Need::UnlessFilled(name!("args")),
                Shape::List,
                name!("command"),
                TEXT
            )),
            single!(Optional, List, name!("args"), TEXT),
        ],
    };
    ROW
}

/// TypedInterface.
pub(crate) fn interface_row() -> Row
    ensures { row_of result ≡ rows.interface_row }
{
    const ROW: Row = Row {
        instead: None,
        left_out: &[],
        parts: &[
            single!(Optional, One, name!("inputs"), Kind::Message(VARIABLE_MAP)),
            single!(Optional, One, name!("outputs"), Kind::Message(VARIABLE_MAP)),
        ],
    };
    ROW
}

/// VariableMap.
pub(crate) fn variable_map_row() -> Row
    ensures { row_of result ≡ rows.variable_map_row }
{
    const ROW: Row = Row {
        instead: None,
        left_out: &[],
        parts: &[Part::Single(field!(
            Need::Optional,
            Shape::Map(ID),
            name!("variables"),
            Kind::Message(VARIABLE)
        ))],
    };
    ROW
}

/// Variable.
pub(crate) fn variable_row() -> Row
    ensures { row_of result ≡ rows.variable_row }
{
    const ROW: Row = Row {
        instead: None,
        left_out: &[],
        parts: &[single!(
            Required,
            One,
            name!("type"),
            Kind::Message(LITERAL_TYPE),
            First
        )],
    };
    ROW
}
