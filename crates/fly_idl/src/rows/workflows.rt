//! Workflows, nodes and what is bound.
ghost use Rattle.std.specs.Prelude.{◌≡◌};
ghost use Rattle.fly_schema.specs.Views.{row_of};
ghost use Rattle.fly_idl.specs.Rows as rows;

use super::*;

/// WorkflowTemplate.
pub(crate) fn workflow_row() -> Row
    ensures { row_of result ≡ rows.workflow_row }
{
    const ROW: Row = Row {
        instead: None,
        left_out: &[refused!(name!("failureNode", "failure_node"), Present)],
        parts: &[
            single!(Required, One, name!("id"), Kind::Message(IDENTIFIER)),
            single!(
                Optional,
                One,
                name!("metadata"),
                Kind::Message(WORKFLOW_METADATA)
            ),
            single!(Optional, One, name!("interface"), Kind::Message(INTERFACE)),
            single!(Optional, List, name!("nodes"), Kind::Message(NODE)),
            single!(Optional, List, name!("outputs"), Kind::Message(BINDING)),
        ],
    };
    ROW
}

/// WorkflowMetadata.
pub(crate) fn workflow_metadata_row() -> Row
    ensures { row_of result ≡ rows.workflow_metadata_row }
{
    const ROW: Row = Row {
        instead: None,
        left_out: &[],
        parts: &[single!(Optional, One, name!("onFailure", "on_failure"), ON_FAILURE)],
    };
    ROW
}

/// Node; workflow nodes, branches and arrays are not read yet.
pub(crate) fn node_row() -> Row
    ensures { row_of result ≡ rows.node_row }
{
    const ROW: Row = Row {
        instead: None,
        left_out: &[
            refused!(name!("gateNode", "gate_node"), Present),
            refused!(name!("outputAliases", "output_aliases"), Filled),
            refused!(name!("workflowNode", "workflow_node"), Present),
            refused!(name!("branchNode", "branch_node"), Present),
            refused!(name!("arrayNode", "array_node"), Present),
        ],
        parts: &[
            single!(Required, One, name!("id"), ID_TEXT),
            single!(
                Optional,
                One,
                name!("metadata"),
                Kind::Message(NODE_METADATA)
            ),
            single!(Optional, List, name!("inputs"), Kind::Message(BINDING)),
            single!(
                Optional,
                List,
                name!("upstreamNodeIds", "upstream_node_ids"),
                ID_TEXT
            ),
            Part::OneOf {
                required: true,
                members: &[member!(name!("taskNode", "task_node"), Kind::Message(TASK_NODE))],
            },
        ],
    };
    ROW
}

/// NodeMetadata.
pub(crate) fn node_metadata_row() -> Row
    ensures { row_of result ≡ rows.node_metadata_row }
{
    const ROW: Row = Row {
        instead: None,
        left_out: &[],
        parts: &[
            single!(Optional, One, name!("timeout"), TIMEOUT),
            single!(
                Optional,
                One,
                name!("retries"),
                Kind::Message(RETRY_STRATEGY)
            ),
        ],
    };
    ROW
}

/// TaskNode.
pub(crate) fn task_node_row() -> Row
    ensures { row_of result ≡ rows.task_node_row }
{
    const ROW: Row = Row {
        instead: None,
        left_out: &[],
        parts: &[single!(
            Required,
            One,
            name!("referenceId", "reference_id"),
            Kind::Message(IDENTIFIER)
        )],
    };
    ROW
}

/// Binding.
pub(crate) fn binding_row() -> Row
    ensures { row_of result ≡ rows.binding_row }
{
    const ROW: Row = Row {
        instead: None,
        left_out: &[],
        parts: &[
            single!(Required, One, name!("var"), ID_TEXT),
            single!(Required, One, name!("binding"), Kind::Message(BINDING_DATA)),
        ],
    };
    ROW
}

/// BindingData.
pub(crate) fn binding_data_row() -> Row
    ensures { row_of result ≡ rows.binding_data_row }
{
    const ROW: Row = Row {
        instead: None,
        left_out: &[],
        parts: &[Part::OneOf {
            required: true,
            members: &[
                member!(name!("scalar"), Kind::Message(SCALAR)),
                member!(name!("collection"), Kind::Message(BINDING_LIST), Deeper),
                member!(name!("promise"), Kind::Message(OUTPUT_REFERENCE)),
                member!(name!("map"), Kind::Message(BINDING_MAP), Deeper),
            ],
        }],
    };
    ROW
}

/// BindingDataCollection.
pub(crate) fn binding_list_row() -> Row
    ensures { row_of result ≡ rows.binding_list_row }
{
    const ROW: Row = Row {
        instead: None,
        left_out: &[],
        parts: &[single!(
            Optional,
            List,
            name!("bindings"),
            Kind::Message(BINDING_DATA)
        )],
    };
    ROW
}

/// BindingDataMap.
pub(crate) fn binding_map_row() -> Row
    ensures { row_of result ≡ rows.binding_map_row }
{
    const ROW: Row = Row {
        instead: None,
        left_out: &[],
        parts: &[Part::Single(field!(
            Need::Optional,
            Shape::Map(TextForm::Any),
            name!("bindings"),
            Kind::Message(BINDING_DATA)
        ))],
    };
    ROW
}

/// OutputReference; an absent or empty node id is that of the start.
pub(crate) fn output_reference_row() -> Row
    ensures { row_of result ≡ rows.output_reference_row }
{
    const ROW: Row = Row {
        instead: None,
        left_out: &[refused!(name!("attrPath", "attr_path"), Filled)],
        parts: &[
            single!(Optional, One, name!("nodeId", "node_id"), NODE_ID),
            single!(Required, One, name!("var"), ID_TEXT),
        ],
    };
    ROW
}
