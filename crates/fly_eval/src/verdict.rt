use fly_types::{LiteralMap, Text};

/// What a node, an item of an array or a run comes to. The names are those of the phases of `NodeExecution` and
/// `TaskExecution`, as far as evaluation has them.
#[derive(Debug, PartialEq, Eq, Drop)]
pub enum Verdict {
    /// It is open: something that it waits for, or runs, is not recorded.
    Pending,
    /// It never starts: a node that it needs failed, or the workflow node around it is never entered.
    Blocked,
    Skipped,
    Failed { code: Text },
    TimedOut,
    /// With its outputs.
    Succeeded(LiteralMap),
}
