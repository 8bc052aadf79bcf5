use crate::Verdict;
use fly_types::{List, LiteralMap, Text};

/// What a node, or an item of an array, comes to.
#[derive(Debug, PartialEq, Eq, Drop)]
pub struct Seen {
    /// The ids of the workflow nodes around it, from the outermost on, and its own.
    pub path: List<Text>,
    /// The number of the item, from 0.
    pub item: Option<u32>,
    pub verdict: Verdict,
    /// The inputs of its attempts, by their numbers, those of an awaited one included.
    pub attempts: List<LiteralMap>,
}

/// What a run comes to.
#[derive(Debug, PartialEq, Eq, Drop)]
pub struct Evaluated {
    pub root: Verdict,
    /// In the order of the plan, the items behind their array.
    pub list: List<Seen>,
}
