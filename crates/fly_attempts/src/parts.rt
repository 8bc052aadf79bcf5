use fly_docs::AttemptName;
use fly_policy::Outcome;
use fly_types::LiteralMap;

/// An attempt that was launched with its inputs.
#[derive(Debug, Drop)]
pub struct Launch {
    pub name: AttemptName,
    pub inputs: LiteralMap,
    /// The place of its entry.
    pub place: u64,
}

/// When an attempt was handed out, and the place of the entry that did it.
#[derive(Clone, Copy, Debug, PartialEq, Eq)]
pub struct Handout {
    pub moment: i64,
    pub place: u64,
}

/// What the attempt of a number came to, and the place of the entry that told it.
#[derive(Debug, Drop)]
pub struct Ending {
    /// The attempt's number in the order of launches.
    pub number: usize,
    pub outcome: Outcome,
    pub place: u64,
}
