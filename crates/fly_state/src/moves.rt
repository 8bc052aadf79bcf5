/// A slot of an execution: a node of the plan by its number, or one of its items; neither for the root.
#[derive(Clone, Copy, Debug, PartialEq, Eq)]
pub struct At {
    pub node: Option<u32>,
    pub item: Option<u32>,
}

/// What a move does. A number of 64 bits is the place of an entry that the move cites.
#[derive(Clone, Copy, Debug, PartialEq, Eq)]
pub enum Step {
    /// A workflow node takes its inputs and runs.
    Begin,
    /// A task or an array takes its inputs.
    Queue,
    /// A branch takes the case of this number.
    Choose(u32),
    /// No case of a branch holds, and it has no else node.
    NoCase,
    /// The inputs have a fault.
    InputFail,
    Skip,
    /// A task or an array runs: a cached one after a look-up that missed, and with a reservation where it is
    /// serializable.
    Run {
        miss: Option<u64>,
        lease: Option<u64>,
    },
    /// The catalog has the outputs.
    Hit(u64),
    /// Another attempt.
    Retry,
    /// The attempt has an outcome.
    Settle,
    /// The catalog took the outputs.
    Stored(u64),
    /// What is inside has come to its end.
    Close,
    Abort,
}

#[derive(Clone, Copy, Debug, PartialEq, Eq)]
pub struct Move {
    pub at: At,
    pub step: Step,
}
