use fly_state::{Op, Reply};

/// What was told to a question of a round: the entry of the answer, with its place in the journal.
#[derive(Debug, PartialEq, Eq, Drop)]
pub struct Told {
    pub place: u64,
    pub op: Op,
    pub reply: Reply,
}
