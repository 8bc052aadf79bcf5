//! How far a round has come with its questions.

/// How far a round has come: all questions of the nodes before the one at hand are behind.
#[derive(Clone, Copy)]
pub(crate) struct Progress {
    /// The node at hand.
    pub next: u32,
    /// Its first question is behind too.
    pub half: bool,
    /// The catalog was found to lack its outputs.
    pub missed: bool,
}
