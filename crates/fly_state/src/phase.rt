/// Where a slot stands, as the phases of flyteidl's `NodeExecution` and `WorkflowExecution`. The last five are final.
#[derive(Clone, Copy, Debug, PartialEq, Eq)]
pub enum Phase {
    NotYetStarted,
    Queued,
    Running,
    /// An attempt failed, and another is made.
    RetryableFailure,
    /// The outputs are there, and are to be put into the catalog.
    Succeeding,
    Succeeded,
    Failed,
    TimedOut,
    Skipped,
    Aborted,
}
