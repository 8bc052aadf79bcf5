ghost use Rattle.std.specs.Prelude.{◌≡◌};
ghost use Rattle.fly_policy.specs.Retries.{next_of};

use crate::Outcome;

/// What follows an attempt.
#[derive(Clone, Copy, Debug, PartialEq, Eq)]
pub enum Next {
    Done,
    Again,
    Failed,
    TimedOut,
}

/// What follows an attempt with this outcome. Attempts are numbered from 0, and there are at most `limit`.
pub fn after_attempt(outcome: &Outcome, attempt: u32, limit: u32) -> Next
    ensures { result ≡ next_of outcome.now attempt limit }
{
    let may_retry = attempt as u64 + 1 < limit as u64;
    match outcome {
        Outcome::Succeeded(_) => Next::Done,
        Outcome::Fatal { .. } => Next::Failed,
        Outcome::Recoverable { .. } => { if may_retry { Next::Again } else { Next::Failed } }
        Outcome::TimedOut => {
            if may_retry {
                Next::Again
            } else {
                Next::TimedOut
            }
        }
    }
}
