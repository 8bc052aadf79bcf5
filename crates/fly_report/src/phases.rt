ghost use Rattle.std.specs.Prelude.{◌≡◌};
ghost use Rattle.fly_report.specs.Phases as words;

use fly_state::Phase;

/// What a phase is called in what is printed.
pub fn phase_name(phase: Phase) -> &'static str
    ensures { result.now ≡ words.phase_name phase }
{
    match phase {
        Phase::NotYetStarted => "NOT_YET_STARTED",
        Phase::Queued => "QUEUED",
        Phase::Running => "RUNNING",
        Phase::RetryableFailure => "RETRYABLE_FAILURE",
        Phase::Succeeding => "SUCCEEDING",
        Phase::Succeeded => "SUCCEEDED",
        Phase::Failed => "FAILED",
        Phase::TimedOut => "TIMED_OUT",
        Phase::Skipped => "SKIPPED",
        Phase::Aborted => "ABORTED",
    }
}
