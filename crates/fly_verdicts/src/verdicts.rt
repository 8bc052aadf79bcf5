//! What is printed of a verdict.
ghost use Rattle.std.specs.Prelude.{◌≡◌, ◌++◌, OnOk, string_bytes};
ghost use Rattle.fly_report.specs.Lines.{rest_text, outputs_text};
ghost use Rattle.fly_verdicts.specs.Verdicts as words;

use fly_eval::Verdict;
use fly_report::{push_line, push_outputs};
use fly_types::{List, NoMemory, Text};
use std::alloc::Global;

/// What a verdict is called in what is printed.
pub fn verdict_name(verdict: &Verdict) -> &'static str
    ensures { result.now ≡ words.verdict_name verdict.now }
{
    match verdict {
        Verdict::Pending => "PENDING",
        Verdict::Blocked => "NOT_YET_STARTED",
        Verdict::Skipped => "SKIPPED",
        Verdict::Failed { .. } => "FAILED",
        Verdict::TimedOut => "TIMED_OUT",
        Verdict::Succeeded(_) => "SUCCEEDED",
    }
}

/// Ends the line of what comes to a verdict.
pub(crate) fn push_verdict(
    alloc: Global,
    text: &mut String,
    attempts: Option<u64>,
    verdict: &Verdict,
) -> Result<(), NoMemory>
    ensures { OnOk result (string_bytes text.new ≡ string_bytes text.old
        ++ rest_text (words.verdict_name verdict.now) attempts (words.verdict_code verdict.now)) }
{
    let word = verdict_name(verdict);
    match verdict {
        Verdict::Failed { code } => push_line(alloc, text, word, attempts, Some(code)),
        Verdict::TimedOut => {
            let code = Text::from_str(alloc, "Timeout")?;
            push_line(alloc, text, word, attempts, Some(&code))
        }
        _ => push_line(alloc, text, word, attempts, None),
    }
}

/// Adds what was put out, where a verdict has that.
pub(crate) fn push_given(
    alloc: Global,
    text: &mut String,
    verdict: &Verdict,
) -> Result<(), NoMemory>
    ensures { OnOk result (string_bytes text.new ≡ string_bytes text.old ++ outputs_text (words.verdict_outputs verdict.now)) }
{
    match verdict {
        Verdict::Succeeded(outputs) => push_outputs(alloc, text, outputs.entries.as_slice()),
        _ => Ok(()),
    }
}

pub(crate) fn is_success(verdict: &Verdict) -> bool
    ensures { result ≡ words.is_success verdict.now }
{
    match verdict {
        Verdict::Succeeded(_) => true,
        _ => false,
    }
}
