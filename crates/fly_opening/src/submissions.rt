//! Submissions, checked and fitted.
ghost use Rattle.std.specs.Prelude.{◌≡◌, ◌++◌, map, length, IfOk, IfErr, OnOk, string_bytes};
ghost use Rattle.fly_types.specs.Lookup.{AreVariablesSorted};
ghost use Rattle.fly_opening.specs.Lines.{submission_lines, IsRefusal};
ghost use Rattle.fly_opening.specs.Submissions.{workflow_inputs, faults_in, repetitions, with_fitting_inputs, AreFitted, CanOpen, HaveIds, HaveSoundInputs};

use crate::inputs::fit_submission;
use crate::lines::push_count_lines;
use fly_docs::Submission;
use fly_state::Plan;
use fly_types::{List, NoMemory, Variable};
use std::alloc::Global;
use std::collections::BTreeSet;

/// Why submissions were not fitted.
#[derive(Debug, PartialEq, Eq, Drop)]
pub enum SubmissionsFault {
    /// A line for each fault of them, in the order of the faults.
    Refused(String),
    NoMemory,
}

impl From<NoMemory> for SubmissionsFault {
    ghost use Rattle.std.specs.Prelude.{◌≡◌};
    ghost use Rattle.fly_opening.specs.declared.submissions.SubmissionsFault.TheVariants as fault;

    ghost from_gives = { λ _ e. e ≡ fault.NoMemory };

    fn from(_: NoMemory) -> SubmissionsFault {
        SubmissionsFault::NoMemory
    }
}

/// Submissions with each input as its variable's type has it, or what is wrong with them.
pub fn fit_submissions(
    alloc: Global,
    p: &Plan,
    submissions: List<Submission>,
) -> Result<List<Submission>, SubmissionsFault>
    requires sorted { AreVariablesSorted (workflow_inputs p.now) }
    requires sound { HaveSoundInputs submissions }
    ensures ok { IfOk result (AreFitted p.now submissions) }
    ensures err { IfErr result (IsRefusal p.now submissions) }
    ensures opens { HaveIds submissions → IfOk result (CanOpen p.now) }
{
    let variables = &p.primary().interface.inputs;
    let mut lines = String::new(alloc);
    let fitted = fit_all(alloc, &mut lines, variables, submissions)?;
    if lines.is_empty() {
        Ok(fitted)
    } else {
        Err(SubmissionsFault::Refused(lines))
    }
}

/// Each submission with those of its inputs that fit, and a line for each fault of them.
fn fit_all(
    alloc: Global,
    lines: &mut String,
    variables: &List<Variable>,
    submissions: List<Submission>,
) -> Result<List<Submission>, NoMemory>
    requires sorted { AreVariablesSorted variables.now }
    requires sound { HaveSoundInputs submissions }
    ensures lines { OnOk result (string_bytes lines.new ≡ string_bytes lines.old ++ submission_lines (faults_in variables.now submissions)) }
    ensures value { IfOk result (λ fitted. fitted ≡ map (with_fitting_inputs variables.now) submissions) }
{
    push_count_lines(lines, submissions.len())?;
    let repeated = repetitions(alloc, submissions.as_slice())?;
    let mut fitted = Vec::with_capacity(alloc, submissions.len())?;
    for submission in submissions.into_vec() {
        let is_repeated = repeated[fitted.len()];
        fitted.push(fit_submission(alloc, lines, variables, is_repeated, submission)?)?;
    }
    Ok(List::from_vec(fitted))
}

/// For each submission whether an earlier one has its name.
pub(crate) fn repetitions(alloc: Global, submissions: &[Submission]) -> Result<Vec<bool>, NoMemory>
    ensures { IfOk result (λ repeated. repeated.items ≡ repetitions submissions.now) }
{
    let mut names = BTreeSet::new(alloc);
    let mut repeated = Vec::with_capacity(alloc, submissions.len())?;
    for submission in submissions {
        let is_new = names.insert(submission.name.as_str())?;
        repeated.push(!is_new)?;
    }
    Ok(repeated)
}
