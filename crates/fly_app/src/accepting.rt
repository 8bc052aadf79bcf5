//! The checks of a run's files, and what the run is made of once they are accepted.
ghost use Rattle.fly_types.specs.Lookup.{AreVariablesSorted};
ghost use Rattle.fly_idl.specs.Reading.{HaveIds, HaveSoundInputs};
ghost use Rattle.fly_opening.specs.Submissions.{workflow_inputs};
ghost use Rattle.fly_app.specs.Accepting.{Accepts, AcceptsSubmissions, ChecksJournal, FitsSubmissions};
ghost use Rattle.fly_app.specs.GivenWords.{run_request_of};

use crate::compiling::closure_of_file;
use crate::printing::not_empty_line;
use crate::reading::{Unanswered, refusal, submissions_of_file};
use crate::run_words::RunWords;
use fly_docs::Submission;
use fly_opening::{SubmissionsFault, closure_hash, fit_submissions};
use fly_ports::{Files, ReadFault};
use fly_state::Plan;
use fly_types::List;
use std::alloc::Global;

/// What a run is made of: its plan, the hash of its closure, and its submissions as they fit the plan's inputs.
#[derive(Drop)]
pub(crate) struct Accepted {
    pub plan: Plan,
    pub hash: [u8; 32],
    pub submissions: List<Submission>,
}

/// The submissions as they fit the plan's inputs, or a line for each of their faults.
fn fit<'w>(
    alloc: Global,
    plan: &Plan,
    submissions: List<Submission>,
) -> Result<List<Submission>, Unanswered<'w>>
    requires sorted { AreVariablesSorted (workflow_inputs plan.now) }
    requires ids { HaveIds submissions }
    requires sound { HaveSoundInputs submissions }
    ensures { FitsSubmissions plan.now submissions result }
{
    match fit_submissions(alloc, plan, submissions) {
        Ok(fitted) => Ok(fitted),
        Err(SubmissionsFault::Refused(lines)) => Err(Unanswered::Refused(lines)),
        Err(SubmissionsFault::NoMemory) => Err(Unanswered::NoMemory),
    }
}

/// Whether the journal is new: its file is absent or has no byte. One byte shows that it has some.
fn check_journal<'w, F: Files>(
    alloc: Global,
    files: &mut F,
    path: &'w str,
) -> Result<(), Unanswered<'w>>
    ensures { ChecksJournal (F.state files.old) (F.state files.new) path.now result }
{
    match files.read(alloc, path, 0) {
        Ok(bytes) => {
            if bytes.is_empty() {
                Ok(())
            } else {
                Err(refusal(not_empty_line(alloc)))
            }
        }
        Err(ReadFault::Absent) => Ok(()),
        Err(ReadFault::Failed) => Err(Unanswered::Unread(path)),
        Err(ReadFault::NoMemory) => Err(Unanswered::NoMemory),
    }
}

/// Checks the submissions and then the journal of a run of the plan. The submissions come as they fit its inputs.
fn accept_submissions<'w, F: Files>(
    alloc: Global,
    files: &mut F,
    plan: &Plan,
    request: &RunWords<'w>,
) -> Result<List<Submission>, Unanswered<'w>>
    requires { AreVariablesSorted (workflow_inputs plan.now) }
    ensures { AcceptsSubmissions (F.state files.old) (F.state files.new) plan.now (run_request_of request.now) result }
{
    let submissions = match submissions_of_file(alloc, files, request.submissions) {
        Ok(submissions) => submissions,
        Err(unanswered) => return Err(unanswered),
    };
    let fitted = match fit(alloc, plan, submissions) {
        Ok(fitted) => fitted,
        Err(unanswered) => return Err(unanswered),
    };
    match check_journal(alloc, files, request.journal) {
        Ok(()) => Ok(fitted),
        Err(unanswered) => Err(unanswered),
    }
}

/// Checks the files of a run: the bundle, the submissions and the journal, in this order.
pub(crate) fn accept<'w, F: Files>(
    alloc: Global,
    files: &mut F,
    request: &RunWords<'w>,
) -> Result<Accepted, Unanswered<'w>>
    ensures { Accepts (F.state files.old) (F.state files.new) (run_request_of request.now) result }
{
    let closure = match closure_of_file(alloc, files, request.bundle) {
        Ok(closure) => closure,
        Err(unanswered) => return Err(unanswered),
    };
    let Ok(hash) = closure_hash(alloc, &closure) else {
        return Err(Unanswered::NoMemory);
    };
    let Ok(plan) = Plan::expand(alloc, &closure) else {
        return Err(Unanswered::NoMemory);
    };
    drop(closure);
    match accept_submissions(alloc, files, &plan, request) {
        Ok(submissions) => Ok(Accepted {
            plan,
            hash,
            submissions,
        }),
        Err(unanswered) => Err(unanswered),
    }
}
