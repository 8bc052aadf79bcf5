ghost use Rattle.fly_history.specs.Laws.{LegalJournalsAgree};

/// In every legal journal of a plan of task nodes that are not cached, each version of each execution agrees with its
/// plain evaluation over what the journal records of it, and each launch has the inputs that evaluation gives its
/// attempt.
/// The call does nothing: its contract is the law.
pub fn legal_journals_agree()
    ensures { LegalJournalsAgree }
{}
