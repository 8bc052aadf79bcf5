ghost use Rattle.fly_eval.specs.Laws.{LaterRecordsKeepVerdicts};

/// What is recorded later changes no verdict but one that was pending, and takes no attempt back. The call does nothing:
/// its contract is the law.
pub fn later_records_keep_verdicts()
    ensures { LaterRecordsKeepVerdicts }
{}
