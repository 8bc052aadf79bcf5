ghost use Rattle.fly_agreement.specs.Laws.{RoundsKeepAgreement};

/// The first version of an execution agrees with its evaluation, and each round of legal moves leads from a state that
/// agrees to another. The call does nothing: its contract is the law.
pub fn rounds_keep_agreement()
    ensures { RoundsKeepAgreement }
{}
