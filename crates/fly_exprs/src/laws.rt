ghost use Rattle.fly_exprs.specs.Laws.{OppositesDiffer, IsTrichotomy, GreaterIsLessBack, IntegersByValue, MomentsInOrder, FaultlessStays};

/// EQ and NEQ, LT and GTE, GT and LTE answer the opposite of each other. The call does nothing: its contract is the law.
pub fn opposites_differ()
    ensures { OppositesDiffer }
{}

/// Of two values that may be ordered one is less, or they are equal, and GT is LT the other way round. The call does
/// nothing: its contract is the law.
pub fn order_is_total()
    ensures one_of_three { IsTrichotomy }
    ensures back { GreaterIsLessBack }
    ensures integers { IntegersByValue }
{}

/// An expression without a fault stays so where each variable keeps its type, so that one whose faults were looked for
/// over declared types has a truth value over inputs of those types. The call does nothing: its contract is the law.
pub fn faultless_stays()
    ensures { FaultlessStays }
{}

/// Date-times are ordered by their seconds, and in one second by their nanos. The call does nothing: its contract is the
/// law.
pub fn moments_are_ordered()
    ensures { MomentsInOrder }
{}
