ghost use Rattle.fly_world.specs.Laws.{LeavesOneWorld, PrefixesAreLegal, StepsExtend, WorldsTellJournals, LaunchesAreSingle, OutcomesStay, MomentsNeverFall, VersionsStay, FinalSlotsStay, NamesAreOfPlan, VersionsAreShaped, RecordsAreTyped, WorldsAreOfPlan, TimeoutsAreDue, ReservationsHold, WritesAreRounds, ViewsStay};

/// A journal leaves one world. The call does nothing: its contract is the law.
pub fn journals_leave_one_world()
    ensures { LeavesOneWorld }
{}

/// Each prefix of a legal journal that has its first entry is legal. The call does nothing: its contract is the law.
pub fn legal_prefixes()
    ensures { PrefixesAreLegal }
{}

/// A legal journal with one step more is legal. The call does nothing: its contract is the law.
pub fn steps_extend()
    ensures { StepsExtend }
{}

/// A world's lists are those that its journal tells. The call does nothing: its contract is the law.
pub fn worlds_tell_journals()
    ensures { WorldsTellJournals }
{}

/// In a legal journal no attempt is launched, claimed or settled twice, what is settled was claimed, and what is claimed
/// was launched. The call does nothing: its contract is the law.
pub fn launches_are_single()
    ensures { LaunchesAreSingle }
{}

/// What an attempt came to stays, whatever entries follow. The call does nothing: its contract is the law.
pub fn outcomes_stay()
    ensures { OutcomesStay }
{}

/// The moment never falls. The call does nothing: its contract is the law.
pub fn moments_never_fall()
    ensures { MomentsNeverFall }
{}

/// Versions, once made, stay in their order. The call does nothing: its contract is the law.
pub fn versions_stay()
    ensures { VersionsStay }
{}

/// A slot that is final stands unchanged in all later versions. The call does nothing: its contract is the law.
pub fn final_slots_stay()
    ensures { FinalSlotsStay }
{}

/// After a legal journal, executions have ids as names, no two the same, and what is launched is an attempt of theirs.
/// The call does nothing: its contract is the law.
pub fn names_are_of_plan()
    ensures { NamesAreOfPlan }
{}

/// After a legal journal, each version has as many nodes as the plan, items of arrays alone, the submitted inputs, and
/// outputs where they were given. The call does nothing: its contract is the law.
pub fn versions_are_shaped()
    ensures { VersionsAreShaped }
{}

/// After a legal journal, what was submitted and what was recorded is of its declared type. The call does nothing: its
/// contract is the law.
pub fn records_are_typed()
    ensures { RecordsAreTyped }
{}

/// After a legal journal for a plan of task nodes, each version and each view is of the plan. The call does nothing: its
/// contract is the law.
pub fn worlds_are_of_plan()
    ensures { WorldsAreOfPlan }
{}

/// An attempt times out only where it was claimed and its time is over. The call does nothing: its contract is the law.
pub fn timeouts_are_due()
    ensures { TimeoutsAreDue }
{}

/// A reservation passes from its owner only by a sweep after the owner's end, or once its time is over. The call does
/// nothing: its contract is the law.
pub fn reservations_hold()
    ensures { ReservationsHold }
{}

/// Each accepted Write is one round on the version that was then current. The call does nothing: its contract is the law.
pub fn writes_are_rounds()
    ensures { WritesAreRounds }
{}

/// The view of a version that a Write ended is that of the store before the Write, whatever entries follow. The call does
/// nothing: its contract is the law.
pub fn views_stay()
    ensures { ViewsStay }
{}
