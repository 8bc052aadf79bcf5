ghost use Rattle.fly_state.specs.Laws.{FirstStatesAreOfPlan, MovesNothingFinal, RoundsStayOfPlan};

/// Each legal move is on a slot that is not final. The call does nothing: its contract is the law.
pub fn moves_leave_final_slots()
    ensures { MovesNothingFinal }
{}

/// Version 0 is a state of the plan. The call does nothing: its contract is the law.
pub fn first_states_are_of_plan()
    ensures { FirstStatesAreOfPlan }
{}

/// In a plan of task nodes a round leads from a state of the plan to a state of the plan. The call does nothing: its
/// contract is the law.
pub fn rounds_stay_of_plan()
    ensures { RoundsStayOfPlan }
{}
