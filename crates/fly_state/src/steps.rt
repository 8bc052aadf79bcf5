//! What a worker asks of a view once, and of each of its nodes: is the run broken, can it close, and which step is legal
//! at a node while the run goes on.
ghost use Rattle.std.specs.Prelude.{◌≡◌, ◌<◌, [], length, is_some, Some};
ghost use Rattle.fly_docs.specs.Plans.{PlanNode};
ghost use Rattle.fly_state.specs.Moves as words;
ghost use Rattle.fly_state.specs.OfPlan.{IsViewOfPlan};
ghost use Rattle.fly_state.specs.Plans.{node_numbered};
ghost use Rattle.fly_state.specs.States as states;

use crate::closing::{can_close, is_broken};
use crate::legal::is_node_step;
use crate::{Entry, ExecState, Plan, Step, View};

/// Whether a failure ends the run at once. Goes over the phases of all nodes.
pub fn is_run_broken(p: &Plan, state: &ExecState) -> bool
    ensures { result ≡ states.is_broken p.now state.now [] }
{
    is_broken(p, state)
}

/// Whether the run is settled, and what it comes to is known. Goes over what all nodes look at.
pub fn can_run_close(p: &Plan, v: &View) -> bool
    requires { IsViewOfPlan p.now v.now }
    ensures { result ≡ is_some (words.closed_instance_slot p.now v.now.state []) }
{
    p.primary();
    can_close(p, &v.state)
}

/// Whether a node makes the step with these entries, where its instance lets it step. Costs what the node looks at, and
/// what it takes where it is to be queued.
pub fn is_step(p: &Plan, v: &View, cited: &[Entry], number: u32, step: Step) -> bool
    requires of_plan { IsViewOfPlan p.now v.now }
    requires number { number < length p.now.nodes }
    ensures { (n : PlanNode) → node_numbered p.now number ≡ Some n
        → result ≡ is_some (words.node_effect p.now v.now cited.now number n step) }
{
    p.primary();
    is_node_step(p, v, cited, number, step)
}
