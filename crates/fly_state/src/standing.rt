//! How nodes stand.
ghost use Rattle.std.specs.Prelude.{◌≡◌, ◌<◌, [], ◌∷◌, map, length, IfOk};
ghost use Rattle.fly_rules.specs.Standing as rules;
ghost use Rattle.fly_state.specs.Standing as words;
ghost use Rattle.fly_state.specs.Standing.{meaning_of, known_standing, signs_at, AreStandings};

use crate::reads::phase_at;
use crate::{ExecState, Phase, Plan};
use fly_types::{List, NoMemory};
use std::alloc::Global;

/// How a node stands that is not yet started.
#[derive(Clone, Copy, Debug, PartialEq, Eq)]
pub enum Standing {
    /// A node that it looks at may still go either way.
    Waiting,
    /// A node that it looks at failed, or is blocked. It stays as it is.
    Blocked,
    /// It is to be skipped.
    Skipped,
    Ready,
}

/// How each node of the plan stands in a state, in the order of their numbers. One pass over what they look at.
pub fn standings(alloc: Global, plan: &Plan, state: &ExecState) -> Result<List<Standing>, NoMemory>
    ensures { IfOk result (AreStandings plan.now state.now) }
{
    let mut known = vec![in alloc; Standing::Blocked; plan.len() as usize]?;
    for number in plan.order() {
        known[*number as usize] = plan.standing_by(state, *number, &known);
    }
    Ok(List::from_vec(known))
}

/// How a node stands among those that it looks at, where these stand as is known. Who isn't known counts as blocked.
pub(crate) fn standing_among(state: &ExecState, looks: &[u32], known: &[Standing]) -> Standing
    ensures { meaning_of result ≡ rules.standing_among (signs_at state.now (known_standing known.now) looks.now) }
{
    let mut standing = Standing::Ready;
    for look in looks {
        let sign = sign_of(phase_at(state, *look), standing_at(known, *look));
        standing = stronger_of(standing, sign);
    }
    standing
}

fn standing_at(known: &[Standing], number: u32) -> Standing
    ensures { meaning_of result ≡ known_standing known.now number }
{
    match known.get(number as usize) {
        Some(standing) => *standing,
        None => Standing::Blocked,
    }
}

/// How a node stands by one alone that it looks at.
fn sign_of(phase: Phase, standing: Standing) -> Standing
    ensures { meaning_of result ≡ words.sign_of phase (meaning_of standing) }
{
    match phase {
        Phase::Succeeded | Phase::Aborted => Standing::Ready,
        Phase::Skipped => Standing::Skipped,
        Phase::Failed | Phase::TimedOut => Standing::Blocked,
        Phase::NotYetStarted => match standing {
            Standing::Blocked => Standing::Blocked,
            _ => Standing::Waiting,
        },
        _ => Standing::Waiting,
    }
}

/// How a node stands by two that it looks at.
fn stronger_of(a: Standing, b: Standing) -> Standing
    ensures { meaning_of result ≡ rules.standing_among (meaning_of a ∷ meaning_of b ∷ []) }
{
    match a {
        Standing::Skipped => Standing::Skipped,
        Standing::Ready => b,
        Standing::Waiting => match b {
            Standing::Skipped => Standing::Skipped,
            _ => Standing::Waiting,
        },
        Standing::Blocked => match b {
            Standing::Ready => Standing::Blocked,
            _ => b,
        },
    }
}
