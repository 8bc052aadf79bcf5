ghost use Rattle.std.specs.Prelude.{◌≡◌};
ghost use Rattle.fly_ports.specs.Faults.{next_count};
ghost use Rattle.fly_ports.specs.Clock.{Gives};
ghost use Rattle.fly_ports.specs.ListClock.{answer_at, clock_state};

use crate::Clock;
use fly_types::List;
use std::marker::Model;

/// A clock in memory, which answers a list in order, then its last number again, and 0 where it is empty.
#[derive(Debug, Drop)]
pub struct ListClock {
    answers: List<i64>,
    calls: u64,
}

impl Model for ListClock {
    ghost use Rattle.fly_ports.specs.ListClock.{ClockMemory};

    ghost Value = { ClockMemory };

    ghost view = { λ c. record { answers = c.answers; calls = c.calls } };
}

impl ListClock {
    pub fn make(answers: List<i64>) -> ListClock
        ensures { result ≡ record { answers = answers; calls = 0 } }
    {
        ListClock { answers, calls: 0 }
    }
}

/// The next of the answers after so many calls, then the last again, and 0 where there are none.
fn answer_after(answers: &[i64], calls: u64) -> i64
    ensures { result ≡ answer_at answers.now calls }
{
    if answers.is_empty() {
        0
    } else {
        answers[(calls as usize).min(answers.len() - 1)]
    }
}

impl Clock for ListClock {
    ghost state = { clock_state };

    fn now(&mut self) -> i64
        ensures gives { Gives (clock_state self.old) (clock_state self.new) result }
        ensures answer { result ≡ answer_at self.old.answers self.old.calls }
        ensures after { self.new ≡ record self.old { calls = next_count self.old.calls } }
    {
        let calls = self.calls;
        self.calls = calls.saturating_add(1);
        answer_after(self.answers.as_slice(), calls)
    }
}
