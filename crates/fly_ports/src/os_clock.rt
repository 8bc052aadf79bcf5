ghost use Rattle.std.specs.Prelude.{◌≡◌};
ghost use Rattle.std.specs.Duration.{as_nanos};
ghost use Rattle.fly_ports.specs.Clock.{Gives};
ghost use Rattle.fly_ports.specs.OsClock.{clock_state, millis_in};

use crate::Clock;
use std::rt;
use std::time::Duration;

/// The clock of the system, in milliseconds since 1970. It tells no moments.
#[derive(Drop)]
pub struct OsClock<'r, R> {
    runtime: &'r R,
}

impl<'r, R: rt::Clock> OsClock<'r, R> {
    pub fn make(runtime: &'r R) -> OsClock<'r, R> {
        OsClock { runtime }
    }
}

fn millis_of(time: Duration) -> i64
    ensures { result ≡ millis_in (as_nanos time) }
{
    i64::try_from(time.as_millis()).unwrap_or(i64::MAX)
}

impl<'r, R: rt::Clock> Clock for OsClock<'r, R> {
    ghost state = { clock_state };

    /// The milliseconds since 1970, and 0 where the clock stands before that or can't be read.
    fn now(&mut self) -> i64
        ensures { Gives (clock_state self.old) (clock_state self.new) result }
    {
        match self.runtime.since_1970() {
            Ok(time) => millis_of(time),
            Err(_) => 0,
        }
    }
}
