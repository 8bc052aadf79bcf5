ghost use Rattle.fly_ports.specs.Clock.{ClockState, Gives};

/// Tells the moment, as any number.
pub trait Clock {
    /// The moments so far, where the clock tells them.
    ghost state: { Self → ClockState };

    fn now(&mut self) -> i64
        ensures { Gives (state self.old) (state self.new) result };
}
