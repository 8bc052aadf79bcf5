ghost use Rattle.std.specs.Prelude.{◌↔◌, IsTrue};
ghost use Rattle.fly_policy.specs.Timeouts.{IsExpired};

/// Whether what started at one moment has used up its timeout at another. All three are in milliseconds, and a timeout
/// of 0 never ends.
pub fn expired(start: i64, timeout_ms: u64, now: i64) -> bool
    ensures { IsTrue result ↔ IsExpired start timeout_ms now }
{
    if timeout_ms == 0 {
        return false;
    }
    match start.checked_add_unsigned(timeout_ms) {
        Some(end) => end <= now,
        None => false,
    }
}
