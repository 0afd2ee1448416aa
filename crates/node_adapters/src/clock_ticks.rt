//! Milliseconds.

ghost use Rattle.std.specs.Prelude.{None};

use host_ports::Ticks;
use std::rt::Clock;
use std::time::Instant;

/// Milliseconds since the first call. Where the clock cannot be read, the last answer stands.
#[derive(Drop)]
pub struct ClockTicks<'a, R> {
    clock: &'a R,
    begun: Option<Instant>,
    last: u64,
}

impl<'a, R: Clock> ClockTicks<'a, R> {
    /// A clock that was not asked yet.
    pub fn new(clock: &'a R) -> ClockTicks<'a, R> {
        ClockTicks {
            clock,
            begun: None,
            last: 0,
        }
    }
}

impl<'a, R: Clock> Ticks for ClockTicks<'a, R> {
    ghost to_come = { λ _. None };

    fn now(&mut self) -> u64 {
        let Ok(now) = Instant::now(self.clock) else {
            return self.last;
        };
        let begun = self.begun.unwrap_or(now);
        self.begun = Some(begun);
        let ticks = now.duration_since(begun).as_millis();
        self.last = u64::try_from(ticks).unwrap_or(u64::MAX);
        self.last
    }
}
