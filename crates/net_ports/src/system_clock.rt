//! The system's clock.
ghost use Rattle.std.specs.Prelude.{◌<◌, ◌^◌};

use ports::Clock;
use std::time;
use std::time::SystemTime;

/// The system's clock, which may tell any time of 64 bits. Where it can't be read, or is set before 1970, it tells 0.
#[derive(Clone, Copy, Drop)]
pub struct SystemClock<R> {
    rt: R,
}

impl<R> SystemClock<R> {
    /// The clock of this runtime.
    pub fn new(rt: R) -> Self {
        SystemClock { rt }
    }
}

impl<R: time::Clock> Clock for SystemClock<R> {
    ghost tells = { λ _ moment. moment < 2 ^ 64 };

    fn now(&self) -> u64 {
        let Ok(time) = SystemTime::now(&self.rt) else {
            return 0;
        };
        match time.duration_since(SystemTime::UNIX_EPOCH) {
            Ok(since) => since.as_secs(),
            Err(_) => 0,
        }
    }
}
