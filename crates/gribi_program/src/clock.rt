ghost use Rattle.std.specs.Prelude.{◌≡◌, pos};

use rig_io::Clock;
use std::time;

/// A clock over the system's: nanoseconds since the start of 1970 (UTC). Where the system's clock can't be read, or is past the
/// greatest moment, it answers the last moment again, which is 0 at first.
#[derive(Drop)]
pub struct SystemClock<R> {
    system: R,
    last: i64,
}

impl<R: time::Clock + Copy + Send + Drop> SystemClock<R> {
    /// A clock that has not been read.
    pub fn new(system: R) -> Self
        ensures { (result.system ≡ system) × (result.last ≡ pos 0) }
    {
        SystemClock { system, last: 0 }
    }
}

impl<R: time::Clock + Copy + Send + Drop> Clock for SystemClock<R> {
    fn now(&mut self) -> i64
        ensures last { self.new.last ≡ result }
        ensures system { self.new.system ≡ self.old.system }
    {
        if let Ok(time) = self.system.since_1970() {
            if let Ok(moment) = i64::try_from(time.as_nanos()) {
                self.last = moment;
            }
        }
        self.last
    }

    fn twin(&self) -> Self
        ensures { (result.system ≡ self.now.system) × (result.last ≡ self.now.last) }
    {
        SystemClock {
            system: self.system,
            last: self.last,
        }
    }
}
