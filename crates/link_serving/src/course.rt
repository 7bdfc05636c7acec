//! How far the serving of links is.
ghost use Rattle.std.specs.Prelude.{◌≡◌, ◌||◌, false, true};
ghost use Rattle.link_serving.specs.Serving.{ends, fails, is_new, lacks, refuses, spends};

use crate::service::Ended;

/// How the serving of links went.
#[derive(Clone, Copy, Debug, PartialEq, Eq)]
pub struct Tally {
    /// Memory was wanting for a link, or in one.
    pub lacks_memory: bool,
    /// A call of the lock was Spent.
    pub is_spent: bool,
    /// Accepting failed.
    pub has_failed: bool,
}

impl Tally {
    // The same, but for a call that was Spent.
    pub(crate) fn spent(self) -> Tally
        ensures { result ≡ record self { is_spent = true } }
    {
        Tally {
            lacks_memory: self.lacks_memory,
            is_spent: true,
            has_failed: self.has_failed,
        }
    }
}

// What asking for a link came to.
#[derive(Clone, Copy)]
pub(crate) enum Came {
    Taken,
    Refused,
    NotReady,
    Closed,
    Failed,
}

impl Came {
    // Whether there was a link.
    pub(crate) fn is_new(self) -> bool
        ensures { result ≡ is_new self }
    {
        match self {
            Came::Taken | Came::Refused => true,
            Came::NotReady | Came::Closed | Came::Failed => false,
        }
    }
}

// The tally so far, whether accepting has ended, and whether a link came in this turn.
#[derive(Clone, Copy)]
pub(crate) struct Course {
    pub(crate) tally: Tally,
    pub(crate) has_ended: bool,
    pub(crate) has_come: bool,
}

impl Course {
    pub(crate) fn new() -> Course
        ensures tally { result.tally ≡ record { lacks_memory = false; is_spent = false; has_failed = false } }
        ensures ended { result.has_ended ≡ false }
    {
        Course {
            tally: Tally {
                lacks_memory: false,
                is_spent: false,
                has_failed: false,
            },
            has_ended: false,
            has_come: false,
        }
    }

    // A turn begins.
    pub(crate) fn begins(&mut self)
        ensures tally { self.new.tally ≡ self.old.tally }
        ensures ended { self.new.has_ended ≡ self.old.has_ended }
    {
        self.has_come = false;
    }

    // A link was asked for.
    pub(crate) fn note(&mut self, came: Came)
        ensures tally { self.new.tally ≡ record self.old.tally {
          lacks_memory = self.old.tally.lacks_memory || refuses came;
          has_failed = self.old.tally.has_failed || fails came;
        } }
        ensures ended { self.new.has_ended ≡ (self.old.has_ended || ends came) }
    {
        match came {
            Came::Taken => self.has_come = true,
            Came::Refused => {
                self.has_come = true;
                self.tally.lacks_memory = true;
            }
            Came::NotReady => {}
            Came::Closed => self.has_ended = true,
            Came::Failed => {
                self.has_ended = true;
                self.tally.has_failed = true;
            }
        }
    }

    // An item is over.
    pub(crate) fn ends(&mut self, end: Ended)
        ensures tally { self.new.tally ≡ record self.old.tally {
          lacks_memory = self.old.tally.lacks_memory || lacks end;
          is_spent = self.old.tally.is_spent || spends end;
        } }
        ensures ended { self.new.has_ended ≡ self.old.has_ended }
    {
        match end {
            Ended::Served => {}
            Ended::NoMemory => self.tally.lacks_memory = true,
            Ended::Spent => self.tally.is_spent = true,
        }
    }
}
