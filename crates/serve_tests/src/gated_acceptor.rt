//! An acceptor of gated links.
ghost use Rattle.std.specs.Prelude.{◌≡◌, ◌≤◌, ◌+◌};

use crate::gated_link::GatedLink;
use rig_io::{Accepted, Acceptor};

/// An acceptor that gives its links in order, or whose address can't be opened.
#[derive(Drop)]
pub(crate) struct GatedAcceptor<'a> {
    links: Vec<GatedLink<'a>>,
    opens: bool,
    asked: u64,
    before: u64,
    given_count: u64,
    retired_count: u64,
    faults: u64,
    ghost taken: { retired_count ≤ given_count },
    ghost before_is: { before ≤ given_count },
    ghost bounded: { given_count ≤ before + asked },
}

impl<'a> GatedAcceptor<'a> {
    /// An acceptor of these links.
    pub(crate) fn new(links: Vec<GatedLink<'a>>, opens: bool) -> GatedAcceptor<'a>
        ensures { (result.given_count ≡ 0) × (result.retired_count ≡ 0) }
    {
        GatedAcceptor {
            links,
            opens,
            asked: 0,
            before: 0,
            given_count: 0,
            retired_count: 0,
            faults: 0,
        }
    }

    /// How many links it gave, and how many it took back.
    pub(crate) fn counts(&self) -> (u64, u64) {
        (self.given_count, self.retired_count)
    }
}

impl<'a> Acceptor for GatedAcceptor<'a> {
    ghost use Rattle.std.specs.Prelude.{None};

    type Link = GatedLink<'a>;

    ghost given_count = { λ a. a.given_count };

    ghost retired_count = { λ a. a.retired_count };

    ghost asked = { λ a. (a.asked, a.before) };

    ghost given = { λ _. None };

    ghost retired = { λ _. None };

    ghost faults = { λ a. a.faults };

    ghost idles = { λ _. 0 };

    fn listen(&mut self, _address: &str, connections: u64) -> bool {
        if self.opens {
            self.before = self.given_count;
            self.asked = connections;
            true
        } else {
            self.faults = self.faults.saturating_add(1);
            false
        }
    }

    fn poll_accept(&mut self) -> Accepted<GatedLink<'a>> {
        if self.given_count - self.before == self.asked {
            return Accepted::Closed;
        }
        if self.links.is_empty() {
            self.faults = self.faults.saturating_add(1);
            return Accepted::Failed;
        }
        let Some(given_count) = self.given_count.checked_add(1) else {
            self.faults = self.faults.saturating_add(1);
            return Accepted::Failed;
        };
        self.given_count = given_count;
        Accepted::New(self.links.remove(0))
    }

    fn retire(&mut self, link: GatedLink<'a>) {
        drop(link);
        self.retired_count += 1;
    }
}
