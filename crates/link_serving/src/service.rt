//! What is done with a link.
ghost use Rattle.std.specs.Prelude.{◌≡◌};

use reactor::{Turned, Turning};

/// How a link's item ended.
#[derive(Clone, Copy, Debug, PartialEq, Eq)]
pub enum Ended {
    /// It was served to its end.
    Served,
    /// There was no memory to serve it.
    NoMemory,
    /// A call of the lock was Spent.
    Spent,
}

/// Makes an item of each link and its pass, which has turns until it is over. `P` are the passes, and `C` the calls of the machine:
/// they are types without bounds, so that a service may stand over one machine alone.
pub trait Service<P, C, L, T: Turning> {
    ghost use Rattle.std.specs.Prelude.{◌≡◌, IfOk, IfErr};
    ghost use Rattle.reactor.specs.declared.turning.Turned.{Turned};
    ghost use Rattle.link_serving.specs.declared.service.Ended.{Ended};

    /// The passes that it takes, and those that it gives back.
    ghost takes: { P → Type 0 };

    ghost gives: { P → Type 0 };

    /// The item was made of this link, as it was given.
    ghost origin: { T → L → Type 0 };

    /// The item was made of this link and this pass, and had no turn.
    ghost opened: { T → L → P → Type 0 };

    /// What is known once an item was over: of its link, as it was given and as it is, of its pass, and of its end.
    ghost served: { L → L → P → Ended → Type 0 };

    /// The call that tells those who call the machine beside to end.
    ghost halt: { C };

    /// Makes an item, or hands link and pass back for want of memory.
    fn open(&mut self, link: L, pass: P) -> Result<T, (L, P)>
        requires { takes pass }
        ensures keeps { IfOk result (λ made. T.keeps made) }
        ensures opened { IfOk result (λ made. opened made link pass × origin made link) }
        ensures back { IfErr result (λ back. (back.0 ≡ link) × (back.1 ≡ pass)) };

    /// Takes an item apart that is over.
    fn close(&mut self, made: T) -> (L, P, Ended)
        requires keeps { T.keeps made }
        requires ends { T.ends made }
        ensures gives { gives result.1 }
        ensures served { (first : L) → origin made first → served first result.0 result.1 result.2 };

    /// Takes an item apart that had no turn.
    fn discard(&mut self, made: T) -> (L, P)
        requires { (link : L) × (pass : P) × opened made link pass }
        ensures { (link : L) (pass : P) → opened made link pass → (result.0 ≡ link) × (result.1 ≡ pass) };

    /// The call that tells those who call the machine beside to end.
    fn halt(&mut self) -> C
        ensures { result ≡ halt };

    /// A turn leaves an item one of the same link.
    ghost keeps_origin: { (before after : T) (came_to : Turned) (link : L) → T.goes before after came_to → origin before link → origin after link };
}
