ghost use Rattle.std.specs.Prelude.{◌≡◌, ◌≤◌, [], ◌∷◌, ◌++◌, All, IfSome, None, OnOk, OnErr, false, length, map, option_to_list};
ghost use Rattle.call_answers.specs.Answers.{MAX_MESSAGE_SIZE};

use call_answers::Message;
use grpc_heads::Status;
use std::alloc::{AllocError, Global};
use std::marker::Model;

/// How long a message is at most.
pub(crate) const LONGEST_MESSAGE: usize = 4_194_304;

/// Messages that may be sent, in their order. Contracts see each as its bytes.
#[derive(Drop)]
pub struct Messages {
    items: Vec<Vec<u8>>,
}

impl Model for Messages {
    ghost use Rattle.std.specs.Prelude.{List, ℕ, ◌≤◌, All, length, map};
    ghost use Rattle.call_answers.specs.Answers.{MAX_MESSAGE_SIZE};

    ghost Value = { List (List ℕ) };

    ghost view = { λ m. map (λ bytes. bytes.items) m.items.items };

    ghost invariant = { λ m. All (λ bytes. length bytes.items ≤ MAX_MESSAGE_SIZE) m.items.items };
}

impl Messages {
    /// None.
    pub fn new(alloc: Global) -> Messages
        ensures { result ≡ [] }
    {
        Messages {
            items: Vec::new(alloc),
        }
    }

    // Appends a message of these bytes. It fails for want of memory alone.
    pub(crate) fn push(&mut self, bytes: Vec<u8>) -> Result<(), AllocError>
        requires { length bytes.items ≤ MAX_MESSAGE_SIZE }
        ensures ok { OnOk result (self.new ≡ self.old ++ bytes.items ∷ []) }
        ensures err { OnErr result (self.new ≡ self.old) }
    {
        self.items.push(bytes)?;
        Ok(())
    }

    // Appends a message, if there is one.
    pub(crate) fn push_message(&mut self, message: Option<Message>) -> Result<(), AllocError>
        requires { IfSome message (λ bytes. length bytes ≤ MAX_MESSAGE_SIZE) }
        ensures ok { OnOk result (self.new ≡ self.old ++ option_to_list message) }
        ensures err { OnErr result (self.new ≡ self.old) }
    {
        match message {
            None => Ok(()),
            Some(message) => self.push(message.into_vec()),
        }
    }

    /// The messages, as a vector. Each may be sent.
    pub fn into_vec(self) -> Vec<Vec<u8>>
        ensures items { map (λ bytes. bytes.items) result.items ≡ self }
        ensures short { All (λ bytes. length bytes.items ≤ MAX_MESSAGE_SIZE) result.items }
    {
        let Messages { items } = self;
        items
    }
}

/// What a call is to be answered next: messages, and its end where that is due.
#[derive(Drop)]
pub struct Step {
    /// The messages, in order.
    pub answers: Messages,
    /// The status that ends the call behind them.
    pub end: Option<Status>,
    /// Whether a command was answered Stopped.
    pub halted: bool,
}

impl Step {
    /// Nothing.
    pub fn new(alloc: Global) -> Step
        ensures { result ≡ record { answers = []; end = None; halted = false } }
    {
        Step {
            answers: Messages::new(alloc),
            end: None,
            halted: false,
        }
    }
}

/// Why the engine can't go on.
#[derive(Clone, Copy, Debug, PartialEq, Eq)]
pub enum EngineFault {
    /// A call under the lock was Spent.
    Spent,
}

/// How commands went.
#[derive(Clone, Copy, Debug, PartialEq, Eq)]
pub(crate) enum Progress {
    /// All were done, and the call goes on.
    GoesOn,
    /// The call has its end.
    Ended,
    /// Memory was wanting.
    OutOfMemory,
    /// A call under the lock was Spent.
    Spent,
}
