ghost use Rattle.std.specs.Prelude.{ℕ, ◌^◌, ◌<◌, List, length};

/// What a server tells of a message that it was handed.
#[derive(Clone, Copy, Debug, PartialEq, Eq)]
pub enum Handled {
    /// It is done, its answers were appended, and the stream goes on.
    Continue,
    /// It is done, its answers were appended, and a reply ends the stream with this status number of gRPC.
    Ends(u8),
    /// A field of it can't be read, at this place in the message; nothing was done or appended.
    Unreadable(usize),
    /// There was no memory; the first of its answers may have been appended.
    NoMemory,
}

/// A server of one stream of messages. What it makes of a message may rest on more than the messages, as on a device: so its
/// behaviour is one of many, and which one shows as messages are done.
pub trait MessageHandler: Drop {
    ghost use Rattle.message_run.specs.Behaviour.{Behaviour, HandlesMessage};

    /// The first became the second: what it never changes of itself is the same.
    ghost became: { Self → Self → Type 0 };

    /// This is the behaviour that the server has shown so far, whatever became of its last message.
    ghost shows: { Self → Behaviour → Type 0 };

    /// The server has done these messages, with this behaviour.
    ghost stands: { Self → Behaviour → List (List ℕ) → Type 0 };

    /// The server has done these messages, with this behaviour, and the stream's session has left.
    ghost left: { Self → Behaviour → List (List ℕ) → Type 0 };

    /// Does a message, and appends its answers to `out` as they stand in the output.
    fn handle(&mut self, message: &[u8], out: &mut Vec<u8>) -> Handled
        requires { (so_far : Behaviour) × (done : List (List ℕ)) × stands self.old so_far done × (length done < 2 ^ 61) }
        ensures became { (first : Self) → became first self.old → became first self.new }
        ensures handles { (so_far : Behaviour) (done : List (List ℕ)) → stands self.old so_far done → length done < 2 ^ 61 →
            HandlesMessage (shows self.new) (stands self.new) so_far done message.now result out.old.items out.new.items };

    /// The stream's session leaves.
    fn leave(&mut self)
        requires { (f : Behaviour) × (done : List (List ℕ)) × stands self.old f done × (length done < 2 ^ 61) }
        ensures became { (first : Self) → became first self.old → became first self.new }
        ensures shown { (f : Behaviour) → shows self.old f → shows self.new f }
        ensures left { (f : Behaviour) (done : List (List ℕ)) → stands self.old f done → length done < 2 ^ 61 → left self.new f done };
}
