//! What the engine has for a call is given to it.
ghost use Rattle.std.specs.Prelude.{◌≡◌, ◌≤◌, ◌++◌, ◌∷◌, List, [], All, Ok, IfOk, IfErr, false, length, map};
ghost use Rattle.grpc_heads.specs.CallEnd.{CallEnd, Status as StatusEnd};
ghost use Rattle.rig_io.specs.Link.{Piece};
ghost use Rattle.h2_exchange.specs.StreamParts.{Finish, Item, Message};
ghost use Rattle.grpc_stream.specs.CallTrace.{CallTrace};
ghost use Rattle.table_model.specs.Event.{Event};
ghost use Rattle.call_answers.specs.declared.orders.Setting.{Setting as SettingView};
ghost use Rattle.call_orders.specs.Calls.{Action};
ghost use Rattle.call_orders.specs.Owed.{end_items, items_by};
ghost use Rattle.session_engine.specs.Stands.{items_in};
ghost use Rattle.server_turns.specs.Serving.{is_want_of_memory};
ghost use Rattle.server_conn.specs.Handing.{Hands, counted, left_if, wants};
ghost use Rattle.server_conn.specs.Standing.{EndsBy, Works, is_spent_by, past_of};
ghost use Rattle.server_conn.specs.Steps.{Owes, has_items, is_fault_by};

use crate::conn::{Cause, ServerConn};
use grpc_heads::Status;
use grpc_stream::CallConnection;
use h2_exchange::SendFault;
use schema_numbers::Numbering;
use server_turns::Outcome;
use session_engine::Step;

/// The text of a status has at most so many bytes. What the engine gives is far shorter.
const LONGEST_TEXT: usize = 64;

// The end that tells of want of memory.
fn is_want_of_memory(status: &Status) -> bool
    ensures { result ≡ is_want_of_memory (Finish (StatusEnd status.now)) }
{
    status.code == 8 && status.message.as_slice() == b"want of memory".as_slice()
}

// One more call that is ended for want of memory is counted.
fn counted(refused: u64, end: &Option<Status>) -> u64
    ensures { result ≡ counted (wants end.now) refused }
{
    match end {
        None => refused,
        Some(status) => {
            if is_want_of_memory(status) {
                return refused.saturating_add(1);
            }
            refused
        }
    }
}

// Whether a call is given anything.
fn has_items(messages: &Vec<Vec<u8>>, end: &Option<Status>) -> bool
    ensures { result ≡ has_items (items_by (map (λ bytes. bytes.items) messages.now.items) end.now) }
{
    end.is_some() || !messages.is_empty()
}

impl<K: CallConnection> ServerConn<K> {
    // Gives a call what a step of the engine has for it, unless the step halts the connection. Says whether the step has anything.
    pub(crate) fn give(&mut self, n: &Numbering, stream: u32, step: Step) -> Result<bool, Cause>
        ensures goes { (s : SettingView) (t : CallTrace) (actions : List Action) (pieces : List Piece) (own : List Event) → n.now ≡ s.numbering
            → Owes K.stands K.output s self.old.calls self.old.engine self.old.refused stream step t actions pieces own
            → IfOk result (λ has_any. (u : CallTrace) × (u.connection_trace ≡ t.connection_trace) × (u.reported ≡ t.reported)
            × Works K.stands K.output s self.new.calls self.new.engine self.new.refused u actions pieces own
            × (has_any ≡ has_items (items_in step)) × (step.halted ≡ false))
            × IfErr result (λ cause.
            EndsBy s t (K.output self.new.calls) self.new.engine self.new.refused (past_of pieces own self.new.is_ended) cause) }
        ensures alive { IfErr result (λ cause. is_spent_by cause ≡ false) }
        ensures same { self.new ≡ record self.old { calls = self.new.calls; refused = self.new.refused } }
        ensures ahead { K.ahead self.new.calls ≡ K.ahead self.old.calls }
        ensures quiet { IfErr result (λ cause. is_fault_by cause ≡ false) }
    {
        let Step {
            answers,
            end,
            halted,
        } = step;
        self.refused = counted(self.refused, &end);
        if halted {
            return Err(Cause::Ends(Outcome::Halted));
        }
        let messages = answers.into_vec();
        let has_any = has_items(&messages, &end);
        match self.give_items(n, stream, messages, end) {
            Ok(()) => Ok(has_any),
            Err(cause) => Err(cause),
        }
    }

    // Gives messages, and then the end, if there is one.
    fn give_items(
        &mut self,
        n: &Numbering,
        stream: u32,
        messages: Vec<Vec<u8>>,
        end: Option<Status>,
    ) -> Result<(), Cause>
        requires short { All (λ bytes. length bytes.items ≤ 4194304) messages.items }
        ensures goes { (s : SettingView) (t : CallTrace) (actions : List Action) (pieces : List Piece) (own : List Event) → n.now ≡ s.numbering
            → Hands K.stands K.output s self.old.calls self.old.engine self.old.refused stream t actions pieces own
            (items_by (map (λ bytes. bytes.items) messages.items) end)
            → IfOk result (λ _. Hands K.stands K.output s self.new.calls self.new.engine self.new.refused stream t actions pieces own [])
            × IfErr result (λ cause.
            EndsBy s t (K.output self.new.calls) self.new.engine self.new.refused (past_of pieces own self.new.is_ended) cause) }
        ensures alive { IfErr result (λ cause. is_spent_by cause ≡ false) }
        ensures same { self.new ≡ record self.old { calls = self.new.calls } }
        ensures ahead { K.ahead self.new.calls ≡ K.ahead self.old.calls }
        ensures quiet { IfErr result (λ cause. is_fault_by cause ≡ false) }
    {
        match self.give_messages(stream, messages) {
            Ok(true) => self.give_end(n, stream, end),
            Ok(false) => Ok(()),
            Err(cause) => Err(cause),
        }
    }

    // Gives messages, and says whether the stream takes more.
    fn give_messages(&mut self, stream: u32, messages: Vec<Vec<u8>>) -> Result<bool, Cause>
        requires short { All (λ bytes. length bytes.items ≤ 4194304) messages.items }
        ensures goes { (s : SettingView) (t : CallTrace) (actions : List Action) (pieces : List Piece) (own : List Event) (more : List (Item CallEnd))
            → Hands K.stands K.output s self.old.calls self.old.engine self.old.refused stream t actions pieces own
            (map Message (map (λ bytes. bytes.items) messages.items) ++ more)
            → IfOk result (λ takes.
            Hands K.stands K.output s self.new.calls self.new.engine self.new.refused stream t actions pieces own (left_if takes more))
            × IfErr result (λ cause.
            EndsBy s t (K.output self.new.calls) self.new.engine self.new.refused (past_of pieces own self.new.is_ended) cause) }
        ensures alive { IfErr result (λ cause. is_spent_by cause ≡ false) }
        ensures same { self.new ≡ record self.old { calls = self.new.calls } }
        ensures ahead { K.ahead self.new.calls ≡ K.ahead self.old.calls }
        ensures quiet { IfErr result (λ cause. is_fault_by cause ≡ false) }
    {
        let mut coming = messages.into_iter();
        'messages: while let Some(message) = coming.next() {
            match self.give_message(stream, message) {
                Ok(true) => {}
                Ok(false) => return Ok(false),
                Err(cause) => return Err(cause),
            }
        }
        Ok(true)
    }

    // Gives one message, and says whether the stream takes more.
    fn give_message(&mut self, stream: u32, message: Vec<u8>) -> Result<bool, Cause>
        requires short { length message.items ≤ 4194304 }
        ensures goes { (s : SettingView) (t : CallTrace) (actions : List Action) (pieces : List Piece) (own : List Event) (more : List (Item CallEnd))
            → Hands K.stands K.output s self.old.calls self.old.engine self.old.refused stream t actions pieces own (Message message.items ∷ more)
            → IfOk result (λ takes.
            Hands K.stands K.output s self.new.calls self.new.engine self.new.refused stream t actions pieces own (left_if takes more))
            × IfErr result (λ cause.
            EndsBy s t (K.output self.new.calls) self.new.engine self.new.refused (past_of pieces own self.new.is_ended) cause) }
        ensures alive { IfErr result (λ cause. is_spent_by cause ≡ false) }
        ensures same { self.new ≡ record self.old { calls = self.new.calls } }
        ensures ahead { K.ahead self.new.calls ≡ K.ahead self.old.calls }
        ensures quiet { IfErr result (λ cause. is_fault_by cause ≡ false) }
    {
        match self.calls.answer(stream, message) {
            Ok(()) => Ok(true),
            Err(SendFault::NoMemory) => Err(Cause::Ends(Outcome::NoMemory)),
            Err(SendFault::NotOpen) => Ok(false),
            Err(SendFault::IdsSpent) => Ok(false),
        }
    }

    // Gives the end, if there is one. Where its trailers could be larger than a header block may be, there is no memory for them.
    fn give_end(&mut self, n: &Numbering, stream: u32, end: Option<Status>) -> Result<(), Cause>
        ensures goes { (s : SettingView) (t : CallTrace) (actions : List Action) (pieces : List Piece) (own : List Event) → n.now ≡ s.numbering
            → Hands K.stands K.output s self.old.calls self.old.engine self.old.refused stream t actions pieces own (end_items end)
            → IfOk result (λ _. Hands K.stands K.output s self.new.calls self.new.engine self.new.refused stream t actions pieces own [])
            × IfErr result (λ cause.
            EndsBy s t (K.output self.new.calls) self.new.engine self.new.refused (past_of pieces own self.new.is_ended) cause) }
        ensures alive { IfErr result (λ cause. is_spent_by cause ≡ false) }
        ensures same { self.new ≡ record self.old { calls = self.new.calls } }
        ensures ahead { K.ahead self.new.calls ≡ K.ahead self.old.calls }
        ensures quiet { IfErr result (λ cause. is_fault_by cause ≡ false) }
    {
        let status = match end {
            None => return Ok(()),
            Some(status) => status,
        };
        if status.message.as_slice().len() > LONGEST_TEXT {
            return Err(Cause::Ends(Outcome::NoMemory));
        }
        match self.calls.end(n, stream, status) {
            Ok(()) => Ok(()),
            Err(SendFault::NoMemory) => Err(Cause::Ends(Outcome::NoMemory)),
            Err(SendFault::NotOpen) => Ok(()),
            Err(SendFault::IdsSpent) => Ok(()),
        }
    }
}
