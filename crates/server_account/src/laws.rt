//! What follows where the parts of a connection agree with an account of it, and how the agreement goes on.
ghost use Rattle.std.specs.Prelude.{ℕ, List};
ghost use Rattle.grpc_heads.specs.CallEnd.{CallEnd};
ghost use Rattle.h2_exchange.specs.Order.{Piece};
ghost use Rattle.h2_exchange.specs.StreamParts.{Item};
ghost use Rattle.grpc_stream.specs.CallTrace.{CallTrace};
ghost use Rattle.table_model.specs.Event.{Event};
ghost use Rattle.call_answers.specs.declared.orders.Setting.{Setting};
ghost use Rattle.call_orders.specs.Calls.{Action};
ghost use Rattle.session_engine.specs.Queries.{OpenCallsView};
ghost use Rattle.server_turns.specs.Past.{Past};
ghost use Rattle.server_account.specs.Laws.{ActionsAreHandled, AgreementServes, BytesGoOn, CallsBegin, ConnectionStarts, CutsAreCounted, EndsServe};
ghost use Rattle.server_account.specs.Laws.{EventsComeNext, ItemsAreTaken, PumpsKeepUp, WritesKeep};

/// A connection whose parts agree with an account, and that has received every whole frame, keeps the promise to its client.
pub fn agreement_serves()
    ensures { AgreementServes }
{}

/// A new connection of a server's agrees with an account in which nothing was done.
pub fn connection_starts()
    ensures { ConnectionStarts }
{}

/// The agreement goes on with what is read and written, and with what a pump and the end of a hold send.
pub fn bytes_go_on()
    ensures { (s : Setting) (t : CallTrace) (output later : List ℕ) (calls : OpenCallsView) (actions : List Action) (pieces : List Piece) (own : List Event)
        (left : ℕ → List (Item CallEnd)) (rest : List ℕ) → BytesGoOn s t output later calls actions pieces own left rest }
{}

/// It goes on with each item that is taken to be sent, and where a stream that was reset takes none.
pub fn items_are_taken()
    ensures { (s : Setting) (t : CallTrace) (output later : List ℕ) (calls : OpenCallsView) (actions : List Action) (pieces : List Piece) (own : List Event)
        (stream : ℕ) → ItemsAreTaken s t output later calls actions pieces own stream }
{}

/// It goes on with what the calls tell next: an event is the next that a client did.
pub fn events_come_next()
    ensures { (s : Setting) (t : CallTrace) (output later : List ℕ) (calls : OpenCallsView) (actions : List Action) (pieces : List Piece) (own : List Event)
        (u : CallTrace) → EventsComeNext s t output later calls actions pieces own u }
{}

/// A call that begins was not heard of before.
pub fn calls_begin()
    ensures { CallsBegin }
{}

/// What a client did, a Collect, and a further response of a Get are handled by one more action of the engine.
pub fn actions_are_handled()
    ensures { (s : Setting) (t : CallTrace) (calls new : OpenCallsView) (actions : List Action) (own did : List Event) (stream : ℕ)
        → ActionsAreHandled s t calls new actions own did stream }
{}

/// Each call that was cut for want of memory is among those that were ended so.
pub fn cuts_are_counted()
    ensures { CutsAreCounted }
{}

/// Behind a pump calls are answered unless windows are used up, and no more waits than they are owed.
pub fn pumps_keep_up()
    ensures { (s : Setting) (t : CallTrace) (output later : List ℕ) (calls : OpenCallsView) (actions : List Action) (pieces : List Piece) (own : List Event)
        (left : ℕ → List (Item CallEnd)) (past : Past) (rest : List ℕ) → PumpsKeepUp s t output later calls actions pieces own left past rest }
{}

/// A connection that ends keeps its promise, with the cause of its end.
pub fn ends_serve()
    ensures { (s : Setting) (output : List ℕ) (calls : OpenCallsView) (actions : List Action) (past : Past) (last : List Event)
        → EndsServe s output calls actions past last }
{}

/// What a connection that is over still writes is taken off its output, and its promise is kept.
pub fn writes_keep()
    ensures { WritesKeep }
{}
