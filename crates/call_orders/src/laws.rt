//! What follows of the orders of a connection, in the words of calls, entries and answers.
ghost use Rattle.call_answers.specs.declared.orders.Setting.{Setting};
ghost use Rattle.call_orders.specs.Laws.{CutsAreFinal, EndsLeave, FinishedLeave, LeavesAreOnce, ModifyIsAnswered, NothingElseOrders, RefusalsLeave, RequestsAreDone, SessionsAreOwn, SinglesAreAnswered};

/// A message of an open Modify call gives its parameters, its election id and its operations, one after
/// another, up to the first reply that ends the call.
pub fn requests_are_done()
    ensures { (s : Setting) → RequestsAreDone s }
{}

/// A command of a session, its Begin and its Leave apart, is of an open Modify call with that session.
pub fn nothing_else_orders()
    ensures { (s : Setting) → NothingElseOrders s }
{}

/// Each command of a session is on one that was begun on this connection before it, and that has not left.
pub fn sessions_are_own()
    ensures { (s : Setting) → SessionsAreOwn s }
{}

/// Each session has at most one Leave, and one where the connection is over for another cause than Spent.
pub fn leaves_are_once()
    ensures { (s : Setting) → LeavesAreOnce s }
{}

/// Behind a reply that ends the call of a session its Leave comes next.
pub fn ends_leave()
    ensures { (s : Setting) → EndsLeave s }
{}

/// A message that can't be read, a drop, what is declined and want of memory give the Leave.
pub fn refusals_leave()
    ensures { (s : Setting) → RefusalsLeave s }
{}

/// While nothing else ends a call its session leaves right behind a Collect that answered 0 once its client has
/// ended its side, and not before.
pub fn finished_leave()
    ensures { (s : Setting) → FinishedLeave s }
{}

/// A Modify call is owed the responses of its entries, in their order, and then its first end, where memory was
/// never wanting for it.
pub fn modify_is_answered()
    ensures { (s : Setting) → ModifyIsAnswered s }
{}

/// A Get and a Flush are done or refused once, where their client ends its side, and are owed the responses to
/// what was done and then their end.
pub fn singles_are_answered()
    ensures { (s : Setting) → SinglesAreAnswered s }
{}

/// A call is ended for want of memory once at most, and is owed what was made before, and then that end.
pub fn cuts_are_final()
    ensures { (s : Setting) → CutsAreFinal s }
{}
