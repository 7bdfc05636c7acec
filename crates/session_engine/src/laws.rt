//! What follows of the clauses of the engine, over all that was done on a connection.
ghost use Rattle.call_answers.specs.declared.orders.Setting.{Setting};
ghost use Rattle.session_engine.specs.Laws.{ActionsFollow, BeginsFollow, SpentBeginsFollow, SpentFollows};

/// Where the open calls stand as actions left them, what a call of the engine does is one more action that may be taken behind
/// them. The open calls then stand as it leaves them, and its stream is owed the items of the step more.
pub fn actions_follow()
    ensures { (s : Setting) → ActionsFollow s }
{}

/// The same of a call that begins.
pub fn begins_follow()
    ensures { (s : Setting) → BeginsFollow s }
{}

/// Where a call of the lock was Spent, the connection is over by that: what was made is the first of an action that may be taken.
pub fn spent_follows()
    ensures going { (s : Setting) → SpentFollows s }
    ensures begun { (s : Setting) → SpentBeginsFollow s }
{}
