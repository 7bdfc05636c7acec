//! What events tell of the calls that are kept.
ghost use Rattle.call_hearing.specs.Laws.{ClosedCallsLast, CutsGoOn, EventsTell, HeadsBeginCalls, ListeningLasts, OpenAnswersLast, OpenCallsAnswer, OpenCallsAsk, OpenCallsLast, OthersAreSilent, OthersTellNothing, ServersHear};

/// An event tells what it adds to what those before it tell.
pub fn events_tell()
    ensures { EventsTell }
{}

/// What an event of an open call tells at a server.
pub fn open_calls_ask()
    ensures { OpenCallsAsk }
{}

/// What an event of an open call tells at a client.
pub fn open_calls_answer()
    ensures { OpenCallsAnswer }
{}

/// The events that tell nothing.
pub fn others_tell_nothing()
    ensures { OthersTellNothing }
{}

/// What is kept of a call, behind an event of another stream and behind more that was told.
pub fn listening_lasts()
    ensures { ListeningLasts }
{}

/// What is kept of an open call behind its events, at a server.
pub fn open_calls_last()
    ensures { OpenCallsLast }
{}

/// What is kept of an open call behind its events, at a client.
pub fn open_answers_last()
    ensures { OpenAnswersLast }
{}

/// A call that is over stays so.
pub fn closed_calls_last()
    ensures { ClosedCallsLast }
{}

/// What is kept of a call that begins, and of one whose head is refused.
pub fn heads_begin_calls()
    ensures { HeadsBeginCalls }
{}

/// What a cutter gives of a call's bytes is what is told of them next.
pub fn cuts_go_on()
    ensures { CutsGoOn }
{}

/// The streams on which nothing comes.
pub fn others_are_silent()
    ensures { OthersAreSilent }
{}

/// What comes on a server's streams.
pub fn servers_hear()
    ensures { ServersHear }
{}
