//! What holds of calls where their connection gives an event.
ghost use Rattle.call_telling.specs.Laws.{CutsAreTold, EventsAreTaken, OverCallsAreForgotten, ReceivedFramesKeepCalls};

/// Received frames and what answers them change nothing of calls.
pub fn received_frames_keep_calls()
    ensures { ReceivedFramesKeepCalls }
{}

/// What each event of a call leaves.
pub fn events_are_taken()
    ensures { EventsAreTaken }
{}

/// What is told of the bytes that a call holds.
pub fn cuts_are_told()
    ensures { CutsAreTold }
{}

/// Calls whose streams do not live are forgotten.
pub fn over_calls_are_forgotten()
    ensures { OverCallsAreForgotten }
{}
