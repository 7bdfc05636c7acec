//! Laws over exchanges that go on.
ghost use Rattle.h2_exchange.specs.Laws.{AllIsPrefix, AnswersStay, CallsAreInPlace, HeaderBlocksGrow, CallsStay, EventsGoOn, EventsStay, LaterBlocksChangeNothing, ExchangeIsDetermined, OnlyTheseAreSent, OrderIsKept, ShownCallsStay, StopsStay, StreamsEnd, CompleteExchangeIsRead, WindowSumsGrow, WrittenBlocksAreRead};

/// The events of an exchange begin those of the exchange that goes on.
pub fn events_stay()
    ensures { EventsStay }
{}

/// What stopped an exchange is what stops it for good.
pub fn stops_stay()
    ensures { StopsStay }
{}

/// What stops an exchange, and its events, are the same whatever header blocks say at which it doesn't look.
pub fn later_blocks_change_nothing()
    ensures { LaterBlocksChangeNothing }
{}

/// An exchange that has all frames of a link is one that is read.
pub fn complete_exchange_is_read()
    ensures { CompleteExchangeIsRead }
{}

/// What stops an exchange, and its events, follow from its frames.
pub fn exchange_is_determined()
    ensures { ExchangeIsDetermined }
{}

/// One more frame adds its own events.
pub fn events_go_on()
    ensures { EventsGoOn }
{}

/// The calls that events spell begin those that more events spell.
pub fn calls_stay<M, E>()
    ensures { CallsStay M E }
{}

/// What is shown of calls begins what is shown of more calls.
pub fn shown_calls_stay<M, E>()
    ensures { ShownCallsStay M E }
{}

/// All of what a stream is owed is a first part of it.
pub fn all_is_prefix<E>()
    ensures { AllIsPrefix E }
{}

/// A side that sends only what it may goes on so with a received frame, and with one that it may send.
pub fn only_these_are_sent()
    ensures { OnlyTheseAreSent }
{}

/// The answers that events spell begin those that more events spell.
pub fn answers_stay<E>()
    ensures { AnswersStay E }
{}

/// A stream begins once, and does not live again.
pub fn streams_end()
    ensures { StreamsEnd }
{}

/// What one more frame adds to windows.
pub fn window_sums_grow()
    ensures { WindowSumsGrow }
{}

/// What one more frame does to header blocks.
pub fn header_blocks_grow()
    ensures { HeaderBlocksGrow }
{}

/// The header blocks that one encoder wrote are read by the peer as their fields.
pub fn written_blocks_are_read()
    ensures { WrittenBlocksAreRead }
{}

/// The order of received and sent frames lasts.
pub fn order_is_kept()
    ensures { OrderIsKept }
{}

/// The calls that an exchange spells stand in their places, where each stream error is answered by a reset.
pub fn calls_are_in_place<M, E>()
    ensures { CallsAreInPlace M E }
{}
