//! What the calls of a connection spell.
ghost use Rattle.grpc_stream.specs.ClientReads.{AnswersBeginMessages, ClientReadsMessages};
ghost use Rattle.grpc_stream.specs.Laws.{AllIsAnswered, AllIsAsked, ClientsAsk, GoawaysSend, OutOfMemorySends, PumpedIsAnswered, PumpedIsAsked, PumpsSend, ResetsSend, SendingIsKept, ServersAnswer, ServersShow};
ghost use Rattle.http_connection.specs.Laws.{EventsSend, RefusalsSend};

use h2_exchange::laws::written_blocks_are_read;

/// What a server sends can be read, and spells on each stream a first part of what was taken for it.
pub fn servers_answer()
    ensures { ServersAnswer }
{
    written_blocks_are_read()
}

/// What a client sends can be read, and spells on each stream its head and a first part of what was
/// taken for it.
pub fn clients_ask()
    ensures { ClientsAsk }
{
    written_blocks_are_read()
}

/// What is shown of calls one after another is what is shown of all of them.
pub fn servers_show()
    ensures { ServersShow }
{}

/// Where no bytes of a stream wait, and an end that was taken for it is sent, what a server sent spells
/// on it all that was taken.
pub fn all_is_answered()
    ensures { AllIsAnswered }
{
    written_blocks_are_read()
}

/// Where no bytes of a call wait, and its end is sent if it was taken, what a client sent spells its head
/// and all that was taken for it.
pub fn all_is_asked()
    ensures { AllIsAsked }
{
    written_blocks_are_read()
}

/// Where a pump leaves nothing waiting, what a server sent spells on each stream that no side reset all
/// that was taken for it.
pub fn pumped_is_answered()
    ensures { PumpedIsAnswered }
{
    written_blocks_are_read()
}

/// Where a pump leaves nothing waiting, what a client sent spells on each call that no side reset its head
/// and all that was taken for it.
pub fn pumped_is_asked()
    ensures { PumpedIsAsked }
{
    written_blocks_are_read()
}

/// A side that sends only what it may does so whatever becomes known of further header blocks.
pub fn sending_is_kept()
    ensures { SendingIsKept }
{}

/// What a pump sends may be sent.
pub fn pumps_send()
    ensures { PumpsSend }
{}

/// The reset of a live stream may be sent, where it is asked for.
pub fn resets_send()
    ensures { ResetsSend }
{}

/// The GOAWAY of a refusal may be sent, where what was sent before it may be.
pub fn goaways_send()
    ensures { GoawaysSend }
{}

/// What is sent with events may be sent.
pub fn events_send()
    ensures { EventsSend }
{}

/// What is sent before memory runs out may be sent.
pub fn out_of_memory_sends()
    ensures { OutOfMemorySends }
{}

/// What is sent up to a refusal, its GOAWAY with it, may be sent.
pub fn refusals_send()
    ensures { RefusalsSend }
{}

/// The messages that events answer on a stream begin those of the bytes that a server sent on it.
pub fn answers_begin_messages()
    ensures { AnswersBeginMessages }
{}

/// The messages that a client reads of what a server sent, as far as it was received, begin those that
/// the server's frames spell.
pub fn client_reads_messages()
    ensures { ClientReadsMessages }
{}
