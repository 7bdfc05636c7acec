//! What follows where calls stand for what they were used for.
ghost use Rattle.call_standing.specs.Laws.{KeptBytesWait, StandingIsSound, TakenIsSpelled, TrailersSay};

/// Where the relation holds of each stream, the calls are sound beside their connection.
pub fn standing_is_sound()
    ensures { StandingIsSound }
{}

/// What the frames of a stream spell so far begins what was taken for it.
pub fn taken_is_spelled()
    ensures { TakenIsSpelled }
{}

/// The bytes that kept calls hold, on live streams, are those that no frame holds yet.
pub fn kept_bytes_wait()
    ensures { KeptBytesWait }
{}

/// Trailers end a call with the status that they were written of.
pub fn trailers_say()
    ensures { TrailersSay }
{}
