//! Small exchanges, computed by the definitions.
ghost use Rattle.h2_exchange.specs.Examples as example;

/// A lowered setting brings a window below zero, and a grant above it again.
pub fn a_lowered_setting_lowers_a_window()
    ensures { example.LoweredWindow }
{}

/// The frames that a server and a client send first.
pub fn first_frames_announce_limits()
    ensures { example.FirstFrames }
{}

/// A stream from idle to over.
pub fn a_stream_lives_until_both_sides_ended()
    ensures { example.StreamLife }
{}

/// A stream for which there is no room.
pub fn a_stream_too_many_is_refused()
    ensures { example.RefusedStream }
{}

/// Frames on streams where they may not stand.
pub fn stream_numbers_are_kept()
    ensures { example.StreamNumbers }
{}

/// A second head on a stream.
pub fn a_second_head_ends_its_side()
    ensures { example.SecondHead }
{}

/// Frames that stop an exchange, with their places.
pub fn the_first_broken_rule_stops()
    ensures { example.Stops }
{}

/// Bytes that stop an exchange and are no frame.
pub fn bytes_that_are_no_frame_stop()
    ensures { example.RestStops }
{}

/// How large a header block may be.
pub fn header_blocks_are_bounded()
    ensures { example.BlockLimits }
{}

/// Which resets count against a client.
pub fn cut_requests_are_counted()
    ensures { example.CutRequests }
{}

/// Frames that give nothing, or are given as they stand.
pub fn frames_of_other_streams_are_ignored()
    ensures { example.QuietFrames }
{}

/// Heads and trailers that are malformed, and that are not.
pub fn heads_are_judged()
    ensures { example.BadHeads }
{}

/// What a client asks, as a server reads it.
pub fn events_give_calls()
    ensures { example.CallsOfEvents }
{}

/// What a server answers, as a client reads it.
pub fn events_give_answers()
    ensures { example.AnswersOfEvents }
{}

/// With 100 live streams the next one is refused.
pub fn a_server_takes_100_streams()
    ensures { example.FullServer }
{}

/// What a server reads of a request.
pub fn requests_are_read()
    ensures { example.Requests }
{}

/// The stream that GOAWAY names.
pub fn goaway_names_the_peers_last_stream()
    ensures { example.LastStreams }
{}

/// Frames that a server may send.
pub fn frames_that_are_sent()
    ensures { example.SentFrames }
{}

/// What a client reads of a response.
pub fn responses_are_read()
    ensures { example.Responses }
{}
