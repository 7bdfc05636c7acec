ghost use Rattle.h2_frames.specs.Laws.{HaveOneReading, AreReadAgain, ErrorCodesAreNumbered};

/// Bytes have one list of frames, and behind it one rest or one refusal with its place.
pub fn bytes_have_one_reading()
    ensures { HaveOneReading }
{}

/// Frames that were written are read again, whatever part of a frame follows them.
pub fn written_frames_are_read_again()
    ensures { AreReadAgain }
{}

/// The error codes have the numbers 0 to 13.
pub fn error_codes_are_numbered()
    ensures { ErrorCodesAreNumbered }
{}
