//! What follows from the definitions.
ghost use Rattle.interleaved.specs.Frame.{NoFrameBeginsAnother};

/// No frame begins another: where two frames begin the same bytes, they have the same bytes, channel
/// and data (RFC 2326, 10.12).
pub fn no_frame_begins_another()
    ensures { NoFrameBeginsAnother }
{}
