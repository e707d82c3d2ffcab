// The reading and the writing of sheets undo one another.
ghost use Rattle.sheet.specs.Trips.{ReadThenWritten, WrittenThenRead};

// The laws of the round trip, through the checks of both public calls.
pub(crate) fn round_trips()
    ensures written_then_read { WrittenThenRead }
    ensures read_then_written { ReadThenWritten }
{}
