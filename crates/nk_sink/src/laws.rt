// The laws over listeners. A law is a function that does nothing: its contract is what is proved, for every listener
// that a new one comes to by any list of entries and reads.

ghost use Rattle.nk_sink.specs.Reached.{KeptLaw, LowersLaw, IdleLaw, ReadersLaw};

/// What was written and then what is kept are the bytes that it was shown before its first stop. Something is kept only
/// where the pipe has no room.
pub fn kept_law()
    ensures { KeptLaw }
{}

/// A read that is enabled lowers what the pumps have still to show, and one that is not changes nothing.
pub fn reads_law()
    ensures lowers { LowersLaw }
    ensures idle { IdleLaw }
{}

/// Once no read is enabled each reader has all bytes that it was shown before its first stop, and the status of that
/// stop.
pub fn readers_law()
    ensures { ReadersLaw }
{}
