ghost use Rattle.captures.specs.Laws.{OneOutcome, OneReading};

/// Bytes are a capture with one list of packets, or they are bad at one place, and never both.
pub fn one_capture_reading()
    ensures { OneReading }
{}

/// A section has one outcome: its calls, the place where its capture is bad, or the first line that lacks its
/// packet.
pub fn one_section_outcome()
    ensures { OneOutcome }
{}
