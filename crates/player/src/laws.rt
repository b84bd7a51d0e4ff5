//! What holds of every history, and of the numbers.
ghost use Rattle.player.specs.CaptureLaws.{PiecesAreACapture};
ghost use Rattle.player.specs.Numbers.{MomentNumbers};

/// The pieces of a capture of a history are together the bytes of a head, and of a record for each entry, in order.
/// This is a law over all histories.
/// Leaves open: that each record is one that a capture may hold, and so that these bytes are read back; that is so of
/// each wire of a topology.
pub fn pieces_are_a_capture()
    ensures { PiecesAreACapture }
{}

/// A capture's seconds and their fractions are those of the format.
pub fn moment_numbers()
    ensures { MomentNumbers }
{}
