//! What holds of every history.
ghost use Rattle.loads.specs.Images.{KnownIsImage};

/// What is known of an address at a node is what is known by the numbers of records, with these records' packets in
/// place of the numbers: the same wait and are held, in the same order, and all else is the same. So it is at each
/// moment, whatever happened before.
/// Leaves open: what carries which load.
pub fn known_is_image()
    ensures { KnownIsImage }
{}
