//! What holds of the records of every capture.
ghost use Rattle.td_explain.specs.Laws.{LinesGrow, EachAgreesWithAudit};

/// The lines of one more record come behind those of the records before it.
/// See `put_skipped_line`.
pub fn lines_grow()
    ensures { LinesGrow }
{}

/// What is said agrees with the audit of the same records: nothing is unlicensed exactly where each datagram from the
/// server is licensed, and the first that is said to be has the number of the least place that isn't. This is a law
/// over all lists of records.
pub fn each_agrees_with_audit()
    ensures { EachAgreesWithAudit }
{}
