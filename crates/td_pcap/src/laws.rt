//! Laws of captures as lists of bytes.
ghost use Rattle.td_pcap.specs.Laws.{HeadReadsBack, RecordReadsBack, CaptureIsOne, CaptureHasNoFault, CaptureIsBytes};

/// As lists of bytes: head and records read back; a list is one capture at most, and then has no fault; a capture is
/// bytes. These are laws over all heads, records and lists of bytes.
pub fn head_reads_back()
    ensures { HeadReadsBack }
{}

/// A record is read as it, whatever stands before it and follows.
/// See `head_reads_back`.
pub fn record_reads_back()
    ensures { RecordReadsBack }
{}

/// Bytes are one capture at most.
/// See `head_reads_back`.
pub fn capture_is_one()
    ensures { CaptureIsOne }
{}

/// A capture has no fault.
/// See `head_reads_back`.
pub fn capture_has_no_fault()
    ensures { CaptureHasNoFault }
{}

/// How many bytes heads and records have, and that they are bytes.
/// See `head_reads_back`.
pub fn capture_is_bytes()
    ensures { CaptureIsBytes }
{}
