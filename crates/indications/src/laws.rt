//! Laws of indications as lists of bytes.
ghost use Rattle.indications.specs.Laws.{LeadReadsBack, LeadIsBytes};
ghost use Rattle.indications.specs.Numbers.{LeadNumbers};

/// As lists of bytes: indications in front of a packet are read, and they are bytes. These are laws over all
/// indications that may be given.
pub fn lead_reads_back()
    ensures { LeadReadsBack }
{}

/// Indications are so many bytes.
/// See `lead_reads_back`.
pub fn lead_is_bytes()
    ensures { LeadIsBytes }
{}

/// The lengths of authentications and origins are the standard's.
pub fn lead_numbers()
    ensures { LeadNumbers }
{}
