//! Laws of datagrams as lists of bytes.
ghost use Rattle.td_ipv4.specs.Laws.{Udp4ReadsBack, Udp4IsSpelled, Udp4IsBytes, ChecksumsVerify, MadeIsUdp4};
ghost use Rattle.td_ipv4.specs.Numbers.{DatagramNumbers};

/// As lists of bytes: a spelling is read as its datagram, and bytes that are one are its spelling; what is made
/// verifies by both checksums. These are laws over all datagrams and all lists of bytes.
/// Needs: what `write` needs, or a body of at most 1,400 bytes.
pub fn udp4_reads_back()
    ensures { Udp4ReadsBack }
{}

/// Bytes that are read as a datagram are its spelling.
/// See `udp4_reads_back`.
pub fn udp4_is_spelled()
    ensures { Udp4IsSpelled }
{}

/// The spelling of a datagram is so many bytes.
/// See `udp4_reads_back`.
pub fn udp4_is_bytes()
    ensures { Udp4IsBytes }
{}

/// The sum of what a right checksum covers, and of the checksum, is ffff.
/// See `udp4_reads_back`.
pub fn checksums_verify()
    ensures { ChecksumsVerify }
{}

/// What is made is a datagram with right checksums.
/// See `udp4_reads_back`.
pub fn made_is_udp4()
    ensures { MadeIsUdp4 }
{}

/// The numbers of both headers are the standards'.
pub fn datagram_numbers()
    ensures { DatagramNumbers }
{}
