//! The audit of a capture.
ghost use Rattle.std.specs.Prelude.{◌≡◌, List, IfOk, IfErr, MatchResult};
ghost use Rattle.td_pcap.specs.declared.head.Head.{Head};
ghost use Rattle.td_pcap.specs.Records.{Captured};
ghost use Rattle.td_pcap.specs.Captures.{CaptureBytes};
ghost use Rattle.td_audit.specs.declared.fault.AuditFault.TheVariants.{NoMemory};
ghost use Rattle.td_audit.specs.Verdicts.{audited, places, IsVerdict, IsJudged, IsAuditFault};

use crate::fault::AuditFault;
use crate::judge::Judge;
use crate::verdict::Verdict;
use server_core::ServerSettings;
use std::alloc::Global;
use td_base::{Ip4, Policy};
use td_pcap::{HEAD, next, read_head};

/// Whether each datagram of the capture from port 3544 of the two addresses is licensed by an earlier one to it. What is
/// no capture to its last byte has no verdict, whatever stands before the fault.
pub fn audit(
    alloc: Global,
    primary: Ip4,
    secondary: Ip4,
    bytes: &[u8],
) -> Result<Verdict, AuditFault>
    /// A verdict comes exactly on captures: whether each datagram from the server is licensed by an earlier one to it,
    /// with the true counts. A datagram from the server is licensed where the places before it whose output it is are
    /// at least as many as those up to it that hold it, so that each has an earlier one of its own. Where one isn't,
    /// the least such record is told. The output is that of the server's table with the policy for the Internet; of
    /// IPv4's settings only the addresses are looked at.
    /// Needs: memory.
    /// Leaves open: datagrams that the capture missed, and who sent what it holds; that what is no capture isn't
    /// answered by lack of memory, which a test shows.
    ensures judged { IfOk result (λ verdict. IsJudged (audited primary secondary) verdict bytes.now) }
    // A capture has its verdict, unless memory runs out.
    /// See `judged`.
    ensures only { (head : Head) (records : List Captured) → CaptureBytes head records bytes.now
        → MatchResult result (IsVerdict (audited primary secondary) (places records)) (λ fault. fault ≡ NoMemory) }
    /// What is no capture is refused by its first fault. It is stated in `Verdicts.antt`, with the faults in
    /// `td_pcap/Captures.antt`.
    ensures fault { IfErr result (λ fault. IsAuditFault fault bytes.now) }
{
    let settings = ServerSettings {
        primary,
        secondary,
        policy: Policy::Strict,
    };
    verdict_on(alloc, settings, bytes)
}

fn verdict_on(alloc: Global, settings: ServerSettings, bytes: &[u8]) -> Result<Verdict, AuditFault>
    ensures judged { IfOk result (λ verdict. IsJudged settings verdict bytes.now) }
    ensures fault { IfErr result (λ fault. IsAuditFault fault bytes.now) }
{
    let head = read_head(bytes)?;
    let mut judge = Judge::new(alloc, settings);
    let mut at = HEAD;
    'records: while let Some((record, end)) = next(&head, bytes, at)? {
        judge.take(record.bytes)?;
        at = end;
    }
    Ok(judge.verdict())
}
