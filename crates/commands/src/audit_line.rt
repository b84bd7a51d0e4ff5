//! The lines that `audit` ends with.
ghost use Rattle.std.specs.Prelude.{◌≡◌};
ghost use Rattle.commands.specs.AuditLine.{verdict_line, no_capture_line, verdict_status};

use crate::serve_line::put_part;
use crate::statuses::{DONE, UNLICENSED};
use td_audit::Verdict;
use td_base::LineBuf;
use td_pcap::CapFault;

/// Why there is no capture to audit.
#[derive(Clone, Copy, Debug, PartialEq, Eq)]
pub enum NoCapture {
    /// The file has more bytes than are read.
    TooLong,
    /// Its bytes are no capture, by their first fault.
    Fault(CapFault),
}

/// The status that goes with a verdict.
pub fn verdict_status(verdict: &Verdict) -> u8
    ensures { result ≡ verdict_status verdict.now }
{
    match verdict {
        Verdict::Clean { .. } => DONE,
        Verdict::Unlicensed { .. } => UNLICENSED,
    }
}

/// Puts the line of a verdict in place of what the buffer held.
pub fn put_verdict_line(verdict: &Verdict, out: &mut LineBuf)
    ensures { out.new ≡ verdict_line verdict.now }
{
    out.clear();
    match verdict {
        Verdict::Clean {
            packets,
            to,
            from,
            skipped,
        } => {
            put_part(b"clean packets ", *packets, out);
            put_part(b" to ", *to, out);
            put_part(b" from ", *from, out);
            put_part(b" skipped ", *skipped, out);
        }
        Verdict::Unlicensed { place } => put_part(b"unlicensed ", *place, out),
    }
    out.push_text(b"\n");
}

/// Puts the line of a file without a capture in place of what the buffer held.
pub fn put_no_capture_line(why: &NoCapture, out: &mut LineBuf)
    ensures { out.new ≡ no_capture_line why.now }
{
    out.clear();
    match why {
        NoCapture::TooLong => out.push_text(b"capture too long"),
        NoCapture::Fault(CapFault::Cut { at }) => put_part(b"capture cut at ", *at as u64, out),
        NoCapture::Fault(CapFault::Magic { .. }) => out.push_text(b"capture magic"),
        NoCapture::Fault(CapFault::Version { .. }) => out.push_text(b"capture version"),
        NoCapture::Fault(CapFault::Link { .. }) => out.push_text(b"capture link"),
        NoCapture::Fault(CapFault::Big { at, .. }) => put_part(b"capture big at ", *at as u64, out),
    }
    out.push_text(b"\n");
}
