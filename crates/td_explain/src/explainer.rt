//! What the server's table makes of a capture, record by record.
ghost use Rattle.std.specs.Prelude.{◌≡◌, ◌<◌, ℕ, List, [], length, IfOk, IfErr, IfSome, OnOk};
ghost use Rattle.server_core.specs.declared.server.ServerSettings.{ServerSettings};
ghost use Rattle.td_pcap.specs.Records.{Captured};
ghost use Rattle.td_audit.specs.Verdicts.{audited};
ghost use Rattle.td_explain.specs.Said.{all_said};
ghost use Rattle.td_explain.specs.Tallies.{tally_of};
ghost use Rattle.td_explain.specs.Explained.{IsWithinBytes, bytes_left, IsStop, Explains, ExplainsNext};

use crate::earlier::Earlier;
use crate::said::Said;
use crate::tally::Tally;
use crate::teller::Teller;
use server_core::ServerSettings;
use std::alloc::Global;
use td_audit::AuditFault;
use td_base::{Ip4, Policy};
use td_pcap::{HEAD, Head, next, read_head};

/// A capture that is explained, as far as it has come.
#[derive(Drop)]
pub struct Explainer<'a> {
    bytes: &'a [u8],
    head: Head,
    at: usize,
    teller: Teller<'a>,
}

impl<'a> Explainer<'a> {
    /// Begins with the first record of a capture.
    pub fn new(
        alloc: Global,
        primary: Ip4,
        secondary: Ip4,
        bytes: &'a [u8],
    ) -> Result<Explainer<'a>, AuditFault>
        /// Of each record in turn is said what it is: why it holds no datagram; the side, the source, the fate, the
        /// first fault and the output of a datagram to the server; what licenses one from it, or comes near. A datagram
        /// from the server that came n times up to here is licensed by the n-th place whose output it is, where that
        /// one is earlier; else the latest place with this output is told, or the latest with an output of these ends
        /// and this length and the first byte that differs. The output is that of the server's table with the policy
        /// for the Internet.
        /// Needs: memory.
        /// Leaves open: datagrams that the capture missed, and who sent what it holds; that what is no capture isn't
        /// answered by lack of memory.
        ensures begins { IfOk result (λ e. Explains (audited primary secondary) e bytes.now []) }
        /// See `Explainer::explain_next`: `next`.
        ensures inside { IfOk result (λ e. IsWithinBytes e) }
        // A head that is refused has its first fault.
        /// See `Explainer::explain_next`: `next`.
        ensures fault { IfErr result (λ fault. IsStop fault [] bytes.now) }
    {
        let head = read_head(bytes)?;
        let settings = ServerSettings {
            primary,
            secondary,
            policy: Policy::Strict,
        };
        Ok(Explainer {
            bytes,
            head,
            at: HEAD,
            teller: Teller::new(alloc, settings),
        })
    }

    /// What is said of the next record; nothing, behind the last one.
    pub fn explain_next(&mut self) -> Result<Option<Said>, AuditFault>
        requires { IsWithinBytes self.old }
        /// - Nothing is said behind the last record, and then the bytes are a capture of just the records before. What
        ///   is refused is refused by its first fault, behind the records before it.
        ///   Needs: a place within the bytes, which both calls leave.
        /// - See `Explainer::new`: `begins`.
        ensures next { IfOk result (λ said. (s : ServerSettings) (x : List ℕ) (rs : List Captured) → Explains s self.old x rs → ExplainsNext s self.new x rs said) }
        /// See `next`.
        ensures inside { OnOk result (IsWithinBytes self.new) }
        // There are fewer left each time.
        /// See `next`.
        ensures further { IfOk result (λ said. IfSome said (λ x. bytes_left self.new < bytes_left self.old)) }
        // What is refused has its first fault, behind the records so far.
        /// See `next`.
        ensures fault { IfErr result (λ fault. (s : ServerSettings) (x : List ℕ) (rs : List Captured) → Explains s self.old x rs → IsStop fault rs x) }
    {
        let Some((record, end)) = next(&self.head, self.bytes, self.at)? else {
            return Ok(None);
        };
        let earlier = Earlier {
            head: self.head,
            bytes: self.bytes,
            count: self.teller.told(),
        };
        let said = self.teller.tell(&earlier, record.bytes)?;
        self.at = end;
        Ok(Some(said))
    }

    /// How many records were explained.
    pub fn told(&self) -> u64
        /// See `Explainer::tally`.
        ensures { (s : ServerSettings) (x : List ℕ) (rs : List Captured) → Explains s self.now x rs → result ≡ length rs }
    {
        self.teller.told()
    }

    /// The counts of all records so far.
    pub fn tally(&self) -> Tally
        /// The counts are those of what was said: among them the places whose output is a datagram that never came, or
        /// not in its turn.
        ensures { (s : ServerSettings) (x : List ℕ) (rs : List Captured) → Explains s self.now x rs → result ≡ tally_of (all_said s rs) }
    {
        self.teller.tally()
    }
}
