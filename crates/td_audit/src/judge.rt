//! The judging of a capture, record by record.
ghost use Rattle.std.specs.Prelude.{◌≡◌, ◌+◌, ◌<◌, ◌^◌, [], ◌∷◌, ◌++◌, List, length, Option, Some, None, OnOk, IfOk};
ghost use Rattle.td_audit.specs.Datagrams.{Datagram, datagram};
ghost use Rattle.td_audit.specs.Licences.{output};
ghost use Rattle.td_audit.specs.Judging.{IsCovered, HasGrantRoom, Licenses, Runs, Stands};
ghost use Rattle.td_audit.specs.Verdicts.{datagram_in, IsVerdict};
ghost use Rattle.server_core.specs.declared.server.ServerSettings.{ServerSettings};

use crate::counts::Counts;
use crate::licences::Licences;
use crate::reply::{is_audited, reply_to};
use crate::verdict::Verdict;
use server_core::ServerSettings;
use std::alloc::Global;
use td_base::{DATAGRAM_MAX, Ep, NoMemory};

/// What the records so far license, how many of each kind there were, and the first one that isn't licensed. Once there
/// is one, the others can't change the verdict.
#[derive(Drop)]
pub(crate) struct Judge {
    pub settings: ServerSettings,
    pub licences: Licences,
    pub counts: Counts,
    pub unlicensed: Option<u64>,
    /// Room for an answer.
    pub out: [u8; DATAGRAM_MAX],
}

/// Uses a licence up where the datagram is from the server. The answer is whether there was one.
fn use_if_from(
    settings: &ServerSettings,
    licences: &mut Licences,
    src: Ep,
    dst: Ep,
    body: &[u8],
) -> Result<bool, NoMemory>
    ensures { IfOk result (IsCovered settings.now licences.old licences.new (datagram src dst body.now)) }
{
    if !is_audited(settings, src) {
        return Ok(true);
    }
    licences.use_up(src, dst, body)
}

/// Licenses what the server sends on the datagram, where it is to the server. The answer is made in `out`.
fn license_reply(
    settings: &ServerSettings,
    licences: &mut Licences,
    src: Ep,
    dst: Ep,
    body: &[u8],
    out: &mut [u8; DATAGRAM_MAX],
) -> Result<(), NoMemory>
    ensures { OnOk result (HasGrantRoom settings.now licences.old
        → Licenses licences.old licences.new (output settings.now (Some (datagram src dst body.now)))) }
{
    let Some(reply) = reply_to(settings, src, dst, body, out) else {
        return Ok(());
    };
    licences.grant(reply.from, reply.to, &out[..reply.len])
}

impl Judge {
    /// Nothing was seen yet.
    pub(crate) fn new(alloc: Global, settings: ServerSettings) -> Judge
        ensures { Stands settings result [] }
    {
        Judge {
            settings,
            licences: Licences::none(alloc),
            counts: Counts::none(),
            unlicensed: None,
            out: [0; DATAGRAM_MAX],
        }
    }

    /// Judges what one more record holds.
    pub(crate) fn take(&mut self, packet: &[u8]) -> Result<(), NoMemory>
        ensures { OnOk result ((s : ServerSettings) (places : List (Option Datagram)) → length places + 1 < 2 ^ 64
            → Stands s self.old places → Stands s self.new (places ++ datagram_in packet.now ∷ [])) }
    {
        if self.unlicensed.is_some() {
            return Ok(());
        }
        match td_ipv4::read(packet) {
            Err(_) => {
                self.counts = self.counts.with(false, false);
                Ok(())
            }
            Ok(datagram) => self.judge(datagram.src, datagram.dst, datagram.body),
        }
    }

    /// Judges a datagram, where all were licensed so far.
    fn judge(&mut self, src: Ep, dst: Ep, body: &[u8]) -> Result<(), NoMemory>
        requires { self.old.unlicensed ≡ None }
        ensures { OnOk result ((s : ServerSettings) (places : List (Option Datagram)) → length places + 1 < 2 ^ 64
            → Stands s self.old places → Stands s self.new (places ++ Some (datagram src dst body.now) ∷ [])) }
    {
        if !use_if_from(&self.settings, &mut self.licences, src, dst, body)? {
            self.unlicensed = Some(self.counts.packets);
            return Ok(());
        }
        license_reply(
            &self.settings,
            &mut self.licences,
            src,
            dst,
            body,
            &mut self.out,
        )?;
        let to = is_audited(&self.settings, dst);
        let from = is_audited(&self.settings, src);
        self.counts = self.counts.with(to, from);
        Ok(())
    }

    /// The verdict, if no record is left.
    pub(crate) fn verdict(&self) -> Verdict
        ensures { (s : ServerSettings) (places : List (Option Datagram)) → Stands s self.now places → IsVerdict s places result }
    {
        match self.unlicensed {
            Some(place) => Verdict::Unlicensed { place },
            None => Verdict::Clean {
                packets: self.counts.packets,
                to: self.counts.to,
                from: self.counts.from,
                skipped: self.counts.skipped,
            },
        }
    }
}
