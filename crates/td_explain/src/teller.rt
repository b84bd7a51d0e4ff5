//! What is said of the records of a capture, one by one.
ghost use Rattle.std.specs.Prelude.{◌≡◌, ◌+◌, ◌<◌, ◌^◌, ◌++◌, List, [], ◌∷◌, length, Option, Some, OnOk, IfOk};
ghost use Rattle.server_core.specs.declared.server.ServerSettings.{ServerSettings};
ghost use Rattle.td_pcap.specs.Records.{Captured};
ghost use Rattle.td_audit.specs.Datagrams.{Datagram, datagram};
ghost use Rattle.td_audit.specs.Licences.{output};
ghost use Rattle.td_audit.specs.Verdicts.{datagram_in, places};
ghost use Rattle.td_explain.specs.Said.{asked_in, answered_in, said_of};
ghost use Rattle.td_explain.specs.Tallies.{tally_of};
ghost use Rattle.td_explain.specs.Said.{all_said};
ghost use Rattle.td_explain.specs.Earlier.{StandBefore};
ghost use Rattle.td_explain.specs.Telling.{KeepsKnown, drawn_datagram, StandsWithin, Tells};

use crate::answered::Answered;
use crate::earlier::Earlier;
use crate::known::Known;
use crate::question::{Question, answer_to, question_of};
use crate::said::Said;
use crate::tally::{Tallier, Tally};
use server_core::{Answer, ServerSettings};
use std::alloc::Global;
use td_audit::{endpoint, is_audited};
use td_base::{DATAGRAM_MAX, Ep, NoMemory};

/// What the records so far leave.
#[derive(Drop)]
pub(crate) struct Teller<'a> {
    settings: ServerSettings,
    known: Known<'a>,
    tallier: Tallier,
    /// Room for an answer.
    out: [u8; DATAGRAM_MAX],
}

/// What is said of a datagram as one from the server, where it is.
fn answered<'a>(
    settings: &ServerSettings,
    known: &mut Known<'a>,
    earlier: &Earlier<'a>,
    src: Ep,
    dst: Ep,
    body: &[u8],
) -> Result<Option<Answered>, NoMemory>
    ensures { IfOk result (λ found. (rs : List Captured) → StandBefore earlier.now rs → length (places rs) + 1 < 2 ^ 64
        → KeepsKnown settings.now known.old (places rs) (places rs)
        → (found ≡ answered_in settings.now (places rs) (datagram src dst body.now))
        × KeepsKnown settings.now known.new (places rs ++ Some (datagram src dst body.now) ∷ []) (places rs)) }
{
    if !is_audited(settings, src) {
        return Ok(None);
    }
    let licensing = known.licensing(settings, earlier, src, dst, body)?;
    Ok(Some(Answered { dst, licensing }))
}

impl<'a> Teller<'a> {
    /// Nothing was seen yet.
    pub(crate) fn new(alloc: Global, settings: ServerSettings) -> Teller<'a>
        ensures { Tells settings result [] }
    {
        Teller {
            settings,
            known: Known::none(alloc),
            tallier: Tallier::none(alloc),
            out: [0; DATAGRAM_MAX],
        }
    }

    /// Notes the output of the next place, which holds this packet. What is sent stands at the front of `out`.
    fn draw(&mut self, answer: Answer, packet: &'a [u8]) -> Result<(), NoMemory>
        requires { StandsWithin answer self.old.out }
        ensures noted { OnOk result ((came held : List (Option Datagram)) → self.old.tallier.counts.packets ≡ length held
            → drawn_datagram self.old.settings answer self.old.out ≡ output self.old.settings (datagram_in packet.now)
            → KeepsKnown self.old.settings self.old.known came held → KeepsKnown self.old.settings self.new.known came (held ++ datagram_in packet.now ∷ [])) }
        ensures settings { self.new.settings ≡ self.old.settings }
        ensures tallier { self.new.tallier ≡ self.old.tallier }
    {
        match answer {
            Answer::Drop { .. } => Ok(()),
            Answer::Six { .. } => Ok(()),
            Answer::Send { side, to, len, .. } => {
                let src = endpoint(&self.settings, side);
                let place = self.tallier.counts.packets;
                self.known.draw(src, to, &self.out[..len], place, packet)?;
                Ok(())
            }
        }
    }

    /// What is said of a datagram as one to the server, where it is. It is what the packet holds.
    fn asked(
        &mut self,
        src: Ep,
        dst: Ep,
        body: &[u8],
        packet: &'a [u8],
    ) -> Result<Option<Question>, NoMemory>
        ensures found { IfOk result (λ found. found ≡ asked_in self.old.settings (datagram src dst body.now)) }
        ensures noted { OnOk result ((came held : List (Option Datagram)) → self.old.tallier.counts.packets ≡ length held
            → datagram_in packet.now ≡ Some (datagram src dst body.now)
            → KeepsKnown self.old.settings self.old.known came held → KeepsKnown self.old.settings self.new.known came (held ++ datagram_in packet.now ∷ [])) }
        ensures settings { self.new.settings ≡ self.old.settings }
        ensures tallier { self.new.tallier ≡ self.old.tallier }
    {
        if !is_audited(&self.settings, dst) {
            return Ok(None);
        }
        let answer = answer_to(&self.settings, src, dst, body, &mut self.out);
        self.draw(answer, packet)?;
        Ok(Some(question_of(&self.settings, src, dst, body, answer)))
    }

    /// What is said of a record that holds this packet.
    fn said(&mut self, earlier: &Earlier<'a>, packet: &'a [u8]) -> Result<Said, NoMemory>
        ensures found { IfOk result (λ said. (rs : List Captured) → StandBefore earlier.now rs → length (places rs) + 1 < 2 ^ 64
            → self.old.tallier.counts.packets ≡ length (places rs) → KeepsKnown self.old.settings self.old.known (places rs) (places rs)
            → (said ≡ said_of self.old.settings (places rs) packet.now)
            × KeepsKnown self.old.settings self.new.known (places rs ++ datagram_in packet.now ∷ []) (places rs ++ datagram_in packet.now ∷ [])) }
        ensures settings { self.new.settings ≡ self.old.settings }
        ensures tallier { self.new.tallier ≡ self.old.tallier }
    {
        match td_ipv4::read(packet) {
            Err(fault) => Ok(Said::Skipped(fault)),
            Ok(datagram) => {
                let answered = answered(
                    &self.settings,
                    &mut self.known,
                    earlier,
                    datagram.src,
                    datagram.dst,
                    datagram.body,
                )?;
                let asked = self.asked(datagram.src, datagram.dst, datagram.body, packet)?;
                Ok(Said::Held { asked, answered })
            }
        }
    }

    /// What is said of one more record, which holds this packet.
    pub(crate) fn tell(&mut self, earlier: &Earlier<'a>, packet: &'a [u8]) -> Result<Said, NoMemory>
        ensures { IfOk result (λ said. (s : ServerSettings) (rs : List Captured) (r : Captured) → r.bytes ≡ packet.now → length rs + 1 < 2 ^ 64
            → StandBefore earlier.now rs → Tells s self.old rs → (said ≡ said_of s (places rs) packet.now) × Tells s self.new (rs ++ r ∷ [])) }
    {
        let said = self.said(earlier, packet)?;
        self.tallier.count(said)?;
        Ok(said)
    }

    /// How many records were told.
    pub(crate) fn told(&self) -> u64
        ensures { (s : ServerSettings) (rs : List Captured) → Tells s self.now rs → result ≡ length rs }
    {
        self.tallier.counts.packets
    }

    /// The counts of all records so far.
    pub(crate) fn tally(&self) -> Tally
        ensures { (s : ServerSettings) (rs : List Captured) → Tells s self.now rs → result ≡ tally_of (all_said s rs) }
    {
        self.tallier.tally()
    }
}
