//! All that came and all that was drawn.
ghost use Rattle.std.specs.Prelude.{◌≡◌, ◌+◌, ◌<◌, ◌^◌, ◌++◌, true, List, [], ◌∷◌, length, Some, Option, OnOk, IfOk};
ghost use Rattle.server_core.specs.declared.server.ServerSettings.{ServerSettings};
ghost use Rattle.td_pcap.specs.Records.{Captured};
ghost use Rattle.td_audit.specs.Datagrams.{Datagram, datagram, is_audited};
ghost use Rattle.td_audit.specs.Licences.{output};
ghost use Rattle.td_audit.specs.Verdicts.{datagram_in, places};
ghost use Rattle.td_explain.specs.Licensing.{licensing};
ghost use Rattle.td_explain.specs.Earlier.{StandBefore};
ghost use Rattle.td_explain.specs.Telling.{KeepsPast};

use crate::answered::Licensing;
use crate::earlier::Earlier;
use crate::ledger::Ledger;
use crate::likes::Likes;
use server_core::ServerSettings;
use std::alloc::Global;
use td_audit::{is_audited, reply_to};
use td_base::{DATAGRAM_MAX, Ep, NoMemory};
use td_pcap::{HEAD, next};

/// Which datagrams came, and which are outputs; and the latest outputs, for what is none.
#[derive(Drop)]
pub(crate) struct Past<'a> {
    ledger: Ledger,
    likes: Likes<'a>,
}

impl<'a> Past<'a> {
    /// Of no records.
    fn none(alloc: Global) -> Past<'a>
        ensures { (s : ServerSettings) → KeepsPast s result [] [] }
    {
        Past {
            ledger: Ledger::none(alloc),
            likes: Likes::none(alloc),
        }
    }

    /// What licenses a datagram that comes from the server now.
    pub(crate) fn licensing(
        &mut self,
        settings: &ServerSettings,
        src: Ep,
        dst: Ep,
        body: &[u8],
    ) -> Result<Licensing, NoMemory>
        ensures { IfOk result (λ found. (held : List (Option Datagram)) → length held + 1 < 2 ^ 64 → KeepsPast settings.now self.old held held
            → is_audited settings.now src ≡ true → (found ≡ licensing settings.now held (datagram src dst body.now))
            × KeepsPast settings.now self.new (held ++ Some (datagram src dst body.now) ∷ []) held) }
    {
        match self.ledger.come(src, dst, body)? {
            Some(licensing) => Ok(licensing),
            None => {
                let near = self.likes.near(settings, src, dst, body)?;
                Ok(near)
            }
        }
    }

    /// Notes that a datagram came, where it is from the server.
    fn come(
        &mut self,
        settings: &ServerSettings,
        src: Ep,
        dst: Ep,
        body: &[u8],
    ) -> Result<(), NoMemory>
        ensures { OnOk result ((held : List (Option Datagram)) → length held + 1 < 2 ^ 64 → KeepsPast settings.now self.old held held
            → KeepsPast settings.now self.new (held ++ Some (datagram src dst body.now) ∷ []) held) }
    {
        if !is_audited(settings, src) {
            return Ok(());
        }
        let _ = self.ledger.come(src, dst, body)?;
        Ok(())
    }

    /// Notes that a datagram is the output of the next place, which holds this packet.
    pub(crate) fn draw(
        &mut self,
        src: Ep,
        dst: Ep,
        body: &[u8],
        place: u64,
        packet: &'a [u8],
    ) -> Result<(), NoMemory>
        ensures { OnOk result ((s : ServerSettings) (came held : List (Option Datagram)) → place ≡ length held
            → output s (datagram_in packet.now) ≡ Some (datagram src dst body.now) → KeepsPast s self.old came held
            → KeepsPast s self.new came (held ++ datagram_in packet.now ∷ [])) }
    {
        self.ledger.draw(src, dst, body, place)?;
        self.likes.draw(src, dst, body, place, packet)?;
        Ok(())
    }

    /// Notes what the packet of the next place holds, and what the server sends on it.
    fn note(
        &mut self,
        settings: &ServerSettings,
        place: u64,
        packet: &'a [u8],
    ) -> Result<(), NoMemory>
        ensures { OnOk result ((held : List (Option Datagram)) → place ≡ length held → length held + 1 < 2 ^ 64 → KeepsPast settings.now self.old held held
            → KeepsPast settings.now self.new (held ++ datagram_in packet.now ∷ []) (held ++ datagram_in packet.now ∷ [])) }
    {
        match td_ipv4::read(packet) {
            Err(_) => Ok(()),
            Ok(datagram) => {
                self.come(settings, datagram.src, datagram.dst, datagram.body)?;
                let mut out = [0; DATAGRAM_MAX];
                match reply_to(
                    settings,
                    datagram.src,
                    datagram.dst,
                    datagram.body,
                    &mut out,
                ) {
                    None => Ok(()),
                    Some(reply) => {
                        self.draw(reply.from, reply.to, &out[..reply.len], place, packet)?;
                        Ok(())
                    }
                }
            }
        }
    }

    /// Of the records before the one at hand.
    pub(crate) fn of(
        alloc: Global,
        settings: &ServerSettings,
        earlier: &Earlier<'a>,
    ) -> Result<Past<'a>, NoMemory>
        ensures { IfOk result (λ past. (rs : List Captured) → StandBefore earlier.now rs → KeepsPast settings.now past (places rs) (places rs)) }
    {
        let mut past = Past::none(alloc);
        let mut at = HEAD.min(earlier.bytes.len());
        let mut place = 0;
        'records: while place < earlier.count {
            let Ok(step) = next(&earlier.head, earlier.bytes, at) else {
                return Ok(past);
            };
            let Some((record, end)) = step else {
                return Ok(past);
            };
            past.note(settings, place, record.bytes)?;
            at = end;
            place += 1;
        }
        Ok(past)
    }
}
