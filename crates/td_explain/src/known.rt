//! What is known of datagrams after some records.
ghost use Rattle.std.specs.Prelude.{◌≡◌, ◌+◌, ◌<◌, ◌^◌, ◌++◌, true, List, [], ◌∷◌, length, Some, Option, OnOk, IfOk};
ghost use Rattle.server_core.specs.declared.server.ServerSettings.{ServerSettings};
ghost use Rattle.td_pcap.specs.Records.{Captured};
ghost use Rattle.td_audit.specs.Datagrams.{Datagram, datagram, is_audited};
ghost use Rattle.td_audit.specs.Licences.{output};
ghost use Rattle.td_audit.specs.Verdicts.{datagram_in, places};
ghost use Rattle.td_explain.specs.Licensing.{licensing};
ghost use Rattle.td_explain.specs.Earlier.{StandBefore};
ghost use Rattle.td_explain.specs.Telling.{KeepsKnown};

use crate::answered::Licensing;
use crate::earlier::Earlier;
use crate::past::Past;
use crate::waits::Waits;
use server_core::ServerSettings;
use std::alloc::Global;
use td_base::{Ep, NoMemory};

/// Up to the first datagram that isn't licensed, what waits; from then on, all that was. So a capture that the audit finds
/// clean takes what the audit takes and the links between its places.
#[derive(Drop)]
pub(crate) enum Known<'a> {
    Clean(Waits),
    Whole(Past<'a>),
}

impl<'a> Known<'a> {
    pub(crate) fn none(alloc: Global) -> Known<'a>
        ensures { (s : ServerSettings) → KeepsKnown s result [] [] }
    {
        Known::Clean(Waits::none(alloc))
    }

    /// What licenses a datagram that comes from the server now.
    pub(crate) fn licensing(
        &mut self,
        settings: &ServerSettings,
        earlier: &Earlier<'a>,
        src: Ep,
        dst: Ep,
        body: &[u8],
    ) -> Result<Licensing, NoMemory>
        ensures { IfOk result (λ found. (rs : List Captured) → StandBefore earlier.now rs → length (places rs) + 1 < 2 ^ 64
            → KeepsKnown settings.now self.old (places rs) (places rs) → is_audited settings.now src ≡ true
            → (found ≡ licensing settings.now (places rs) (datagram src dst body.now))
            × KeepsKnown settings.now self.new (places rs ++ Some (datagram src dst body.now) ∷ []) (places rs)) }
    {
        match self {
            Known::Whole(past) => {
                let licensing = past.licensing(settings, src, dst, body)?;
                Ok(licensing)
            }
            Known::Clean(waits) => {
                let alloc = waits.alloc;
                match waits.take(src, dst, body)? {
                    Some(by) => Ok(Licensing::Licensed { by }),
                    None => {
                        // What waited makes room for what was.
                        *self = Known::none(alloc);
                        let mut past = Past::of(alloc, settings, earlier)?;
                        let licensing = past.licensing(settings, src, dst, body)?;
                        *self = Known::Whole(past);
                        Ok(licensing)
                    }
                }
            }
        }
    }

    /// Notes that a datagram is the output of the next place, which holds this packet.
    pub(crate) fn draw(
        &mut self,
        src: Ep,
        dst: Ep,
        body: &[u8],
        place: u64,
        packet: &'a [u8],
    ) -> Result<(), NoMemory>
        ensures { OnOk result ((s : ServerSettings) (came held : List (Option Datagram)) → place ≡ length held
            → output s (datagram_in packet.now) ≡ Some (datagram src dst body.now) → KeepsKnown s self.old came held
            → KeepsKnown s self.new came (held ++ datagram_in packet.now ∷ [])) }
    {
        match self {
            Known::Clean(waits) => {
                waits.draw(src, dst, body, place)?;
                Ok(())
            }
            Known::Whole(past) => {
                past.draw(src, dst, body, place, packet)?;
                Ok(())
            }
        }
    }
}
