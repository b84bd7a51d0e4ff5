//! The latest output between two ends that has a length.
ghost use Rattle.std.specs.Prelude.{◌≡◌, ◌≤◌, ◌<◌, ◌^◌, length, take, Some, None, Option, OnOk, IfOk};
ghost use Rattle.td_audit.specs.Datagrams.{Datagram, datagram};
ghost use Rattle.td_audit.specs.Keys.{HasKey};
ghost use Rattle.td_audit.specs.Licences.{output};
ghost use Rattle.td_audit.specs.Verdicts.{datagram_in};
ghost use Rattle.td_explain.specs.Outputs.{Placed};
ghost use Rattle.td_explain.specs.Licensing.{near_licensing};
ghost use Rattle.td_explain.specs.Known.{like_at, IsLatest, DrawsLike};

use crate::answered::Licensing;
use crate::difference::difference;
use server_core::ServerSettings;
use std::alloc::Global;
use std::collections::BTreeMap;
use td_audit::{key_of, reply_to};
use td_base::{DATAGRAM_MAX, Ep, NoMemory};

/// A place, and the packet that it holds.
#[derive(Clone, Copy, Debug)]
pub(crate) struct Like<'a> {
    pub place: u64,
    pub packet: &'a [u8],
}

/// For each two ends and each length the latest place with such an output.
#[derive(Drop)]
pub(crate) struct Likes<'a> {
    alloc: Global,
    latest: BTreeMap<Vec<u8>, Like<'a>>,
}

/// Puts what the server sends on what a packet holds to the front of `out`, and answers how many bytes it has.
fn put_output(settings: &ServerSettings, packet: &[u8], out: &mut [u8; DATAGRAM_MAX]) -> usize
    ensures within { result ≤ length out.new }
    ensures bytes { (e : Datagram) → output settings.now (datagram_in packet.now) ≡ Some e → take result out.new ≡ e.body }
{
    match td_ipv4::read(packet) {
        Err(_) => 0,
        Ok(datagram) => {
            match reply_to(settings, datagram.src, datagram.dst, datagram.body, out) {
                Some(reply) => reply.len,
                None => 0,
            }
        }
    }
}

impl<'a> Likes<'a> {
    /// Nothing is kept.
    pub(crate) fn none(alloc: Global) -> Likes<'a>
        ensures { (d : Datagram) → like_at result d ≡ None }
    {
        Likes {
            alloc,
            latest: BTreeMap::new(alloc),
        }
    }

    /// What comes near a datagram that is no output.
    pub(crate) fn near(
        &self,
        settings: &ServerSettings,
        src: Ep,
        dst: Ep,
        body: &[u8],
    ) -> Result<Licensing, NoMemory>
        ensures near { IfOk result (λ licensing. (p : Option Placed) → IsLatest settings.now (like_at self.now (datagram src dst body.now)) p
            → licensing ≡ near_licensing body.now p) }
        ensures short { length body.now < 2 ^ 64 }
    {
        let key = key_of(self.alloc, src, dst, &body.len().to_be_bytes())?;
        match self.latest.get(key.as_slice()) {
            None => Ok(Licensing::Unasked),
            Some(like) => {
                let mut out = [0; DATAGRAM_MAX];
                let len = put_output(settings, like.packet, &mut out);
                Ok(Licensing::Near {
                    place: like.place,
                    at: difference(&out[..len], body),
                })
            }
        }
    }

    /// Notes that a datagram is the output of a place, which holds this packet.
    pub(crate) fn draw(
        &mut self,
        src: Ep,
        dst: Ep,
        body: &[u8],
        place: u64,
        packet: &'a [u8],
    ) -> Result<(), NoMemory>
        ensures known { OnOk result (DrawsLike self.old self.new (datagram src dst body.now) place packet.now) }
        ensures fits { HasKey (datagram src dst body.now) }
        ensures short { length body.now < 2 ^ 64 }
    {
        let key = key_of(self.alloc, src, dst, &body.len().to_be_bytes())?;
        self.latest.insert(key, Like { place, packet })?;
        Ok(())
    }
}
