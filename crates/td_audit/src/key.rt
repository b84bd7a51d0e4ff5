//! What a map of datagrams has for keys.
ghost use Rattle.std.specs.Prelude.{◌≡◌, ◌++◌, OnOk, IfOk};
ghost use Rattle.byteorder.specs.Endian.{big_bytes};
ghost use Rattle.td_audit.specs.Datagrams.{datagram};
ghost use Rattle.td_audit.specs.Keys.{key_bytes};

use std::alloc::{AllocError, Global};
use td_base::{Ep, Ip4};

/// The bytes of a key in front of the body: two addresses and two ports.
const KEY_HEAD: usize = 12;

/// The two addresses and ports of a key, put down at once.
#[inline(always)]
fn key_head(src: Ep, dst: Ep) -> [u8; KEY_HEAD]
    ensures { result ≡ src.ip.0 ++ (big_bytes 2 src.port ++ (dst.ip.0 ++ big_bytes 2 dst.port)) }
{
    let Ip4([a, b, c, d]) = src.ip;
    let [e, f] = src.port.to_be_bytes();
    let Ip4([g, h, i, j]) = dst.ip;
    let [k, l] = dst.port.to_be_bytes();
    [a, b, c, d, e, f, g, h, i, j, k, l]
}

/// Puts a datagram as the map has it in place of what `key` held: addresses and ports, which have a fixed length, and the
/// body.
pub(crate) fn put_key(src: Ep, dst: Ep, body: &[u8], key: &mut Vec<u8>) -> Result<(), AllocError>
    ensures { OnOk result (key.new.items ≡ key_bytes (datagram src dst body.now)) }
{
    key.clear();
    key.extend_from_slice(&key_head(src, dst))?;
    key.extend_from_slice(body)
}

/// The key of a datagram, in memory of its own.
pub fn key_of(alloc: Global, src: Ep, dst: Ep, body: &[u8]) -> Result<Vec<u8>, AllocError>
    /// See `endpoint`.
    ensures { IfOk result (λ key. key.items ≡ key_bytes (datagram src dst body.now)) }
{
    let mut key = Vec::with_capacity(alloc, KEY_HEAD + body.len())?;
    put_key(src, dst, body, &mut key)?;
    Ok(key)
}
