//! Indications into bytes.
ghost use Rattle.std.specs.Prelude.{◌≡◌, ◌+◌, ◌<◌, ◌≤◌, ◌^◌, ◌++◌, length, take, List, ℕ, IfOk, IfSome, Ok, option_map};
ghost use Rattle.td_base.specs.Bytes.{IsPut, Writes};
ghost use Rattle.td_base.specs.Ep.{IsEp};
ghost use Rattle.indications.specs.Indications.{lead_at};
ghost use Rattle.indications.specs.Blocks.{auth_bytes, origin_bytes, optional, with_nonce, AreBlocks, blocks_given};
ghost use Rattle.indications.specs.Blocks.{indications_bytes, nonce_len, origin_len, indications_len, lead};
ghost use Rattle.indications.specs.Blocks.{StartsPacket};

use crate::blocks::{AUTH, ORIGIN};
use td_base::{Ep, Room, put, put64};
use teredo_addr::hide;

/// How many bytes the indications take that are given.
#[inline(always)]
pub fn len(nonce: Option<u64>, origin: Option<Ep>) -> usize
    /// See `write`: `written`.
    ensures whole { result ≡ length (indications_bytes nonce origin) }
    /// See `write`: `written`.
    ensures parts { result ≡ indications_len nonce origin }
{
    nonce_len(nonce) + origin_len(origin)
}

#[inline(always)]
fn nonce_len(nonce: Option<u64>) -> usize
    ensures whole { result ≡ length (optional auth_bytes (option_map with_nonce nonce)) }
    ensures parts { result ≡ nonce_len nonce }
{
    match nonce {
        None => 0,
        Some(_) => AUTH,
    }
}

#[inline(always)]
fn origin_len(origin: Option<Ep>) -> usize
    ensures whole { result ≡ length (optional origin_bytes origin) }
    ensures parts { result ≡ origin_len origin }
{
    match origin {
        None => 0,
        Some(ep) => {
            // This read tells the proof that the address has four bytes.
            let _port = ep.port;
            ORIGIN
        }
    }
}

/// Writes the indications that are given to the front of `out`, and answers how many bytes they took.
#[inline(always)]
pub fn write(nonce: Option<u64>, origin: Option<Ep>, out: &mut [u8]) -> Result<usize, Room>
    /// `write` puts the indications that are given at the front of the buffer and leaves the rest, or refuses exactly
    /// where the buffer is shorter and changes nothing.
    ensures written { Writes (indications_bytes nonce origin) out.old out.new result }
    // It is a list of the grammar.
    /// See `written`.
    ensures blocks { IfOk result (λ n. AreBlocks (blocks_given nonce origin)) }
    /// What `write` wrote reads back, whatever packet follows.
    ensures again { IfOk result (λ n. (rest : List ℕ) → StartsPacket rest → lead_at (take n out.new ++ rest) ≡ Ok (lead (blocks_given nonce origin))) }
{
    let needed = len(nonce, origin);
    if out.len() < needed {
        return Err(Room { needed });
    }
    let at = put_nonce(out, 0, nonce);
    Ok(put_origin(out, at, origin))
}

/// Puts an authentication with empty identifier and value and confirmation 0, where there is a nonce.
#[inline(always)]
fn put_nonce(out: &mut [u8], at: usize, nonce: Option<u64>) -> usize
    requires { at + length (optional auth_bytes (option_map with_nonce nonce)) ≤ length out.old }
    ensures put { IsPut at (optional auth_bytes (option_map with_nonce nonce)) out.old out.new }
    ensures after { result ≡ at + length (optional auth_bytes (option_map with_nonce nonce)) }
    ensures fits { IfSome nonce (λ n. n < 2 ^ 64) }
{
    let Some(nonce) = nonce else { return at };
    let mut bytes = [0; AUTH];
    bytes[1] = 1;
    put64(&mut bytes, 4, nonce);
    put(out, at, &bytes)
}

/// Puts an origin, where there is one.
#[inline(always)]
fn put_origin(out: &mut [u8], at: usize, origin: Option<Ep>) -> usize
    requires { at + length (optional origin_bytes origin) ≤ length out.old }
    ensures put { IsPut at (optional origin_bytes origin) out.old out.new }
    ensures after { result ≡ at + length (optional origin_bytes origin) }
    ensures fits { IfSome origin IsEp }
{
    let Some(ep) = origin else { return at };
    let [a, b, c, d, e, f] = hide(ep);
    put(out, at, &[0, 0, a, b, c, d, e, f])
}
