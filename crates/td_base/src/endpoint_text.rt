//! The text of an endpoint: its address, a colon, and its port.
ghost use Rattle.std.specs.Prelude.{◌≡◌, ◌+◌, ◌≤◌, ◌++◌, length, take, IfOk, IfErr};
ghost use Rattle.std.specs.Result.{result_ok};
ghost use Rattle.td_base.specs.Prints.{Prints};
ghost use Rattle.td_base.specs.Ep.{IsEp};
ghost use Rattle.td_base.specs.Texts.{ep_text, IsEpText, IsLongestBegin};
ghost use Rattle.td_base.specs.Values.{ep_of};
ghost use Rattle.td_base.specs.Fronts.{Halts};
ghost use Rattle.td_base.specs.declared.endpoint.Ep.{Ep};

use crate::digits::{write_byte, write_eight};
use crate::endpoint::Ep;
use crate::ipv4::Ip4;
use crate::ipv4_text::{PART_MAX, write_ip4};
use crate::line::{LineBuf, print_text};
use crate::numeral::{number_last, number_then};
use crate::refusals::{BadText, Room};
use crate::short_text::SHORT_LEN;

/// The largest port.
const PORT_MAX: u64 = u16::MAX as u64;

/// Writes an endpoint at a place, and returns where it ends.
pub(crate) fn write_ep(out: &mut [u8], at: usize, ep: Ep) -> usize
    requires { at + SHORT_LEN ≤ length out.old }
    ensures text { take result out.new ≡ take at out.old ++ ep_text ep }
    ensures end { result ≤ at + SHORT_LEN }
{
    let at = write_ip4(out, at, ep.ip);
    let at = write_byte(out, at, b':');
    write_eight(out, at, u32::from(ep.port))
}

/// Appends an endpoint.
pub fn print_ep(ep: Ep, out: &mut LineBuf) -> Result<(), Room>
    /// See `print_number`: `text`.
    ensures text { Prints result out.old out.new (ep_text ep) }
    /// See `LineBuf::new`.
    ensures short { length (ep_text ep) ≤ SHORT_LEN }
{
    if out.has_room() {
        out.push_ep(ep);
        return Ok(());
    }
    print_ep_apart(ep, out)
}

/// Appends an endpoint, which is made apart, since the line may be too full for it.
#[cold]
#[inline(never)]
fn print_ep_apart(ep: Ep, out: &mut LineBuf) -> Result<(), Room>
    ensures text { Prints result out.old out.new (ep_text ep) }
    ensures short { length (ep_text ep) ≤ SHORT_LEN }
{
    let mut text = [0; SHORT_LEN];
    let end = write_ep(&mut text, 0, ep);
    print_text(&text[..end], out)
}

/// Four numbers with dots between them, a colon and a port, which are the whole text. The error is
/// how many bytes were left where no such text goes on.
fn whole_ep(text: &[u8]) -> Result<Ep, usize>
    ensures found { IfOk result (λ ep. IsEp ep × (text.now ≡ ep_text ep)) }
    ensures halts { IfErr result (Halts IsEpText text.now) }
{
    let (a, rest) = number_then(text, PART_MAX, b'.')?;
    let (b, rest) = number_then(rest, PART_MAX, b'.')?;
    let (c, rest) = number_then(rest, PART_MAX, b'.')?;
    let (d, rest) = number_then(rest, PART_MAX, b':')?;
    let port = number_last(rest, PORT_MAX)?;
    Ok(Ep {
        ip: Ip4([a as u8, b as u8, c as u8, d as u8]),
        port: port as u16,
    })
}

/// Reads a text that is an endpoint.
pub fn read_ep(text: &[u8]) -> Result<Ep, BadText>
    // The text is the endpoint's.
    /// See `read_number`: `found`.
    ensures found { IfOk result (λ ep. IsEp ep × (text.now ≡ ep_text ep)) }
    // The text of an endpoint is read as that endpoint.
    /// See `read_number`: `only`.
    ensures only { (ep : Ep) → IsEp ep → text.now ≡ ep_text ep → result ≡ Ok ep }
    // So many bytes begin the text of an endpoint, and no more.
    /// See `read_number`: `place`.
    ensures place { IfErr result (λ bad. IsLongestBegin IsEpText text.now bad.place) }
    // The endpoint that the text is, as one function of the bytes.
    /// See `read_number`: `exact`.
    ensures exact { result_ok result ≡ ep_of text.now }
{
    match whole_ep(text) {
        Ok(ep) => Ok(ep),
        Err(left) => Err(BadText::before(text, left)),
    }
}
