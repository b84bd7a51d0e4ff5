//! The Router Advertisement that answers a solicitation.
ghost use Rattle.std.specs.Prelude.{◌≡◌, ◌≤◌, ◌+◌, length, take, Some};
ghost use Rattle.indications.specs.Blocks.{indications_len};
ghost use Rattle.icmp6.specs.Layout.{message_bytes};
ghost use Rattle.server_core.specs.Outputs.{advert_options, advertisement, advert_bytes};

use crate::conditions::own_address;
use crate::server::ServerSettings;
use icmp6::{Msg, ROUTER_HOP};
use ipv6_packet::{HEADER, NEXT_ICMP, Packet};
use td_base::{DATAGRAM_MAX, Ep, Ip4, Ip6, put};

/// The bytes of the two options.
const OPTIONS: usize = 40;

/// The bytes of an advertisement.
pub const ADVERTISEMENT: usize = 56;

/// Where the server's address stands in the advertised prefix, counted from the first option.
const SERVER: usize = 20;

/// One Prefix Information (RFC 4861, section 4.6.2: 64 bits, autonomous, both lifetimes without end, 2001:0:P::)
/// and one MTU of 1,280 bytes (section 4.6.4), for a server at 0.0.0.0.
const ADVERT_OPTIONS: [u8; OPTIONS] = [
    3, 4, 64, 0x40, 255, 255, 255, 255, 255, 255, 255, 255, 0, 0, 0, 0, // to the prefix
    0x20, 1, 0, 0, 0, 0, 0, 0, 0, 0, 0, 0, 0, 0, 0, 0, // the prefix
    5, 1, 0, 0, 0, 0, 5, 0, // the MTU
];

/// The options of a server's advertisement.
fn options(primary: Ip4) -> [u8; OPTIONS]
    ensures { result ≡ advert_options primary }
{
    let mut options = ADVERT_OPTIONS;
    put(&mut options, SERVER, &primary.0);
    options
}

/// A server's advertisement to a client.
fn advertisement(primary: Ip4, server: Ip6, client: Ip6) -> [u8; ADVERTISEMENT]
    ensures { result ≡ message_bytes server client (advertisement primary) }
{
    let message = Msg::RouterAdvert {
        hop: 0,
        flags: 0,
        life: 0,
        reach: 0,
        retrans: 0,
        options: &options(primary),
    };
    let mut bytes = [0; ADVERTISEMENT];
    icmp6::write(&message, server, client, &mut bytes).unwrap();
    bytes
}

/// Writes the answer to a client's solicitation from `from`, and answers how many bytes it has.
#[tactic(auto, unfolding(crate::specs::Outputs::advert_bytes))]
pub fn write_advert(
    settings: &ServerSettings,
    from: Ep,
    nonce: Option<u64>,
    client: Ip6,
    out: &mut [u8],
) -> usize
    requires { length out.old ≡ DATAGRAM_MAX }
    ensures len { result ≡ indications_len nonce (Some from) + HEADER + ADVERTISEMENT }
    ensures written { take result out.new ≡ advert_bytes settings.now from nonce client }
{
    let server = own_address(settings);
    let packet = Packet {
        class: 0,
        flow: 0,
        next: NEXT_ICMP,
        hop: ROUTER_HOP,
        src: server,
        dst: client,
        body: &advertisement(settings.primary, server, client),
    };
    bubble::write(nonce, Some(from), &packet, out).unwrap()
}
