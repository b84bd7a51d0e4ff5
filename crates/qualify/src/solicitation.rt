//! Solicitations: their bytes, where they go, and where their answers come from.
ghost use Rattle.std.specs.Prelude.{◌≡◌, []};
ghost use Rattle.icmp6.specs.Message.{router_solicit};
ghost use Rattle.icmp6.specs.Layout.{message_bytes};
ghost use Rattle.teredo_addr.specs.Teredo.{has_cone};
ghost use Rattle.qualify.specs.Solicitations.{expected, expected_in, solicitation};
ghost use Rattle.qualify.specs.State.{qualification_of};

use crate::limits::SOLICITATION_LEN;
use crate::phase::Phase;
use crate::settings::Settings;
use crate::state::State;
use icmp6::{Msg, ROUTER_HOP, SOLICIT_LEN};
use ipv6_packet::{NEXT_ICMP, Packet};
use td_base::{Ep, Ip6};
use teredo_addr::{ALL_ROUTERS, has_cone, link_local};

/// The source that an answer must have: a solicitation with the cone bit is answered from the other address.
#[tactic(auto, unfolding(crate::specs::Solicitations::expected, crate::specs::Solicitations::own_address))]
pub fn expected(settings: &Settings, state: &State) -> Ep
    ensures { result ≡ expected settings.now (qualification_of state.now) }
{
    match state {
        State::Cone(_) | State::Secondary(..) => Ep::of_server(settings.secondary),
        State::Qualified(upkeep) => expected_when_qualified(settings, upkeep.address),
        State::Restricted(_) | State::Symmetric | State::OffLine => {
            Ep::of_server(settings.primary)
        }
    }
}

fn expected_when_qualified(settings: &Settings, address: Ip6) -> Ep
    ensures { result ≡ expected_in settings.now Phase.Qualified (has_cone address) }
{
    if has_cone(address) {
        Ep::of_server(settings.secondary)
    } else {
        Ep::of_server(settings.primary)
    }
}

/// The message of a solicitation.
fn message(source: Ip6) -> [u8; SOLICIT_LEN]
    ensures { result ≡ message_bytes source ALL_ROUTERS (router_solicit []) }
{
    let mut bytes = [0; SOLICIT_LEN];
    let message = Msg::RouterSolicit { options: &[] };
    icmp6::write(&message, source, ALL_ROUTERS, &mut bytes).unwrap();
    bytes
}

/// A solicitation: an authentication with this nonce, and a Router Solicitation to all routers.
#[tactic(auto, unfolding(crate::specs::Solicitations::solicitation))]
pub fn solicitation(settings: &Settings, cone: bool, nonce: u64) -> [u8; SOLICITATION_LEN]
    ensures { result ≡ solicitation settings.now cone nonce }
{
    let source = link_local(cone, settings.inside);
    let packet = Packet {
        class: 0,
        flow: 0,
        next: NEXT_ICMP,
        hop: ROUTER_HOP,
        src: source,
        dst: ALL_ROUTERS,
        body: &message(source),
    };
    let mut bytes = [0; SOLICITATION_LEN];
    bubble::write(Some(nonce), None, &packet, &mut bytes).unwrap();
    bytes
}
