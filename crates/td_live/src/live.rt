//! What a session found.
ghost use Rattle.std.specs.Prelude.{◌≡◌, true};
ghost use Rattle.teredo_node.specs.Journal.{Journal};
ghost use Rattle.qualify.specs.Qualification.{qualification};
ghost use Rattle.client_core.specs.Client.{ClientStandsFor, settings_of};
ghost use Rattle.td_live.specs.Verdict.{live_of};

use client_core::Client;
use qualify::Phase;
use td_base::Ip6;
use teredo_addr::UNSPECIFIED;

/// What a session found out about the NATs of its machine (RFC 4380, section 5.2.1).
#[derive(Clone, Copy, Debug)]
pub enum Live {
    /// The client has this address. Its cone bit says whether the NAT lets in whoever sends.
    Qualified { address: Ip6 },
    /// The server's two addresses see the client at two endpoints.
    Symmetric,
    /// No answer came to any solicitation of a phase.
    OffLine,
    /// The turns were over before the client knew.
    Undecided,
}

/// By the client's phase.
#[tactic(auto, unfolding(qualify::specs::Solicitations::own_address))]
pub(crate) fn found(client: &Client) -> Live
    ensures { (j : Journal) → ClientStandsFor client.now j → result ≡ live_of (qualification (settings_of client.now) j) }
{
    match client.phase() {
        Phase::Qualified => Live::Qualified {
            address: client.address().unwrap_or(UNSPECIFIED),
        },
        Phase::Symmetric => Live::Symmetric,
        Phase::OffLine => Live::OffLine,
        _ => Live::Undecided,
    }
}
