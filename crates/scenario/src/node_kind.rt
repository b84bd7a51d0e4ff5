//! The five kinds of nodes, each with a list of tables of its own in a text.
ghost use Rattle.std.specs.Prelude.{◌≡◌, ◌≤◌, length, map};
ghost use Rattle.scenario.specs.NodeKinds.{list_key, most_rows, row_keys};

use topology::{CLIENTS_MAX, NATIVES_MAX, NATS_MAX, RELAYS_MAX, SERVERS_MAX};

/// How many bytes the key of a list has at most.
pub(crate) const LIST_KEY_LEN: usize = 6;

/// A kind of node.
#[derive(Clone, Copy, Debug, PartialEq, Eq)]
pub(crate) enum NodeKind {
    Server,
    Nat,
    Client,
    Relay,
    Native,
}

impl NodeKind {
    /// The key of the list.
    pub(crate) fn list_key(self) -> &'static str
        ensures value { result.now ≡ list_key self }
        ensures short { length result.now ≤ LIST_KEY_LEN }
    {
        match self {
            NodeKind::Server => "server",
            NodeKind::Nat => "nat",
            NodeKind::Client => "client",
            NodeKind::Relay => "relay",
            NodeKind::Native => "native",
        }
    }

    /// How many tables the list has at most.
    pub(crate) fn most_rows(self) -> usize
        ensures { result ≡ most_rows self }
    {
        match self {
            NodeKind::Server => SERVERS_MAX,
            NodeKind::Nat => NATS_MAX,
            NodeKind::Client => CLIENTS_MAX,
            NodeKind::Relay => RELAYS_MAX,
            NodeKind::Native => NATIVES_MAX,
        }
    }

    /// The keys of a table of the list.
    pub(crate) fn row_keys(self) -> &'static [&'static str]
        ensures { map (λ key. key.now) result.now ≡ row_keys self }
    {
        match self {
            NodeKind::Server => &["name", "primary", "secondary"],
            NodeKind::Nat => &["name", "kind", "external", "idle"],
            NodeKind::Client => &[
                "name", "nat", "inside", "server", "refresh", "flags", "cone_try",
            ],
            NodeKind::Relay => &["name", "at", "six"],
            NodeKind::Native => &["name", "six", "relay"],
        }
    }
}
