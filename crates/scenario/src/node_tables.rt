//! The nodes of a text: the lists of tables, each read as the others are.
ghost use Rattle.std.specs.Prelude.{◌≡◌, ◌+◌, ◌<◌, ◌≤◌, length, IfOk, option_map};
ghost use Rattle.toml.specs.View.{view, table_view, items_view};
ghost use Rattle.scenario.specs.declared.place.Place.TheVariants.{Text};
ghost use Rattle.scenario.specs.NodeKinds.{most_rows};
ghost use Rattle.scenario.specs.NodeTables.{with_row, with_value, with_values, with_few, with_list, with_nodes, nodes_of};
ghost use Rattle.scenario.specs.Answers.{IsReadAs};
ghost use Rattle.scenario.specs.Filling.{row_count, HasNoneFrom, HasNoneBehind};

use crate::node_kind::NodeKind;
use crate::node_rows::{
    client_of_table, nat_of_table, native_of_table, relay_of_table, server_of_table,
};
use crate::place::{Place, row_path};
use crate::row::Row;
use crate::scenario_fault::ScenarioFault;
use std::alloc::Global;
use toml::{Table, Value};
use topology::Topology;

/// The nodes, and the one of a table that has no unknown key.
#[tactic(auto, unfolding(crate::specs::NodeTables::with_row))]
fn with_row(kind: NodeKind, mut topology: Topology, row: &Row) -> Result<Topology, ScenarioFault>
    requires room { row_count kind topology < most_rows kind }
    requires order { HasNoneBehind kind topology }
    ensures value { IsReadAs (λ t. t) result (with_row kind topology row.now.place (table_view row.now.table.now)) }
    ensures one { IfOk result (λ t. row_count kind t ≡ row_count kind topology + 1) }
    ensures order { IfOk result (λ t. HasNoneBehind kind t) }
{
    let nodes = &topology;
    match kind {
        NodeKind::Server => {
            let server = server_of_table(nodes, row)?;
            topology.add_server(server)?;
        }
        NodeKind::Nat => {
            let nat = nat_of_table(nodes, row)?;
            topology.add_nat(nat)?;
        }
        NodeKind::Client => {
            let client = client_of_table(nodes, row)?;
            topology.add_client(client)?;
        }
        NodeKind::Relay => {
            let relay = relay_of_table(nodes, row)?;
            topology.add_relay(relay)?;
        }
        NodeKind::Native => {
            let native = native_of_table(nodes, row)?;
            topology.add_native(native)?;
        }
    }
    Ok(topology)
}

/// The nodes, and the one of a value of a list.
#[tactic(auto, unfolding(crate::specs::NodeTables::with_value))]
fn with_value(
    kind: NodeKind,
    index: u16,
    topology: Topology,
    value: &Value,
) -> Result<Topology, ScenarioFault>
    requires room { row_count kind topology < most_rows kind }
    requires order { HasNoneBehind kind topology }
    ensures value { IsReadAs (λ t. t) result (with_value kind index topology (view value.now)) }
    ensures one { IfOk result (λ t. row_count kind t ≡ row_count kind topology + 1) }
    ensures order { IfOk result (λ t. HasNoneBehind kind t) }
{
    let Some(table) = value.as_table() else {
        return Err(ScenarioFault::Kind {
            path: row_path(kind, index),
        });
    };
    let row = Row {
        place: Place::Row { kind, index },
        table,
    };
    row.only_keys(kind.row_keys())?;
    with_row(kind, topology, &row)
}

fn with_values(
    kind: NodeKind,
    mut topology: Topology,
    values: &[Value],
) -> Result<Topology, ScenarioFault>
    requires room { row_count kind topology + length values.now ≤ most_rows kind }
    requires order { HasNoneBehind kind topology }
    ensures value { IsReadAs (λ t. t) result (with_values kind 0 topology (items_view values.now)) }
    ensures order { IfOk result (λ t. HasNoneBehind kind t) }
{
    for (index, value) in values.iter().enumerate() {
        topology = with_value(kind, index as u16, topology, value)?;
    }
    Ok(topology)
}

#[tactic(auto, using(crate::proofs::TableLemmas::item_count_view))]
fn with_few(kind: NodeKind, topology: Topology, values: &[Value]) -> Result<Topology, ScenarioFault>
    requires { HasNoneFrom kind topology }
    ensures value { IsReadAs (λ t. t) result (with_few kind topology (items_view values.now)) }
    ensures order { IfOk result (λ t. HasNoneBehind kind t) }
{
    if values.len() > kind.most_rows() {
        return Err(ScenarioFault::Range {
            path: Place::Text.key_path(kind.list_key()),
        });
    }
    with_values(kind, topology, values)
}

/// The nodes, and those of the list of a kind, which may be missing.
fn with_nodes(kind: NodeKind, topology: Topology, text: &Row) -> Result<Topology, ScenarioFault>
    requires whole { text.now.place ≡ Text }
    requires order { HasNoneFrom kind topology }
    ensures value { IsReadAs (λ t. t) result (with_nodes kind topology (table_view text.now.table.now)) }
    ensures order { IfOk result (λ t. HasNoneBehind kind t) }
{
    let key = kind.list_key();
    match text.given(key) {
        Some(value) => with_few(kind, topology, text.typed(key, value.as_array())?),
        None => Ok(topology),
    }
}

/// The nodes of a text: servers, NATs, clients, relays, native hosts.
#[tactic(auto, unfolding(crate::specs::NodeTables::nodes_of))]
pub(crate) fn nodes_of(alloc: Global, text: &Row) -> Result<Topology, ScenarioFault>
    requires { text.now.place ≡ Text }
    ensures { IsReadAs (λ t. t) result (nodes_of (table_view text.now.table.now)) }
{
    let topology = with_nodes(NodeKind::Server, Topology::new(alloc), text)?;
    let topology = with_nodes(NodeKind::Nat, topology, text)?;
    let topology = with_nodes(NodeKind::Client, topology, text)?;
    let topology = with_nodes(NodeKind::Relay, topology, text)?;
    with_nodes(NodeKind::Native, topology, text)
}
