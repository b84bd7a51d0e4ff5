//! The nodes that tables describe beside the nodes of the tables before them: a line for each key, in order.
ghost use Rattle.std.specs.Prelude.{◌≡◌, option_map, option_and_then};
ghost use Rattle.toml.specs.Data.{as_array};
ghost use Rattle.toml.specs.View.{view, table_view, items_view};
ghost use Rattle.scenario.specs.NodeRows.{server_of_table, nat_of_table, two_integers, given_refresh, refresh_in};
ghost use Rattle.scenario.specs.NodeRows.{random_in, cone_try_in, client_of_table, relay_of_table, native_of_table};

use crate::fresh::{
    idle_of, kind_of, new_address, new_endpoint, new_inside, new_name, new_six, other_address,
    random_of, refresh_of,
};
use crate::row::Row;
use crate::scenario_fault::ScenarioFault;
use toml::Value;
use topology::{
    ClientNode, NatNode, NativeNode, REFRESH_HIGH_MS, REFRESH_LOW_MS, RefreshRange, RelayNode,
    ServerNode, Topology, nat_named, relay_named, server_named,
};

/// The server of a table.
#[tactic(auto, unfolding(crate::specs::NodeRows::server_of_table))]
pub(crate) fn server_of_table(t: &Topology, row: &Row) -> Result<ServerNode, ScenarioFault>
    ensures { result ≡ server_of_table t.now row.now.place (table_view row.now.table.now) }
{
    let name = row.recognized("name", new_name(t, row.text("name")?))?;
    let primary = row.ruled("primary", new_address(t, row.text("primary")?))?;
    let secondary = row.ruled(
        "secondary",
        other_address(t, primary, row.text("secondary")?),
    )?;
    Ok(ServerNode {
        name,
        primary,
        secondary,
    })
}

/// The NAT of a table.
#[tactic(auto, unfolding(crate::specs::NodeRows::nat_of_table))]
pub(crate) fn nat_of_table(t: &Topology, row: &Row) -> Result<NatNode, ScenarioFault>
    ensures { result ≡ nat_of_table t.now row.now.place (table_view row.now.table.now) }
{
    let name = row.recognized("name", new_name(t, row.text("name")?))?;
    let kind = row.ruled("kind", kind_of(row.text("kind")?))?;
    let external = row.ruled("external", new_address(t, row.text("external")?))?;
    let idle = row.ruled("idle", idle_of(row.integer("idle")?))?;
    Ok(NatNode {
        name,
        kind,
        external,
        idle,
    })
}

/// The two whole numbers of a list that has no other value.
fn two_integers(values: &[Value]) -> Option<(i64, i64)>
    ensures { result ≡ two_integers (items_view values.now) }
{
    let [first, second] = values else {
        return None;
    };
    Some((first.as_integer()?, second.as_integer()?))
}

fn integers_in(value: &Value) -> Option<(i64, i64)>
    ensures { result ≡ option_and_then two_integers (as_array (view value.now)) }
{
    two_integers(value.as_array()?)
}

/// The shortest and the longest time between two refreshes that a value gives.
fn given_refresh(row: &Row, value: &Value) -> Result<RefreshRange, ScenarioFault>
    ensures { result ≡ given_refresh row.now.place (view value.now) }
{
    let times = row.typed("refresh", integers_in(value))?;
    row.ruled("refresh", refresh_of(times))
}

/// The shortest and the longest time between two refreshes.
fn refresh_in(row: &Row, value: Option<&Value>) -> Result<RefreshRange, ScenarioFault>
    ensures { result ≡ refresh_in row.now.place (option_map (λ v. view v.now) value.entry) }
{
    match value {
        Some(value) => given_refresh(row, value),
        None => Ok(RefreshRange {
            low_ms: REFRESH_LOW_MS,
            high_ms: REFRESH_HIGH_MS,
        }),
    }
}

/// Whether flags are random: not, where nothing is said.
fn random_in(row: &Row, value: Option<&Value>) -> Result<bool, ScenarioFault>
    ensures { result ≡ random_in row.now.place (option_map (λ v. view v.now) value.entry) }
{
    match value {
        Some(value) => row.ruled("flags", random_of(row.typed("flags", value.as_str())?)),
        None => Ok(false),
    }
}

/// Whether there is a cone phase: there is, where nothing is said.
fn cone_try_in(row: &Row, value: Option<&Value>) -> Result<bool, ScenarioFault>
    ensures { result ≡ cone_try_in row.now.place (option_map (λ v. view v.now) value.entry) }
{
    match value {
        Some(value) => row.typed("cone_try", value.as_bool()),
        None => Ok(true),
    }
}

/// The client of a table.
#[tactic(auto, unfolding(crate::specs::NodeRows::client_of_table))]
pub(crate) fn client_of_table(t: &Topology, row: &Row) -> Result<ClientNode, ScenarioFault>
    ensures { result ≡ client_of_table t.now row.now.place (table_view row.now.table.now) }
{
    let name = row.recognized("name", new_name(t, row.text("name")?))?;
    let nat = row.recognized("nat", nat_named(t, row.text("nat")?.as_bytes()))?;
    let inside = row.ruled("inside", new_inside(t, nat, row.text("inside")?))?;
    let server = row.recognized("server", server_named(t, row.text("server")?.as_bytes()))?;
    let refresh = refresh_in(row, row.given("refresh"))?;
    let random = random_in(row, row.given("flags"))?;
    let cone_try = cone_try_in(row, row.given("cone_try"))?;
    Ok(ClientNode {
        name,
        nat,
        inside,
        server,
        refresh,
        random,
        cone_try,
    })
}

/// The relay of a table.
#[tactic(auto, unfolding(crate::specs::NodeRows::relay_of_table))]
pub(crate) fn relay_of_table(t: &Topology, row: &Row) -> Result<RelayNode, ScenarioFault>
    ensures { result ≡ relay_of_table t.now row.now.place (table_view row.now.table.now) }
{
    let name = row.recognized("name", new_name(t, row.text("name")?))?;
    let at = row.ruled("at", new_endpoint(t, row.text("at")?))?;
    let six = row.ruled("six", new_six(t, row.text("six")?))?;
    Ok(RelayNode { name, at, six })
}

/// The native host of a table.
#[tactic(auto, unfolding(crate::specs::NodeRows::native_of_table))]
pub(crate) fn native_of_table(t: &Topology, row: &Row) -> Result<NativeNode, ScenarioFault>
    ensures { result ≡ native_of_table t.now row.now.place (table_view row.now.table.now) }
{
    let name = row.recognized("name", new_name(t, row.text("name")?))?;
    let six = row.ruled("six", new_six(t, row.text("six")?))?;
    let relay = row.recognized("relay", relay_named(t, row.text("relay")?.as_bytes()))?;
    Ok(NativeNode { name, six, relay })
}
