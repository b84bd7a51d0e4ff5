//! What a client does with what comes to it, and the address that it gets.
ghost use Rattle.std.specs.Prelude.{◌≡◌, ◌≤◌, ℕ, List, None, OnOk, OnErr, IfOk};
ghost use Rattle.teredo_node.specs.Journal.{Entry};
ghost use Rattle.client_core.specs.Client.{callable_from, IsCallable, Does, AsBefore};
ghost use Rattle.qualify.specs.Turns.{turn};
ghost use Rattle.topology.specs.declared.node.Node.TheVariants as rows;
ghost use Rattle.history.specs.Full.{Full};
ghost use Rattle.legal.specs.Lab.{Lab};
ghost use Rattle.client_rules.specs.Told.{sets_address};
ghost use Rattle.legal.specs.Emit.{address_by};
ghost use Rattle.lab_nodes.specs.declared.played_node.PlayedNode.TheVariants as played;
ghost use Rattle.lab_nodes.specs.Call.{input_lent};
ghost use Rattle.lab_nodes.specs.PlayedNode.{past_of, IsKept};
ghost use Rattle.lab_nodes.specs.Changes.{with_call};
ghost use Rattle.lab_nodes.specs.Answers.{ClientStarves, AnswersCall, WantsOnly};

use crate::asked::Asked;
use crate::call::Call;
use crate::handed::handed_of;
use crate::input::Input;
use crate::outlet::Outlet;
use client_core::Client;
use td_base::{Ip6, NoMemory, Side};
use teredo_node::{Endpoint, Fate, Step};
use topology::ClientNode;

/// Lets a client do what is asked of it.
fn ask_client(client: &mut Client, call: Call<'_>, step: &mut Step) -> Result<(), NoMemory>
    requires callable { IsCallable client.old call.now.0 }
    ensures done { OnOk result (Does client.old call.entry.now.0 (input_lent call.entry.input) step.new client.new) }
    ensures starved { OnErr result (ClientStarves client.old call.entry.now.0 (input_lent call.entry.input)) }
    ensures as_before { OnErr result (AsBefore client.old client.new) }
    ensures again { callable_from client.new ≤ call.entry.now.0 }
    ensures untouched { OnErr result (step.new ≡ step.old) }
{
    match call.input {
        Input::Arrived { src, bytes, .. } => {
            client.on_datagram(call.now, Side::Primary, src, bytes, step)
        }
        Input::Given { bytes } => client.on_host(call.now, bytes, step),
        Input::FromSix { .. } => {
            client.on_six(call.now, step);
            Ok(())
        }
        Input::Ticked => {
            client.on_tick(call.now, step);
            Ok(())
        }
    }
}

/// Whether a client gets an address at this fate.
fn gives_address(fate: Fate) -> bool
    ensures { result ≡ sets_address (turn fate) }
{
    match fate {
        Fate::QualifiedCone => true,
        Fate::QualifiedRestricted => true,
        Fate::Changed => true,
        _ => false,
    }
}

/// The address that a client got by its step, after which it is so.
fn address_by_step(row: ClientNode, client: &Client, step: &Step) -> Option<Ip6>
    ensures { (lab : Lab) (H : List Full) (n : ℕ) (e : Entry) → e.step ≡ step.now
        → IsKept lab.topology n (with_call e (past_of lab n H)) (played.Client row client.now) → result ≡ address_by lab H n e (rows.Client row) }
{
    if gives_address(step.fate()) {
        client.address()
    } else {
        None
    }
}

/// What a client does whose row this is. What it sends leaves by its NAT.
pub fn answer_client(
    row: ClientNode,
    client: &mut Client,
    call: Call<'_>,
    step: &mut Step,
) -> Result<Asked<'static>, NoMemory>
    requires callable { IsCallable client.old call.now.0 }
    ensures ready { callable_from client.new ≤ call.entry.now.0 }
    ensures answers { IfOk result (λ asked. AnswersCall call.entry (played.Client row client.old) (played.Client row client.new) step.new asked) }
    ensures none { IfOk result (λ asked. asked.packet ≡ None) }
    ensures wants { OnErr result (WantsOnly call.entry (played.Client row client.old) (played.Client row client.new) step.old step.new) }
{
    qualify::words_go_on();
    ask_client(client, call, step)?;
    Ok(Asked {
        outlet: Outlet::Through {
            inside: row.inside,
            nat: row.nat,
        },
        packet: None,
        handed: handed_of(call.input, step),
        address: address_by_step(row, client, step),
    })
}
