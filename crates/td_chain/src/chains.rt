//! NATs, of which some are behind others.
ghost use Rattle.std.specs.Prelude.{◌≡◌, ◌≤◌, ℕ, List, [], true, None, Some, length, option_map, slice_get, IfOk, IfErr};
ghost use Rattle.std.specs.List.{list_any, list_all};
ghost use Rattle.nat_kinds.specs.Kinds.{is_symmetric, is_cone_kind};
ghost use Rattle.nat_kinds.specs.History.{Forget, Restart};
ghost use Rattle.nat_kinds.specs.Mappings.{live_port};
ghost use Rattle.nat_kinds.specs.Answer.{live_after};
ghost use Rattle.topology.specs.Named.{is_nat};
ghost use Rattle.topology.specs.Topology.{node_at};
ghost use Rattle.topology.specs.Chains.{NatPasts, Passing, after_passing, is_inner, chain_in, nats_from, way_out, last_nat, nat_set_up, outer_in};
ghost use Rattle.td_chain.specs.declared.chain_fault.ChainFault.TheVariants.{Chain};
ghost use Rattle.td_chain.specs.ChainText.{chain_asked};
ghost use Rattle.td_chain.specs.Chains.{ChainsStandFor, AreNatsOf, CrossesChain, with_nat_entry, inward_of, chain_out, once_sent};
ghost use Rattle.td_chain.specs.ChainRules.{is_chain};
ghost use Rattle.td_chain.specs.Walk.{passing_of, walk};

use crate::chain_fault::ChainFault;
use crate::chain_text::read_chain;
use crate::entering::{Nats, come_in};
use crate::first_nats::first_nats;
use crate::forgetting::{forget_at, restart_at};
use crate::leave::leave_out;
use crate::let_out::LetOut;
use crate::nesting::{Nesting, is_inner, outer_in};
use crate::once::come_in_once;
use crate::outside::{has_symmetric, is_all_cone, outermost};
use crate::passing::{Leaving, pass_out, port_at};
use crate::sending::Sending;
use crate::walk::walk_out;
use crate::way::Way;
use nat_kinds::{Nat, NatRefusal};
use std::alloc::Global;
use std::marker::Model;
use td_base::{Ep, Millis, NoMemory};
use topology::Topology;

/// The NATs of a topology, of which some are behind others.
#[derive(Drop)]
pub struct Chains<'a> {
    topology: &'a Topology,
    chain: Vec<Nesting>,
    moment: Millis,
    // by the numbers of nodes
    nats: Vec<Option<Nat>>,
}

impl<'a> Model for Chains<'a> {
    ghost use Rattle.std.specs.Prelude.{map};
    ghost use Rattle.td_chain.specs.Nestings.{behind_of};
    ghost use Rattle.td_chain.specs.Chains.{ChainsState, NatsKept};

    ghost Value = { ChainsState };

    ghost view = { λ c. record {
      topology = c.topology.now;
      chain = map behind_of c.chain.items;
      moment = c.moment.0;
      nats = c.nats.items;
    } };

    ghost invariant = { λ c. NatsKept c.topology.now (map behind_of c.chain.items) c.moment.0 c.nats.items };
}

impl<'a> Chains<'a> {
    /// The NATs at moment 0, of which those are behind others that a text says: `-` for none, or pairs INNER:OUTER of names
    /// with commas between them.
    pub fn new(
        alloc: Global,
        topology: &'a Topology,
        chain: &[u8],
    ) -> Result<Chains<'a>, ChainFault>
        /// New `Chains` are of the topology, at moment 0, and their NATs stand for empty histories.
        ensures topology { IfOk result (λ c. c.topology ≡ topology.now) }
        /// `Chains` hold the chain that the text asks for, and are refused exactly where it asks for none. A text is
        /// `-`, or pairs INNER:OUTER of names of NATs with commas between them. Of each pair both are NATs, the inner
        /// one stands first in the scenario, and is the inner one once; no more than three NATs stand one behind the
        /// other; no client has the external address of a NAT beside it.
        /// Needs: memory, for which the other refusal stands.
        ensures chain { IfOk result (λ c. chain_asked topology.now chain.now ≡ Some c.chain) }
        /// See `chain`.
        ensures refused { IfErr result (λ why. why ≡ Chain → chain_asked topology.now chain.now ≡ None) }
        /// See `topology`.
        ensures moment { IfOk result (λ c. c.moment ≡ 0) }
        /// See `topology`.
        ensures stands { IfOk result (λ c. ChainsStandFor c (λ k. [])) }
    {
        let chain = read_chain(alloc, topology, chain)?;
        let nats = first_nats(alloc, topology)?;
        Ok(Chains {
            topology,
            chain,
            moment: Millis(0),
            nats,
        })
    }

    /// The NATs at moment 0, of which none is behind another one.
    pub fn alone(alloc: Global, topology: &'a Topology) -> Result<Chains<'a>, NoMemory>
        /// See `Chains::new`: `topology`.
        ensures topology { IfOk result (λ c. c.topology ≡ topology.now) }
        /// Of the `Chains` of `alone` no NAT is behind another one.
        /// Needs: memory.
        ensures chain { IfOk result (λ c. c.chain ≡ []) }
        /// See `Chains::new`: `topology`.
        ensures moment { IfOk result (λ c. c.moment ≡ 0) }
        /// See `Chains::new`: `topology`.
        ensures stands { IfOk result (λ c. ChainsStandFor c (λ k. [])) }
    {
        let nats = first_nats(alloc, topology)?;
        Ok(Chains {
            topology,
            chain: Vec::new(alloc),
            moment: Millis(0),
            nats,
        })
    }

    /// The external endpoint that a datagram from `inside` a NAT to `dst` leaves from, past all NATs on its way.
    pub fn outward(&mut self, now: Millis, nat: u16, inside: Ep, dst: Ep) -> Result<Ep, NatRefusal>
        requires nat { is_nat (node_at self.old.topology nat) ≡ true }
        requires clock { self.old.moment ≤ now.0 }

        /// For all histories that the NATs stand for, with what was let out since, `outward` answers where the datagram
        /// leaves the outermost NAT, or the refusal of the first NAT that refuses. Each NAT that let it out then stands
        /// for its history with that, also where another one refuses. Where memory runs out, it is so at one NAT on the
        /// way, which had a port to give: those before it let the datagram out, and nothing else changed.
        /// Needs: moments don't fall; memory, where a port is given.
        ensures goes_out { (h : NatPasts) (passed : List Passing) → ChainsStandFor self.old (after_passing passed h)
            → CrossesChain self.old self.new h passed now.0 nat inside dst result }
        /// See `goes_out`.
        ensures same { self.new ≡ record self.old { moment = now.0; nats = self.new.nats } }
    {
        self.moment = now;
        let leaving = Leaving { now, dst };
        pass_out(&mut self.nats, self.chain.as_slice(), nat, leaving, inside)
    }

    /// Where a datagram from `src` ends that comes to a port of a NAT.
    pub fn inward(&self, now: Millis, nat: u16, src: Ep, port: u16) -> Way
        requires nat { is_nat (node_at self.now.topology nat) ≡ true }
        requires clock { self.now.moment ≤ now.0 }
        /// `inward` answers behind which NAT a datagram ends, and at which endpoint, or which NAT lets nothing in.
        /// Needs: moments don't fall.
        ensures { (h : NatPasts) → ChainsStandFor self.now h → inward_of result ≡ chain_in self.now.topology self.now.chain h now.0 nat src port }
    {
        let all = Nats {
            topology: self.topology,
            chain: self.chain.as_slice(),
            nats: self.nats.as_slice(),
        };
        come_in(all, now, nat, src, port)
    }

    /// The port that a NAT has live now for datagrams from `inside` to `dst`: none where the mapping isn't live.
    pub fn port(&self, now: Millis, nat: u16, inside: Ep, dst: Ep) -> Option<u16>
        requires nat { is_nat (node_at self.now.topology nat) ≡ true }
        requires clock { self.now.moment ≤ now.0 }
        /// `port` answers the port that the NAT's history has live for the key, and changes nothing.
        /// Needs: moments don't fall.
        ensures { (h : NatPasts) → ChainsStandFor self.now h
            → result ≡ live_port (nat_set_up self.now.topology nat).kind inside dst (live_after (nat_set_up self.now.topology nat) (h nat) now.0) }
    {
        port_at(self.nats.as_slice(), nat, now, inside, dst)
    }

    /// Where a datagram would leave the outermost NAT on its way, were it sent.
    pub fn leaves(&self, sending: Sending) -> Result<Ep, NatRefusal>
        requires nat { is_nat (node_at self.now.topology sending.nat) ≡ true }
        requires clock { self.now.moment ≤ sending.now.0 }
        /// `leaves` answers where a datagram would leave the outermost NAT on its way, or the refusal of the first NAT
        /// that would refuse, and changes nothing.
        /// Needs: moments don't fall.
        ensures { (h : NatPasts) → ChainsStandFor self.now h
            → result ≡ chain_out self.now.topology self.now.chain h sending.now.0 sending.nat sending.inside sending.dst }
    {
        let all = Nats {
            topology: self.topology,
            chain: self.chain.as_slice(),
            nats: self.nats.as_slice(),
        };
        leave_out(all, sending)
    }

    /// Where a datagram from `src` would end that comes to a port of a NAT, had one been sent.
    pub fn lets_in_once(&self, sending: Sending, nat: u16, src: Ep, port: u16) -> Way
        requires sender { is_nat (node_at self.now.topology sending.nat) ≡ true }
        requires nat { is_nat (node_at self.now.topology nat) ≡ true }
        requires clock { self.now.moment ≤ sending.now.0 }
        /// `lets_in_once` answers where a datagram would end, had one been sent at this moment that each NAT on its way
        /// let out till one refused, and changes nothing.
        /// Needs: moments don't fall.
        ensures { (h : NatPasts) → ChainsStandFor self.now h
            → inward_of result ≡ chain_in self.now.topology self.now.chain
            (once_sent self.now.topology self.now.chain h sending.now.0 sending.nat sending.inside sending.dst) sending.now.0 nat src port }
    {
        let all = Nats {
            topology: self.topology,
            chain: self.chain.as_slice(),
            nats: self.nats.as_slice(),
        };
        come_in_once(all, sending, nat, src, port)
    }

    /// What the NAT in a place of a datagram's way let out of it, as far as the ports tell that NATs have live: the first
    /// NAT's is in place 0.
    pub fn walked(&self, sending: Sending, place: usize) -> Option<LetOut>
        requires nat { is_nat (node_at self.now.topology sending.nat) ≡ true }
        requires clock { self.now.moment ≤ sending.now.0 }
        /// `walked` answers what a walk along a datagram's way has in a place: what the NAT there let out by the port that
        /// it has live, none from the first NAT on that has none or whose own address the datagram is for.
        /// Needs: moments don't fall.
        /// Leaves open: that the datagram was sent, which the law `passed_is_walked` of `states` tells.
        ensures { (h : NatPasts) → ChainsStandFor self.now h
            → option_map passing_of result ≡ slice_get (walk self.now.topology h sending.now.0 sending.dst (way_out self.now.chain sending.nat) sending.inside) place }
    {
        let all = Nats {
            topology: self.topology,
            chain: self.chain.as_slice(),
            nats: self.nats.as_slice(),
        };
        walk_out(all, sending, place)
    }

    /// The topology whose NATs they are.
    pub fn topology(&self) -> &'a Topology
        /// - `Chains` lend the nodes whose NATs they are.
        /// - See `rows`.
        ensures value { result.now ≡ self.now.topology }
        /// The NATs that are kept are those of the topology that is lent, by their numbers.
        ensures rows { AreNatsOf self.now.topology self.now.nats }
        /// The chain of NATs keeps its rules.
        ensures rules { is_chain self.now.topology self.now.chain ≡ true }
    {
        self.topology
    }

    /// Whether a NAT is behind another one.
    pub fn is_inner(&self, nat: u16) -> bool
        /// A NAT is inner exactly where it is the inner one of a pair. It is stated in `Chains.antt` of `topology`.
        ensures { result ≡ is_inner self.now.chain nat }
    {
        is_inner(self.chain.as_slice(), nat)
    }

    /// The NAT that a NAT is behind. From a client's NAT on these are the NATs on its way out, one after the other.
    pub fn outer(&self, nat: u16) -> Option<u16>
        /// The outer NAT of a NAT is that of the first pair of which it is the inner one. It is stated in `Chains.antt` of
        /// `topology`.
        ensures { result ≡ outer_in self.now.chain nat }
    {
        outer_in(self.chain.as_slice(), nat)
    }

    /// How many NATs are behind others: no way out has more NATs than one more.
    pub fn nestings(&self) -> usize
        /// As many pairs are counted as the chain has.
        ensures { result ≡ length self.now.chain }
    {
        self.chain.len()
    }

    /// The NAT at which the way out from behind a NAT ends: itself where it is behind no other one.
    pub fn outermost(&self, nat: u16) -> u16
        /// The way out from behind a NAT ends at the outermost NAT that is named; some NAT of it is symmetric, and each
        /// is a full cone, exactly where they say so. It is stated in `Chains.antt` of `topology`, with the kinds in
        /// `nat_kinds/Kinds.antt`.
        ensures { result ≡ last_nat nat (nats_from self.now.chain self.now.chain (outer_in self.now.chain nat)) }
    {
        outermost(self.chain.as_slice(), nat)
    }

    /// Whether some NAT on the way out from behind a NAT is symmetric.
    pub fn has_symmetric(&self, nat: u16) -> bool
        /// See `Chains::outermost`.
        ensures { result ≡ list_any (λ (k : ℕ). is_symmetric (nat_set_up self.now.topology k).kind) (way_out self.now.chain nat) }
    {
        has_symmetric(self.topology, self.chain.as_slice(), nat)
    }

    /// Whether each NAT on the way out from behind a NAT is a full cone.
    pub fn is_all_cone(&self, nat: u16) -> bool
        /// See `Chains::outermost`.
        ensures { result ≡ list_all (λ (k : ℕ). is_cone_kind (nat_set_up self.now.topology k).kind) (way_out self.now.chain nat) }
    {
        is_all_cone(self.topology, self.chain.as_slice(), nat)
    }

    /// Lets a NAT drop the mappings of an inside endpoint. The others stay.
    pub fn forget(&mut self, nat: u16, inside: Ep)
        requires nat { is_nat (node_at self.old.topology nat) ≡ true }
        /// `forget` and `restart` join the history of their NAT, and of no other. A restart of a node that is no NAT
        /// changes nothing.
        ensures stands { (h : NatPasts) → ChainsStandFor self.old h → ChainsStandFor self.new (with_nat_entry nat (Forget inside) h) }
        /// See `stands`.
        ensures same { self.new ≡ record self.old { nats = self.new.nats } }
    {
        forget_at(&mut self.nats, nat, inside);
    }

    /// Lets a node start anew: a NAT drops all its mappings, and the others stay. Where it is no NAT nothing changes.
    pub fn restart(&mut self, node: u16)
        /// See `Chains::forget`: `stands`.
        ensures stands { (h : NatPasts) → ChainsStandFor self.old h → ChainsStandFor self.new (with_nat_entry node Restart h) }
        /// See `Chains::forget`: `stands`.
        ensures same { self.new ≡ record self.old { nats = self.new.nats } }
    {
        restart_at(&mut self.nats, node);
    }
}
