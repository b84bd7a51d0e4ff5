//! From a client to another one: what the table of words asks, and its answer.
ghost use Rattle.std.specs.Prelude.{◌≡◌, ◌++◌};
ghost use Rattle.teredo_node.specs.Rows.{first_line};
ghost use Rattle.theory_reaching.specs.declared.word.Reach.TheVariants.{Within5};
ghost use Rattle.theory_reaching.specs.BetweenClients.{between_clients_row, early_client_lines, late_client_lines};

use crate::word::Reach;

/// What the lines ask of a client and another one, in their order.
#[derive(Clone, Copy, Debug)]
pub struct TwoClients {
    /// The sender is qualified.
    pub on: bool,
    /// The receiver is.
    pub there: bool,
    /// Both have one address.
    pub same_address: bool,
    /// The sender speaks to the receiver's endpoint.
    pub speaks: bool,
    /// The sender's bubbles for the receiver leave from elsewhere than its address says.
    pub bubbles_astray: bool,
    /// Both are settled along their ways.
    pub settled: bool,
    /// Their outermost NATs are one.
    pub one_nat: bool,
    /// The receiver has room for the sender.
    pub heard: bool,
    /// The receiver is fresh at the sender.
    pub fresh: bool,
    /// What comes from the sender's endpoint to the receiver's is let in to the receiver.
    pub let_in: bool,
    /// The receiver's address has the cone bit.
    pub to_cone: bool,
    /// The sender is barred for the receiver.
    pub barred: bool,
    /// The sender has room for the receiver.
    pub room: bool,
    /// The receiver is barred for the sender, whose bubbles don't come straight to it: none goes there, or none is let in.
    pub barred_there: bool,
    /// So many packets wait at the receiver for the sender: it is barred for it then.
    pub waiting: usize,
    /// The receiver is barred for the sender.
    pub peer_barred: bool,
    /// The sender's address has the cone bit.
    pub from_cone: bool,
}

impl TwoClients {
    /// The word by how many packets the receiver keeps, and by the sender's cone bit.
    fn late_word(self) -> Reach
        ensures { result ≡ first_line (late_client_lines self) Within5 }
    {
        if self.waiting == 1 {
            return Reach::Within6;
        }
        if self.waiting == 2 {
            return Reach::Within7;
        }
        if self.waiting == 3 {
            return Reach::Within8;
        }
        if self.waiting == 4 {
            return Reach::Within9;
        }
        if self.waiting == 5 {
            return Reach::Within10;
        }
        if self.waiting == 6 {
            return Reach::Within11;
        }
        if self.waiting == 7 {
            return Reach::Within12;
        }
        if self.waiting == 8 {
            return Reach::Within13;
        }
        if self.peer_barred {
            return Reach::Known;
        }
        if self.from_cone {
            return Reach::Within4;
        }
        Reach::Within5
    }

    /// The word on two clients that are qualified, of which the sender speaks to the receiver or sends bubbles first.
    fn early_word(self) -> Reach
        ensures { result ≡ first_line (early_client_lines self ++ late_client_lines self) Within5 }
    {
        if !self.settled {
            return Reach::Lost;
        }
        if self.one_nat {
            return Reach::OneNat;
        }
        if !self.heard {
            return Reach::Full;
        }
        if self.fresh && !self.let_in {
            return Reach::Stale;
        }
        if self.fresh || self.to_cone {
            return Reach::Within1;
        }
        if self.barred {
            return Reach::Barred;
        }
        if !self.room {
            return Reach::Full;
        }
        if self.barred_there {
            return Reach::Barred;
        }
        self.late_word()
    }

    /// The word of the first line whose condition holds.
    pub fn word(self) -> Reach
        /// What is asked of two clients gives the word of the first line whose condition holds; so does what is asked
        /// of a client, a native host and its relay, for packets to the native and for packets from it.
        /// Leaves open: who answers what is asked; `world` does.
        ensures { result ≡ between_clients_row self }
    {
        if !self.on {
            return Reach::Off;
        }
        if !self.there {
            return Reach::Away;
        }
        if self.same_address {
            return Reach::OneAddress;
        }
        if (self.fresh || self.to_cone) && (!self.speaks && (!self.one_nat && self.heard)) {
            return Reach::Moved;
        }
        if !(self.fresh || self.to_cone)
            && (self.bubbles_astray
                && (!self.one_nat && (self.heard && (!self.barred && self.room))))
        {
            return Reach::Moved;
        }
        self.early_word()
    }
}
