//! What licenses a datagram from the server.
use td_base::Ep;

/// What licenses a datagram from the server, or what comes near. A place is a record's number, from 0.
#[derive(Clone, Copy, Debug, PartialEq, Eq)]
pub enum Licensing {
    /// It is the output of this place, in its turn.
    Licensed { by: u64 },
    /// It isn't licensed: it is the output of this place, which licenses no further one.
    Again { place: u64 },
    /// It isn't licensed: the output of this place has its ends and its length, and differs first at this byte.
    Near { place: u64, at: usize },
    /// It isn't licensed, and no output is like it.
    Unasked,
}

/// A datagram from the server: to where, and what licenses it.
#[derive(Clone, Copy, Debug, PartialEq, Eq)]
pub struct Answered {
    pub dst: Ep,
    pub licensing: Licensing,
}
