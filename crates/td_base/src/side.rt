//! The side of a server.
ghost use Rattle.std.specs.Prelude.{◌≡◌};
ghost use Rattle.td_base.specs.Side.{other_side};

/// Which of a server's two addresses.
#[derive(Clone, Copy, Debug, PartialEq, Eq)]
pub enum Side {
    Primary,
    Secondary,
}

impl Side {
    /// The other one of the two.
    pub fn other(self) -> Side
        /// See `is_global`.
        ensures { result ≡ other_side self }
    {
        match self {
            Side::Primary => Side::Secondary,
            Side::Secondary => Side::Primary,
        }
    }
}
