//! The four kinds of NAT.
/// The four kinds of NAT of RFC 3489, section 5.
#[derive(Clone, Copy, Debug, PartialEq, Eq)]
pub enum NatKind {
    /// Full cone.
    Cone,
    /// Restricted cone.
    Restricted,
    /// Port restricted cone.
    Port,
    Symmetric,
}
