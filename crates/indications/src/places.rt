//! Where the parts of a lead stand.

/// Where the parts of a lead stand: an authentication ends at `auth`, which is 0 where there is none, the packet begins
/// at `at`, and an origin stands between the two where they differ. A reader that builds more than the lead asks for the
/// places first, and then takes the lead where it belongs.
#[derive(Clone, Copy, Debug, PartialEq, Eq)]
pub struct Places {
    pub auth: usize,
    pub at: usize,
}
