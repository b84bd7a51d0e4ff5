//! How a datagram that is sent leaves.
use history::Loss;
use td_base::Ep;

/// How a datagram that is sent leaves: from an endpoint, its node's own or one that a NAT gave it; or it is lost on its
/// way.
#[derive(Clone, Copy, Debug)]
pub enum Egress {
    Leaves { src: Ep },
    Lost { why: Loss },
}
