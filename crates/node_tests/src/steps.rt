//! What a step keeps.
use td_base::{DATAGRAM_MAX, Ep, Ip4, Side};
use teredo_node::{Fate, Step};

const PEER: Ep = Ep {
    ip: Ip4([198, 51, 100, 7]),
    port: 40000,
};

#[test]
fn a_step_keeps_its_sends(rt: HostRuntime) {
    let mut step = Step::new();
    step.push(Side::Primary, PEER, &[1; DATAGRAM_MAX]);
    step.reset(Fate::Queued);
    step.push(Side::Secondary, PEER, b"ab");
    step.set_gone(3);
    assert!(rt; (step.fate(), step.count()) == (Fate::Queued, 1));
    let (side, to, bytes) = step.send(0);
    assert!(rt; (side, to) == (Side::Secondary, PEER));
    assert!(rt; bytes == b"ab".as_slice());
    assert!(rt; (step.handed(), step.six()) == (None, None));
    assert!(rt; (step.gone(), step.drawn()) == (3, 0));
}
