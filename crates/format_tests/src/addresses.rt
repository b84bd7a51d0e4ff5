//! Teredo addresses, taken apart and made.
use crate::vectors::{CLIENT, SERVER_LINK};
use td_base::{Ep, Ip4, TEREDO_PORT};
use teredo_addr::{
    ALL_ROUTERS, TeredoAddr, embedded, has_cone, is_cone, is_teredo, link_local, of_ip6, server_of,
    to_ip6,
};

const PARTS: TeredoAddr = TeredoAddr {
    server: Ip4([65, 54, 227, 120]),
    flags: 0x8000,
    mapped: Ep {
        ip: Ip4([192, 0, 2, 45]),
        port: 40_000,
    },
};

#[test]
fn the_example_both_ways(rt: HostRuntime) {
    assert!(rt; of_ip6(CLIENT) == Some(PARTS) && to_ip6(PARTS) == CLIENT);
    assert!(rt; embedded(CLIENT) == PARTS.mapped && server_of(CLIENT) == PARTS.server);
    assert!(rt; has_cone(CLIENT) && is_cone(PARTS.flags) && is_teredo(CLIENT));
}

#[test]
fn a_servers_link_local_address(rt: HostRuntime) {
    let server = Ep {
        ip: Ip4([192, 0, 2, 1]),
        port: TEREDO_PORT,
    };
    assert!(rt; link_local(true, server) == SERVER_LINK && !has_cone(link_local(false, server)));
    assert!(rt; of_ip6(SERVER_LINK).is_none() && of_ip6(ALL_ROUTERS).is_none());
}
