//! A send that an event makes fail, and an event that delivers all that is on the wire.
use crate::nets::{CLIENT, CONE_NAT, OTHER_CLIENT, OTHER_NAT, PORT_NAT, SERVER};
use crate::runs::{Scene, plays_so};
use std::test::Fail;

/// Two clients behind port restricted NATs have their addresses.
const BOTH_RESTRICTED: &str =
    r#""advance 12000", "deliver 6", "deliver 7", "deliver 8", "deliver 9", "advance 0", "deliver 10",
       "deliver 11", "deliver 12", "deliver 13""#;

/// The indirect bubble of a try fails. The next try is due all the same.
const A_BUBBLE_FAILS: &str = r#""fault 1", "host a b 68656c6c6f", "advance 2000""#;

const BUBBLE_REPORT: &str = "0 0 0 tick a rs_cone #0=198.51.100.1:1024>192.0.2.1:3544/61\n\
     1 0 0 tick b rs_cone #1=198.51.100.2:1024>192.0.2.1:3544/61\n\
     2 4000 0 tick a rs_cone #2=198.51.100.1:1024>192.0.2.1:3544/61\n\
     3 4000 0 tick b rs_cone #3=198.51.100.2:1024>192.0.2.1:3544/61\n\
     4 8000 0 tick a rs_cone #4=198.51.100.1:1024>192.0.2.1:3544/61\n\
     5 8000 0 tick b rs_cone #5=198.51.100.2:1024>192.0.2.1:3544/61\n\
     6 12000 0 tick a rs_restricted #6=198.51.100.1:1024>192.0.2.1:3544/61\n\
     7 12000 0 tick b rs_restricted #7=198.51.100.2:1024>192.0.2.1:3544/61\n\
     8 12000 0 advance - done\n\
     9 12000 1 deliver:6 s1 advert #8=192.0.2.1:3544>198.51.100.1:1024/117\n\
     10 12000 2 deliver:7 s1 advert #9=192.0.2.1:3544>198.51.100.2:1024/117\n\
     11 12000 3 deliver:8 a first_answer\n\
     12 12000 4 deliver:9 b first_answer\n\
     13 12000 5 tick a rs_secondary #10=198.51.100.1:1024>192.0.2.2:3544/61\n\
     14 12000 5 tick b rs_secondary #11=198.51.100.2:1024>192.0.2.2:3544/61\n\
     15 12000 5 advance - done\n\
     16 12000 6 deliver:10 s1 advert #12=192.0.2.2:3544>198.51.100.1:1024/117\n\
     17 12000 7 deliver:11 s1 advert #13=192.0.2.2:3544>198.51.100.2:1024/117\n\
     18 12000 8 deliver:12 a qualified_restricted is 2001:0:c000:201:0:fbff:39cc:9bfe\n\
     19 12000 9 deliver:13 b qualified_restricted is 2001:0:c000:201:0:fbff:39cc:9bfd\n\
     20 12000 10 fault - done\n\
     21 12000 11 host a queued #14=198.51.100.1:1024>198.51.100.2:1024/40 !fault=192.0.2.1:3544/40\n\
     22 14000 12 tick a bubbles #15=198.51.100.1:1024>198.51.100.2:1024/40 #16=198.51.100.1:1024>192.0.2.1:3544/40\n\
     23 14000 12 advance - done\n\
     total records 24 entries 17 delivered 8 handed 0 kept 0 dropped 0\n";

/// All that was sent is delivered, the oldest first.
const ALL_DELIVERED: &str = r#""host a b 68656c6c6f", "settle""#;

const DELIVERED_REPORT: &str = "0 0 0 tick a rs_cone #0=198.51.100.1:1024>192.0.2.1:3544/61\n\
     1 0 0 tick b rs_cone #1=198.51.100.2:1024>192.0.2.1:3544/61\n\
     2 4000 0 tick a rs_cone #2=198.51.100.1:1024>192.0.2.1:3544/61\n\
     3 4000 0 tick b rs_cone #3=198.51.100.2:1024>192.0.2.1:3544/61\n\
     4 8000 0 tick a rs_cone #4=198.51.100.1:1024>192.0.2.1:3544/61\n\
     5 8000 0 tick b rs_cone #5=198.51.100.2:1024>192.0.2.1:3544/61\n\
     6 12000 0 tick a rs_restricted #6=198.51.100.1:1024>192.0.2.1:3544/61\n\
     7 12000 0 tick b rs_restricted #7=198.51.100.2:1024>192.0.2.1:3544/61\n\
     8 12000 0 advance - done\n\
     9 12000 1 deliver:6 s1 advert #8=192.0.2.1:3544>198.51.100.1:1024/117\n\
     10 12000 2 deliver:7 s1 advert #9=192.0.2.1:3544>198.51.100.2:1024/117\n\
     11 12000 3 deliver:8 a first_answer\n\
     12 12000 4 deliver:9 b first_answer\n\
     13 12000 5 tick a rs_secondary #10=198.51.100.1:1024>192.0.2.2:3544/61\n\
     14 12000 5 tick b rs_secondary #11=198.51.100.2:1024>192.0.2.2:3544/61\n\
     15 12000 5 advance - done\n\
     16 12000 6 deliver:10 s1 advert #12=192.0.2.2:3544>198.51.100.1:1024/117\n\
     17 12000 7 deliver:11 s1 advert #13=192.0.2.2:3544>198.51.100.2:1024/117\n\
     18 12000 8 deliver:12 a qualified_restricted is 2001:0:c000:201:0:fbff:39cc:9bfe\n\
     19 12000 9 deliver:13 b qualified_restricted is 2001:0:c000:201:0:fbff:39cc:9bfd\n\
     20 12000 10 host a queued #14=198.51.100.1:1024>198.51.100.2:1024/40 #15=198.51.100.1:1024>192.0.2.1:3544/40\n\
     21 12000 11 deliver:0 s1 advert #16=192.0.2.2:3544>198.51.100.1:1024/117\n\
     22 12000 11 deliver:1 s1 advert #17=192.0.2.2:3544>198.51.100.2:1024/117\n\
     23 12000 11 deliver:2 s1 advert #18=192.0.2.2:3544>198.51.100.1:1024/117\n\
     24 12000 11 deliver:3 s1 advert #19=192.0.2.2:3544>198.51.100.2:1024/117\n\
     25 12000 11 deliver:4 s1 advert #20=192.0.2.2:3544>198.51.100.1:1024/117\n\
     26 12000 11 deliver:5 s1 advert #21=192.0.2.2:3544>198.51.100.2:1024/117\n\
     27 12000 11 deliver:14 n2 nat_closed\n\
     28 12000 11 deliver:15 s1 forward_origin #22=192.0.2.1:3544>198.51.100.2:1024/48\n\
     29 12000 11 deliver:16 a nonce\n\
     30 12000 11 deliver:17 b nonce\n\
     31 12000 11 deliver:18 a nonce\n\
     32 12000 11 deliver:19 b nonce\n\
     33 12000 11 deliver:20 a nonce\n\
     34 12000 11 deliver:21 b nonce\n\
     35 12000 11 deliver:22 b indirect #23=198.51.100.2:1024>198.51.100.1:1024/40\n\
     36 12000 11 deliver:23 a rule3_bubble #24=198.51.100.1:1024>198.51.100.2:1024/45\n\
     37 12000 11 deliver:24 b rule3 handed/45\n\
     38 12000 11 settle - done\n\
     total records 39 entries 25 delivered 25 handed 1 kept 0 dropped 7\n";

/// The number is beyond the one send, and is over all the same; a later number takes the place of an earlier one; what a
/// stranger puts on the wire isn't a send.
const OVER_AND_REPLACED: &str =
    r#""fault 1", "advance 0", "fault 7", "fault 0", "stranger 203.0.113.5:9 192.0.2.1:3544 00", "advance 4000",
       "advance 4000""#;

const REPLACED_REPORT: &str = "0 0 0 fault - done\n\
     1 0 1 tick a rs_cone #0=198.51.100.1:1024>192.0.2.1:3544/61\n\
     2 0 1 advance - done\n\
     3 0 2 fault - done\n\
     4 0 3 fault - done\n\
     5 0 4 stranger - put #1=203.0.113.5:9>192.0.2.1:3544/1\n\
     6 4000 5 tick a rs_cone !fault=192.0.2.1:3544/61\n\
     7 4000 5 advance - done\n\
     8 8000 6 tick a rs_cone #2=198.51.100.1:1024>192.0.2.1:3544/61\n\
     9 8000 6 advance - done\n\
     total records 10 entries 3 delivered 0 handed 0 kept 0 dropped 0\n";

/// The server's answer fails; nothing was on the wire before, and nothing is left.
const AN_ANSWER_FAILS: &str = r#""settle", "advance 0", "fault 0", "settle", "settle", "next""#;

const ANSWER_REPORT: &str = "0 0 0 settle - done\n\
     1 0 1 tick a rs_cone #0=198.51.100.1:1024>192.0.2.1:3544/61\n\
     2 0 1 advance - done\n\
     3 0 2 fault - done\n\
     4 0 3 deliver:0 s1 advert !fault=198.51.100.1:1024/117\n\
     5 0 3 settle - done\n\
     6 0 4 settle - done\n\
     7 0 5 next - no_entry\n\
     total records 8 entries 1 delivered 1 handed 0 kept 0 dropped 1\n";

/// A client that sent nothing has no mapping, so the failed solicitation opened none.
const NO_MAPPING: &str =
    r#""fault 0", "advance 0", "stranger 192.0.2.2:3544 198.51.100.1:1024 00", "settle""#;

const NO_MAPPING_REPORT: &str = "0 0 0 fault - done\n\
     1 0 1 tick a rs_cone !fault=192.0.2.1:3544/61\n\
     2 0 1 advance - done\n\
     3 0 2 stranger - put #0=192.0.2.2:3544>198.51.100.1:1024/1\n\
     4 0 3 deliver:0 n1 nat_closed\n\
     5 0 3 settle - done\n\
     total records 6 entries 1 delivered 1 handed 0 kept 0 dropped 1\n";

#[test]
fn sends_fail_and_entries_settle(rt: HostRuntime) -> Result<(), Fail> {
    let scenes = [
        Scene {
            nodes: &[SERVER, PORT_NAT, OTHER_NAT, CLIENT, OTHER_CLIENT],
            events: &[BOTH_RESTRICTED, A_BUBBLE_FAILS],
            report: BUBBLE_REPORT,
        },
        Scene {
            nodes: &[SERVER, PORT_NAT, OTHER_NAT, CLIENT, OTHER_CLIENT],
            events: &[BOTH_RESTRICTED, ALL_DELIVERED],
            report: DELIVERED_REPORT,
        },
        Scene {
            nodes: &[SERVER, CONE_NAT, CLIENT],
            events: &[OVER_AND_REPLACED],
            report: REPLACED_REPORT,
        },
        Scene {
            nodes: &[SERVER, CONE_NAT, CLIENT],
            events: &[AN_ANSWER_FAILS],
            report: ANSWER_REPORT,
        },
        Scene {
            nodes: &[SERVER, CONE_NAT, CLIENT],
            events: &[NO_MAPPING],
            report: NO_MAPPING_REPORT,
        },
    ];
    for scene in scenes.iter() {
        assert!(rt; plays_so(rt.alloc(), scene)?, "{}", scene.report);
    }
    Ok(())
}
