//! `nested`: a NAT behind another one.
use crate::nets::{CLIENT, CONE_NAT, SERVER};
use crate::runs::{NAME, ending, ends_so, text_with};
use std::test::Fail;

/// A NAT behind which another one can be.
const CONE_OUTSIDE: &str = r#"
[[nat]]
name = "n3"
kind = "cone"
external = "198.51.100.9"
idle = 60000
"#;

/// A client asks, and its answer comes from the server's other address.
const ASKS: &str = r#""advance 0", "next", "next""#;

const BOTH_CONE_REPORT: &str = "0 0 0 tick a rs_cone #0=198.51.100.9:1024>192.0.2.1:3544/61\n\
     1 0 0 advance - done\n\
     2 0 1 deliver:0 s1 advert #1=192.0.2.2:3544>198.51.100.9:1024/117\n\
     3 0 2 deliver:1 a qualified_cone is 2001:0:c000:201:8000:fbff:39cc:9bf6\n\
     total records 4 entries 2 delivered 2 handed 0 kept 0 dropped 0\n";

#[test]
fn a_nat_behind_another_one(rt: HostRuntime) -> Result<(), Fail> {
    let nodes = [SERVER, CONE_NAT, CONE_OUTSIDE, CLIENT];
    let text = text_with(rt.alloc(), &nodes, &[ASKS])?;
    let words = ["nested", NAME, "n1:n3"];
    assert!(rt;
        ends_so(
            rt.alloc(),
            &ending(&words, text.as_str(), 0, BOTH_CONE_REPORT)
        )?
    );
    Ok(())
}
