//! The tables of nodes that the played scenes are made of.

pub const SERVER: &str = r#"
[[server]]
name = "s1"
primary = "192.0.2.1"
secondary = "192.0.2.2"
"#;

pub const CONE_NAT: &str = r#"
[[nat]]
name = "n1"
kind = "cone"
external = "198.51.100.1"
idle = 60000
"#;

pub const PORT_NAT: &str = r#"
[[nat]]
name = "n1"
kind = "port"
external = "198.51.100.1"
idle = 60000
"#;

pub const OTHER_NAT: &str = r#"
[[nat]]
name = "n2"
kind = "port"
external = "198.51.100.2"
idle = 60000
"#;

pub const CLIENT: &str = r#"
[[client]]
name = "a"
nat = "n1"
inside = "10.0.0.2:4000"
server = "s1"
refresh = [30000, 30000]
"#;

pub const OTHER_CLIENT: &str = r#"
[[client]]
name = "b"
nat = "n2"
inside = "10.0.0.3:4000"
server = "s1"
refresh = [30000, 30000]
"#;

pub const RELAY: &str = r#"
[[relay]]
name = "r1"
at = "203.0.113.9:3545"
six = "2001:db8::9"
"#;

pub const NATIVE: &str = r#"
[[native]]
name = "h1"
six = "2001:db8::1"
relay = "r1"
"#;

pub const OTHER_NATIVE: &str = r#"
[[native]]
name = "h2"
six = "2001:db8::2"
relay = "r1"
"#;
