//! The datagrams of the tests.
use std::alloc::Global;
use td_base::{Ep, Ip4, NoMemory};

/// How many bytes the sinks in memory have room for.
pub const ROOM: usize = 16_777_216;

/// A solicitation with a nonce and without the cone bit, 61 bytes (RFC 4380, section 5.2.1).
pub const SOLICITATION: [u8; 61] = [
    0, 1, 0, 0, 1, 2, 3, 4, 5, 6, 7, 8, 0, 0x60, 0, 0, 0, 0, 8, 0x3a, 0xff, 0xfe, 0x80, 0, 0, 0, 0,
    0, 0, 0, 0, 0x63, 0xbf, 0x39, 0xcc, 0x9b, 0xf8, 0xff, 2, 0, 0, 0, 0, 0, 0, 0, 0, 0, 0, 0, 0, 0,
    2, 0x85, 0, 0x43, 0xb3, 0, 0, 0, 0,
];

/// How many bytes the answer to it has.
pub const ANSWER_LEN: usize = 117;

/// A bubble from the client at 127.0.0.3:40000 to a host of the IPv6 Internet.
pub const TO_A_HOST: [u8; 40] = [
    0x60, 0, 0, 0, 0, 0, 0x3b, 0xff, 0x20, 1, 0, 0, 0x7f, 0, 0, 1, 0x80, 0, 0x63, 0xbf, 0x80, 0xff,
    0xff, 0xfc, 0x20, 1, 0x0d, 0xb8, 0, 0, 0, 0, 0, 0, 0, 0, 0, 0, 0, 1,
];

/// Where the solicitations come from.
pub const CLIENT: Ep = Ep {
    ip: Ip4([127, 0, 0, 3]),
    port: 40000,
};

/// The words of a command line.
pub fn words_of(alloc: Global, texts: &[&str]) -> Result<Vec<String>, NoMemory> {
    let mut words = Vec::new(alloc);
    for text in texts {
        words.push(String::from_str(alloc, text)?)?;
    }
    Ok(words)
}
