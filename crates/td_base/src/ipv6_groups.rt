//! The eight groups of an IPv6 address.
ghost use Rattle.std.specs.Prelude.{◌≡◌, ◌+◌, ◌/◌, ◌%◌, ◌<◌, ◌≤◌, [], ◌∷◌, ◌++◌, length, replicate};
ghost use Rattle.td_base.specs.Ip6.{IsIp6};
ghost use Rattle.td_base.specs.Ip6Texts.{groups};

use crate::ipv6::Ip6;
use std::marker::Model;

/// How many groups of 16 bits an address has: RFC 4291, section 2.2.
pub(crate) const GROUPS: usize = 8;

/// An address's groups.
pub(crate) fn groups_of(ip: Ip6) -> [u16; GROUPS]
    ensures { result ≡ groups ip }
{
    let b = ip.0;
    [
        u16::from_be_bytes([b[0], b[1]]),
        u16::from_be_bytes([b[2], b[3]]),
        u16::from_be_bytes([b[4], b[5]]),
        u16::from_be_bytes([b[6], b[7]]),
        u16::from_be_bytes([b[8], b[9]]),
        u16::from_be_bytes([b[10], b[11]]),
        u16::from_be_bytes([b[12], b[13]]),
        u16::from_be_bytes([b[14], b[15]]),
    ]
}

/// A group's first byte.
fn high(group: u16) -> u8
    ensures { result ≡ group / 256 }
{
    (group / 256) as u8
}

/// A group's second byte.
fn low(group: u16) -> u8
    ensures { result ≡ group % 256 }
{
    (group % 256) as u8
}

/// At most eight groups.
#[derive(Drop)]
pub(crate) struct Groups {
    numbers: [u16; GROUPS],
    len: usize,
}

impl Model for Groups {
    ghost use Rattle.std.specs.Prelude.{ℕ, ◌≤◌, List, take};
    ghost use Rattle.td_base.specs.declared.ipv6_groups.TheConstants.{GROUPS};

    ghost Value = { List ℕ };

    ghost view = { λ groups. take groups.len groups.numbers };

    ghost invariant = { λ groups. groups.len ≤ GROUPS };
}

impl Groups {
    pub(crate) fn new() -> Groups
        ensures { result ≡ [] }
    {
        Groups {
            numbers: [0; GROUPS],
            len: 0,
        }
    }

    pub(crate) fn as_slice(&self) -> &[u16]
        ensures { result.now ≡ self.now }
    {
        &self.numbers[..self.len]
    }

    pub(crate) fn push(&mut self, number: u16)
        requires { length self.old < GROUPS }
        ensures { self.new ≡ self.old ++ number ∷ [] }
    {
        self.numbers[self.len] = number;
        self.len += 1;
    }
}

impl Groups {
    /// The address of eight groups.
    pub(crate) fn address(&self) -> Ip6
        requires { length self.now ≡ GROUPS }
        ensures is { IsIp6 result }
        ensures groups { groups result ≡ self.now }
    {
        let [a, b, c, d, e, f, g, h] = self.numbers;
        Ip6([
            high(a),
            low(a),
            high(b),
            low(b),
            high(c),
            low(c),
            high(d),
            low(d),
            high(e),
            low(e),
            high(f),
            low(f),
            high(g),
            low(g),
            high(h),
            low(h),
        ])
    }

    /// Appends zeros.
    pub(crate) fn push_zeros(&mut self, count: usize)
        requires { length self.old + count ≤ GROUPS }
        ensures { self.new ≡ self.old ++ replicate count 0 }
    {
        for _ in 0..count {
            self.push(0);
        }
    }

    /// Appends numbers.
    pub(crate) fn push_all(&mut self, numbers: &[u16])
        requires { length self.old + length numbers.now ≤ GROUPS }
        ensures { self.new ≡ self.old ++ numbers.now }
    {
        for number in numbers {
            self.push(*number);
        }
    }
}
