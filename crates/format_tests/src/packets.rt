//! IPv6 packets, read and written.
ghost use Rattle.std.specs.Prelude.{◌≤◌};

use crate::vectors::{BUBBLE, DATA};
use ipv6_packet::{HEADER, NEXT_NONE, PacketFault, read, write};
use std::test::Fail;
use td_base::Room;

fn begin(bytes: &[u8; 42], len: usize) -> &[u8]
    requires { len ≤ 42 }
{
    &bytes[..len]
}

#[test]
fn a_bubble_both_ways(rt: HostRuntime) -> Result<(), Fail> {
    let mut bytes = [0u8; 40];
    hex::decode_to_slice(BUBBLE, &mut bytes).ok().ok_or("hex")?;
    let packet = read(&bytes).ok().ok_or("a packet")?;
    assert!(rt; (packet.class, packet.flow, packet.next, packet.hop) == (0, 0, NEXT_NONE, 255));
    assert!(rt; (packet.src.0[15], packet.dst.0[15]) == (0xd2, 0xf8));
    assert!(rt; packet.body.is_empty());
    let mut out = [0u8; 40];
    assert!(rt; write(&packet, &mut out) == Ok(40));
    assert!(rt; out == bytes);
    Ok(())
}

#[test]
fn each_field_has_its_place(rt: HostRuntime) -> Result<(), Fail> {
    let mut bytes = [0u8; 42];
    hex::decode_to_slice(DATA, &mut bytes).ok().ok_or("hex")?;
    let packet = read(&bytes).ok().ok_or("a packet")?;
    assert!(rt; (packet.class, packet.flow, packet.next, packet.hop) == (0xb8, 0x12345, 17, 64));
    assert!(rt; packet.body == [0xab, 0xcd].as_slice());
    let mut out = [0u8; 41];
    assert!(rt; write(&packet, &mut out) == Err(Room { needed: 42 }));
    Ok(())
}

#[test]
fn each_fault_of_a_packet(rt: HostRuntime) -> Result<(), Fail> {
    let mut bytes = [0u8; 42];
    hex::decode_to_slice(DATA, &mut bytes).ok().ok_or("hex")?;
    for len in 0..42 {
        let want = if len < HEADER {
            PacketFault::Short { len }
        } else {
            PacketFault::Length {
                said: 2,
                there: len - HEADER,
            }
        };
        assert!(rt; read(begin(&bytes, len)).err() == Some(want));
    }
    bytes[0] = 0x4b;
    assert!(rt; read(&bytes).err() == Some(PacketFault::Version { nibble: 4 }));
    Ok(())
}
