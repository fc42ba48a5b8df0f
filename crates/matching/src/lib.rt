// Matching: whether a packet satisfies a component. It is taken in the words that lend it, and nothing of it is copied.
//
// Whether the packet is in range and the rule is well-formed is the chooser's to ask, before this: the functions with a `requires` are no entry points.
#![tactic(auto)]

ghost use Rattle.std.specs.Prelude.{◌≡◌, true};
ghost use Rattle.packets.specs.Packets.{packet_ok, packet_at};
ghost use Rattle.packets.specs.Shown.{numbers_of};
ghost use Rattle.operators.specs.Lent.{operators_of};
ghost use Rattle.matching.specs.Rules.{same_bits, prefix_matches, counted_bits, test_of, some_matches};

use operators::OperatorList;
use rules::NetworkPrefix;
use satisfying::Test;

// Whether two addresses of so many bits agree from bit offset on, up to the length: what differs there, moved to the front, is nothing.
#[tactic(auto, using(crate::proofs::Patterns::by_moves))]
fn same_bits(width: u8, offset: u8, length: u8, a: u128, b: u128) -> bool
    ensures { result ≡ same_bits width offset length a b }
{
    let down = width.saturating_sub(length) as u32;
    let up = 128u8.saturating_sub(length.saturating_sub(offset)) as u32;
    wide::moved(a ^ b, down, up) == 0
}

// An IPv4 prefix by two shifts. A longer one than its address is in no well-formed rule.
#[tactic(auto, using(crate::proofs::Patterns::by_shifts))]
pub fn ipv4_matches(length: u8, address: u32, a: u128) -> bool
    ensures { result ≡ same_bits 32 0 length address a }
{
    if 32 < length {
        return same_bits(32, 0, length, u128::from(address), a);
    }
    let down = (32 - length) as u32;
    u64::from(address) >> down == (a % 4294967296) as u64 >> down
}

// An IPv6 prefix from bit offset on. Nearly all have none, and then one shift tells.
#[tactic(auto, using(crate::proofs::Patterns::by_front))]
pub fn ipv6_matches(offset: u8, length: u8, address: u128, a: u128) -> bool
    ensures { result ≡ same_bits 128 offset length address a }
{
    if offset == 0 {
        let down = 128u8.saturating_sub(length) as u32;
        return wide::shr(address ^ a, down) == 0;
    }
    same_bits(128, offset, length, address, a)
}

// A prefix of any form.
pub fn prefix_matches(prefix: NetworkPrefix, a: u128) -> bool
    ensures { result ≡ prefix_matches prefix a }
{
    match prefix {
        NetworkPrefix::Ipv4 { length, address } => ipv4_matches(length, address, a),
        NetworkPrefix::Ipv6 { length, high, low } => {
            same_bits(128, 0, length, wide::joined(high, low), a)
        }
        NetworkPrefix::Ipv4Offset {
            length,
            offset,
            address,
        } => same_bits(32, offset, length, u128::from(address), a),
        NetworkPrefix::Ipv6Offset {
            length,
            offset,
            high,
            low,
        } => same_bits(128, offset, length, wide::joined(high, low), a),
    }
}

fn counted_bits(family: u64, tag: u8) -> u64
    ensures { result ≡ counted_bits family tag }
{
    match tag {
        11 => 63,
        12 if family == 6 => 14,
        12 => 15,
        _ => u64::MAX,
    }
}

fn test_of(family: u64, tag: u8) -> Test
    ensures { result ≡ test_of family tag }
{
    Test {
        kind: operators::kind_of(tag),
        bits: counted_bits(family, tag),
    }
}

// Whether one of the numbers that a packet shows to a type satisfies a list: whether a packet satisfies a component. No entry point.
pub fn some_matches(tag: u8, list: OperatorList, packet: &[u64]) -> bool
    requires { packet_ok (packet_at packet.now) ≡ true }
    ensures { result ≡ some_matches (test_of (packet_at packet.now).family tag) (operators_of list.entry) (numbers_of (packet_at packet.now) tag) }
{
    let test = test_of(packets::family_of(packet), tag);
    packets::shown_to(packet, tag)
        .iter()
        .any(|datum| satisfying::list_matches(test, list, *datum))
}
