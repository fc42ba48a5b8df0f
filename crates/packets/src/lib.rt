// A packet, lent in 20 words: the ranges that document 01 gives its fields, and what it shows to a component of each type. Nothing of it is copied, and
// nothing outside this crate knows which word holds what:
//
//   0 family   1, 2 destination, its high and its low half   3, 4 source   5 protocol   6 length   7 DSCP   8 fragment bits
//   9 whether there are ports, 0 or 1   10 source port   11 destination port
//   12 whether there are ICMP fields    13 type          14 code
//   15 whether there are TCP flags      16 flags
//   17 whether there is a flow label    18 label         19 always 0
//
// The functions with a `requires` are no entry points: they serve a caller that has checked the words.
#![tactic(auto)]

ghost use Rattle.std.specs.Prelude.{◌≡◌, true};
ghost use Rattle.wide.specs.Numbers.{wide};
ghost use Rattle.packets.specs.Packets.{address_fits, pair_fits, field_fits, label_fits, pair_of, field_of, packet_ok, packet_at};
ghost use Rattle.packets.specs.Shown.{address_of, numbers_of, placed, place_of};

// Twelve bits: header octets 13 and 14 without the data offset. The only place that knows how wide the flags are.
const MOST_FLAGS: u64 = 4095;

fn address_fits(family: u64, high: u64, low: u64) -> bool
    ensures { result ≡ address_fits family (wide high low) }
{
    family != 4 || (high == 0 && low < 4294967296)
}

fn pair_fits(flag: u64, a: u64, b: u64, most: u64) -> bool
    ensures { result ≡ pair_fits most (pair_of flag a b) }
{
    flag == 0 || (a <= most && b <= most)
}

fn field_fits(flag: u64, n: u64, most: u64) -> bool
    ensures { result ≡ field_fits most (field_of flag n) }
{
    flag == 0 || n <= most
}

fn label_fits(family: u64, flag: u64, n: u64) -> bool
    ensures { result ≡ label_fits family (field_of flag n) }
{
    flag == 0 || (family != 4 && n <= 1048575)
}

// Whether words lend a packet that is in range: else it is BadPacket.
#[tactic(auto, using(crate::proofs::Lends::not_twenty, crate::proofs::Lends::twenty))]
pub fn check_words(packet: &[u64]) -> bool
    ensures { result ≡ packet_ok (packet_at packet.now) }
{
    if packet.len() != 20 {
        return false;
    }
    let family = packet[0];
    // Joined by `&`, without a branch: most packets pass every test, and the join after each `&&` would be one more case in the proof.
    let lent = (packet[9] <= 1)
        & (packet[12] <= 1)
        & (packet[15] <= 1)
        & (packet[17] <= 1)
        & (packet[19] == 0);
    let fits = ((family == 4) | (family == 6))
        & address_fits(family, packet[1], packet[2])
        & address_fits(family, packet[3], packet[4])
        & (packet[5] <= 255)
        & (packet[6] <= 65575)
        & (packet[7] <= 63)
        & (packet[8] <= 15)
        & pair_fits(packet[9], packet[10], packet[11], 65535)
        & pair_fits(packet[12], packet[13], packet[14], 255)
        & field_fits(packet[15], packet[16], MOST_FLAGS)
        & label_fits(family, packet[17], packet[18]);
    lent & fits
}

// The packet's family. No entry point.
#[tactic(auto, using(crate::proofs::Lends::are_twenty, crate::proofs::Lends::lends))]
pub fn family_of(packet: &[u64]) -> u64
    requires { packet_ok (packet_at packet.now) ≡ true }
    ensures { result ≡ (packet_at packet.now).family }
{
    packet[0]
}

// The address that a prefix of a type is held against. No entry point.
#[tactic(auto, using(crate::proofs::Lends::are_twenty, crate::proofs::Lends::lends))]
pub fn address_of(packet: &[u64], tag: u8) -> u128
    requires { packet_ok (packet_at packet.now) ≡ true }
    ensures { result ≡ address_of (packet_at packet.now) tag }
{
    if tag == 1 {
        wide::joined(packet[1], packet[2])
    } else {
        wide::joined(packet[3], packet[4])
    }
}

// Where the words hold the numbers that lists of a type are put to: so many from a word on, unless another word is 0.
#[derive(Clone, Copy)]
pub struct Place {
    pub flag: usize,
    pub from: usize,
    pub count: usize,
}

fn placed(flag: usize, from: usize, count: usize) -> Place
    ensures { result ≡ placed flag from count }
{
    Place { flag, from, count }
}

// A match of constants: the compiler makes a table of it that it does not copy.
#[tactic(auto, unfolding(crate::specs::Shown::place_of))]
fn place_of(tag: u8) -> Place
    ensures { result ≡ place_of tag }
{
    match tag {
        3 => placed(0, 5, 1),
        4 => placed(9, 10, 2),
        5 => placed(9, 11, 1),
        6 => placed(9, 10, 1),
        7 => placed(12, 13, 1),
        8 => placed(12, 14, 1),
        9 => placed(15, 16, 1),
        10 => placed(0, 6, 1),
        11 => placed(0, 7, 1),
        12 => placed(0, 8, 1),
        13 => placed(17, 18, 1),
        _ => placed(0, 0, 0),
    }
}

// The numbers that a list of a type is put to, of the packet's words. No entry point.
#[tactic(auto, using(crate::proofs::Shows::within, crate::proofs::Shows::shown_none, crate::proofs::Shows::shown_some, crate::proofs::Lends::are_twenty))]
pub fn shown_to(packet: &[u64], tag: u8) -> &[u64]
    requires { packet_ok (packet_at packet.now) ≡ true }
    ensures { result.now ≡ numbers_of (packet_at packet.now) tag }
{
    let Place { flag, from, count } = place_of(tag);
    if packet[flag] == 0 {
        return &packet[..0];
    }
    &packet[from..from + count]
}
