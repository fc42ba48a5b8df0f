// Prefixes: where one stands by each reading, the prefix that its octets make, and which prefixes each writing takes. In the Rust it is
// nlri.rs, parse_prefix_component; the standard readings and the tests before a writing are added.
//
// The octets of an IPv4 prefix are the first of its address. Those of an IPv6 prefix are read as one number, which is then moved to its place
// in the address. The functions with a `requires` are no entry points.
#![tactic(auto)]

ghost use Rattle.std.specs.Prelude.{◌≡◌, true, ◌+◌, ◌-◌, ◌*◌, ◌^◌, ◌<◌, ◌≤◌, length, take, drop};
ghost use Rattle.ground.specs.Answers.{accepts};
ghost use Rattle.refusals.specs.Refusals.{answered};
ghost use Rattle.octets.specs.Spell.{value_of};
ghost use Rattle.rules.specs.declared.NetworkPrefix.TheVariants.{Ipv6Offset};
ghost use Rattle.prefixes.specs.Prefixes.{octets_of, offset_fits, extent_of, octets_at, extent_at, front_address, ipv6, ipv6_prefix, prefix_from, prefix_at, is_extent, Stands};
ghost use Rattle.prefixes.specs.Forms.{in_range, clean, valid_ipv6, valid_in};

use choices::Reading;
use octets::Cursor;
use refusals::{Fault, FlowSpecError};
use rules::NetworkPrefix;

// Where a prefix stands: its length and its offset, 0 where it has none, the place of its first address octet, and the cursor after its last.
#[derive(Clone, Copy)]
pub struct Extent {
    pub length: u8,
    pub offset: u8,
    pub from: usize,
    pub next: Cursor,
}

// A prefix, and the cursor after it.
#[derive(Clone, Copy)]
pub struct PrefixAt {
    pub prefix: NetworkPrefix,
    pub next: Cursor,
}

// How many octets hold n bits: a sum and a shift, where `div_ceil` also tests the remainder.
pub fn octets_of(n: u8) -> usize
    ensures { result ≡ octets_of n }
{
    (n as usize + 7) / 8
}

// Whether the standard forms of IPv6 have such a length with such an offset.
pub fn offset_fits(len: u8, off: u8) -> bool
    ensures { result ≡ offset_fits len off }
{
    len == 0 && off == 0 || off < len && len < 129
}

// The extent of a length and an offset whose address octets start at a place.
fn extent_of(len: u8, off: u8, from: usize) -> Extent
    requires { (off ≤ len) × (from + octets_of (len - off) < 2 ^ 64) }
    ensures { result ≡ extent_of len off from }
{
    Extent {
        length: len,
        offset: off,
        from,
        next: Cursor {
            at: from + octets_of(len - off),
        },
    }
}

// The same where the address octets are there.
fn octets_at(s: &[u8], len: u8, off: u8, from: usize) -> Result<Extent, Fault>
    requires { (off ≤ len) × (from ≤ length s.now) }
    ensures { answered result ≡ octets_at s.now (extent_of len off from) }
{
    if s.len() - from < octets_of(len - off) {
        return Err(FlowSpecError::InsufficientData.at(s.len()));
    }
    Ok(extent_of(len, off, from))
}

// Where the prefix at a cursor stands, as the reading has it. Every test of a prefix is made here, and no address.
#[tactic(auto, unfolding(crate::specs::Prefixes::extent_at))]
pub fn extent_at(reading: Reading, s: &[u8], c: Cursor) -> Result<Extent, Fault>
    ensures { answered result ≡ extent_at reading s.now c.at }
{
    let at = c.at;
    if s.len() <= at {
        return Err(FlowSpecError::InsufficientData.at(s.len()));
    }
    let len = s[at];
    let from = at + 1;
    match reading {
        Reading::Plain if 128 < len => Err(FlowSpecError::InvalidPrefix.at(at)),
        Reading::Ipv4 if 32 < len => Err(FlowSpecError::InvalidPrefix.at(at)),
        Reading::Plain | Reading::Ipv4 => octets_at(s, len, 0, from),
        Reading::Ipv6 => {
            if s.len() <= from {
                return Err(FlowSpecError::InsufficientData.at(s.len()));
            }
            let off = s[from];
            if !offset_fits(len, off) {
                return Err(FlowSpecError::InvalidPrefix.at(at));
            }
            octets_at(s, len, off, from + 1)
        }
    }
}

// The same extent where it was accepted before: nothing is tested again.
#[tactic(auto, unfolding(crate::specs::Prefixes::extent_at))]
fn extent_in(reading: Reading, s: &[u8], c: Cursor) -> Extent
    requires { is_extent (extent_at reading s.now c.at) ≡ true }
    ensures { extent_at reading s.now c.at ≡ accepts result }
{
    let at = c.at;
    let len = s[at];
    let from = at + 1;
    match reading {
        Reading::Plain | Reading::Ipv4 => extent_of(len, 0, from),
        Reading::Ipv6 => extent_of(len, s[from], from + 1),
    }
}

// The IPv4 address whose first octets, as many as hold len bits, stand at a place.
fn front_ipv4(s: &[u8], from: usize, len: u8) -> u32
    requires { (len ≤ 32) × (from + octets_of len ≤ length s.now) }
    ensures { result ≡ front_address 32 len (value_of (take (octets_of len) (drop from s.now))) }
{
    octets::front_four(s, from, octets_of(len))
}

// The IPv6 prefix of each reading that has one, of a length and the number that its octets spell. The plain one keeps the bits past the length.
#[tactic(auto, using(crate::proofs::Addresses::front_ipv6))]
fn plain_of(len: u8, v: u128) -> NetworkPrefix
    requires { (len ≤ 128) × (v < 2 ^ (8 * octets_of len)) }
    ensures { result ≡ ipv6 len (front_address 128 len v) }
{
    let bits = 8 * octets_of(len) as u32;
    let (high, low) = wide::halves(wide::shl(v, 128 - bits));
    NetworkPrefix::Ipv6 {
        length: len,
        high,
        low,
    }
}

#[tactic(auto, using(crate::proofs::Addresses::offset_ipv6))]
fn ipv6_of(len: u8, off: u8, v: u128) -> NetworkPrefix
    requires { (off ≤ len) × (len ≤ 128) × (v < 2 ^ (8 * octets_of (len - off))) }
    ensures { result ≡ ipv6_prefix len off v }
{
    let n = len - off;
    let bits = 8 * octets_of(n) as u32;
    let (high, low) = wide::halves(wide::moved(v, bits - n as u32, 128 - len as u32));
    NetworkPrefix::Ipv6Offset {
        length: len,
        offset: off,
        high,
        low,
    }
}

impl Extent {
    // The prefix that the octets make, and the cursor after it. The extent was found in these octets.
    fn prefix(self, reading: Reading, s: &[u8]) -> PrefixAt
        requires { Stands reading s.now self }
        ensures { result ≡ prefix_from reading s.now self }
    {
        let Extent {
            length,
            offset,
            from,
            next,
        } = self;
        let prefix = match reading {
            Reading::Plain if length <= 32 => NetworkPrefix::Ipv4 {
                length,
                address: front_ipv4(s, from, length),
            },
            Reading::Plain => plain_of(length, octets::read_pattern(s, from, octets_of(length))),
            Reading::Ipv4 => NetworkPrefix::Ipv4 {
                length,
                address: octets::keep_ipv4(front_ipv4(s, from, length), length),
            },
            Reading::Ipv6 => ipv6_of(
                length,
                offset,
                octets::read_pattern(s, from, octets_of(length - offset)),
            ),
        };
        PrefixAt { prefix, next }
    }
}

// The prefix at a cursor where its extent was accepted before, for a second pass over the octets. No entry point.
#[tactic(auto, unfolding(crate::specs::Prefixes::prefix_at))]
pub fn prefix_in(reading: Reading, s: &[u8], c: Cursor) -> PrefixAt
    requires { is_extent (extent_at reading s.now c.at) ≡ true }
    ensures { prefix_at reading s.now c.at ≡ accepts result }
{
    extent_in(reading, s, c).prefix(reading, s)
}

// The prefix at a cursor, as the reading has it.
#[tactic(auto, unfolding(crate::specs::Prefixes::prefix_at))]
pub fn prefix_at(reading: Reading, s: &[u8], c: Cursor) -> Result<PrefixAt, Fault>
    ensures { answered result ≡ prefix_at reading s.now c.at }
{
    Ok(extent_at(reading, s, c)?.prefix(reading, s))
}

// Whether a prefix is no longer than its address. What is not, neither writing takes.
pub fn in_range(prefix: NetworkPrefix) -> bool
    ensures { result ≡ in_range prefix }
{
    match prefix {
        NetworkPrefix::Ipv4 { length, .. } | NetworkPrefix::Ipv4Offset { length, .. } => {
            length <= 32
        }
        NetworkPrefix::Ipv6 { length, .. } | NetworkPrefix::Ipv6Offset { length, .. } => {
            length <= 128
        }
    }
}

// Whether no bit of an address is set past its length.
fn clean_ipv4(len: u8, address: u32) -> bool
    ensures { result ≡ clean 32 len 0 address }
{
    octets::keep_ipv4(address, len) == address
}

// Whether no bit of an address is set but those from offset to length: nothing is left of it past the length, nor before the offset.
fn clean_ipv6(len: u8, off: u8, w: u128) -> bool
    requires { (len ≤ 128) × (off ≤ 128) }
    ensures { result ≡ clean 128 len off w }
{
    wide::shl(w, len as u32) == 0 && (off == 0 || wide::shr(w, (128 - off) as u32) == 0)
}

// Whether the standard writing of IPv6 takes an address with a length and an offset.
pub fn valid_ipv6(len: u8, off: u8, w: u128) -> bool
    ensures { result ≡ valid_ipv6 len off w }
{
    offset_fits(len, off) && clean_ipv6(len, off, w)
}

// Whether the standard writing of a family takes a prefix.
pub fn valid(family: u8, prefix: NetworkPrefix) -> bool
    ensures { result ≡ valid_in family prefix }
{
    match prefix {
        NetworkPrefix::Ipv4 { length, address } => {
            family == 4 && length <= 32 && clean_ipv4(length, address)
        }
        NetworkPrefix::Ipv6Offset {
            length,
            offset,
            high,
            low,
        } => family == 6 && valid_ipv6(length, offset, wide::joined(high, low)),
        NetworkPrefix::Ipv6 { .. } | NetworkPrefix::Ipv4Offset { .. } => false,
    }
}
