// Prefixes to octets: how many each writing takes, the plain writing (nlri.rs, encode_prefix and encode_ipv6_prefix) and the standard one.
//
// The functions with a `requires` are no entry points: a writer has tested every prefix and counted its octets before it writes the first,
// since a refusal changes nothing.
#![tactic(auto)]

ghost use Rattle.std.specs.Prelude.{◌≡◌, true, ◌+◌, ◌-◌, ◌*◌, ◌≤◌, length};
ghost use Rattle.std.proofs.lemmas.List.Edits.{sets};
ghost use Rattle.prefixes.specs.Prefixes.{octets_of};
ghost use Rattle.prefixes.specs.Forms.{in_range};
ghost use Rattle.prefixwriting.specs.Writings.{front_octets, offset_octets, plain_octets, octets_in_plain, standard_octets, octets_in_standard, standard_range};

use rules::NetworkPrefix;

// How many octets the plain writing of a prefix takes.
pub fn octets_in_plain(prefix: NetworkPrefix) -> usize
    ensures { result ≡ octets_in_plain prefix }
{
    match prefix {
        NetworkPrefix::Ipv4 { length, .. } | NetworkPrefix::Ipv6 { length, .. } => {
            1 + prefixes::octets_of(length)
        }
        NetworkPrefix::Ipv4Offset { .. } => 2,
        NetworkPrefix::Ipv6Offset { length, .. } => 2 + prefixes::octets_of(length),
    }
}

// How many octets the standard writing of a prefix takes; 0 for the forms that it refuses.
pub fn octets_in_standard(prefix: NetworkPrefix) -> usize
    ensures { result ≡ octets_in_standard prefix }
{
    match prefix {
        NetworkPrefix::Ipv4 { length, .. } => 1 + prefixes::octets_of(length),
        NetworkPrefix::Ipv6Offset { length, offset, .. } => {
            2 + prefixes::octets_of(length.saturating_sub(offset))
        }
        NetworkPrefix::Ipv6 { .. } | NetworkPrefix::Ipv4Offset { .. } => 0,
    }
}

// The octets that hold the first bits of an address of so many.
fn put_front(out: &mut [u8], at: usize, width: u32, len: u8, w: u128)
    requires { (len ≤ 128) × (8 * octets_of len ≤ width) × (at + octets_of len ≤ length out.old) }
    ensures { out.new ≡ sets out.old at (front_octets width len w) }
{
    let k = prefixes::octets_of(len);
    octets::write_pattern(out, at, k, wide::shr(w, width - 8 * k as u32));
}

// Those that hold the address bits from offset to length.
fn put_bits(out: &mut [u8], at: usize, len: u8, off: u8, w: u128)
    requires { (off ≤ len) × (len ≤ 128) × (at + octets_of (len - off) ≤ length out.old) }
    ensures { out.new ≡ sets out.old at (offset_octets len off w) }
{
    let n = len - off;
    let k = prefixes::octets_of(n);
    let v = wide::moved(w, 128 - len as u32, 8 * k as u32 - n as u32);
    octets::write_pattern(out, at, k, v);
}

// The plain writing of a prefix that is no longer than its address, where there is room. No entry point.
pub fn put_plain(prefix: NetworkPrefix, out: &mut [u8], at: usize)
    requires { (in_range prefix ≡ true) × (at + octets_in_plain prefix ≤ length out.old) }
    ensures { out.new ≡ sets out.old at (plain_octets prefix) }
{
    match prefix {
        NetworkPrefix::Ipv4 { length, address } => {
            out[at] = length;
            put_front(out, at + 1, 32, length, u128::from(address));
        }
        NetworkPrefix::Ipv6 { length, high, low } => {
            out[at] = length;
            put_front(out, at + 1, 128, length, wide::joined(high, low));
        }
        NetworkPrefix::Ipv4Offset { length, offset, .. } => {
            out[at] = length;
            out[at + 1] = offset;
        }
        NetworkPrefix::Ipv6Offset {
            length,
            offset,
            high,
            low,
        } => {
            out[at] = length;
            out[at + 1] = offset;
            put_front(out, at + 2, 128, length, wide::joined(high, low));
        }
    }
}

// The standard writing of a prefix that is valid in its family, where there is room. No entry point.
pub fn put_standard(prefix: NetworkPrefix, out: &mut [u8], at: usize)
    requires { (standard_range prefix ≡ true) × (at + octets_in_standard prefix ≤ length out.old) }
    ensures { out.new ≡ sets out.old at (standard_octets prefix) }
{
    match prefix {
        NetworkPrefix::Ipv4 { length, address } => {
            out[at] = length;
            put_front(out, at + 1, 32, length, u128::from(address));
        }
        NetworkPrefix::Ipv6Offset {
            length,
            offset,
            high,
            low,
        } => {
            out[at] = length;
            out[at + 1] = offset;
            put_bits(out, at + 2, length, offset, wide::joined(high, low));
        }
        NetworkPrefix::Ipv6 { .. } | NetworkPrefix::Ipv4Offset { .. } => {}
    }
}
