// The choices by which the three readings part, and what an operator octet is to each. One walk serves all readings: it asks here.
#![tactic(auto)]

ghost use Rattle.std.specs.Prelude.{◌≡◌, ◌<◌, leb};
ghost use Rattle.refusals.specs.Refusals.{answered};
ghost use Rattle.choices.specs.Choices.{bound_of, last_type, codes_by, codes_in, limit_of, first_in, front_of, family_of, standard_of};

use operators::Kind;
use refusals::{Fault, FlowSpecError};

// The plain reading follows the Rust; the others follow RFC 8955 (IPv4) and RFC 8956 (IPv6).
#[derive(Clone, Copy)]
pub enum Reading {
    Plain,
    Ipv4,
    Ipv6,
}

// Where the octets end that the walk sees.
pub fn bound(reading: Reading, input: usize, stated: usize) -> usize
    ensures { result ≡ bound_of reading input stated }
{
    match reading {
        Reading::Plain => input,
        Reading::Ipv4 | Reading::Ipv6 => stated,
    }
}

// How many octets stand before the first component: those of a distinguisher, where one is expected. The plain reading knows none.
pub fn front(reading: Reading, distinguished: bool) -> usize
    ensures { result ≡ front_of reading distinguished }
{
    match reading {
        Reading::Plain => 0,
        Reading::Ipv4 | Reading::Ipv6 => if distinguished { 8 } else { 0 },
    }
}

// The last component type that is known.
pub fn last_type(reading: Reading) -> u8
    ensures { result ≡ last_type reading }
{
    match reading {
        Reading::Plain => 13,
        Reading::Ipv4 => 12,
        Reading::Ipv6 => 13,
    }
}

// The table of widths by type, as a bound that the codes stay below: TCP flags (9) take one octet or two, DSCP (11) and fragments (12) one.
pub fn codes_by(tag: u8) -> u8
    ensures { result ≡ codes_by tag }
{
    match tag {
        9 => 2,
        11 | 12 => 1,
        _ => 4,
    }
}

// Whether a type does not take a width code. The types below 9 and lengths (10) take all, and each takes code 0: these are told at once. No entry
// point.
pub fn wide(tag: u8, code: u8) -> bool
    requires { code < 4 }
    ensures { result ≡ leb (codes_by tag) code }
{
    if (tag < 9) | (tag == 10) | (code == 0) {
        return false;
    }
    codes_by(tag) <= code
}

// The same in a reading: the plain one takes all four codes everywhere. No entry point.
pub fn too_wide(reading: Reading, tag: u8, code: u8) -> bool
    requires { code < 4 }
    ensures { result ≡ leb (codes_in reading tag) code }
{
    match reading {
        Reading::Plain => false,
        Reading::Ipv4 | Reading::Ipv6 => wide(tag, code),
    }
}

// The reserved bits as a bound, which one test in a loop takes: an octet is refused where its low four bits reach it.
pub fn limit(reading: Reading, kind: Kind) -> u8
    ensures { result ≡ limit_of reading kind }
{
    match reading {
        Reading::Plain => match kind {
            Kind::Numeric => 8,
            Kind::Bitmask => 4,
        },
        Reading::Ipv4 | Reading::Ipv6 => 16,
    }
}

// The first operator octet of a list, as it is recorded.
pub fn first(reading: Reading, octet: u8) -> u8
    ensures { result ≡ first_in reading octet }
{
    match reading {
        Reading::Plain => octet,
        Reading::Ipv4 | Reading::Ipv6 => octet / 128 * 128 + octet % 64,
    }
}

// The standard reading, or writing, that a family names, 4 or 6: this is the one place that says which each has.
#[tactic(auto, unfolding(crate::specs::Choices::standard_of))]
impl TryFrom<u8> for Reading {
    type Error = Fault;

    ghost try_from_gives = { λ family reading. answered reading ≡ standard_of family };

    fn try_from(family: u8) -> Result<Reading, Fault> {
        match family {
            4 => Ok(Reading::Ipv4),
            6 => Ok(Reading::Ipv6),
            _ => Err(FlowSpecError::BadFamily(family).into()),
        }
    }
}

// The family that a rule bears by each reading, 0 for a plain rule.
pub fn family_of(reading: Reading) -> u8
    ensures { result ≡ family_of reading }
{
    match reading {
        Reading::Plain => 0,
        Reading::Ipv4 => 4,
        Reading::Ipv6 => 6,
    }
}
