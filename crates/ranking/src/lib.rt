// Ranking: which of two rules of a family precedes (document 01, "Matching and ranking"; RFC 8955, 5.1; RFC 8956, 4).
//
// What the first of two is to the second is an `Ordering`: `Less` where it precedes, `Greater` where it follows.
//
// Nothing is written out to be compared: prefixes are compared by the bits that their addresses share, lists operator by operator where they
// stand in the lent lists, rules component by component where they stand in words. Two rules may have their operators in different lists.
//
// The functions with a `requires` are no entry points: whoever ranks rules has tested that they are rules and that their operators are within
// the lent lists.
#![tactic(auto)]

ghost use Rattle.std.specs.Prelude.{◌≡◌, true, List, ℕ, ◌+◌, ◌≤◌, min, length};
ghost use Rattle.operators.specs.Lent.{operators_of};
ghost use Rattle.operators.specs.Ops.{op, ops_in, list_octets};
ghost use Rattle.stored.specs.Pieces.{is_record, same_quad, quad_at, piece_at};
ghost use Rattle.stored.specs.Stored.{stored_at};
ghost use Rattle.ranking.specs.Ranks.{Shares, lower, leading_bits, front_of, rank_prefix, rank_octets, cut_to, rank_op, prefixed, compared, compared_list, compared_of, compared_at, rank_compared, Inside, Within, Rankable, rank_of};

use operators::{Kind, OperatorList};
use rules::NetworkPrefix;
use std::cmp::Ordering;
use stored::{Piece, View};

// A prefix as it is ranked, its address at the front of 128 bits.
#[derive(Clone, Copy)]
pub struct Front {
    pub offset: u8,
    pub length: u8,
    pub address: u128,
}

// A rule where it stands: its 64 words from a word on, and the lists that hold its operators.
#[derive(Clone, Copy)]
pub struct LentRule<'a> {
    pub words: &'a [u64],
    pub at: usize,
    pub values: &'a [u64],
    pub octets: &'a [u8],
}

// A component where it stands: its four words from a word on, and the lists that hold its operators from its rule's first place on.
#[derive(Clone, Copy)]
struct Component<'a> {
    words: &'a [u64],
    at: usize,
    values: &'a [u64],
    octets: &'a [u8],
    first: usize,
}

impl<'a> Component<'a> {
    // So many of its operators, from a place of its rule's on.
    fn operators(self, start: usize, count: usize) -> OperatorList<'a>
        requires { (self.first + start + count ≤ length self.values.now) × (self.first + start + count ≤ length self.octets.now) }
        ensures { operators_of result ≡ ops_in self.entry.values.now self.entry.octets.now (self.entry.first + start) count }
    {
        OperatorList::new(self.values, self.octets, self.first + start, count)
    }
}

// The bits that two words share from the front.
#[tactic(auto, using(crate::proofs::LeadingBits::shares))]
fn shared_half(a: u64, b: u64) -> u32
    ensures { Shares 64 a b result }
{
    u64::leading_zeros(a ^ b)
}

// The bits that two addresses share from the front.
pub fn shared_bits(a: u128, b: u128) -> u32
    ensures { Shares 128 a b result }
{
    let (a_high, a_low) = wide::halves(a);
    let (b_high, b_low) = wide::halves(b);
    if a_high == b_high {
        64 + shared_half(a_low, b_low)
    } else {
        shared_half(a_high, b_high)
    }
}

// The first n bits of two addresses: where they are not shared, the addresses are in the order of these bits.
#[tactic(auto, using(crate::proofs::LeadingBits::bits_shared))]
pub fn compare_bits(a: u128, b: u128, n: usize) -> Ordering
    ensures { result ≡ lower (leading_bits n a) (leading_bits n b) }
{
    if n <= shared_bits(a, b) as usize {
        return Ordering::Equal;
    }
    a.cmp(&b)
}

impl From<NetworkPrefix> for Front {
    ghost from_gives = { λ prefix result. result ≡ front_of prefix };

    fn from(prefix: NetworkPrefix) -> Front {
        match prefix {
            NetworkPrefix::Ipv4 { length, address } => Front {
                offset: 0,
                length,
                address: u128::from(address) << 96,
            },
            NetworkPrefix::Ipv6 { length, high, low } => Front {
                offset: 0,
                length,
                address: wide::joined(high, low),
            },
            NetworkPrefix::Ipv4Offset {
                length,
                offset,
                address,
            } => Front {
                offset,
                length,
                address: u128::from(address) << 96,
            },
            NetworkPrefix::Ipv6Offset {
                length,
                offset,
                high,
                low,
            } => Front {
                offset,
                length,
                address: wide::joined(high, low),
            },
        }
    }
}

pub fn compare_prefixes(a: NetworkPrefix, b: NetworkPrefix) -> Ordering
    ensures { result ≡ rank_prefix a b }
{
    let f = Front::from(a);
    let g = Front::from(b);
    let offset = f.offset.cmp(&g.offset);
    let n = f.length.min(g.length);
    let bits = compare_bits(f.address, g.address, n as usize);
    let longer = g.length.cmp(&f.length);
    offset.then(bits).then(longer)
}

// A value as its width holds it.
fn cut(octet: u8, value: u64) -> u64
    ensures { result ≡ cut_to octet value }
{
    let code = octet / 16 % 4;
    match code {
        0 => value % 256,
        1 => value % 65536,
        2 => value % 4294967296,
        _ => value,
    }
}

// Equal octets name equal widths, so that the values are in the order of the octets that write them.
fn compare_written(kind: Kind, octet: u8, value: u64, octet2: u8, value2: u64) -> Ordering
    ensures { result ≡ rank_op kind (op octet value) (op octet2 value2) }
{
    operators::cleared(kind, octet)
        .cmp(&operators::cleared(kind, octet2))
        .then(cut(octet, value).cmp(&cut(octet2, value2)))
}

// Operators that are the same as they stand are equal, and most that are compared are: they are passed with nothing cleared or cut.
pub fn compare_operators(kind: Kind, octet: u8, value: u64, octet2: u8, value2: u64) -> Ordering
    ensures { result ≡ rank_op kind (op octet value) (op octet2 value2) }
{
    if octet == octet2 && value == value2 {
        return Ordering::Equal;
    }
    compare_written(kind, octet, value, octet2, value2)
}

// Two lists, operator by operator; then the longer precedes.
pub fn compare_lists(kind: Kind, a: OperatorList, b: OperatorList) -> Ordering
    ensures { result ≡ rank_octets (list_octets kind (operators_of a.entry)) (list_octets kind (operators_of b.entry)) }
{
    let count = a.octets.len();
    let count2 = b.octets.len();
    for i in 0..count.min(count2) {
        let order = compare_operators(kind, a.octets[i], a.values[i], b.octets[i], b.values[i]);
        if order.is_ne() {
            return order;
        }
    }
    count2.cmp(&count)
}

// A prefix, and the piece that it is compared with.
fn prefix_against(tag: u8, prefix: NetworkPrefix, other: Piece) -> Ordering
    requires { is_record other ≡ true }
    ensures { (values octets : List ℕ) (first : ℕ) → result ≡ rank_compared (compared tag (prefixed prefix)) (compared_of values octets first other) }
{
    match other {
        Piece::Prefix {
            tag: tag2,
            prefix: prefix2,
        } => tag
            .cmp(&tag2)
            .then_with(|| compare_prefixes(prefix, prefix2)),
        Piece::Operators { tag: tag2, .. } => tag.cmp(&tag2).then(Ordering::Less),
        Piece::NoRecord => Ordering::Less,
    }
}

// A list, and the component that it is compared with.
fn list_against(tag: u8, list: OperatorList, other: Component) -> Ordering
    requires { Within other }
    ensures { result ≡ rank_compared (compared_list tag (operators_of list.entry)) (compared_at other.entry) }
{
    match stored::piece_at(other.words, other.at) {
        Piece::Operators {
            tag: tag2,
            start,
            count,
        } => match tag.cmp(&tag2) {
            Ordering::Equal => {
                compare_lists(operators::kind_of(tag), list, other.operators(start, count))
            }
            order => order,
        },
        Piece::Prefix { tag: tag2, .. } => tag.cmp(&tag2).then(Ordering::Greater),
        Piece::NoRecord => Ordering::Greater,
    }
}

// Whether the four words of two components are the same: four tests with no branch between them, where a slice's == is a loop.
fn same_words(words: &[u64], at: usize, words2: &[u64], at2: usize) -> bool
    requires { (at + 4 ≤ length words.now) × (at2 + 4 ≤ length words2.now) }
    ensures { result ≡ same_quad (quad_at words.now at) (quad_at words2.now at2) }
{
    (words[at] == words2[at2])
        & ((words[at + 1] == words2[at2 + 1])
            & ((words[at + 2] == words2[at2 + 2]) & (words[at + 3] == words2[at2 + 3])))
}

// Two components, taken apart.
fn compare_others(a: Component, b: Component) -> Ordering
    requires first { Within a }
    requires second { Within b }
    ensures { result ≡ rank_compared (compared_at a.entry) (compared_at b.entry) }
{
    match stored::piece_at(a.words, a.at) {
        Piece::Prefix { tag, prefix } => {
            prefix_against(tag, prefix, stored::piece_at(b.words, b.at))
        }
        Piece::Operators { tag, start, count } => {
            list_against(tag, a.operators(start, count), b)
        }
        Piece::NoRecord => Ordering::Equal,
    }
}

// Two components where they stand. Lists of one type and prefixes of the same words, which are equal, are most of what is compared; neither is
// taken apart. Lists of the same words are not equal by that: each counts its operators from its own rule's first place.
#[tactic(auto, using(crate::proofs::ComponentsInTurn::same_words_equal))]
fn compare_components(a: Component, b: Component) -> Ordering
    requires first { Within a }
    requires second { Within b }
    ensures { result ≡ rank_compared (compared_at a.entry) (compared_at b.entry) }
{
    match (
        stored::view_at(a.words, a.at),
        stored::view_at(b.words, b.at),
    ) {
        (
            View::List { tag, start, count },
            View::List {
                tag: tag2,
                start: start2,
                count: count2,
            },
        ) if tag == tag2 => compare_lists(
            operators::kind_of(tag),
            a.operators(start, count),
            b.operators(start2, count2),
        ),
        (View::Ipv4 { .. } | View::Ipv6 { .. } | View::Other, _)
            if same_words(a.words, a.at, b.words, b.at) => { Ordering::Equal }
        _ => compare_others(a, b),
    }
}

// Two rules, each where it stands. No entry point.
pub fn compare_rules(a: LentRule, b: LentRule) -> Ordering
    requires first { Rankable a.words.now a.at a.values.now a.octets.now }
    requires second { Rankable b.words.now b.at b.values.now b.octets.now }
    ensures { result ≡ rank_of a.entry.values.now a.entry.octets.now (stored_at a.entry.words.now a.entry.at) b.entry.values.now b.entry.octets.now (stored_at b.entry.words.now b.entry.at) }
{
    let held = stored::count_at(a.words, a.at);
    let held2 = stored::count_at(b.words, b.at);
    let first = stored::first_at(a.words, a.at);
    let first2 = stored::first_at(b.words, b.at);
    for i in 0..held.min(held2) {
        let order = compare_components(
            Component {
                words: a.words,
                at: a.at + 4 * i,
                values: a.values,
                octets: a.octets,
                first,
            },
            Component {
                words: b.words,
                at: b.at + 4 * i,
                values: b.values,
                octets: b.octets,
                first: first2,
            },
        );
        if order.is_ne() {
            return order;
        }
    }
    held2.cmp(&held)
}
