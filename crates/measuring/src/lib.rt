// Which components each writing takes, and how many octets a body of them is: the first walk over a stored rule. It writes nothing and
// answers everything, so that a refusal changes nothing. One walk serves all writings; `Reading` says which it is.
//
// The functions with a `requires` are no entry points: `writing` has tested what they ask.
#![tactic(auto)]

ghost use Rattle.std.specs.Prelude.{◌≡◌, true, ◌&&◌, leb, ◌+◌, ◌*◌, ◌<◌, ◌≤◌, length};
ghost use Rattle.refusals.specs.Refusals.{answered};
ghost use Rattle.stored.specs.Pieces.{piece_at};
ghost use Rattle.stored.specs.Distinguishers.{distinguisher_at};
ghost use Rattle.stored.specs.Stored.{pieces_from};
ghost use Rattle.stored.specs.Views.{NoList};
ghost use Rattle.measuring.specs.Bodies.{lent_of, prefix_octets, front_in, distinguisher_octets};
ghost use Rattle.measuring.specs.Grounds.{inside_of, prefix_taken, rises_in, body_of, counted};
ghost use Rattle.measuring.specs.Weights.{weight_of, prefix_weight, plain_weight, standard_weight, other_weight, weighing};

use choices::Reading;
use refusals::{Fault, FlowSpecError};
use rules::NetworkPrefix;
use stored::{Piece, View};

// The lent lists, and the place in them where the rule's operators begin.
#[derive(Clone, Copy)]
pub struct Lent<'a> {
    pub values: &'a [u64],
    pub octets: &'a [u8],
    pub first: usize,
}

// What a component adds to a body: its octets, 0 where the writing does not take it; its type, and how many operators it names.
#[derive(Clone, Copy)]
pub struct Weight {
    pub octets: usize,
    pub tag: u8,
    pub operators: usize,
}

// Whether a type may follow another.
fn rises(writing: Reading, previous: u8, tag: u8) -> bool
    ensures { result ≡ rises_in writing previous tag }
{
    match writing {
        Reading::Plain => true,
        Reading::Ipv4 => previous < tag && tag <= 12,
        Reading::Ipv6 => previous < tag && tag <= 13,
    }
}

fn prefix_taken(writing: Reading, prefix: NetworkPrefix) -> bool
    ensures { result ≡ prefix_taken writing prefix }
{
    match writing {
        Reading::Plain => prefixes::in_range(prefix),
        Reading::Ipv4 => prefixes::valid(4, prefix),
        Reading::Ipv6 => prefixes::valid(6, prefix),
    }
}

// How many octets a prefix takes.
#[tactic(auto, using(prefixwriting::proofs::Puts::length_plain, prefixwriting::proofs::Puts::length_standard))]
pub fn prefix_size(writing: Reading, prefix: NetworkPrefix) -> usize
    ensures { result ≡ length (prefix_octets writing prefix) }
{
    match writing {
        Reading::Plain => prefixwriting::octets_in_plain(prefix),
        Reading::Ipv4 | Reading::Ipv6 => prefixwriting::octets_in_standard(prefix),
    }
}

// Whether so many places from a place on lie below a bound. Nothing is added: a sum that no word holds lies below none.
fn lies_below(bound: usize, first: usize, start: usize, count: usize) -> bool
    ensures { result ≡ leb (first + start + count) bound }
{
    count <= bound && start <= bound - count && first <= bound - count - start
}

impl<'a> Lent<'a> {
    // "unequal lists count as the shorter"
    fn inside(self, start: usize, count: usize) -> bool
        requires { 0 < count }
        ensures { result ≡ inside_of (lent_of self.entry) start count }
    {
        lies_below(
            self.values.len().min(self.octets.len()),
            self.first,
            start,
            count,
        )
    }

    // What a list adds to a body, by the writing. A list that is not empty is measured where it lies within the lent lists.
    #[tactic(auto, unfolding(crate::specs::Weights::plain_weight, listwriting::specs::Lists::size_in), using(listwriting::proofs::Sizes::size_most))]
    fn plain_list(self, start: usize, count: usize) -> usize
        requires { count ≤ 2047 }
        ensures { result ≡ plain_weight (lent_of self.entry) start count }
    {
        if count == 0 {
            return 1;
        }
        if !self.inside(start, count) {
            return 0;
        }
        1 + listwriting::size(self.octets, self.first + start, count)
    }

    // In the standard writing, where it is taken: a list of one operator.
    #[tactic(auto, unfolding(crate::specs::Weights::standard_weight))]
    pub fn lone_list(self, tag: u8, start: usize) -> Option<usize>
        ensures { result ≡ standard_weight tag (lent_of self.entry) start 1 }
    {
        if !self.inside(start, 1) {
            return None;
        }
        let at = self.first + start;
        listwriting::one_size(tag, self.octets[at], self.values[at])
    }

    // And a list of two.
    #[tactic(auto, unfolding(crate::specs::Weights::standard_weight))]
    pub fn pair_list(self, tag: u8, start: usize) -> Option<usize>
        ensures { result ≡ standard_weight tag (lent_of self.entry) start 2 }
    {
        if !self.inside(start, 2) {
            return None;
        }
        let Lent {
            values,
            octets,
            first,
        } = self;
        let at = first + start;
        listwriting::pair_size(tag, octets[at], values[at], octets[at + 1], values[at + 1])
    }

    // And any list. No entry point.
    #[tactic(auto, unfolding(crate::specs::Weights::standard_weight, listwriting::specs::Lists::taken_size))]
    pub fn standard_list(self, tag: u8, start: usize, count: usize) -> Option<usize>
        requires { count ≤ 2047 }
        ensures { result ≡ standard_weight tag (lent_of self.entry) start count }
    {
        if count == 0 || !self.inside(start, count) {
            return None;
        }
        let n = listwriting::taken_size(tag, self.values, self.octets, self.first + start, count)?;
        Some(1 + n)
    }
}

// Whether a component of so many operators may follow a type, with so many left.
pub fn may_follow(writing: Reading, left: usize, previous: u8, tag: u8, count: usize) -> bool
    ensures { result ≡ (leb count left && rises_in writing previous tag) }
{
    count <= left && rises(writing, previous, tag)
}

#[tactic(auto, using(crate::proofs::Weights::weight_list_not, crate::proofs::Weights::weight_standard, crate::proofs::Weights::weight_plain))]
fn weigh_list(
    writing: Reading,
    lent: Lent,
    left: usize,
    previous: u8,
    tag: u8,
    start: usize,
    count: usize,
) -> usize
    requires { left ≤ 2047 }
    ensures { result ≡ weight_of writing (lent_of lent.entry) left previous (Piece.Operators tag start count) }
{
    if !may_follow(writing, left, previous, tag, count) {
        return 0;
    }
    match writing {
        Reading::Plain => lent.plain_list(start, count),
        _ if count == 1 => lent.lone_list(tag, start).unwrap_or(0),
        _ => lent.standard_list(tag, start, count).unwrap_or(0),
    }
}

// What a prefix adds to a body, after a type: any prefix, and the two forms that are common.
#[tactic(auto, unfolding(crate::specs::Weights::prefix_weight), using(crate::proofs::Weights::prefix_most))]
pub fn weigh_prefix(writing: Reading, previous: u8, tag: u8, prefix: NetworkPrefix) -> usize
    ensures { result ≡ prefix_weight writing previous tag prefix }
{
    if prefix_taken(writing, prefix) && rises(writing, previous, tag) {
        return 1 + prefix_size(writing, prefix);
    }
    0
}

#[tactic(auto, unfolding(crate::specs::Weights::prefix_weight))]
pub fn weigh_ipv4(writing: Reading, previous: u8, tag: u8, len: u8, address: u32) -> usize
    ensures { result ≡ prefix_weight writing previous tag (NetworkPrefix.Ipv4 len address) }
{
    if 32 < len || !rises(writing, previous, tag) {
        return 0;
    }
    match writing {
        Reading::Plain => 2 + prefixes::octets_of(len),
        Reading::Ipv4 if octets::keep_ipv4(address, len) == address => 2 + prefixes::octets_of(len),
        Reading::Ipv4 | Reading::Ipv6 => 0,
    }
}

// The same of an IPv6 prefix with an offset. Its one caller is the walk that chooses, so that the compiler makes one function of both.
#[tactic(auto, unfolding(crate::specs::Weights::prefix_weight))]
pub fn weigh_ipv6(
    writing: Reading,
    previous: u8,
    tag: u8,
    len: u8,
    off: u8,
    high: u64,
    low: u64,
) -> usize
    ensures { result ≡ prefix_weight writing previous tag (NetworkPrefix.Ipv6Offset len off high low) }
{
    if !rises(writing, previous, tag) {
        return 0;
    }
    match writing {
        Reading::Plain if len <= 128 => 3 + prefixes::octets_of(len),
        Reading::Ipv6 if prefixes::valid_ipv6(len, off, wide::joined(high, low)) => {
            3 + prefixes::octets_of(len - off)
        }
        _ => 0,
    }
}

// A component that is no list.
fn weigh_other(writing: Reading, previous: u8, piece: Piece) -> Weight
    requires { NoList piece }
    ensures { result ≡ weighing (other_weight writing previous piece) piece }
{
    match piece {
        Piece::Prefix { tag, prefix } => Weight {
            octets: weigh_prefix(writing, previous, tag, prefix),
            tag,
            operators: 0,
        },
        _ => Weight {
            octets: 0,
            tag: 0,
            operators: 0,
        },
    }
}

// The component at a word, with so many operators left and after a type.
#[tactic(auto, using(crate::proofs::Weights::weight_prefix, crate::proofs::Weights::weight_other))]
fn weigh_at(
    writing: Reading,
    words: &[u64],
    at: usize,
    lent: Lent,
    left: usize,
    previous: u8,
) -> Weight
    requires { (at + 4 ≤ length words.now) × (left ≤ 2047) }
    ensures { result ≡ weighing (weight_of writing (lent_of lent.entry) left previous (piece_at words.now at)) (piece_at words.now at) }
{
    match stored::view_at(words, at) {
        View::List { tag, start, count } => Weight {
            octets: weigh_list(writing, lent, left, previous, tag, start, count),
            tag,
            operators: count,
        },
        View::Ipv4 {
            tag,
            length,
            address,
        } => Weight {
            octets: weigh_ipv4(writing, previous, tag, length, address),
            tag,
            operators: 0,
        },
        View::Ipv6 {
            tag,
            length,
            offset,
            high,
            low,
        } => Weight {
            octets: weigh_prefix(
                writing,
                previous,
                tag,
                NetworkPrefix::Ipv6Offset {
                    length,
                    offset,
                    high,
                    low,
                },
            ),
            tag,
            operators: 0,
        },
        View::Other => weigh_other(writing, previous, stored::piece_at(words, at)),
    }
}

// The distinguisher that a writing puts before the components of the rule from a word on: the plain one does not look at it. No entry point.
pub fn front_of(writing: Reading, words: &[u64], base: usize) -> Option<u64>
    requires { base + 64 ≤ length words.now }
    ensures { result ≡ front_in writing (distinguisher_at words.now base) }
{
    match writing {
        Reading::Plain => None,
        Reading::Ipv4 | Reading::Ipv6 => stored::distinguisher_at(words, base),
    }
}

// How many octets that is. No entry point.
pub fn front_size(writing: Reading, words: &[u64], base: usize) -> usize
    requires { base + 64 ≤ length words.now }
    ensures { result ≡ length (distinguisher_octets writing (distinguisher_at words.now base)) }
{
    match front_of(writing, words, base) {
        None => 0,
        Some(_) => 8,
    }
}

// The first walk, over the distinguisher and so many components at the front of the words: how many octets a body takes, or why there is none,
// BadRecord or ValueTooLarge. No entry point.
pub fn measure_body(
    writing: Reading,
    words: &[u64],
    count: usize,
    lent: Lent,
) -> Result<usize, Fault>
    requires { (count ≤ 13) × (64 ≤ length words.now) }
    ensures { answered result ≡ counted (body_of writing (lent_of lent.entry) (distinguisher_at words.now 0) (pieces_from count words.now 0)) }
{
    let mut body = front_size(writing, words, 0);
    let mut left: usize = 2047;
    let mut previous: u8 = 0;
    for i in 0..count {
        let w = weigh_at(writing, words, 4 * i, lent, left, previous);
        if w.octets == 0 {
            return Err(FlowSpecError::BadRecord.into());
        }
        body += w.octets;
        left -= w.operators;
        previous = w.tag;
    }
    if 4095 < body {
        return Err(FlowSpecError::ValueTooLarge(body).into());
    }
    Ok(body)
}
