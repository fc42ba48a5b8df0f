// Which stored rules are well-formed, which of them a packet satisfies, and matching and ranking callable by themselves: they refuse as the
// chooser does. One walk over a rule's components tests it and matches it.
//
// The functions with a `requires` are no entry points.
#![tactic(auto)]

ghost use Rattle.std.specs.Prelude.{◌≡◌, true, false, ◌&&◌, ◌+◌, ◌≤◌, length, drop};
ghost use Rattle.stored.specs.Pieces.{piece_at};
ghost use Rattle.stored.specs.Stored.{stored_at};
ghost use Rattle.packets.specs.Packets.{packet_ok, packet_at};
ghost use Rattle.matching.specs.Rules.{rule_matches};
ghost use Rattle.measuring.specs.Bodies.{lent_of};
ghost use Rattle.measuring.specs.Weights.{weight_of, standard_weight};
ghost use Rattle.writing.specs.Writings.{body_from};
ghost use Rattle.verdicts.specs.Steps.{step_of, prefix_step, other_step};
ghost use Rattle.verdicts.specs.Verdicts.{accepted, well_formed, judged, judgement, match_verdict, rank_verdict};
ghost use Rattle.refusals.specs.Refusals.{answered};

use choices::Reading;
use measuring::Lent;
use operators::OperatorList;
use ranking::LentRule;
use refusals::{Fault, FlowSpecError, OuterError};
use rules::NetworkPrefix;
use std::cmp::Ordering;
use stored::{Piece, View};

// What a component tells, where the writing takes it: its octets; its type, and how many operators it names; and whether the packet satisfies it, as
// it does all before it.
#[derive(Clone, Copy)]
pub struct Step {
    pub octets: usize,
    pub tag: u8,
    pub operators: usize,
    pub met: bool,
}

// A list of many operators. It stands by itself, so that the compiler leaves it out of the walk and keeps that short.
fn many_weight(tag: u8, lent: Lent, start: usize, count: usize) -> Option<usize>
    requires { count ≤ 2047 }
    ensures { result ≡ standard_weight tag (lent_of lent.entry) start count }
{
    lent.standard_list(tag, start, count)
}

// How many octets a list adds to a body in a standard writing, 0 where it is not taken.
fn list_weight(
    writing: Reading,
    left: usize,
    previous: u8,
    tag: u8,
    start: usize,
    count: usize,
    lent: Lent,
) -> usize
    requires standard { writing ≡ Reading.Plain → ⊥ }
    requires left { left ≤ 2047 }
    ensures { result ≡ weight_of writing (lent_of lent.entry) left previous (Piece.Operators tag start count) }
{
    if !measuring::may_follow(writing, left, previous, tag, count) {
        return 0;
    }
    if count == 1 {
        return lent.lone_list(tag, start).unwrap_or(0);
    }
    if count == 2 {
        return lent.pair_list(tag, start).unwrap_or(0);
    }
    many_weight(tag, lent, start, count).unwrap_or(0)
}

fn list_step(
    writing: Reading,
    left: usize,
    previous: u8,
    tag: u8,
    start: usize,
    count: usize,
    lent: Lent,
    packet: &[u64],
    met: bool,
) -> Option<Step>
    requires standard { writing ≡ Reading.Plain → ⊥ }
    requires left { left ≤ 2047 }
    requires packet { met ≡ true → packet_ok (packet_at packet.now) ≡ true }
    ensures { result ≡ step_of writing (lent_of lent.entry) left previous (packet_at packet.now) met (Piece.Operators tag start count) }
{
    let n = list_weight(writing, left, previous, tag, start, count, lent);
    if n == 0 {
        return None;
    }
    let Lent {
        values,
        octets,
        first,
    } = lent;
    Some(Step {
        octets: n,
        tag,
        operators: count,
        met: met
            && matching::some_matches(
                tag,
                OperatorList::new(values, octets, first + start, count),
                packet,
            ),
    })
}

fn ipv4_step(
    writing: Reading,
    previous: u8,
    tag: u8,
    length: u8,
    address: u32,
    packet: &[u64],
    met: bool,
) -> Option<Step>
    requires { met ≡ true → packet_ok (packet_at packet.now) ≡ true }
    ensures { result ≡ prefix_step writing previous (packet_at packet.now) met tag (NetworkPrefix.Ipv4 length address) }
{
    let n = measuring::weigh_ipv4(writing, previous, tag, length, address);
    if n == 0 {
        return None;
    }
    Some(Step {
        octets: n,
        tag,
        operators: 0,
        met: met && matching::ipv4_matches(length, address, packets::address_of(packet, tag)),
    })
}

fn ipv6_step(
    writing: Reading,
    previous: u8,
    tag: u8,
    length: u8,
    offset: u8,
    high: u64,
    low: u64,
    packet: &[u64],
    met: bool,
) -> Option<Step>
    requires { met ≡ true → packet_ok (packet_at packet.now) ≡ true }
    ensures { result ≡ prefix_step writing previous (packet_at packet.now) met tag (NetworkPrefix.Ipv6Offset length offset high low) }
{
    let n = measuring::weigh_ipv6(writing, previous, tag, length, offset, high, low);
    if n == 0 {
        return None;
    }
    Some(Step {
        octets: n,
        tag,
        operators: 0,
        met: met
            && matching::ipv6_matches(
                offset,
                length,
                wide::joined(high, low),
                packets::address_of(packet, tag),
            ),
    })
}

// A prefix in a form that is not common, or no component at all.
fn other_step(
    writing: Reading,
    previous: u8,
    piece: Piece,
    packet: &[u64],
    met: bool,
) -> Option<Step>
    requires { met ≡ true → packet_ok (packet_at packet.now) ≡ true }
    ensures { result ≡ other_step writing previous (packet_at packet.now) met piece }
{
    match piece {
        Piece::Prefix { tag, prefix } => {
            let n = measuring::weigh_prefix(writing, previous, tag, prefix);
            if n == 0 {
                return None;
            }
            Some(Step {
                octets: n,
                tag,
                operators: 0,
                met: met && matching::prefix_matches(prefix, packets::address_of(packet, tag)),
            })
        }
        Piece::Operators { .. } | Piece::NoRecord => None,
    }
}

// The component at a word, with so many operators left and after a type.
#[tactic(auto, using(crate::proofs::Steps::prefix_is, crate::proofs::Steps::other_is))]
fn step_at(
    writing: Reading,
    words: &[u64],
    at: usize,
    lent: Lent,
    left: usize,
    previous: u8,
    packet: &[u64],
    met: bool,
) -> Option<Step>
    requires standard { writing ≡ Reading.Plain → ⊥ }
    requires place { (at + 4 ≤ length words.now) × (left ≤ 2047) }
    requires packet { met ≡ true → packet_ok (packet_at packet.now) ≡ true }
    ensures { result ≡ step_of writing (lent_of lent.entry) left previous (packet_at packet.now) met (piece_at words.now at) }
{
    match stored::view_at(words, at) {
        View::List { tag, start, count } => list_step(
            writing, left, previous, tag, start, count, lent, packet, met,
        ),
        View::Ipv4 {
            tag,
            length,
            address,
        } => ipv4_step(writing, previous, tag, length, address, packet, met),
        View::Ipv6 {
            tag,
            length,
            offset,
            high,
            low,
        } => ipv6_step(
            writing, previous, tag, length, offset, high, low, packet, met,
        ),
        View::Other => other_step(writing, previous, stored::piece_at(words, at), packet, met),
    }
}

// The walk, by a standard writing.
fn judge_in(
    writing: Reading,
    words: &[u64],
    base: usize,
    values: &[u64],
    octets: &[u8],
    packet: &[u64],
    ask: bool,
) -> Option<bool>
    requires standard { writing ≡ Reading.Plain → ⊥ }
    requires long { base + 64 ≤ length words.now }
    requires packet { ask ≡ true → packet_ok (packet_at packet.now) ≡ true }
    ensures { result ≡ judged (accepted (body_from writing (drop base words.now) values.now octets.now)) (ask && rule_matches values.now octets.now (packet_at packet.now) (stored_at words.now base)) }
{
    if !stored::is_framed(words, base) {
        return None;
    }
    let count = stored::count_at(words, base);
    let first = stored::first_at(words, base);
    let mut body: usize = 0;
    let mut left: usize = 2047;
    let mut previous: u8 = 0;
    let mut met = ask;
    for i in 0..count {
        let s = step_at(
            writing,
            words,
            base + 4 * i,
            Lent {
                values,
                octets,
                first,
            },
            left,
            previous,
            packet,
            met,
        )?;
        body += s.octets;
        left -= s.operators;
        previous = s.tag;
        met = s.met;
    }
    if 4087 < body && 4095 < body + measuring::front_size(writing, words, base) {
        return None;
    }
    Some(met)
}

// Of the rule that the 64 words from a word on are: whether the packet satisfies it, false where that is not asked. None where they are no rule that the
// standard writing in its own family takes; words that are not there are none. A family that is no octet may be cut to one, since words with such a
// family are no rule. No entry point.
pub fn judge(
    words: &[u64],
    at: usize,
    values: &[u64],
    octets: &[u8],
    packet: &[u64],
    ask: bool,
) -> Option<bool>
    requires { ask ≡ true → packet_ok (packet_at packet.now) ≡ true }
    ensures { result ≡ judgement words.now values.now octets.now (packet_at packet.now) ask at }
{
    if words.len().saturating_sub(at) < 64 {
        return None;
    }
    let Ok(writing) = Reading::try_from((stored::family_at(words, at) % 256) as u8) else {
        return None;
    };
    judge_in(writing, words, at, values, octets, packet, ask)
}

// Whether the 64 words from a word on are a rule that the standard writing in its own family takes.
pub fn well_formed(words: &[u64], at: usize, values: &[u64], octets: &[u8]) -> bool
    ensures { result ≡ well_formed words.now values.now octets.now at }
{
    judge(words, at, values, octets, words, false).is_some()
}

// Whether a packet satisfies the rule at the front of the words.
#[tactic(auto, unfolding(crate::specs::Verdicts::match_verdict))]
pub fn matches(words: &[u64], values: &[u64], octets: &[u8], packet: &[u64]) -> Result<bool, Fault>
    ensures { answered result ≡ match_verdict words.now values.now octets.now (packet_at packet.now) }
{
    if !packets::check_words(packet) {
        return Err(FlowSpecError::BadPacket.into());
    }
    let Some(met) = judge(words, 0, values, octets, packet, true) else {
        return Err(FlowSpecError::BadRecord.into());
    };
    if stored::family_at(words, 0) != packets::family_of(packet) {
        return Err(FlowSpecError::MixedFamily(0).into());
    }
    Ok(met)
}

// What the rule at the front of the first words is to the rule at the front of the second, each with its operators.
#[tactic(auto, unfolding(crate::specs::Verdicts::rank_verdict))]
pub fn rank(
    words: &[u64],
    values: &[u64],
    octets: &[u8],
    words2: &[u64],
    values2: &[u64],
    octets2: &[u8],
) -> Result<Ordering, Fault>
    ensures { answered result ≡ rank_verdict words.now values.now octets.now words2.now values2.now octets2.now }
{
    if !well_formed(words, 0, values, octets) {
        return Err(FlowSpecError::BadRecord.into());
    }
    if !well_formed(words2, 0, values2, octets2) {
        return Err(FlowSpecError::BadRecord.into());
    }
    if stored::family_at(words, 0) != stored::family_at(words2, 0) {
        return Err(FlowSpecError::MixedFamily(1).into());
    }
    if !stored::same_distinguisher(words2, 0, words, 0) {
        return Err(FlowSpecError::Outer(OuterError::MixedDistinguisher(1)).into());
    }
    let order = ranking::compare_rules(
        LentRule {
            words,
            at: 0,
            values,
            octets,
        },
        LentRule {
            words: words2,
            at: 0,
            values: values2,
            octets: octets2,
        },
    );
    Ok(order)
}
