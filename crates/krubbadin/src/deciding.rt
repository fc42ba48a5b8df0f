// Rules that are stored: whether a packet satisfies one, which of two precedes, and which of many decides. A packet is 20 words.
ghost use Rattle.std.specs.Prelude.{◌≡◌};
ghost use Rattle.packets.specs.Packets.{packet_at};
ghost use Rattle.refusals.specs.Refusals.{answered};
ghost use Rattle.verdicts.specs.Verdicts.{match_verdict, rank_verdict};
ghost use Rattle.choosing.specs.Choosing.{table, chosen_in, told_chosen};
ghost use Rattle.krubbadin.specs.Deciding.{order_number, match_answer, rank_answer, choice_answer};

use crate::{KrubbadinAnswer, given};
use refusals::Fault;
use std::cmp::Ordering;

fn match_answer(r: Result<bool, Fault>) -> KrubbadinAnswer
    ensures { result ≡ match_answer (answered r) }
{
    match r {
        Ok(b) => given(u64::from(b), 0),
        Err(fault) => fault.into(),
    }
}

// Whether a packet satisfies the rule in the first 64 words.
#[unsafe(no_mangle)]
pub extern "C" fn krubbadin_match(
    words: &[u64],
    values: &[u64],
    octets: &[u8],
    packet: &[u64],
) -> KrubbadinAnswer
    ensures { result ≡ match_answer (match_verdict words.now values.now octets.now (packet_at packet.now)) }
{
    match_answer(verdicts::matches(words, values, octets, packet))
}

fn order_number(order: Ordering) -> u64
    ensures { result ≡ order_number order }
{
    match order {
        Ordering::Equal => 0,
        Ordering::Less => 1,
        Ordering::Greater => 2,
    }
}

fn rank_answer(r: Result<Ordering, Fault>) -> KrubbadinAnswer
    ensures { result ≡ rank_answer (answered r) }
{
    match r {
        Ok(order) => given(order_number(order), 0),
        Err(fault) => fault.into(),
    }
}

// Which of two rules precedes, each in the first 64 words with its operators: 0 they rank equal, 1 the first does, 2 the second.
#[unsafe(no_mangle)]
pub extern "C" fn krubbadin_rank(
    words: &[u64],
    values: &[u64],
    octets: &[u8],
    words2: &[u64],
    values2: &[u64],
    octets2: &[u8],
) -> KrubbadinAnswer
    ensures { result ≡ rank_answer (rank_verdict words.now values.now octets.now words2.now values2.now octets2.now) }
{
    rank_answer(verdicts::rank(words, values, octets, words2, values2, octets2))
}

fn choice_answer(r: Result<Option<usize>, Fault>) -> KrubbadinAnswer
    ensures { result ≡ choice_answer (told_chosen r) }
{
    match r {
        Ok(Some(place)) => given(1, place as u64),
        Ok(None) => given(0, 0),
        Err(fault) => fault.into(),
    }
}

// Which rule decides on a packet. The rules are in the words, 64 words each, and the operators of all of them in the two lists. First 1 and
// then the rule's place, or first 0 where no rule matches.
#[unsafe(no_mangle)]
pub extern "C" fn krubbadin_choose(
    words: &[u64],
    values: &[u64],
    octets: &[u8],
    packet: &[u64],
) -> KrubbadinAnswer
    ensures { result ≡ choice_answer (chosen_in (table words.now values.now octets.now) (packet_at packet.now)) }
{
    choice_answer(choosing::choose(words, values, octets, packet))
}
