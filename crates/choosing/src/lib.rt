// The chooser: which of the stored rules decides on a packet. One pass over the rules tests them and finds the answer; nothing of the table is
// copied.
//
// The functions with a `requires` are no entry points.
#![tactic(auto)]

ghost use Rattle.std.specs.Prelude.{◌≡◌, ℕ, true, [], ◌*◌, ◌≤◌, length};
ghost use Rattle.ground.specs.Picks.{pick};
ghost use Rattle.packets.specs.Packets.{packet_ok, packet_at};
ghost use Rattle.choosing.specs.Choosing.{table, formed_at, like_first, place, none, or_else, first_failing, better, choice_of, chosen_in, told_chosen, Decided};
ghost use Rattle.choosing.specs.Passes.{FoundBelow};

use ranking::LentRule;
use refusals::{Fault, FlowSpecError, OuterError};

// What the pass finds of rules that are all well-formed: the first place of another family, and the place of the rule that decides.
#[derive(Clone, Copy)]
pub struct Found {
    pub mixed: Option<usize>,
    pub best: Option<usize>,
}

// A place that was found stays; else this one, where it fails.
fn first_failing(found: Option<usize>, i: usize, same: bool) -> Option<usize>
    ensures { choice_of result ≡ or_else (choice_of found) (pick same none (place i)) }
{
    found.or(if same { None } else { Some(i) })
}

// The better of two rules. It stands by itself, so that the compiler leaves it out of the pass and keeps that short.
fn ranked(words: &[u64], values: &[u64], octets: &[u8], best: usize, i: usize) -> usize
    requires formed { formed_at (table words.now values.now octets.now) i ≡ true }
    requires best { formed_at (table words.now values.now octets.now) best ≡ true }
    ensures { place result ≡ better (table words.now values.now octets.now) (place best) i }
{
    let order = ranking::compare_rules(
        LentRule {
            words,
            at: 64 * i,
            values,
            octets,
        },
        LentRule {
            words,
            at: 64 * best,
            values,
            octets,
        },
    );
    if order.is_lt() { i } else { best }
}

// The better of the best so far and the rule at a place, where it is met.
fn better(
    words: &[u64],
    values: &[u64],
    octets: &[u8],
    best: Option<usize>,
    i: usize,
    met: bool,
) -> Option<usize>
    requires formed { formed_at (table words.now values.now octets.now) i ≡ true }
    requires best { (b : ℕ) → best ≡ Some b → formed_at (table words.now values.now octets.now) b ≡ true }
    ensures { choice_of result ≡ pick met (better (table words.now values.now octets.now) (choice_of best) i) (choice_of best) }
{
    if !met {
        return best;
    }
    match best {
        Some(best) => Some(ranked(words, values, octets, best, i)),
        None => Some(i),
    }
}

// The pass: every rule is tested, since BadRecord goes before MixedFamily.
fn find(
    words: &[u64],
    values: &[u64],
    octets: &[u8],
    packet: &[u64],
    family: u64,
    n: usize,
) -> Option<Found>
    requires packet { packet_ok (packet_at packet.now) ≡ true }
    requires place { 64 * n ≤ length words.now }
    ensures { FoundBelow (table words.now values.now octets.now) (packet_at packet.now) family n result }
{
    let mut mixed = None;
    let mut best = None;
    for i in 0..n {
        let met = verdicts::judge(words, 64 * i, values, octets, packet, true)?;
        mixed = first_failing(mixed, i, stored::family_at(words, 64 * i) == family);
        best = better(words, values, octets, best, i, met);
    }
    Some(Found { mixed, best })
}

// The first place whose rule has another distinguisher than the rule at place 0.
fn first_other(words: &[u64], n: usize) -> Option<usize>
    requires { 64 * n ≤ length words.now }
    ensures { choice_of result ≡ first_failing (like_first (table words.now [] [])) n }
{
    (0..n).find(|&i| !stored::same_distinguisher(words, 64 * i, words, 0))
}

// Of the rules in the words, 64 words each, with their operators in the two lists: the place of the one that decides on the packet, where one
// matches.
pub fn choose(
    words: &[u64],
    values: &[u64],
    octets: &[u8],
    packet: &[u64],
) -> Result<Option<usize>, Fault>
    ensures told { told_chosen result ≡ chosen_in (table words.now values.now octets.now) (packet_at packet.now) }
    ensures decides { Decided (table words.now values.now octets.now) (packet_at packet.now) (told_chosen result) }
{
    let n = words.len() / 64;
    if 64 < n {
        return Err(FlowSpecError::TooManyRules(n).into());
    }
    if !packets::check_words(packet) {
        return Err(FlowSpecError::BadPacket.into());
    }
    if words.len() % 64 != 0 {
        return Err(FlowSpecError::BadRecord.into());
    }
    let family = packets::family_of(packet);
    let Some(Found { mixed, best }) = find(words, values, octets, packet, family, n) else {
        return Err(FlowSpecError::BadRecord.into());
    };
    if let Some(i) = mixed {
        return Err(FlowSpecError::MixedFamily(i).into());
    }
    if let Some(i) = first_other(words, n) {
        return Err(FlowSpecError::Outer(OuterError::MixedDistinguisher(i)).into());
    }
    Ok(best)
}
