// The component walk: one component at a cursor, then all of them, by each of the three readings. Nothing is written: a walk answers how
// many operators there are, or its first fault. In the Rust it is nlri.rs, parse_component and the loop that calls it.
#![tactic(auto)]

ghost use Rattle.std.specs.Prelude.{◌≡◌, ℕ, ◌+◌, ◌≤◌, ◌<◌, length, get_or, IfSome};
ghost use Rattle.refusals.specs.Refusals.{answered};
ghost use Rattle.prefixes.specs.Prefixes.{octets_of};
ghost use Rattle.walk.specs.Turns.{Walking, Prefixed};
ghost use Rattle.walk.specs.Walks.{component_at, seen, walk_at, counted};

use choices::Reading;
use lists::Tally;
use octets::Cursor;
use refusals::{Fault, FlowSpecError};

// The component at a cursor, after one of the type `previous`: how many operators it has, and the cursor moved past it. The answer is the same wherever
// its operators are to start.
#[tactic(auto, using(crate::proofs::Ways::found_missing, crate::proofs::Ways::found_order, crate::proofs::Ways::found_type, crate::proofs::Ways::list_seen))]
pub fn component_at(reading: Reading, s: &[u8], c: Cursor, previous: u8) -> Result<Tally, Fault>
    ensures { (start : ℕ) → answered result ≡ seen (component_at reading s.now c.at previous start) }
{
    let at = c.at;
    if s.len() <= at {
        return Err(FlowSpecError::InsufficientData.at(s.len()));
    }
    let tag = s[at];
    if tag <= previous {
        let error = FlowSpecError::InvalidComponentOrder {
            expected_greater_than: previous,
            found: tag,
        };
        return Err(error.at(at));
    }
    if choices::last_type(reading) < tag {
        return Err(FlowSpecError::InvalidComponentType(tag).at(at));
    }
    let body = Cursor { at: at + 1 };
    if tag <= 2 {
        let extent = prefixes::extent_at(reading, s, body)?;
        return Ok(Tally {
            count: 0,
            next: extent.next,
        });
    }
    lists::measure(body, s, reading, tag)
}

// How far components are passed: the place after them, the last type, and the operators so far.
#[derive(Clone, Copy)]
pub struct Passed {
    pub at: usize,
    pub previous: u8,
    pub operators: usize,
}

// How many octets a prefix of up to 32 bits takes with its length octet, where they are all there.
fn short_octets(s: &[u8], at: usize) -> Option<usize>
    requires { at < length s.now }
    ensures { IfSome result (λ n. (get_or s.now at 0 ≤ 32) × ((n ≡ 1 + octets_of (get_or s.now at 0)) × (at + n ≤ length s.now))) }
{
    let len = s[at];
    if 32 < len {
        return None;
    }
    let k = prefixes::octets_of(len);
    if s.len() - at <= k {
        return None;
    }
    Some(1 + k)
}

// The same where the reading has prefixes without an offset.
fn short_prefix(reading: Reading, s: &[u8], at: usize) -> Option<usize>
    requires { at < length s.now }
    ensures { IfSome result (λ n. Prefixed reading s.now at n) }
{
    match reading {
        Reading::Plain | Reading::Ipv4 => short_octets(s, at),
        Reading::Ipv6 => None,
    }
}

// On over the common components: a prefix of up to 32 bits, and a list of one operator which stands alone.
fn pass_common(reading: Reading, s: &[u8], stop: usize, from: Passed) -> Passed
    requires { Walking reading s.now stop from.at from.previous from.operators }
    ensures walking { Walking reading s.now stop result.at result.previous result.operators }
    ensures rises { from.previous ≤ result.previous }
{
    let mut passed = from;
    // No `for`: the place moves by what is read.
    while passed.at < stop {
        let at = passed.at;
        if s.len() - at < 3 {
            break;
        }
        let found = s[at];
        if found <= passed.previous {
            break;
        }
        if found < 3 {
            let Some(k) = short_prefix(reading, s, at + 1) else {
                break;
            };
            passed = Passed {
                at: at + 1 + k,
                previous: found,
                operators: passed.operators,
            };
        } else {
            if choices::last_type(reading) < found {
                break;
            }
            if !lists::alone(s, at + 1) {
                break;
            }
            passed = Passed {
                at: at + 3,
                previous: found,
                operators: passed.operators + 1,
            };
        }
    }
    passed
}

// The components of a body, which start before `stop`, and a last one may go on past it where the octets do: how many operators they have.
pub fn walk(reading: Reading, s: &[u8], stop: usize) -> Result<usize, Fault>
    ensures { answered result ≡ counted (walk_at reading s.now stop) }
{
    let mut passed = Passed {
        at: 0,
        previous: 0,
        operators: 0,
    };
    // No `for`: the place moves by what is read.
    loop {
        let here = pass_common(reading, s, stop, passed);
        let at = here.at;
        if stop <= at {
            return Ok(here.operators);
        }
        let Tally { count, next } = component_at(reading, s, Cursor { at }, here.previous)?;
        passed = Passed {
            at: next.at,
            previous: s[at],
            operators: here.operators + count,
        };
    }
}
