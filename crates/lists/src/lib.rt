// One list of operators: measured in a reading's first pass, which writes nothing and answers everything, and filled in its second,
// which tests nothing again. Both go in runs of one width, by the same stride up to the list's end or to an operator that is none of the
// run's. A list of one operator whose value is one octet has a step of its own in front.
#![tactic(auto)]

ghost use Rattle.std.specs.Prelude.{◌≡◌, false, map, ◌<◌, length, get_or};
ghost use Rattle.std.proofs.lemmas.List.Edits.{sets};
ghost use Rattle.ground.specs.Answers.{accepts};
ghost use Rattle.refusals.specs.Refusals.{answered};
ghost use Rattle.octets.specs.Widths.{widths, code_in};
ghost use Rattle.choices.specs.Choices.{limit_of, refused_in, first_in};
ghost use Rattle.operators.specs.Ops.{kind_of, cleared_in, octet_of, number_of};
ghost use Rattle.lists.specs.Lists.{list_at, ops_at, recorded_ops, Accepted};
ghost use Rattle.lists.specs.Runs.{Begun, Passed, alone_at, Places, Filling, FilledBy, Stored};

use choices::Reading;
use octets::Cursor;
use operators::Kind;
use refusals::{Fault, FlowSpecError};
use std::ops::ControlFlow;

// How many operators were passed, and the place after them.
#[derive(Clone, Copy)]
pub struct Tally {
    pub count: usize,
    pub next: Cursor,
}

// On over the operators of one width that are whole and not refused: past the list's last, or up to the first that is none.
fn measure_run(s: &[u8], from: Tally, code: u8, w: usize, bound: u8) -> ControlFlow<Tally, Tally>
    requires begun { Begun s.now from.next.at from.count }
    requires code_bound { code < 4 }
    requires w_value { w ≡ get_or widths code 0 }
    ensures { Passed code bound s.now from.next.at from.count result }
{
    let mut i = from.next.at;
    let mut n = from.count;
    // No `for`: the place moves by a width.
    while i + w < s.len() {
        let octet = s[i];
        if octet / 16 % 4 != code || bound <= octet % 16 {
            break;
        }
        n += 1;
        i += w + 1;
        if 128 <= octet {
            return ControlFlow::Break(Tally {
                count: n,
                next: Cursor { at: i },
            });
        }
    }
    ControlFlow::Continue(Tally {
        count: n,
        next: Cursor { at: i },
    })
}

// Whether the operator at a place is whole, has a value of one octet, bears the end mark and has no bit that some reading reserves: nearly every list
// of one operator, whatever the reading. No entry point.
#[tactic(auto, using(crate::proofs::Runs::alone_short, crate::proofs::Runs::alone_whole))]
pub fn alone(s: &[u8], at: usize) -> bool
    requires { at < length s.now }
    ensures { result ≡ alone_at s.now at }
{
    if s.len() - at < 2 {
        return false;
    }
    (128 <= s[at]) & (s[at] / 16 % 4 == 0) & (s[at] % 16 < 4)
}

// The list at a place, in a component of the type `tag`. Its width is tested once a run; `bound` bounds its operators' low four bits.
fn measure_on(s: &[u8], at: usize, reading: Reading, tag: u8, bound: u8) -> Result<Tally, Fault>
    requires { bound ≡ limit_of reading (kind_of tag) }
    ensures { answered result ≡ list_at reading tag s.now at }
{
    let mut i = at;
    let mut n = 0;
    // No `for`: the place moves by the widths that are read.
    loop {
        if s.len() <= i {
            return Err(FlowSpecError::InsufficientData.at(s.len()));
        }
        let octet = s[i];
        let code = octet / 16 % 4;
        if choices::too_wide(reading, tag, code) {
            return Err(FlowSpecError::InvalidValueLength(code).at(i));
        }
        let w = octets::shifted(code);
        let from = i + 1;
        if s.len() - from < w {
            return Err(FlowSpecError::InsufficientData.at(s.len()));
        }
        if bound <= octet % 16 {
            return Err(FlowSpecError::InvalidOperator(octet).at(i));
        }
        let passed = Tally {
            count: n + 1,
            next: Cursor { at: from + w },
        };
        if octet >= 128 {
            return Ok(passed);
        }
        match measure_run(s, passed, code, w, bound) {
            ControlFlow::Break(end) => return Ok(end),
            ControlFlow::Continue(on) => {
                i = on.next.at;
                n = on.count;
            }
        }
    }
}

// The list from the cursor on, in a component of the type `tag`: how many operators it has, and the cursor moved past it.
#[tactic(auto, using(crate::proofs::Equations::list_missing, crate::proofs::Runs::alone_done))]
pub fn measure(c: Cursor, s: &[u8], reading: Reading, tag: u8) -> Result<Tally, Fault>
    ensures { answered result ≡ list_at reading tag s.now c.at }
{
    let at = c.at;
    if s.len() <= at {
        return Err(FlowSpecError::InsufficientData.at(s.len()));
    }
    if alone(s, at) {
        return Ok(Tally {
            count: 1,
            next: Cursor { at: at + 2 },
        });
    }
    measure_on(
        s,
        at,
        reading,
        tag,
        choices::limit(reading, operators::kind_of(tag)),
    )
}

// On over the operators of one width, each to the lent lists: past the list's last, or up to the first of another width. The width is a
// constant, so that the compiler makes a loop for each.
fn fill_run<const CODE: u8>(
    s: &[u8],
    values: &mut [u64],
    octets: &mut [u8],
    from: Tally,
    kind: Kind,
) -> ControlFlow<Tally, Tally>
    requires filling { Filling s.now from.next.at from.count (length values.old) (length octets.old) }
    requires code { CODE ≡ code_in (get_or s.now from.next.at 0) }
    ensures { FilledBy kind s.now values.old octets.old from.next.at from.count values.new octets.new result }
{
    let w = octets::stride(CODE);
    let mut i = from.next.at;
    let mut n = from.count;
    // No `for`: the place moves by a width.
    loop {
        let octet = s[i];
        if octet / 16 % 4 != CODE {
            return ControlFlow::Continue(Tally {
                count: n,
                next: Cursor { at: i },
            });
        }
        values[n] = octets::read_value(s, i + 1, CODE);
        octets[n] = operators::cleared(kind, octet);
        n += 1;
        i += w + 1;
        if 128 <= octet {
            return ControlFlow::Break(Tally {
                count: n,
                next: Cursor { at: i },
            });
        }
    }
}

// A run of the width that stands at the place.
fn fill_width(
    s: &[u8],
    values: &mut [u64],
    octets: &mut [u8],
    from: Tally,
    kind: Kind,
) -> ControlFlow<Tally, Tally>
    requires { Filling s.now from.next.at from.count (length values.old) (length octets.old) }
    ensures { FilledBy kind s.now values.old octets.old from.next.at from.count values.new octets.new result }
{
    match s[from.next.at] / 16 % 4 {
        0 => fill_run::<0>(s, values, octets, from, kind),
        1 => fill_run::<1>(s, values, octets, from, kind),
        2 => fill_run::<2>(s, values, octets, from, kind),
        _ => fill_run::<3>(s, values, octets, from, kind),
    }
}

// All operators of a list, run by run, with their reserved bits 0.
fn fill_on(s: &[u8], values: &mut [u64], octets: &mut [u8], at: usize, kind: Kind) -> Tally
    requires { Filling s.now at 0 (length values.old) (length octets.old) }
    ensures { Stored kind s.now values.old octets.old at 0 values.new octets.new result }
{
    let mut from = Tally {
        count: 0,
        next: Cursor { at },
    };
    loop {
        match fill_width(s, values, octets, from, kind) {
            ControlFlow::Break(end) => return end,
            ControlFlow::Continue(on) => from = on,
        }
    }
}

// The first octet of an accepted list, as it is recorded: in the plain reading it has no reserved bit to clear.
#[tactic(auto, using(crate::proofs::Records::plain_kept))]
fn recorded(reading: Reading, tag: u8, octet: u8) -> u8
    requires { refused_in reading (kind_of tag) octet ≡ false }
    ensures { result ≡ first_in reading (cleared_in (kind_of tag) octet) }
{
    match reading {
        Reading::Plain => octet,
        _ => choices::first(reading, operators::cleared(operators::kind_of(tag), octet)),
    }
}

// The operators of the list at a place, in a component of the type `tag`, go to the lent lists from start on, as the reading records
// them. Answers how many there are, and where the list ends. No entry point: it serves the second pass, which knows from the first that
// the list is accepted and has room.
pub fn fill(
    s: &[u8],
    at: usize,
    reading: Reading,
    tag: u8,
    values: &mut [u64],
    octets: &mut [u8],
    start: usize,
) -> Tally
    requires accepted { Accepted reading tag s.now at }
    requires places { Places start (length (ops_at s.now at)) (length values.old) (length octets.old) }
    ensures values { values.new ≡ sets values.old start (map number_of (recorded_ops reading tag (ops_at s.now at))) }
    ensures octets { octets.new ≡ sets octets.old start (map octet_of (recorded_ops reading tag (ops_at s.now at))) }
    ensures end { list_at reading tag s.now at ≡ accepts result }
{
    let octet = s[at];
    if (128 <= octet) & (octet / 16 % 4 == 0) {
        values[start] = octets::read_value(s, at + 1, 0);
        octets[start] = recorded(reading, tag, octet);
        return Tally {
            count: 1,
            next: Cursor { at: at + 2 },
        };
    }
    let t = fill_on(
        s,
        &mut values[start..],
        &mut octets[start..],
        at,
        operators::kind_of(tag),
    );
    octets[start] = choices::first(reading, octets[start]);
    t
}
