// One list of operators, to octets: how many they are, whether the standard writing takes the list, and the list written. In the Rust it
// is nlri.rs, encode_numeric_operators and encode_bitmask_operators.
//
// The functions with a `requires` are no entry points: a writer has tested that the list lies within the lent lists and that there is
// room before it writes the first octet, since a refusal changes nothing.
#![tactic(auto)]

ghost use Rattle.std.specs.Prelude.{◌≡◌, true, ◌+◌, ◌-◌, ◌*◌, ◌<◌, ◌≤◌, length, get_or};
ghost use Rattle.std.proofs.lemmas.List.Edits.{sets};
ghost use Rattle.octets.specs.Widths.{widths, code_in};
ghost use Rattle.operators.specs.Ops.{ops_in, list_octets};
ghost use Rattle.listwriting.specs.Lists.{size_in, one_size, pair_size, taken_size};
ghost use Rattle.listwriting.specs.Runs.{narrow_in, beyond, Put, Alike, Joined, Adds, nothing};

use operators::Kind;

// By the width's code: the bits that no value of the width has, and the octets that an operator of the width takes. Tables, since in a loop
// over mixed widths a match costs a jump.
const BEYOND: [u64; 4] = [
    0xFFFFFFFFFFFFFF00,
    0xFFFFFFFFFFFF0000,
    0xFFFFFFFF00000000,
    0,
];

const TAKES: [usize; 4] = [2, 3, 5, 9];

// The first table for one operator, where copying it costs more than the match.
fn bits_beyond(code: u8) -> u64
    requires { code < 4 }
    ensures { result ≡ get_or beyond code 0 }
{
    match code {
        0 => 0xFFFFFFFFFFFFFF00,
        1 => 0xFFFFFFFFFFFF0000,
        2 => 0xFFFFFFFF00000000,
        _ => 0,
    }
}

// How many octets write the operators at so many places. No entry point.
pub fn size(octets: &[u8], from: usize, count: usize) -> usize
    requires { (from + count ≤ length octets.now) × (count ≤ 2047) }
    ensures { result ≡ size_in octets.now from count }
{
    if count == 1 {
        return 1 + octets::stride(octets[from] / 16 % 4);
    }
    let mut n = count;
    for q in from..from + count {
        n += octets::stride(octets[q] / 16 % 4);
    }
    n
}

// What is joined over operators: the bits of their values past their widths, all bits of their octets, and how many octets write them. It is
// tested once, after the last: a loop with no way out and no test costs less than one that stops early.
#[derive(Clone, Copy)]
pub struct Sum {
    pub over: u64,
    pub marks: u8,
    pub size: usize,
}

// The operators of a list from one place up to another.
// No `OperatorList`: blocks and runs are places of one list, and a slice of each would be no plainer, with two lengths to carry along.
#[derive(Clone, Copy)]
struct Ops<'a> {
    values: &'a [u64],
    octets: &'a [u8],
    from: usize,
    to: usize,
    ghost order: { from ≤ to },
    ghost in_values: { to ≤ length values.now },
    ghost in_octets: { to ≤ length octets.now },
}

// Operators one by one. The tables are copied once, not on every turn. 2,047 operators take 18,423 octets at most.
fn add_each(ops: Ops, sum: Sum) -> Sum
    requires few { sum.size + 9 * (ops.to - ops.from) ≤ 18423 }
    ensures { Adds ops.entry.values.now ops.entry.octets.now ops.entry.from ops.entry.to sum result }
{
    let Ops {
        values,
        octets,
        from,
        to,
    } = ops;
    let Sum {
        mut over,
        mut marks,
        mut size,
    } = sum;
    let past = BEYOND;
    let takes = TAKES;
    for q in from..to {
        let octet = octets[q];
        let code = (octet / 16 % 4) as usize;
        over |= values[q] & past[code];
        marks |= octet;
        size += takes[code];
    }
    Sum { over, marks, size }
}

// Whether 16 operators have one width and no end mark. With a constant number of turns and no way out, it is one step.
fn alike(octets: &[u8], from: usize, code: u8) -> bool
    requires { from + 16 ≤ length octets.now }
    ensures { result ≡ true → Alike octets.now code from (from + 16) }
{
    let mut same = true;
    for k in 0..16 {
        same &= (octets[from + k] / 16 % 4 == code) & (octets[from + k] < 128);
    }
    same
}

// All bits of 16 values.
fn joined(values: &[u64], from: usize) -> u64
    requires { from + 16 ≤ length values.now }
    ensures { Joined values.now from (from + 16) result }
{
    let mut all = 0;
    for k in 0..16 {
        all |= values[from + k];
    }
    all
}

// 16 operators: those that are alike at once, others one by one. Two places are looked at first, since a list of mixed widths mostly shows
// there.
fn add_block(ops: Ops, sum: Sum) -> Sum
    requires block { ops.to ≡ ops.from + 16 }
    requires few { sum.size + 9 * (ops.to - ops.from) ≤ 18423 }
    ensures { Adds ops.entry.values.now ops.entry.octets.now ops.entry.from ops.entry.to sum result }
{
    let Ops {
        values,
        octets,
        from,
        ..
    } = ops;
    let code = octets[from] / 16 % 4;
    if (octets[from + 5] / 16 % 4 == code)
        & (octets[from + 10] / 16 % 4 == code)
        & alike(octets, from, code)
    {
        return Sum {
            over: sum.over | (joined(values, from) & BEYOND[code as usize]),
            marks: sum.marks,
            size: sum.size + 16 * TAKES[code as usize],
        };
    }
    add_each(ops, sum)
}

// Few operators one by one; many in blocks, and the rest one by one.
fn add_all(ops: Ops) -> Sum
    requires { ops.to - ops.from ≤ 2046 }
    ensures { Adds ops.entry.values.now ops.entry.octets.now ops.entry.from ops.entry.to nothing result }
{
    let Ops {
        values,
        octets,
        from,
        to,
    } = ops;
    let mut sum = Sum {
        over: 0,
        marks: 0,
        size: 0,
    };
    if to - from < 16 {
        return add_each(ops, sum);
    }
    let blocks = (to - from) / 16;
    for block in 0..blocks {
        let q = from + 16 * block;
        sum = add_block(
            Ops {
                values,
                octets,
                from: q,
                to: q + 16,
            },
            sum,
        );
    }
    add_each(
        Ops {
            values,
            octets,
            from: from + 16 * blocks,
            to,
        },
        sum,
    )
}

// In the standard writing: the octets of a component that is a type and one operator, where the list is taken. A
// width that the type `tag` does not take is tested last: it is rare.
pub fn one_size(tag: u8, octet: u8, value: u64) -> Option<usize>
    ensures { result ≡ one_size tag octet value }
{
    let code = octet / 16 % 4;
    if (octet / 64 != 2) | (value & bits_beyond(code) != 0) {
        return None;
    }
    if choices::wide(tag, code) {
        return None;
    }
    Some(2 + octets::stride(code))
}

// The same of a type and two operators, which a range of numbers is. The bound on codes is a power of two, so that both are below it where
// their bits joined are.
pub fn pair_size(tag: u8, octet: u8, value: u64, octet2: u8, value2: u64) -> Option<usize>
    ensures { result ≡ pair_size tag octet value octet2 value2 }
{
    let code = octet / 16 % 4;
    let code2 = octet2 / 16 % 4;
    let over = (value & bits_beyond(code)) | (value2 & bits_beyond(code2));
    if (octet / 64 == 0) & (128 <= octet2) & (over == 0) {
        if choices::wide(tag, code | code2) {
            return None;
        }
        return Some(3 + octets::stride(code) + octets::stride(code2));
    }
    None
}

// Whether the width codes of the operators at so many places stay below a bound. All are below 4.
fn narrow(codes: u8, octets: &[u8], from: usize, count: usize) -> bool
    requires { from + count ≤ length octets.now }
    ensures { result ≡ narrow_in codes octets.now from count }
{
    if 4 <= codes {
        return true;
    }
    let mut all = true;
    for q in from..from + count {
        all &= octets[q] / 16 % 4 < codes;
    }
    all
}

// In the standard writing: the octets of the operators at so many places, where the list is taken. No entry point.
pub fn taken_size(
    tag: u8,
    values: &[u64],
    octets: &[u8],
    from: usize,
    count: usize,
) -> Option<usize>
    requires { (from + count ≤ length values.now) × (from + count ≤ length octets.now) × (0 < count) × (count ≤ 2047) }
    ensures { result ≡ taken_size tag values.now octets.now from count }
{
    if octets[from] % 128 / 64 == 1 {
        return None;
    }
    if !narrow(choices::codes_by(tag), octets, from, count) {
        return None;
    }
    let last = from + count - 1;
    let sum = add_all(Ops {
        values,
        octets,
        from,
        to: last,
    });
    let octet = octets[last];
    let code = octet / 16 % 4;
    let over = sum.over | (values[last] & bits_beyond(code));
    if (over == 0) & (sum.marks < 128) & (128 <= octet) {
        return Some(sum.size + 1 + octets::stride(code));
    }
    None
}

// How far a list is written: the place of the next operator and that of the next octet.
#[derive(Clone, Copy)]
pub struct Reached {
    pub next: usize,
    pub at: usize,
}

// Operators of one width, up to the first of another. The width is a constant, so that the loop makes no choice.
fn put_run<const CODE: u8>(kind: Kind, ops: Ops, out: &mut [u8], at: usize) -> Reached
    requires some { ops.from < ops.to }
    requires code { code_in (get_or ops.octets.now ops.from 0) ≡ CODE }
    requires room { at + size_in ops.octets.now ops.from (ops.to - ops.from) ≤ length out.old }
    ensures ran { Put kind ops.entry.values.now ops.entry.octets.now ops.entry.from ops.entry.to at out.old out.new result.next result.at }
    ensures more { ops.entry.from < result.next }
{
    let width = octets::stride(CODE);
    let mut at = at;
    let mut next = ops.from;
    // No `for`: it ends at a place that is answered.
    loop {
        out[at] = operators::cleared(kind, ops.octets[next]);
        octets::write_value(out, at + 1, CODE, ops.values[next]);
        at += 1 + width;
        next += 1;
        if ops.to <= next || ops.octets[next] / 16 % 4 != CODE {
            return Reached { next, at };
        }
    }
}

fn put_same(kind: Kind, ops: Ops, out: &mut [u8], at: usize) -> Reached
    requires some { ops.from < ops.to }
    requires room { at + size_in ops.octets.now ops.from (ops.to - ops.from) ≤ length out.old }
    ensures ran { Put kind ops.entry.values.now ops.entry.octets.now ops.entry.from ops.entry.to at out.old out.new result.next result.at }
    ensures more { ops.entry.from < result.next }
{
    match ops.octets[ops.from] / 16 % 4 {
        0 => put_run::<0>(kind, ops, out, at),
        1 => put_run::<1>(kind, ops, out, at),
        2 => put_run::<2>(kind, ops, out, at),
        _ => put_run::<3>(kind, ops, out, at),
    }
}

// The operators at so many places, and the place after their octets. No entry point.
pub fn put_list(
    kind: Kind,
    values: &[u64],
    octets: &[u8],
    from: usize,
    count: usize,
    out: &mut [u8],
    at: usize,
) -> usize
    requires lists { (from + count ≤ length values.now) × (from + count ≤ length octets.now) }
    requires room { at + size_in octets.now from count ≤ length out.old }
    ensures next { result ≡ at + size_in octets.now from count }
    ensures octets { out.new ≡ sets out.old at (list_octets kind (ops_in values.now octets.now from count)) }
{
    if count == 1 && octets[from] / 16 % 4 == 0 {
        out[at] = operators::cleared(kind, octets[from]);
        octets::write_value(out, at + 1, 0, values[from]);
        return at + 2;
    }
    let to = from + count;
    let mut p = at;
    let mut q = from;
    // No `for`: a turn is a run.
    while q < to {
        let rest = Ops {
            values,
            octets,
            from: q,
            to,
        };
        Reached { next: q, at: p } = put_same(kind, rest, out, p);
    }
    p
}
