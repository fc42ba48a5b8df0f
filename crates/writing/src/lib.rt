// Whole rules written: the plain writing (encode_flowspec_nlri in nlri.rs) and the standard one. A rule is measured whole before its first
// octet is written, since a refusal changes nothing: `measure` answers everything and `put` only stores, so that a caller with many rules can
// test all of them before it stores one.
//
// The functions with a `requires` are no entry points.
#![tactic(auto)]

ghost use Rattle.std.specs.Prelude.{◌≡◌, true, ◌∷◌, ◌+◌, ◌-◌, ◌*◌, ◌/◌, ◌^◌, ◌≤◌, length};
ghost use Rattle.std.proofs.lemmas.List.Edits.{sets};
ghost use Rattle.ground.specs.Answers.{accepts};
ghost use Rattle.refusals.specs.Refusals.{answered};
ghost use Rattle.octets.specs.Spell.{spelled};
ghost use Rattle.octets.specs.Lengths.{length_octets};
ghost use Rattle.operators.specs.Ops.{kind_of, list_octets};
ghost use Rattle.prefixes.specs.Prefixes.{octets_of};
ghost use Rattle.prefixwriting.specs.Writings.{front_octets};
ghost use Rattle.stored.specs.Pieces.{piece_at};
ghost use Rattle.stored.specs.Distinguishers.{distinguisher_at};
ghost use Rattle.stored.specs.Stored.{pieces_from};
ghost use Rattle.listwriting.specs.Lists.{size_in};
ghost use Rattle.measuring.specs.Bodies.{lent_of, ops_of, prefix_octets, piece_octets, body_octets, distinguisher_octets};
ghost use Rattle.measuring.specs.Grounds.{inside_of, prefix_taken, piece_taken, all_taken};
ghost use Rattle.writing.specs.Writings.{counted, octets_in, nlri_octets, body_from, written_from, written_in};

use choices::Reading;
use measuring::Lent;
use refusals::{Fault, FlowSpecError};
use rules::NetworkPrefix;
use stored::{Piece, View};

// The first k of the four octets of an IPv4 address, straight: nearly every rule has one.
#[tactic(auto, using(crate::proofs::Stores::high_three))]
fn put_high(out: &mut [u8], at: usize, k: usize, v: u64)
    requires { (k ≤ 4) × (at + k ≤ length out.old) }
    ensures { out.new ≡ sets out.old at (spelled k (v / 2 ^ (32 - 8 * k))) }
{
    match k {
        0 => {}
        1 => octets::write_value(out, at, 0, v / 16777216),
        2 => octets::write_value(out, at, 1, v / 65536),
        3 => {
            octets::write_value(out, at, 1, v / 65536);
            octets::write_value(out, at + 2, 0, v / 256);
        }
        _ => octets::write_value(out, at, 2, v),
    }
}

fn put_ipv4(len: u8, address: u32, out: &mut [u8], at: usize)
    requires { (len ≤ 32) × (at + 1 + octets_of len ≤ length out.old) }
    ensures { out.new ≡ sets out.old at (len ∷ front_octets 32 len address) }
{
    out[at] = len;
    let from = at + 1;
    put_high(out, from, prefixes::octets_of(len), address as u64);
}

#[tactic(auto, using(prefixwriting::proofs::Puts::length_plain, prefixwriting::proofs::Puts::length_standard, prefixwriting::proofs::Puts::valid_ranged))]
fn put_other(writing: Reading, prefix: NetworkPrefix, out: &mut [u8], at: usize)
    requires taken { prefix_taken writing prefix ≡ true }
    requires room { at + length (prefix_octets writing prefix) ≤ length out.old }
    ensures { out.new ≡ sets out.old at (prefix_octets writing prefix) }
{
    match writing {
        Reading::Plain => prefixwriting::put_plain(prefix, out, at),
        Reading::Ipv4 | Reading::Ipv6 => prefixwriting::put_standard(prefix, out, at),
    }
}

// A type and a prefix that was weighed, and the place after it.
fn put_prefix(writing: Reading, tag: u8, prefix: NetworkPrefix, out: &mut [u8], at: usize) -> usize
    requires taken { prefix_taken writing prefix ≡ true }
    requires room { at + 1 + length (prefix_octets writing prefix) ≤ length out.old }
    ensures next { result ≡ at + 1 + length (prefix_octets writing prefix) }
    ensures octets { out.new ≡ sets out.old at (tag ∷ prefix_octets writing prefix) }
{
    out[at] = tag;
    let from = at + 1;
    put_other(writing, prefix, out, from);
    from + measuring::prefix_size(writing, prefix)
}

// A list that lies within the lent lists, and the place after it.
#[tactic(auto, unfolding(listwriting::specs::Lists::size_in, operators::specs::Ops::ops_in, operators::specs::Ops::list_octets))]
fn put_operators(
    tag: u8,
    lent: Lent,
    start: usize,
    count: usize,
    out: &mut [u8],
    at: usize,
) -> usize
    requires taken { inside_of (lent_of lent) start count ≡ true }
    requires room { at + size_in lent.octets.now (lent.first + start) count ≤ length out.old }
    ensures next { result ≡ at + size_in lent.entry.octets.now (lent.entry.first + start) count }
    ensures octets { out.new ≡ sets out.old at (list_octets (kind_of tag) (ops_of (lent_of lent.entry) start count)) }
{
    if count == 0 {
        return at;
    }
    let kind = operators::kind_of(tag);
    let from = lent.first + start;
    listwriting::put_list(kind, lent.values, lent.octets, from, count, out, at)
}

// The component at a word, which was weighed, and the place after it. A list and an IPv4 prefix go straight: most components are one of them.
#[tactic(auto, using(crate::proofs::Stores::prefix_taken_lem, crate::proofs::Stores::prefix_long, crate::proofs::Stores::ipv4_long, crate::proofs::Stores::never_taken, measuring::proofs::Weights::no_record))]
fn put_at(
    writing: Reading,
    words: &[u64],
    word: usize,
    lent: Lent,
    out: &mut [u8],
    at: usize,
) -> usize
    requires words { word + 4 ≤ length words.now }
    requires taken { piece_taken writing (lent_of lent) (piece_at words.now word) ≡ true }
    requires room { at + length (piece_octets writing (lent_of lent) (piece_at words.now word)) ≤ length out.old }
    ensures next { result ≡ at + length (piece_octets writing (lent_of lent.entry) (piece_at words.now word)) }
    ensures octets { out.new ≡ sets out.old at (piece_octets writing (lent_of lent.entry) (piece_at words.now word)) }
{
    match stored::view_at(words, word) {
        View::List { tag, start, count } => {
            out[at] = tag;
            put_operators(tag, lent, start, count, out, at + 1)
        }
        View::Ipv4 {
            tag,
            length,
            address,
        } => {
            out[at] = tag;
            put_ipv4(length, address, out, at + 1);
            at + 2 + prefixes::octets_of(length)
        }
        View::Ipv6 { .. } | View::Other => match stored::piece_at(words, word) {
            Piece::Prefix { tag, prefix } => put_prefix(writing, tag, prefix, out, at),
            _ => at,
        },
    }
}

// The second walk, over components that were measured, where there is room.
fn put_body(writing: Reading, words: &[u64], count: usize, lent: Lent, out: &mut [u8], at: usize)
    requires words { 4 * count ≤ length words.now }
    requires taken { all_taken writing (lent_of lent) (pieces_from count words.now 0) ≡ true }
    requires room { at + length (body_octets writing (lent_of lent) (pieces_from count words.now 0)) ≤ length out.old }
    ensures { out.new ≡ sets out.old at (body_octets writing (lent_of lent.entry) (pieces_from count words.now 0)) }
{
    let mut p = at;
    for i in 0..count {
        p = put_at(writing, words, 4 * i, lent, out, p);
    }
}

// The distinguisher that the writing takes, where there is room, and the place after it.
fn put_front(writing: Reading, words: &[u64], out: &mut [u8], at: usize) -> usize
    requires words { 64 ≤ length words.now }
    requires room { at + length (distinguisher_octets writing (distinguisher_at words.now 0)) ≤ length out.old }
    ensures next { result ≡ at + length (distinguisher_octets writing (distinguisher_at words.now 0)) }
    ensures octets { out.new ≡ sets out.old at (distinguisher_octets writing (distinguisher_at words.now 0)) }
{
    match measuring::front_of(writing, words, 0) {
        None => at,
        Some(bits) => {
            octets::write_value(out, at, 3, bits);
            at + 8
        }
    }
}

// The rule at the front of the words, measured: how many octets its body takes, or BadRecord, or ValueTooLarge. Nothing is written.
#[tactic(auto, using(crate::proofs::Ways::few_words, crate::proofs::Ways::no_frame, crate::proofs::Ways::by_frame))]
pub fn measure(
    writing: Reading,
    words: &[u64],
    values: &[u64],
    octets: &[u8],
) -> Result<usize, Fault>
    ensures { answered result ≡ counted (body_from writing words.now values.now octets.now) }
{
    if words.len() < 64 || !stored::is_framed(words, 0) {
        return Err(FlowSpecError::BadRecord.into());
    }
    let count = stored::count_at(words, 0);
    let lent = Lent {
        values,
        octets,
        first: stored::first_at(words, 0),
    };
    measuring::measure_body(writing, words, count, lent)
}

// How many octets the length of a body takes.
#[tactic(auto, unfolding(octets::specs::Lengths::length_octets))]
fn length_size(body: usize) -> usize
    ensures { result ≡ length (length_octets body) }
{
    if body < 240 { 1 } else { 2 }
}

// How many octets a body of so many takes, with its length. No entry point.
#[tactic(auto, using(crate::proofs::Ways::length_most))]
pub fn nlri_size(body: usize) -> usize
    requires { body ≤ 4095 }
    ensures { result ≡ length (length_octets body) + body }
{
    length_size(body) + body
}

// A rule that was measured, where there is room: its length and its body, at the front of `out`. A caller that has written before lends the
// tail of its output on. No entry point.
#[tactic(auto, using(crate::proofs::Ways::measured_whole, crate::proofs::Ways::front_room, crate::proofs::Ways::put_words, crate::proofs::Ways::put_taken, crate::proofs::Stores::kept))]
pub fn put(
    writing: Reading,
    words: &[u64],
    values: &[u64],
    octets: &[u8],
    body: usize,
    out: &mut [u8],
)
    requires measured { counted (body_from writing words.now values.now octets.now) ≡ accepts body }
    requires room { length (length_octets body) + body ≤ length out.old }
    ensures { out.new ≡ sets out.old 0 (nlri_octets (octets_in (body_from writing words.now values.now octets.now))) }
{
    let _ = octets::encode_length(body, out);
    let count = stored::count_at(words, 0);
    let lent = Lent {
        values,
        octets,
        first: stored::first_at(words, 0),
    };
    let at = put_front(writing, words, out, length_size(body));
    put_body(writing, words, count, lent, out, at);
}

// The rule at the front of the words, by a writing.
#[tactic(auto, unfolding(crate::specs::Writings::written_from))]
pub fn write_from(
    writing: Reading,
    words: &[u64],
    values: &[u64],
    octets: &[u8],
    out: &mut [u8],
) -> Result<usize, Fault>
    ensures told { answered result ≡ counted (written_from writing words.now values.now octets.now (length out.old)) }
    ensures octets { out.new ≡ sets out.old 0 (octets_in (written_from writing words.now values.now octets.now (length out.old))) }
{
    let body = measure(writing, words, values, octets)?;
    let size = nlri_size(body);
    if out.len() < size {
        return Err(FlowSpecError::NoRoom(size).into());
    }
    put(writing, words, values, octets, body, out);
    Ok(size)
}

// The standard writing in a family, the one that the call names: the family that the rule itself was stored with is not looked at.
#[tactic(auto, unfolding(crate::specs::Writings::written_in, crate::specs::Writings::body_in, crate::specs::Writings::written_from))]
pub fn write(
    family: u8,
    words: &[u64],
    values: &[u64],
    octets: &[u8],
    out: &mut [u8],
) -> Result<usize, Fault>
    ensures told { answered result ≡ counted (written_in family words.now values.now octets.now (length out.old)) }
    ensures octets { out.new ≡ sets out.old 0 (octets_in (written_in family words.now values.now octets.now (length out.old))) }
{
    write_from(Reading::try_from(family)?, words, values, octets, out)
}
