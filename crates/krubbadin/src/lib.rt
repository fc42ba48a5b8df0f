// The exported surface: plain numbers and slices, for C and Rust. Each function takes anything: words that are no rule, empty slices and
// lists of unequal lengths are refused, not trusted. A slice is a pointer and then a length.
#![tactic(auto)]

ghost use Rattle.std.specs.Prelude.{◌≡◌, true, map, length};
ghost use Rattle.std.proofs.lemmas.List.Edits.{sets};
ghost use Rattle.operators.specs.Ops.{octet_of, number_of};
ghost use Rattle.choices.specs.Choices.{expects};
ghost use Rattle.refusals.specs.Refusals.{answered, told, place_of};
ghost use Rattle.reading.specs.Readings.{read_at, read_into, by_reading, taken_of, words_of, operators_of};
ghost use Rattle.measuring.specs.Grounds.{counted};
ghost use Rattle.writing.specs.Writings.{octets_in};
ghost use Rattle.reading.specs.Parts.{is_read};
ghost use Rattle.krubbadin.specs.Surface.{place_number, given_with, refused_with, read_answer, which_of, by_check, written_answer, by_writing};

use choices::Reading;
use reading::Taken;
use refusals::{Fault, Numbers};

mod deciding;
mod single;

// What a call answers: status 0 and what it gives, or the refusal's number and what it carries, 0 where there is nothing to tell; and the place
// of the octet that was refused.
#[repr(C)]
#[derive(Clone, Copy)]
pub struct KrubbadinAnswer {
    pub status: u64,
    pub first: u64,
    pub second: u64,
    pub place: u64,
}

// The place of an answer that has none: all ones. No place in an input is as large.
const NOWHERE: u64 = 0xFFFF_FFFF_FFFF_FFFF;

fn place_number(place: Option<usize>) -> u64
    ensures { result ≡ place_number (place_of place) }
{
    match place {
        None => NOWHERE,
        Some(at) => at as u64,
    }
}

fn given(first: u64, second: u64) -> KrubbadinAnswer
    ensures { result ≡ given_with first second }
{
    KrubbadinAnswer {
        status: 0,
        first,
        second,
        place: NOWHERE,
    }
}

impl From<Fault> for KrubbadinAnswer {
    ghost from_gives = { λ fault answer. answer ≡ refused_with (told fault) };

    fn from(fault: Fault) -> KrubbadinAnswer {
        let Fault { place, error } = fault;
        let Numbers {
            number,
            first,
            second,
            ..
        } = error.into();
        KrubbadinAnswer {
            status: number as u64,
            first,
            second,
            place: place_number(place),
        }
    }
}

fn read_answer(read: Result<Taken, Fault>) -> KrubbadinAnswer
    ensures { result ≡ read_answer (answered read) }
{
    match read {
        Ok(Taken { used, operators }) => given(used as u64, operators as u64),
        Err(fault) => fault.into(),
    }
}

// The reading, or the writing, that a call asks for.
#[tactic(auto, unfolding(crate::specs::Surface::which_of))]
fn named_by(standard: u8, family: u8) -> Result<Reading, Fault>
    ensures { answered result ≡ which_of standard family }
{
    if standard == 0 {
        return Ok(Reading::Plain);
    }
    family.try_into()
}

// Whether an NLRI would be read: the octets used and the operators that a reading with room for all would fill, or that reading's refusal. Nothing is
// lent to be written. `standard` and `family` are those of a reading.
#[unsafe(no_mangle)]
pub extern "C" fn krubbadin_check(standard: u8, family: u8, input: &[u8]) -> KrubbadinAnswer
    ensures answer { result ≡ read_answer (taken_of (by_check (which_of standard family) (expects standard) input.now)) }
    ensures sure { result.status ≡ 0 → is_read (by_check (which_of standard family) (expects standard) input.now) ≡ true }
{
    match named_by(standard, family) {
        Ok(reading) => read_answer(reading::test(reading, standard, input)),
        Err(fault) => fault.into(),
    }
}

// What was checked, to the lent words and lists, where there is room. The answer is made anew: of one that is passed on, the compiler loads
// `second` and `place` at once, which waits for both to be stored.
fn store_checked(
    reading: Reading,
    mode: u8,
    input: &[u8],
    checked: KrubbadinAnswer,
    words: &mut [u64],
    values: &mut [u64],
    octets: &mut [u8],
) -> KrubbadinAnswer
    requires { (checked ≡ read_answer (taken_of (read_at reading (expects mode) input.now))) × (is_read (read_at reading (expects mode) input.now) ≡ true) }
    ensures answer { result ≡ read_answer (taken_of (read_into reading (expects mode) input.now (length words.old) (length values.old) (length octets.old))) }
    ensures words { words.new ≡ sets words.old 0 (words_of (read_into reading (expects mode) input.now (length words.old) (length values.old) (length octets.old))) }
    ensures values { values.new ≡ sets values.old 0 (map number_of (operators_of (read_into reading (expects mode) input.now (length words.old) (length values.old) (length octets.old)))) }
    ensures octets { octets.new ≡ sets octets.old 0 (map octet_of (operators_of (read_into reading (expects mode) input.now (length words.old) (length values.old) (length octets.old)))) }
{
    let lack = reading::lacking(
        checked.second as usize,
        words.len(),
        values.len(),
        octets.len(),
    );
    if let Some(lack) = lack {
        return KrubbadinAnswer {
            status: 9,
            first: lack as u64,
            second: 0,
            place: NOWHERE,
        };
    }
    reading::store(
        reading,
        mode,
        input,
        checked.first as usize,
        words,
        values,
        octets,
        0,
    );
    given(checked.first, checked.second)
}

// Reads an NLRI: its rule to the first 64 words, its operators to the two lists. With `standard` 0 it is the
// plain reading, which looks at no family; else the standard one in the family, which with 2 expects a distinguisher. One export for all readings:
// what they share has one caller then, and the compiler makes one function of both.
#[unsafe(no_mangle)]
pub extern "C" fn krubbadin_read(
    standard: u8,
    family: u8,
    input: &[u8],
    words: &mut [u64],
    values: &mut [u64],
    octets: &mut [u8],
) -> KrubbadinAnswer
    ensures answer { result ≡ read_answer (taken_of (by_reading (which_of standard family) (expects standard) input.now (length words.old) (length values.old) (length octets.old))) }
    ensures words { words.new ≡ sets words.old 0 (words_of (by_reading (which_of standard family) (expects standard) input.now (length words.old) (length values.old) (length octets.old))) }
    ensures values { values.new ≡ sets values.old 0 (map number_of (operators_of (by_reading (which_of standard family) (expects standard) input.now (length words.old) (length values.old) (length octets.old)))) }
    ensures octets { octets.new ≡ sets octets.old 0 (map octet_of (operators_of (by_reading (which_of standard family) (expects standard) input.now (length words.old) (length values.old) (length octets.old)))) }
{
    let checked = krubbadin_check(standard, family, input);
    if checked.status != 0 {
        return checked;
    }
    match named_by(standard, family) {
        Ok(reading) => store_checked(reading, standard, input, checked, words, values, octets),
        Err(fault) => fault.into(),
    }
}

fn write_answer(written: Result<usize, Fault>) -> KrubbadinAnswer
    ensures { result ≡ written_answer (answered written) }
{
    match written {
        Ok(octets) => given(octets as u64, 0),
        Err(fault) => fault.into(),
    }
}

// Writes the rule that stands in the first 64 words, with its operators in the two lists, to the output. With `standard` 0 it
// is the plain writing, else the standard one in the family, which writes a distinguisher if the rule has one.
#[unsafe(no_mangle)]
pub extern "C" fn krubbadin_write(
    standard: u8,
    family: u8,
    words: &[u64],
    values: &[u64],
    octets: &[u8],
    out: &mut [u8],
) -> KrubbadinAnswer
    ensures answer { result ≡ written_answer (counted (by_writing (which_of standard family) words.now values.now octets.now (length out.old))) }
    ensures out { out.new ≡ sets out.old 0 (octets_in (by_writing (which_of standard family) words.now values.now octets.now (length out.old))) }
{
    match named_by(standard, family) {
        Ok(writing) => write_answer(writing::write_from(writing, words, values, octets, out)),
        Err(fault) => fault.into(),
    }
}
