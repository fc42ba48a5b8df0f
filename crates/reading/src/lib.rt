// The readings: octets in, the rule as 64 words and its operators in lent lists out. The first walk writes nothing and answers everything;
// then room is looked for; then the second walk stores what the first accepted and tests nothing again. In the Rust it is nlri.rs,
// parse_flowspec_nlri; the standard readings are added.
#![tactic(auto)]

ghost use Rattle.std.specs.Prelude.{◌≡◌, true, map, ◌+◌, ◌≤◌, length, None};
ghost use Rattle.std.proofs.lemmas.List.Edits.{sets};
ghost use Rattle.refusals.specs.Refusals.{answered};
ghost use Rattle.operators.specs.Ops.{octet_of, number_of};
ghost use Rattle.choices.specs.declared.Reading.{Reading};
ghost use Rattle.lists.specs.Runs.{Places};
ghost use Rattle.stored.specs.Pieces.{piece_words};
ghost use Rattle.stored.specs.Stored.{head, rule_words};
ghost use Rattle.walk.specs.Walks.{walk_at};
ghost use Rattle.reading.specs.Readings.{too_long, stated_at, read_at, read_into, standard_into, front_at, taken_of, words_of, operators_of};
ghost use Rattle.choices.specs.Choices.{expects, front_of, family_of};
ghost use Rattle.reading.specs.Parts.{is_body, Standing, found_here, body_at, is_read, read_of, lacking_of};

use choices::Reading;
use lists::Tally;
use octets::Cursor;
use prefixes::PrefixAt;
use refusals::{Fault, FlowSpecError, OuterError};
use stored::Piece;

// How many octets were used, length octets included, and how many operators there are.
#[derive(Clone, Copy)]
pub struct Taken {
    pub used: usize,
    pub operators: usize,
}

// Whether an input of so many octets is refused unread.
fn too_long(reading: Reading, n: usize) -> bool
    ensures { result ≡ too_long reading n }
{
    match reading {
        Reading::Plain => 4097 < n,
        Reading::Ipv4 | Reading::Ipv6 => false,
    }
}

// The component at a place to the words from `word` on, and its operators to the lists: they start at `start` counted from `first`. Answers how
// many operators there are, and the place after it.
fn put_part(
    reading: Reading,
    s: &[u8],
    at: usize,
    words: &mut [u64],
    word: usize,
    values: &mut [u64],
    octets: &mut [u8],
    first: usize,
    start: usize,
) -> Tally
    requires standing { Standing reading s.now at start }
    requires word_in_bounds { word + 4 ≤ length words.old }
    requires places { Places (first + start) (length (found_here reading s.now at start).operators) (length values.old) (length octets.old) }
    ensures words { words.new ≡ sets words.old word (piece_words (found_here reading s.now at start).piece) }
    ensures values { values.new ≡ sets values.old (first + start) (map number_of (found_here reading s.now at start).operators) }
    ensures octets { octets.new ≡ sets octets.old (first + start) (map octet_of (found_here reading s.now at start).operators) }
    ensures end { result.next.at ≡ (found_here reading s.now at start).next }
    ensures count { result.count ≡ length (found_here reading s.now at start).operators }
{
    let tag = s[at];
    let from = at + 1;
    if tag <= 2 {
        let PrefixAt { prefix, next } = prefixes::prefix_in(reading, s, Cursor { at: from });
        stored::put_piece(words, word, Piece::Prefix { tag, prefix });
        return Tally { count: 0, next };
    }
    let t = lists::fill(s, from, reading, tag, values, octets, first + start);
    stored::put_piece(
        words,
        word,
        Piece::Operators {
            tag,
            start,
            count: t.count,
        },
    );
    t
}

// The second walk, and what follows the components in the rule's words.
fn put_all(
    reading: Reading,
    s: &[u8],
    stop: usize,
    words: &mut [u64],
    values: &mut [u64],
    octets: &mut [u8],
    first: usize,
)
    requires stop_value { is_body (walk_at reading s.now stop) ≡ true }
    requires in_bounds { 64 ≤ length words.old }
    requires places { Places first (length (body_at reading s.now stop).operators) (length values.old) (length octets.old) }
    ensures words { words.new ≡ sets words.old 0 (rule_words (body_at reading s.now stop).pieces (head (family_of reading) first None)) }
    ensures values { values.new ≡ sets values.old first (map number_of (body_at reading s.now stop).operators) }
    ensures octets { octets.new ≡ sets octets.old first (map octet_of (body_at reading s.now stop).operators) }
    ensures few { length (body_at reading s.now stop).pieces ≤ 13 }
{
    let mut at: usize = 0;
    let mut start: usize = 0;
    let mut count: usize = 0;
    // No `for`: the place moves by what is read.
    while at < stop {
        let t = put_part(
            reading,
            s,
            at,
            words,
            4 * count,
            values,
            octets,
            first,
            start,
        );
        at = t.next.at;
        start += t.count;
        count += 1;
    }
    stored::put_tail(words, 0, count, choices::family_of(reading), first);
}

// The distinguisher where one is expected, and the first walk over what follows. The test of the mode stands before all that it changes, so that a
// reading without one goes as if there were none.
fn test_body(
    reading: Reading,
    mode: u8,
    input: &[u8],
    start: usize,
    size: usize,
) -> Result<Taken, Fault>
    requires { start ≤ length input.now }
    ensures { answered result ≡ taken_of (stated_at reading (expects mode) input.now start size) }
{
    if input.len() - start < size {
        return Err(FlowSpecError::InsufficientData.at(input.len()));
    }
    let used = start + size;
    let mut from = start;
    let mut left = size;
    if mode == 2 {
        let front = choices::front(reading, true);
        if size < front {
            return Err(FlowSpecError::Outer(OuterError::ShortDistinguisher).at(used));
        }
        from = start + front;
        left = size - front;
    }
    let end = choices::bound(reading, input.len(), used);
    match walk::walk(reading, &input[from..end], left) {
        Ok(operators) => Ok(Taken { used, operators }),
        Err(fault) => Err(fault.moved(from)),
    }
}

// What a reading with room for all would answer. A mode of 2 expects a distinguisher, any other none; it is a number and no bool, so that the test of it
// stays where it is made. Nothing is lent to be written. The length field is read in small steps, and not by
// `Cursor::parse_length`, whose enum would go through memory.
#[tactic(auto, using(crate::proofs::Ways::over_long, crate::proofs::Ways::by_field))]
pub fn test(reading: Reading, mode: u8, input: &[u8]) -> Result<Taken, Fault>
    ensures { answered result ≡ taken_of (read_at reading (expects mode) input.now) }
{
    let n = input.len();
    if too_long(reading, n) {
        return Err(FlowSpecError::InputTooLong(n).into());
    }
    if n == 0 {
        return Err(FlowSpecError::InsufficientData.at(n));
    }
    let start = octets::length_width(input[0]);
    if n < start {
        return Err(FlowSpecError::InsufficientData.at(n));
    }
    test_body(
        reading,
        mode,
        input,
        start,
        octets::length_value(input, 0, start),
    )
}

// What lent lists of so many words, values and octets lack for a rule with so many operators: nothing, or the number that NoRoom carries.
#[tactic(auto, using(crate::proofs::Rooms::lacks_words, crate::proofs::Rooms::lacks_either, crate::proofs::Rooms::lacks_none))]
pub fn lacking(operators: usize, words: usize, values: usize, octets: usize) -> Option<usize>
    ensures { result ≡ lacking_of operators words values octets }
{
    if words < 64 {
        return Some(1);
    }
    if values < operators || octets < operators {
        return Some(operators);
    }
    None
}

// The distinguisher of an input that was tested, from the place after its length.
#[tactic(auto, using(crate::proofs::Stated::front_none, crate::proofs::Stated::front_is))]
fn distinguisher_in(reading: Reading, mode: u8, input: &[u8], at: usize) -> Option<u64>
    requires { at + front_of reading (expects mode) ≤ length input.now }
    ensures { result ≡ front_at (front_of reading (expects mode)) input.now at }
{
    if choices::front(reading, mode == 2) == 0 {
        return None;
    }
    Some(octets::read_value(input, at, 3))
}

// The second pass over an input that was tested, and used so many octets: its rule to the first 64 words, its operators to the lists from `first`
// on. Nothing is tested again. No entry point.
pub fn store(
    reading: Reading,
    mode: u8,
    input: &[u8],
    used: usize,
    words: &mut [u64],
    values: &mut [u64],
    octets: &mut [u8],
    first: usize,
)
    requires accepted { (is_read (read_at reading (expects mode) input.now) ≡ true) × (used ≡ (read_of reading (expects mode) input.now).used) }
    requires room { (64 ≤ length words.old) × Places first (length (read_of reading (expects mode) input.now).operators) (length values.old) (length octets.old) }
    ensures words { words.new ≡ sets words.old 0 (rule_words (read_of reading (expects mode) input.now).pieces (head (read_of reading (expects mode) input.now).family first (read_of reading (expects mode) input.now).distinguisher)) }
    ensures values { values.new ≡ sets values.old first (map number_of (read_of reading (expects mode) input.now).operators) }
    ensures octets { octets.new ≡ sets octets.old first (map octet_of (read_of reading (expects mode) input.now).operators) }
{
    let at = octets::length_width(input[0]);
    let start = at + choices::front(reading, mode == 2);
    let end = choices::bound(reading, input.len(), used);
    put_all(
        reading,
        &input[start..end],
        used - start,
        words,
        values,
        octets,
        first,
    );
    if mode == 2 {
        stored::put_distinguisher(words, 0, distinguisher_in(reading, mode, input, at));
    }
}

// Any of the readings, with a mode, to one rule place and to the operator lists. Nothing is written on a refusal, and places past the last one filled stay.
pub fn read_into(
    reading: Reading,
    mode: u8,
    input: &[u8],
    words: &mut [u64],
    values: &mut [u64],
    octets: &mut [u8],
) -> Result<Taken, Fault>
    ensures answer { answered result ≡ taken_of (read_into reading (expects mode) input.now (length words.old) (length values.old) (length octets.old)) }
    ensures words { words.new ≡ sets words.old 0 (words_of (read_into reading (expects mode) input.now (length words.old) (length values.old) (length octets.old))) }
    ensures values { values.new ≡ sets values.old 0 (map number_of (operators_of (read_into reading (expects mode) input.now (length words.old) (length values.old) (length octets.old)))) }
    ensures octets { octets.new ≡ sets octets.old 0 (map octet_of (operators_of (read_into reading (expects mode) input.now (length words.old) (length values.old) (length octets.old)))) }
{
    let taken = test(reading, mode, input)?;
    if let Some(lack) = lacking(taken.operators, words.len(), values.len(), octets.len()) {
        return Err(FlowSpecError::NoRoom(lack).into());
    }
    store(reading, mode, input, taken.used, words, values, octets, 0);
    Ok(taken)
}

// The standard reading, family 4 or 6 given, and by the mode whether a distinguisher is expected.
pub fn read(
    family: u8,
    mode: u8,
    input: &[u8],
    words: &mut [u64],
    values: &mut [u64],
    octets: &mut [u8],
) -> Result<Taken, Fault>
    ensures answer { answered result ≡ taken_of (standard_into family (expects mode) input.now (length words.old) (length values.old) (length octets.old)) }
    ensures words { words.new ≡ sets words.old 0 (words_of (standard_into family (expects mode) input.now (length words.old) (length values.old) (length octets.old))) }
    ensures values { values.new ≡ sets values.old 0 (map number_of (operators_of (standard_into family (expects mode) input.now (length words.old) (length values.old) (length octets.old)))) }
    ensures octets { octets.new ≡ sets octets.old 0 (map octet_of (operators_of (standard_into family (expects mode) input.now (length words.old) (length values.old) (length octets.old)))) }
{
    read_into(
        Reading::try_from(family)?,
        mode,
        input,
        words,
        values,
        octets,
    )
}
