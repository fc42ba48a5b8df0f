// The listing that flowlist prints, as octets. The methods of `Page` put a text at its place of the output and move it to the place after.
// What lies past the output's end is not stored, so over no output at all they measure: a listing is measured by the code that writes it.
//
// The functions with a `requires` are no entry points: they ask that places stay numbers of 64 bits.
#![tactic(auto)]

ghost use Rattle.std.specs.Prelude.{◌≡◌, [], ◌∷◌, map, ◌+◌, ◌≤◌, ◌<◌, length, take};
ghost use Rattle.std.proofs.lemmas.List.Edits.{sets};
ghost use Rattle.refusals.specs.Refusals.{answered, told, place_of};
ghost use Rattle.operators.specs.Lent.{operators_of as Lent·operators_of};
ghost use Rattle.operators.specs.Ops.{op, octet_of, number_of as value_of};
ghost use Rattle.stored.specs.Stored.{stored_at};
ghost use Rattle.reading.specs.Readings.{taken_of, words_of, operators_of};
ghost use Rattle.listing.specs.Texts.{digit as Texts·digit, hex, decimal, commas, dotted};
ghost use Rattle.listing.specs.Listings.{number_line, op_line, op_lines, prefix_line, piece_lines, component_lines, rule_lines, place_line, refusal_lines, listed_at, listing_of, listed_into, counted_in, octets_in};
ghost use Rattle.listing.specs.Puts.{Placeable, Put, Backed, Listable, carried_in, lines_of};

use choices::Reading;
use operators::OperatorList;
use reading::Taken;
use refusals::{Fault, FlowSpecError, Numbers};
use rules::NetworkPrefix;
use stored::Piece;

// The digit of a number below 16.
fn digit(d: u64) -> u8
    requires { d < 16 }
    ensures { result ≡ Texts·digit d }
{
    if d < 10 {
        b'0' + d as u8
    } else {
        b'A' + (d - 10) as u8
    }
}

// A rule as it was read: its words, and its operators' values and octets.
#[derive(Clone, Copy)]
struct Rule<'a> {
    words: &'a [u64],
    values: &'a [u64],
    octets: &'a [u8],
    // It has 13 components at most, and their operators are there.
    ghost listable: { Listable words.now (length values.now) (length octets.now) },
}

// The output, and the place from which the next text is put.
#[derive(Drop)]
struct Page<'a> {
    out: &'a mut [u8],
    at: usize,
}

impl<'a> Page<'a> {
    fn octet(&mut self, octet: u8)
        requires { Placeable self.old (octet ∷ []) }
        ensures { Put self.old (octet ∷ []) self.new }
    {
        if self.at < self.out.len() {
            self.out[self.at] = octet;
        }
        self.at += 1;
    }

    fn text(&mut self, text: &[u8])
        requires { Placeable self.old text.now }
        ensures { Put self.old text.now self.new }
    {
        for octet in text {
            self.octet(*octet);
        }
    }

    // An octet in two hex digits.
    fn hex(&mut self, octet: u8)
        requires { Placeable self.old (hex octet) }
        ensures { Put self.old (hex octet) self.new }
    {
        let v = octet as u64;
        self.octet(digit(v / 16));
        self.octet(digit(v % 16));
    }

    // A number in decimal, its digits from the highest power of ten down.
    fn decimal(&mut self, number: u64)
        requires { Placeable self.old (decimal number) }
        ensures { Put self.old (decimal number) self.new }
    {
        for exponent in (1..20).rev() {
            let power = 10u64.pow(exponent);
            if power <= number {
                self.octet(digit(number / power % 10));
            }
        }
        self.octet(digit(number % 10));
    }

    // A line of a key and a number.
    #[tactic(auto, unfolding(crate::specs::Listings::number_line))]
    fn number_line(&mut self, key: &[u8], number: u64)
        requires { Placeable self.old (number_line key.now number) }
        ensures { Put self.old (number_line key.now number) self.new }
    {
        self.text(key);
        self.decimal(number);
        self.octet(b'\n');
    }

    // The line of an operator.
    fn op(&mut self, octet: u8, value: u64)
        requires { Placeable self.old (op_line (op octet value)) }
        ensures { Put self.old (op_line (op octet value)) self.new }
    {
        self.text(b"op=");
        self.hex(octet);
        self.octet(b':');
        self.decimal(value);
        self.octet(b'\n');
    }

    // The lines of a list's operators.
    fn ops(&mut self, list: OperatorList<'_>)
        requires { Placeable self.old (op_lines (Lent·operators_of list)) }
        ensures { Put self.old (op_lines (Lent·operators_of list.entry)) self.new }
    {
        for i in 0..list.octets.len() {
            self.op(list.octets[i], list.values[i]);
        }
    }

    // An IPv4 address.
    #[tactic(auto, unfolding(crate::specs::Texts::dotted))]
    fn dotted(&mut self, address: u32)
        requires { Placeable self.old (dotted address) }
        ensures { Put self.old (dotted address) self.new }
    {
        let [a, b, c, d] = address.to_be_bytes();
        self.decimal(a as u64);
        self.octet(b'.');
        self.decimal(b as u64);
        self.octet(b'.');
        self.decimal(c as u64);
        self.octet(b'.');
        self.decimal(d as u64);
    }

    // The line of a prefix: the IPv4 reading gives no other form than the first.
    fn prefix(&mut self, prefix: NetworkPrefix)
        requires { Placeable self.old (prefix_line prefix) }
        ensures { Put self.old (prefix_line prefix) self.new }
    {
        match prefix {
            NetworkPrefix::Ipv4 { length, address } => self.ipv4(length, address),
            NetworkPrefix::Ipv6 { .. }
            | NetworkPrefix::Ipv4Offset { .. }
            | NetworkPrefix::Ipv6Offset { .. } => {}
        }
    }

    // The line of an IPv4 prefix.
    fn ipv4(&mut self, length: u8, address: u32)
        requires { Placeable self.old (prefix_line (NetworkPrefix.Ipv4 length address)) }
        ensures { Put self.old (prefix_line (NetworkPrefix.Ipv4 length address)) self.new }
    {
        self.text(b"prefix=");
        self.dotted(address);
        self.octet(b'/');
        self.decimal(length as u64);
        self.octet(b'\n');
    }

    // The lines of a component.
    fn piece(&mut self, piece: Piece, rule: Rule<'_>)
        requires backed { Backed (length rule.values.now) (length rule.octets.now) piece }
        requires placeable { Placeable self.old (piece_lines rule.values.now rule.octets.now piece) }
        ensures { Put self.old (piece_lines rule.entry.values.now rule.entry.octets.now piece) self.new }
    {
        match piece {
            Piece::Prefix { tag, prefix } => {
                self.number_line(b"type=", tag as u64);
                self.prefix(prefix);
            }
            Piece::Operators { tag, start, count } => {
                self.number_line(b"type=", tag as u64);
                self.number_line(b"ops=", count as u64);
                self.ops(OperatorList::new(rule.values, rule.octets, start, count));
            }
            Piece::NoRecord => {}
        }
    }

    // The lines of a rule's components.
    fn components(&mut self, rule: Rule<'_>)
        requires { Placeable self.old (component_lines rule.values.now rule.octets.now (stored_at rule.words.now 0).pieces) }
        ensures { Put self.old (component_lines rule.entry.values.now rule.entry.octets.now (stored_at rule.entry.words.now 0).pieces) self.new }
    {
        for i in 0..stored::count_at(rule.words, 0) {
            self.piece(stored::piece_at(rule.words, 4 * i), rule);
        }
    }

    // The listing of a rule.
    #[tactic(auto, unfolding(crate::specs::Listings::rule_lines))]
    fn rule(&mut self, used: usize, rule: Rule<'_>)
        requires { Placeable self.old (rule_lines used (stored_at rule.words.now 0).pieces rule.values.now rule.octets.now) }
        ensures { Put self.old (rule_lines used (stored_at rule.entry.words.now 0).pieces rule.entry.values.now rule.entry.octets.now) self.new }
    {
        self.text(b"reading=ipv4\n");
        self.number_line(b"status=", 0);
        self.number_line(b"used=", used as u64);
        self.number_line(b"components=", stored::count_at(rule.words, 0) as u64);
        self.components(rule);
    }

    // The numbers that a refusal carries, joined by commas.
    fn carried(&mut self, numbers: Numbers)
        requires { Placeable self.old (commas (carried_in numbers)) }
        ensures { Put self.old (commas (carried_in numbers)) self.new }
    {
        if numbers.count == 0 {
            return;
        }
        self.decimal(numbers.first);
        if numbers.count == 1 {
            return;
        }
        self.octet(b',');
        self.decimal(numbers.second);
    }

    // The place of a refusal, empty where it has none.
    fn place(&mut self, place: Option<usize>)
        requires { Placeable self.old (place_line (place_of place)) }
        ensures { Put self.old (place_line (place_of place)) self.new }
    {
        match place {
            None => self.text(b"place=\n"),
            Some(octet) => self.number_line(b"place=", octet as u64),
        }
    }

    // The listing of a refusal.
    #[tactic(auto, unfolding(crate::specs::Listings::refusal_lines))]
    fn refusal(&mut self, fault: Fault)
        requires { Placeable self.old (refusal_lines (told fault)) }
        ensures { Put self.old (refusal_lines (told fault)) self.new }
    {
        let Fault { error, place } = fault;
        let numbers = Numbers::from(error);
        self.text(b"reading=ipv4\n");
        self.number_line(b"status=", numbers.number as u64);
        self.text(b"detail=");
        self.carried(numbers);
        self.octet(b'\n');
        self.place(place);
    }

    // The listing of what was read. The rule stands beside the answer, and is not looked at beside a refusal.
    fn answer(&mut self, read: Result<Taken, Fault>, rule: Rule<'_>)
        requires { Placeable self.old (lines_of (answered read) (stored_at rule.words.now 0).pieces rule.values.now rule.octets.now) }
        ensures { Put self.old (lines_of (answered read) (stored_at rule.entry.words.now 0).pieces rule.entry.values.now rule.entry.octets.now) self.new }
    {
        match read {
            Ok(taken) => self.rule(taken.used, rule),
            Err(fault) => self.refusal(fault),
        }
    }
}

// The reading of flowlist's input, of which it reads 4,098 octets at most. A longer one counts as that long.
fn read_listed(
    input: &[u8],
    words: &mut [u64; 64],
    values: &mut [u64; 2047],
    octets: &mut [u8; 2047],
) -> Result<Taken, Fault>
    ensures answer { answered result ≡ taken_of (listed_at input.now) }
    ensures words { words.new ≡ sets words.old 0 (words_of (listed_at input.now)) }
    ensures values { values.new ≡ sets values.old 0 (map value_of (operators_of (listed_at input.now))) }
    ensures octets { octets.new ≡ sets octets.old 0 (map octet_of (operators_of (listed_at input.now))) }
{
    if 4097 < input.len() {
        return Err(FlowSpecError::InputTooLong(4098).into());
    }
    reading::read_into(Reading::Ipv4, 1, input, words, values, octets)
}

// The listing of an input, from the output's start on, or NoRoom and nothing. The longest rule has 2,047 operators.
pub fn list(input: &[u8], out: &mut [u8]) -> Result<usize, Fault>
    ensures answer { answered result ≡ counted_in (listed_into input.now (length out.old)) }
    ensures out { out.new ≡ sets out.old 0 (octets_in (listed_into input.now (length out.old))) }
    ensures most { length (listing_of input.now) ≤ 65536 }
{
    let mut words = [0u64; 64];
    let mut values = [0u64; 2047];
    let mut octets = [0u8; 2047];
    let read = read_listed(input, &mut words, &mut values, &mut octets);
    let rule = Rule {
        words: &words,
        values: &values,
        octets: &octets,
    };
    let mut measured = Page {
        out: &mut [],
        at: 0,
    };
    measured.answer(read, rule);
    let needed = measured.at;
    if out.len() < needed {
        return Err(FlowSpecError::NoRoom(needed).into());
    }
    let mut page = Page { out, at: 0 };
    page.answer(read, rule);
    Ok(needed)
}

// The same with room for any listing, so that it has an answer always.
pub fn list_whole(input: &[u8], out: &mut [u8; 65536]) -> usize
    ensures size { result ≡ length (listing_of input.now) }
    ensures out { out.new ≡ sets out.old 0 (listing_of input.now) }
    ensures inside { (result ≤ length out.new) × (result ≡ length (take result out.new)) }
{
    list(input, out).unwrap_or(0)
}
