// The text of octets, and of the rule that they are read to, as `oracle --help` (rust/oracle) has it: `-` for no components, else components
// joined by `;`, as `1:4/24/C0000200` or `5:03=80,45=90`. Every function takes any octets.
use super::text::{after, cut, digit};
use rules::{FlowSpecComponent, FlowSpecNlri, NetworkPrefix, Span};
use std::fmt;
use stored::Piece;

// The octets of a text of hex pairs, up to a pair that begins below the digits; `-` for none. What has no room is not read.
pub fn read_octets<'a>(text: &[u8], room: &'a mut [u8]) -> &'a [u8] {
    let pairs = text
        .chunks(2)
        .take_while(|pair| matches!(pair, [(b'0'..), ..]));
    let used = pairs.count().min(room.len());
    for (place, pair) in room[..used].iter_mut().zip(text.chunks(2)) {
        *place = pair.iter().fold(0, |octet, &half| octet << 4 | digit(half));
    }
    &room[..used]
}

// The component at the start of a text, by its type and a prefix's form alone: no kind and no family rests on the rest of its text.
// A type past 64 bits is taken for some smaller one.
pub fn shape(text: &[u8]) -> FlowSpecComponent {
    let (digits, rest) = cut(text, |octet| !octet.is_ascii_digit());
    let number = digits.iter().fold(0u64, |number, &octet| {
        (number % 1844674407370955162 * 10).wrapping_add(u64::from(digit(octet)))
    });
    let tag = (number & 0xFF) as u8;
    if 3 <= tag {
        return rules::list_of(tag, Span { start: 0, count: 0 });
    }
    rules::prefix_of(tag, form(rest))
}

// A prefix of no length, of the form that stands behind a colon.
fn form(text: &[u8]) -> NetworkPrefix {
    match text {
        [_, b'6', b'o', ..] => NetworkPrefix::Ipv6Offset {
            length: 0,
            offset: 0,
            high: 0,
            low: 0,
        },
        [_, b'6', ..] => NetworkPrefix::Ipv6 {
            length: 0,
            high: 0,
            low: 0,
        },
        [_, _, b'o', ..] => NetworkPrefix::Ipv4Offset {
            length: 0,
            offset: 0,
            address: 0,
        },
        _ => NetworkPrefix::Ipv4 {
            length: 0,
            address: 0,
        },
    }
}

// The rule of a text, of such components.
pub fn shapes(text: &[u8]) -> FlowSpecNlri {
    let mut slots = [FlowSpecComponent::Nothing; 13];
    let mut rest = text;
    let mut count = 0;
    for (i, slot) in slots.iter_mut().enumerate() {
        if !matches!(rest, [(b'0'..), ..]) {
            break;
        }
        *slot = shape(rest);
        rest = after(rest, b';');
        count = i + 1;
    }
    FlowSpecNlri::new(slots, count)
}

#[derive(Clone, Copy)]
struct Prefix(NetworkPrefix);

impl fmt::Display for Prefix {
    fn fmt<W: fmt::Write>(&self, f: &mut fmt::Formatter<W>) -> fmt::Result {
        match self.0 {
            NetworkPrefix::Ipv4 { length, address } => write!(f, "4/{length}/{address:08X}"),
            NetworkPrefix::Ipv6 { length, high, low } => {
                write!(f, "6/{length}/{high:016X}{low:016X}")
            }
            NetworkPrefix::Ipv4Offset {
                length,
                offset,
                address,
            } => write!(f, "4o/{offset}/{length}/{address:08X}"),
            NetworkPrefix::Ipv6Offset {
                length,
                offset,
                high,
                low,
            } => write!(f, "6o/{offset}/{length}/{high:016X}{low:016X}"),
        }
    }
}

// Of the lists that a rule's operators stand in, those of one component.
#[derive(Clone, Copy)]
struct Operators<'a> {
    octets: &'a [u8],
    values: &'a [u64],
    start: usize,
    count: usize,
}

impl fmt::Display for Operators<'_> {
    fn fmt<W: fmt::Write>(&self, f: &mut fmt::Formatter<W>) -> fmt::Result {
        let Operators {
            octets,
            values,
            start,
            count,
        } = *self;
        let operators = octets.iter().zip(values).skip(start).take(count);
        for (i, (octet, value)) in operators.enumerate() {
            if 0 < i {
                write!(f, ",")?;
            }
            write!(f, "{octet:02X}={value}")?;
        }
        Ok(())
    }
}

// A whole rule: its words, and the lists that its operators stand in.
#[derive(Clone, Copy)]
pub struct Rule<'a> {
    pub words: &'a [u64; 64],
    pub values: &'a [u64],
    pub octets: &'a [u8],
}

impl fmt::Display for Rule<'_> {
    fn fmt<W: fmt::Write>(&self, f: &mut fmt::Formatter<W>) -> fmt::Result {
        let Rule {
            words,
            values,
            octets,
        } = *self;
        let count = stored::count_at(words, 0);
        if count == 0 {
            return write!(f, "-");
        }
        for i in 0..count.min(13) {
            if 0 < i {
                write!(f, ";")?;
            }
            match stored::piece_at(words, 4 * i) {
                Piece::Prefix { tag, prefix } => write!(f, "{tag}:{}", Prefix(prefix))?,
                Piece::Operators { tag, start, count } => {
                    let operators = Operators {
                        octets,
                        values,
                        start,
                        count,
                    };
                    write!(f, "{tag}:{operators}")?
                }
                Piece::NoRecord => {}
            }
        }
        Ok(())
    }
}
