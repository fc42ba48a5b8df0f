// The text of a line: fields with one blank between them, numbers in upper-case hex. Every function takes any octets: what is not there
// reads as 0.
use refusals::{Fault, Numbers};
use std::fmt;

// The number of a hex digit; 0 for any other octet.
pub fn digit(octet: u8) -> u8 {
    match octet {
        b'0'..=b'9' => octet - b'0',
        b'A'..=b'F' => octet - b'A' + 10,
        _ => 0,
    }
}

// A text in two: what stands before the first octet that `ends` it, and the rest.
pub fn cut<Ends: Fn(u8) -> bool>(text: &[u8], ends: Ends) -> (&[u8], &[u8])
    requires { (f : _) (x : _) → Ends.pre f x }
{
    match text.iter().position(|&octet| ends(octet)) {
        Some(at) => text.split_at(at),
        None => (text, &[]),
    }
}

// What stands behind the first `mark`, or nothing.
pub fn after(text: &[u8], mark: u8) -> &[u8] {
    match text.iter().position(|&octet| octet == mark) {
        Some(at) => &text[at + 1..],
        None => &[],
    }
}

// The first eight octets of a request's name, by which the calls are told apart. Octets 0 before the others don't count.
pub fn name(request: &[u8]) -> &[u8] {
    let eight = &request[..request.len().min(8)];
    let (name, _) = cut(eight, |octet| octet == b' ');
    let (_, letters) = cut(name, |octet| octet != 0);
    letters
}

// The fields of a request that have not been read.
#[derive(Clone, Copy)]
pub struct Fields<'a> {
    rest: &'a [u8],
}

impl<'a> Fields<'a> {
    // Those behind the name.
    pub fn of(request: &'a [u8]) -> Fields<'a> {
        Fields {
            rest: after(request, b' '),
        }
    }

    // The number in the next field, up to an octet below the digits; its last 16 digits count.
    pub fn number(&mut self) -> u64 {
        let (digits, _) = cut(self.rest, |octet| octet < b'0');
        self.rest = after(self.rest, b' ');
        digits
            .iter()
            .fold(0, |number, &octet| number << 4 | u64::from(digit(octet)))
    }

    pub fn octet(&mut self) -> u8 {
        (self.number() & 0xFF) as u8
    }

    pub fn flag(&mut self) -> bool {
        self.number() == 1
    }
}

// A refusal: its number and what it carries.
#[derive(Clone, Copy)]
pub struct Refusal(pub Fault);

impl fmt::Display for Refusal {
    fn fmt<W: fmt::Write>(&self, f: &mut fmt::Formatter<W>) -> fmt::Result {
        let Numbers {
            number,
            count,
            first,
            second,
        } = Numbers::from(self.0.error);
        match count {
            0 => write!(f, " {number:X}"),
            1 => write!(f, " {number:X} {first:X}"),
            _ => write!(f, " {number:X} {first:X} {second:X}"),
        }
    }
}
