// What a call refuses with. The names are the Rust's where it has one; the others, from the seventh on, are the documents'.
#![tactic(auto)]

ghost use Rattle.std.specs.Prelude.{◌≡◌, [], ◌∷◌};
ghost use Rattle.refusals.specs.declared.FlowSpecError.TheVariants.{Outer};
ghost use Rattle.ground.specs.Answers.{moved_by};
ghost use Rattle.refusals.specs.Refusals.{outer_number, outer_carried, number_of, carried_of, numbers_of, fault_at, fault_of, told, Movable};

// Refusals of what is built around rules: attributes, headers, distinguishers, tables, texts, actions, logs.
#[derive(Clone, Copy)]
pub enum OuterError {
    BadAttribute,
    ShortPacket,
    BadHeader,
    TooManyHeaders,
    ShortDistinguisher,
    MixedDistinguisher(usize),
    TableFull,
    NotStored,
    BadLine(usize),
    NoOldForm,
    UnknownAction,
    BadRate,
    PastEnd,
}

#[derive(Clone, Copy)]
pub enum FlowSpecError {
    InsufficientData,
    InvalidComponentOrder {
        expected_greater_than: u8,
        found: u8,
    },
    InvalidComponentType(u8),
    InvalidPrefix,
    InvalidOperator(u8),
    InvalidValueLength(u8),
    ValueTooLarge(usize),
    InputTooLong(usize),
    NoRoom(usize),
    BadRecord,
    BadFamily(u8),
    TooManyRules(usize),
    BadPacket,
    MixedFamily(usize),
    Outer(OuterError),
}

// A refusal on its way up, and where it broke: at an octet, whose place is counted from the start of the octets that were lent, or nowhere in them.
// The place stands first: behind the error, a check compiles to half as much code again.
#[derive(Clone, Copy)]
pub struct Fault {
    pub place: Option<usize>,
    pub error: FlowSpecError,
}

impl FlowSpecError {
    // The refusal of an octet.
    pub fn at(self, octet: usize) -> Fault
        ensures { result ≡ fault_at octet self }
    {
        Fault {
            place: Some(octet),
            error: self,
        }
    }
}

// Nowhere in the octets, if there are any.
impl From<FlowSpecError> for Fault {
    ghost from_gives = { λ error fault. fault ≡ fault_of error };

    fn from(error: FlowSpecError) -> Fault {
        Fault { place: None, error }
    }
}

impl From<OuterError> for FlowSpecError {
    ghost from_gives = { λ outer error. error ≡ Outer outer };

    fn from(outer: OuterError) -> FlowSpecError {
        FlowSpecError::Outer(outer)
    }
}

impl Fault {
    // The refusal of a part, told of the octets that the part was lent from: its place is moved by the part's start. No entry point.
    pub fn moved(self, start: usize) -> Fault
        requires { Movable start self.place }
        ensures { told result ≡ moved_by start (told self) }
    {
        match self.place {
            None => self,
            Some(at) => self.error.at(start + at),
        }
    }
}

// A refusal as the documents number it: its number, how many numbers it carries, and those, 0 where there is none.
#[derive(Clone, Copy)]
pub struct Numbers {
    pub number: u8,
    pub count: u8,
    pub first: u64,
    pub second: u64,
}

// The numbers of a refusal that carries nothing, and of one that carries one number.
fn alone(number: u8) -> Numbers
    ensures { result ≡ numbers_of number [] }
{
    Numbers {
        number,
        count: 0,
        first: 0,
        second: 0,
    }
}

fn carrying(number: u8, first: u64) -> Numbers
    ensures { result ≡ numbers_of number (first ∷ []) }
{
    Numbers {
        number,
        count: 1,
        first,
        second: 0,
    }
}

impl From<OuterError> for Numbers {
    ghost from_gives = { λ error numbers. numbers ≡ numbers_of (outer_number error) (outer_carried error) };

    fn from(error: OuterError) -> Numbers {
        match error {
            OuterError::BadAttribute => alone(15),
            OuterError::ShortPacket => alone(16),
            OuterError::BadHeader => alone(17),
            OuterError::TooManyHeaders => alone(18),
            OuterError::ShortDistinguisher => alone(19),
            OuterError::MixedDistinguisher(place) => carrying(20, place as u64),
            OuterError::TableFull => alone(21),
            OuterError::NotStored => alone(22),
            OuterError::BadLine(line) => carrying(23, line as u64),
            OuterError::NoOldForm => alone(24),
            OuterError::UnknownAction => alone(25),
            OuterError::BadRate => alone(26),
            OuterError::PastEnd => alone(27),
        }
    }
}

// The refusal's number, and what it carries.
impl From<FlowSpecError> for Numbers {
    ghost from_gives = { λ error numbers. numbers ≡ numbers_of (number_of error) (carried_of error) };

    fn from(error: FlowSpecError) -> Numbers {
        match error {
            FlowSpecError::InsufficientData => alone(1),
            FlowSpecError::InvalidComponentOrder {
                expected_greater_than,
                found,
            } => Numbers {
                number: 2,
                count: 2,
                first: expected_greater_than as u64,
                second: found as u64,
            },
            FlowSpecError::InvalidComponentType(component_type) => {
                carrying(3, component_type as u64)
            }
            FlowSpecError::InvalidPrefix => alone(4),
            FlowSpecError::InvalidOperator(octet) => carrying(5, octet as u64),
            FlowSpecError::InvalidValueLength(code) => carrying(6, code as u64),
            FlowSpecError::ValueTooLarge(body) => carrying(7, body as u64),
            FlowSpecError::InputTooLong(size) => carrying(8, size as u64),
            FlowSpecError::NoRoom(needed) => carrying(9, needed as u64),
            FlowSpecError::BadRecord => alone(10),
            FlowSpecError::BadFamily(family) => carrying(11, family as u64),
            FlowSpecError::TooManyRules(count) => carrying(12, count as u64),
            FlowSpecError::BadPacket => alone(13),
            FlowSpecError::MixedFamily(place) => carrying(14, place as u64),
            FlowSpecError::Outer(outer) => Numbers::from(outer),
        }
    }
}
