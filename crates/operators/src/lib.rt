// Operator octets as records and back, and the constructors: operators.rs of the Rust, names kept. Two names there mislead and are kept all
// the same: AND joins an operator to the previous one, not the next, and `partial_match` sets the bit that asks for all of the mask.
#![tactic(auto)]

ghost use Rattle.std.specs.Prelude.{◌≡◌, true, false, ◌+◌, ◌≤◌};
ghost use Rattle.refusals.specs.Refusals.{answered};
ghost use Rattle.operators.specs.Operators.{numeric_from, bitmask_from, numeric_octet, bitmask_octet, weight_of, code_part, least_width, octet_parts, is_width, comparing, masking};
ghost use Rattle.operators.specs.Ops.{kind_of, cleared_in};

mod lent;

pub use lent::OperatorList;
use refusals::{Fault, FlowSpecError};

// What the operators of a list are.
#[derive(Clone, Copy)]
pub enum Kind {
    Numeric,
    Bitmask,
}

// Of a list component's type, the kind of its operators.
#[tactic(auto, unfolding(crate::specs::Ops::kind_of))]
pub fn kind_of(tag: u8) -> Kind
    ensures { result ≡ kind_of tag }
{
    match tag {
        9 | 12 => Kind::Bitmask,
        _ => Kind::Numeric,
    }
}

// An operator octet with its reserved bits 0.
pub fn cleared(kind: Kind, octet: u8) -> u8
    ensures { result ≡ cleared_in kind octet }
{
    match kind {
        Kind::Numeric => octet / 16 * 16 + octet % 8,
        Kind::Bitmask => octet / 16 * 16 + octet % 4,
    }
}

#[derive(Clone, Copy)]
pub struct NumericOperator {
    pub end_of_list: bool,
    pub and_with_next: bool,
    pub value_length: u8,
    pub less_than: bool,
    pub greater_than: bool,
    pub equal: bool,
    pub value: u64,
}

#[derive(Clone, Copy)]
pub struct BitmaskOperator {
    pub end_of_list: bool,
    pub and_with_next: bool,
    pub value_length: u8,
    pub not: bool,
    pub match_flag: bool,
    pub bitmask: u64,
}

// What a flag adds to an octet.
fn bit(set: bool, weight: u8) -> u8
    ensures is { result ≡ weight_of set weight }
    ensures most { result ≤ weight }
{
    if set { weight } else { 0 }
}

// What a width adds to an octet: 16 times its code.
#[tactic(auto, unfolding(crate::specs::Operators::code_part))]
fn code(width: u8) -> u8
    ensures is { result ≡ code_part width }
    ensures most { result ≤ 48 }
{
    match width {
        2 => 16,
        4 => 32,
        8 => 48,
        _ => 0,
    }
}

#[tactic(auto, unfolding(crate::specs::Operators::is_width))]
fn is_width(width: u8) -> bool
    ensures { result ≡ is_width width }
{
    matches!(width, 1 | 2 | 4 | 8)
}

// The octet of the two flags and the width that both kinds share, and of the low bits that they don't.
#[tactic(auto, unfolding(crate::specs::Operators::octet_parts))]
fn octet_of(end: bool, and: bool, width: u8, low: u8) -> Result<u8, Fault>
    requires { low ≤ 7 }
    ensures { answered result ≡ octet_parts end and width low }
{
    if is_width(width) {
        Ok(bit(end, 128) + bit(and, 64) + code(width) + low)
    } else {
        Err(FlowSpecError::BadRecord.into())
    }
}

// The least width that holds a value.
#[tactic(auto, unfolding(crate::specs::Operators::least_width))]
fn least_width(value: u64) -> u8
    ensures { result ≡ least_width value }
{
    if value <= 0xFF {
        1
    } else if value <= 0xFFFF {
        2
    } else if value <= 0xFFFF_FFFF {
        4
    } else {
        8
    }
}

impl NumericOperator {
    // The record of an octet and a value, or InvalidOperator where 0x08 is set.
    #[tactic(auto, unfolding(crate::specs::Operators::numeric_from))]
    pub fn from_byte_and_value(octet: u8, value: u64) -> Result<NumericOperator, Fault>
        ensures { answered result ≡ numeric_from octet value }
    {
        if octet / 8 % 2 == 1 {
            return Err(FlowSpecError::InvalidOperator(octet).into());
        }
        Ok(NumericOperator {
            end_of_list: octet / 128 % 2 == 1,
            and_with_next: octet / 64 % 2 == 1,
            value_length: octets::width(octet) as u8,
            less_than: octet / 4 % 2 == 1,
            greater_than: octet / 2 % 2 == 1,
            equal: octet % 2 == 1,
            value,
        })
    }

    // The record's octet, or BadRecord where its width is not 1, 2, 4 or 8.
    pub fn to_byte(self) -> Result<u8, Fault>
        ensures { answered result ≡ numeric_octet self }
    {
        let low = bit(self.less_than, 4) + bit(self.greater_than, 2) + bit(self.equal, 1);
        octet_of(self.end_of_list, self.and_with_next, self.value_length, low)
    }

    pub fn equal_to(value: u64) -> NumericOperator
        ensures { result ≡ comparing false false true value }
    {
        NumericOperator {
            end_of_list: true,
            and_with_next: false,
            value_length: least_width(value),
            less_than: false,
            greater_than: false,
            equal: true,
            value,
        }
    }

    pub fn greater_than_or_equal(value: u64) -> NumericOperator
        ensures { result ≡ comparing false true true value }
    {
        NumericOperator {
            end_of_list: true,
            and_with_next: false,
            value_length: least_width(value),
            less_than: false,
            greater_than: true,
            equal: true,
            value,
        }
    }
}

impl BitmaskOperator {
    // The record of an octet and a mask, or InvalidOperator where a bit of 0x0C is set.
    #[tactic(auto, unfolding(crate::specs::Operators::bitmask_from))]
    pub fn from_byte_and_value(octet: u8, bitmask: u64) -> Result<BitmaskOperator, Fault>
        ensures { answered result ≡ bitmask_from octet bitmask }
    {
        if octet / 4 % 4 != 0 {
            return Err(FlowSpecError::InvalidOperator(octet).into());
        }
        Ok(BitmaskOperator {
            end_of_list: octet / 128 % 2 == 1,
            and_with_next: octet / 64 % 2 == 1,
            value_length: octets::width(octet) as u8,
            not: octet / 2 % 2 == 1,
            match_flag: octet % 2 == 1,
            bitmask,
        })
    }

    // The record's octet, or BadRecord where its width is not 1, 2, 4 or 8.
    pub fn to_byte(self) -> Result<u8, Fault>
        ensures { answered result ≡ bitmask_octet self }
    {
        let low = bit(self.not, 2) + bit(self.match_flag, 1);
        octet_of(self.end_of_list, self.and_with_next, self.value_length, low)
    }

    pub fn exact_match(bitmask: u64) -> BitmaskOperator
        ensures { result ≡ masking false false bitmask }
    {
        BitmaskOperator {
            end_of_list: true,
            and_with_next: false,
            value_length: least_width(bitmask),
            not: false,
            match_flag: false,
            bitmask,
        }
    }

    pub fn partial_match(bitmask: u64) -> BitmaskOperator
        ensures { result ≡ masking false true bitmask }
    {
        BitmaskOperator {
            end_of_list: true,
            and_with_next: false,
            value_length: least_width(bitmask),
            not: false,
            match_flag: true,
            bitmask,
        }
    }
}
