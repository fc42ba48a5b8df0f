// One operator by itself: its octet and value as a record, the octet of a record, and the constructors.
ghost use Rattle.std.specs.Prelude.{◌≡◌, ◌≤◌};
ghost use Rattle.refusals.specs.Refusals.{answered, number_of, carried_of};
ghost use Rattle.operators.specs.Operators.{weight_of};
ghost use Rattle.krubbadin.specs.Single.{numeric_numbers, bitmask_numbers, numeric_answer, bitmask_answer, octet_answer, operator_read, is_record, record_octet, operator_written, operator_made, no_operator};

use crate::{KrubbadinAnswer, given};
use operators::{BitmaskOperator, NumericOperator};
use refusals::{Fault, FlowSpecError, Numbers};

// An operator record, 1 where a flag is set. `flags` are numeric 4 less, 2 greater, 1 equal; bitmask 2 NOT, 1 match. Where `status` is a
// refusal's number, `carried` is what it carries and all else is 0.
#[repr(C)]
#[derive(Clone, Copy)]
pub struct KrubbadinOperator {
    pub status: u64,
    pub carried: u64,
    pub end_of_list: u64,
    pub and_with_next: u64,
    pub value_length: u64,
    pub flags: u64,
    pub value: u64,
}

fn weight(set: bool, n: u64) -> u64
    ensures is { result ≡ weight_of set n }
    ensures most { result ≤ n }
{
    if set { n } else { 0 }
}

impl From<FlowSpecError> for KrubbadinOperator {
    ghost from_gives = { λ error answer. answer ≡ no_operator (number_of error) (carried_of error) };

    fn from(error: FlowSpecError) -> KrubbadinOperator {
        let Numbers { number, first, .. } = error.into();
        KrubbadinOperator {
            status: number as u64,
            carried: first,
            end_of_list: 0,
            and_with_next: 0,
            value_length: 0,
            flags: 0,
            value: 0,
        }
    }
}

fn numeric_numbers(o: NumericOperator) -> KrubbadinOperator
    ensures { result ≡ numeric_numbers o }
{
    KrubbadinOperator {
        status: 0,
        carried: 0,
        end_of_list: weight(o.end_of_list, 1),
        and_with_next: weight(o.and_with_next, 1),
        value_length: o.value_length as u64,
        flags: weight(o.less_than, 4) + weight(o.greater_than, 2) + weight(o.equal, 1),
        value: o.value,
    }
}

fn bitmask_numbers(o: BitmaskOperator) -> KrubbadinOperator
    ensures { result ≡ bitmask_numbers o }
{
    KrubbadinOperator {
        status: 0,
        carried: 0,
        end_of_list: weight(o.end_of_list, 1),
        and_with_next: weight(o.and_with_next, 1),
        value_length: o.value_length as u64,
        flags: weight(o.not, 2) + weight(o.match_flag, 1),
        value: o.bitmask,
    }
}

fn numeric_answer(read: Result<NumericOperator, Fault>) -> KrubbadinOperator
    ensures { result ≡ numeric_answer (answered read) }
{
    match read {
        Ok(o) => numeric_numbers(o),
        Err(fault) => fault.error.into(),
    }
}

fn bitmask_answer(read: Result<BitmaskOperator, Fault>) -> KrubbadinOperator
    ensures { result ≡ bitmask_answer (answered read) }
{
    match read {
        Ok(o) => bitmask_numbers(o),
        Err(fault) => fault.error.into(),
    }
}

// The record of an octet and its value: numeric with `bitmask` 0, else bitmask.
#[unsafe(no_mangle)]
#[tactic(auto, unfolding(crate::specs::Single::operator_read))]
pub extern "C" fn krubbadin_operator_read(bitmask: u8, octet: u8, value: u64) -> KrubbadinOperator
    ensures { result ≡ operator_read bitmask octet value }
{
    if bitmask == 0 {
        return numeric_answer(NumericOperator::from_byte_and_value(octet, value));
    }
    bitmask_answer(BitmaskOperator::from_byte_and_value(octet, value))
}

fn octet_answer(made: Result<u8, Fault>) -> KrubbadinAnswer
    ensures { result ≡ octet_answer (answered made) }
{
    match made {
        Ok(octet) => given(octet as u64, 0),
        Err(fault) => fault.into(),
    }
}

// Whether numbers are those of a record, its width aside.
#[tactic(auto, unfolding(crate::specs::Single::is_record))]
fn is_record(bitmask: u8, end: u8, also: u8, flags: u8) -> bool
    ensures { result ≡ is_record bitmask end also flags }
{
    let most = if bitmask == 0 { 7 } else { 3 };
    end <= 1 && also <= 1 && flags <= most
}

#[tactic(auto, unfolding(crate::specs::Single::record_octet))]
fn record_octet(bitmask: u8, end: u8, also: u8, width: u8, flags: u8) -> Result<u8, Fault>
    ensures { answered result ≡ record_octet bitmask end also width flags }
{
    if bitmask == 0 {
        return NumericOperator {
            end_of_list: end == 1,
            and_with_next: also == 1,
            value_length: width,
            less_than: flags / 4 % 2 == 1,
            greater_than: flags / 2 % 2 == 1,
            equal: flags % 2 == 1,
            value: 0,
        }
        .to_byte();
    }
    BitmaskOperator {
        end_of_list: end == 1,
        and_with_next: also == 1,
        value_length: width,
        not: flags / 2 % 2 == 1,
        match_flag: flags % 2 == 1,
        bitmask: 0,
    }
    .to_byte()
}

// The octet of a record. Numbers that no record has are BadRecord.
#[unsafe(no_mangle)]
#[tactic(auto, unfolding(crate::specs::Single::operator_written))]
pub extern "C" fn krubbadin_operator_write(
    bitmask: u8,
    end: u8,
    also: u8,
    width: u8,
    flags: u8,
) -> KrubbadinAnswer
    ensures { result ≡ operator_written bitmask end also width flags }
{
    if is_record(bitmask, end, also, flags) {
        return octet_answer(record_octet(bitmask, end, also, width, flags));
    }
    KrubbadinAnswer {
        status: 10,
        first: 0,
        second: 0,
        place: crate::NOWHERE,
    }
}

// An operator that stands alone, by one of the constructors: 0 equal_to, 1 greater_than_or_equal, 2 exact_match, 3 partial_match. There is
// no other: BadRecord.
#[unsafe(no_mangle)]
#[tactic(auto, unfolding(crate::specs::Single::operator_made))]
pub extern "C" fn krubbadin_operator_make(which: u8, value: u64) -> KrubbadinOperator
    ensures { result ≡ operator_made which value }
{
    match which {
        0 => numeric_numbers(NumericOperator::equal_to(value)),
        1 => numeric_numbers(NumericOperator::greater_than_or_equal(value)),
        2 => bitmask_numbers(BitmaskOperator::exact_match(value)),
        3 => bitmask_numbers(BitmaskOperator::partial_match(value)),
        _ => FlowSpecError::BadRecord.into(),
    }
}
