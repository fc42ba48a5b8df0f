// Whether a number satisfies a list of operators: truth of one operator, groups joined by AND, and a list of them.
#![tactic(auto)]

ghost use Rattle.std.specs.Prelude.{◌≡◌};
ghost use Rattle.operators.specs.Ops.{op};
ghost use Rattle.operators.specs.Lent.{operators_of};
ghost use Rattle.satisfying.specs.Lists.{compared, met, masked, truth_of, list_matches};

use operators::{Kind, OperatorList};
use std::cmp::Ordering;

// How a list is put to a number: by comparisons or by masks, and in which bits an operator's value counts.
#[derive(Clone, Copy)]
pub struct Test {
    pub kind: Kind,
    pub bits: u64,
}

// How a number may stand to an operator's value: a bit for each of the three ways.
const LESS: u8 = 0b100;

const EQUAL: u8 = 0b010;

const GREATER: u8 = 0b001;

// The table of RFC 8955, 4.2.1.1: what a numeric operator asks for, by the three low bits of its octet: less, greater, equal. An entry has the
// bits of the ways that make it true.
const MEANINGS: [u8; 8] = [
    0, // 0 0 0: false
    EQUAL, // 0 0 1: ==
    GREATER, // 0 1 0: >
    GREATER | EQUAL, // 0 1 1: >=
    LESS, // 1 0 0: <
    LESS | EQUAL, // 1 0 1: <=
    LESS | GREATER, // 1 1 0: !=
    LESS | GREATER | EQUAL, // 1 1 1: true
];

// Whether the operator's entry of the table has the way in which the number stands to the value.
fn compare(octet: u8, value: u64, datum: u64) -> bool
    ensures { result ≡ compared octet value datum }
{
    let meaning = MEANINGS[usize::from(octet % 8)];
    let way = match datum.cmp(&value) {
        Ordering::Less => LESS,
        Ordering::Equal => EQUAL,
        Ordering::Greater => GREATER,
    };
    meaning & way != 0
}

// 0x01 match: all bits of the value; else some of them.
fn meets(octet: u8, value: u64, datum: u64) -> bool
    ensures { result ≡ met octet value datum }
{
    let both = datum & value;
    if octet % 2 == 1 {
        both == value
    } else {
        both != 0
    }
}

// 0x02 NOT inverts.
#[tactic(auto, using(crate::proofs::Truths::turned))]
fn mask(octet: u8, value: u64, datum: u64) -> bool
    ensures { result ≡ masked octet value datum }
{
    let inverts = octet / 2 % 2 == 1;
    meets(octet, value, datum) != inverts
}

// One operator of a number.
fn truth(test: Test, octet: u8, value: u64, datum: u64) -> bool
    ensures { result ≡ truth_of test datum (op octet value) }
{
    let counted = value & test.bits;
    match test.kind {
        Kind::Numeric => compare(octet, counted, datum),
        Kind::Bitmask => mask(octet, counted, datum),
    }
}

// Whether a number satisfies a list of operators. The first group that is true answers.
pub fn list_matches(test: Test, list: OperatorList, datum: u64) -> bool
    ensures { result ≡ list_matches (truth_of test datum) (operators_of list.entry) }
{
    let OperatorList { values, octets } = list;
    if octets.is_empty() {
        return false;
    }
    let mut group = truth(test, octets[0], values[0], datum);
    for place in 1..octets.len() {
        let octet = octets[place];
        let and = octet / 64 % 2 == 1;
        if !and & group {
            return true;
        }
        group = (!and | group) & truth(test, octet, values[place], datum);
    }
    group
}
