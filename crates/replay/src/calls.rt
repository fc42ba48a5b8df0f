// The calls of the stored list, by their names, each put to the proved code and answered in the list's words.
use super::ruletext::{Rule, read_octets, shape, shapes};
use super::text::{Fields, Refusal, name};
use choices::Reading;
use operators::{BitmaskOperator, NumericOperator};
use refusals::Fault;
use std::fmt;
use std::fmt::Write;

fn put_octet(out: &mut impl Write, made: Result<u8, Fault>) -> fmt::Result {
    match made {
        Ok(octet) => write!(out, " {octet:X}"),
        Err(fault) => write!(out, "{}", Refusal(fault)),
    }
}

// A record, and the octet that it makes.
fn put_numeric(out: &mut impl Write, o: NumericOperator) -> fmt::Result {
    write!(
        out,
        " 0 {} {} {:X} {} {} {} {:X}",
        u8::from(o.end_of_list),
        u8::from(o.and_with_next),
        o.value_length,
        u8::from(o.less_than),
        u8::from(o.greater_than),
        u8::from(o.equal),
        o.value
    )?;
    put_octet(out, o.to_byte())
}

fn put_bitmask(out: &mut impl Write, o: BitmaskOperator) -> fmt::Result {
    write!(
        out,
        " 0 {} {} {:X} {} {} {:X}",
        u8::from(o.end_of_list),
        u8::from(o.and_with_next),
        o.value_length,
        u8::from(o.not),
        u8::from(o.match_flag),
        o.bitmask
    )?;
    put_octet(out, o.to_byte())
}

fn numeric(mut fields: Fields<'_>, out: &mut impl Write) -> fmt::Result {
    match NumericOperator::from_byte_and_value(fields.octet(), fields.number()) {
        Ok(o) => put_numeric(out, o),
        Err(fault) => write!(out, "{}", Refusal(fault)),
    }
}

fn bitmask(mut fields: Fields<'_>, out: &mut impl Write) -> fmt::Result {
    match BitmaskOperator::from_byte_and_value(fields.octet(), fields.number()) {
        Ok(o) => put_bitmask(out, o),
        Err(fault) => write!(out, "{}", Refusal(fault)),
    }
}

fn numeric_record(mut fields: Fields<'_>, out: &mut impl Write) -> fmt::Result {
    let o = NumericOperator {
        end_of_list: fields.flag(),
        and_with_next: fields.flag(),
        value_length: fields.octet(),
        less_than: fields.flag(),
        greater_than: fields.flag(),
        equal: fields.flag(),
        value: fields.number(),
    };
    write!(out, " 0")?;
    put_octet(out, o.to_byte())
}

fn bitmask_record(mut fields: Fields<'_>, out: &mut impl Write) -> fmt::Result {
    let o = BitmaskOperator {
        end_of_list: fields.flag(),
        and_with_next: fields.flag(),
        value_length: fields.octet(),
        not: fields.flag(),
        match_flag: fields.flag(),
        bitmask: fields.number(),
    };
    write!(out, " 0")?;
    put_octet(out, o.to_byte())
}

// The NLRI of a text by the plain reading: its rule as text.
fn parse(text: &[u8], out: &mut impl Write) -> fmt::Result {
    let mut input = [0u8; 5000];
    let mut words = [0u64; 64];
    let mut values = [0u64; 2100];
    let mut octets = [0u8; 2100];
    let nlri = read_octets(text, &mut input);
    match reading::read_into(
        Reading::Plain,
        0,
        nlri,
        &mut words,
        &mut values,
        &mut octets,
    ) {
        Ok(_) => write!(
            out,
            " 0 {}",
            Rule {
                words: &words,
                values: &values,
                octets: &octets
            }
        ),
        Err(fault) => write!(out, "{}", Refusal(fault)),
    }
}

fn kind(text: &[u8], out: &mut impl Write) -> fmt::Result {
    let component = shape(text);
    write!(
        out,
        " 0 {:X} {} {}",
        component.component_type(),
        u8::from(component.uses_numeric_operators()),
        u8::from(component.uses_bitmask_operators())
    )
}

fn family(text: &[u8], out: &mut impl Write) -> fmt::Result {
    let rule = shapes(text);
    write!(
        out,
        " 0 {} {}",
        u8::from(rule.is_ipv4()),
        u8::from(rule.is_ipv6())
    )
}

// A request from a place on, the one behind its name and a blank.
fn argument(request: &[u8], place: usize) -> &[u8] {
    request.get(place..).unwrap_or(&[])
}

// The proved code's answer to a request; nothing for a call that it does not know.
fn answer(request: &[u8], out: &mut impl Write) -> fmt::Result {
    let mut fields = Fields::of(request);
    match name(request) {
        b"numeric" => numeric(fields, out),
        b"bitmask" => bitmask(fields, out),
        b"numeric_" => numeric_record(fields, out),
        b"bitmask_" => bitmask_record(fields, out),
        b"parse" => parse(argument(request, 6), out),
        b"kind" => kind(argument(request, 5), out),
        b"family" => family(argument(request, 7), out),
        b"equal_to" => put_numeric(out, NumericOperator::equal_to(fields.number())),
        b"greater_" => put_numeric(out, NumericOperator::greater_than_or_equal(fields.number())),
        b"exact_ma" => put_bitmask(out, BitmaskOperator::exact_match(fields.number())),
        b"partial_" => put_bitmask(out, BitmaskOperator::partial_match(fields.number())),
        _ => Ok(()),
    }
}

// A stored answer, as far as no text has been found at its start. It takes a text by finding it there, and no other.
#[derive(Clone, Copy)]
struct Stored<'a> {
    rest: &'a [u8],
}

impl Write for Stored<'_> {
    fn write_str(&mut self, text: &str) -> fmt::Result {
        self.rest = self.rest.strip_prefix(text.as_bytes()).ok_or(fmt::Error)?;
        Ok(())
    }
}

// Whether a line's answer is that of the proved code. The sign between both is the first that stands after a blank: a rule's text has others.
pub fn agrees(line: &[u8]) -> bool {
    let Some(blank) = line.windows(2).position(|pair| pair == b" =".as_slice()) else {
        return false;
    };
    let mut stored = Stored {
        rest: &line[blank + 2..],
    };
    answer(&line[..blank + 1], &mut stored).is_ok() && stored.rest.is_empty()
}
