// The rule by value, FlowSpecNlri, to the words of a lent list and back. A rule by value has more than 400 octets: it is the form for one rule, off the path
// that lent rules take.
//
// The functions with a `requires` are no entry points.
#![tactic(auto)]

ghost use Rattle.std.specs.Prelude.{◌≡◌, true, false, map, ◌+◌, ◌*◌, ◌≤◌, length, Ok};
ghost use Rattle.std.proofs.lemmas.List.Edits.{sets};
ghost use Rattle.ground.specs.Answers.{accepts};
ghost use Rattle.refusals.specs.Refusals.{answered, answered_by};
ghost use Rattle.rules.specs.Components.{holds_one};
ghost use Rattle.stored.specs.Pieces.{is_record};
ghost use Rattle.stored.specs.Stored.{all_words, pieces_from, rule_at};
ghost use Rattle.stored.proofs.Inverse.{Fit, FitAll};
ghost use Rattle.nlri.specs.Nlri.{apart, joined, slots_of, stored_of, rule_in, store_answer, store_into};
ghost use Rattle.operators.specs.Ops.{octet_of, number_of};
ghost use Rattle.choices.specs.declared.Reading.{Reading};
ghost use Rattle.reading.specs.Readings.{read_into, operators_of};
ghost use Rattle.writing.specs.Writings.{counted, octets_in};
ghost use Rattle.nlri.specs.Calls.{parsed_of, written_nlri};

use choices::Reading;
use reading::Taken;
use refusals::{Fault, FlowSpecError};
use rules::{FlowSpecComponent, FlowSpecNlri, Span};
use stored::Piece;

// The piece that a component is. Nothing else takes a component apart. No `From`, since both types are other crates'.
pub fn piece_of(component: FlowSpecComponent) -> Piece
    ensures is { result ≡ apart component }
    ensures fits { is_record result ≡ true → Fit result }
{
    let tag = component.component_type();
    match component {
        FlowSpecComponent::Nothing => Piece::NoRecord,
        FlowSpecComponent::DestinationPrefix(prefix) | FlowSpecComponent::SourcePrefix(prefix) => {
            Piece::Prefix { tag, prefix }
        }
        FlowSpecComponent::IpProtocol(Span { start, count })
        | FlowSpecComponent::Port(Span { start, count })
        | FlowSpecComponent::DestinationPort(Span { start, count })
        | FlowSpecComponent::SourcePort(Span { start, count })
        | FlowSpecComponent::IcmpType(Span { start, count })
        | FlowSpecComponent::IcmpCode(Span { start, count })
        | FlowSpecComponent::TcpFlags(Span { start, count })
        | FlowSpecComponent::PacketLength(Span { start, count })
        | FlowSpecComponent::Dscp(Span { start, count })
        | FlowSpecComponent::Fragment(Span { start, count })
        | FlowSpecComponent::FlowLabel(Span { start, count }) => {
            Piece::Operators { tag, start, count }
        }
    }
}

// The component that a piece is.
pub fn component_of(piece: Piece) -> FlowSpecComponent
    ensures { result ≡ joined piece }
{
    match piece {
        Piece::Prefix { tag, prefix } => rules::prefix_of(tag, prefix),
        Piece::Operators { tag, start, count } => rules::list_of(tag, Span { start, count }),
        Piece::NoRecord => FlowSpecComponent::Nothing,
    }
}

#[tactic(auto, unfolding(stored::specs::Stored::pieces_from), using(crate::proofs::Slots::slots_turn))]
fn slots_at(words: &[u64], base: usize, count: usize) -> [FlowSpecComponent; 13]
    requires { (count ≤ 13) × (base + 4 * count ≤ length words.now) }
    ensures { result ≡ slots_of (pieces_from count words.now base) }
{
    let mut slots = [FlowSpecComponent::Nothing; 13];
    for i in 0..count {
        slots[i] = component_of(stored::piece_at(words, base + 4 * i));
    }
    slots
}

// The rule at a place of a lent list.
#[tactic(auto, unfolding(stored::specs::Stored::rule_at), using(stored::proofs::Words::framed, stored::proofs::Words::rule_framed, crate::proofs::Slots::rule_is, crate::proofs::Slots::stored_again))]
pub fn rule_at(words: &[u64], place: usize) -> Result<FlowSpecNlri, Fault>
    ensures told { answered_by stored_of result ≡ rule_at words.now place }
    ensures rule { answered result ≡ rule_in (rule_at words.now place) }
{
    if words.len() / 64 <= place || !stored::is_rule(words, 64 * place) {
        return Err(FlowSpecError::BadRecord.into());
    }
    let base = 64 * place;
    let count = stored::count_at(words, base);
    Ok(FlowSpecNlri {
        slots: slots_at(words, base, count),
        count,
        family: stored::family_at(words, base) as u8,
        first: stored::first_at(words, base),
        distinguisher: stored::distinguisher_at(words, base),
    })
}

// None of the components is an unused place.
#[tactic(auto, using(crate::proofs::Slots::record_there, crate::proofs::Slots::put_more, crate::proofs::Slots::put_end, crate::proofs::Slots::fit_more, crate::proofs::Slots::all_fit))]
fn put_slots(words: &mut [u64], base: usize, components: &[FlowSpecComponent])
    requires room { base + 4 * length components.now ≤ length words.old }
    requires components_value { holds_one 1 components.now ≡ false }
    ensures out { words.new ≡ sets words.old base (all_words (map apart components.now)) }
    ensures fits { FitAll (map apart components.now) }
{
    for (i, component) in components.iter().enumerate() {
        stored::put_piece(words, base + 4 * i, piece_of(*component));
    }
}

// A rule to a place of a lent list. The places needed are one more than the place; of the last place that a usize can name, the place itself.
// What was stored is what is read there.
#[tactic(auto, unfolding(crate::specs::Nlri::store_answer, crate::specs::Nlri::store_into), using(crate::proofs::Stores::stored_whole, crate::proofs::Stores::stored_back))]
pub fn put_rule(words: &mut [u64], place: usize, rule: FlowSpecNlri) -> Result<(), Fault>
    ensures told { answered result ≡ store_answer words.old place rule }
    ensures words { words.new ≡ store_into words.old place rule }
    ensures back { result ≡ Ok tt → rule_at words.new place ≡ accepts (stored_of rule) }
{
    let FlowSpecNlri {
        slots,
        count,
        family,
        first,
        distinguisher,
    } = rule;
    if 13 < count || rule.holds_nothing() {
        return Err(FlowSpecError::BadRecord.into());
    }
    if words.len() / 64 <= place {
        return Err(FlowSpecError::NoRoom(place.saturating_add(1)).into());
    }
    let base = 64 * place;
    put_slots(words, base, &slots[..count]);
    stored::put_tail(words, base, count, family, first);
    stored::put_distinguisher(words, base, distinguisher);
    Ok(())
}

// What was read: what was taken of the input, and the rule by value.
#[derive(Clone, Copy)]
pub struct Parsed {
    pub taken: Taken,
    pub rule: FlowSpecNlri,
}

// The plain reading with the rule by value.
#[tactic(auto, using(crate::proofs::Calls::parsed_read, crate::proofs::Calls::parsed_refused))]
pub fn parse_flowspec_nlri(
    input: &[u8],
    values: &mut [u64],
    octets: &mut [u8],
) -> Result<Parsed, Fault>
    ensures answer { answered result ≡ parsed_of (read_into Reading.Plain false input.now 64 (length values.old) (length octets.old)) }
    ensures values { values.new ≡ sets values.old 0 (map number_of (operators_of (read_into Reading.Plain false input.now 64 (length values.old) (length octets.old)))) }
    ensures octets { octets.new ≡ sets octets.old 0 (map octet_of (operators_of (read_into Reading.Plain false input.now 64 (length values.old) (length octets.old)))) }
{
    let mut words = [0u64; 64];
    let taken = reading::read_into(Reading::Plain, 0, input, &mut words, values, octets)?;
    let rule = rule_at(&words, 0)?;
    Ok(Parsed { taken, rule })
}

// The plain writing of a rule by value. It goes through words.
#[tactic(auto, using(crate::proofs::Calls::value_refused, crate::proofs::Calls::value_kept, crate::proofs::Calls::value_is))]
pub fn encode_flowspec_nlri(
    nlri: FlowSpecNlri,
    values: &[u64],
    octets: &[u8],
    out: &mut [u8],
) -> Result<usize, Fault>
    ensures told { answered result ≡ counted (written_nlri nlri values.now octets.now (length out.old)) }
    ensures octets { out.new ≡ sets out.old 0 (octets_in (written_nlri nlri values.now octets.now (length out.old))) }
{
    let mut words = [0u64; 64];
    put_rule(&mut words, 0, nlri)?;
    writing::write_from(Reading::Plain, &words, values, octets, out)
}
