// A rule: its components and prefixes, and their types (mod.rs). A list component names its operators by a start and a count; the
// operators themselves stand in lent lists.
#![tactic(auto)]

ghost use Rattle.std.specs.Prelude.{◌≡◌, eqb, None};
ghost use Rattle.rules.specs.Components.{type_of, bitmask_type, numeric_type, prefix_of, list_of, counts_as, holds_one, components_of, component_in};

// An address with a length. The two forms with an offset are RFC 8956's; the Rust has them as components of their own.
#[derive(Clone, Copy)]
pub enum NetworkPrefix {
    Ipv4 {
        length: u8,
        address: u32,
    },
    Ipv6 {
        length: u8,
        high: u64,
        low: u64,
    },
    Ipv4Offset {
        length: u8,
        offset: u8,
        address: u32,
    },
    Ipv6Offset {
        length: u8,
        offset: u8,
        high: u64,
        low: u64,
    },
}

// A list's operators: places counted from the rule's own first place.
#[derive(Clone, Copy)]
pub struct Span {
    pub start: usize,
    pub count: usize,
}

// Nothing is what an unused place of a rule holds; it is no component of a rule.
#[derive(Clone, Copy)]
pub enum FlowSpecComponent {
    Nothing,
    DestinationPrefix(NetworkPrefix),
    SourcePrefix(NetworkPrefix),
    IpProtocol(Span),
    Port(Span),
    DestinationPort(Span),
    SourcePort(Span),
    IcmpType(Span),
    IcmpCode(Span),
    TcpFlags(Span),
    PacketLength(Span),
    Dscp(Span),
    Fragment(Span),
    FlowLabel(Span),
}

// At most 13 components. `family` is 0 for a plain rule, else 4 or 6; `first` is the place in the lent lists where the rule's operators
// begin, 0 as a reading gives it. A rule of a virtual network has a route distinguisher: eight octets, held as the number that they spell.
#[derive(Clone, Copy)]
pub struct FlowSpecNlri {
    pub slots: [FlowSpecComponent; 13],
    pub count: usize,
    pub family: u8,
    pub first: usize,
    pub distinguisher: Option<u64>,
}

impl FlowSpecComponent {
    pub fn component_type(self) -> u8
        ensures { result ≡ type_of self }
    {
        match self {
            FlowSpecComponent::Nothing => 0,
            FlowSpecComponent::DestinationPrefix(_) => 1,
            FlowSpecComponent::SourcePrefix(_) => 2,
            FlowSpecComponent::IpProtocol(_) => 3,
            FlowSpecComponent::Port(_) => 4,
            FlowSpecComponent::DestinationPort(_) => 5,
            FlowSpecComponent::SourcePort(_) => 6,
            FlowSpecComponent::IcmpType(_) => 7,
            FlowSpecComponent::IcmpCode(_) => 8,
            FlowSpecComponent::TcpFlags(_) => 9,
            FlowSpecComponent::PacketLength(_) => 10,
            FlowSpecComponent::Dscp(_) => 11,
            FlowSpecComponent::Fragment(_) => 12,
            FlowSpecComponent::FlowLabel(_) => 13,
        }
    }

    pub fn uses_numeric_operators(self) -> bool
        ensures { result ≡ numeric_type (type_of self) }
    {
        is_numeric(self.component_type())
    }

    pub fn uses_bitmask_operators(self) -> bool
        ensures { result ≡ bitmask_type (type_of self) }
    {
        is_bitmask(self.component_type())
    }

    // What the component counts as where a rule is asked for one: 4 or 6 for a family, 1 for nothing, else 0.
    pub fn counts_as(self) -> u8
        ensures { result ≡ counts_as self }
    {
        match self {
            FlowSpecComponent::Nothing => 1,
            FlowSpecComponent::DestinationPrefix(NetworkPrefix::Ipv4 { .. })
            | FlowSpecComponent::SourcePrefix(NetworkPrefix::Ipv4 { .. }) => 4,
            FlowSpecComponent::DestinationPrefix(_)
            | FlowSpecComponent::SourcePrefix(_)
            | FlowSpecComponent::FlowLabel(_) => 6,
            _ => 0,
        }
    }

    pub fn is_nothing(self) -> bool
        ensures { result ≡ eqb (counts_as self) 1 }
    {
        matches!(self, FlowSpecComponent::Nothing)
    }

    // A prefix is of IPv4 or IPv6 by its address, but each form with an offset is IPv6, whatever address it holds; so is a flow label.
    pub fn is_ipv4(self) -> bool
        ensures { result ≡ eqb (counts_as self) 4 }
    {
        matches!(
            self,
            FlowSpecComponent::DestinationPrefix(NetworkPrefix::Ipv4 { .. })
                | FlowSpecComponent::SourcePrefix(NetworkPrefix::Ipv4 { .. })
        )
    }

    pub fn is_ipv6(self) -> bool
        ensures { result ≡ eqb (counts_as self) 6 }
    {
        match self {
            FlowSpecComponent::DestinationPrefix(prefix)
            | FlowSpecComponent::SourcePrefix(prefix) => {
                !matches!(prefix, NetworkPrefix::Ipv4 { .. })
            }
            FlowSpecComponent::FlowLabel(_) => true,
            _ => false,
        }
    }
}

// Types 9 and 12 are bitmask lists, 1 and 2 prefixes, the others numeric lists.
fn is_bitmask(tag: u8) -> bool
    ensures { result ≡ bitmask_type tag }
{
    matches!(tag, 9 | 12)
}

fn is_numeric(tag: u8) -> bool
    ensures { result ≡ numeric_type tag }
{
    tag >= 3 && !is_bitmask(tag)
}

// The prefix component of a type, 1 or 2.
pub fn prefix_of(tag: u8, prefix: NetworkPrefix) -> FlowSpecComponent
    ensures { result ≡ prefix_of tag prefix }
{
    if tag == 1 {
        FlowSpecComponent::DestinationPrefix(prefix)
    } else {
        FlowSpecComponent::SourcePrefix(prefix)
    }
}

// The list component of a type, 3 to 13.
#[tactic(auto, unfolding(crate::specs::Components::list_of))]
pub fn list_of(tag: u8, span: Span) -> FlowSpecComponent
    ensures { result ≡ list_of tag span }
{
    match tag {
        3 => FlowSpecComponent::IpProtocol(span),
        4 => FlowSpecComponent::Port(span),
        5 => FlowSpecComponent::DestinationPort(span),
        6 => FlowSpecComponent::SourcePort(span),
        7 => FlowSpecComponent::IcmpType(span),
        8 => FlowSpecComponent::IcmpCode(span),
        9 => FlowSpecComponent::TcpFlags(span),
        10 => FlowSpecComponent::PacketLength(span),
        11 => FlowSpecComponent::Dscp(span),
        12 => FlowSpecComponent::Fragment(span),
        _ => FlowSpecComponent::FlowLabel(span),
    }
}

impl FlowSpecNlri {
    // A plain rule without a distinguisher, whose operators stand at the start of the lent lists.
    pub fn new(slots: [FlowSpecComponent; 13], count: usize) -> FlowSpecNlri
        ensures { result ≡ record { slots = slots; count = count; family = 0; first = 0; distinguisher = None } }
    {
        FlowSpecNlri {
            slots,
            count,
            family: 0,
            first: 0,
            distinguisher: None,
        }
    }

    fn components(&self) -> &[FlowSpecComponent]
        ensures { result.now ≡ components_of self.now }
    {
        &self.slots[..self.count.min(13)]
    }

    // The component at a place, Nothing past the last.
    pub fn component(self, place: usize) -> FlowSpecComponent
        ensures { result ≡ component_in self place }
    {
        self.components()
            .get(place)
            .copied()
            .unwrap_or(FlowSpecComponent::Nothing)
    }

    // Whether one of the components counts so.
    pub fn holds(self, mark: u8) -> bool
        ensures { result ≡ holds_one mark (components_of self) }
    {
        self.components()
            .iter()
            .any(|component| component.counts_as() == mark)
    }

    // Whether one of the components is Nothing, so that it is no rule.
    pub fn holds_nothing(self) -> bool
        ensures { result ≡ holds_one 1 (components_of self) }
    {
        self.components()
            .iter()
            .any(|component| component.is_nothing())
    }

    pub fn is_ipv4(self) -> bool
        ensures { result ≡ holds_one 4 (components_of self) }
    {
        self.components()
            .iter()
            .any(|component| component.is_ipv4())
    }

    pub fn is_ipv6(self) -> bool
        ensures { result ≡ holds_one 6 (components_of self) }
    {
        self.components()
            .iter()
            .any(|component| component.is_ipv6())
    }
}
