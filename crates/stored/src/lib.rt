// The layout of a rule in 64 words of a lent list, and nothing else knows it. No list of rules can be lent as such; words can, and a walk
// takes a rule apart one piece at a time with nothing copied.
//
// The functions with a `requires` are no entry points: they serve loops that have tested what is asked.
#![tactic(auto)]

ghost use Rattle.std.specs.Prelude.{◌≡◌, ◌∷◌, [], ◌+◌, ◌-◌, ◌*◌, ◌/◌, ◌%◌, ◌≤◌, ◌<◌, eqb, length, replicate, bit_or, None};
ghost use Rattle.std.specs.List.{fold};
ghost use Rattle.std.proofs.lemmas.List.Edits.{sets};
ghost use Rattle.stored.specs.Pieces.{quad_of, quad_words, piece_words, network_of, quad_at, piece_of, piece_at, is_record};
ghost use Rattle.stored.specs.Views.{Shows};
ghost use Rattle.stored.specs.Distinguishers.{same_distinguisher, distinguisher_at, is_distinguisher, distinguished_with};
ghost use Rattle.stored.specs.Stored.{head, tail_words, count_at, family_at, first_at, records_from, zeros_from, is_framed, is_rule};

use rules::NetworkPrefix;

// A component taken apart: its type octet, with its prefix or the places of its operators, counted from the rule's first. Eleven types of list
// differ in nothing but the type, so that a walk has two cases and not thirteen.
#[derive(Clone, Copy)]
pub enum Piece {
    Prefix { tag: u8, prefix: NetworkPrefix },
    Operators { tag: u8, start: usize, count: usize },
    NoRecord,
}

// Four words; the first holds the type, and for a prefix its form.
#[derive(Clone, Copy, PartialEq, Eq, Default)]
pub struct Quad {
    pub mark: u64,
    pub a: u64,
    pub b: u64,
    pub c: u64,
}

impl Quad {
    // The prefix that the words name, each cut to the width of what it names.
    fn network(self) -> NetworkPrefix
        ensures { result ≡ network_of (self.mark / 16) self.a self.b self.c }
    {
        let Quad { mark, a, b, c } = self;
        let length = (a % 256) as u8;
        let offset = (a / 256 % 256) as u8;
        let address = (b % 4294967296) as u32;
        match mark / 16 {
            0 => NetworkPrefix::Ipv4 { length, address },
            1 => NetworkPrefix::Ipv6 {
                length,
                high: b,
                low: c,
            },
            2 => NetworkPrefix::Ipv4Offset {
                length,
                offset,
                address,
            },
            _ => NetworkPrefix::Ipv6Offset {
                length,
                offset,
                high: b,
                low: c,
            },
        }
    }
}

// The four words of a piece.
impl From<Piece> for Quad {
    ghost from_gives = { λ piece result. result ≡ quad_of piece };

    fn from(piece: Piece) -> Quad {
        match piece {
            Piece::Prefix {
                tag,
                prefix: NetworkPrefix::Ipv4 { length, address },
            } => Quad {
                mark: tag as u64,
                a: length as u64,
                b: address as u64,
                c: 0,
            },
            Piece::Prefix {
                tag,
                prefix: NetworkPrefix::Ipv6 { length, high, low },
            } => Quad {
                mark: tag as u64 + 16,
                a: length as u64,
                b: high,
                c: low,
            },
            Piece::Prefix {
                tag,
                prefix: NetworkPrefix::Ipv4Offset {
                    length,
                    offset,
                    address,
                },
            } => Quad {
                mark: tag as u64 + 32,
                a: length as u64 + 256 * offset as u64,
                b: address as u64,
                c: 0,
            },
            Piece::Prefix {
                tag,
                prefix: NetworkPrefix::Ipv6Offset {
                    length,
                    offset,
                    high,
                    low,
                },
            } => Quad {
                mark: tag as u64 + 48,
                a: length as u64 + 256 * offset as u64,
                b: high,
                c: low,
            },
            Piece::Operators { tag, start, count } => Quad {
                mark: tag as u64,
                a: start as u64,
                b: count as u64,
                c: 0,
            },
            Piece::NoRecord => Quad::default(),
        }
    }
}

fn quad_at(words: &[u64], at: usize) -> Quad
    requires { at + 4 ≤ length words.now }
    ensures { result ≡ quad_at words.now at }
{
    Quad {
        mark: words[at],
        a: words[at + 1],
        b: words[at + 2],
        c: words[at + 3],
    }
}

fn prefix_in(tag: u8, q: Quad) -> Piece
    requires { (tag ≡ q.mark % 16) × (1 ≤ tag) × (tag ≤ 2) }
    ensures { result ≡ piece_of q }
{
    let piece = Piece::Prefix {
        tag,
        prefix: q.network(),
    };
    if Quad::from(piece) == q {
        piece
    } else {
        Piece::NoRecord
    }
}

// Of a list only the first and the last word can be wrong.
fn list_in(tag: u8, q: Quad) -> Piece
    requires { (tag ≡ q.mark % 16) × (3 ≤ tag) }
    ensures { result ≡ piece_of q }
{
    if q.mark < 14 && q.c == 0 {
        Piece::Operators {
            tag,
            start: q.a as usize,
            count: q.b as usize,
        }
    } else {
        Piece::NoRecord
    }
}

// A prefix of IPv4 is taken from its words: to write what they name and compare would cost twice the time.
fn prefix_at(tag: u8, q: Quad) -> Piece
    requires { (tag ≡ q.mark % 16) × (1 ≤ tag) × (tag ≤ 2) }
    ensures { result ≡ piece_of q }
{
    if q.mark < 3 && q.c == 0 && q.a <= 255 && q.b <= 4294967295 {
        return Piece::Prefix {
            tag,
            prefix: NetworkPrefix::Ipv4 {
                length: q.a as u8,
                address: q.b as u32,
            },
        };
    }
    prefix_in(tag, q)
}

// The piece at a word, NoRecord where the words name none. No entry point.
pub fn piece_at(words: &[u64], at: usize) -> Piece
    requires { at + 4 ≤ length words.now }
    ensures { result ≡ piece_at words.now at }
{
    let q = quad_at(words, at);
    let tag = (q.mark % 16) as u8;
    match tag {
        0 => Piece::NoRecord,
        1 | 2 => prefix_at(tag, q),
        _ => list_in(tag, q),
    }
}

// What the words of a component show at a glance: a list, a prefix of IPv4, or one of IPv6 with an offset. `Other` is whatever is none of these, of
// which `piece_at` tells more.
#[derive(Clone, Copy)]
pub enum View {
    List {
        tag: u8,
        start: usize,
        count: usize,
    },
    Ipv4 {
        tag: u8,
        length: u8,
        address: u32,
    },
    Ipv6 {
        tag: u8,
        length: u8,
        offset: u8,
        high: u64,
        low: u64,
    },
    Other,
}

#[tactic(auto, using(crate::proofs::Views::list_words, crate::proofs::Views::no_list_words))]
fn view_list(q: Quad) -> View
    requires { (3 ≤ q.mark) × (q.mark < 14) }
    ensures { Shows result (piece_of q) }
{
    if q.c == 0 {
        View::List {
            tag: q.mark as u8,
            start: q.a as usize,
            count: q.b as usize,
        }
    } else {
        View::Other
    }
}

#[tactic(auto, using(crate::proofs::Words::ipv4_words, crate::proofs::Views::near_no_list))]
fn view_ipv4(q: Quad) -> View
    requires { q.mark < 3 }
    ensures { Shows result (piece_of q) }
{
    if 0 < q.mark && q.c == 0 && q.a <= 255 && q.b <= 4294967295 {
        View::Ipv4 {
            tag: q.mark as u8,
            length: q.a as u8,
            address: q.b as u32,
        }
    } else {
        View::Other
    }
}

#[tactic(auto, using(crate::proofs::Views::ipv6_words, crate::proofs::Views::far_no_list))]
fn view_ipv6(q: Quad) -> View
    requires { 14 ≤ q.mark }
    ensures { Shows result (piece_of q) }
{
    if 48 < q.mark && q.mark < 51 && q.a <= 65535 {
        View::Ipv6 {
            tag: (q.mark - 48) as u8,
            length: (q.a % 256) as u8,
            offset: (q.a / 256) as u8,
            high: q.b,
            low: q.c,
        }
    } else {
        View::Other
    }
}

// The view of the component at a word. No entry point.
#[tactic(auto, unfolding(crate::specs::Pieces::piece_at))]
pub fn view_at(words: &[u64], at: usize) -> View
    requires { at + 4 ≤ length words.now }
    ensures { Shows result (piece_at words.now at) }
{
    let q = quad_at(words, at);
    if q.mark < 3 {
        view_ipv4(q)
    } else if q.mark < 14 {
        view_list(q)
    } else {
        view_ipv6(q)
    }
}

fn is_record(piece: Piece) -> bool
    ensures { result ≡ is_record piece }
{
    !matches!(piece, Piece::NoRecord)
}

fn all_records(words: &[u64], base: usize, count: usize) -> bool
    requires { base + 4 * count ≤ length words.now }
    ensures { result ≡ records_from count words.now base }
{
    for i in 0..count {
        if !is_record(piece_at(words, base + 4 * i)) {
            return false;
        }
    }
    true
}

// All bits of some words. With no way out of the loop, it goes many words at a time.
fn joined(words: &[u64]) -> u64
    ensures { result ≡ fold bit_or 0 words.now }
{
    words.iter().fold(0, |sum, word| sum | word)
}

// All bits of the components past the count. Where that is a constant, the loop goes without a turn: nearly every rule has so few.
fn joined_unused(words: &[u64], base: usize, count: usize) -> u64
    requires { (count ≤ 13) × (base + 64 ≤ length words.now) }
    ensures { zeros_from (base + 52 - (base + 4 * count)) words.now (base + 4 * count) ≡ eqb result 0 }
{
    let end = base + 52;
    match count {
        1 => joined(&words[base + 4..end]),
        2 => joined(&words[base + 8..end]),
        3 => joined(&words[base + 12..end]),
        4 => joined(&words[base + 16..end]),
        5 => joined(&words[base + 20..end]),
        _ => joined(&words[base + 4 * count..end]),
    }
}

// All bits of the last seven words.
fn joined_last(words: &[u64], base: usize) -> u64
    requires { base + 64 ≤ length words.now }
    ensures { zeros_from 7 words.now (base + 57) ≡ eqb result 0 }
{
    joined(&words[base + 57..base + 64])
}

// Whether the words of a distinguisher are those of one, or of none: absent is 0 in both.
fn is_distinguisher(words: &[u64], base: usize) -> bool
    requires { base + 64 ≤ length words.now }
    ensures { result ≡ is_distinguisher words.now base }
{
    if words[base + 55] == 0 {
        words[base + 56] == 0
    } else {
        words[base + 55] == 1
    }
}

// How many components the 64 words from a word on count. No entry point.
pub fn count_at(words: &[u64], base: usize) -> usize
    requires { base + 64 ≤ length words.now }
    ensures { result ≡ count_at words.now base }
{
    words[base + 52] as usize
}

// Their family. No entry point.
pub fn family_at(words: &[u64], base: usize) -> u64
    requires { base + 64 ≤ length words.now }
    ensures { result ≡ family_at words.now base }
{
    words[base + 53]
}

// The place in the lent lists where their operators begin. No entry point.
pub fn first_at(words: &[u64], base: usize) -> usize
    requires { base + 64 ≤ length words.now }
    ensures { result ≡ first_at words.now base }
{
    words[base + 54] as usize
}

// Their distinguisher. No entry point.
pub fn distinguisher_at(words: &[u64], base: usize) -> Option<u64>
    requires { base + 64 ≤ length words.now }
    ensures { result ≡ distinguisher_at words.now base }
{
    (words[base + 55] != 0).then_some(words[base + 56])
}

// Whether two rules have the same one, or both have none. No entry point.
pub fn same_distinguisher(words: &[u64], base: usize, words2: &[u64], base2: usize) -> bool
    requires { (base + 64 ≤ length words.now) × (base2 + 64 ≤ length words2.now) }
    ensures { result ≡ same_distinguisher (distinguisher_at words.now base) (distinguisher_at words2.now base2) }
{
    distinguisher_at(words, base) == distinguisher_at(words2, base2)
}

// Whether all but the components of the 64 words from a word on is as it shall be. A walk over the components tests those. A rule without a distinguisher
// is told by one test of all words that are 0. No entry point.
pub fn is_framed(words: &[u64], base: usize) -> bool
    requires { base + 64 ≤ length words.now }
    ensures { result ≡ is_framed words.now base }
{
    let count = words[base + 52] as usize;
    if 13 < count {
        return false;
    }
    if 255 < words[base + 53] {
        return false;
    }
    let sum = joined_unused(words, base, count) | joined_last(words, base);
    if sum | words[base + 55] | words[base + 56] == 0 {
        return true;
    }
    sum == 0 && is_distinguisher(words, base)
}

// Whether the 64 words from a word on are a rule. No entry point.
pub fn is_rule(words: &[u64], base: usize) -> bool
    requires { base + 64 ≤ length words.now }
    ensures { result ≡ is_rule words.now base }
{
    is_framed(words, base) && all_records(words, base, count_at(words, base))
}

// Four words to a word on, each by a store of its own: of an array that is copied, the compiler first asks whether it overlaps.
fn put_words(words: &mut [u64], at: usize, q: Quad)
    requires { at + 4 ≤ length words.old }
    ensures { words.new ≡ sets words.old at (quad_words q) }
{
    words[at] = q.mark;
    words[at + 1] = q.a;
    words[at + 2] = q.b;
    words[at + 3] = q.c;
}

// A piece to a word on. No entry point.
pub fn put_piece(words: &mut [u64], at: usize, piece: Piece)
    requires { at + 4 ≤ length words.old }
    ensures { words.new ≡ sets words.old at (piece_words piece) }
{
    put_words(words, at, Quad::from(piece));
}

fn put_zeros(words: &mut [u64], from: usize, to: usize)
    requires { (from ≤ to) × (to ≤ length words.old) }
    ensures { words.new ≡ sets words.old from (replicate (to - from) 0) }
{
    words[from..to].fill(0);
}

// What follows so many components, to the end of the rule's 64 words, of a rule without a distinguisher. No entry point.
pub fn put_tail(words: &mut [u64], base: usize, count: usize, family: u8, first: usize)
    requires { (count ≤ 13) × (base + 64 ≤ length words.old) }
    ensures { words.new ≡ sets words.old (base + 4 * count) (tail_words count (head family first None)) }
{
    put_zeros(words, base + 4 * count, base + 52);
    let head = Quad {
        mark: count as u64,
        a: family as u64,
        b: first as u64,
        c: 0,
    };
    put_words(words, base + 52, head);
    put_zeros(words, base + 56, base + 64);
}

// A distinguisher to a rule that was put without one. Few rules have one, and so the others are not slowed by it. No entry point.
pub fn put_distinguisher(words: &mut [u64], base: usize, distinguisher: Option<u64>)
    requires { base + 64 ≤ length words.old }
    ensures { words.new ≡ distinguished_with distinguisher words.old base }
{
    if let Some(bits) = distinguisher {
        words[base + 55] = 1;
        words[base + 56] = bits;
    }
}
