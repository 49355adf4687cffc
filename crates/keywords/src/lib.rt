// What a word of a description file says.
#![tactic(auto)]

ghost use Rattle.std.specs.Prelude.{◌≡◌, ◌<◌, ◌≤◌, map, MatchOption};
ghost use Rattle.keywords.specs.Tables.{digit as digit_of, based as based_of, number as number_of};
ghost use Rattle.keywords.specs.Saying.{meaning, told, listed as listed_of};
ghost use Rattle.keywords.specs.Counting.{Base};

use words::same;

// The two endpoints: CMD and STIM, from the master; RES, ERR, DAQ, EV and SERV, from the slave.
#[derive(Clone, Copy, Debug, PartialEq, Eq)]
pub enum Side {
    Cmd,
    Res,
}

// A kind of word: /begin, XCP_ON_USB, a number, or a word of an enumeration.
#[derive(Clone, Copy, Debug, PartialEq, Eq)]
pub enum Kind {
    Begin,
    Block,
    Number,
    Header,
    Transfer,
    Packing,
    Alignment,
}

// Enumerations: their words, and the number that each says.
const HEADERS: [(&[u8], u32); 6] = [
    (b"HEADER_LEN_BYTE", 0),
    (b"HEADER_LEN_CTR_BYTE", 1),
    (b"HEADER_LEN_FILL_BYTE", 2),
    (b"HEADER_LEN_WORD", 3),
    (b"HEADER_LEN_CTR_WORD", 4),
    (b"HEADER_LEN_FILL_WORD", 5),
];

const TRANSFERS: [(&[u8], u32); 2] = [(b"BULK_TRANSFER", 2), (b"INTERRUPT_TRANSFER", 3)];

const PACKINGS: [(&[u8], u32); 3] = [
    (b"MESSAGE_PACKING_SINGLE", 0),
    (b"MESSAGE_PACKING_MULTIPLE", 1),
    (b"MESSAGE_PACKING_STREAMING", 2),
];

const ALIGNMENTS: [(&[u8], u32); 4] = [
    (b"ALIGNMENT_8_BIT", 1),
    (b"ALIGNMENT_16_BIT", 2),
    (b"ALIGNMENT_32_BIT", 4),
    (b"ALIGNMENT_64_BIT", 8),
];

// What the word says by an enumeration.
fn listed(lines: &[(&[u8], u32)], word: &[u8]) -> Option<u32>
    ensures { result ≡ told (listed_of (map (λ l. (l.0.now, l.1)) lines.now) word.now) }
{
    for (name, n) in lines {
        if same(word, name) {
            return Some(*n);
        }
    }
    None
}

// What a byte says as a digit below the base.
fn digit(b: u8, base: u64) -> Option<u64>
    requires { base ≤ 16 }
    ensures { MatchOption result (base ≤ digit_of b) (λ d. (d ≡ digit_of b) × (d < base)) }
{
    let d = u64::from(char::from(b).to_digit(16)?);
    if d < base { Some(d) } else { None }
}

// A number of digits below the base. What is beyond the most stays beyond it, whatever follows.
pub fn based(digits: &[u8], base: u64, most: u32) -> Option<u32>
    requires { Base base }
    ensures { result ≡ told (based_of base most digits.now) }
{
    if digits.is_empty() {
        return None;
    }
    let mut n: u64 = 0;
    for b in digits {
        n = n * base + digit(*b, base)?;
        if n > u64::from(most) {
            return None;
        }
    }
    Some(n as u32)
}

// Decimal digits, or 0x and hexadecimal digits.
#[tactic(auto, unfolding(crate::specs::Tables::number))]
fn number(word: &[u8]) -> Option<u32>
    ensures { result ≡ told (number_of word.now) }
{
    match word.strip_prefix(b"0x") {
        Some(digits) => based(digits, 16, 65535),
        None => based(word, 10, 65535),
    }
}

// What a word of a kind says; a word that is none of the kind says nothing.
#[tactic(auto, unfolding(crate::specs::Tables::header, crate::specs::Tables::transfer))]
pub fn says(kind: Kind, word: &[u8]) -> Option<u32>
    ensures { result ≡ told (meaning kind word.now) }
{
    match kind {
        Kind::Begin => same(word, b"/begin").then_some(0),
        Kind::Block => same(word, b"XCP_ON_USB").then_some(0),
        Kind::Number => number(word),
        Kind::Header => listed(&HEADERS, word),
        Kind::Transfer => listed(&TRANSFERS, word),
        Kind::Packing => listed(&PACKINGS, word),
        Kind::Alignment => listed(&ALIGNMENTS, word),
    }
}
