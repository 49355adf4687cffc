// Words that must stand at a place: one of a kind, and a series of them.
#![tactic(auto)]

ghost use Rattle.std.specs.Prelude.{◌≡◌, ◌≤◌, length};
ghost use Rattle.keywords.specs.Saying.{meaning};
ghost use Rattle.expecting.specs.Expecting.{Expects, Led};

use keywords::{Kind, says};
use passing::needed_word;
use words::Wrong;

// The kinds of the words that open the block.
pub const OPENINGS: [Kind; 7] = [
    Kind::Begin,
    Kind::Block,
    Kind::Number,
    Kind::Number,
    Kind::Number,
    Kind::Number,
    Kind::Header,
];

// .. and of those behind an endpoint's name.
pub const PARAMETERS: [Kind; 6] = [
    Kind::Number,
    Kind::Transfer,
    Kind::Number,
    Kind::Number,
    Kind::Packing,
    Kind::Alignment,
];

// What a word of a kind says, from place q on, and the place behind it.
pub fn expect(kind: Kind, t: &[u8], q: usize) -> Result<(u32, usize), Wrong>
    requires { q ≤ length t.now }
    ensures { Expects (meaning kind) t.now q result }
{
    let word = needed_word(t, q)?;
    let said = says(kind, word.bytes(t)).ok_or(Wrong { place: word.from })?;
    Ok((said, word.to))
}

// What each word of a series says, from place q on, and the place behind them.
pub fn read_series<const N: usize>(
    kinds: &[Kind; N],
    t: &[u8],
    q: usize,
) -> Result<([u32; N], usize), Wrong>
    requires { q ≤ length t.now }
    ensures { Led kinds.now t.now q result }
{
    let mut values = [0; N];
    let mut k = q;
    for (i, kind) in kinds.iter().enumerate() {
        let (said, behind) = expect(*kind, t, k)?;
        values[i] = said;
        k = behind;
    }
    Ok((values, k))
}
