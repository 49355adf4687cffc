// The XCP_ON_USB block: its opening words, its entries, its end, and nothing behind it.
#![tactic(auto)]

ghost use Rattle.std.specs.Prelude.{◌≡◌, [], ◌≤◌, length};
ghost use Rattle.std.proofs.Math.Option.{none};
ghost use Rattle.description.specs.Reading.{State, whole, gone_on, reading};
ghost use Rattle.description.specs.Standing.{most_text};
ghost use Rattle.entries.specs.Entering.{maybe};
ghost use Rattle.block.specs.Blocks.{Steppable};

use description::Said;
use entries::{Gathered, read_entry};
use expecting::{OPENINGS, expect, read_series};
use finding::next_word;
use keywords::Kind;
use passing::{Names, Sign, next_sign};
use words::{Word, Wrong};

// Behind the block.
fn behind(t: &[u8], q: usize, said: Said) -> Result<Said, Wrong>
    requires { q ≤ length t.now }
    ensures { result ≡ reading t.now q (State.done said) }
{
    match next_word(t, q)? {
        Some(word) => Err(Wrong { place: word.from }),
        None => Ok(said),
    }
}

// The block's name behind its /end.
fn last_name(t: &[u8], q: usize, said: Said) -> Result<Said, Wrong>
    requires { q ≤ length t.now }
    ensures { result ≡ reading t.now q (State.last said) }
{
    let (_, k) = expect(Kind::Block, t, q)?;
    behind(t, k, said)
}

// The block's /end: both endpoints were found, or it cannot stand.
fn end(t: &[u8], word: Word, g: Gathered) -> Result<Said, Wrong>
    requires { word.to ≤ length t.now }
    ensures { result ≡ gone_on word.from (reading t.now word.to) (whole g.header (maybe g.cmd) (maybe g.res)) }
{
    let (Some(cmd), Some(res)) = (g.cmd, g.res) else {
        return Err(Wrong { place: word.from });
    };
    let header = g.header;
    last_name(t, word.to, Said { header, cmd, res })
}

// The entries behind the header, up to the block's end.
fn entries(t: &[u8], q: usize, header: u32, names: &mut Names) -> Result<Said, Wrong>
    requires { Steppable t.now q }
    ensures { result ≡ reading t.now q (State.inside (record { header = header; cmd = none; res = none }) []) }
{
    let mut g = Gathered {
        header,
        cmd: None,
        res: None,
    };
    let mut k = q;
    loop {
        let (sign, word) = next_sign(t, k)?;
        match sign {
            Sign::Begin => (g, k) = read_entry(t, word.to, g, names)?,
            Sign::End => return end(t, word, g),
            Sign::Other => k = word.to,
        }
    }
}

// What a text comes to.
pub fn read_block(t: &[u8]) -> Result<Said, Wrong>
    requires { length t.now ≤ most_text }
    ensures { result ≡ reading t.now 0 State.first }
{
    let (values, k) = read_series(&OPENINGS, t, 0)?;
    entries(t, k, values[6], &mut Names::new())
}
