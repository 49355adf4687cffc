// Reading over a block: words and paired blocks, up to the block's end.
#![tactic(auto)]

ghost use Rattle.std.specs.Prelude.{replicate, ◌≡◌, ◌-◌, ◌<◌, ◌≤◌, length};
ghost use Rattle.passing.specs.Names.{name_in, Lying, held};
ghost use Rattle.passing.specs.Passing.{Needed, Says, Signed, NextName, Held, Turned, inside_of, opening, closing, Passable, Passed};

use finding::next_word;
use words::{Word, Wrong, same};

// What a word inside a block does: it opens or closes a block, or neither.
#[derive(Clone, Copy, Debug, PartialEq, Eq)]
pub enum Sign {
    Begin,
    End,
    Other,
}

// The names of the open blocks, the innermost last: where each starts and ends in the text. A name and the `/begin` before it take 7 bytes at least, so
// 16,384 bytes open no more than 2,340 blocks.
#[derive(Drop)]
pub struct Names {
    pub places: [(u16, u16); 2340],
    pub depth: usize,
}

impl Names {
    // No block is open.
    pub fn new() -> Names
        ensures { (result.depth ≡ 0) × (result.places ≡ replicate 2340 (0, 0)) }
    {
        Names {
            places: [(0, 0); 2340],
            depth: 0,
        }
    }

    // Holds a name on top of the others.
    fn hold(&mut self, name: Word)
        requires { (self.old.depth < 2340) × (name.from < 65536) × (name.to < 65536) }
        ensures { self.new ≡ held self.old name }
    {
        self.places[self.depth] = (name.from as u16, name.to as u16);
        self.depth += 1;
    }

    // The innermost name.
    fn innermost<'a>(&self, t: &'a [u8]) -> &'a [u8]
        requires { (0 < self.now.depth) × Lying t.now self.now.places (self.now.depth - 1) }
        ensures { result.now ≡ name_in t.now self.now.places (self.now.depth - 1) }
    {
        let (from, to) = self.places[self.depth - 1];
        &t[usize::from(from)..usize::from(to)]
    }
}

// The next word from place q on, where one has to stand.
pub fn needed_word(t: &[u8], q: usize) -> Result<Word, Wrong>
    requires { q ≤ length t.now }
    ensures { Needed t.now q result }
{
    next_word(t, q)?.ok_or(Wrong { place: t.len() })
}

// Which of three a word is.
fn sign_of(word: &[u8]) -> Sign
    ensures { Says word.now result }
{
    if same(word, b"/begin") {
        return Sign::Begin;
    }
    if same(word, b"/end") {
        return Sign::End;
    }
    Sign::Other
}

// The next word from place q on, and which of three it is. It goes into its callers, here and below: a call hands its answer over through memory.
#[inline(always)]
pub fn next_sign(t: &[u8], q: usize) -> Result<(Sign, Word), Wrong>
    requires { q ≤ length t.now }
    ensures { Signed t.now q result }
{
    let word = needed_word(t, q)?;
    Ok((sign_of(word.bytes(t)), word))
}

// The name of a block, behind its /begin.
#[inline(always)]
pub fn next_name(t: &[u8], q: usize) -> Result<Word, Wrong>
    requires { q ≤ length t.now }
    ensures { NextName t.now q result }
{
    let (sign, word) = next_sign(t, q)?;
    match sign {
        Sign::Other => Ok(word),
        Sign::Begin | Sign::End => Err(Wrong { place: word.from }),
    }
}

// A block opens: its name, behind its /begin.
fn open(t: &[u8], q: usize, names: &mut Names) -> Result<usize, Wrong>
    requires { (0 < names.old.depth) × Held t.now names.old 6 q }
    ensures { Turned t.now q (opening t.now names.old) names.new result }
{
    let word = next_name(t, q)?;
    names.hold(word);
    Ok(word.to)
}

// The innermost block closes: its name, behind its /end.
fn close(t: &[u8], q: usize, names: &mut Names) -> Result<usize, Wrong>
    requires { (0 < names.old.depth) × Held t.now names.old 0 q }
    ensures { Turned t.now q (closing t.now names.old) names.new result }
{
    let word = needed_word(t, q)?;
    if same(word.bytes(t), names.innermost(t)) {
        names.depth -= 1;
        Ok(word.to)
    } else {
        Err(Wrong { place: word.from })
    }
}

// A word inside a block, and the name behind it where it opens or closes another. This is what reading over a block does again and again, so the word is
// told apart here and not by `next_sign`: one call less for each word.
fn go_on(t: &[u8], q: usize, names: &mut Names) -> Result<usize, Wrong>
    requires { (0 < names.old.depth) × Held t.now names.old 0 q }
    ensures { Turned t.now q (inside_of t.now names.old) names.new result }
{
    let word = needed_word(t, q)?;
    match sign_of(word.bytes(t)) {
        Sign::Begin => open(t, word.to, names),
        Sign::End => close(t, word.to, names),
        Sign::Other => Ok(word.to),
    }
}

// From place q on, inside the block of this name, up to the end of that block.
pub fn pass_over(t: &[u8], name: Word, q: usize, names: &mut Names) -> Result<usize, Wrong>
    requires { Passable t.now name q }
    ensures { Passed t.now name q result }
{
    names.depth = 0;
    names.hold(name);
    let mut k = q;
    while names.depth > 0 {
        k = go_on(t, k, names)?;
    }
    Ok(k)
}
