// How a text parts into words.
#![tactic(auto)]

ghost use Rattle.std.specs.Prelude.{◌≡◌, ◌≤◌, length};
ghost use Rattle.std.proofs.Math.Seq.{slice};
ghost use Rattle.words.specs.Words.{same as same_text};

// What starts at a place.
#[derive(Clone, Copy, Debug, PartialEq, Eq)]
pub enum Start {
    Nothing,
    Blank,
    Comment,
    Line,
    Quote,
    Other,
}

// A word of a text, from a place to a place.
#[derive(Clone, Copy, Debug, PartialEq, Eq)]
pub struct Word {
    pub from: usize,
    pub to: usize,
}

impl Word {
    // Its bytes.
    pub fn bytes(self, t: &[u8]) -> &[u8]
        requires { (self.from ≤ self.to) × (self.to ≤ length t.now) }
        ensures { result.now ≡ slice self.from self.to t.now }
    {
        &t[self.from..self.to]
    }
}

// The place of a text that is wrong: the first word that cannot stand there, or the text's length where it stops early.
#[derive(Clone, Copy, Debug, PartialEq, Eq)]
pub struct Wrong {
    pub place: usize,
}

// Whether two words are the same, byte for byte.
pub fn same(word: &[u8], other: &[u8]) -> bool
    ensures { result ≡ same_text word.now other.now }
{
    word == other
}
