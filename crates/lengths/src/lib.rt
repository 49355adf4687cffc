// Packets that are to be written, and what every transport's writer checks of them: their lengths against their bytes, and its room.
#![tactic(auto)]

ghost use Rattle.std.specs.Prelude.{◌≡◌, ◌||◌, ltb, List, ℕ, Err};
ghost use Rattle.packet.specs.Answer.{Gives};
ghost use Rattle.packet.specs.Limit.{Short};
ghost use Rattle.packet.specs.Packets.{mismatched as mismatched_of};
ghost use Rattle.packet.specs.Said.{write_said};
ghost use Rattle.lengths.specs.Lengths.{misfit_of};

use packet::{Reason, Refusal};

// Packets: their bytes, joined, and the length of each.
#[derive(Clone, Copy)]
pub struct Packets<'a> {
    pub bytes: &'a [u8],
    pub lengths: &'a [u32],
}

impl Packets<'_> {
    // Whether there are too many lengths, or their sum differs from the bytes.
    #[tactic(auto, unfolding(packet::specs::Packets::mismatched))]
    fn mismatched(self) -> bool
        ensures { result ≡ mismatched_of self.entry.lengths.now self.entry.bytes.now }
    {
        if 4096 < self.lengths.len() {
            return true;
        }
        let total: usize = self.lengths.iter().map(|n| *n as usize).sum();
        total != self.bytes.len()
    }

    // Why packets are refused of which one has a length that does not fit: at its index. Lengths that differ from the bytes come before it.
    pub fn misfit(self, index: usize) -> Refusal
        requires { Short index }
        ensures { (out : List ℕ) → Gives (misfit_of self.entry.lengths.now self.entry.bytes.now out index) (write_said (Err result)) out }
    {
        if self.mismatched() {
            return Refusal::whole(Reason::Mismatch);
        }
        Refusal::at(Reason::Overlong, index)
    }
}

// Whether n bytes do not fit an output of so many, or exceed the most that may be written.
pub fn crowded(most: usize, room: usize, n: usize) -> bool
    ensures { result ≡ (ltb room n || ltb most n) }
{
    room < n || most < n
}
