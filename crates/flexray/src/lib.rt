// FlexRay nodes: their settings, and their headers with the alignments that go with them.
#![tactic(auto)]

ghost use Rattle.std.specs.Prelude.{◌≡◌};
ghost use Rattle.flexray.specs.Formula.{Roomy, made as made_of, filled as filled_of, paired as paired_of};
ghost use Rattle.flexray.specs.Setting.{header as header_of};
ghost use Rattle.flexray.specs.Table.{entry as entry_of};

use layout::{Shape, pick};

// Node, direction, frame ceiling F, header type, packet alignment A.
#[repr(C)]
#[derive(Clone, Copy, Debug, PartialEq, Eq)]
pub struct Setting {
    pub node: u32,
    pub direction: u32,
    pub ceiling: u32,
    pub header: u32,
    pub align: u32,
}

impl Setting {
    // The highest frame ceiling.
    pub const CEILING: u32 = 254;
}

// A header, and its alignments by the least and the most: it has at most two; 0, 0 where it has none.
#[derive(Clone, Copy, Debug, PartialEq, Eq)]
pub struct Entry {
    pub shape: Shape,
    pub least: u32,
    pub most: u32,
}

// The entry of a header of `size` bytes, of which LEN has `len` and CTR `ctr`. NAX comes first and CTR behind it, LEN last, and what is left
// is free; a field that is absent stands at the header's end. It goes with those alignments of 1, 2 and 4 that divide its size and are more
// than its free bytes.
fn made(size: usize, len: usize, ctr: usize) -> Entry
    requires { Roomy size len ctr }
    ensures { result ≡ made_of size len ctr }
{
    let free = size - (1 + (len + ctr));
    let least = pick(free < 2, free + 1, 4);
    let most = pick(size % 2 == 0, size, 1);
    Entry {
        shape: Shape {
            size,
            lenat: size - len,
            lenwidth: len,
            ctrat: pick(ctr == 1, 1, size),
            ctrwidth: ctr,
        },
        least: least as u32,
        most: most as u32,
    }
}

// The same, filled up to four bytes or of `short` bytes.
fn filled(full: bool, short: usize, len: usize, ctr: usize) -> Entry
    requires { Roomy short len ctr }
    ensures { result ≡ filled_of full short len ctr }
{
    made(pick(full, 4, short), len, ctr)
}

// Headers 1 to 8 are pairs: with neither CTR nor LEN, with CTR, with LEN, with both. The second of a pair is filled up; the first has two
// bytes, or three with both.
fn paired(header: u32, full: bool) -> Entry
    ensures { result ≡ paired_of header full }
{
    if 6 < header {
        return filled(full, 3, 1, 1);
    }
    if 4 < header {
        return filled(full, 2, 1, 0);
    }
    if 2 < header {
        return filled(full, 2, 0, 1);
    }
    filled(full, 2, 0, 0)
}

// The entry of a header, worked out from its number; a number beyond the last has no field and no alignment. Each call of `paired` is told
// by a constant whether to fill up, so that on each path the places are constants, and reading LEN does not wait for arithmetic.
pub fn listed(header: u32) -> Entry
    ensures { result ≡ entry_of (header_of header) }
{
    if 8 < header {
        return Entry {
            shape: Shape::NONE,
            least: 0,
            most: 0,
        };
    }
    if header < 1 {
        return made(1, 0, 0);
    }
    if header % 2 == 0 {
        return paired(header, true);
    }
    paired(header, false)
}
