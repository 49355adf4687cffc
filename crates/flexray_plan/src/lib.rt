// A plan of a FlexRay setting: whether it is sound, its numbers with those of its header; and where a further packet starts.
#![tactic(auto)]

ghost use Rattle.std.specs.Prelude.{◌≡◌, ◌+◌};
ghost use Rattle.layout.specs.Multiple.{Roundable};
ghost use Rattle.flexray.specs.Setting.{capped as capped_of, sound as sound_of};
ghost use Rattle.flexray_plan.specs.Plan.{planned_of, further_of, goes, EntryOf, Started};

use flexray::{Entry, Setting, listed};
use layout::{all, both, either, rounded};
use plan::{FRAME, Plan, joined};

// Whether an alignment goes with a header.
fn aligned(h: Entry, a: u32) -> bool
    ensures { result ≡ goes a h }
{
    both(0 < h.least, either(a == h.least, a == h.most))
}

// A frame ceiling F: even, 8 to 254.
fn capped(f: u32) -> bool
    ensures { result ≡ capped_of f }
{
    all(8 <= f, f <= Setting::CEILING, f % 2 == 0)
}

// Whether the setting keeps every rule; h is its header.
fn sound(s: Setting, h: Entry) -> bool
    requires { EntryOf s h }
    ensures { result ≡ sound_of s }
{
    let ok = both(s.node < 256, s.direction < 2);
    let ok = both(ok, capped(s.ceiling));
    both(ok, aligned(h, s.align))
}

// The plan of a setting that is sound. Nobody else works a header out.
pub fn plan_for(s: Setting) -> Option<Plan>
    ensures { result ≡ planned_of s }
{
    let h = listed(s.header);
    if !sound(s, h) {
        return None;
    }
    let k = h.shape;
    Some(joined(3, s.header, s.align, s.ceiling, 255, s.direction, s.node, k))
}

// The plan of the packets behind a frame's first: the header of each is its LEN, a byte, and none carries a counter.
pub fn further(p: Plan) -> Plan
    ensures { result ≡ further_of p }
{
    Plan {
        layout: FRAME,
        longest: 255,
        size: 1,
        lenwidth: 1,
        ctrwidth: 0,
        ..p
    }
}

// Where the packet behind one that ends at e starts: the byte just before it is its LEN.
pub fn start(align: usize, e: usize) -> usize
    requires { Roundable align (e + 1) }
    ensures { Started align e result }
{
    rounded(align, e + 1)
}
