// UDP: settings, and the plan of one.
#![tactic(auto)]

ghost use Rattle.std.specs.Prelude.{◌≡◌};
ghost use Rattle.udp.specs.Plan.{plan_of};
ghost use Rattle.udp.specs.Setting.{sound as sound_of};

use layout::{Shape, all};
use plan::{Plan, joined};

// Longest packet X, direction.
#[repr(C)]
#[derive(Clone, Copy, Debug, PartialEq, Eq)]
pub struct Setting {
    pub longest: u32,
    pub direction: u32,
}

// Whether the setting keeps every rule.
pub fn sound(s: Setting) -> bool
    ensures { result ≡ sound_of s }
{
    all(8 <= s.longest, s.longest <= 1468, s.direction < 2)
}

// The plan of a setting. Its header has LEN and CTR words, as USB header 4, and its one data packet is the longest datagram.
pub fn plan_of(s: Setting) -> Plan
    ensures { result ≡ plan_of s }
{
    joined(
        4,
        4,
        1,
        1472,
        s.longest,
        s.direction,
        0,
        Shape {
            size: 4,
            lenat: 0,
            lenwidth: 2,
            ctrat: 2,
            ctrwidth: 2,
        },
    )
}
