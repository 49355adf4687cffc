// A plan of a USB setting: whether it is sound, and its numbers with those of its header.
#![tactic(auto)]

ghost use Rattle.std.specs.Prelude.{◌≡◌, ◌≤◌, ◌^◌};
ghost use Rattle.usb.specs.Setting.{aligned as aligned_of, sized as sized_of, sayable as sayable_of, sound as sound_of};
ghost use Rattle.usb_plan.specs.Plan.{planned_of, LenOf};

use layout::{all, both, either};
use plan::{Plan, joined};
use usb::{Setting, shape};

fn aligned(a: u32) -> bool
    ensures { result ≡ aligned_of a }
{
    either(either(either(a == 1, a == 2), a == 4), a == 8)
}

// 1,024 bytes are a limit of this product.
fn sized(m: u32) -> bool
    ensures { result ≡ sized_of m }
{
    all(8 <= m, m <= 1024, m % 8 == 0)
}

// How many numbers a field of at most two bytes can hold.
fn numbers(width: usize) -> u32
    requires { width ≤ 2 }
    ensures { result ≡ 256 ^ width }
{
    match width {
        0 => 1,
        1 => 256,
        _ => 65536,
    }
}

// A longest packet whose length a LEN of so many bytes can say.
fn sayable(width: usize, x: u32) -> bool
    requires { width ≤ 2 }
    ensures { result ≡ sayable_of width x }
{
    both(8 <= x, x < numbers(width))
}

// Whether the setting keeps every rule; in its header LEN has so many bytes.
fn sound(s: Setting, lenwidth: usize) -> bool
    requires { LenOf s lenwidth }
    ensures { result ≡ sound_of s }
{
    let ok = both(s.header < 6, s.packing < 3);
    let ok = both(ok, aligned(s.align));
    let ok = both(ok, sized(s.datapacket));
    let ok = both(ok, sayable(lenwidth, s.longest));
    both(ok, s.direction < 2)
}

// The plan of a setting that is sound. Nobody else works a header out.
pub fn plan_for(s: Setting) -> Option<Plan>
    ensures { result ≡ planned_of s }
{
    let k = shape(s.header);
    if !sound(s, k.lenwidth) {
        return None;
    }
    Some(joined(
        s.packing,
        s.header,
        s.align,
        s.datapacket,
        s.longest,
        s.direction,
        0,
        k,
    ))
}
