// USB endpoints: their settings, and the shapes of their headers.
#![tactic(auto)]

ghost use Rattle.std.specs.Prelude.{◌≡◌, ◌≤◌};
ghost use Rattle.layout.specs.Field.{shape as shape_of};
ghost use Rattle.usb.specs.Formula.{spread as spread_of};
ghost use Rattle.usb.specs.Setting.{header as header_of};

use layout::{Shape, pick};

// Header type, packing, alignment A, data packet size M, longest packet X, direction.
#[repr(C)]
#[derive(Clone, Copy, Debug, PartialEq, Eq)]
pub struct Setting {
    pub header: u32,
    pub packing: u32,
    pub align: u32,
    pub datapacket: u32,
    pub longest: u32,
    pub direction: u32,
}

// The shape of a header whose fields have `width` bytes, in one of three forms: 0 is LEN alone, 1 LEN and CTR, 2 LEN and free bytes. A CTR
// that is absent stands at the header's end. The form stays a number: it is the header's, a number of the C interface, less that of the first with this width.
fn spread(form: u32, width: usize) -> Shape
    requires { width ≤ 2 }
    ensures { result ≡ spread_of form width }
{
    Shape {
        size: pick(form == 0, width, 2 * width),
        lenat: 0,
        lenwidth: width,
        ctrat: pick(form == 2, 2 * width, width),
        ctrwidth: pick(form == 1, width, 0),
    }
}

// The shape of a header, worked out from its number: 0 to 2 are the three forms with bytes, 3 to 5 with words. A number beyond them has no
// field.
pub fn shape(header: u32) -> Shape
    ensures { result ≡ shape_of (header_of header) }
{
    if header < 3 {
        return spread(header, 1);
    }
    if header < 6 {
        return spread(header - 3, 2);
    }
    Shape::NONE
}
