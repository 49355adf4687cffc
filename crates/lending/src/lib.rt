// Callers of the readers with the state lent. Each holds a state, lends it for the call, and gives it back as the call left it. They are three, and not one
// over a trait: an impl of it for each setting would be as long as these.
#![tactic(auto)]

ghost use Rattle.flexray.specs.Reading.{read_of as flexray_read_of};
ghost use Rattle.udp.specs.Reading.{read_of as udp_read_of};
ghost use Rattle.usb.specs.Reading.{read_of as usb_read_of};
ghost use Rattle.lending.specs.Lends.{Lends};

use packet::{Counter, Refusal};

// What a call with the state lent tells, and the state that it leaves.
#[derive(Clone, Copy, Debug, PartialEq, Eq)]
pub struct Lent {
    pub told: Result<u32, Refusal>,
    pub state: Counter,
}

pub fn usb_lent(s: usb::Setting, t: &[u8], c: Counter, rows: &mut [u32]) -> Lent
    ensures { Lends (usb_read_of s t.now c rows.old) c result rows.new }
{
    let mut state = c;
    let told = usb_reader::read_lent(s, t, &mut state, rows);
    Lent { told, state }
}

pub fn flexray_lent(s: flexray::Setting, t: &[u8], c: Counter, rows: &mut [u32]) -> Lent
    ensures { Lends (flexray_read_of s t.now c rows.old) c result rows.new }
{
    let mut state = c;
    let told = flexray_reader::read_lent(s, t, &mut state, rows);
    Lent { told, state }
}

pub fn udp_lent(s: udp::Setting, t: &[u8], c: Counter, rows: &mut [u32]) -> Lent
    ensures { Lends (udp_read_of s t.now c rows.old) c result rows.new }
{
    let mut state = c;
    let told = udp_reader::read_lent(s, t, &mut state, rows);
    Lent { told, state }
}
