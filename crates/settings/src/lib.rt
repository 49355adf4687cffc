// The settings of a slave's endpoints, from the XCP_ON_USB block of its description file.
#![tactic(auto)]

ghost use Rattle.std.specs.Prelude.{◌≡◌};
ghost use Rattle.usb.specs.Setting.{sound as sound_of};
ghost use Rattle.description.specs.Described.{described_said};
ghost use Rattle.description.specs.Reading.{judge, settings_of, Right};

use block::read_block;
use description::{Both, Said};
use packet::{Reason, Refusal};
use usb::Setting;
use usb_plan::plan_for;

// The most bytes of a text.
const MOST_TEXT: usize = 16384;

fn is_sound(s: Setting) -> bool
    ensures { result ≡ sound_of s }
{
    plan_for(s).is_some()
}

// Both settings that a block says, if they are sound.
fn judged(said: Said, longest: u32) -> Result<Both, Refusal>
    ensures { described_said result ≡ judge longest (Right said) }
{
    let cmdstim = said.cmd.setting(said.header, longest, 1);
    let resdaq = said.res.setting(said.header, longest, 0);
    if is_sound(cmdstim) && is_sound(resdaq) {
        return Ok(Both { cmdstim, resdaq });
    }
    Err(Refusal::whole(Reason::Unsound))
}

// The settings of the CMD/STIM and of the RES/DAQ endpoint that a text of at most 16,384 bytes says. The longest packet is the caller's.
pub fn settings(t: &[u8], longest: u32) -> Result<Both, Refusal>
    ensures { described_said result ≡ settings_of t.now longest }
{
    if t.len() > MOST_TEXT {
        return Err(Refusal::whole(Reason::Mismatch));
    }
    match read_block(t) {
        Ok(said) => judged(said, longest),
        Err(wrong) => Err(Refusal::at(Reason::Misplaced, wrong.place)),
    }
}
