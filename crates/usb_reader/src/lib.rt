// The USB reader: by the plan of its setting.
#![tactic(auto)]

ghost use Rattle.packet.specs.Answer.{Gives};
ghost use Rattle.packet.specs.Said.{read_said};
ghost use Rattle.lent.specs.Told.{Tells, told_said};
ghost use Rattle.usb.specs.Reading.{read_of};

use lent::advance;
use message_reader::read_planned;
use packet::{Counter, Reason, Refusal, Rows};
use usb::Setting;
use usb_plan::plan_for;

// Reads a transfer: its rows at the front of the table and the state behind them, or the refusal, which changes nothing.
pub fn read(s: Setting, t: &[u8], c: Counter, rows: &mut [u32]) -> Result<Rows, Refusal>
    ensures { Gives (read_of s t.now c rows.old) (read_said result) rows.new }
{
    let p = plan_for(s).ok_or(Refusal::whole(Reason::Unsound))?;
    read_planned::<false>(p, t, c, rows)
}

// The same with the state lent: it is advanced where it lies, unless the read is refused.
pub fn read_lent(s: Setting, t: &[u8], c: &mut Counter, rows: &mut [u32]) -> Result<u32, Refusal>
    ensures { Tells (read_of s t.now c.old rows.old) c.old
        (told_said result) c.new rows.new }
{
    advance(read(s, t, *c, rows), c)
}
