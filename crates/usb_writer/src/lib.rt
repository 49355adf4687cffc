// The USB writer: by the plan of its setting.
#![tactic(auto)]

ghost use Rattle.packet.specs.Answer.{Gives};
ghost use Rattle.packet.specs.Said.{write_said};
ghost use Rattle.usb.specs.Writing.{write_of};

use lengths::Packets;
use message_writer::write as write_by;
use packet::{Reason, Refusal, Written};
use plan::{MULTIPLE, SINGLE, STREAMING};
use usb::Setting;
use usb_plan::plan_for;

// Writes packets, given as joined bytes and lengths, as a transfer at the front of the output, whose last data packet is filled up if `full`
// says so; or refuses, which changes nothing. The first packet carries the counter `first`; free bytes take the byte `fill`.
#[tactic(auto, using(crate::proofs::WritesLaws::plans))]
pub fn write(
    s: Setting,
    packets: &[u8],
    lengths: &[u32],
    first: u32,
    fill: u8,
    full: bool,
    out: &mut [u8],
) -> Result<Written, Refusal>
    ensures { Gives (write_of s packets.now lengths.now first fill full out.old)
        (write_said result) out.new }
{
    let p = plan_for(s).ok_or(Refusal::whole(Reason::Unsound))?;
    let packets = Packets {
        bytes: packets,
        lengths,
    };
    match p.layout {
        SINGLE => write_by::<SINGLE>(p, packets, first, fill, full, out),
        MULTIPLE => write_by::<MULTIPLE>(p, packets, first, fill, full, out),
        _ => write_by::<STREAMING>(p, packets, first, fill, full, out),
    }
}
