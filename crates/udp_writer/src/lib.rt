// The UDP writer: by the plan of its setting. No byte of a datagram is free, and none is filled up.
#![tactic(auto)]

ghost use Rattle.packet.specs.Answer.{Gives};
ghost use Rattle.packet.specs.Said.{write_said};
ghost use Rattle.udp.specs.Writing.{write_of};

use lengths::Packets;
use message_writer::write as write_by;
use packet::{Reason, Refusal, Written};
use plan::DATAGRAM;
use udp::{Setting, plan_of, sound};

// Writes packets, given as joined bytes and lengths, as a datagram at the front of the output; or refuses, which changes nothing. The first packet
// carries the counter `first`.
#[tactic(auto, using(crate::proofs::WritesLaws::plans))]
pub fn write(
    s: Setting,
    packets: &[u8],
    lengths: &[u32],
    first: u32,
    out: &mut [u8],
) -> Result<Written, Refusal>
    ensures { Gives (write_of s packets.now lengths.now first out.old) (write_said result) out.new }
{
    if !sound(s) {
        return Err(Refusal::whole(Reason::Unsound));
    }
    let packets = Packets {
        bytes: packets,
        lengths,
    };
    write_by::<DATAGRAM>(plan_of(s), packets, first, 0, false, out)
}
