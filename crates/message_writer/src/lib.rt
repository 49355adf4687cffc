// Writing by a plan, where each packet has a header of its own: an output is sized, inputs and room are checked, and it is written. It has the layout,
// which is the plan's, for a const parameter, so there is a copy for each.
#![tactic(auto)]

ghost use Rattle.std.specs.Prelude.{◌≡◌, length};
ghost use Rattle.packet.specs.Answer.{Gives};
ghost use Rattle.packet.specs.Said.{write_said};
ghost use Rattle.plan.specs.Plan.{Messages};
ghost use Rattle.sizing.specs.Sizes.{SizedAs};
ghost use Rattle.writing.specs.Puts.{Wrote};
ghost use Rattle.message_writer.specs.Writes.{Sizing, Putting, end_of, Ahead, Fitted, Roomy, Composed, writes_by};

use layout::{both, pick};
use lengths::{Packets, crowded};
use packet::{At, Reason, Refusal, Written};
use plan::{DATAGRAM, FRAME, Plan};
use rows::holds;
use sizing::{Sized, size_loop};
use writing::{Begin, put_loop, put_rest};

// Sizes messages from the start on.
fn size<const LAYOUT: usize>(p: Plan, lengths: &[u32]) -> Sized
    requires layout_value { LAYOUT ≡ p.layout }
    requires sizing { Sizing p lengths.now }
    ensures { SizedAs p 0 lengths.now result }
{
    if LAYOUT == DATAGRAM {
        return size_loop::<LAYOUT>(4, 1, p, 0, lengths);
    }
    size_loop::<LAYOUT>(p.size, p.align, p, 0, lengths)
}

// Writes messages, by the bytes of LEN and of CTR. A header without CTR may have free bytes.
#[tactic(auto, using(crate::proofs::CaseLaws::cases))]
fn put<const LAYOUT: usize>(p: Plan, b: Begin, packets: Packets, out: &mut [u8]) -> u32
    requires layout_value { LAYOUT ≡ p.layout }
    requires putting { Putting p b packets.bytes.now packets.lengths.now (length out.old) }
    ensures { Wrote p b packets.entry.bytes.now packets.entry.lengths.now out.old out.new result }
{
    if LAYOUT == DATAGRAM {
        return put_loop::<LAYOUT, 2, 2>(4, 1, p, b, packets, out);
    }
    if p.ctrwidth == 1 {
        return put_loop::<LAYOUT, 1, 1>(2, p.align, p, b, packets, out);
    }
    if p.ctrwidth == 2 {
        return put_loop::<LAYOUT, 2, 2>(4, p.align, p, b, packets, out);
    }
    if p.lenwidth == 1 {
        return put_loop::<LAYOUT, 1, 0>(p.size, p.align, p, b, packets, out);
    }
    put_loop::<LAYOUT, 2, 0>(p.size, p.align, p, b, packets, out)
}

// Where an output ends whose messages end at a place: there, or filled up, where its data packet does. A datagram has no end to be filled up to.
fn ended(p: Plan, a: At, full: bool) -> usize
    requires { Ahead p a }
    ensures { result ≡ end_of p a full }
{
    if both(full, p.layout < FRAME) {
        return pick(a.end - a.q < p.datapacket, a.end, a.q);
    }
    a.q
}

// Writes messages that end at a place, and fills up from there to the end. Gives the next counter.
#[tactic(auto, using(crate::proofs::WritesLaws::compositions))]
fn compose<const LAYOUT: usize>(
    p: Plan,
    a: At,
    end: usize,
    packets: Packets,
    first: u32,
    fill: u8,
    out: &mut [u8],
) -> u32
    requires layout_value { LAYOUT ≡ p.layout }
    requires roomy { Roomy p packets.bytes.now packets.lengths.now first a end (length out.old) }
    ensures { Composed p packets.entry.bytes.now packets.entry.lengths.now first fill a end out.old out.new result }
{
    let b = Begin {
        q: 0,
        ctr: first,
        free: fill,
    };
    let next = put::<LAYOUT>(p, b, packets, out);
    put_rest(p, out, a.q, end - a.q, fill);
    next
}

// Lengths that fit: their messages end at a place.
#[tactic(auto, using(crate::proofs::WritesLaws::rooms))]
fn write_fitted<const LAYOUT: usize>(
    p: Plan,
    a: At,
    packets: Packets,
    first: u32,
    fill: u8,
    full: bool,
    out: &mut [u8],
) -> Result<Written, Refusal>
    requires layout_value { LAYOUT ≡ p.layout }
    requires fitted { Fitted p packets.bytes.now packets.lengths.now first a }
    ensures { Gives (writes_by p packets.entry.bytes.now packets.entry.lengths.now first fill full out.old)
        (write_said result) out.new }
{
    let end = ended(p, a, full);
    if crowded(p.most(), out.len(), end) {
        return Err(Refusal::whole(Reason::NoRoom));
    }
    let next = compose::<LAYOUT>(p, a, end, packets, first, fill, out);
    let bytes = end as u32;
    Ok(Written { bytes, next })
}

// Writes packets by a plan at the front of the output, whose last data packet is filled up if `full` says so. The counter is tested, then how many
// lengths there are; all are sized before a byte is written. Their sum comes with their sizes, unless one does not fit.
#[tactic(auto, using(crate::proofs::WritesLaws::answers))]
pub fn write<const LAYOUT: usize>(
    p: Plan,
    packets: Packets,
    first: u32,
    fill: u8,
    full: bool,
    out: &mut [u8],
) -> Result<Written, Refusal>
    requires layout_value { LAYOUT ≡ p.layout }
    requires messages { Messages p }
    ensures { Gives (writes_by p packets.entry.bytes.now packets.entry.lengths.now first fill full out.old)
        (write_said result) out.new }
{
    if !holds(p.ctrwidth, first) {
        return Err(Refusal::whole(Reason::Unsound));
    }
    if 4096 < packets.lengths.len() {
        return Err(Refusal::whole(Reason::Mismatch));
    }
    let z = size::<LAYOUT>(p, packets.lengths);
    if z.taken < packets.lengths.len() {
        return Err(packets.misfit(z.taken));
    }
    if z.sum != packets.bytes.len() {
        return Err(Refusal::whole(Reason::Mismatch));
    }
    write_fitted::<LAYOUT>(p, z.behind, packets, first, fill, full, out)
}
