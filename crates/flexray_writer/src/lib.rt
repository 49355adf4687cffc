// The FlexRay writer: it sizes a frame, checks its inputs and the room, and writes it.
#![tactic(auto)]

ghost use Rattle.std.specs.Prelude.{◌≡◌, cond, ◌||◌, ltb, length};
ghost use Rattle.std.proofs.lemmas.List.Edits.{sets};
ghost use Rattle.packet.specs.Answer.{Gives};
ghost use Rattle.packet.specs.Said.{write_said};
ghost use Rattle.packet.specs.Limit.{most_lengths};
ghost use Rattle.packet.specs.Packets.{packets as packets_of};
ghost use Rattle.flexray.specs.Writing.{frame, evening, miscounted as miscounted_of, write_of};
ghost use Rattle.flexray_plan.specs.Plan.{setting, Ready};
ghost use Rattle.sizing.specs.Sizes.{SizedAs};
ghost use Rattle.writing.specs.Puts.{Wrote};
ghost use Rattle.flexray_writer.specs.Writes.{Sizing, Putting, head_bytes, Leading, Evening, Begun, Counted, Fitted, Roomy};

use flexray::Setting;
use flexray_plan::{further, plan_for, start};
use layout::{both, either, put_field, wide32};
use lengths::{Packets, crowded};
use packet::{Reason, Refusal, Written};
use plan::{FRAME, Plan};
use rows::{after, holds};
use sizing::{Sized, size_loop};
use store::fill;
use writing::{Begin, put_loop};

// Whether the list is empty or too long, or is not one packet without LEN.
fn miscounted(p: Plan, lengths: &[u32]) -> bool
    requires { Ready p }
    ensures { result ≡ (ltb most_lengths (length lengths.now) || miscounted_of (setting p) lengths.now) }
{
    let n = lengths.len();
    either(4096 < n, either(n == 0, both(p.lenwidth == 0, n != 1)))
}

// Sizes packets from a place on, the end of the packet before. Where they are not aligned the compiler makes a loop that does not align.
fn size(p: Plan, q: usize, lengths: &[u32]) -> Sized
    requires { Sizing p q lengths.now }
    ensures { SizedAs p q lengths.now result }
{
    if p.align == 1 {
        return size_loop::<FRAME>(1, 1, p, q, lengths);
    }
    size_loop::<FRAME>(1, p.align, p, q, lengths)
}

// Writes packets, each behind its LEN.
fn put_packets(p: Plan, b: Begin, packets: Packets, out: &mut [u8]) -> u32
    requires { Putting p b packets.bytes.now packets.lengths.now (length out.old) }
    ensures { Wrote p b packets.entry.bytes.now packets.entry.lengths.now out.old out.new result }
{
    if p.align == 1 {
        return put_loop::<FRAME, 1, 0>(1, 1, p, b, packets, out);
    }
    put_loop::<FRAME, 1, 0>(1, p.align, p, b, packets, out)
}

// Writes the header at the front: the node first, CTR behind it, LEN at the header's end, free bytes between.
fn put_header(p: Plan, out: &mut [u8], n: usize, ctr: u32, free: u8)
    requires { Leading p out.old }
    ensures { out.new ≡ sets out.old 0 (head_bytes (setting p) free ctr n) }
{
    fill(out, 0, p.size, free);
    put_field(out, 0, 1, p.node);
    put_field(out, 1, p.ctrwidth, wide32(ctr));
    put_field(out, p.size - p.lenwidth, p.lenwidth, n);
}

// The byte that evens a frame.
fn even_byte(zero: bool, free: u8) -> u8
    ensures { result ≡ cond zero 0 free }
{
    if zero {
        return 0;
    }
    free
}

// Makes a frame even whose last packet ends at e: the byte behind it is zero where the next LEN would stand, else free.
#[tactic(auto, using(crate::proofs::HeaderLaws::evenings))]
fn put_evening(p: Plan, out: &mut [u8], e: usize, free: u8)
    requires { Evening p out.old e }
    ensures { out.new ≡ sets out.old e (evening (setting p) free e) }
{
    if e % 2 == 0 {
        return;
    }
    let next = start(p.align, e);
    out[e] = even_byte(both(p.lenwidth != 0, next == e + 1), free);
}

// Writes packets of which the last ends at a place, the byte that evens the frame, and the header over what stands for the first packet's LEN.
#[tactic(auto, using(crate::proofs::WritesLaws::writes))]
fn compose(p: Plan, b: Begin, packets: Packets, end: usize, out: &mut [u8])
    requires { Roomy p b packets.bytes.now packets.lengths.now end (length out.old) }
    ensures { out.new ≡ sets out.old 0
        (frame (setting p) b.free b.ctr (packets_of packets.entry.lengths.now packets.entry.bytes.now)) }
{
    put_packets(further(p), b, packets, out);
    put_evening(p, out, end, b.free);
    put_header(p, out, wide32(packets.lengths[0]), b.ctr, b.free);
}

// Lengths that fit: the last packet ends at a place.
fn write_fitted(
    p: Plan,
    b: Begin,
    packets: Packets,
    end: usize,
    out: &mut [u8],
) -> Result<Written, Refusal>
    requires { Fitted p b packets.bytes.now packets.lengths.now end }
    ensures { Gives (write_of (setting p) packets.entry.bytes.now packets.entry.lengths.now b.ctr b.free out.old)
        (write_said result) out.new }
{
    let whole = end + end % 2;
    if crowded(262144, out.len(), whole) {
        return Err(Refusal::whole(Reason::NoRoom));
    }
    compose(p, b, packets, end, out);
    let next = after(p.ctrwidth, b.ctr);
    let bytes = whole as u32;
    Ok(Written { bytes, next })
}

// With a setting that is sound: the counter, then how many lengths there are. They are sized before a byte is written. Their sum comes with their
// sizes, unless one does not fit.
fn write_sound(p: Plan, b: Begin, packets: Packets, out: &mut [u8]) -> Result<Written, Refusal>
    requires { Begun p b }
    ensures { Gives (write_of (setting p) packets.entry.bytes.now packets.entry.lengths.now b.ctr b.free out.old)
        (write_said result) out.new }
{
    if !holds(p.ctrwidth, b.ctr) {
        return Err(Refusal::whole(Reason::Unsound));
    }
    if miscounted(p, packets.lengths) {
        return Err(Refusal::whole(Reason::Mismatch));
    }
    let z = size(further(p), b.q, packets.lengths);
    if z.taken < packets.lengths.len() {
        return Err(packets.misfit(z.taken));
    }
    if z.sum != packets.bytes.len() {
        return Err(Refusal::whole(Reason::Mismatch));
    }
    write_fitted(p, b, packets, z.behind.q, out)
}

// Writes packets, given as joined bytes and lengths, as one frame of the least even length at the front of the output; or refuses, which
// changes nothing. The frame carries the counter `first`; free bytes take the byte `fill`. The header's last byte is written as the first packet's
// LEN, so that all packets are written alike.
#[tactic(auto, using(crate::proofs::WritesLaws::plans))]
pub fn write(
    s: Setting,
    packets: &[u8],
    lengths: &[u32],
    first: u32,
    fill: u8,
    out: &mut [u8],
) -> Result<Written, Refusal>
    ensures { Gives (write_of s packets.now lengths.now first fill out.old)
        (write_said result) out.new }
{
    let p = plan_for(s).ok_or(Refusal::whole(Reason::Unsound))?;
    let b = Begin {
        q: p.size - 1,
        ctr: first,
        free: fill,
    };
    let packets = Packets {
        bytes: packets,
        lengths,
    };
    write_sound(p, b, packets, out)
}
