// Writing, once for every layout. The loop has its case, the layout and the bytes of LEN and of CTR, for const parameters, so there is one for each.
#![tactic(auto)]

ghost use Rattle.std.specs.Prelude.{◌≡◌, ◌++◌, ◌-◌, length, take, replicate};
ghost use Rattle.std.proofs.lemmas.List.Edits.{sets};
ghost use Rattle.plan.specs.Plan.{Cased};
ghost use Rattle.writing.specs.Bytes.{rest_bytes, head_bytes, message_bytes, last_of, over, Resting, Skipping, Few, Headed, Tailing, Fitting, Passing};
ghost use Rattle.writing.specs.Puts.{Writable, Wrote};

use layout::{both, put_field, wide32};
use lengths::Packets;
use packet::At;
use plan::{DATAGRAM, FRAME, Plan, STREAMING};
use rows::after;
use sizing::place;
use store::{fill_few, put_first, set};

// Where messages are to be put, the first one's counter, and the free byte.
#[derive(Clone, Copy)]
pub struct Begin {
    pub q: usize,
    pub ctr: u32,
    pub free: u8,
}

// Writes a rest of n bytes, which starts with a zero LEN where the layout has rests and a header fits. What a single message leaves is free, and so
// is what is passed over in a frame.
#[tactic(auto, using(crate::proofs::PutLaws::rested))]
#[inline(always)]
pub fn put_rest(p: Plan, out: &mut [u8], at: usize, n: usize, free: u8)
    requires { Resting p out.old at n }
    ensures { out.new ≡ sets out.old at (rest_bytes p free n) }
{
    if n == 0 {
        return;
    }
    set(out, at, n, free);
    if both(p.rests(), p.size <= n) {
        put_field(out, at, p.lenwidth, 0);
        return;
    }
}

// Writes what is passed over before a message: in a stream a few free bytes, in which no header fits, in a frame those that align a packet, and in a
// datagram none.
#[tactic(auto, using(crate::proofs::PutLaws::passed))]
#[inline(always)]
fn put_passed(p: Plan, out: &mut [u8], at: usize, n: usize, free: u8)
    requires { Skipping p out.old at n }
    ensures { out.new ≡ sets out.old at (rest_bytes p free n) }
{
    if p.layout < STREAMING {
        put_rest(p, out, at, n, free);
        return;
    }
    fill_few(out, at, n, free);
}

// Puts at most two free bytes from a place on.
#[inline(always)]
fn put_free(out: &mut [u8], at: usize, n: usize, free: u8)
    requires { Few out.old at n }
    ensures { out.new ≡ sets out.old at (replicate n free) }
{
    if n == 0 {
        return;
    }
    out[at] = free;
    out[at + n - 1] = free;
}

// Writes a header at the front: LEN, CTR, free bytes.
#[tactic(auto, using(crate::proofs::PutLaws::messages))]
#[inline(always)]
fn put_header(p: Plan, out: &mut [u8], n: usize, ctr: u32, free: u8)
    requires { Headed p out.old }
    ensures { out.new ≡ sets out.old 0 (head_bytes p free ctr n) }
{
    put_field(out, 0, p.lenwidth, n);
    put_field(out, p.lenwidth, p.ctrwidth, wide32(ctr));
    put_free(
        out,
        p.lenwidth + p.ctrwidth,
        p.size - p.lenwidth - p.ctrwidth,
        free,
    );
}

// Fills at least as many last bytes of a message that ends there as its tail can have: none in a frame or a datagram. Header and packet go over them.
#[inline(always)]
fn put_tail(p: Plan, out: &mut [u8], end: usize, free: u8)
    requires { Tailing p out.old end }
    ensures { out.new ≡ sets out.old (end - last_of p) (replicate (last_of p) free) }
{
    if STREAMING < p.layout {
        return;
    }
    if 4 <= p.align {
        set(out, end - p.align, 4, free);
        set(out, end - 4, 4, free);
        return;
    }
    out[end - 1] = free;
}

// Writes a message at the front: its tail, header and packet, the first n bytes of those left. In a datagram more of them may go, which the next message
// is written over. A frame's packet is likely short. With either for the others the loop would be so dear that the compiler makes no loop for
// each case.
#[tactic(auto, using(crate::proofs::PutLaws::messages))]
#[inline(always)]
fn put_message(p: Plan, out: &mut [u8], left: &[u8], n: usize, ctr: u32, free: u8)
    requires { Fitting p out.old left.now n }
    ensures { out.new ≡ sets out.old 0
        (message_bytes p free ctr (take n left.now) ++ over p n left.now) }
{
    put_tail(p, out, p.behind(p.size + n), free);
    put_header(p, out, n, ctr, free);
    put_first(
        p.layout == DATAGRAM,
        p.layout == FRAME,
        out,
        p.size,
        left,
        n,
    );
}

// Writes a message where it comes to stand, behind what is passed over from q on. It is handed the rest of the output.
#[tactic(auto, using(crate::proofs::PutLaws::messages))]
#[inline(always)]
fn put_one(
    p: Plan,
    out: &mut [u8],
    q: usize,
    from: usize,
    left: &[u8],
    n: usize,
    ctr: u32,
    free: u8,
)
    requires { Passing p out.old q from left.now n }
    ensures { out.new ≡ sets out.old q
        (rest_bytes p free (from - q) ++ (message_bytes p free ctr (take n left.now) ++ over p n left.now)) }
{
    put_passed(p, out, q, from - q, free);
    put_message(p, &mut out[from..], left, n, ctr, free);
}

// Writes messages from a place on, and gives the counter behind them. Size and alignment are the plan's own: whoever knows them says them by literals.
pub fn put_loop<const LAYOUT: usize, const LENWIDTH: usize, const CTRWIDTH: usize>(
    size: usize,
    align: usize,
    plan: Plan,
    b: Begin,
    packets: Packets,
    out: &mut [u8],
) -> u32
    requires cased { Cased LAYOUT LENWIDTH CTRWIDTH size align plan }
    requires writable { Writable plan b packets.bytes.now packets.lengths.now (length out.old) }
    ensures { Wrote plan b packets.entry.bytes.now packets.entry.lengths.now out.old out.new result }
{
    let p = plan.cased(LAYOUT, LENWIDTH, CTRWIDTH, size, align);
    let mut a = At { q: b.q, end: 0 };
    let mut c = b.ctr;
    let mut from = 0;
    for length in packets.lengths {
        let n = wide32(*length);
        let s = place(p, a, n);
        let left = &packets.bytes[from..];
        put_one(p, out, a.q, s.from, left, n, c, b.free);
        c = after(p.ctrwidth, c);
        a = s.next;
        from += n;
    }
    c
}
