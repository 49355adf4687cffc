// Where messages come to stand, and the size of what is to be written, once for every layout. The loop has its layout for a const parameter, so there
// is one for each.
#![tactic(auto)]

ghost use Rattle.std.specs.Prelude.{◌≡◌};
ghost use Rattle.plan.specs.Place.{Streaming};
ghost use Rattle.plan.specs.Plan.{Cased};
ghost use Rattle.sizing.specs.Places.{crosses_at, end_at, Formed, Reaching, Placing, Placed};
ghost use Rattle.sizing.specs.Sizes.{limit_of, Sizable, SizedAs};

use layout::{both, either, pick, wide32};
use packet::At;
use plan::{FRAME, MULTIPLE, Plan, SINGLE, STREAMING, streamed};

// Where a message comes to stand, and the place behind it.
#[derive(Clone, Copy)]
pub struct Spot {
    pub from: usize,
    pub next: At,
}

// How many lengths fit, their sum, and the place behind them.
#[derive(Clone, Copy)]
pub struct Sized {
    pub taken: usize,
    pub sum: usize,
    pub behind: At,
}

// Whether a message of so many bytes goes to the next data packet: each single one, one that is not wholly inside, in a stream one whose header is
// not. The first place has the end 0, so that its message goes to the first data packet. A frame and a datagram are one data packet.
#[inline(always)]
fn crosses(p: Plan, whole: usize, a: At) -> bool
    requires { Reaching p whole a }
    ensures { result ≡ crosses_at p whole a }
{
    let reach = a.q + pick(p.layout == MULTIPLE, whole, p.size);
    both(p.layout < FRAME, either(p.layout == SINGLE, a.end < reach))
}

// The end of the data packet in which a place stands, behind one whose data packet has this end. Only a stream enters another one.
#[inline(always)]
fn end_of(p: Plan, end: usize, q: usize) -> usize
    requires { Streaming p.datapacket end q }
    ensures { result ≡ end_at p end q }
{
    if p.layout == STREAMING {
        return streamed(p.datapacket, end, q);
    }
    end
}

// Where a message with a packet of n bytes comes to stand: at its place, or at the start of the next data packet.
#[inline(always)]
pub fn place(p: Plan, a: At, n: usize) -> Spot
    requires { Placing p a n }
    ensures { Placed p a n result }
{
    let whole = p.behind(p.size + n);
    let over = crosses(p, whole, a);
    let from = pick(over, a.end, p.header(a.q));
    let q = from + whole;
    let end = end_of(p, pick(over, a.end + p.datapacket, a.end), q);
    Spot {
        from,
        next: At { q, end },
    }
}

// The longest packet that fits by its length: in single and multiple packing its message fits a data packet.
#[inline(always)]
fn limit(p: Plan) -> usize
    requires { Formed p }
    ensures { result ≡ limit_of p }
{
    if p.layout < STREAMING {
        return p.longest.min(p.datapacket - p.size);
    }
    p.longest
}

// Goes through the lengths from a first place on, and writes nothing. It stops at the first that does not fit. Size and alignment are the plan's own:
// whoever knows them says them by literals.
#[tactic(auto, using(crate::proofs::SizeLaws::sizes))]
pub fn size_loop<const LAYOUT: usize>(
    size: usize,
    align: usize,
    plan: Plan,
    q: usize,
    lengths: &[u32],
) -> Sized
    requires cased { Cased LAYOUT plan.lenwidth plan.ctrwidth size align plan }
    requires sizable { Sizable plan q lengths.now }
    ensures { SizedAs plan q lengths.now result }
{
    let p = plan.cased(LAYOUT, plan.lenwidth, plan.ctrwidth, size, align);
    let limit = limit(p);
    let mut z = Sized {
        taken: 0,
        sum: 0,
        behind: At { q, end: 0 },
    };
    for length in lengths {
        let n = wide32(*length);
        if either(n == 0, limit < n) {
            return z;
        }
        let s = place(p, z.behind, n);
        if both(p.layout == FRAME, p.datapacket < s.next.q) {
            return z;
        }
        z = Sized {
            taken: z.taken + 1,
            sum: z.sum + n,
            behind: s.next,
        };
    }
    z
}
