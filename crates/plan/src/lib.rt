// A plan for every transport: a setting's numbers with those of its header, worked out once; and places, by the layout's case.
#![tactic(auto)]

ghost use Rattle.std.specs.Prelude.{◌≡◌, ◌+◌, ◌≤◌};
ghost use Rattle.plan.specs.Place.{Near, Beyond, Streaming, rests as rests_of, header_at, behind_at, streamed_at, packet_after, on_at};
ghost use Rattle.plan.specs.Plan.{plan_of, most_of, Cased};

use layout::{Shape, either, pick, rounded};
use packet::At;

// The layouts. They stay numbers: a loop is told its own by a const parameter, which no enum can be, and USB's packing is a number of the C interface.
pub const SINGLE: usize = 0;

pub const MULTIPLE: usize = 1;

pub const STREAMING: usize = 2;

pub const FRAME: usize = 3;

pub const DATAGRAM: usize = 4;

// What reading and writing need to know. A frame has no longest packet but what its LEN can say, its data packet is the frame ceiling, and only a
// frame has a node. A datagram's data packet is the longest datagram: it has no other.
#[derive(Clone, Copy, Debug, PartialEq, Eq)]
pub struct Plan {
    pub layout: usize,
    pub header: u32,
    pub align: usize,
    pub datapacket: usize,
    pub longest: usize,
    pub direction: u32,
    pub node: usize,
    pub size: usize,
    pub lenwidth: usize,
    pub ctrwidth: usize,
}

// A setting's numbers, with those of its header.
pub fn joined(
    layout: u32,
    header: u32,
    align: u32,
    datapacket: u32,
    longest: u32,
    direction: u32,
    node: u32,
    k: Shape,
) -> Plan
    ensures { result ≡ plan_of layout header align datapacket longest direction node k }
{
    Plan {
        layout: layout as usize,
        header,
        align: align as usize,
        datapacket: datapacket as usize,
        longest: longest as usize,
        direction,
        node: node as usize,
        size: k.size,
        lenwidth: k.lenwidth,
        ctrwidth: k.ctrwidth,
    }
}

// The end of the data packet in which a stream's place stands, behind a place whose data packet has this end. One end between is passed without a
// branch, since none can foresee where the messages of a stream end; a division only where there are more.
pub fn streamed(m: usize, end: usize, q: usize) -> usize
    requires { Streaming m end q }
    ensures { result ≡ streamed_at m end q }
{
    let next = pick(q < end, end, end + m);
    if q < next {
        return next;
    }
    q + (m - q % m)
}

impl Plan {
    // The plan with the scalars by which a loop was told its case in their places, where they are the plan's own: so the compiler knows them.
    pub fn cased(
        self,
        layout: usize,
        lenwidth: usize,
        ctrwidth: usize,
        size: usize,
        align: usize,
    ) -> Self
        requires { Cased layout lenwidth ctrwidth size align self }
        ensures { result ≡ self }
    {
        Self {
            layout,
            lenwidth,
            ctrwidth,
            size,
            align,
            ..self
        }
    }

    // The most bytes of an input or an output, where each packet has a header of its own: a datagram's are those of its one data packet.
    pub fn most(self) -> usize
        ensures { result ≡ most_of self }
    {
        pick(self.layout == DATAGRAM, self.datapacket, 262144)
    }

    // Whether data packets may end with a rest.
    pub fn rests(self) -> bool
        ensures { result ≡ rests_of self }
    {
        either(self.layout == MULTIPLE, self.layout == STREAMING)
    }

    // Where the header stands at a place. A frame's place is the end of a packet, and the byte before the next packet is its header.
    pub fn header(self, q: usize) -> usize
        requires { Near self.align q }
        ensures { Beyond (header_at self q) q result }
    {
        if self.layout == FRAME {
            return rounded(self.align, q + 1) - 1;
        }
        q
    }

    // The place behind a packet that ends at e: behind its tail, where it has one. Places are multiples of the alignment, so that rounding the place
    // is rounding the message; a datagram's alignment is 1.
    pub fn behind(self, e: usize) -> usize
        requires { Near self.align e }
        ensures { Beyond (behind_at self e) e result }
    {
        if self.layout == FRAME {
            return e;
        }
        rounded(self.align, e)
    }

    // The start of the next data packet.
    pub fn next_packet(self, a: At) -> At
        requires { a.end + self.datapacket ≤ 2000000000 }
        ensures { result ≡ packet_after self a }
    {
        At {
            q: a.end,
            end: a.end + self.datapacket,
        }
    }

    // The place behind a message. A single one leaves the rest of its data packet free, which is passed with it.
    pub fn on(self, a: At, next: usize) -> At
        requires { Streaming self.datapacket a.end next }
        ensures { result ≡ on_at self a next }
    {
        if self.layout == SINGLE {
            return self.next_packet(a);
        }
        if self.layout == STREAMING {
            return At {
                q: next,
                end: streamed(self.datapacket, a.end, next),
            };
        }
        At {
            q: next,
            end: a.end,
        }
    }
}
