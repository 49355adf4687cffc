// What every transport shares: a message that was found, the counter state, kinds, parts of an input, and the answers.
#![tactic(auto)]

ghost use Rattle.std.specs.Prelude.{◌≡◌, ◌<◌, length};
ghost use Rattle.packet.specs.Counter.{difference, fresh};
ghost use Rattle.packet.specs.Kind.{slave, master, kind_from, kind_of};
ghost use Rattle.packet.specs.Part.{part_of, check_of};
ghost use Rattle.packet.specs.Said.{number_of, number_of_kind, kind_said, refusal_at, check_said};

// The counter expected next, where known is not 0; the state is fresh where it is.
#[repr(C)]
#[derive(Clone, Copy, Debug, PartialEq, Eq)]
pub struct Counter {
    pub known: u32,
    pub expected: u32,
}

// A place of an input, and the end of the data packet, frame or datagram in which it stands.
#[derive(Clone, Copy, Debug, PartialEq, Eq)]
pub struct At {
    pub q: usize,
    pub end: usize,
}

// A message: its packet's place and length, and its counter, 0 where it carries none.
#[derive(Clone, Copy, Debug, PartialEq, Eq)]
pub struct Found {
    pub at: usize,
    pub len: usize,
    pub ctr: u32,
}

// What stands at a place: a message or a rest, with the place behind it; or nothing more.
#[derive(Clone, Copy, Debug, PartialEq, Eq)]
pub enum Sight {
    Nothing,
    Message(Found, At),
    Rest(At),
}

// The five numbers of a row.
#[derive(Clone, Copy, Debug, PartialEq, Eq)]
pub struct Row {
    pub place: u32,
    pub length: u32,
    pub counter: u32,
    pub gap: u32,
    pub kind: u32,
}

// What a reader gave: the row count, and the state behind the rows.
#[derive(Clone, Copy, Debug, PartialEq, Eq)]
pub struct Rows {
    pub count: u32,
    pub state: Counter,
}

// What a writer gave: the bytes written, and the next counter.
#[derive(Clone, Copy, Debug, PartialEq, Eq)]
pub struct Written {
    pub bytes: u32,
    pub next: u32,
}

// Why a call is refused. C is told it by the number that stands here.
#[derive(Clone, Copy, Debug, PartialEq, Eq)]
pub enum Reason {
    // A setting, or a counter or a state that does not go with it.
    Unsound = 1,
    // An input that is too long, or lengths that differ from the bytes of their packets.
    Mismatch = 2,
    // A packet that is longer than may be.
    Overlong = 3,
    // A table or an output with too little room.
    NoRoom = 4,
    // An input that ends inside of what stands there.
    Cut = 5,
    // A message that must stand there and does not.
    Missing = 6,
    // A frame of another node.
    Foreign = 7,
    // A length that no frame has.
    Misframed = 8,
    // A word that cannot stand where it stands.
    Misplaced = 9,
}

impl From<Reason> for u32 {
    ghost from_gives = { λ reason n. n ≡ number_of reason };

    fn from(reason: Reason) -> u32 {
        reason as u32
    }
}

// A refusal: why, and the place, in the input or among the lengths; 0 where the whole call is refused.
#[derive(Clone, Copy, Debug, PartialEq, Eq)]
pub struct Refusal {
    pub reason: Reason,
    pub place: u32,
}

impl Counter {
    pub fn fresh() -> Self
        ensures { result ≡ fresh }
    {
        Self {
            known: 0,
            expected: 0,
        }
    }
}

impl Refusal {
    // At a place of an input.
    pub fn at(reason: Reason, place: usize) -> Self
        requires { place < 4294967296 }
        ensures { result ≡ refusal_at reason place }
    {
        Self {
            reason,
            place: place as u32,
        }
    }

    // Of the whole call.
    pub fn whole(reason: Reason) -> Self
        ensures { result ≡ refusal_at reason 0 }
    {
        Self { reason, place: 0 }
    }
}

// Received less expected, modulo the size of a counter of one byte. The subtraction wraps on purpose.
pub fn gap8(received: u8, expected: u8) -> u8
    ensures { result ≡ difference 1 received expected }
{
    u8::wrapping_sub(received, expected)
}

// The same for a counter of two bytes.
pub fn gap16(received: u16, expected: u16) -> u16
    ensures { result ≡ difference 2 received expected }
{
    u16::wrapping_sub(received, expected)
}

// What a packet is, by its first byte. A row has it as the number that stands here.
#[derive(Clone, Copy, Debug, PartialEq, Eq)]
pub enum PacketKind {
    Response = 1,
    Error = 2,
    Event = 3,
    Service = 4,
    Data = 5,
    Command = 6,
    Stimulation = 7,
}

impl From<PacketKind> for u32 {
    ghost from_gives = { λ kind n. n ≡ number_of_kind kind };

    fn from(kind: PacketKind) -> u32 {
        kind as u32
    }
}

fn kind_from_slave(b: u8) -> PacketKind
    ensures { number_of_kind result ≡ slave b }
{
    match b {
        0xFF => PacketKind::Response,
        0xFE => PacketKind::Error,
        0xFD => PacketKind::Event,
        0xFC => PacketKind::Service,
        0x00..=0xFB => PacketKind::Data,
    }
}

fn kind_from_master(b: u8) -> PacketKind
    ensures { number_of_kind result ≡ master b }
{
    match b {
        0xC0..=0xFF => PacketKind::Command,
        0x00..=0xBF => PacketKind::Stimulation,
    }
}

// The kind of the packet at the start of a part that has bytes, from the slave or from the master.
pub fn kind_of(slaves: bool, packet: &[u8]) -> PacketKind
    requires { 0 < length packet.now }
    ensures { number_of_kind result ≡ kind_from slaves packet.now }
{
    if slaves {
        return kind_from_slave(packet[0]);
    }
    kind_from_master(packet[0])
}

// The kind of the packet at the part's start, by its first byte; none for an empty part or a direction above 1.
pub fn kind(direction: u32, packet: &[u8]) -> Option<PacketKind>
    ensures { kind_said result ≡ kind_of direction packet.now }
{
    if packet.len() == 0 {
        return None;
    }
    match direction {
        0 => Some(kind_of(true, packet)),
        1 => Some(kind_of(false, packet)),
        _ => None,
    }
}

// Whether so many bytes from a place on lie inside the input. The sum of two u32 cannot wrap a usize.
pub fn part_check(input: &[u8], place: u32, length: u32) -> Result<(), Refusal>
    ensures { check_said result ≡ check_of input.now place length }
{
    let end = place as usize + length as usize;
    if end <= input.len() {
        return Ok(());
    }
    Err(Refusal {
        reason: Reason::Cut,
        place,
    })
}

// That part of the input, or the empty part where it does not lie inside.
pub fn part(input: &[u8], place: u32, length: u32) -> &[u8]
    ensures { result.now ≡ part_of input.now place length }
{
    let from = place as usize;
    let to = from + length as usize;
    if to <= input.len() {
        return &input[from..to];
    }
    &input[0..0]
}
