// Reading by a plan, where each packet has a header of its own: an input is judged, the room is checked, and the rows are given. Whether the plan is a
// datagram's is a const parameter, so that a reader of datagrams has no code for data packets, and none has the other's.
#![tactic(auto)]

ghost use Rattle.std.specs.Prelude.{◌≡◌, length};
ghost use Rattle.packet.specs.Answer.{Gives};
ghost use Rattle.reading.specs.Reads.{reads};
ghost use Rattle.packet.specs.Said.{read_said};
ghost use Rattle.rows.specs.Count.{JudgedAs, judged_said};
ghost use Rattle.rows.specs.Fill.{Filled.filled, filling};
ghost use Rattle.reading.specs.Loops.{Counted, Fillable};
ghost use Rattle.message_reader.specs.Reads.{first, answer_by, Kind, Packed, Begun, Roomy};

use layout::pick;
use packet::{At, Counter, Reason, Refusal, Rows};
use plan::{DATAGRAM, MULTIPLE, Plan, SINGLE, STREAMING};
use reading::{fill_loop, judge_loop};
use rows::{few, valid};

// Judges an input of data packets. Each call says its layout.
#[tactic(auto, using(crate::proofs::ReadsLaws::cases))]
fn judge_packets<const LENWIDTH: usize>(p: Plan, t: &[u8], a: At) -> Result<usize, Refusal>
    requires packed { Packed LENWIDTH p.ctrwidth p }
    requires counted { Counted p t.now a 0 }
    ensures { JudgedAs 0 (reads p t.now a) (length t.now) (judged_said result) }
{
    match p.layout {
        SINGLE => judge_loop::<SINGLE, LENWIDTH>(p.ctrwidth, p.size, p.align, p, t, a, 0),
        MULTIPLE => judge_loop::<MULTIPLE, LENWIDTH>(p.ctrwidth, p.size, p.align, p, t, a, 0),
        _ => judge_loop::<STREAMING, LENWIDTH>(p.ctrwidth, p.size, p.align, p, t, a, 0),
    }
}

// Judges an input. Each call says the bytes of LEN.
#[tactic(auto, using(crate::proofs::ReadsLaws::cases))]
fn judge<const IS_DATAGRAM: bool>(p: Plan, t: &[u8]) -> Result<usize, Refusal>
    requires { Begun IS_DATAGRAM p t.now }
    ensures { JudgedAs 0 (reads p t.now (first p)) (length t.now) (judged_said result) }
{
    let a = At {
        q: 0,
        end: p.datapacket,
    };
    if IS_DATAGRAM {
        return judge_loop::<DATAGRAM, 2>(2, 4, 1, p, t, a, 0);
    }
    match p.lenwidth {
        1 => judge_packets::<1>(p, t, a),
        _ => judge_packets::<2>(p, t, a),
    }
}

// Gives the k rows of an input of data packets. Each call says its layout. With LEN and CTR the header is full, so that the compiler knows its size.
#[tactic(auto, using(crate::proofs::ReadsLaws::cases))]
fn fill_packets<const LENWIDTH: usize, const CTRWIDTH: usize>(
    p: Plan,
    t: &[u8],
    a: At,
    c: Counter,
    rows: &mut [u32],
    k: usize,
) -> Counter
    requires packed { Packed LENWIDTH CTRWIDTH p }
    requires fillable { Fillable p t.now a c 0 k (length rows.old) }
    ensures { filled rows.new result ≡ filling p.direction p.ctrwidth rows.old 0 c (reads p t.now a) }
{
    let size = pick(CTRWIDTH == 0, p.size, LENWIDTH + CTRWIDTH);
    match p.layout {
        SINGLE => fill_loop::<SINGLE, LENWIDTH, CTRWIDTH>(size, p.align, p, t, a, c, rows, 0, k),
        MULTIPLE => fill_loop::<MULTIPLE, LENWIDTH, CTRWIDTH>(
            size, p.align, p, t, a, c, rows, 0, k,
        ),
        _ => fill_loop::<STREAMING, LENWIDTH, CTRWIDTH>(size, p.align, p, t, a, c, rows, 0, k),
    }
}

// Gives the k rows of an input. Each call says the bytes of LEN and of CTR.
#[tactic(auto, using(crate::proofs::ReadsLaws::cases))]
fn fill<const IS_DATAGRAM: bool>(
    p: Plan,
    t: &[u8],
    c: Counter,
    rows: &mut [u32],
    k: usize,
) -> Counter
    requires { Roomy IS_DATAGRAM p t.now c k (length rows.old) }
    ensures { filled rows.new result
        ≡ filling p.direction p.ctrwidth rows.old 0 c (reads p t.now (first p)) }
{
    let a = At {
        q: 0,
        end: p.datapacket,
    };
    if IS_DATAGRAM {
        return fill_loop::<DATAGRAM, 2, 2>(4, 1, p, t, a, c, rows, 0, k);
    }
    match p.lenwidth {
        1 => match p.ctrwidth {
            0 => fill_packets::<1, 0>(p, t, a, c, rows, k),
            _ => fill_packets::<1, 1>(p, t, a, c, rows, k),
        },
        _ => match p.ctrwidth {
            0 => fill_packets::<2, 0>(p, t, a, c, rows, k),
            _ => fill_packets::<2, 2>(p, t, a, c, rows, k),
        },
    }
}

// Reads by a plan: the state is tested, then the length, then what is read, and last the room for the rows.
pub fn read_planned<const IS_DATAGRAM: bool>(
    p: Plan,
    t: &[u8],
    c: Counter,
    rows: &mut [u32],
) -> Result<Rows, Refusal>
    requires { Kind IS_DATAGRAM p }
    ensures { Gives (answer_by p t.now c rows.old) (read_said result) rows.new }
{
    if !valid(p.ctrwidth, c) {
        return Err(Refusal::whole(Reason::Unsound));
    }
    if p.most() < t.len() {
        return Err(Refusal::whole(Reason::Mismatch));
    }
    let k = judge::<IS_DATAGRAM>(p, t)?;
    if few(rows.len(), k) {
        return Err(Refusal::whole(Reason::NoRoom));
    }
    let state = fill::<IS_DATAGRAM>(p, t, c, rows, k);
    let count = k as u32;
    Ok(Rows { count, state })
}
