// The FlexRay reader: it judges a frame, checks the room, and gives the rows.
#![tactic(auto)]

ghost use Rattle.std.specs.Prelude.{◌≡◌, length};
ghost use Rattle.packet.specs.Answer.{Gives};
ghost use Rattle.packet.specs.Said.{read_said};
ghost use Rattle.lent.specs.Told.{Tells, told_said};
ghost use Rattle.reading.specs.Reads.{reads};
ghost use Rattle.rows.specs.Count.{JudgedAs, judged_said};
ghost use Rattle.rows.specs.Fill.{Filled.filled, filling};
ghost use Rattle.flexray.specs.Setting.{most_ceiling};
ghost use Rattle.flexray.specs.Reading.{ahead, judged, read_of};
ghost use Rattle.flexray_plan.specs.Plan.{setting, Ready};
ghost use Rattle.flexray_reader.specs.Reads.{framing, Given, First, Judgeable, Following, Fillable};

use flexray::Setting;
use flexray_plan::{further, plan_for};
use layout::{field, pick};
use lent::advance;
use packet::{At, Counter, Found, Reason, Refusal, Rows};
use plan::{FRAME, Plan};
use reading::{fill_loop, judge_loop};
use rows::{few, put, valid};

// The first packet, which carries the frame's counter. LEN ends the header; without LEN the packet is everything behind it.
fn first(p: Plan, t: &[u8]) -> Found
    requires { Given p t.now }
    ensures { First p t.now result }
{
    let said = field(t, p.size - 1, 1);
    let ctr = field(t, 1, p.ctrwidth);
    Found {
        at: p.size,
        len: pick(p.lenwidth == 0, t.len() - p.size, said),
        ctr: ctr as u32,
    }
}

// Judges the packets behind the first. An alignment of one is a case of its own, here and below.
fn judge_behind(p: Plan, t: &[u8], a: At) -> Result<usize, Refusal>
    requires { Judgeable p t.now a }
    ensures { JudgedAs 1 (reads p t.now a) (length t.now) (judged_said result) }
{
    if p.align < 2 {
        return judge_loop::<FRAME, 1>(0, 1, 1, p, t, a, 1);
    }
    judge_loop::<FRAME, 1>(0, 1, p.align, p, t, a, 1)
}

// Judges a frame's packets: the first, and those behind it.
fn judge_packets(p: Plan, t: &[u8]) -> Result<usize, Refusal>
    requires { Given p t.now }
    ensures { JudgedAs 0 (ahead (setting p) t.now 0) (length t.now) (judged_said result) }
{
    let m = first(p, t);
    let q = m.at + m.len;
    let end = t.len();
    if m.len == 0 {
        return Err(Refusal::whole(Reason::Missing));
    }
    if end < q {
        return Err(Refusal::whole(Reason::Cut));
    }
    judge_behind(further(p), t, At { q, end })
}

// Judges a frame before a row is given: its length and its node, NAX being its first byte, then its packets.
#[tactic(auto, using(crate::proofs::ReadsLaws::judges))]
fn judge_frame(p: Plan, t: &[u8]) -> Result<usize, Refusal>
    requires { Ready p }
    ensures { JudgedAs 0 (judged (setting p) t.now) most_ceiling (judged_said result) }
{
    let n = t.len();
    if n % 2 == 1 {
        return Err(Refusal::whole(Reason::Misframed));
    }
    if p.datapacket < n {
        return Err(Refusal::whole(Reason::Misframed));
    }
    if n < p.size + 1 {
        return Err(Refusal::whole(Reason::Missing));
    }
    if field(t, 0, 1) == p.node {
        return judge_packets(p, t);
    }
    Err(Refusal::whole(Reason::Foreign))
}

// Gives the rows of the packets behind the first, up to the k-th.
fn fill_behind(p: Plan, t: &[u8], a: At, c: Counter, rows: &mut [u32], k: usize) -> Counter
    requires { Following p t.now a c k (length rows.old) }
    ensures { filled rows.new result ≡ filling p.direction p.ctrwidth rows.old 5 c (reads p t.now a) }
{
    if p.align < 2 {
        return fill_loop::<FRAME, 1, 0>(1, 1, p, t, a, c, rows, 1, k);
    }
    fill_loop::<FRAME, 1, 0>(1, p.align, p, t, a, c, rows, 1, k)
}

// Gives the k rows of a frame. Its counter and gap stand in the first, and the others carry none.
fn fill(p: Plan, t: &[u8], c: Counter, rows: &mut [u32], k: usize) -> Counter
    requires { Fillable p t.now c k (length rows.old) }
    ensures { filled rows.new result ≡ framing p t.now c rows.old }
{
    let m = first(p, t);
    let state = put(p.direction, p.ctrwidth, t, c, m, rows, 0);
    let q = m.at + m.len;
    let end = t.len();
    fill_behind(further(p), t, At { q, end }, state, rows, k)
}

// Reads a frame: its rows at the front of the table and the state behind it, or the refusal, which changes nothing. The setting and the state come
// before the frame, and the room behind it.
pub fn read(s: Setting, t: &[u8], c: Counter, rows: &mut [u32]) -> Result<Rows, Refusal>
    ensures { Gives (read_of s t.now c rows.old) (read_said result) rows.new }
{
    let p = plan_for(s).ok_or(Refusal::whole(Reason::Unsound))?;
    if !valid(p.ctrwidth, c) {
        return Err(Refusal::whole(Reason::Unsound));
    }
    let k = judge_frame(p, t)?;
    if few(rows.len(), k) {
        return Err(Refusal::whole(Reason::NoRoom));
    }
    let state = fill(p, t, c, rows, k);
    let count = k as u32;
    Ok(Rows { count, state })
}

// The same with the state lent: it is advanced where it lies, unless the read is refused.
pub fn read_lent(s: Setting, t: &[u8], c: &mut Counter, rows: &mut [u32]) -> Result<u32, Refusal>
    ensures { Tells (read_of s t.now c.old rows.old) c.old
        (told_said result) c.new rows.new }
{
    advance(read(s, t, *c, rows), c)
}
