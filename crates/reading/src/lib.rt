// Reading, written once for every layout: a step that judges and a loop over it, a step that tests no rule and a loop over it that gives the rows.
// A loop is told its layout and its field widths by const parameters, so there is one for each case. What is no literal at every call, as the alignment,
// goes as an argument. A step goes into each loop, so that the loop's case is known in it and nothing is handed over through memory: hence `inline`, here and
// in what a step calls.
#![tactic(auto)]

ghost use Rattle.std.specs.Prelude.{◌≡◌, ◌+◌, ◌*◌, ◌≤◌, length, Ok};
ghost use Rattle.packet.specs.Said.{sight_said};
ghost use Rattle.plan.specs.Place.{Near, Beyond};
ghost use Rattle.plan.specs.Plan.{Cased};
ghost use Rattle.rows.specs.Count.{JudgedAs, judged_said};
ghost use Rattle.rows.specs.Fill.{Filled.filled, filling};
ghost use Rattle.reading.specs.Loops.{Standing, Counted, Fillable, Header, Len, Ended, Bare, Findable, FoundAs, Headed, Going, Finds};
ghost use Rattle.reading.specs.Reads.{reads};
ghost use Rattle.reading.specs.Step.{bare_by, bare_seen, past_at, message_by, seen};

use layout::{both, either, field, least, pick};
use packet::{At, Counter, Found, Reason, Refusal, Sight};
use plan::{DATAGRAM, FRAME, Plan, SINGLE, STREAMING};
use rows::put;

// LEN of a header at h, or 0 where no header fits before the end. Where `tests` is false it fits.
#[tactic(auto, using(crate::proofs::StepLaws::steps))]
#[inline(always)]
fn len_at(tests: bool, p: Plan, t: &[u8], h: usize, end: usize) -> usize
    requires { Header tests p t.now h end }
    ensures { Len tests p t.now h end result }
{
    if either(!tests, h + p.size <= end) {
        return field(t, h, p.lenwidth);
    }
    0
}

// What stands where LEN is 0 or no header fits, by three tests: a rest, one of two refusals, or nothing.
#[inline(always)]
fn bare(rest: bool, some: bool, short: bool, p: Plan, a: At) -> Result<Sight, Refusal>
    requires { Ended p a }
    ensures { sight_said result ≡ bare_by rest some short p a }
{
    if rest {
        return Ok(Sight::Rest(p.next_packet(a)));
    }
    if some {
        if short {
            return Err(Refusal::at(Reason::Cut, a.q));
        }
        return Err(Refusal::at(Reason::Missing, a.q));
    }
    Ok(Sight::Nothing)
}

// What stands in n bytes at a place whose header, at h, says no length or does not fit.
#[inline(always)]
fn bare_at(p: Plan, n: usize, a: At, h: usize) -> Result<Sight, Refusal>
    requires { Bare p a h }
    ensures { sight_said result ≡ bare_seen p n a h }
{
    bare(
        both(p.rests(), a.end < n),
        both(either(p.layout == SINGLE, p.layout == DATAGRAM), a.q < n),
        both(p.layout == DATAGRAM, n < h + p.size),
        p,
        a,
    )
}

// The place behind a packet that ends at e: behind its tail, where there are data packets. A frame and a datagram have none, and `behind` says the same
// of them; but so the compiler need not round.
#[inline(always)]
fn past(p: Plan, e: usize) -> usize
    requires { Near p.align e }
    ensures { Beyond (past_at p e) e result }
{
    if STREAMING < p.layout {
        return e;
    }
    p.behind(e)
}

// The message whose header at h says this length.
#[inline(always)]
fn found(p: Plan, t: &[u8], h: usize, len: usize) -> Found
    requires { Findable p t.now h }
    ensures { FoundAs p t.now h len result }
{
    let ctr = field(t, h + p.lenwidth, p.ctrwidth);
    Found {
        at: h + p.size,
        len,
        ctr: ctr as u32,
    }
}

// What stands where a header at h says a length, by two tests: a refusal, or the message with the place behind it.
#[inline(always)]
fn message(over: bool, past: bool, h: usize, m: Found, next: At) -> Result<Sight, Refusal>
    requires { h ≤ 1000000 }
    ensures { sight_said result ≡ message_by over past h m next }
{
    if over {
        return Err(Refusal::at(Reason::Overlong, h));
    }
    if past {
        return Err(Refusal::at(Reason::Cut, h));
    }
    Ok(Sight::Message(m, next))
}

// What stands at a place whose header says a length.
#[tactic(auto, using(crate::proofs::StepLaws::steps))]
#[inline(always)]
fn take(p: Plan, t: &[u8], a: At, h: usize, rest: usize, len: usize) -> Result<Sight, Refusal>
    requires { Headed p t.now a h rest len }
    ensures { sight_said result ≡ seen p t.now a }
{
    let next = past(p, h + p.size + len);
    message(
        both(p.layout != FRAME, p.longest < len),
        pick(p.layout < STREAMING, rest, t.len()) < next,
        h,
        found(p, t, h, len),
        p.on(a, next),
    )
}

// What stands at a place, and the place behind it.
#[tactic(auto, using(crate::proofs::StepLaws::steps))]
#[inline(always)]
fn see(p: Plan, t: &[u8], a: At) -> Result<Sight, Refusal>
    requires { Standing p t.now a }
    ensures { sight_said result ≡ seen p t.now a }
{
    let n = t.len();
    let h = p.header(a.q);
    let rest = least(a.end, n);
    let len = len_at(true, p, t, h, rest);
    if len == 0 {
        return bare_at(p, n, a, h);
    }
    take(p, t, a, h, rest, len)
}

// What stands at a place where a message or a rest stands: no rule is tested.
#[tactic(auto, using(crate::proofs::FindLaws::findings))]
#[inline(always)]
fn find(p: Plan, t: &[u8], a: At) -> Sight
    requires { Going p t.now a }
    ensures { Finds p t.now a (sight_said (Ok result)) }
{
    let h = p.header(a.q);
    let tests = p.rests();
    let len = len_at(tests, p, t, h, a.end);
    if both(tests, len == 0) {
        return Sight::Rest(p.next_packet(a));
    }
    let next = past(p, h + p.size + len);
    Sight::Message(found(p, t, h, len), p.on(a, next))
}

// Judges what is ahead of a place before which so many rows stand, and writes nothing. What is seen is matched case by case: by `?` it goes through
// memory, and a read takes 1.2 to 1.4 times the instructions.
#[tactic(auto, using(crate::proofs::LoopLaws::judgings))]
pub fn judge_loop<const LAYOUT: usize, const LENWIDTH: usize>(
    ctrwidth: usize,
    size: usize,
    align: usize,
    plan: Plan,
    t: &[u8],
    from: At,
    before: usize,
) -> Result<usize, Refusal>
    requires cased { Cased LAYOUT LENWIDTH ctrwidth size align plan }
    requires counted { Counted plan t.now from before }
    ensures { JudgedAs before (reads plan t.now from) (length t.now) (judged_said result) }
{
    let p = plan.cased(LAYOUT, LENWIDTH, ctrwidth, size, align);
    let mut a = from;
    let mut rows = before;
    loop {
        match see(p, t, a) {
            Ok(Sight::Message(_, next)) => {
                rows += 1;
                a = next;
            }
            Ok(Sight::Rest(next)) => {
                a = next;
            }
            Ok(Sight::Nothing) => return Ok(rows),
            Err(refusal) => return Err(refusal),
        }
    }
}

// Writes the rows of what was judged, from a place on before which so many of the k rows stand, and gives the state behind them. The state's two
// numbers are kept apart, so that a turn need not wait for the whole state of the one before. The rows are counted by hand: a turn that passes a rest
// writes none.
#[tactic(auto, using(crate::proofs::LoopLaws::givings))]
pub fn fill_loop<const LAYOUT: usize, const LENWIDTH: usize, const CTRWIDTH: usize>(
    size: usize,
    align: usize,
    plan: Plan,
    t: &[u8],
    from: At,
    first: Counter,
    rows: &mut [u32],
    before: usize,
    k: usize,
) -> Counter
    requires cased { Cased LAYOUT LENWIDTH CTRWIDTH size align plan }
    requires fillable { Fillable plan t.now from first before k (length rows.old) }
    ensures { filled rows.new result
        ≡ filling plan.direction plan.ctrwidth rows.old (5 * before) first (reads plan t.now from) }
{
    let p = plan.cased(LAYOUT, LENWIDTH, CTRWIDTH, size, align);
    let mut a = from;
    let mut j = before;
    let mut known = first.known;
    let mut expected = first.expected;
    while j < k {
        match find(p, t, a) {
            Sight::Message(m, next) => {
                let c = Counter { known, expected };
                let c = put(p.direction, p.ctrwidth, t, c, m, rows, 5 * j);
                known = c.known;
                expected = c.expected;
                j += 1;
                a = next;
            }
            Sight::Rest(next) => {
                a = next;
            }
            Sight::Nothing => unreachable!(),
        }
    }
    Counter { known, expected }
}
