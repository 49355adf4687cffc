// What every transport's reader does with a message it found: its gap, the counter state behind it, and its row in the lent table; and how it
// how much room rows need.
#![tactic(auto)]

ghost use Rattle.std.specs.Prelude.{◌≡◌, ◌+◌, ◌*◌, ◌≤◌, length, ltb};
ghost use Rattle.std.proofs.lemmas.List.Edits.{sets};
ghost use Rattle.packet.specs.Counter.{difference, gap as gap_of, holds as holds_of, valid as valid_of};
ghost use Rattle.packet.specs.Limit.{Short};
ghost use Rattle.packet.specs.Row.{row, numbers};
ghost use Rattle.packet.specs.Seen.{message};
ghost use Rattle.rows.specs.Counters.{Narrow, Parted, Said, After, Counted, Advanced};
ghost use Rattle.rows.specs.Rows.{Rowable, Putting, Put};

use layout::either;
use packet::{Counter, Found, Row, gap8, gap16, kind_of};

// Whether a counter of so many bytes can be n; any number where there is none.
pub fn holds(width: usize, n: u32) -> bool
    requires { Narrow width }
    ensures { result ≡ holds_of width n }
{
    match width {
        0 => true,
        1 => n < 256,
        _ => n < 65536,
    }
}

// Whether a counter can be what the state expects, if it expects one.
pub fn valid(width: usize, c: Counter) -> bool
    requires { Narrow width }
    ensures { result ≡ valid_of width c }
{
    either(c.known == 0, holds(width, c.expected))
}

// Received less expected, modulo the size of a counter of so many bytes.
#[inline(always)]
fn apart(width: usize, received: u32, expected: u32) -> u32
    requires { Parted width received expected }
    ensures { result ≡ difference width received expected }
{
    match width {
        1 => u32::from(gap8(received as u8, expected as u8)),
        2 => u32::from(gap16(received as u16, expected as u16)),
        _ => 0,
    }
}

// The gap of a message with counter n, which is 0 without CTR.
#[inline(always)]
fn gap(width: usize, c: Counter, n: u32) -> u32
    requires { Counted width c n }
    ensures { result ≡ gap_of width c n }
{
    if c.known == 0 {
        return 0;
    }
    apart(width, n, c.expected)
}

// The counter after n.
#[inline(always)]
pub fn after(width: usize, n: u32) -> u32
    requires { Said width n }
    ensures { After width n result }
{
    match width {
        1 => (n + 1) % 256,
        2 => (n + 1) % 65536,
        _ => n,
    }
}

// The state behind a message with counter n. Without CTR it is left as it is.
#[inline(always)]
fn advance(width: usize, c: Counter, n: u32) -> Counter
    requires { Counted width c n }
    ensures { Advanced width c n result }
{
    if width == 0 {
        return c;
    }
    let expected = after(width, n);
    Counter { known: 1, expected }
}

// The row of a message. Its kind is that of the packet's part of the input.
#[inline(always)]
fn row_of(direction: u32, width: usize, t: &[u8], c: Counter, m: Found) -> Row
    requires { Rowable direction width t.now c m }
    ensures { result ≡ row direction width c (message t.now m) }
{
    let at = m.at;
    Row {
        place: m.at as u32,
        length: m.len as u32,
        counter: m.ctr,
        gap: gap(width, c, m.ctr),
        kind: u32::from(kind_of(direction == 0, &t[at..])),
    }
}

#[inline(always)]
fn put_row(rows: &mut [u32], i: usize, r: Row)
    requires { i + 5 ≤ length rows.old }
    ensures { rows.new ≡ sets rows.old i (numbers r) }
{
    rows[i] = r.place;
    rows[i + 1] = r.length;
    rows[i + 2] = r.counter;
    rows[i + 3] = r.gap;
    rows[i + 4] = r.kind;
}

// Writes the row of a message whose counter has so many bytes, none if it carries none, and gives the state behind it.
#[inline(always)]
pub fn put(
    direction: u32,
    width: usize,
    t: &[u8],
    c: Counter,
    m: Found,
    rows: &mut [u32],
    i: usize,
) -> Counter
    requires { Putting direction width t.now c m i (length rows.old) }
    ensures { Put direction width t.now c m i rows.old rows.new result }
{
    put_row(rows, i, row_of(direction, width, t, c, m));
    advance(width, c, m.ctr)
}

// Whether so many numbers are too few for k rows.
pub fn few(numbers: usize, k: usize) -> bool
    requires { Short k }
    ensures { result ≡ ltb numbers (5 * k) }
{
    numbers < 5 * k
}
