// Bytes put into a lent output: free bytes, a packet.
#![tactic(auto)]

ghost use Rattle.std.specs.Prelude.{◌≡◌, ◌++◌, ◌+◌, ◌≤◌, length, take, replicate};
ghost use Rattle.std.proofs.lemmas.List.Edits.{sets};
ghost use Rattle.store.specs.Store.{Inside, Short, Copyable, First, few, block, along};

use layout::{both, either};

// Puts one to three bytes from a place on: the first, the middle and the last.
#[inline(always)]
fn put_few(out: &mut [u8], at: usize, n: usize, first: u8, middle: u8, last: u8)
    requires { Short out.old at n 1 3 }
    ensures { out.new ≡ sets out.old at (few n first middle last) }
{
    out[at] = first;
    out[at + n / 2] = middle;
    out[at + n - 1] = last;
}

// Puts n free bytes from a place on: by one store where n is known at the call, else by a call of memset. Tried: by the slice's `fill` the last
// byte goes by a store of its own, behind two tests of n.
#[inline(always)]
pub fn set(out: &mut [u8], at: usize, n: usize, free: u8)
    requires { Inside out.old at n }
    ensures { out.new ≡ sets out.old at (replicate n free) }
{
    for byte in &mut out[at..at + n] {
        *byte = free;
    }
}

// Puts at most eight free bytes from a place on: often none, else a few, or the first four and the last four.
#[inline(always)]
pub fn fill_few(out: &mut [u8], at: usize, n: usize, free: u8)
    requires { Short out.old at n 0 8 }
    ensures { out.new ≡ sets out.old at (replicate n free) }
{
    if n == 0 {
        return;
    }
    if n < 4 {
        put_few(out, at, n, free, free, free);
        return;
    }
    set(out, at, 4, free);
    set(out, at + n - 4, 4, free);
}

// Puts n free bytes from a place on.
pub fn fill(out: &mut [u8], at: usize, n: usize, free: u8)
    requires { Inside out.old at n }
    ensures { out.new ≡ sets out.old at (replicate n free) }
{
    if n <= 8 {
        fill_few(out, at, n, free);
        return;
    }
    set(out, at, n, free);
}

// Copies n bytes of a part one by one: the library's `copy_from_slice` looks whether the two lie apart, and then the block of `copy` would not be left out.
#[inline(always)]
fn copy_each(out: &mut [u8], at: usize, part: &[u8], from: usize, n: usize)
    requires { Copyable out.old at part.now from n }
    ensures { out.new ≡ sets out.old at (block part.now from n) }
{
    for i in 0..n {
        out[at + i] = part[from + i];
    }
}

// Copies n bytes of a part by a block of its own. All bytes are read before one is written, and nothing else tells the compiler that what
// is read and what is written lie apart: it leaves the block out and moves the bytes at once, by a few moves where n is known at the call,
// else by a call of memmove. Tried: copied with no block, each call tests whether they do, and has loops of bytes for where they do not.
#[inline(always)]
fn copy(out: &mut [u8], at: usize, part: &[u8], from: usize, n: usize)
    requires { Copyable out.old at part.now from n }
    ensures { out.new ≡ sets out.old at (block part.now from n) }
{
    let mut block: [u8; 65536] = [0; 65536];
    copy_each(&mut block, 0, part, from, n);
    copy_each(out, at, &block, 0, n);
}

// Copies a packet of m to twice as many bytes: the first m and the last m, which may lie over the first.
#[inline(always)]
fn copy_ends(out: &mut [u8], at: usize, packet: &[u8], m: usize)
    requires short { Short out.old at (length packet.now) m (m + m) }
    requires m_bound { m ≤ 65536 }
    ensures { out.new ≡ sets out.old at packet.now }
{
    let last = packet.len() - m;
    copy(out, at, packet, 0, m);
    copy(out, at + last, packet, last, m);
}

// Copies a packet to a place. Of one that is said to be likely short it is written out how many bytes go at once, so that each end goes by a move.
#[inline(always)]
pub fn put_packet(short: bool, out: &mut [u8], at: usize, packet: &[u8])
    requires { Short out.old at (length packet.now) 0 65536 }
    ensures { out.new ≡ sets out.old at packet.now }
{
    let n = packet.len();
    if either(!short, 16 < n) {
        copy(out, at, packet, 0, n);
        return;
    }
    if n == 0 {
        return;
    }
    if n < 4 {
        put_few(out, at, n, packet[0], packet[n / 2], packet[n - 1]);
        return;
    }
    if n < 8 {
        copy_ends(out, at, packet, 4);
        return;
    }
    copy_ends(out, at, packet, 8);
}

// Copies a packet, the first n bytes of a part, to a place. Where more may go, one of at most 64 bytes goes by a block of 64, with what follows it in the
// part: so no branch hangs on how long it is, which none can foresee. Whoever lets more go writes what stands behind the packet afterwards.
#[inline(always)]
pub fn put_first(more: bool, short: bool, out: &mut [u8], at: usize, part: &[u8], n: usize)
    requires { First out.old at part.now n }
    ensures { out.new ≡ sets out.old at (take n part.now ++ along more n part.now) }
{
    if both(more, both(n <= 64, 64 <= part.len())) {
        copy(out, at, part, 0, 64);
        return;
    }
    put_packet(short, out, at, &part[0..n]);
}
