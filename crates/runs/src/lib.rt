// Runs of bytes in a text, passed eight or four at a time. The last bytes of a run, too few for that, are the caller's.
#![tactic(auto)]

ghost use Rattle.std.specs.Prelude.{◌≡◌, ◌<◌, ◌≤◌, ◌+◌, ℕ, length, slice_index, false, IsFalse, IsTrue, SomeIndex, true};
ghost use Rattle.runs.specs.Runs.{under, equal, other, Passed, Run};

// Whether some of these bytes passes the test. Each is tested, whatever the others say, so that they can be tested as one.
fn some<const N: usize, F: Fn(u8) -> bool>(bytes: &[u8; N], test: F) -> bool
    requires { F.IsAlwaysCallable test }
    ensures none { IsFalse result → (i : ℕ) → i < N → F.post test (slice_index bytes.now i) false }
    ensures one { IsTrue result → SomeIndex bytes.now (λ i. F.post test (slice_index bytes.now i) true) }
{
    let mut found = false;
    for b in bytes {
        found |= test(*b);
    }
    found
}

// Passes N bytes at a time, of which none passes the test.
fn passed<const N: usize, F: Fn(u8) -> bool>(t: &[u8], q: usize, test: F) -> usize
    requires callable { F.IsAlwaysCallable test }
    requires size { (0 < N) × (N ≤ 8) }
    requires inside { q ≤ length t.now }
    ensures { Passed (λ b. F.post test b false) t.now q result }
{
    let mut k = q;
    while let Some(bytes) = t[k..].first_chunk::<N>() {
        if some(bytes, &test) {
            break;
        }
        k += N;
    }
    k
}

// Passes eights that have no byte below n, and then four such bytes.
pub fn over(t: &[u8], q: usize, n: u8) -> usize
    requires { q ≤ length t.now }
    ensures { Run (under n) t.now q result }
{
    let low = |b: u8| b < n;
    let k = passed::<8, _>(t, q, low);
    match t[k..].first_chunk::<4>() {
        Some(bytes) if !some(bytes, low) => k + 4,
        _ => k,
    }
}

// Passes eights that have no byte b.
pub fn without(t: &[u8], q: usize, b: u8) -> usize
    requires { q ≤ length t.now }
    ensures { Run (equal b) t.now q result }
{
    passed::<8, _>(t, q, |x| x == b)
}

// Passes fours of the byte b: a run of blanks is short.
pub fn along(t: &[u8], q: usize, b: u8) -> usize
    requires { q ≤ length t.now }
    ensures { Run (other b) t.now q result }
{
    passed::<4, _>(t, q, |x| x != b)
}
