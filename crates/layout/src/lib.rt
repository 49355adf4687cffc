// Headers, and numbers in their fields, low byte first; alignment; and how tests are joined.
#![tactic(auto)]

ghost use Rattle.std.specs.Prelude.{◌≡◌, cond, ◌&&◌, ◌||◌, ◌<◌, min};
ghost use Rattle.std.proofs.lemmas.List.Edits.{sets};
ghost use Rattle.layout.specs.Field.{bytes};
ghost use Rattle.layout.specs.Leaf.{Within, Number};
ghost use Rattle.layout.specs.Multiple.{Roundable, Rounded};

// A header: its size, and the places and widths of LEN and CTR. The width is 0 where it has no such field.
#[derive(Clone, Copy, Debug, PartialEq, Eq)]
pub struct Shape {
    pub size: usize,
    pub lenat: usize,
    pub lenwidth: usize,
    pub ctrat: usize,
    pub ctrwidth: usize,
}

impl Shape {
    // The shape of a header that has no field.
    pub const NONE: Shape = Shape {
        size: 0,
        lenat: 0,
        lenwidth: 0,
        ctrat: 0,
        ctrwidth: 0,
    };
}

fn wide(x: u8) -> usize
    ensures { (result ≡ x) × (result < 256) }
{
    x as usize
}

// A number of 32 bits as a length or an index.
pub fn wide32(n: u32) -> usize
    ensures { (result ≡ n) × (result < 4294967296) }
{
    n as usize
}

// The number in a field of at most two bytes; 0 where it has none. One arm reads both bytes, so that they go as one.
pub fn field(t: &[u8], at: usize, width: usize) -> usize
    requires { Within t.now at width }
    ensures { Number t.now at width result }
{
    match width {
        1 => wide(t[at]),
        2 => wide(t[at]) + 256 * wide(t[at + 1]),
        _ => 0,
    }
}

// Puts a number into a field of at most two bytes; what does not fit is left out. One arm puts both bytes, as above.
pub fn put_field(out: &mut [u8], at: usize, width: usize, n: usize)
    requires { Within out.old at width }
    ensures { out.new ≡ sets out.old at (bytes width n) }
{
    match width {
        1 => {
            out[at] = (n % 256) as u8;
        }
        2 => {
            out[at] = (n % 256) as u8;
            out[at + 1] = (n / 256 % 256) as u8;
        }
        _ => {}
    }
}

// Tests joined by a call: a caller keeps what each test says, which `&&` and `||` lose where their branches meet.
pub fn both(a: bool, b: bool) -> bool
    ensures { result ≡ (a && b) }
{
    if a {
        return b;
    }
    false
}

pub fn all(a: bool, b: bool, c: bool) -> bool
    ensures { result ≡ (a && b && c) }
{
    if a {
        if b {
            return c;
        }
        return false;
    }
    false
}

pub fn either(a: bool, b: bool) -> bool
    ensures { result ≡ (a || b) }
{
    if a {
        return true;
    }
    b
}

// One of two numbers, by a test.
pub fn pick(first: bool, a: usize, b: usize) -> usize
    ensures { result ≡ cond first a b }
{
    if first {
        return a;
    }
    b
}

// The lesser of two numbers.
pub fn least(x: usize, y: usize) -> usize
    ensures { result ≡ min x y }
{
    if x < y {
        return x;
    }
    y
}

// The least multiple of the alignment that is not below x. Alignments are powers of two, so a mask takes the rest off: no division, no branch.
pub fn rounded(align: usize, x: usize) -> usize
    requires { Roundable align x }
    ensures { Rounded align x result }
{
    let up = align - 1;
    let y = x + up;
    y - (y & up)
}
