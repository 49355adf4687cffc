// Standard input read to its end, and standard output written at once. The exit status is 0 in any case, so what cannot be read or written is told in a line
// on standard error.
#![tactic(auto)]

ghost use Rattle.std.specs.Prelude.{◌≡◌, length};
ghost use Rattle.standard.specs.Input.{input_of, Held};

use std::io;
use std::io::{Print, Read};

// What a read's answer says of the room that it was given: so many bytes at its front, or that the read failed.
fn answered(got: io::Result<usize>, room: &[u8]) -> io::Result<usize>
    ensures value { result ≡ input_of got (length room.now) }
    ensures held { Held result room.now }
{
    Ok(got?.min(room.len()))
}

// Reads once.
fn read_some(rt: &HostRuntime, room: &mut [u8]) -> io::Result<usize>
    ensures { Held result room.new }
{
    let got = rt.stdin().read(room);
    answered(got, room)
}

// Reads until the buffer is full or the input ends. A read of fewer bytes than have room is no end; only a read of none is.
pub fn read_input(rt: &HostRuntime, buffer: &mut [u8]) -> io::Result<usize>
    ensures { Held result buffer.new }
{
    let mut n: usize = 0;
    while n < buffer.len() {
        let k = read_some(rt, &mut buffer[n..])?;
        if k == 0 {
            break;
        }
        n += k;
    }
    Ok(n)
}

// Tells a line on standard error. Where that fails, nothing is left to tell it on.
pub fn tell(rt: &HostRuntime, line: &[u8]) {
    let _told = rt.stderr().write_all(line);
}

// Writes a text; a line tells where that fails.
pub fn write_output(rt: &HostRuntime, text: &[u8], failure: &[u8]) {
    if rt.stdout().write_all(text).is_err() {
        tell(rt, failure);
    }
}
