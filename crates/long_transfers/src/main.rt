// Writes 4,096 packets as a transfer of 262,144 bytes, the longest there is, in each packing, and reads it back. Prints a line for each: packing;
// bytes and next counter, or a refusal's number and place; row count, or the same; the last row; and 1 if the rows' parts are the packets.
// A transfer that is longer by one byte is refused.
#![tactic(auto)]

use packet::{Counter, Refusal, Rows, part};
use std::io::{Print, Result};
use std::result;
use usb::Setting;
use usb_reader::read;
use usb_writer::write;

fn refused(rt: &HostRuntime, refusal: Refusal) -> Result<()> {
    println!(rt; "{} {}", u32::from(refusal.reason), refusal.place)
}

// Whether the packets of the rows are these, of 60 bytes each.
fn kept(t: &[u8], rows: &[u32], packets: &[u8]) -> bool {
    rows.chunks_exact(5).zip(packets.chunks_exact(60)).all(|(row, packet)| match row {
        [place, length, ..] => part(t, *place, *length) == packet,
        _ => false,
    })
}

// What was read of a transfer: its row count, its last row, and whether the packets were kept; or its refusal.
fn show_read(
    rt: &HostRuntime,
    answer: result::Result<Rows, Refusal>,
    t: &[u8],
    rows: &[u32],
    packets: &[u8],
) -> Result<()> {
    match answer {
        Ok(read) => {
            print!(rt; "{} ", read.count)?;
            for n in rows.get(20475..20480).unwrap_or(&[]) {
                print!(rt; "{n} ")?;
            }
            println!(rt; "{}", kept(t, rows, packets) as u32)
        }
        Err(refusal) => refused(rt, refusal),
    }
}

// Writes the packets and reads them back.
fn run(
    rt: &HostRuntime,
    packing: u32,
    datapacket: u32,
    packets: &[u8],
    lengths: &[u32],
    out: &mut [u8],
    rows: &mut [u32],
) -> Result<()> {
    let s = Setting {
        header: 4,
        packing,
        align: 4,
        datapacket,
        longest: 60,
        direction: 0,
    };
    print!(rt; "{packing} ")?;
    match write(s, packets, lengths, 61440, 0xEE, false, out) {
        Ok(written) => {
            print!(rt; "{} {} ", written.bytes, written.next)?;
            let t = part(out, 0, written.bytes);
            let answer = read(s, t, Counter::fresh(), rows);
            show_read(rt, answer, t, rows, packets)
        }
        Err(refusal) => refused(rt, refusal),
    }
}

// A transfer of one byte more.
fn run_longer(rt: &HostRuntime, packets: &[u8], out: &[u8], rows: &mut [u32]) -> Result<()> {
    let s = Setting {
        header: 4,
        packing: 2,
        align: 4,
        datapacket: 72,
        longest: 60,
        direction: 0,
    };
    let answer = read(s, out, Counter::fresh(), rows);
    show_read(rt, answer, out, rows, packets)
}

fn main(rt: HostRuntime) -> Result<()> {
    let mut packets = [0u8; 245760];
    let lengths = [60u32; 4096];
    let mut out = [0u8; 262145];
    let mut rows = [0u32; 20480];
    // None is like its neighbours.
    for (i, b) in packets.iter_mut().enumerate() {
        *b = (i % 251) as u8;
    }
    run(&rt, 0, 64, &packets, &lengths, &mut out, &mut rows)?;
    run(&rt, 1, 128, &packets, &lengths, &mut out, &mut rows)?;
    run(&rt, 2, 72, &packets, &lengths, &mut out, &mut rows)?;
    run_longer(&rt, &packets, &out, &mut rows)
}
