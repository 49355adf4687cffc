// Runs the examples of document 01, and some of our own for datagrams, and prints what is answered; the file `stdout` holds what that
// document and Ask 3 say.
#![tactic(auto)]

use packet::{Counter, Refusal, Rows, Written};
use std::io::{Print, Result};
use std::result;
use usb::Setting;

fn numbers(rt: &HostRuntime, ns: &[u32]) -> Result<()> {
    for n in ns {
        print!(rt; " {n}")?;
    }
    Ok(())
}

fn refused(rt: &HostRuntime, refusal: Refusal) -> Result<()> {
    println!(rt; " refused {} {}", u32::from(refusal.reason), refusal.place)
}

// Prints what a reading answers that is given a table.
fn reads<F: FnOnce(&mut [u32]) -> result::Result<Rows, Refusal>>(
    rt: &HostRuntime,
    text: &str,
    read: F,
) -> Result<()>
    requires { F.IsAlwaysCallable read }
{
    let mut rows = [0u32; 20];
    print!(rt; "{text}")?;
    match read(&mut rows) {
        Ok(answer) => {
            print!(rt; " rows {}:", answer.count)?;
            numbers(rt, rows.get(..answer.count as usize * 5).unwrap_or(&[]))?;
            println!(rt)
        }
        Err(refusal) => refused(rt, refusal),
    }
}

// Prints what a writing answers that is given an output.
fn writes<F: FnOnce(&mut [u8]) -> result::Result<Written, Refusal>>(
    rt: &HostRuntime,
    text: &str,
    write: F,
) -> Result<()>
    requires { F.IsAlwaysCallable write }
{
    let mut out = [0u8; 32];
    print!(rt; "{text}")?;
    match write(&mut out) {
        Ok(answer) => {
            for b in packet::part(&out, 0, answer.bytes) {
                print!(rt; " {b:02x}")?;
            }
            println!(rt; " next {}", answer.next)
        }
        Err(refusal) => refused(rt, refusal),
    }
}

// U1 in a packing of choice.
fn u1(packing: u32) -> Setting {
    Setting {
        header: 1,
        packing,
        align: 4,
        datapacket: 16,
        longest: 64,
        direction: 0,
    }
}

fn u2() -> Setting {
    Setting {
        header: 5,
        packing: 2,
        align: 1,
        datapacket: 8,
        longest: 100,
        direction: 0,
    }
}

fn usb_reads(rt: &HostRuntime, text: &str, s: Setting, t: &[u8], c: Counter) -> Result<()> {
    reads(rt, text, |rows| usb_reader::read(s, t, c, rows))
}

fn usb_writes(
    rt: &HostRuntime,
    text: &str,
    s: Setting,
    packets: &[u8],
    lengths: &[u32],
    first: u32,
    fill: u8,
    full: bool,
) -> Result<()> {
    writes(rt, text, |out| {
        usb_writer::write(s, packets, lengths, first, fill, full, out)
    })
}

fn expecting(expected: u32) -> Counter {
    Counter { known: 1, expected }
}

fn usb_writer_examples(rt: &HostRuntime) -> Result<()> {
    let two = [0xFFu8, 0x01, 0x02, 0x03];
    let one_three = [1u32, 3];
    usb_writes(
        rt,
        "U1 writes [FF], [01 02 03]:",
        u1(1),
        &two,
        &one_three,
        254,
        0xEE,
        false,
    )?;
    usb_writes(
        rt,
        "U1 filled up:",
        u1(1),
        &two,
        &one_three,
        254,
        0xEE,
        true,
    )?;
    usb_writes(
        rt,
        "U2 writes [10], [20]:",
        u2(),
        &[0x10, 0x20],
        &[1, 1],
        0,
        0xAA,
        false,
    )?;
    usb_writes(
        rt,
        "U2 writes [10 11 12 13 14], [20]:",
        u2(),
        &[0x10, 0x11, 0x12, 0x13, 0x14, 0x20],
        &[5, 1],
        0,
        0xAA,
        false,
    )
}

fn usb_counter_examples(rt: &HostRuntime) -> Result<()> {
    let twelve = b"\x01\xFE\xFF\xEE\x03\xFF\x01\x02\x03\xEE\xEE\xEE";
    usb_reads(
        rt,
        "U1 reads the 12 bytes, fresh:",
        u1(1),
        twelve,
        Counter::fresh(),
    )?;
    usb_reads(rt, "250 expected:", u1(1), twelve, expecting(250))?;
    usb_reads(
        rt,
        "255 expected, 0 received:",
        u1(1),
        &[0x01, 0x00, 0xFF, 0xEE],
        expecting(255),
    )?;
    usb_reads(
        rt,
        "0 expected, 255 received:",
        u1(1),
        &[0x01, 0xFF, 0xFF, 0xEE],
        expecting(0),
    )
}

fn usb_reader_examples(rt: &HostRuntime) -> Result<()> {
    let zero = [0x00u8, 0x07, 0x09, 0x09];
    usb_reads(rt, "U1 reads 00 07 09 09:", u1(1), &zero, Counter::fresh())?;
    usb_reads(rt, "single:", u1(0), &zero, Counter::fresh())?;
    usb_reads(rt, "empty, single:", u1(0), &[], Counter::fresh())?;
    usb_reads(rt, "empty, multiple:", u1(1), &[], Counter::fresh())?;
    usb_reads(rt, "empty, streaming:", u1(2), &[], Counter::fresh())
}

fn usb_refusal_examples(rt: &HostRuntime) -> Result<()> {
    usb_reads(
        rt,
        "U1 reads 01 00 FF:",
        u1(1),
        &[0x01, 0x00, 0xFF],
        Counter::fresh(),
    )?;
    usb_reads(rt, "41 00:", u1(1), &[0x41, 0x00], Counter::fresh())?;
    usb_reads(rt, "40 00:", u1(1), &[0x40, 0x00], Counter::fresh())?;
    usb_reads(
        rt,
        "U2 reads 05 00 AA AA 10 11 12 13:",
        u2(),
        &[0x05, 0x00, 0xAA, 0xAA, 0x10, 0x11, 0x12, 0x13],
        Counter::fresh(),
    )
}

// R with a header and an alignment of choice.
fn r(header: u32, align: u32) -> flexray::Setting {
    flexray::Setting {
        node: 7,
        direction: 0,
        ceiling: 32,
        header,
        align,
    }
}

fn flexray_reads(rt: &HostRuntime, text: &str, s: flexray::Setting, t: &[u8]) -> Result<()> {
    reads(rt, text, |rows| {
        flexray_reader::read(s, t, Counter::fresh(), rows)
    })
}

fn flexray_writes(
    rt: &HostRuntime,
    text: &str,
    s: flexray::Setting,
    packets: &[u8],
    lengths: &[u32],
) -> Result<()> {
    writes(rt, text, |out| {
        flexray_writer::write(s, packets, lengths, 0, 0xEE, out)
    })
}

fn flexray_examples(rt: &HostRuntime) -> Result<()> {
    flexray_writes(rt, "R writes [FF]:", r(5, 2), &[0xFF], &[1])?;
    flexray_writes(
        rt,
        "R writes [01 02], [FF]:",
        r(5, 2),
        &[0x01, 0x02, 0xFF],
        &[2, 1],
    )?;
    flexray_reads(
        rt,
        "R reads 07 01 FF EE:",
        r(5, 2),
        &[0x07, 0x01, 0xFF, 0xEE],
    )?;
    flexray_writes(rt, "header 0 writes [FF 00]:", r(0, 1), &[0xFF, 0x00], &[2])?;
    flexray_reads(rt, "header 0 reads it:", r(0, 1), &[0x07, 0xFF, 0x00, 0xEE])
}

// D: datagrams with packets of at most 64 bytes.
fn d() -> udp::Setting {
    udp::Setting {
        longest: 64,
        direction: 0,
    }
}

fn udp_reads(rt: &HostRuntime, text: &str, t: &[u8]) -> Result<()> {
    reads(rt, text, |rows| {
        udp_reader::read(d(), t, Counter::fresh(), rows)
    })
}

fn udp_writes(
    rt: &HostRuntime,
    text: &str,
    packets: &[u8],
    lengths: &[u32],
    first: u32,
) -> Result<()> {
    writes(rt, text, |out| {
        udp_writer::write(d(), packets, lengths, first, out)
    })
}

fn udp_examples(rt: &HostRuntime) -> Result<()> {
    let two = b"\x01\x00\xFF\xFF\xFF\x03\x00\x00\x00\x01\x02\x03";
    udp_writes(
        rt,
        "D writes [FF], [01 02 03]:",
        &[0xFF, 0x01, 0x02, 0x03],
        &[1, 3],
        65535,
    )?;
    udp_reads(rt, "D reads the 12 bytes, fresh:", two)?;
    udp_writes(rt, "D writes no packets:", &[], &[], 7)?;
    udp_reads(rt, "D reads no bytes:", &[])
}

fn udp_refusal_examples(rt: &HostRuntime) -> Result<()> {
    udp_reads(
        rt,
        "LEN zero behind a message:",
        &[0x01, 0x00, 0x07, 0x00, 0xFF, 0x00, 0x00, 0x08, 0x00],
    )?;
    udp_reads(
        rt,
        "three bytes left over:",
        &[0x01, 0x00, 0x07, 0x00, 0xFF, 0x01, 0x00, 0x08],
    )?;
    udp_reads(rt, "LEN over X:", &[0x41, 0x00, 0x07, 0x00])?;
    udp_reads(rt, "a packet cut:", &[0x02, 0x00, 0x07, 0x00, 0xFF])
}

fn main(rt: HostRuntime) -> Result<()> {
    usb_writer_examples(&rt)?;
    usb_counter_examples(&rt)?;
    usb_reader_examples(&rt)?;
    usb_refusal_examples(&rt)?;
    flexray_examples(&rt)?;
    udp_examples(&rt)?;
    udp_refusal_examples(&rt)
}
