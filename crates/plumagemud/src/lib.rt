// What C calls: include/plumagemud.h declares these functions and structs, and the static library plumagemud_c exports them. Wrappers only.
#![tactic(auto)]

ghost use Rattle.std.specs.Prelude.{◌≡◌, not, eqb};
ghost use Rattle.packet.specs.Kind.{kind_of};
ghost use Rattle.packet.specs.Part.{check_of};
ghost use Rattle.packet.specs.Said.{read_said, write_said};
ghost use Rattle.description.specs.Reading.{settings_of};
ghost use Rattle.flexray.specs.Reading.{read_of as flexray_read_of};
ghost use Rattle.flexray.specs.Writing.{write_of as flexray_write_of};
ghost use Rattle.udp.specs.Reading.{read_of as udp_read_of};
ghost use Rattle.udp.specs.Writing.{write_of as udp_write_of};
ghost use Rattle.usb.specs.Reading.{read_of as usb_read_of};
ghost use Rattle.usb.specs.Writing.{write_of as usb_write_of};
ghost use Rattle.plumagemud.specs.Result.{read_result, write_result, check_result, zero_setting, settings_result, Reads, Writes};

use flexray::Setting as FlexRay;
use packet::{Counter, Refusal, Rows, Written};
use udp::Setting as Udp;
use usb::Setting as Usb;

// Number 0: value is the row count. Any other number: a refusal, value is its place, and counter is as it was given.
#[repr(C)]
#[derive(Clone, Copy, Debug, PartialEq, Eq)]
pub struct ReadResult {
    pub number: u32,
    pub value: u32,
    pub counter: Counter,
}

// Number 0: value is the bytes written and counter the next one. Any other number: value is the place, and counter is as it was given.
#[repr(C)]
#[derive(Clone, Copy, Debug, PartialEq, Eq)]
pub struct WriteResult {
    pub number: u32,
    pub value: u32,
    pub counter: u32,
}

// Number 0: the part is inside.
#[repr(C)]
#[derive(Clone, Copy, Debug, PartialEq, Eq)]
pub struct CheckResult {
    pub number: u32,
    pub place: u32,
}

// Number 0: both settings. Any other number: a refusal, place is its place, and the twelve numbers are 0.
#[repr(C)]
#[derive(Clone, Copy, Debug, PartialEq, Eq)]
pub struct SettingsResult {
    pub number: u32,
    pub place: u32,
    pub cmdstim: Usb,
    pub resdaq: Usb,
}

fn told_read(c: Counter, r: Result<Rows, Refusal>) -> ReadResult
    ensures { result ≡ read_result c (read_said r) }
{
    match r {
        Ok(rows) => ReadResult {
            number: 0,
            value: rows.count,
            counter: rows.state,
        },
        Err(unread) => ReadResult {
            number: u32::from(unread.reason),
            value: unread.place,
            counter: c,
        },
    }
}

fn told_write(first: u32, r: Result<Written, Refusal>) -> WriteResult
    ensures { result ≡ write_result first (write_said r) }
{
    match r {
        Ok(written) => WriteResult {
            number: 0,
            value: written.bytes,
            counter: written.next,
        },
        Err(unwritten) => WriteResult {
            number: u32::from(unwritten.reason),
            value: unwritten.place,
            counter: first,
        },
    }
}

fn no_setting() -> Usb
    ensures { result ≡ zero_setting }
{
    Usb {
        header: 0,
        packing: 0,
        align: 0,
        datapacket: 0,
        longest: 0,
        direction: 0,
    }
}

pub fn xcp_usb_settings(text: &[u8], longest: u32) -> SettingsResult
    ensures { result ≡ settings_result (settings_of text.now longest) }
{
    match settings::settings(text, longest) {
        Ok(both) => SettingsResult {
            number: 0,
            place: 0,
            cmdstim: both.cmdstim,
            resdaq: both.resdaq,
        },
        Err(undescribed) => {
            let none = no_setting();
            SettingsResult {
                number: u32::from(undescribed.reason),
                place: undescribed.place,
                cmdstim: none,
                resdaq: none,
            }
        }
    }
}

pub fn xcp_usb_read(s: Usb, t: &[u8], c: Counter, rows: &mut [u32]) -> ReadResult
    ensures { Reads (usb_read_of s t.now c rows.old) c result rows.new }
{
    told_read(c, usb_reader::read(s, t, c, rows))
}

pub fn xcp_flexray_read(s: FlexRay, t: &[u8], c: Counter, rows: &mut [u32]) -> ReadResult
    ensures { Reads (flexray_read_of s t.now c rows.old) c result rows.new }
{
    told_read(c, flexray_reader::read(s, t, c, rows))
}

pub fn xcp_udp_read(s: Udp, t: &[u8], c: Counter, rows: &mut [u32]) -> ReadResult
    ensures { Reads (udp_read_of s t.now c rows.old) c result rows.new }
{
    told_read(c, udp_reader::read(s, t, c, rows))
}

// Filled up where fillup is not 0.
pub fn xcp_usb_write(
    s: Usb,
    packets: &[u8],
    lengths: &[u32],
    first: u32,
    fill: u8,
    fillup: u32,
    out: &mut [u8],
) -> WriteResult
    ensures { Writes
        (usb_write_of s packets.now lengths.now first fill (not (eqb fillup 0)) out.old)
        first result out.new }
{
    let r = usb_writer::write(s, packets, lengths, first, fill, fillup != 0, out);
    told_write(first, r)
}

pub fn xcp_flexray_write(
    s: FlexRay,
    packets: &[u8],
    lengths: &[u32],
    first: u32,
    fill: u8,
    out: &mut [u8],
) -> WriteResult
    ensures { Writes (flexray_write_of s packets.now lengths.now first fill out.old)
        first result out.new }
{
    let r = flexray_writer::write(s, packets, lengths, first, fill, out);
    told_write(first, r)
}

pub fn xcp_udp_write(
    s: Udp,
    packets: &[u8],
    lengths: &[u32],
    first: u32,
    out: &mut [u8],
) -> WriteResult
    ensures { Writes (udp_write_of s packets.now lengths.now first out.old)
        first result out.new }
{
    let r = udp_writer::write(s, packets, lengths, first, out);
    told_write(first, r)
}

pub fn xcp_part_check(input: &[u8], place: u32, length: u32) -> CheckResult
    ensures { result ≡ check_result (check_of input.now place length) }
{
    match packet::part_check(input, place, length) {
        Ok(()) => CheckResult {
            number: 0,
            place: 0,
        },
        Err(refusal) => CheckResult {
            number: u32::from(refusal.reason),
            place: refusal.place,
        },
    }
}

pub fn xcp_kind(direction: u32, packet: &[u8]) -> u32
    ensures { result ≡ kind_of direction packet.now }
{
    packet::kind(direction, packet).map_or(0, u32::from)
}
