// The exports of the C interface, which include/plumagemud.h declares: each calls plumagemud's function of its name, and promises the same.
#![tactic(auto)]

ghost use Rattle.std.specs.Prelude.{◌≡◌, not, eqb};
ghost use Rattle.packet.specs.Kind.{kind_of};
ghost use Rattle.packet.specs.Part.{check_of};
ghost use Rattle.description.specs.Reading.{settings_of};
ghost use Rattle.flexray.specs.Reading.{read_of as flexray_read_of};
ghost use Rattle.flexray.specs.Writing.{write_of as flexray_write_of};
ghost use Rattle.udp.specs.Reading.{read_of as udp_read_of};
ghost use Rattle.udp.specs.Writing.{write_of as udp_write_of};
ghost use Rattle.usb.specs.Reading.{read_of as usb_read_of};
ghost use Rattle.usb.specs.Writing.{write_of as usb_write_of};
ghost use Rattle.plumagemud.specs.Result.{check_result, settings_result, Reads, Writes};

use flexray::Setting as FlexRay;
use packet::Counter;
use plumagemud::{CheckResult, ReadResult, SettingsResult, WriteResult};
use udp::Setting as Udp;
use usb::Setting as Usb;

#[unsafe(no_mangle)]
pub extern "C" fn xcp_usb_settings(text: &[u8], longest: u32) -> SettingsResult
    ensures { result ≡ settings_result (settings_of text.now longest) }
{
    plumagemud::xcp_usb_settings(text, longest)
}

#[unsafe(no_mangle)]
pub extern "C" fn xcp_usb_read(s: Usb, t: &[u8], c: Counter, rows: &mut [u32]) -> ReadResult
    ensures { Reads (usb_read_of s t.now c rows.old) c result rows.new }
{
    plumagemud::xcp_usb_read(s, t, c, rows)
}

#[unsafe(no_mangle)]
pub extern "C" fn xcp_flexray_read(s: FlexRay, t: &[u8], c: Counter, rows: &mut [u32]) -> ReadResult
    ensures { Reads (flexray_read_of s t.now c rows.old) c result rows.new }
{
    plumagemud::xcp_flexray_read(s, t, c, rows)
}

#[unsafe(no_mangle)]
pub extern "C" fn xcp_udp_read(s: Udp, t: &[u8], c: Counter, rows: &mut [u32]) -> ReadResult
    ensures { Reads (udp_read_of s t.now c rows.old) c result rows.new }
{
    plumagemud::xcp_udp_read(s, t, c, rows)
}

// Filled up where fillup is not 0.
#[unsafe(no_mangle)]
pub extern "C" fn xcp_usb_write(
    s: Usb,
    packets: &[u8],
    lengths: &[u32],
    first: u32,
    fill: u8,
    fillup: u32,
    out: &mut [u8],
) -> WriteResult
    ensures { Writes
        (usb_write_of s packets.now lengths.now first fill (not (eqb fillup 0)) out.old)
        first result out.new }
{
    plumagemud::xcp_usb_write(s, packets, lengths, first, fill, fillup, out)
}

#[unsafe(no_mangle)]
pub extern "C" fn xcp_flexray_write(
    s: FlexRay,
    packets: &[u8],
    lengths: &[u32],
    first: u32,
    fill: u8,
    out: &mut [u8],
) -> WriteResult
    ensures { Writes (flexray_write_of s packets.now lengths.now first fill out.old)
        first result out.new }
{
    plumagemud::xcp_flexray_write(s, packets, lengths, first, fill, out)
}

#[unsafe(no_mangle)]
pub extern "C" fn xcp_udp_write(
    s: Udp,
    packets: &[u8],
    lengths: &[u32],
    first: u32,
    out: &mut [u8],
) -> WriteResult
    ensures { Writes (udp_write_of s packets.now lengths.now first out.old)
        first result out.new }
{
    plumagemud::xcp_udp_write(s, packets, lengths, first, out)
}

#[unsafe(no_mangle)]
pub extern "C" fn xcp_part_check(input: &[u8], place: u32, length: u32) -> CheckResult
    ensures { result ≡ check_result (check_of input.now place length) }
{
    plumagemud::xcp_part_check(input, place, length)
}

#[unsafe(no_mangle)]
pub extern "C" fn xcp_kind(direction: u32, packet: &[u8]) -> u32
    ensures { result ≡ kind_of direction packet.now }
{
    plumagemud::xcp_kind(direction, packet)
}
