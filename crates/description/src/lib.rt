// The XCP_ON_USB block of a description file: what it says, and what is answered to a text.
#![tactic(auto)]

ghost use Rattle.std.specs.Prelude.{◌≡◌};
ghost use Rattle.description.specs.Standing.{setting as setting_of};

use usb::Setting;

// What an endpoint block says: data packet size M, packing, alignment in bytes.
#[derive(Clone, Copy, Debug, PartialEq, Eq)]
pub struct Endpoint {
    pub datapacket: u32,
    pub packing: u32,
    pub align: u32,
}

impl Endpoint {
    // Its setting, with the header of its block, the longest packet and the direction.
    pub fn setting(self, header: u32, longest: u32, direction: u32) -> Setting
        ensures { result ≡ setting_of header longest direction self }
    {
        Setting {
            header,
            packing: self.packing,
            align: self.align,
            datapacket: self.datapacket,
            longest,
            direction,
        }
    }
}

// What the block says: its header, and the endpoints of CMD and STIM and of RES, ERR, DAQ, EV and SERV.
#[derive(Clone, Copy, Debug, PartialEq, Eq)]
pub struct Said {
    pub header: u32,
    pub cmd: Endpoint,
    pub res: Endpoint,
}

// The settings of the CMD/STIM and of the RES/DAQ endpoint.
#[derive(Clone, Copy, Debug, PartialEq, Eq)]
pub struct Both {
    pub cmdstim: Setting,
    pub resdaq: Setting,
}
