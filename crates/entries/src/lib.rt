// An entry that opens a block: an endpoint, or a block that is read over.
#![tactic(auto)]

ghost use Rattle.std.specs.Prelude.{◌≡◌, true, []};
ghost use Rattle.std.proofs.Math.Seq.{slice};
ghost use Rattle.keywords.specs.Tables.{plain, name as name_of};
ghost use Rattle.description.specs.Reading.{State, has, put};
ghost use Rattle.passing.specs.Passing.{Passable};
ghost use Rattle.entries.specs.Entering.{maybe, meant, Sided, Parsed, Entering, Enterable, Enters};

use description::Endpoint;
use expecting::{PARAMETERS, read_series};
use keywords::Side;
use passing::{Names, next_name, pass_over};
use words::{Word, Wrong, same};

// What was found so far: the header, and endpoints.
#[derive(Clone, Copy, Debug, PartialEq, Eq)]
pub struct Gathered {
    pub header: u32,
    pub cmd: Option<Endpoint>,
    pub res: Option<Endpoint>,
}

impl Gathered {
    fn found(self, side: Side) -> Option<Endpoint>
        ensures { maybe result ≡ has side (meant self) }
    {
        match side {
            Side::Cmd => self.cmd,
            Side::Res => self.res,
        }
    }

    fn with(self, side: Side, e: Endpoint) -> Gathered
        ensures { meant result ≡ put side e (meant self) }
    {
        match side {
            Side::Cmd => Gathered {
                cmd: Some(e),
                ..self
            },
            Side::Res => Gathered {
                res: Some(e),
                ..self
            },
        }
    }
}

// The endpoint whose block has this name.
fn side_of(name: &[u8]) -> Option<Side>
    requires { plain name.now ≡ true }
    ensures { Sided name.now result }
{
    if same(name, b"OUT_EP_CMD_STIM") {
        return Some(Side::Cmd);
    }
    if same(name, b"IN_EP_RESERR_DAQ_EVSERV") {
        return Some(Side::Res);
    }
    None
}

// The endpoint of a block with this name, and the place behind the block.
fn endpoint(t: &[u8], name: Word, names: &mut Names) -> Result<(Endpoint, usize), Wrong>
    requires { Passable t.now name name.to }
    ensures { Parsed t.now name result }
{
    let (values, k) = read_series(&PARAMETERS, t, name.to)?;
    let behind = pass_over(t, name, k, names)?;
    let e = Endpoint {
        datapacket: values[2],
        packing: values[4],
        align: values[5],
    };
    Ok((e, behind))
}

// An endpoint, which was not found before: what is found with it, and the place behind its block.
fn enter_endpoint(
    side: Side,
    t: &[u8],
    name: Word,
    g: Gathered,
    names: &mut Names,
) -> Result<(Gathered, usize), Wrong>
    requires { Passable t.now name name.to × (slice name.from name.to t.now ≡ name_of side) }
    ensures { Entering t.now name g result }
{
    if g.found(side).is_some() {
        return Err(Wrong { place: name.from });
    }
    let (e, behind) = endpoint(t, name, names)?;
    Ok((g.with(side, e), behind))
}

// The block of a name behind /begin: an endpoint's, or one that is read over.
fn enter(t: &[u8], name: Word, g: Gathered, names: &mut Names) -> Result<(Gathered, usize), Wrong>
    requires { Passable t.now name name.to × (plain (slice name.from name.to t.now) ≡ true) }
    ensures { Entering t.now name g result }
{
    match side_of(name.bytes(t)) {
        Some(side) => enter_endpoint(side, t, name, g, names),
        None => {
            let behind = pass_over(t, name, name.to, names)?;
            Ok((g, behind))
        }
    }
}

// The block that opens with the /begin before place q: what is found behind it, and the place there.
pub fn read_entry(
    t: &[u8],
    q: usize,
    g: Gathered,
    names: &mut Names,
) -> Result<(Gathered, usize), Wrong>
    requires { Enterable t.now q }
    ensures { Enters t.now (State.begun (meant g) []) q result }
{
    let name = next_name(t, q)?;
    enter(t, name, g, names)
}
