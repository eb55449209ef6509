// The calls as C has them: each under its C name, by value, with the call's own promise; and three calls that update the chain where the
// caller keeps it. Crate `at6000_c` exports them.
// Kept: C interface: names, numbers for modes, kinds and answers, tables beside one another, and a call in place beside its call by value, as
// include/at6000.h has them.
#![tactic(auto)]

ghost use Rattle.std.specs.Prelude.{◌≡◌};
ghost use Rattle.at6000.specs.InPlace.{StartIn, SliceIn, PickUpIn};
ghost use Rattle.chain.specs.Calls.{New, Reset};
ghost use Rattle.machine.specs.Calls.{Start, Slice, Byte, Drop};
ghost use Rattle.closing.specs.Calls.{Closing};
ghost use Rattle.saved.specs.Calls.{Save, PickUp};
ghost use Rattle.hunt.specs.Hunt.{Hunt};
ghost use Rattle.writer.specs.Write.{Write};
ghost use Rattle.lister.specs.Listing.{Lists};
ghost use Rattle.tidy.specs.Tidy.{Tidies};
ghost use Rattle.salvage.specs.Salvage.{Salvages};
ghost use Rattle.eprom.specs.Calls.{FetcherNew, Fetch};
ghost use Rattle.sheet.specs.Sheet.{LoadSheet};

use chain::{Chain, Made, Written};
use eprom::{Fetched, Fetcher};
use hunt::Hunted;
use lister::Listed;
use machine::{Answer, Fed};
use salvage::Salvaged;
use sheet::Sheet;

pub fn at6000_new(count: u8, kinds: &[u8; 8], mem: &[u8]) -> Made
    ensures { New count kinds.now mem.now result }
{
    chain::new(count, *kinds, mem)
}

pub fn at6000_reset(c: Chain, mem: &mut [u8]) -> Made
    ensures { Reset c mem.old result mem.new }
{
    chain::reset(c, mem)
}

pub fn at6000_start(c: Chain, mem: &[u8], mode: u8, check: u8) -> Made
    ensures { Start c mem.now mode check result }
{
    machine::start(c, mem, mode, check)
}

pub fn at6000_byte(c: Chain, mem: &mut [u8], b: u8) -> Fed
    ensures { Byte c mem.old b result mem.new }
{
    machine::byte(c, mem, b)
}

pub fn at6000_slice(c: Chain, mem: &mut [u8], s: &[u8]) -> Fed
    ensures { Slice c mem.old s.now result mem.new }
{
    machine::slice(c, mem, s)
}

pub fn at6000_drop(c: Chain, mem: &[u8]) -> Made
    ensures { Drop c mem.now result }
{
    machine::drop(c, mem)
}

pub fn at6000_closing(c: Chain, mem: &[u8], out: &mut [u8]) -> Written
    ensures { Closing c mem.now out.old result out.new }
{
    closing::closing(c, mem, out)
}

pub fn at6000_save(c: Chain, mem: &[u8], out: &mut [u8]) -> Written
    ensures { Save c mem.now out.old result out.new }
{
    saved::save(c, mem, out)
}

pub fn at6000_pick_up(c: Chain, mem: &[u8], saved: &[u8]) -> Made
    ensures { PickUp c mem.now saved.now result }
{
    saved::pick_up(c, mem, saved)
}

pub fn at6000_hunt(s: &[u8], out: &mut [u8]) -> Hunted
    ensures { Hunt s.now out.old result out.new }
{
    hunt::hunt(s, out)
}

pub fn at6000_write(
    kind: u8,
    mode: u8,
    control: u8,
    address: &[u8; 3],
    starts: &[u16],
    ends: &[u16],
    cells: &[u8],
    out: &mut [u8],
) -> Written
    ensures { Write kind mode control address.now starts.now ends.now cells.now out.old result out.new }
{
    writer::write(kind, mode, control, *address, starts, ends, cells, out)
}

pub fn at6000_list(
    kind: u8,
    mode: u8,
    s: &[u8],
    starts: &mut [u16],
    ends: &mut [u16],
    offsets: &mut [u32],
) -> Listed
    ensures { Lists kind mode s.now starts.old ends.old offsets.old result starts.new ends.new offsets.new }
{
    lister::list(kind, mode, s, starts, ends, offsets)
}

pub fn at6000_tidy(kind: u8, s: &[u8], out: &mut [u8]) -> Written
    ensures { Tidies kind s.now out.old result out.new }
{
    tidy::tidy(kind, s, out)
}

pub fn at6000_salvage(kind: u8, s: &[u8], out: &mut [u8]) -> Salvaged
    ensures { Salvages kind s.now out.old result out.new }
{
    salvage::salvage(kind, s, out)
}

pub fn at6000_fetcher_new(mode: u8) -> Fetcher
    ensures { FetcherNew mode result }
{
    eprom::fetcher_new(mode)
}

pub fn at6000_fetch(c: Chain, f: Fetcher, mem: &mut [u8], eprom: &[u8], n: usize) -> Fetched
    ensures { Fetch c f mem.old eprom.now n result mem.new }
{
    eprom::fetch(c, f, mem, eprom, n)
}

pub fn at6000_load_sheet(
    kind: u8,
    mode: u8,
    streams: &[u8],
    lengths: &[u32],
    numbers: &mut [u8],
    figures: &mut [u32],
) -> Sheet
    ensures { LoadSheet kind mode streams.now lengths.now numbers.old figures.old result
        numbers.new figures.new }
{
    sheet::load_sheet(kind, mode, streams, lengths, numbers, figures)
}

// For a controller's main loop. Each in-place call is its call by value, with the chain stored back and the answer handed on.
pub fn at6000_start_in(c: &mut Chain, mem: &[u8], mode: u8, check: u8) -> u8
    ensures { StartIn c.old mem.now mode check c.new result }
{
    let Made { chain, number } = machine::start(*c, mem, mode, check);
    *c = chain;
    number
}

pub fn at6000_slice_in(c: &mut Chain, mem: &mut [u8], s: &[u8]) -> Answer
    ensures { SliceIn c.old mem.old s.now c.new result mem.new }
{
    let Fed { chain, answer } = machine::slice(*c, mem, s);
    *c = chain;
    answer
}

pub fn at6000_pick_up_in(c: &mut Chain, mem: &[u8], saved: &[u8]) -> u8
    ensures { PickUpIn c.old mem.now saved.now c.new result }
{
    let Made { chain, number } = saved::pick_up(*c, mem, saved);
    *c = chain;
    number
}
