// The C interface: a static library with each call of `at6000` under its C name, and that call's own promise. Nothing else is here.
// Kept: C interface: each export says again what its call in `at6000` says, since C sees the names of this crate alone.
#![tactic(auto)]

ghost use Rattle.std.specs.Prelude.{◌≡◌};
ghost use Rattle.at6000.specs.InPlace.{StartIn, SliceIn, PickUpIn};
ghost use Rattle.chain.specs.Calls.{New, Reset};
ghost use Rattle.machine.specs.Calls.{Start, Slice, Byte, Drop};
ghost use Rattle.closing.specs.Calls.{Closing};
ghost use Rattle.saved.specs.Calls.{Save, PickUp};
ghost use Rattle.hunt.specs.Hunt.{Hunt};
ghost use Rattle.writer.specs.Write.{Write};
ghost use Rattle.lister.specs.Listing.{Lists};
ghost use Rattle.tidy.specs.Tidy.{Tidies};
ghost use Rattle.salvage.specs.Salvage.{Salvages};
ghost use Rattle.eprom.specs.Calls.{FetcherNew, Fetch};
ghost use Rattle.sheet.specs.Sheet.{LoadSheet};

use chain::{Chain, Made, Written};
use eprom::{Fetched, Fetcher};
use hunt::Hunted;
use lister::Listed;
use machine::{Answer, Fed};
use salvage::Salvaged;
use sheet::Sheet;

#[unsafe(no_mangle)]
pub extern "C" fn at6000_new(count: u8, kinds: &[u8; 8], mem: &[u8]) -> Made
    ensures { New count kinds.now mem.now result }
{
    at6000::at6000_new(count, kinds, mem)
}

#[unsafe(no_mangle)]
pub extern "C" fn at6000_reset(c: Chain, mem: &mut [u8]) -> Made
    ensures { Reset c mem.old result mem.new }
{
    at6000::at6000_reset(c, mem)
}

#[unsafe(no_mangle)]
pub extern "C" fn at6000_start(c: Chain, mem: &[u8], mode: u8, check: u8) -> Made
    ensures { Start c mem.now mode check result }
{
    at6000::at6000_start(c, mem, mode, check)
}

#[unsafe(no_mangle)]
pub extern "C" fn at6000_byte(c: Chain, mem: &mut [u8], b: u8) -> Fed
    ensures { Byte c mem.old b result mem.new }
{
    at6000::at6000_byte(c, mem, b)
}

#[unsafe(no_mangle)]
pub extern "C" fn at6000_slice(c: Chain, mem: &mut [u8], s: &[u8]) -> Fed
    ensures { Slice c mem.old s.now result mem.new }
{
    at6000::at6000_slice(c, mem, s)
}

#[unsafe(no_mangle)]
pub extern "C" fn at6000_drop(c: Chain, mem: &[u8]) -> Made
    ensures { Drop c mem.now result }
{
    at6000::at6000_drop(c, mem)
}

#[unsafe(no_mangle)]
pub extern "C" fn at6000_closing(c: Chain, mem: &[u8], out: &mut [u8]) -> Written
    ensures { Closing c mem.now out.old result out.new }
{
    at6000::at6000_closing(c, mem, out)
}

#[unsafe(no_mangle)]
pub extern "C" fn at6000_save(c: Chain, mem: &[u8], out: &mut [u8]) -> Written
    ensures { Save c mem.now out.old result out.new }
{
    at6000::at6000_save(c, mem, out)
}

#[unsafe(no_mangle)]
pub extern "C" fn at6000_pick_up(c: Chain, mem: &[u8], saved: &[u8]) -> Made
    ensures { PickUp c mem.now saved.now result }
{
    at6000::at6000_pick_up(c, mem, saved)
}

#[unsafe(no_mangle)]
pub extern "C" fn at6000_hunt(s: &[u8], out: &mut [u8]) -> Hunted
    ensures { Hunt s.now out.old result out.new }
{
    at6000::at6000_hunt(s, out)
}

#[unsafe(no_mangle)]
pub extern "C" fn at6000_write(
    kind: u8,
    mode: u8,
    control: u8,
    address: &[u8; 3],
    starts: &[u16],
    ends: &[u16],
    cells: &[u8],
    out: &mut [u8],
) -> Written
    ensures { Write kind mode control address.now starts.now ends.now cells.now out.old result out.new }
{
    at6000::at6000_write(kind, mode, control, address, starts, ends, cells, out)
}

#[unsafe(no_mangle)]
pub extern "C" fn at6000_list(
    kind: u8,
    mode: u8,
    s: &[u8],
    starts: &mut [u16],
    ends: &mut [u16],
    offsets: &mut [u32],
) -> Listed
    ensures { Lists kind mode s.now starts.old ends.old offsets.old result starts.new ends.new offsets.new }
{
    at6000::at6000_list(kind, mode, s, starts, ends, offsets)
}

#[unsafe(no_mangle)]
pub extern "C" fn at6000_tidy(kind: u8, s: &[u8], out: &mut [u8]) -> Written
    ensures { Tidies kind s.now out.old result out.new }
{
    at6000::at6000_tidy(kind, s, out)
}

#[unsafe(no_mangle)]
pub extern "C" fn at6000_salvage(kind: u8, s: &[u8], out: &mut [u8]) -> Salvaged
    ensures { Salvages kind s.now out.old result out.new }
{
    at6000::at6000_salvage(kind, s, out)
}

#[unsafe(no_mangle)]
pub extern "C" fn at6000_fetcher_new(mode: u8) -> Fetcher
    ensures { FetcherNew mode result }
{
    at6000::at6000_fetcher_new(mode)
}

#[unsafe(no_mangle)]
pub extern "C" fn at6000_fetch(
    c: Chain,
    f: Fetcher,
    mem: &mut [u8],
    eprom: &[u8],
    n: usize,
) -> Fetched
    ensures { Fetch c f mem.old eprom.now n result mem.new }
{
    at6000::at6000_fetch(c, f, mem, eprom, n)
}

#[unsafe(no_mangle)]
pub extern "C" fn at6000_load_sheet(
    kind: u8,
    mode: u8,
    streams: &[u8],
    lengths: &[u32],
    numbers: &mut [u8],
    figures: &mut [u32],
) -> Sheet
    ensures { LoadSheet kind mode streams.now lengths.now numbers.old figures.old result
        numbers.new figures.new }
{
    at6000::at6000_load_sheet(kind, mode, streams, lengths, numbers, figures)
}

// For a controller's main loop: the chain is updated where the caller keeps it.
#[unsafe(no_mangle)]
pub extern "C" fn at6000_start_in(c: &mut Chain, mem: &[u8], mode: u8, check: u8) -> u8
    ensures { StartIn c.old mem.now mode check c.new result }
{
    at6000::at6000_start_in(c, mem, mode, check)
}

#[unsafe(no_mangle)]
pub extern "C" fn at6000_slice_in(c: &mut Chain, mem: &mut [u8], s: &[u8]) -> Answer
    ensures { SliceIn c.old mem.old s.now c.new result mem.new }
{
    at6000::at6000_slice_in(c, mem, s)
}

#[unsafe(no_mangle)]
pub extern "C" fn at6000_pick_up_in(c: &mut Chain, mem: &[u8], saved: &[u8]) -> u8
    ensures { PickUpIn c.old mem.now saved.now c.new result }
{
    at6000::at6000_pick_up_in(c, mem, saved)
}
