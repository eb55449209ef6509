// The closing bytes of a stopped run: they end it and change no cell and no register. They are written, not fed: once their
// length is known they go straight from the lent memory to the output.
#![tactic(auto)]

mod output;

ghost use Rattle.std.specs.Prelude.{◌≡◌, ◌++◌, ◌≤◌, length};
ghost use Rattle.closing.specs.Closing.{window, after_preamble, after_start, ends_below, after_end, closing_bytes};
ghost use Rattle.closing.specs.Calls.{Closing};
ghost use Rattle.closing.specs.Put.{Put, told};

use crate::output::{part, put, put_three};
use chain::eight::at8;
use chain::kinds::{base_of, size_here};
use chain::paper::*;
use chain::refusal::Refusal;
use chain::state::open;
use chain::window::{Window, with_low};
use chain::{Chain, Place, Written};

// The lead, then the present cells of the window, then the tail. Memory is lent anew: the compiler then passes the slice itself, not
// its address.
fn put_window(
    c: &Chain,
    mem: &[u8],
    lead: &[u8],
    w: Window,
    out: &mut [u8],
) -> Result<usize, Refusal>
    requires { length lead.now ≤ 1 }
    ensures { Put (lead.now ++ window c.now mem.now w.start w.end) out.old (told result) out.new }
{
    let ks = c.kinds;
    let at = base_of(ks, c.place.device) + usize::from(w.start);
    let cells = part(&mem[0..], at, w.width());
    if 1 < c.place.left {
        return put_three(out, lead, cells, &[0x00, 0xff, 0xff]);
    }
    put_three(out, lead, cells, &[POSTAMBLE])
}

// In a check 08 alone, refused with 7; in a write the rest of a stream without windows.
fn put_after_preamble(c: &Chain, out: &mut [u8]) -> Result<usize, Refusal>
    ensures { Put (after_preamble c.now) out.old (told result) out.new }
{
    if c.place.check == CHECKING {
        return put(out, &[0x08]);
    }
    let rs = c.registers;
    let stored = at8(rs, c.place.device);
    put(out, &[stored, 0x00, 0x00, 0x00, NO_WINDOWS, POSTAMBLE])
}

fn put_after_start(c: &Chain, out: &mut [u8]) -> Result<usize, Refusal>
    ensures { Put (after_start c.now) out.old (told result) out.new }
{
    if with_low(c.place.start, 0xff) < size_here(*c) {
        return put(out, &[0xff, 0xff, 0xff]);
    }
    put(out, &[0xff])
}

// Both have one high byte, and the start's low byte is not zero: 00 makes an end below start.
fn ends_below(p: Place) -> bool
    ensures { result ≡ ends_below p }
{
    (p.end / 256 == p.start / 256) & (p.start % 256 != 0)
}

fn put_after_end(c: &Chain, mem: &[u8], out: &mut [u8]) -> Result<usize, Refusal>
    ensures { Put (after_end c.now mem.now) out.old (told result) out.new }
{
    let p = c.place;
    if ends_below(p) {
        return put(out, &[0x00]);
    }
    let most = with_low(p.end, 0xff);
    if (most < p.start) | !(most < size_here(*c)) {
        return put(out, &[0xff]);
    }
    let w = Window {
        start: p.start,
        end: with_low(p.end, 0x00),
    };
    put_window(c, mem, &[0x00], w, out)
}

// The row of the awaited byte.
#[tactic(auto, unfolding(crate::specs::Closing::closing_bytes))]
fn put_row(c: &Chain, mem: &[u8], out: &mut [u8]) -> Result<usize, Refusal>
    ensures { Put (closing_bytes c.now mem.now) out.old (told result) out.new }
{
    let p = c.place;
    let a = p.awaited;
    // Kept: C interface: the awaited byte is a number of Place, and a caller in C may lend any.
    match a {
        AT_PREAMBLE | AT_SECOND => put(out, &[0x00]),
        AT_CONTROL => put_after_preamble(c, out),
        AT_ADDRESS => put(out, &[0x00, 0x00, 0x00, NO_WINDOWS, POSTAMBLE]),
        AT_ADDRESS2 => put(out, &[0x00, 0x00, NO_WINDOWS, POSTAMBLE]),
        AT_ADDRESS3 => put(out, &[0x00, NO_WINDOWS, POSTAMBLE]),
        AT_COUNT => put(out, &[NO_WINDOWS, POSTAMBLE]),
        AT_CHECK => put(out, &[POSTAMBLE]),
        AT_NULL => put(out, &[0x00, 0xff, 0xff]),
        AT_START | AT_END => put(out, &[0xff, 0xff]),
        AT_START_LOW => put_after_start(c, out),
        AT_END_LOW => put_after_end(c, mem, out),
        AT_DATA => {
            let to_come = Window {
                start: p.next,
                end: p.end,
            };
            put_window(c, mem, &[], to_come, out)
        }
        _ => Ok(0),
    }
}

// Writes the bytes that close the open run, which stays open: they are for the caller to send.
pub fn closing(c: Chain, mem: &[u8], out: &mut [u8]) -> Written
    ensures { Closing c mem.now out.old result out.new }
{
    put_closing(&c, mem, out).into()
}

// How many bytes close the open run.
fn put_closing(c: &Chain, mem: &[u8], out: &mut [u8]) -> Result<usize, Refusal>
    ensures { Closing c.now mem.now out.old (told result) out.new }
{
    open(*c, mem.len())?;
    put_row(c, mem, out)
}
