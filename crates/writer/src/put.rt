// Each part of the stream is lent the tail of the output, writes its front and answers its length.
ghost use Rattle.std.specs.Prelude.{◌≡◌, ◌+◌, ◌*◌, ◌≤◌, length};
ghost use Rattle.writer.specs.Stream.{lead_in, head_bytes, window_bytes, windows_bytes, stream_of};
ghost use Rattle.chain.specs.Mode.{mode_number};
ghost use Rattle.chain.specs.Output.{over};
ghost use Rattle.writer.specs.Write.{most_windows, sum_of};

use crate::blocks::copy_blocks;
use crate::tables::Tables;
use cells::copy;
use chain::mode::Mode;
use chain::paper::*;
use chain::window::Window;

// What comes before the control byte: a preamble, after a null byte in the serial modes, and two of them in mode 6.
#[tactic(auto, unfolding(crate::specs::Stream::lead_in))]
pub(crate) fn lead_in(mode: Mode) -> &'static [u8]
    ensures value { result.now ≡ lead_in (mode_number mode) }
    ensures short { length result.now ≤ 2 }
{
    match mode {
        Mode::SerialExternal | Mode::SerialInternal => &[0x00, PREAMBLE],
        Mode::TwoPreambles => &[PREAMBLE, PREAMBLE],
        Mode::Upward | Mode::Downward | Mode::EpromInternal => &[PREAMBLE],
    }
}

// All before the windows, of which there are n.
fn head(mode: Mode, control: u8, address: [u8; 3], n: usize, out: &mut [u8]) -> usize
    requires { (n ≤ most_windows) × (length (lead_in (mode_number mode)) + 5 ≤ length out.old) }
    ensures value { result ≡ length (lead_in (mode_number mode)) + 5 }
    ensures out_after { out.new ≡ over (head_bytes (mode_number mode) control address n) out.old }
{
    let lead = lead_in(mode);
    let at = lead.len();
    copy(out, lead);
    let count = NO_WINDOWS - n as u8;
    copy(
        &mut out[at..],
        &[control, address[0], address[1], address[2], count],
    );
    at + 5
}

// One window.
fn window(window: Window, cells: &[u8], out: &mut [u8]) -> usize
    requires { 5 + length cells.now ≤ length out.old }
    ensures value { result ≡ 5 + length cells.now }
    ensures out_after { out.new ≡ over (window_bytes window.start window.end cells.now) out.old }
{
    [out[0], out[1], out[2], out[3], out[4]] = window.framing();
    copy_blocks(cells, &mut out[5..]);
    5 + cells.len()
}

// Each window goes into the output from where the last one stopped.
fn windows(tables: Tables<'_>, cells: &[u8], out: &mut [u8]) -> usize
    requires { (length cells.now ≡ sum_of tables.starts.now tables.ends.now) × (5 * length tables.starts.now + length cells.now ≤ length out.old) }
    ensures value { result ≡ 5 * length tables.entry.starts.now + length cells.now }
    ensures out_after { out.new ≡ over (windows_bytes tables.entry.starts.now tables.entry.ends.now cells.now) out.old }
{
    let mut at = 0;
    let mut from = 0;
    for (start, end) in tables.starts.iter().zip(tables.ends) {
        let next = Window {
            start: *start,
            end: *end,
        };
        let to = from + next.width();
        at += window(next, &cells[from..to], &mut out[at..]);
        from = to;
    }
    at
}

// The whole stream.
pub(crate) fn stream(
    mode: Mode,
    control: u8,
    address: [u8; 3],
    tables: Tables<'_>,
    cells: &[u8],
    out: &mut [u8],
) -> usize
    requires { (length cells.now ≡ sum_of tables.starts.now tables.ends.now) × (length (lead_in (mode_number mode)) + 6 + 5 * length tables.starts.now + length cells.now ≤ length out.old) }
    ensures value { result ≡ length (stream_of (mode_number mode) control address tables.entry.starts.now tables.entry.ends.now cells.now) }
    ensures out_after { out.new ≡ over (stream_of (mode_number mode) control address tables.entry.starts.now tables.entry.ends.now cells.now) out.old }
{
    let at = head(mode, control, address, tables.starts.len(), out);
    let end = at + windows(tables, cells, &mut out[at..]);
    out[end] = POSTAMBLE;
    end + 1
}
