// A stream of one device read to its end, window by window, and nothing written.
ghost use Rattle.std.specs.Prelude.{◌≡◌, ◌≤◌, length, ltb};
ghost use Rattle.chain.specs.Paper.{done, more};
ghost use Rattle.chain.specs.Rules.{pick};
ghost use Rattle.reader.specs.Stops.{stop, stop_of};
ghost use Rattle.reader.specs.Windows.{windows_stop};
ghost use Rattle.reader.specs.Stream.{preamble_at, preamble_stop, head_stop, check_stop, stream_stop};

use crate::stop::Stopped;
use crate::window::read_window;
use chain::control::Control;
use chain::paper::*;
use chain::refusal::Refusal;

// Preamble, control byte, three of address, count; then the windows.
pub const HEAD_LENGTH: usize = 6;

// Where the preamble stands that precedes the control byte.
// Kept: promise of preamble_at and read_stream: they answer for every mode byte, where a Mode has six.
pub fn preamble_at(mode: u8) -> usize
    ensures value { result ≡ preamble_at mode }
    ensures upper_bound { result ≤ 1 }
{
    usize::from(mode == TWO_PREAMBLES)
}

// All up to a position is there, or the stream is used up before.
fn up_to(s: &[u8], at: usize) -> Result<usize, Stopped>
    ensures { stop_of result ≡ pick (ltb (length s.now) at) (stop more (length s.now)) (stop done at) }
{
    if s.len() < at {
        return Err(Stopped::used_up(s));
    }
    Ok(at)
}

// The position after a preamble.
fn preamble(s: &[u8], at: usize) -> Result<usize, Stopped>
    ensures { stop_of result ≡ preamble_stop s.now at }
{
    if s.len() <= at {
        return Err(Stopped::used_up(s));
    }
    if s[at] != PREAMBLE {
        return Err(Stopped::refused(Refusal::NoPreamble, at + 1));
    }
    Ok(at + 1)
}

// Preambles, control byte, address and count: the position after them.
fn head(mode: u8, s: &[u8]) -> Result<usize, Stopped>
    ensures { stop_of result ≡ head_stop mode s.now }
{
    preamble(s, 0)?;
    if mode != TWO_PREAMBLES {
        return up_to(s, HEAD_LENGTH);
    }
    preamble(s, 1)?;
    up_to(s, HEAD_LENGTH + 1)
}

// Windows one after another from a position on, up to the first that is not whole.
pub fn read_windows(size: u16, s: &[u8], n: u8, from: usize) -> Result<usize, Stopped>
    ensures { stop_of result ≡ windows_stop size s.now n from }
{
    let mut at = from;
    // Counted in a whole word: a byte's counter costs three instructions more a window.
    for _ in 0..usize::from(n) {
        at = read_window(size, s, at)?.next;
    }
    Ok(at)
}

// The check byte of the only device.
pub fn check(control: u8, s: &[u8], at: usize) -> Result<usize, Stopped>
    ensures { stop_of result ≡ check_stop control s.now at }
{
    if s.len() <= at {
        return Err(Stopped::used_up(s));
    }
    let taken = at + 1;
    match s[at] {
        POSTAMBLE => Ok(taken),
        PREAMBLE if Control(control).ends_here() => Err(Stopped::refused(Refusal::EndsHere, taken)),
        PREAMBLE => Err(Stopped::refused(Refusal::LastDevice, taken)),
        _ => Err(Stopped::refused(Refusal::BadCheckByte, taken)),
    }
}

// A stream from its first byte to its postamble: the bytes taken.
pub fn read_stream(size: u16, mode: u8, s: &[u8]) -> Result<usize, Stopped>
    ensures { stop_of result ≡ stream_stop size mode s.now }
{
    let first = head(mode, s)?;
    let p = preamble_at(mode);
    let at = read_windows(size, s, NO_WINDOWS - s[p + 5], first)?;
    check(s[p + 1], s, at)
}
