// One window of a stream, read where its null byte stands. Its data is skipped, so that a stream is read by its windows.
ghost use Rattle.std.specs.Prelude.{◌≡◌, ◌-◌};
ghost use Rattle.reader.specs.Windows.{read_window_of, read_of};

use crate::stop::Stopped;
use chain::refusal::Refusal;
use chain::window::{Window, pair};

// A window that is whole: its bounds, the position of its first data byte, and the position after its last.
#[derive(Clone, Copy, Debug, PartialEq, Eq)]
pub struct WholeWindow {
    pub bounds: Window,
    pub first: usize,
    pub next: usize,
}

// The window whose null byte is awaited at a position, where it is whole.
pub fn read_window(size: u16, s: &[u8], at: usize) -> Result<WholeWindow, Stopped>
    ensures { read_of result ≡ read_window_of size s.now at }
{
    let left = s.len().saturating_sub(at);
    if left < 3 {
        return Err(Stopped::used_up(s));
    }
    let start = pair(s[at + 1], s[at + 2]);
    if size <= start {
        return Err(Stopped::refused(Refusal::BadStart, at + 3));
    }
    if left < 5 {
        return Err(Stopped::used_up(s));
    }
    let end = pair(s[at + 3], s[at + 4]);
    let bounds = Window { start, end };
    if let Err(refusal) = bounds.tested(size) {
        return Err(Stopped::refused(refusal, at + 5));
    }
    let cells = bounds.width();
    if left - 5 < cells {
        return Err(Stopped::used_up(s));
    }
    let first = at + 5;
    Ok(WholeWindow {
        bounds,
        first,
        next: first + cells,
    })
}
