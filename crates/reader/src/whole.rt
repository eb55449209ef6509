// Windows that are known to be whole, one after another: what was read once is gone through again, and nothing is tested.
ghost use Rattle.std.specs.Prelude.{◌≡◌, ◌≤◌, length};
ghost use Rattle.chain.specs.Paper.{done};
ghost use Rattle.reader.specs.Windows.{start_at, end_at, first_at, next_at, windows_stop};

use crate::window::WholeWindow;
use chain::window::{Window, pair};

// How many are left in a stream for a device of that size, and where the null byte of the next one stands.
#[derive(Clone, Copy)]
pub struct Windows<'a> {
    pub size: u16,
    pub s: &'a [u8],
    pub left: u8,
    pub at: usize,
    ghost whole: { (windows_stop size s.now left at).number ≡ done },
}

// A window that is known to be whole: nothing is tested. The bounds are widened before they are subtracted, which leaves nothing to cut
// after it: where the next window stands waits for this.
fn whole_window(s: &[u8], at: usize) -> WholeWindow
    requires { (start_at s.now at ≤ end_at s.now at) × (next_at s.now at ≤ length s.now) }
    ensures { result ≡ record { bounds = record { start = start_at s.now at; end = end_at s.now at }; first = first_at at; next = next_at s.now at } }
{
    let start = pair(s[at + 1], s[at + 2]);
    let end = pair(s[at + 3], s[at + 4]);
    let first = at + 5;
    WholeWindow {
        bounds: Window { start, end },
        first,
        next: first + (end as usize - start as usize + 1),
    }
}

impl<'a> Iterator for Windows<'a> {
    type Item = WholeWindow;

    ghost use Rattle.std.specs.Iterator.{at_most};
    ghost use Rattle.reader.specs.Walk.{NextWindow};

    ghost next_gives = { NextWindow };

    ghost remaining = { λ ws. at_most ws.left };

    fn next(&mut self) -> Option<WholeWindow> {
        let Windows { size, s, left, at } = *self;
        if left == 0 {
            return None;
        }
        let window = whole_window(s, at);
        *self = Windows {
            size,
            s,
            left: left - 1,
            at: window.next,
        };
        Some(window)
    }
}
