// What a stream's bytes store, found with no look at memory: the cells, as many at once as lie one after another.
ghost use Rattle.std.specs.Prelude.{◌≡◌, ◌+◌, ◌-◌, ◌/◌, ◌≤◌, length, IfSome, MatchOption, []};
ghost use Rattle.std.specs.Iterator.{at_most};
ghost use Rattle.sheet.specs.Steps.{Writing, Header, puts_left, Part};

use crate::bytes::BytesAfter;
use chain::Chain;
use chain::paper::*;
use chain::window::Window;
use machine::{ahead, past_data, past_header};
use std::ops::{ControlFlow, Range};

// The run at chain is a write into a device of so many cells, and takes the bytes from the byte `at` on.
#[derive(Clone, Copy)]
pub struct Stores<'a> {
    pub chain: Chain,
    pub size: usize,
    pub bytes: BytesAfter<'a>,
    pub at: usize,
    ghost writing: { Writing chain size },
    ghost within: { at ≤ length bytes.stream.now - (bytes.p + 7) / 8 },
}

impl Stores<'_> {
    // The window whose null byte is awaited, where that, its start and its end are there and the device has it.
    fn window(&self) -> Option<Window>
        ensures { IfSome result (λ w. Header self.now.chain.place.awaited self.now.size self.now.bytes.stream.now self.now.bytes.p self.now.at w.start w.end) }
    {
        if self.chain.place.awaited != AT_NULL || self.bytes.len() - self.at < 5 {
            return None;
        }
        let window = Window {
            start: self.bytes.bound(self.at + 1),
            end: self.bytes.bound(self.at + 3),
        };
        window.fits(self.size as u16).then_some(window)
    }
}

impl Iterator for Stores<'_> {
    type Item = Range<usize>;

    ghost next_gives = { λ s r t. (t.size ≡ s.size) × (t.bytes ≡ s.bytes)
        × MatchOption r (puts_left s.chain s.bytes.stream.now s.bytes.p s.at ≡ [])
        (λ cells. Part (puts_left s.chain s.bytes.stream.now s.bytes.p s.at) s.size s.at cells.start cells.end t.at (puts_left t.chain t.bytes.stream.now t.bytes.p t.at)) };

    ghost remaining = { λ s. at_most (length s.bytes.stream.now - (s.bytes.p + 7) / 8 - s.at) };

    fn next(&mut self) -> Option<Range<usize>> {
        // Kept: no plainer: bytes that store nothing are passed over, one or five a turn, up to the next that does.
        while self.at < self.bytes.len() {
            if self.chain.place.awaited == AT_DATA {
                let left = Window {
                    start: self.chain.place.next,
                    end: self.chain.place.end,
                };
                let have = left.width().min(self.bytes.len() - self.at);
                let start = left.start as usize;
                self.chain = past_data(self.chain, have as u32);
                self.at += have;
                return Some(start..start + have);
            }
            if let Some(window) = self.window() {
                self.chain = past_header(self.chain, window);
                self.at += 5;
            } else {
                let ControlFlow::Continue(next) = ahead(self.chain, self.bytes.byte(self.at)) else {
                    return None;
                };
                self.chain = next;
                self.at += 1;
            }
        }
        None
    }
}
