// Data bytes taken as one block, large windows at the speed of a copy; and the five bytes before them at once.
#![tactic(auto, using(chain::proofs::Tests::tests, crate::proofs::Block::lay_check, crate::proofs::Block::lay_write, crate::proofs::Took::took_front, crate::proofs::Took::took_both), unfolding(crate::specs::Block::misses_of, crate::specs::Block::laid_of))]

ghost use Rattle.std.specs.Prelude.{◌≡◌, ◌+◌, ◌-◌, ◌<◌, ◌≤◌, length, MatchOption};
ghost use Rattle.chain.specs.Paper.{at_data, more};
ghost use Rattle.chain.specs.Set.{with_place};
ghost use Rattle.awaited.specs.Byte.{passed_of};
ghost use Rattle.machine.specs.Run.{counted, run, run_of};
ghost use Rattle.machine.specs.Block.{laid_of, misses_of, headed_of, Took, Headed};

use crate::here::Here;
use awaited::passed;
use cells::{copy, differ};
use chain::paper::*;
use chain::window::{Window, pair};
use chain::{Chain, Place};

// n bytes more taken, k of them mismatches.
pub fn counting(p: Place, n: u32, k: u32) -> Place
    ensures { result ≡ counted p n k }
{
    Place {
        taken: p.taken.wrapping_add(n),
        mismatches: p.mismatches.wrapping_add(k),
        ..p
    }
}

// The chain after n data bytes of its window, k of them mismatches.
pub fn past(c: Chain, n: u32, k: u32) -> Chain
    ensures { result ≡ with_place c (passed_of (counted c.place n k) n) }
{
    Chain {
        place: passed(counting(c.place, n, k), n),
        ..c
    }
}

// The chain after a window's null byte, start and end.
pub fn headed(c: Chain, window: Window) -> Chain
    ensures { result ≡ with_place c (headed_of c.place window.start window.end) }
{
    let Window { start, end } = window;
    let counted = counting(c.place, 5, 0);
    Chain {
        place: Place {
            awaited: AT_DATA,
            start,
            end,
            next: start,
            ..counted
        },
        ..c
    }
}

// The bytes t at the cells from at on: stored in a write, in a check compared and the mismatches counted.
fn lay(mem: &mut [u8], at: usize, check: u8, t: &[u8]) -> u32
    requires { (at + length t.now ≤ length mem.old) × (length t.now ≤ 65536) }
    ensures value { result ≡ misses_of check mem.old at t.now }
    ensures mem_after { mem.new ≡ laid_of check mem.old at t.now }
{
    let e = at + t.len();
    if check == CHECKING {
        return differ(&mem[at..e], t) as u32;
    }
    if check == WRITING {
        copy(&mut mem[at..e], t);
    }
    0
}

impl Here {
    // The cells that an open window awaits.
    #[inline(always)]
    fn window(self) -> Window
        ensures { result ≡ record { start = self.chain.place.next; end = self.chain.place.end } }
    {
        Window {
            start: self.chain.place.next,
            end: self.chain.place.end,
        }
    }

    // Data bytes t, no more than the window awaits, whose cells are in memory.
    #[inline(always)]
    fn block(self, mem: &mut [u8], t: &[u8]) -> Here
        requires { (self.chain.place.awaited ≡ at_data) × (0 < length t.now) × (length t.now ≤ self.chain.place.end - self.chain.place.next + 1)
            × (self.base + self.chain.place.next + length t.now ≤ length mem.old) }
        ensures whole_run { run_of (run self.chain mem.old more) t.now ≡ run result.chain mem.new more }
        ensures same_device { (result.base ≡ self.base) × (result.size ≡ self.size) }
    {
        let p = self.chain.place;
        let k = lay(mem, self.base + usize::from(p.next), p.check, t);
        self.moved(past(self.chain, t.len() as u32, k))
    }

    // The next data bytes of a window as one block, where it lies inside memory, as it does in every sound state.
    #[inline(always)]
    fn rest<'a>(self, mem: &mut [u8], s: &'a [u8]) -> (Here, &'a [u8])
        ensures { Took self.chain mem.old s.now result.0.chain mem.new result.1.now }
    {
        let p = self.chain.place;
        if p.awaited != AT_DATA {
            return (self, s);
        }
        let n = self.window().width().min(s.len());
        if n == 0 || mem.len() < self.base + usize::from(p.next) + n {
            return (self, s);
        }
        let (t, left) = s.split_at(n);
        (self.block(mem, t), left)
    }

    // The null byte, start and end of a window that the device has, where s begins with them.
    #[inline(always)]
    #[tactic(auto, using(crate::proofs::Took::took_header, crate::proofs::Header::fits_true))]
    fn header(self, s: &[u8]) -> Option<(Here, &[u8])>
        ensures { MatchOption result Unit (λ r. Headed self s.now r.0 r.1.now) }
    {
        if self.chain.place.awaited != AT_NULL {
            return None;
        }
        let [_, start, start_low, end, end_low, left @ ..] = s else {
            return None;
        };
        let window = Window {
            start: pair(*start, *start_low),
            end: pair(*end, *end_low),
        };
        if !window.fits(self.size) {
            return None;
        }
        Some((self.moved(headed(self.chain, window)), left))
    }

    // Whole windows, one a turn, as many as there are.
    #[inline(always)]
    fn windows<'a>(self, mem: &mut [u8], s: &'a [u8]) -> (Here, &'a [u8])
        ensures { Took self.chain mem.old s.now result.0.chain mem.new result.1.now }
    {
        let mut here = self;
        let mut left = s;
        // in every sound state the device's cells are in memory
        if mem.len() < self.base + usize::from(self.size) {
            return (here, left);
        }
        while let Some((at_data, data)) = here.header(left) {
            let n = at_data.window().width();
            if data.len() < n {
                return (here, left);
            }
            let (t, after) = data.split_at(n);
            here = at_data.block(mem, t);
            left = after;
        }
        (here, left)
    }

    // A window that the slice cuts: its null byte, start and end at once, and the data bytes that there are.
    #[inline(always)]
    fn cut<'a>(self, mem: &mut [u8], s: &'a [u8]) -> (Here, &'a [u8])
        ensures { Took self.chain mem.old s.now result.0.chain mem.new result.1.now }
    {
        match self.header(s) {
            Some((at_data, data)) => at_data.rest(mem, data),
            None => (self, s),
        }
    }
}

// Blocks from the front of a slice: what is left of an open window, whole windows, and of one that the slice cuts what there is. The step
// is not in here, so that the run's device, its size and where its memory begins are found once.
#[inline(never)]
pub fn blocks<'a>(c: Chain, mem: &mut [u8], s: &'a [u8]) -> (Chain, &'a [u8])
    ensures { Took c mem.old s.now result.0 mem.new result.1.now }
{
    let (here, left) = Here::new(c).rest(mem, s);
    let (here, left) = here.windows(mem, left);
    let (here, left) = here.cut(mem, left);
    (here.chain, left)
}
