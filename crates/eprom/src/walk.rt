// Bytes fetched block by block, as far as the run, the counter and the EPROM go. In mode 2 they stand the other way round in the EPROM, and are turned round in a
// room before they are fed.
ghost use Rattle.std.specs.Prelude.{◌≡◌, ◌+◌, ◌<◌, ◌≤◌, ◌&&◌, length, ◌==◌, MatchResult, OnOk, true};
ghost use Rattle.chain.specs.Paper.{downward};
ghost use Rattle.eprom.specs.Calls.{lent, fetched_of};
ghost use Rattle.eprom.specs.Fetch.{fetch_all};
ghost use Rattle.eprom.specs.Steps.{Block, Stretch, Reads, Over, settled, down_from, part_of};

use crate::Fetched;
use crate::board::Board;
use crate::counter::COUNTS;
use chain::refusal::Refusal;

// How many bytes are turned round at once, while a jump may come.
const FEW: usize = 8;

// And when none is left: the room is on the stack.
const TURNED: usize = 768;

// The n bytes from an address on downward, turned round in a room.
fn turn<'a>(room: &'a mut [u8], e: &[u8], at: usize, n: usize) -> &'a [u8]
    requires { (at < length e.now) × (n ≤ at + 1) × (n ≤ length room.old) }
    ensures { result.now ≡ down_from e.now at n }
{
    for i in 0..n {
        room[i] = e[at - i];
    }
    &room[..n]
}

impl Board {
    // The n bytes from the counter on, as it counts.
    #[tactic(auto, unfolding(crate::specs::Steps::part_of))]
    fn part<'a>(&self, room: &'a mut [u8], e: &'a [u8], n: usize) -> &'a [u8]
        requires { Stretch self.now.chain.place.mode self.now.fetcher.counter (length e.now) (length room.old) n }
        ensures { result.now ≡ part_of self.now.chain.place.mode e.now self.now.fetcher.counter n }
    {
        let at = self.fetcher.counter as usize;
        if self.counts_down() {
            return turn(room, e, at, n);
        }
        let to = at + n;
        &e[at..to]
    }

    // How many bytes can be fetched before the counter wraps or the EPROM ends, in mode 2 as many as there is room for.
    fn reach(&self, have: usize, many: usize) -> usize
        requires there { self.now.fetcher.counter < have }
        requires room { 0 < many }
        ensures some { 0 < result }
        ensures reach { Stretch self.now.chain.place.mode self.now.fetcher.counter have many result }
    {
        let at = self.fetcher.counter as usize;
        if self.counts_down() {
            return many.min(at + 1);
        }
        have.min(COUNTS as usize) - at
    }

    // The next bytes that are taken as one block.
    fn next<'a>(&self, room: &'a mut [u8], e: &'a [u8]) -> &'a [u8]
        requires left { 0 < self.now.left }
        requires there { self.now.fetcher.counter < length e.now }
        requires room { 0 < length room.old }
        ensures most { length result.now ≤ self.now.left }
        ensures block { Block self.now.chain self.now.fetcher result.now }
        ensures reads { Reads self.now.chain.place.mode e.now self.now.fetcher.counter result.now }
    {
        let n = self.left.min(self.reach(e.len(), room.len()));
        let k = self.free(e, n);
        self.part(room, e, k)
    }

    // Takes one block; or what the run answers where it is over with it, or past the EPROM.
    fn step(&mut self, mem: &mut [u8], room: &mut [u8], e: &[u8]) -> Result<(), Fetched>
        requires left { 0 < self.old.left }
        requires room { 0 < length room.old }
        ensures { MatchResult result (λ _. (self.new.left < self.old.left) × (fetch_all e.now self.old.left (lent self.old.chain mem.old self.old.fetcher) ≡ fetch_all e.now self.new.left (lent self.new.chain mem.new self.new.fetcher))) (λ r. Over (fetch_all e.now self.old.left (lent self.old.chain mem.old self.old.fetcher)) r mem.new) }
    {
        if e.len() <= self.fetcher.counter as usize {
            return Err(self.stays(Refusal::PastEprom));
        }
        let t = self.next(room, e);
        self.left -= t.len();
        self.block(mem, t)
    }

    // In mode 2, with no jump left and nothing more to keep.
    fn is_rest(&self) -> bool
        ensures { result ≡ (self.now.chain.place.mode == downward && settled self.now.chain.place self.now.fetcher) }
    {
        self.counts_down() && self.is_settled()
    }

    // Takes one block of such a rest, as long as the room.
    #[inline(always)]
    fn rest(&mut self, mem: &mut [u8], room: &mut [u8], e: &[u8]) -> Result<(), Fetched>
        requires left { 0 < self.old.left }
        requires room { 0 < length room.old }
        requires rest { (self.old.chain.place.mode == downward && settled self.old.chain.place self.old.fetcher) ≡ true }
        ensures { MatchResult result (λ _. (self.new.left < self.old.left) × (fetch_all e.now self.old.left (lent self.old.chain mem.old self.old.fetcher) ≡ fetch_all e.now self.new.left (lent self.new.chain mem.new self.new.fetcher))) (λ r. Over (fetch_all e.now self.old.left (lent self.old.chain mem.old self.old.fetcher)) r mem.new) }
    {
        let at = self.fetcher.counter as usize;
        if e.len() <= at {
            return Err(self.stays(Refusal::PastEprom));
        }
        let n = self.left.min(room.len()).min(at + 1);
        let t = turn(room, e, at, n);
        self.left -= n;
        self.block_of_rest(mem, t)
    }

    // Takes blocks, in mode 2 turned round in a room for N bytes, which is filled with zeros once: all that are left, but that a small room is given up where a large
    // one serves.
    // Never laid into the fetch: with both rooms there it takes 2,296 bytes of stack, and 2,020 so.
    #[inline(never)]
    fn blocks<const N: usize>(&mut self, mem: &mut [u8], e: &[u8]) -> Result<(), Fetched>
        requires some { 0 < N }
        requires most { N ≤ TURNED }
        ensures value { MatchResult result (λ _. fetch_all e.now self.old.left (lent self.old.chain mem.old self.old.fetcher) ≡ fetch_all e.now self.new.left (lent self.new.chain mem.new self.new.fetcher)) (λ r. Over (fetch_all e.now self.old.left (lent self.old.chain mem.old self.old.fetcher)) r mem.new) }
        ensures all { TURNED ≤ N → OnOk result (self.new.left ≡ 0) }
    {
        let mut room = [0u8; N];
        // Kept: no plainer: a turn takes as many bytes as stand together, so that there is no count of turns before.
        while 0 < self.left {
            if !self.is_rest() {
                self.step(mem, &mut room, e)?;
            } else if N < TURNED {
                return Ok(());
            } else {
                self.rest(mem, &mut room, e)?;
            }
        }
        Ok(())
    }

    // Fetches and feeds the bytes left, or as many as the run takes.
    pub fn walk(&mut self, mem: &mut [u8], e: &[u8]) -> Result<(), Fetched>
        ensures { MatchResult result (λ _. fetch_all e.now self.old.left (lent self.old.chain mem.old self.old.fetcher) ≡ lent self.new.chain mem.new self.new.fetcher) (λ r. Over (fetch_all e.now self.old.left (lent self.old.chain mem.old self.old.fetcher)) r mem.new) }
    {
        self.blocks::<FEW>(mem, e)?;
        if self.left == 0 {
            return Ok(());
        }
        self.blocks::<TURNED>(mem, e)
    }
}
