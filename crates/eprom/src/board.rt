// A board that boots: an open run that fetches, its fetcher, and how many bytes are left to fetch. A block of bytes is fed to the machine at once.
ghost use Rattle.std.specs.Prelude.{◌≡◌, ◌≤◌, ◌==◌, MatchResult, true};
ghost use Rattle.chain.specs.Paper.{downward, B0};
ghost use Rattle.chain.specs.Refusal.{number_of};
ghost use Rattle.chain.specs.Rules.{pick};
ghost use Rattle.eprom.specs.Counter.{counts, home_of};
ghost use Rattle.eprom.specs.Kept.{fetcher_at};
ghost use Rattle.eprom.specs.Calls.{lent, answers};
ghost use Rattle.eprom.specs.Steps.{Going, Block, Over, took_all, settled, further_of};

use crate::counter::{COUNTS, counts_down, home};
use crate::kept::is_astray;
use crate::{Fetched, Fetcher};
use chain::Chain;
use chain::control::Control;
use chain::paper::*;
use chain::refusal::Refusal;
use machine::{refuse, taken};

#[derive(Clone, Copy)]
pub struct Board {
    pub chain: Chain,
    pub fetcher: Fetcher,
    pub left: usize,
    pub ghost going: { Going chain fetcher },
}

impl Board {
    // Which way the counter goes.
    pub fn counts_down(&self) -> bool
        ensures { result ≡ (self.now.chain.place.mode == downward) }
    {
        counts_down(self.chain.place.mode)
    }

    // The counter n bytes later, wrapping past either end.
    #[tactic(auto, unfolding(crate::specs::Steps::further_of))]
    fn further(&self, n: u32) -> u32
        requires { n ≤ counts }
        ensures { result ≡ further_of self.now.chain.place.mode self.now.fetcher.counter n }
    {
        let k = self.fetcher.counter;
        if self.counts_down() {
            return (k + (COUNTS - n)) % COUNTS;
        }
        (k + n) % COUNTS
    }

    // The fetcher after a block of which g is kept, where the run is over: B0 of the control byte kept decides.
    fn ended(&self, later: u32, g: Fetcher) -> Fetcher
        ensures { result ≡ fetcher_at (pick (B0 g.control) later (home_of self.now.chain.place.mode)) }
    {
        if Control(g.control).keeps_counter() {
            return Fetcher::fresh(later);
        }
        Fetcher::fresh(home(self.chain.place.mode))
    }

    // An answer that leaves the run open.
    pub fn stays(&self, why: Refusal) -> Fetched
        ensures { result ≡ answers self.now.chain (number_of why) self.now.chain.place.taken self.now.chain.place.mismatches self.now.fetcher }
    {
        Fetched::lent(self.chain, self.fetcher, why, self.chain.place)
    }

    // The bytes t, the first of them at the counter, as one block: the board goes on, or the answer of a run that is over with them. In line where it is called, which
    // takes less of the stack than a call.
    #[inline(always)]
    pub fn block(&mut self, mem: &mut [u8], t: &[u8]) -> Result<(), Fetched>
        requires { Block self.old.chain self.old.fetcher t.now }
        ensures { MatchResult result (λ _. (self.new.left ≡ self.old.left) × (lent self.new.chain mem.new self.new.fetcher ≡ took_all (lent self.old.chain mem.old self.old.fetcher) t.now)) (λ r. Over (took_all (lent self.old.chain mem.old self.old.fetcher) t.now) r mem.new) }
    {
        let jump = self.jump();
        if is_astray(jump) {
            let r = refuse(self.chain, BAD_JUMP);
            let g = self.ended(self.further(1), self.fetcher);
            return Err(Fetched::fed(r, g));
        }
        let r = taken(self.chain, mem, t);
        let n = r.answer.taken.wrapping_sub(self.chain.place.taken);
        let g = self.keep(&t[..n as usize]);
        let later = self.further(n);
        // Kept: C interface: the number is a field of `Answer`.
        if r.answer.number != MORE {
            let h = self.ended(later, g);
            return Err(Fetched::fed(r, h));
        }
        self.chain = r.chain;
        self.fetcher = Fetcher {
            counter: jump.unwrap_or(later),
            ..g
        };
        Ok(())
    }

    // The same where nothing more is kept and no jump is left: of the fetcher the counter alone goes on.
    // Kept: speed: a way of its own, since a block in mode 2 is short: by `block` one window of 16,381 takes 23,094 instructions where it takes 21,187 so.
    #[inline(always)]
    pub fn block_of_rest(&mut self, mem: &mut [u8], t: &[u8]) -> Result<(), Fetched>
        requires block { Block self.old.chain self.old.fetcher t.now }
        requires settled { settled self.old.chain.place self.old.fetcher ≡ true }
        ensures { MatchResult result (λ _. (self.new.left ≡ self.old.left) × (lent self.new.chain mem.new self.new.fetcher ≡ took_all (lent self.old.chain mem.old self.old.fetcher) t.now)) (λ r. Over (took_all (lent self.old.chain mem.old self.old.fetcher) t.now) r mem.new) }
    {
        let r = taken(self.chain, mem, t);
        let n = r.answer.taken.wrapping_sub(self.chain.place.taken);
        let later = self.further(n);
        // Kept: C interface: the number is a field of `Answer`.
        if r.answer.number != MORE {
            let h = self.ended(later, self.fetcher);
            return Err(Fetched::fed(r, h));
        }
        self.chain = r.chain;
        self.fetcher = Fetcher {
            counter: later,
            ..self.fetcher
        };
        Ok(())
    }
}
