// What a fetcher keeps of the first device's section, and when its counter jumps.
ghost use Rattle.std.specs.Prelude.{◌≡◌, ◌+◌, ◌-◌, ◌<◌, ◌≤◌, true, ◌==◌, false, nat_lt, slice_index, IfSome, MatchOption};
ghost use Rattle.chain.specs.Paper.{downward};
ghost use Rattle.chain.specs.Rules.{pick, row_of};
ghost use Rattle.eprom.specs.Counter.{last_count};
ghost use Rattle.eprom.specs.declared.Fetcher.{Fetcher};
ghost use Rattle.eprom.specs.Kept.{with_address, fetcher_at, kept_rows, external_of, jumps};
ghost use Rattle.eprom.specs.Steps.{settled, head_of, Plain, Free, after_of, kept_by, part_of};

use crate::Fetcher;
use crate::board::Board;
use crate::counter::LAST_COUNT;
use chain::control::Control;
use chain::paper::*;

// Kept: C interface: `Fetcher::nulled` is a byte, and a caller may lend any; these are two of its values.
const NOT_YET: u8 = 0;

const TAKEN: u8 = 1;

// How many bytes there are before the null byte of a section, from the awaited byte a on; from there on, one.
#[tactic(auto, unfolding(crate::specs::Steps::head_of))]
fn head(a: u8) -> usize
    ensures value { result ≡ head_of a }
    ensures some { 0 < result }
{
    match a {
        AT_PREAMBLE => 6,
        AT_SECOND..=AT_COUNT => 7 - usize::from(a),
        _ => 1,
    }
}

// The awaited byte after a, which was b, up to the first null byte; from there on nothing more is kept.
#[tactic(auto, unfolding(crate::specs::Steps::after_of))]
fn after(a: u8, b: u8) -> u8
    ensures { result ≡ after_of a b }
{
    match a {
        AT_PREAMBLE => AT_CONTROL,
        AT_SECOND..=AT_ADDRESS3 => a + 1,
        AT_COUNT if b != NO_WINDOWS => AT_NULL,
        _ => AT_CHECK,
    }
}

// 19: a jump above 1FFFF.
pub fn is_astray(jump: Option<u32>) -> bool
    ensures { MatchOption jump (result ≡ false) (λ to. result ≡ nat_lt last_count to) }
{
    jump.is_some_and(|to| LAST_COUNT < to)
}

impl Fetcher {
    // Nothing kept but the counter.
    pub(crate) fn fresh(counter: u32) -> Fetcher
        ensures { result ≡ fetcher_at counter }
    {
        Fetcher {
            counter,
            control: 0,
            address: [0, 0, 0],
            nulled: NOT_YET,
        }
    }

    // The external address, low byte first.
    #[tactic(auto, unfolding(crate::specs::Kept::external_of))]
    pub(crate) fn external(self) -> u32
        ensures { result ≡ external_of self }
    {
        let a = self.address;
        u32::from_le_bytes([a[0], a[1], a[2], 0])
    }

    fn with_address(self, i: usize, b: u8) -> Fetcher
        requires { i < 3 }
        ensures { result ≡ with_address self i b }
    {
        let mut address = self.address;
        address[i] = b;
        Fetcher { address, ..self }
    }

    // What is kept once the byte b is taken, awaited as a.
    fn with_byte(self, a: u8, b: u8) -> Fetcher
        ensures { result ≡ row_of a (kept_rows self b) self }
    {
        match a {
            AT_PREAMBLE => Fetcher::fresh(self.counter),
            AT_CONTROL => Fetcher { control: b, ..self },
            AT_ADDRESS => self.with_address(0, b),
            AT_ADDRESS2 => self.with_address(1, b),
            AT_ADDRESS3 => self.with_address(2, b),
            AT_NULL if self.nulled == NOT_YET => Fetcher {
                nulled: TAKEN,
                ..self
            },
            _ => self,
        }
    }
}

impl Board {
    // Where the counter jumps: the byte awaited is the first null byte of the first device's section, none was fetched before, and its control byte set B1.
    #[tactic(auto, unfolding(crate::specs::Kept::jumps))]
    pub fn jump(&self) -> Option<u32>
        ensures { MatchOption result (jumps self.now.chain.place self.now.fetcher ≡ false) (λ to. (jumps self.now.chain.place self.now.fetcher ≡ true) × (to ≡ external_of self.now.fetcher)) }
    {
        let p = &self.chain.place;
        let jumps = (p.device == 0)
            & (p.awaited == AT_NULL)
            & (self.fetcher.nulled == NOT_YET)
            & Control(self.fetcher.control).jumps();
        if jumps {
            Some(self.fetcher.external())
        } else {
            None
        }
    }

    // Nothing more of this run is kept, and no jump is left.
    #[tactic(auto, unfolding(crate::specs::Steps::settled))]
    pub fn is_settled(&self) -> bool
        ensures { result ≡ settled self.now.chain.place self.now.fetcher }
    {
        let p = &self.chain.place;
        (p.device != 0) | ((AT_COUNT <= p.awaited) & (self.fetcher.nulled != NOT_YET))
    }

    // The byte after the one at the counter, where there is one.
    fn second(&self, e: &[u8]) -> Option<u8>
        ensures { IfSome result (λ b. b ≡ pick (self.now.chain.place.mode == downward) (slice_index e.now (self.now.fetcher.counter - 1)) (slice_index e.now (self.now.fetcher.counter + 1))) }
    {
        let at = self.fetcher.counter as usize;
        let next = if self.counts_down() {
            at.checked_sub(1)?
        } else {
            at + 1
        };
        e.get(next).copied()
    }

    // Says yes only of a run that begins with the n bytes from the counter on, and whose control byte among them has B1 clear: no jump comes.
    fn is_plain(&self, e: &[u8], n: usize) -> bool
        ensures { result ≡ true → (f : Fetcher) → Plain self.now.chain.place f (part_of self.now.chain.place.mode e.now self.now.fetcher.counter n) }
    {
        if self.chain.place.awaited != AT_PREAMBLE {
            return false;
        }
        if n < 2 {
            return false;
        }
        match self.second(e) {
            Some(b) => !Control(b).jumps(),
            None => false,
        }
    }

    // How many of the n bytes from the counter on may be taken as one block.
    pub fn free(&self, e: &[u8], n: usize) -> usize
        requires { 0 < n }
        ensures some { 0 < result }
        ensures most { result ≤ n }
        ensures free { Free self.now.chain.place self.now.fetcher (part_of self.now.chain.place.mode e.now self.now.fetcher.counter result) }
    {
        if self.is_settled() {
            return n;
        }
        if self.is_plain(e, n) {
            return n;
        }
        n.min(head(self.chain.place.awaited))
    }

    // What is kept of a block of bytes.
    #[tactic(auto, unfolding(crate::specs::Steps::kept_by))]
    pub fn keep(&self, t: &[u8]) -> Fetcher
        ensures { result ≡ kept_by self.now.chain.place self.now.fetcher t.now }
    {
        let mut g = self.fetcher;
        if self.is_settled() {
            return g;
        }
        let mut a = self.chain.place.awaited;
        for b in t {
            if AT_NULL < a {
                return g;
            }
            g = g.with_byte(a, *b);
            a = after(a, *b);
        }
        g
    }
}
