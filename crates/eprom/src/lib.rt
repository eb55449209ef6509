// Booting from an EPROM: the bytes of a run fetched at an address counter and fed to the machine.
#![tactic(auto)]

mod board;
mod counter;
mod kept;
mod walk;

ghost use Rattle.std.specs.Prelude.{◌≡◌};
ghost use Rattle.chain.specs.Refusal.{number_of, answered};
ghost use Rattle.eprom.specs.Calls.{answers, fetch_number, unfetched, FetcherNew, Fetch};

use crate::board::Board;
use crate::counter::{LAST_COUNT, home, is_fetched};
use chain::paper::*;
use chain::refusal::Refusal;
use chain::state::sound;
use chain::{Chain, Place, closed_place};
use machine::{Answer, Fed};

// What a stop keeps beside the saved place: the counter, the first device's control byte and external address, low byte first, zero until taken, and whether
// its first null byte was taken, 0 for not yet.
#[repr(C)]
#[derive(Clone, Copy)]
pub struct Fetcher {
    pub counter: u32,
    pub control: u8,
    pub address: [u8; 3],
    pub nulled: u8,
}

// What a fetch leaves: the state, the number and the run's counts, and the fetcher.
#[repr(C)]
#[derive(Clone, Copy)]
pub struct Fetched {
    pub chain: Chain,
    pub answer: Answer,
    pub fetcher: Fetcher,
}

impl Fetched {
    // What the machine answers, and a fetcher.
    fn fed(r: Fed, f: Fetcher) -> Fetched
        ensures { result ≡ record { chain = r.chain; answer = r.answer; fetcher = f } }
    {
        let Fed { chain, answer } = r;
        Fetched {
            chain,
            answer,
            fetcher: f,
        }
    }

    // All as lent, with a number and the counts of a place.
    fn lent(c: Chain, f: Fetcher, why: Refusal, p: Place) -> Fetched
        ensures { result ≡ answers c (number_of why) p.taken p.mismatches f }
    {
        Fetched {
            chain: c,
            answer: Answer::new(why.number(), p),
            fetcher: f,
        }
    }
}

// A fetcher whose counter is where it starts in a mode, with nothing kept.
pub fn fetcher_new(mode: u8) -> Fetcher
    ensures { FetcherNew mode result }
{
    Fetcher::fresh(home(mode))
}

// What refuses a call before it looks at a byte. A function of its own: its room is then no part of the fetch's.
#[inline(never)]
fn fetching(c: Chain, f: Fetcher, len: usize) -> Result<(), Refusal>
    ensures { answered result ≡ fetch_number c f len }
{
    sound(c, len)?;
    if LAST_COUNT < f.counter {
        return Err(Refusal::IllFormed);
    }
    if c.place.running == CLOSED {
        return Err(Refusal::NoRun);
    }
    if !is_fetched(c.place.mode) {
        return Err(Refusal::BadMode);
    }
    Ok(())
}

// All as lent; where the mode is refused the run's counts so far.
#[tactic(auto, unfolding(crate::specs::Calls::unfetched))]
fn not_fetched(c: Chain, f: Fetcher, why: Refusal) -> Fetched
    ensures { result ≡ unfetched c f (number_of why) }
{
    match why {
        Refusal::BadMode => Fetched::lent(c, f, why, c.place),
        _ => Fetched::lent(c, f, why, closed_place()),
    }
}

// Fetches n bytes, or as many as the run takes, and feeds them.
pub fn fetch(c: Chain, f: Fetcher, mem: &mut [u8], eprom: &[u8], n: usize) -> Fetched
    ensures { Fetch c f mem.old eprom.now n result mem.new }
{
    if let Err(why) = fetching(c, f, mem.len()) {
        return not_fetched(c, f, why);
    }
    let mut board = Board {
        chain: c,
        fetcher: f,
        left: n,
    };
    match board.walk(mem, eprom) {
        Ok(()) => board.stays(Refusal::UsedUp),
        Err(r) => r,
    }
}
