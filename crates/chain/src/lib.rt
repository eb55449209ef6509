// A chain of devices: the paper's constants, kinds and sizes, the state, what makes a state refused, and how one is made and reset.
#![tactic(auto)]

pub mod control;
pub mod eight;
pub mod kinds;
pub mod mode;
pub mod paper;
pub mod refusal;
pub mod state;
pub mod window;

ghost use Rattle.chain.specs.Calls.{New, Reset, fresh_chain, no_chain};
ghost use Rattle.chain.specs.Paper.{done};
ghost use Rattle.chain.specs.Refusal.{number_of, answered, length_in};
ghost use Rattle.chain.specs.Set.{closed_place};
ghost use Rattle.std.specs.Prelude.{◌≡◌, length, replicate};

use crate::eight::first_only;
use crate::paper::*;
use crate::refusal::Refusal;
use crate::state::bad_chain;

// An open place in a stream. `running` is 0 for none and 1 for an open one, `check` 0 for a write and 1 for a check:
// bytes and no bools, since a caller in C may lend any byte, and every one has its answer. The order of the fields is
// the C layout, and worth a factor of two in speed.
#[repr(C)]
#[derive(Clone, Copy, Default)]
pub struct Place {
    pub running: u8,
    pub mode: u8,
    pub check: u8,
    pub device: u8,
    pub awaited: u8,
    pub left: u8,
    pub control: u8,
    pub start: u16,
    pub end: u16,
    pub next: u16,
    pub taken: u32,
    pub mismatches: u32,
}

// The state of a chain: unused kinds and registers are zero, and the open place, if any.
#[repr(C)]
#[derive(Clone, Copy, Default)]
pub struct Chain {
    pub count: u8,
    pub kinds: [u8; 8],
    pub registers: [u8; 8],
    pub place: Place,
}

// A state and the number of the call that answers it.
// Kept: C interface: in this and in `Written` a number stands beside what is answered; inside the crates a `Result` says it.
#[repr(C)]
#[derive(Clone, Copy)]
pub struct Made {
    pub chain: Chain,
    pub number: u8,
}

// How much of a lent output was written, 0 where the number is not 0.
#[repr(C)]
#[derive(Clone, Copy)]
pub struct Written {
    pub number: u8,
    pub length: usize,
}

impl Made {
    // The state that a call leaves where nothing refuses it.
    pub fn done(chain: Chain) -> Made
        ensures { result ≡ record { chain = chain; number = done } }
    {
        let number = DONE;
        Made { chain, number }
    }

    // The state that is handed back with a refusal's number.
    pub fn refused(chain: Chain, refusal: Refusal) -> Made
        ensures { result ≡ record { chain = chain; number = number_of refusal } }
    {
        Made {
            chain,
            number: refusal.number(),
        }
    }
}

// How many bytes were written, or what refused the call.
impl From<Result<usize, Refusal>> for Written {
    ghost from_gives = { λ r w. w ≡ record { number = answered r; length = length_in r } };

    fn from(r: Result<usize, Refusal>) -> Written {
        match r {
            Ok(length) => Written {
                number: DONE,
                length,
            },
            Err(e) => Written {
                number: e.number(),
                length: 0,
            },
        }
    }
}

// No run open: every field zero.
pub fn closed_place() -> Place
    ensures { result ≡ closed_place }
{
    Place::default()
}

// The first kinds of a chain, zero registers, no open run.
fn fresh(count: u8, kinds: [u8; 8]) -> Chain
    ensures { result ≡ fresh_chain count kinds }
{
    Chain {
        count,
        kinds: first_only(kinds, count),
        registers: [0; 8],
        place: closed_place(),
    }
}

fn no_chain() -> Chain
    ensures { result ≡ no_chain }
{
    Chain::default()
}

// A new state for devices of these kinds; refused, it is all zero. Memory is left as lent.
pub fn new(count: u8, kinds: [u8; 8], mem: &[u8]) -> Made
    ensures { New count kinds mem.now result }
{
    if bad_chain(count, kinds, mem.len()) {
        return Made::refused(no_chain(), Refusal::BadChain);
    }
    Made::done(fresh(count, kinds))
}

// Zeroes memory, all registers and unused kinds and closes the run, whatever it was; refused, all is as lent.
pub fn reset(c: Chain, mem: &mut [u8]) -> Made
    ensures { Reset c mem.old result mem.new }
{
    if bad_chain(c.count, c.kinds, mem.len()) {
        return Made::refused(c, Refusal::BadChain);
    }
    mem.fill(0);
    Made::done(fresh(c.count, c.kinds))
}
