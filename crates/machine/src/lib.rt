// The byte machine: a stream taken byte by byte or slice by slice into a chain, as a write or as a check.
#![tactic(auto, using(chain::proofs::Tests::tests, chain::proofs::PassedUp::not_done, crate::proofs::Starts::start_gives, crate::proofs::Starts::start_passes), unfolding(crate::specs::Calls::start_of, crate::specs::Calls::slice_of, crate::specs::Calls::slice_memory, crate::specs::Calls::drop_of, crate::specs::Calls::fed_of, crate::specs::Calls::refuse_of, crate::specs::Calls::ahead_of, crate::specs::Calls::past_of))]

mod bulk;
mod here;
mod run;

ghost use Rattle.std.specs.Prelude.{◌≡◌, IfOk};
ghost use Rattle.chain.specs.Paper.{more};
ghost use Rattle.chain.specs.Refusal.{number_of, answered as given_number};
ghost use Rattle.chain.specs.Set.{with_place};
ghost use Rattle.machine.specs.Run.{run, run_of};
ghost use Rattle.machine.specs.Block.{headed_of};
ghost use Rattle.machine.specs.Calls.{Start, Slice, Byte, Drop, answered, unfed, start_number, opened_place, fed_of, refuse_of, Ahead, ahead_of, past_of};

use crate::bulk::{headed, past};
use crate::run::{ended, feed, gone_on, over};
use awaited::given;
use chain::mode::Mode;
use chain::paper::*;
use chain::refusal::Refusal;
use chain::state::{fed, open, sound};
use chain::window::Window;
use chain::{Chain, Made, Place, closed_place};
use std::ops::ControlFlow;

// The number, and the run's bytes taken and mismatches so far.
#[repr(C)]
#[derive(Clone, Copy)]
pub struct Answer {
    pub number: u8,
    pub taken: u32,
    pub mismatches: u32,
}

#[repr(C)]
#[derive(Clone, Copy)]
pub struct Fed {
    pub chain: Chain,
    pub answer: Answer,
}

impl Answer {
    // A number, and the counts of a place.
    // Kept: C interface: the number is a field of `Answer`, 0 and 16 among its values.
    pub fn new(number: u8, p: Place) -> Answer
        ensures { result ≡ record { number = number; taken = p.taken; mismatches = p.mismatches } }
    {
        Answer {
            number,
            taken: p.taken,
            mismatches: p.mismatches,
        }
    }
}

impl Fed {
    // A run that goes on.
    pub fn going_on(chain: Chain) -> Fed
        ensures { result ≡ answered chain more chain.place.taken chain.place.mismatches }
    {
        Fed {
            chain,
            answer: Answer::new(MORE, chain.place),
        }
    }

    // A state that takes no byte: all as lent.
    fn refused(chain: Chain, refusal: Refusal) -> Fed
        ensures { result ≡ unfed chain (number_of refusal) }
    {
        Fed {
            chain,
            answer: Answer::new(refusal.number(), closed_place()),
        }
    }
}

// Where a run begins; check 0 writes, any other checks.
fn opened(c: Chain, len: usize, mode: u8, check: u8) -> Result<Place, Refusal>
    ensures number { given_number result ≡ start_number c len mode }
    ensures place { IfOk result (λ p. p ≡ opened_place mode check) }
{
    sound(c, len)?;
    Mode::try_from(mode)?;
    if c.place.running == OPENED {
        return Err(Refusal::RunOpen);
    }
    Ok(Place {
        running: OPENED,
        mode,
        check: if check == WRITING { WRITING } else { CHECKING },
        awaited: AT_PREAMBLE,
        ..closed_place()
    })
}

// Opens a run in a mode; check 0 writes, any other checks.
// Kept: C interface: `mode` and `check` are bytes of C's, and any is answered.
pub fn start(c: Chain, mem: &[u8], mode: u8, check: u8) -> Made
    ensures { Start c mem.now mode check result }
{
    match opened(c, mem.len(), mode, check) {
        Ok(place) => Made::done(Chain { place, ..c }),
        Err(e) => Made::refused(c, e),
    }
}

// Feeds an open run, its state tested before: for slice and byte, and for calls above the machine. Called more than once, this is a function of its own: what tests the
// state before it then tests the chain where it was lent, and no copy of it is made for the test.
pub fn taken(c: Chain, mem: &mut [u8], s: &[u8]) -> Fed
    ensures value { result ≡ fed_of (run_of (run c mem.old more) s.now) }
    ensures mem_after { mem.new ≡ (run_of (run c mem.old more) s.now).memory }
{
    match feed(c, mem, s) {
        ControlFlow::Continue(d) => Fed::going_on(d),
        ControlFlow::Break(f) => f,
    }
}

// Feeds an open run and stops at its end; later bytes are not looked at.
#[inline(always)]
pub fn slice(c: Chain, mem: &mut [u8], s: &[u8]) -> Fed
    ensures { Slice c mem.old s.now result mem.new }
{
    match fed(c, mem.len()) {
        Ok(()) => taken(c, mem, s),
        Err(e) => Fed::refused(c, e),
    }
}

// Drops an open run: no cell and no register is touched, and what the run stored stays.
pub fn drop(c: Chain, mem: &[u8]) -> Made
    ensures { Drop c mem.now result }
{
    match open(c, mem.len()) {
        Ok(()) => Made::done(Chain {
            place: closed_place(),
            ..c
        }),
        Err(e) => Made::refused(c, e),
    }
}

// One byte: a slice of one.
pub fn byte(c: Chain, mem: &mut [u8], b: u8) -> Fed
    ensures { Byte c mem.old b result mem.new }
{
    slice(c, mem, &[b])
}

// For calls above the machine: ends an open run with a number of theirs. Its last byte counts as taken; no cell and no register changes. Seldom, so a function
// of its own: its room is then no part of its caller's.
// Kept: promise of `refuse`: the number is the caller's, whatever byte it is.
#[inline(never)]
pub fn refuse(c: Chain, n: u8) -> Fed
    ensures { result ≡ refuse_of c n }
{
    if c.place.running == CLOSED {
        Fed::refused(c, Refusal::NoRun)
    } else {
        over(c, n)
    }
}

// For calls above the machine: what a byte would do that is not fed yet. The run stands elsewhere, or is over with a number.
pub fn ahead(c: Chain, b: u8) -> ControlFlow<Made, Chain>
    ensures { Ahead result (ahead_of c b) }
{
    match given(c, b) {
        ControlFlow::Continue(()) => ControlFlow::Continue(gone_on(c, 0, b)),
        ControlFlow::Break(Ok(())) => ControlFlow::Break(Made::done(ended(c))),
        ControlFlow::Break(Err(e)) => ControlFlow::Break(Made::refused(ended(c), e)),
    }
}

// For calls above the machine: where an open run would stand after n data bytes of its window.
pub fn past_data(c: Chain, n: u32) -> Chain
    ensures { result ≡ past_of c n }
{
    past(c, n, 0)
}

// And after the null byte, start and end of a window that the device has.
pub fn past_header(c: Chain, window: Window) -> Chain
    ensures { result ≡ with_place c (headed_of c.place window.start window.end) }
{
    headed(c, window)
}
