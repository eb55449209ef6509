// What makes a lent state refused: number 1 and number 17, apart, since later numbers stand between them.
ghost use Rattle.std.specs.Prelude.{◌≡◌};
ghost use Rattle.chain.specs.ByRow.{held, none_open, row_at_preamble, row_at_second, row_at_control, outside, inside, no_bounds, half_start, start_alone, half_end, both_bounds, formed_by_row};
ghost use Rattle.chain.specs.Refusal.{answered};
ghost use Rattle.chain.specs.State.{is_bad_chain, unused_zero, is_well_formed, is_ill_formed, state_number, open_number, feed_number};

use crate::control::Control;
use crate::eight::{at8, unused_zero};
use crate::kinds::{Kind, size_of};
use crate::paper::*;
use crate::refusal::Refusal;
use crate::{Chain, Place};

// Number 1.
pub fn bad_chain(count: u8, kinds: [u8; 8], len: usize) -> bool
    ensures { result ≡ is_bad_chain count kinds len }
{
    if !((1 <= count) & (count <= MOST_DEVICES)) {
        return true;
    }
    let mut total: usize = 0;
    for kind in &kinds[..usize::from(count)] {
        match Kind::try_from(*kind) {
            Ok(known) => total += usize::from(known.size()),
            Err(_) => return true,
        }
    }
    (MOST_MEMORY < total) | (total != len)
}

// What 'Well formed' asks whatever byte is awaited.
fn is_held(p: Place, count: u8, unused: bool) -> bool
    ensures { result ≡ held p count unused }
{
    ((FIRST_MODE <= p.mode) & (p.mode <= TWO_PREAMBLES))
        & ((WRITING <= p.check) & (p.check <= CHECKING))
        & (p.device < count)
        & unused
        & (!(p.check == WRITING) | (p.mismatches == 0))
}

fn none_open(p: Place) -> bool
    ensures { result ≡ none_open p }
{
    (p.left == 0) & (p.start == 0) & (p.end == 0) & (p.next == 0)
}

fn at_preamble(p: Place, h: bool) -> bool
    ensures { result ≡ row_at_preamble p h }
{
    h & (p.device == 0) & (p.control == 0) & none_open(p)
}

fn at_second(p: Place, h: bool) -> bool
    ensures { result ≡ row_at_second p h }
{
    h & (p.device == 0) & (p.mode == TWO_PREAMBLES) & (p.control == 0) & none_open(p)
}

fn at_control(p: Place, h: bool, g: u8) -> bool
    ensures { result ≡ row_at_control p h g }
{
    h & (p.control == 0)
        & none_open(p)
        & !Control(g).bars_runs()
        & (!(p.check == CHECKING) | !Control(g).bars_checks())
}

// The control byte is taken, and no window is open.
fn outside_windows(p: Place, h: bool, g: u8) -> bool
    ensures { result ≡ outside p h g }
{
    h & (p.control == g)
        & (!(p.check == CHECKING) | !Control(p.control).bars_checks())
        & none_open(p)
}

// A window is open, whose bounds are as they have to be here.
fn inside_window(p: Place, h: bool, g: u8, bounds: bool) -> bool
    ensures { result ≡ inside p h g bounds }
{
    h & (p.control == g)
        & (!(p.check == CHECKING) | !Control(p.control).bars_checks())
        & (1 <= p.left)
        & bounds
}

fn no_bounds(p: Place) -> bool
    ensures { result ≡ no_bounds p }
{
    (p.start == 0) & (p.end == 0) & (p.next == 0)
}

fn half_start(p: Place) -> bool
    ensures { result ≡ half_start p }
{
    (p.start % 256 == 0) & (p.end == 0) & (p.next == 0)
}

fn start_alone(p: Place, size: u16) -> bool
    ensures { result ≡ start_alone p size }
{
    (p.start < size) & (p.end == 0) & (p.next == 0)
}

fn half_end(p: Place, size: u16) -> bool
    ensures { result ≡ half_end p size }
{
    (p.start < size) & (p.end % 256 == 0) & (p.next == 0)
}

fn both_bounds(p: Place, size: u16) -> bool
    ensures { result ≡ both_bounds p size }
{
    (p.start <= p.next) & (p.next <= p.end) & (p.end < size)
}

// The rest of 'Well formed' by awaited byte: h is what holds at every one, g the stored register of the place's device, size its size.
#[tactic(auto, unfolding(crate::specs::ByRow::formed_by_row))]
fn by_row(p: Place, h: bool, g: u8, size: u16) -> bool
    ensures { result ≡ formed_by_row p h g size }
{
    match p.awaited {
        AT_PREAMBLE => at_preamble(p, h),
        AT_SECOND => at_second(p, h),
        AT_CONTROL => at_control(p, h, g),
        AT_ADDRESS | AT_ADDRESS2 | AT_ADDRESS3 | AT_COUNT | AT_CHECK => outside_windows(p, h, g),
        AT_NULL | AT_START => inside_window(p, h, g, no_bounds(p)),
        AT_START_LOW => inside_window(p, h, g, half_start(p)),
        AT_END => inside_window(p, h, g, start_alone(p, size)),
        AT_END_LOW => inside_window(p, h, g, half_end(p, size)),
        AT_DATA => inside_window(p, h, g, both_bounds(p, size)),
        _ => false,
    }
}

// The open place is well formed; unused is whether the unused registers are zero.
fn well_formed(c: Chain, unused: bool) -> bool
    requires { unused ≡ unused_zero c.registers c.count }
    ensures { result ≡ is_well_formed c c.registers c.place }
{
    let p = c.place;
    let h = is_held(p, c.count, unused);
    by_row(
        p,
        h,
        at8(c.registers, p.device),
        size_of(at8(c.kinds, p.device)),
    )
}

// Number 17. Where no run is open, the rest of the place is no part of the state and is not tested.
#[tactic(auto, unfolding(crate::specs::State::is_ill_formed))]
pub fn ill_formed(c: Chain) -> bool
    ensures { result ≡ is_ill_formed c }
{
    if !unused_zero(c.kinds, c.count) {
        return true;
    }
    if !unused_zero(c.registers, c.count) {
        return true;
    }
    match c.place.running {
        CLOSED => false,
        OPENED => !well_formed(c, true),
        _ => true,
    }
}

// What refuses a call that wants a run open: 1, then 17, then 4. One function for all calls, so that the test stands in the archive once.
#[inline(never)]
#[tactic(auto, using(crate::proofs::Tests::tests), unfolding(crate::specs::State::open_number))]
pub fn open(c: Chain, len: usize) -> Result<(), Refusal>
    ensures { answered result ≡ open_number c len }
{
    if bad_chain(c.count, c.kinds, len) {
        return Err(Refusal::BadChain);
    }
    if ill_formed(c) {
        return Err(Refusal::IllFormed);
    }
    if c.place.running == CLOSED {
        return Err(Refusal::NoRun);
    }
    Ok(())
}

// And every call on a state: 1, then 17.
pub fn sound(c: Chain, len: usize) -> Result<(), Refusal>
    ensures { answered result ≡ state_number c len }
{
    match open(c, len) {
        Ok(()) => Ok(()),
        Err(refusal) => match refusal {
            Refusal::NoRun => Ok(()),
            other => Err(other),
        },
    }
}

// And a call that feeds bytes.
#[tactic(auto, unfolding(crate::specs::State::open_number, crate::specs::State::feed_number))]
pub fn fed(c: Chain, len: usize) -> Result<(), Refusal>
    ensures { answered result ≡ feed_number c len }
{
    open(c, len)
}
