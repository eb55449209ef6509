// What one byte of an open run gives, and where the run goes on.
#![tactic(auto, using(chain::proofs::Tests::tests), unfolding(crate::specs::Byte::number_of, crate::specs::Byte::passed_of, crate::specs::Byte::advance_of))]

ghost use Rattle.std.specs.Prelude.{◌≡◌, ◌≢◌, ◌&&◌, ◌==◌};
ghost use Rattle.chain.specs.Paper.{at_preamble, at_second, at_control, at_check, at_start_low, at_end_low, barred, no_check, more, checking, postamble, B3, B4};
ghost use Rattle.chain.specs.Rules.{pick};
ghost use Rattle.awaited.specs.Byte.{number_of, Given, Passes, passed_of, advance_of};

use chain::control::Control;
use chain::eight::at8;
use chain::kinds::size_here;
use chain::paper::*;
use chain::refusal::Refusal;
use chain::window::{pair, with_low};
use chain::{Chain, Place};
use std::ops::ControlFlow;

// Kept: C interface: C lends any byte as a place's `awaited`, `mode` or `check`, and each has its answer, so that they are compared as numbers here
// (eight places).

// A B2 that begins a device whose stored register is g.
fn begins(check: u8, g: u8) -> Result<(), Refusal>
    ensures { Passes result (pick (B4 g) barred (pick (check == checking && B3 g) no_check more)) }
{
    let stored = Control(g);
    if stored.bars_runs() {
        return Err(Refusal::Barred);
    }
    if check == CHECKING && stored.bars_checks() {
        return Err(Refusal::NoCheck);
    }
    Ok(())
}

fn at_preamble(c: Chain, b: u8) -> Result<(), Refusal>
    requires { c.place.awaited ≡ at_preamble }
    ensures { Passes result (number_of c b) }
{
    if b != PREAMBLE {
        return Err(Refusal::NoPreamble);
    }
    if c.place.mode == TWO_PREAMBLES {
        return Ok(());
    }
    begins(c.place.check, at8(c.registers, c.place.device))
}

// Kept: no plainer: a row of the paper each; the first preamble has one test more.
fn at_second(c: Chain, b: u8) -> Result<(), Refusal>
    requires { c.place.awaited ≡ at_second }
    ensures { Passes result (number_of c b) }
{
    if b != PREAMBLE {
        return Err(Refusal::NoPreamble);
    }
    begins(c.place.check, at8(c.registers, c.place.device))
}

fn at_control(c: Chain, b: u8) -> Result<(), Refusal>
    requires { c.place.awaited ≡ at_control }
    ensures { Passes result (number_of c b) }
{
    if c.place.check == CHECKING && Control(b).bars_checks() {
        return Err(Refusal::NoCheck);
    }
    Ok(())
}

fn at_start(c: Chain, b: u8) -> Result<(), Refusal>
    requires { c.place.awaited ≡ at_start_low }
    ensures { Passes result (number_of c b) }
{
    if size_here(c) <= with_low(c.place.start, b) {
        return Err(Refusal::BadStart);
    }
    Ok(())
}

fn at_end(c: Chain, b: u8) -> Result<(), Refusal>
    requires { c.place.awaited ≡ at_end_low }
    ensures { Passes result (number_of c b) }
{
    let end = with_low(c.place.end, b);
    if end < c.place.start || size_here(c) <= end {
        return Err(Refusal::BadEnd);
    }
    Ok(())
}

// A check byte that does not end the stream: B2, which goes on to the next device.
fn at_check(c: Chain, b: u8) -> Result<(), Refusal>
    requires here { c.place.awaited ≡ at_check }
    requires goes_on { b ≢ postamble }
    ensures { Passes result (number_of c b) }
{
    if b != PREAMBLE {
        return Err(Refusal::BadCheckByte);
    }
    if Control(c.place.control).ends_here() {
        return Err(Refusal::EndsHere);
    }
    if u16::from(c.count) <= u16::from(c.place.device) + 1 {
        return Err(Refusal::LastDevice);
    }
    begins(
        c.place.check,
        at8(c.registers, c.place.device.wrapping_add(1)),
    )
}

// What the byte b gives: the run goes on, or it is over, accepted or refused. In line wherever it is called: a byte call that called it would take
// a hundred instructions more.
#[inline(always)]
pub fn given(c: Chain, b: u8) -> ControlFlow<Result<(), Refusal>>
    ensures { Given result (number_of c b) }
{
    let test = match c.place.awaited {
        AT_PREAMBLE => at_preamble(c, b),
        AT_SECOND => at_second(c, b),
        AT_CONTROL => at_control(c, b),
        AT_START_LOW => at_start(c, b),
        AT_END_LOW => at_end(c, b),
        AT_CHECK if b == POSTAMBLE => return ControlFlow::Break(Ok(())),
        AT_CHECK => at_check(c, b),
        _ => Ok(()),
    };
    match test {
        Ok(()) => ControlFlow::Continue(()),
        Err(e) => ControlFlow::Break(Err(e)),
    }
}

// The place after n data bytes of its window.
pub fn passed(p: Place, n: u32) -> Place
    ensures { result ≡ passed_of p n }
{
    let next = u64::from(p.next) + u64::from(n);
    if next <= u64::from(p.end) {
        return Place {
            next: next as u16,
            ..p
        };
    }
    let left = p.left.saturating_sub(1);
    let awaited = if left == 0 { AT_CHECK } else { AT_NULL };
    Place {
        awaited,
        left,
        start: 0,
        end: 0,
        next: 0,
        ..p
    }
}

// Where the run goes on after the byte b.
pub fn advance(p: Place, b: u8) -> Place
    ensures { result ≡ advance_of p b }
{
    match p.awaited {
        AT_PREAMBLE if p.mode == TWO_PREAMBLES => Place {
            awaited: AT_SECOND,
            ..p
        },
        AT_PREAMBLE | AT_SECOND => Place {
            awaited: AT_CONTROL,
            ..p
        },
        AT_CONTROL => Place {
            awaited: AT_ADDRESS,
            control: b,
            ..p
        },
        AT_ADDRESS => Place {
            awaited: AT_ADDRESS2,
            ..p
        },
        AT_ADDRESS2 => Place {
            awaited: AT_ADDRESS3,
            ..p
        },
        AT_ADDRESS3 => Place {
            awaited: AT_COUNT,
            ..p
        },
        AT_COUNT if b == NO_WINDOWS => Place {
            awaited: AT_CHECK,
            ..p
        },
        AT_COUNT => Place {
            awaited: AT_NULL,
            left: 255 - b,
            ..p
        },
        AT_NULL => Place {
            awaited: AT_START,
            ..p
        },
        AT_START => Place {
            awaited: AT_START_LOW,
            start: pair(b, 0),
            ..p
        },
        AT_START_LOW => Place {
            awaited: AT_END,
            start: with_low(p.start, b),
            ..p
        },
        AT_END => Place {
            awaited: AT_END_LOW,
            end: pair(b, 0),
            ..p
        },
        AT_END_LOW => Place {
            awaited: AT_DATA,
            end: with_low(p.end, b),
            next: p.start,
            ..p
        },
        AT_DATA => passed(p, 1),
        AT_CHECK => Place {
            awaited: AT_CONTROL,
            device: p.device.wrapping_add(1),
            control: 0,
            ..p
        },
        _ => p,
    }
}
