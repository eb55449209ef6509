// One byte of a run, and a slice of them.
#![tactic(auto, using(chain::proofs::Tests::tests, crate::proofs::Took::took_both, crate::proofs::Took::took_all, crate::proofs::Took::took_step, crate::proofs::Took::took_last), unfolding(crate::specs::Run::address_of, crate::specs::Run::memory_of, crate::specs::Run::registers_of, crate::specs::Run::missed_of, crate::specs::Run::step_of, crate::specs::Calls::fed_of))]

ghost use Rattle.std.specs.Prelude.{◌≡◌, ◌≤◌, slice_index};
ghost use Rattle.chain.specs.Set.{with_place};
ghost use Rattle.machine.specs.Run.{address_of, memory_of, registers_of, missed_of, ended, gone_on, run, step_of, run_of};
ghost use Rattle.machine.specs.Block.{Took, over_of, Comes};
ghost use Rattle.chain.specs.Paper.{more};

use crate::bulk::{blocks, counting};
use crate::{Answer, Fed};
use awaited::{advance, given};
use cells::unlike;
use chain::eight::with8;
use chain::kinds::base_of;
use chain::paper::*;
use chain::{Chain, Place, closed_place};
use std::ops::ControlFlow;

// Kept: C interface: C lends any byte as a place's `awaited` or `check`, so that they are compared as numbers here and in bulk.rt (seven places).

// The awaited cell.
fn address(c: Chain) -> usize
    ensures value { result ≡ address_of c }
    ensures upper_bound { result ≤ 589815 }
{
    base_of(c.kinds, c.place.device) + usize::from(c.place.next)
}

// 1 where a check's data byte differs from its cell; past the last a cell is 0.
#[inline(always)]
fn missed(c: Chain, mem: &[u8], b: u8) -> u32
    ensures { result ≡ missed_of c mem.now b }
{
    if c.place.awaited == AT_DATA && c.place.check == CHECKING {
        u32::from(unlike(mem.get(address(c)).copied().unwrap_or(0), b))
    } else {
        0
    }
}

// The control byte is loaded.
fn registers_after(c: Chain, b: u8) -> [u8; 8]
    ensures { result ≡ registers_of c b }
{
    if c.place.awaited == AT_CONTROL {
        with8(c.registers, c.place.device, b)
    } else {
        c.registers
    }
}

// In a write a data byte is stored.
// Kept: proof: tried `if let Some(cell) = mem.get_mut(address(c))`; that the other cells are as they were stayed open.
fn store(c: Chain, mem: &mut [u8], b: u8)
    ensures { mem.new ≡ memory_of c mem.old b }
{
    if c.place.awaited == AT_DATA && c.place.check == WRITING {
        let at = address(c);
        if at < mem.len() {
            mem[at] = b;
        }
    }
}

// The run is over at its last byte, which counts as taken.
pub fn ended(c: Chain) -> Chain
    ensures { result ≡ ended c }
{
    let counted = counting(c.place, 1, 0);
    Chain {
        place: Place {
            running: CLOSED,
            ..counted
        },
        ..c
    }
}

// What a run that is over answers: it leaves no place.
pub fn over(c: Chain, number: u8) -> Fed
    ensures { result ≡ over_of c number }
{
    let answer = Answer::new(number, ended(c).place);
    Fed {
        chain: Chain {
            place: closed_place(),
            ..c
        },
        answer,
    }
}

// The run goes on after the byte b, with k mismatches more. In line wherever it is called, as `given` is.
#[inline(always)]
pub fn gone_on(c: Chain, k: u32, b: u8) -> Chain
    ensures { result ≡ gone_on c k b }
{
    Chain {
        registers: registers_after(c, b),
        place: advance(counting(c.place, 1, k), b),
        ..c
    }
}

// One byte of an open run: the run goes on, or it is over with its answer.
fn step(c: Chain, mem: &mut [u8], b: u8) -> ControlFlow<Fed, Chain>
    ensures { Comes result mem.new (step_of c mem.old b) }
{
    match given(c, b) {
        ControlFlow::Continue(()) => {
            let d = gone_on(c, missed(c, mem, b), b);
            store(c, mem, b);
            ControlFlow::Continue(d)
        }
        ControlFlow::Break(Ok(())) => ControlFlow::Break(over(c, DONE)),
        ControlFlow::Break(Err(e)) => ControlFlow::Break(over(c, e.number())),
    }
}

// Blocks from the front of a slice, where there are any: they are looked for in two bytes and more, since the step takes one sooner, and only before or
// inside a window.
// Kept: speed: tried without the two copies, as `blocks(c, mem, s)`: 90 instructions more for each byte, and 30 more without the first alone. What a call that
// is not in line reads or writes is not in the processor's registers.
#[inline(always)]
fn front<'a>(c: Chain, mem: &mut [u8], s: &'a [u8]) -> (Chain, &'a [u8])
    ensures { Took c mem.old s.now result.0 mem.new result.1.now }
{
    if 2 <= s.len() && matches!(c.place.awaited, AT_NULL | AT_DATA) {
        let lent = c;
        let (d, left) = blocks(lent, mem, s);
        (d, left)
    } else {
        (c, s)
    }
}

// Bytes of an open run, up to its end: blocks, and between them byte by byte.
pub fn feed(c: Chain, mem: &mut [u8], s: &[u8]) -> ControlFlow<Fed, Chain>
    ensures { Comes result mem.new (run_of (run c mem.old more) s.now) }
{
    let mut d = c;
    let mut left = s;
    loop {
        let (e, bytes) = front(d, mem, left);
        let Some((b, after)) = bytes.split_first() else {
            return ControlFlow::Continue(e);
        };
        d = step(e, mem, *b)?;
        left = after;
    }
}
