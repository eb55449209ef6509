// One stream: hunted where it is serial, loaded, its figures, and the device that it leaves.
ghost use Rattle.std.specs.Prelude.{◌≡◌, ◌+◌, ◌*◌, ◌≤◌, ◌<◌, length, MatchOption};
ghost use Rattle.chain.specs.Paper.{most_bytes};
ghost use Rattle.chain.specs.Bytes.{Bytes};
ghost use Rattle.chain.specs.Mode.{mode_number};
ghost use Rattle.chain.specs.Set.{with_place, closed_place};
ghost use Rattle.grammar.specs.Stores.{put_into};
ghost use Rattle.hunt.specs.Hunt.{nowhere};
ghost use Rattle.sheet.specs.Count.{cells_stored};
ghost use Rattle.sheet.specs.Stream.{device, shift_of, edges_per_byte, idle_edges, unfound_row, row_of, left_by};
ghost use Rattle.sheet.specs.Steps.{puts_left, Ready, Walk, row_from};

use crate::Sheet;
use crate::bits::settle;
use crate::bytes::BytesAfter;
use crate::load::load;
use crate::marks::marked;
use crate::stores::Stores;
use crate::walk::{Walked, mark_all, walk};
use chain::mode::Mode;
use chain::paper::*;
use chain::refusal::Refusal;
use chain::{Chain, closed_place};
use hunt::find;
use machine::{Answer, start};

// The device that streams are loaded into: its chain and its memory, between two streams the memory once more, and room for a mark of each cell.
#[derive(Drop)]
pub struct Target<'a> {
    pub chain: Chain,
    pub memory: &'a mut [u8],
    pub before: &'a mut [u8],
    pub marks: &'a mut [u8],
}

#[derive(Clone, Copy)]
struct Counts {
    cells: u32,
    again: u32,
}

// Where the stream's bytes begin, if the hunt does not fail.
fn position(mode: Mode, s: &[u8]) -> Option<usize>
    ensures { MatchOption result (shift_of (mode_number mode) s.now ≡ nowhere)
        (λ p. (p ≡ shift_of (mode_number mode) s.now) × (p < nowhere)) }
{
    if mode.is_serial() { find(s) } else { Some(0) }
}

// Clock edges of so many bytes from bit p on, and those to idle.
fn edges(mode: Mode, taken: u32, p: usize) -> u32
    requires { (taken ≤ most_bytes) × (p ≤ nowhere) }
    ensures { result ≡ edges_per_byte (mode_number mode) * taken + p + idle_edges (mode_number mode) }
{
    if mode.is_serial() {
        return 8 * taken + p as u32 + 24;
    }
    taken + p as u32 + 3
}

// The hunt fails: no figure but the edges to idle.
fn unfound(mode: Mode) -> Sheet
    ensures { result ≡ unfound_row (mode_number mode) }
{
    Sheet {
        edges: if mode.is_serial() { 24 } else { 3 },
        ..Sheet::refused(Refusal::NoPreamble)
    }
}

// Cells stored into, and those more than once. Windows in order have no cell twice; for others each cell is marked.
fn count(stores: Stores, walked: Walked, marks: &mut [u8]) -> Counts
    requires { (length marks.old ≡ stores.size)
        × Walk (puts_left stores.chain stores.bytes.stream.now stores.bytes.p stores.at) stores.size walked }
    ensures { (result.cells ≡ cells_stored stores.entry.size 1 (puts_left stores.entry.chain stores.entry.bytes.stream.now stores.entry.bytes.p stores.entry.at))
        × (result.again ≡ cells_stored stores.entry.size 2 (puts_left stores.entry.chain stores.entry.bytes.stream.now stores.entry.bytes.p stores.entry.at)) }
{
    if walked.ordered {
        return Counts {
            cells: walked.stored as u32,
            again: 0,
        };
    }
    marks[walked.low..walked.top].fill(0);
    mark_all(stores, marks);
    let used = &marks[walked.low..walked.top];
    Counts {
        cells: marked(used, 1),
        again: marked(used, 2),
    }
}

// The row of a run that has been fed: old is memory before it, and is then as mem.
fn row(stores: Stores, mode: Mode, a: Answer, mem: &[u8], old: &mut [u8], marks: &mut [u8]) -> Sheet
    requires { (length old.old ≡ stores.size) × (length marks.old ≡ length old.old) × (a.taken ≤ most_bytes)
        × (mem.now ≡ put_into (puts_left stores.chain stores.bytes.stream.now stores.bytes.p stores.at) old.old) }
    ensures value { result ≡ row_from (mode_number mode) stores.entry.bytes.p a (puts_left stores.entry.chain stores.entry.bytes.stream.now stores.entry.bytes.p stores.entry.at) old.old mem.now }
    ensures after { old.new ≡ mem.now }
{
    let walked = walk(stores);
    let counts = count(stores, walked, marks);
    let bits = settle(
        &mut old[walked.low..walked.top],
        &mem[walked.low..walked.top],
    );
    Sheet {
        number: a.number,
        taken: a.taken,
        data: walked.stored as u32,
        cells: counts.cells,
        again: counts.again,
        bits,
        edges: edges(mode, a.taken, stores.bytes.p),
    }
}

impl Target<'_> {
    // Loads a stream. A run that is used up is closed with no byte fed: closing bytes change no cell and no register.
    pub fn load(&mut self, mode: Mode, s: &[u8]) -> Sheet
        requires { Ready self.old.chain (length self.old.memory.now) × (length s.now ≤ most_bytes) × (self.old.before.now ≡ self.old.memory.now)
            × (length self.old.marks.now ≡ length self.old.memory.now) × Bytes self.old.memory.now }
        ensures row_value { result ≡ row_of (device self.old.chain self.old.memory.now) (mode_number mode) s.now }
        ensures chain_value { self.new.chain ≡ (left_by (device self.old.chain self.old.memory.now) (mode_number mode) s.now).chain }
        ensures memory_after { self.new.memory.now ≡ (left_by (device self.old.chain self.old.memory.now) (mode_number mode) s.now).memory }
        ensures before_after { self.new.before.now ≡ (left_by (device self.old.chain self.old.memory.now) (mode_number mode) s.now).memory }
        ensures marks_after { length self.new.marks.now ≡ length self.old.marks.now }
    {
        let Some(p) = position(mode, s) else {
            return unfound(mode);
        };
        let bytes = BytesAfter { stream: s, p };
        let memory = &mut *self.memory;
        let before = &mut *self.before;
        let marks = &mut *self.marks;
        let run = start(self.chain, memory, mode.number(), WRITING).chain;
        let fed = load(run, memory, bytes, marks);
        let stores = Stores {
            chain: run,
            size: memory.len(),
            bytes,
            at: 0,
        };
        let row = row(stores, mode, fed.answer, memory, before, marks);
        self.chain = Chain {
            place: closed_place(),
            ..fed.chain
        };
        row
    }
}
