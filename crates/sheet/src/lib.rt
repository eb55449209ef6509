// The load sheet: streams loaded one after another into one reset device, and exact figures of each and of all.
#![tactic(auto)]

mod bits;
mod bytes;
mod load;
mod marks;
mod over;
mod row;
mod stores;
mod table;
mod walk;

ghost use Rattle.std.specs.Prelude.{◌≡◌, ◌≤◌, length, IfOk};
ghost use Rattle.chain.specs.Paper.{most_streams};
ghost use Rattle.chain.specs.KnownKinds.{kind_number};
ghost use Rattle.chain.specs.Mode.{mode_number};
ghost use Rattle.chain.specs.Refusal.{answered};
ghost use Rattle.sheet.specs.Sheet.{sum, sheet_number, LoadSheet};

use crate::row::Target;
use crate::table::rows;
use chain::kinds::Kind;
use chain::mode::Mode;
use chain::new;
use chain::paper::*;
use chain::refusal::Refusal;

// The figures of one stream, with its number, or the sums of all, with the call's: bytes taken, data bytes, distinct cells stored into, cells stored into
// more than once, bits of memory that differ before and after, clock edges.
// Kept: C interface: the number stands beside the figures, 0 where nothing is refused.
#[repr(C)]
#[derive(Clone, Copy, Debug, Default, PartialEq, Eq)]
pub struct Sheet {
    pub number: u8,
    pub taken: u32,
    pub data: u32,
    pub cells: u32,
    pub again: u32,
    pub bits: u32,
    pub edges: u32,
}

// The cells of the largest device.
const MOST_CELLS: usize = 16381;

// A row's figures.
const FIGURES: usize = 6;

// The lengths in all. They are few enough for the sum to be exact.
fn total(lengths: &[u32]) -> usize
    requires { length lengths.now ≤ most_streams }
    ensures { result ≡ sum lengths.now }
{
    lengths.iter().map(|n| *n as usize).sum()
}

// What refuses a sheet, or else the kind and the mode: numbers and figures are the lengths of the tables.
fn accept(
    kind: u8,
    mode: u8,
    streams: &[u8],
    lengths: &[u32],
    numbers: usize,
    figures: usize,
) -> Result<(Kind, Mode), Refusal>
    ensures number { answered result ≡ sheet_number kind mode streams.now lengths.now numbers figures }
    ensures named { IfOk result (λ x. (kind_number x.0 ≡ kind) × (mode_number x.1 ≡ mode)) }
{
    let n = lengths.len();
    if MOST_STREAMS < n || total(lengths) != streams.len() || MOST_BYTES < streams.len() {
        return Err(Refusal::BadLengths);
    }
    let kind = Kind::try_from(kind)?;
    let mode = Mode::try_from(mode)?;
    if numbers < n || figures < FIGURES * n {
        return Err(Refusal::TooShort);
    }
    Ok((kind, mode))
}

// Loads the streams, which lie one after another, one for each length, and fills in a number and six figures for each. Memory before and after, and a mark
// for each cell, are on the stack: three times the largest device.
// Kept: C interface: a slice with the lengths of the streams in it, and two tables beside each other.
pub fn load_sheet(
    kind: u8,
    mode: u8,
    streams: &[u8],
    lengths: &[u32],
    numbers: &mut [u8],
    figures: &mut [u32],
) -> Sheet
    ensures { LoadSheet kind mode streams.now lengths.now numbers.old figures.old result
        numbers.new figures.new }
{
    let (kind, mode) = match accept(kind, mode, streams, lengths, numbers.len(), figures.len()) {
        Ok(known) => known,
        Err(refusal) => return Sheet::refused(refusal),
    };
    let size = usize::from(kind.size());
    let mut memory = [0u8; MOST_CELLS];
    let mut before = [0u8; MOST_CELLS];
    let mut marks = [0u8; MOST_CELLS];
    let kinds = [kind.number(), 0, 0, 0, 0, 0, 0, 0];
    let target = Target {
        chain: new(1, kinds, &memory[..size]).chain,
        memory: &mut memory[..size],
        before: &mut before[..size],
        marks: &mut marks[..size],
    };
    rows(target, mode, streams, lengths, numbers, figures)
}
