// The rows of a sheet, entered in its tables, and their sums.
ghost use Rattle.std.specs.Prelude.{◌≡◌, [], ◌∷◌, ◌+◌, ◌*◌, ◌^◌, ◌≤◌, ◌<◌, length};
ghost use Rattle.std.proofs.lemmas.List.Edits.{sets};
ghost use Rattle.chain.specs.Paper.{most_streams, most_bytes};
ghost use Rattle.chain.specs.Bytes.{Bytes};
ghost use Rattle.chain.specs.Mode.{mode_number};
ghost use Rattle.chain.specs.Refusal.{number_of};
ghost use Rattle.sheet.specs.Stream.{device};
ghost use Rattle.sheet.specs.Sheet.{streams_of, rows_of, sum, sums_of, numbers_of, figures_a_row, figures_of, refused_sheet};
ghost use Rattle.sheet.specs.Steps.{Ready, plus, Small};

use crate::row::Target;
use crate::{FIGURES, Sheet};
use chain::mode::Mode;
use chain::refusal::Refusal;

impl Sheet {
    // No figure but the number.
    pub(crate) fn refused(refusal: Refusal) -> Self
        ensures { result ≡ refused_sheet (number_of refusal) }
    {
        Sheet {
            number: refusal.number(),
            ..Sheet::default()
        }
    }

    // A row added to the sums so far.
    fn plus(self, row: Sheet) -> Self
        requires { Small (plus self row) }
        ensures { result ≡ plus self row }
    {
        Sheet {
            number: self.number,
            taken: self.taken + row.taken,
            data: self.data + row.data,
            cells: self.cells + row.cells,
            again: self.again + row.again,
            bits: self.bits + row.bits,
            edges: self.edges + row.edges,
        }
    }

    // In the order of the table.
    fn figures(self) -> [u32; FIGURES]
        ensures { result ≡ figures_of (self ∷ []) }
    {
        [
            self.taken, self.data, self.cells, self.again, self.bits, self.edges,
        ]
    }
}

// The streams in order, each into the device as the last one left it.
pub fn rows(
    target: Target,
    mode: Mode,
    streams: &[u8],
    lengths: &[u32],
    numbers: &mut [u8],
    figures: &mut [u32],
) -> Sheet
    requires { Ready target.chain (length target.memory.now) × Bytes target.memory.now × (target.before.now ≡ target.memory.now) × (length target.marks.now ≡ length target.memory.now)
        × (length lengths.now ≤ most_streams) × (sum lengths.now ≡ length streams.now) × (length streams.now ≤ most_bytes)
        × (length lengths.now ≤ length numbers.old) × (figures_a_row * length lengths.now ≤ length figures.old) }
    ensures value { result ≡ sums_of (rows_of (device target.entry.chain target.entry.memory.now) (mode_number mode) (streams_of lengths.now streams.now)) }
    ensures numbers_after { numbers.new ≡ sets numbers.old 0 (numbers_of (rows_of (device target.entry.chain target.entry.memory.now) (mode_number mode) (streams_of lengths.now streams.now))) }
    ensures figures_after { figures.new ≡ sets figures.old 0 (figures_of (rows_of (device target.entry.chain target.entry.memory.now) (mode_number mode) (streams_of lengths.now streams.now))) }
{
    let mut target = target;
    let mut sums = Sheet::default();
    let mut at = 0;
    for (i, length) in lengths.iter().enumerate() {
        let end = at + *length as usize;
        let row = target.load(mode, &streams[at..end]);
        numbers[i] = row.number;
        figures[FIGURES * i..FIGURES * (i + 1)].copy_from_slice(&row.figures());
        sums = sums.plus(row);
        at = end;
    }
    sums
}
