// A walk over what a stream stores: how many bytes, between which cells, and whether each window lies above those before it.
ghost use Rattle.std.specs.Prelude.{◌≡◌, ◌+◌, ◌-◌, ◌≤◌, length};
ghost use Rattle.chain.specs.Paper.{most_bytes};
ghost use Rattle.sheet.specs.Steps.{puts_left, marked, noted_of, ended_of, Walk};

use crate::marks::mark;
use crate::stores::Stores;
use std::ops::Range;

// Stores so far: how many, none below the cell low and none from the cell top on; in order while no cell is stored into again.
#[derive(Clone, Copy)]
pub struct Walked {
    pub stored: usize,
    pub low: usize,
    pub top: usize,
    // Kept: no plainer: this says something of all stores, and no value waits for it.
    pub ordered: bool,
}

impl Walked {
    // These cells are stored into.
    fn noted(self, cells: Range<usize>) -> Self
        requires { (cells.start ≤ cells.end) × (self.stored + (cells.end - cells.start) ≤ most_bytes) }
        ensures { result ≡ noted_of self cells.start cells.end }
    {
        Walked {
            stored: self.stored + cells.len(),
            low: cells.start.min(self.low),
            top: self.top.max(cells.end),
            ordered: self.ordered & (self.top <= cells.start),
        }
    }

    // All stores are known; where there are none, low is top.
    fn ended(self) -> Self
        ensures { result ≡ ended_of self }
    {
        Walked {
            low: self.low.min(self.top),
            ..self
        }
    }
}

// What there is to say of the stores that are left.
pub fn walk(stores: Stores) -> Walked
    ensures { Walk (puts_left stores.entry.chain stores.entry.bytes.stream.now stores.entry.bytes.p stores.entry.at) stores.entry.size result }
{
    let mut walked = Walked {
        stored: 0,
        low: stores.size,
        top: 0,
        ordered: true,
    };
    for cells in stores {
        walked = walked.noted(cells);
    }
    walked.ended()
}

// Each cell's mark then tells how often it is stored into.
pub fn mark_all(stores: Stores, marks: &mut [u8])
    requires { length marks.old ≡ stores.size }
    ensures { marks.new ≡ marked marks.old (puts_left stores.entry.chain stores.entry.bytes.stream.now stores.entry.bytes.p stores.entry.at) }
{
    for cells in stores {
        mark(&mut marks[cells]);
    }
}
