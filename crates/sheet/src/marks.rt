// Marks for a stream whose windows overlap: how often each cell is stored into, 2 for more than once.
ghost use Rattle.std.specs.Prelude.{◌≡◌, ◌≤◌, length};
ghost use Rattle.sheet.specs.Steps.{bumped, marks_from};

use crate::over::over_cells;

// Each cell is stored into once more. Every mark is written, with no test, so that the loop runs on vectors of bytes.
pub fn mark(marks: &mut [u8])
    ensures { marks.new ≡ bumped marks.old }
{
    for m in marks {
        *m += u8::from(*m < 2);
    }
}

// How many marks of any part of a device are k or more.
pub fn marked(marks: &[u8], k: u8) -> u32
    requires { length marks.now ≤ 16381 }
    ensures { result ≡ marks_from marks.now k 0 (length marks.now) }
{
    over_cells(marks.len(), |i| u16::from(k <= marks[i]))
}
