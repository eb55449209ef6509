// The tables of windows that a caller lends: of starts, and of ends.
ghost use Rattle.std.specs.Prelude.{◌≡◌, ◌*◌, ◌≤◌, ◌||◌, not, eqb, ltb, length, IfOk};
ghost use Rattle.chain.specs.Rules.{pick};
ghost use Rattle.chain.specs.Paper.{done, bad_tables};
ghost use Rattle.chain.specs.Refusal.{answered};
ghost use Rattle.writer.specs.Write.{most_windows, windows_number, sum_of};

use chain::refusal::Refusal;
use chain::window::Window;

const MOST_WINDOWS: usize = 255;

// A stream's windows: one's start and its end stand at the same index.
#[derive(Clone, Copy)]
pub(crate) struct Tables<'a> {
    pub(crate) starts: &'a [u16],
    pub(crate) ends: &'a [u16],
    ghost same: { length starts.now ≡ length ends.now },
    ghost few: { length starts.now ≤ most_windows },
}

impl<'a> Tables<'a> {
    pub(crate) fn new(starts: &'a [u16], ends: &'a [u16]) -> Result<Tables<'a>, Refusal>
        ensures number { answered result ≡ pick (not (eqb (length starts.now) (length ends.now)) || ltb most_windows (length starts.now)) bad_tables done }
        ensures lent { IfOk result (λ t. (t.starts.now ≡ starts.now) × (t.ends.now ≡ ends.now)) }
    {
        if (starts.len() != ends.len()) | (MOST_WINDOWS < starts.len()) {
            return Err(Refusal::BadTables);
        }
        Ok(Tables { starts, ends })
    }

    // Window by window, what is refused of a device of that size, or the sum of the windows. With 255 of them at most it cannot wrap.
    pub(crate) fn sum(self, size: u16) -> Result<usize, Refusal>
        ensures number { answered result ≡ windows_number size self.entry.starts.now self.entry.ends.now }
        ensures sum { IfOk result (λ n. (n ≡ sum_of self.entry.starts.now self.entry.ends.now) × (n ≤ 65536 * most_windows)) }
    {
        let mut sum = 0;
        for (start, end) in self.starts.iter().zip(self.ends) {
            let window = Window {
                start: *start,
                end: *end,
            };
            window.tested(size)?;
            sum += window.width();
        }
        Ok(sum)
    }
}
