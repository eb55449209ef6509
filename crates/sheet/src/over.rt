// A sum over the cells of a device.
ghost use Rattle.std.specs.Prelude.{ℕ, ◌≡◌, ◌≤◌, ◌<◌};
ghost use Rattle.sheet.specs.Count.{over_cells};

// How many cells are looked at with a counter of two bytes, which lets the loop run on vectors of bytes.
const BLOCK: usize = 4096;

// f of each of n cells, 8 at most, summed.
// Kept: no plainer: that there are no more cells than in the largest device stands in three contracts, of a number and of two sorts of part.
pub fn over_cells<F: Fn(usize) -> u16>(n: usize, f: F) -> u32
    requires size { n ≤ 16381 }
    requires callable { (i : ℕ) → i < n → F.pre f i }
    requires small { (i r : ℕ) → F.post f i r → r ≤ 8 }
    ensures { (g : ℕ → ℕ) → ((i r : ℕ) → i < n → F.post f i r → r ≡ g i) → result ≡ over_cells n g }
{
    let mut sum: u32 = 0;
    for start in (0..n).step_by(BLOCK) {
        let mut few: u16 = 0;
        for i in start..n.min(start + BLOCK) {
            few += f(i);
        }
        sum += u32::from(few);
    }
    sum
}
