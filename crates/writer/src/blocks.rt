// A window's data, copied in blocks.
ghost use Rattle.std.specs.Prelude.{◌+◌, ◌≤◌, ◌≡◌, ◌++◌, length, take, drop};
ghost use Rattle.chain.specs.Output.{over};

use cells::copy;

const BLOCK: usize = 16;

const LONG: usize = 256;

// The block at i. It is read whole before a byte of it is stored: no test is then made whether the two slices overlap.
fn copy_block(cells: &[u8], i: usize, out: &mut [u8])
    requires { (i + 16 ≤ length cells.now) × (i + 16 ≤ length out.old) }
    ensures { out.new ≡ take i out.old ++ over (take 16 (drop i cells.now)) (drop i out.old) }
{
    let e = i + BLOCK;
    let mut block = [0; BLOCK];
    copy(&mut block, &cells[i..e]);
    copy(&mut out[i..e], &block);
}

// The last block ends where the data ends, over bytes that the one before it copied. Data shorter than a block, and data so long that it
// is worth the tests before a plain copy, which then goes by larger blocks, is copied plainly.
pub(crate) fn copy_blocks(cells: &[u8], out: &mut [u8])
    requires { length cells.now ≤ length out.old }
    ensures { out.new ≡ over cells.now out.old }
{
    let n = cells.len();
    if (n < BLOCK) | (LONG < n) {
        copy(&mut out[..n], cells);
        return;
    }
    let last = n - BLOCK;
    for i in (0..last).step_by(BLOCK) {
        copy_block(cells, i, out);
    }
    copy_block(cells, last, out);
}
