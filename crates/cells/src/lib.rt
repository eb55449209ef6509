// Bytes and blocks of bytes: one block copied over another, and in how many places two differ, both as far as the shorter of the two goes.
#![tactic(auto)]

ghost use Rattle.std.specs.Prelude.{◌≡◌, ◌≤◌, ◌<◌, length, ◌⊎◌};
ghost use Rattle.std.proofs.lemmas.List.Edits.{sets};
ghost use Rattle.cells.specs.Differ.{unlike_of, differs};

// Copies src over the front of dst.
// Kept: speed: tried copy_from_slice, which calls the C library's copy: 1,280 bytes of stack for a slice call that took 673, and 2,496 for a fetch,
// which has 2,048. The compiler runs this loop on vectors of bytes.
pub fn copy(dst: &mut [u8], src: &[u8])
    ensures { dst.new ≡ sets dst.old 0 src.now }
{
    let n = dst.len().min(src.len());
    for i in 0..n {
        dst[i] = src[i];
    }
}

// 1 where two bytes differ, else 0.
pub fn unlike(a: u8, b: u8) -> u8
    ensures { (result ≡ unlike_of a b) × (result ≤ 1) }
{
    u8::from(a != b)
}

// So many cells are counted with a counter of one byte, which lets the loop run on vectors of bytes.
const BLOCK: usize = 240;

// In how many places two blocks of one length differ.
#[tactic(auto, unfolding(crate::specs::Differ::differs))]
fn few(a: &[u8], b: &[u8]) -> u8
    requires { (length a.now ≡ length b.now) × (length b.now ≤ 240) }
    ensures { result ≡ differs a.now b.now }
{
    let mut count: u8 = 0;
    for (x, y) in a.iter().zip(b) {
        count += unlike(*x, *y);
    }
    count
}

// In how many places two blocks differ.
pub fn differ(a: &[u8], b: &[u8]) -> usize
    ensures { result ≡ differs a.now b.now }
{
    let n = a.len().min(b.len());
    let mut count: usize = 0;
    for (x, y) in a[..n].chunks(BLOCK).zip(b[..n].chunks(BLOCK)) {
        count += usize::from(few(x, y));
    }
    count
}
