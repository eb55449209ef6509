// Bits in which memory differs before and after a stream.
ghost use Rattle.std.specs.Prelude.{◌≡◌, ◌≤◌, length};
ghost use Rattle.std.specs.Int.Bits.{bit_xor};
ghost use Rattle.std.specs.Int.Count.{ones};
ghost use Rattle.sheet.specs.Count.{bits_over};

use crate::over::over_cells;

// The ones of two bytes' exclusive or.
fn unlike_bits(a: u8, b: u8) -> u16
    ensures { (result ≡ ones (bit_xor a b)) × (result ≤ 8) }
{
    u8::count_ones(a ^ b) as u16
}

// The bits in which a part of a device differs from mem; then it is as mem.
pub fn settle(old: &mut [u8], mem: &[u8]) -> u32
    requires { (length old.old ≡ length mem.now) × (length mem.now ≤ 16381) }
    ensures value { result ≡ bits_over (length mem.now) old.old mem.now }
    ensures after { old.new ≡ mem.now }
{
    let before = &*old;
    let count = over_cells(mem.len(), |i| unlike_bits(before[i], mem[i]));
    old.copy_from_slice(mem);
    count
}
