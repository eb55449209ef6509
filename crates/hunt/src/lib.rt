// The serial bit hunt: the bytes of a stream that comes least significant bit first, from its preamble on, wherever that begins.
#![tactic(auto)]

ghost use Rattle.std.specs.Prelude.{◌≡◌, ◌+◌, ◌*◌, ◌/◌, ◌%◌, ◌^◌, ◌<◌, ◌≤◌, length, ◌⊎◌, MatchOption};
ghost use Rattle.std.proofs.lemmas.List.Edits.{sets};
ghost use Rattle.chain.specs.Refusal.{number_of};
ghost use Rattle.hunt.specs.Bits.{byte_at, bytes_from, whole_from, index_of};
ghost use Rattle.hunt.specs.Hunt.{begins_at, nowhere, found_at, Hunt};

use cells::copy;
use chain::paper::*;
use chain::refusal::Refusal;

// The hunt takes the positions 0 to 64.
const POSITIONS: usize = 65;

// Where the preamble began, 0 to 64, how many bits are left after the last whole byte, and how many bytes were written; each 0 where the
// number is not 0.
#[repr(C)]
#[derive(Clone, Copy)]
// Kept: C interface: at6000_hunt answers it.
pub struct Hunted {
    pub number: u8,
    pub p: u8,
    pub left: u8,
    pub length: usize,
}

impl Hunted {
    fn refused(why: Refusal) -> Hunted
        ensures { result ≡ record { number = number_of why; p = 0; left = 0; length = 0 } }
    {
        Hunted {
            number: why.number(),
            p: 0,
            left: 0,
            length: 0,
        }
    }
}

// A bit of a slice: bit `bit`, modulo 8, of byte `byte`. A pair, since eight times the length of a slice need not fit.
#[derive(Clone, Copy, Debug, PartialEq, Eq)]
pub struct Bit {
    pub byte: usize,
    pub bit: u8,
}

impl Bit {
    // Bit p.
    pub fn of(p: usize) -> Bit
        ensures { index_of result ≡ p }
    {
        Bit {
            byte: p / 8,
            bit: (p % 8) as u8,
        }
    }
}

// The byte that starts at bit k of the first of two bytes, k not 0.
// Kept: speed: tried `(low >> k) | (high << 1 << (7 - k))`, which needs no case for 0, 98,687 instructions for a hunt at offset 5 where this takes 69,969.
fn joined(low: u8, high: u8, k: u8) -> u8
    requires { (0 < k) × (k < 8) }
    ensures { result ≡ (high * 2 ^ 8 + low) / 2 ^ k % 2 ^ 8 }
{
    (low >> k) | (high << (8 - k))
}

// The byte that starts at a bit. Bits past the end are 0.
pub fn byte_at(s: &[u8], at: Bit) -> u8
    ensures { result ≡ byte_at s.now (index_of at) }
{
    let Some(&low) = s.get(at.byte) else {
        return 0;
    };
    let k = at.bit % 8;
    if k == 0 {
        return low;
    }
    joined(low, s.get(at.byte + 1).copied().unwrap_or(0), k)
}

// Whether eight bits of s stand at p and make the preamble.
// Kept: speed: `byte_at` tests for the slice's end what the first line has tested; by it a sheet of streams without a preamble takes a fifth more.
fn begins(s: &[u8], p: usize) -> bool
    requires { p < nowhere }
    ensures { result ≡ begins_at s.now p }
{
    if s.len() <= (p + 7) / 8 {
        return false;
    }
    let at = Bit::of(p);
    let low = s[at.byte];
    let k = at.bit % 8;
    if k == 0 {
        return low == PREAMBLE;
    }
    joined(low, s[at.byte + 1], k) == PREAMBLE
}

// The first position.
pub fn find(s: &[u8]) -> Option<usize>
    ensures { MatchOption result (found_at s.now ≡ nowhere) (λ p. (p ≡ found_at s.now) × (p < nowhere)) }
{
    (0..POSITIONS).find(|p| begins(s, *p))
}

// n bytes from bit k of the first one on, k not 0, over the front of out. No test stands in the loop, so that it runs on vectors of bytes; laid
// into its callers it takes a sixth more.
#[inline(never)]
fn shift(s: &[u8], k: u8, n: usize, out: &mut [u8])
    requires { (0 < k) × (k < 8) × (n < length s.now) × (n ≤ length out.old) }
    ensures { out.new ≡ sets out.old 0 (bytes_from s.now k n) }
{
    for i in 0..n {
        out[i] = joined(s[i], s[i + 1], k);
    }
}

// The whole bytes from a bit on, over the front of out: as many as there are, and as it has room for. A copy where the bit is a byte's first.
pub fn piece(s: &[u8], at: Bit, out: &mut [u8]) -> usize
    ensures upper_bound { (result ≤ length out.old) × (result ≤ whole_from s.now (index_of at))
        × ((result ≡ length out.old) ⊎ (result ≡ whole_from s.now (index_of at))) }
    ensures out_after { out.new ≡ sets out.old 0 (bytes_from s.now (index_of at) result) }
{
    if s.len() <= at.byte {
        return 0;
    }
    let here = &s[at.byte..];
    let k = at.bit % 8;
    if k == 0 {
        let n = here.len().min(out.len());
        copy(out, &here[..n]);
        return n;
    }
    let n = (here.len() - 1).min(out.len());
    shift(here, k, n, out);
    n
}

// Hunts for the preamble and writes the whole bytes that start at it; refused, the output is as lent.
pub fn hunt(s: &[u8], out: &mut [u8]) -> Hunted
    ensures { Hunt s.now out.old result out.new }
{
    let Some(p) = find(s) else {
        return Hunted::refused(Refusal::NoPreamble);
    };
    let n = s.len() - (p + 7) / 8;
    if out.len() < n {
        return Hunted::refused(Refusal::TooShort);
    }
    piece(s, Bit::of(p), out);
    Hunted {
        number: DONE,
        p: p as u8,
        left: ((8 - p % 8) % 8) as u8,
        length: n,
    }
}
