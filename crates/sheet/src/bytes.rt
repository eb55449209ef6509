// The whole bytes of a stream from a bit on, wherever in a byte of the slice that bit stands.
ghost use Rattle.std.specs.Prelude.{◌≡◌, ◌+◌, ◌-◌, ◌*◌, ◌/◌, ◌≤◌, ◌<◌, length};
ghost use Rattle.std.specs.Int.Bits.{bit_and};
ghost use Rattle.chain.specs.Paper.{most_bytes};
ghost use Rattle.hunt.specs.Bits.{byte_at};
ghost use Rattle.hunt.specs.Hunt.{nowhere};

use chain::window::pair;
use hunt::{Bit, byte_at};

// p is where they begin, and the preamble where it is hunted.
#[derive(Clone, Copy)]
pub struct BytesAfter<'a> {
    pub stream: &'a [u8],
    pub p: usize,
    ghost near: { p < nowhere },
    ghost inside: { (p + 7) / 8 ≤ length stream.now },
    ghost few: { length stream.now ≤ most_bytes },
}

impl BytesAfter<'_> {
    // How many there are.
    pub fn len(&self) -> usize
        ensures { result ≡ length self.now.stream.now - (self.now.p + 7) / 8 }
    {
        self.stream.len() - self.p.div_ceil(8)
    }

    // Where they begin.
    pub fn start(&self) -> Bit
        ensures { (result.byte ≡ self.now.p / 8) × (result.bit ≡ bit_and self.now.p 7) }
    {
        Bit {
            byte: self.p / 8,
            bit: (self.p & 7) as u8,
        }
    }

    // The byte that stands at `at`.
    pub fn byte(&self, at: usize) -> u8
        requires { at < length self.now.stream.now - (self.now.p + 7) / 8 }
        ensures { result ≡ byte_at self.now.stream.now (8 * (self.now.p / 8 + at) + bit_and self.now.p 7) }
    {
        let Bit { byte, bit } = self.start();
        let byte = byte + at;
        byte_at(self.stream, Bit { byte, bit })
    }

    // A window's start or end, whose high byte stands at `at`.
    pub fn bound(&self, at: usize) -> u16
        requires { at + 1 < length self.now.stream.now - (self.now.p + 7) / 8 }
        ensures { result ≡ byte_at self.now.stream.now (8 * (self.now.p / 8 + at) + bit_and self.now.p 7) * 256
            + byte_at self.now.stream.now (8 * (self.now.p / 8 + at + 1) + bit_and self.now.p 7) }
    {
        pair(self.byte(at), self.byte(at + 1))
    }
}
