// A stream in mode 1 that was read whole.
ghost use Rattle.std.specs.Prelude.{◌≡◌, ◌≤◌, eqb, length, IfOk};
ghost use Rattle.chain.specs.Kinds.{size_of};
ghost use Rattle.chain.specs.Paper.{done, bad_chain, first_mode};
ghost use Rattle.chain.specs.Refusal.{answered};
ghost use Rattle.chain.specs.Rules.{pick};
ghost use Rattle.reader.specs.Stream.{head_length, count_at, stream_stop};
ghost use Rattle.reader.specs.Windows.{windows_stop};

use chain::kinds::Kind;
use chain::paper::*;
use chain::refusal::Refusal;
use reader::stream::{HEAD_LENGTH, read_stream};
use reader::whole::Windows;

// The stream, the size of the device that it is for, and how many windows it has. The size is bounded, so that a place in the output is a number of
// two bytes.
#[derive(Clone, Copy)]
pub(crate) struct Given<'a> {
    pub(crate) size: u16,
    pub(crate) s: &'a [u8],
    pub(crate) n: u8,
    ghost head: { head_length ≤ length s.now },
    ghost count: { n ≡ count_at s.now 0 },
    ghost whole: { (windows_stop size s.now n head_length).number ≡ done },
    ghost small: { size ≤ 64000 },
}

impl<'a> Given<'a> {
    pub(crate) fn read(kind: u8, s: &'a [u8]) -> Result<Given<'a>, Refusal>
        ensures number { answered result ≡ pick (eqb (size_of kind) 0) bad_chain (stream_stop (size_of kind) first_mode s.now).number }
        ensures given { IfOk result (λ g. (g.size ≡ size_of kind) × (g.s.now ≡ s.now)) }
    {
        let size = Kind::try_from(kind)?.size();
        read_stream(size, FIRST_MODE, s).map_err(|stopped| stopped.refusal)?;
        Ok(Given {
            size,
            s,
            n: NO_WINDOWS - s[5],
        })
    }

    // Its windows, from the first one on.
    pub(crate) fn windows(self) -> Windows<'a>
        ensures size { result.size ≡ self.entry.size }
        ensures stream { result.s.now ≡ self.entry.s.now }
        ensures left { result.left ≡ self.entry.n }
        ensures at { result.at ≡ head_length }
    {
        Windows {
            size: self.size,
            s: self.s,
            left: self.n,
            at: HEAD_LENGTH,
        }
    }
}
