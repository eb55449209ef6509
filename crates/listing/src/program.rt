// All of an input read, and the text for it written.
ghost use Rattle.std.specs.Prelude.{◌≡◌, ◌<◌, IfSome, OnOk, length, take};
ghost use Rattle.std.specs.Io.KnownBytes.{Appends, Consumes, IsAtEnd};
ghost use Rattle.std.specs.Counts.{IsPrefixLen};
ghost use Rattle.listing.specs.Program.{text_of};

use crate::text::{MOST_INPUT, MOST_TEXT, text};
use std::io;
use std::io::{Read, Write};

// Reads until the block is full, the input ends or a read fails. How many bytes stand at the front of the block, and whether a read failed.
// Kept: promise of the listing program (docs/DECISIONS.md): what came before a read that fails is written too, so the count stands beside the error.
// read_exact tells none, and read_to_end takes memory.
fn read_full<R: Read>(from: &mut R, block: &mut [u8]) -> (usize, io::Result<()>)
    ensures prefix_len { IsPrefixLen result.0 block.new }
    ensures bytes { Consumes (R.remaining from.old) (R.remaining from.new) (take result.0 block.new) }
    ensures end { OnOk result.1 (result.0 < length block.new → IsAtEnd (R.remaining from.new)) }
{
    let mut done = 0;
    while done < block.len() {
        match from.read(&mut block[done..]) {
            Ok(0) => return (done, Ok(())),
            Ok(n) => done += n,
            Err(e) => return (done, Err(e)),
        }
    }
    (done, Ok(()))
}

// One byte more is read than is taken, which tells an input that is too long. Input that comes in pieces is read whole. A read that fails
// counts as the end of the input: the text for what came before it is written, and then the error is answered.
pub fn run<R: Read, W: Write>(from: &mut R, to: &mut W) -> io::Result<()>
    ensures { OnOk result (IfSome (R.remaining from.old) (λ input. Appends (W.contents to.old) (W.contents to.new) (text_of input))) }
{
    let mut input = [0u8; MOST_INPUT + 1];
    let (n, read) = read_full(from, &mut input);
    let mut out = [0u8; MOST_TEXT];
    let k = text(&input[..n], &mut out);
    to.write_all(&out[..k])?;
    read
}
