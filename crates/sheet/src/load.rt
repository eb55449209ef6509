// A stream fed to the machine. Where its bytes do not begin at a byte of the slice they are assembled piece by piece, in a room that is lent.
ghost use Rattle.std.specs.Prelude.{◌≡◌, ◌+◌, ◌*◌, ◌/◌, ◌≤◌, ◌<◌, length};
ghost use Rattle.chain.specs.Paper.{more};
ghost use Rattle.machine.specs.Run.{run, run_of};
ghost use Rattle.machine.specs.Calls.{fed_of};
ghost use Rattle.sheet.specs.Steps.{bytes_after};

use crate::bytes::BytesAfter;
use chain::Chain;
use chain::paper::*;
use hunt::{Bit, piece};
use machine::{Fed, taken};

// All at once, from byte q on.
fn load_rest(c: Chain, mem: &mut [u8], s: &[u8], q: usize) -> Fed
    requires { q ≤ length s.now }
    ensures value { result ≡ fed_of (run_of (run c mem.old more) (bytes_after s.now (8 * q))) }
    ensures mem_after { mem.new ≡ (run_of (run c mem.old more) (bytes_after s.now (8 * q))).memory }
{
    taken(c, mem, &s[q..])
}

// Piece by piece, from a bit on that is no byte's first.
fn load_pieces(c: Chain, mem: &mut [u8], s: &[u8], start: Bit, room: &mut [u8]) -> Fed
    requires { (0 < start.bit) × (start.bit < 8) × (start.byte < length s.now) × (0 < length room.old) }
    ensures value { result ≡ fed_of (run_of (run c mem.old more) (bytes_after s.now (8 * start.byte + start.bit))) }
    ensures mem_after { mem.new ≡ (run_of (run c mem.old more) (bytes_after s.now (8 * start.byte + start.bit))).memory }
{
    let n = s.len() - 1;
    let mut chain = c;
    let mut at = start.byte;
    // Kept: no plainer: a piece is as long as it comes out, so that the next one's start is known only after it.
    while at < n {
        let length = piece(s, Bit { byte: at, ..start }, room);
        let fed = taken(chain, mem, &room[..length]);
        // Kept: C interface: the number is a field of `Answer`.
        if fed.answer.number != MORE {
            return fed;
        }
        chain = fed.chain;
        at += length;
    }
    Fed::going_on(chain)
}

// However they stand in the slice.
pub fn load(c: Chain, mem: &mut [u8], bytes: BytesAfter, room: &mut [u8]) -> Fed
    requires { 0 < length room.old }
    ensures value { result ≡ fed_of (run_of (run c mem.old more) (bytes_after bytes.entry.stream.now bytes.entry.p)) }
    ensures mem_after { mem.new ≡ (run_of (run c mem.old more) (bytes_after bytes.entry.stream.now bytes.entry.p)).memory }
{
    let start = bytes.start();
    if start.bit == 0 {
        return load_rest(c, mem, bytes.stream, start.byte);
    }
    load_pieces(c, mem, bytes.stream, start, room)
}
