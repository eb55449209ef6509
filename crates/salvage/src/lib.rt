// Salvage: the whole windows of a stream, be it accepted, refused or broken off, written as a sound stream, and a list of what was changed.
#![tactic(auto)]

ghost use Rattle.std.specs.Prelude.{◌≡◌, ◌≤◌, ◌<◌, eqb, length};
ghost use Rattle.arrayvec.specs.ArrayVec.{array_vec_len};
ghost use Rattle.chain.specs.Paper.{done};
ghost use Rattle.chain.specs.Refusal.{answered, number_of};
ghost use Rattle.chain.specs.Rules.{pick};
ghost use Rattle.reader.specs.Windows.{windows_of};
ghost use Rattle.reader.specs.Stream.{head_length, check_stop};
ghost use Rattle.salvage.specs.Salvage.{Salvages};
ghost use Rattle.salvage.specs.Steps.{kept_in, answer_of, kept_of, reaches_of, end_of, nulls_out, laid_over};

use arrayvec::ArrayVec;
use cells::copy;
use chain::kinds::Kind;
use chain::paper::*;
use chain::refusal::Refusal;
use reader::stream::{HEAD_LENGTH, check};
use reader::window::read_window;

// Kept: C interface: at6000_salvage answers it.
// All but the number are 0 unless the number is 0. end is 0 where the stream was accepted, its refusal, or 16 where it was used up.
#[repr(C)]
#[derive(Clone, Copy)]
pub struct Salvaged {
    pub number: u8,
    pub kept: u8,
    pub announced: u8,
    pub end: u8,
    pub offset: usize,
    pub length: usize,
}

// The windows that are kept: the byte after the last, and why the next is not, where more were announced.
#[derive(Clone, Copy)]
struct Front {
    offset: usize,
    next: Result<(), Refusal>,
}

fn refused(refusal: Refusal) -> Salvaged
    ensures { result ≡ record { number = number_of refusal; kept = 0; announced = 0; end = 0; offset = 0; length = 0 } }
{
    Salvaged {
        number: refusal.number(),
        kept: 0,
        announced: 0,
        end: 0,
        offset: 0,
        length: 0,
    }
}

// Windows one after another, before the first that is not whole. How far each reaches past its first cell is noted: to find a window waits for the one
// before it to be read, and so none is read twice.
fn keep(size: u16, s: &[u8], n: u8, reaches: &mut ArrayVec<u16, 255>) -> Front
    requires { array_vec_len reaches.old ≡ 0 }
    ensures front_value { kept_in result (array_vec_len reaches.new) ≡ kept_of size s.now n head_length }
    ensures reaches_after { reaches.new.items ≡ reaches_of (windows_of size s.now n head_length) }
{
    let mut offset = HEAD_LENGTH;
    for _ in 0..n {
        match read_window(size, s, offset) {
            Ok(w) => {
                reaches.push(w.bounds.end - w.bounds.start);
                offset = w.next;
            }
            Err(e) => {
                let next = Err(e.refusal);
                return Front { offset, next };
            }
        }
    }
    let next = Ok(());
    Front { offset, next }
}

// How the stream ended: why the next window was not kept, or what the check byte says.
fn ended(front: Front, control: u8, s: &[u8]) -> Result<(), Refusal>
    ensures { answered result ≡ pick (eqb (answered front.next) done) (check_stop control s.now front.offset).number (answered front.next) }
{
    front.next?;
    match check(control, s, front.offset) {
        Ok(_) => Ok(()),
        Err(e) => Err(e.refusal),
    }
}

// Null bytes 00, where windows stand one after another that reach so far past their first cells.
fn nulls_out(reaches: &[u16], out: &mut [u8])
    requires { (length reaches.now ≤ 255) × (end_of head_length reaches.now ≤ length out.old) }
    ensures { out.new ≡ nulls_out head_length reaches.now out.old }
{
    let mut at = HEAD_LENGTH;
    for reach in reaches {
        out[at] = 0x00;
        at += 6 + usize::from(*reach);
    }
}

// The sound stream of the windows of s that reach so far, which end before offset. They stand there where they stand in s, so that one copy takes them all.
fn put(s: &[u8], reaches: &[u16], offset: usize, out: &mut [u8])
    requires { (length reaches.now ≤ 255) × (5 < offset) × (offset ≤ length s.now) × (offset < length out.old)
        × (end_of head_length reaches.now ≤ offset) }
    ensures { out.new ≡ laid_over s.now (length reaches.now) reaches.now offset out.old }
{
    copy(out, &s[..offset]);
    out[5] = NO_WINDOWS - reaches.len() as u8;
    nulls_out(reaches, out);
    out[offset] = POSTAMBLE;
}

// The change list of a salvaged stream, or what refuses it: nothing is written then.
fn mended(kind: u8, s: &[u8], out: &mut [u8]) -> Result<Salvaged, Refusal>
    ensures { Salvages kind s.now out.old (answer_of result) out.new }
{
    let size = Kind::try_from(kind)?.size();
    if s.len() < HEAD_LENGTH {
        return Err(Refusal::NoHead);
    }
    if s[0] != PREAMBLE {
        return Err(Refusal::NoPreamble);
    }
    let announced = NO_WINDOWS - s[5];
    let mut reaches = ArrayVec::new();
    let front = keep(size, s, announced, &mut reaches);
    let offset = front.offset;
    if out.len() <= offset {
        return Err(Refusal::TooShort);
    }
    let end = match ended(front, s[1], s) {
        Ok(()) => DONE,
        Err(refusal) => refusal.number(),
    };
    let kept = reaches.len() as u8;
    put(s, reaches.as_slice(), offset, out);
    Ok(Salvaged {
        number: DONE,
        kept,
        announced,
        end,
        offset,
        length: offset + 1,
    })
}

// Keeps what is whole of a stream in mode 1 for one device.
pub fn salvage(kind: u8, s: &[u8], out: &mut [u8]) -> Salvaged
    ensures { Salvages kind s.now out.old result out.new }
{
    mended(kind, s, out).unwrap_or_else(refused)
}
