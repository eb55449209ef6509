// The window lister: the windows of a stream for one freshly reset device.
#![tactic(auto)]

ghost use Rattle.std.specs.Prelude.{◌≡◌, ◌+◌, ◌^◌, ◌≤◌, ◌<◌, length, IfErr};
ghost use Rattle.std.proofs.lemmas.List.Edits.{sets};
ghost use Rattle.chain.specs.Paper.{done};
ghost use Rattle.reader.specs.Stops.{stop};
ghost use Rattle.reader.specs.Stream.{head_length};
ghost use Rattle.reader.specs.Walk.{windows_left};
ghost use Rattle.lister.specs.Listing.{listed_of, starts_of, ends_of, offsets_of, refused_as, answer_of, Lists};

use chain::kinds::Kind;
use chain::mode::Mode;
use chain::paper::*;
use chain::refusal::Refusal;
use reader::stop::Stopped;
use reader::stream::{HEAD_LENGTH, preamble_at, read_stream};
use reader::whole::Windows;

// All but the number and the bytes taken are 0 unless the number is 0.
// Kept: C interface: at6000_list answers it.
#[repr(C)]
#[derive(Clone, Copy)]
pub struct Listed {
    pub number: u8,
    pub windows: u8,
    pub control: u8,
    pub address: [u8; 3],
    pub taken: u32,
}

// What is answered with a refusal.
fn refused(e: Stopped) -> Listed
    requires { e.taken < 2 ^ 32 }
    ensures { result ≡ refused_as e }
{
    Listed {
        number: e.refusal.number(),
        windows: 0,
        control: 0,
        address: [0; 3],
        taken: e.taken as u32,
    }
}

// What is answered of a stream that is listed, the preamble before the control byte at p.
fn accepted(s: &[u8], p: usize, taken: usize) -> Listed
    requires { (p + head_length ≤ length s.now) × (taken < 2 ^ 32) }
    ensures { result ≡ listed_of s.now p (stop done taken) }
{
    Listed {
        number: DONE,
        windows: NO_WINDOWS - s[p + 5],
        control: s[p + 1],
        address: [s[p + 2], s[p + 3], s[p + 4]],
        taken: taken as u32,
    }
}

// Kept: C interface: at6000_list is lent three tables, and they stay three down to the loop that fills them.
// The tables of the windows, which are known to fit, the preamble before their control byte at p.
fn fill(windows: Windows, p: usize, starts: &mut [u16], ends: &mut [u16], offsets: &mut [u32])
    requires { (p ≤ 1) × (windows.at ≡ p + head_length)
        × (windows.left ≤ length starts.old) × (windows.left ≤ length ends.old) × (windows.left ≤ length offsets.old) }
    ensures starts_after { starts.new ≡ sets starts.old 0 (starts_of (windows_left windows.entry)) }
    ensures ends_after { ends.new ≡ sets ends.old 0 (ends_of (windows_left windows.entry)) }
    ensures offsets_after { offsets.new ≡ sets offsets.old 0 (offsets_of p (windows_left windows.entry)) }
{
    for (i, w) in windows.enumerate() {
        starts[i] = w.bounds.start;
        ends[i] = w.bounds.end;
        offsets[i] = (w.first - p) as u32;
    }
}

// What lists a stream, or refuses to. Two passes: nothing is written before the stream is known to be whole and to fit.
fn listing(
    kind: u8,
    mode: u8,
    s: &[u8],
    starts: &mut [u16],
    ends: &mut [u16],
    offsets: &mut [u32],
) -> Result<Listed, Stopped>
    ensures lists { Lists kind mode s.now starts.old ends.old offsets.old (answer_of result) starts.new ends.new offsets.new }
    ensures small { IfErr result (λ e. e.taken < 2 ^ 32) }
{
    let size = Kind::try_from(kind)?.size();
    Mode::try_from(mode)?;
    let taken = read_stream(size, mode, s)?;
    let p = preamble_at(mode);
    let left = NO_WINDOWS - s[p + 5];
    let n = left as usize;
    if (starts.len() < n) | (ends.len() < n) | (offsets.len() < n) {
        return Err(Stopped {
            refusal: Refusal::TooShort,
            taken,
        });
    }
    let at = p + HEAD_LENGTH;
    fill(Windows { size, s, left, at }, p, starts, ends, offsets);
    Ok(accepted(s, p, taken))
}

// Lists a stream in a mode, read as a write; in modes 3 and 4 it is the hunted bytes.
pub fn list(
    kind: u8,
    mode: u8,
    s: &[u8],
    starts: &mut [u16],
    ends: &mut [u16],
    offsets: &mut [u32],
) -> Listed
    ensures { Lists kind mode s.now starts.old ends.old offsets.old result starts.new ends.new offsets.new }
{
    listing(kind, mode, s, starts, ends, offsets).unwrap_or_else(refused)
}
