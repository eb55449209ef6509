// The saved place of document 01, 27 bytes: an open run is written down, and picked up again in the same chain.
#![tactic(auto)]

ghost use Rattle.std.specs.Prelude.{◌≡◌, [], length, IfOk};
ghost use Rattle.chain.specs.Output.{Writes};
ghost use Rattle.chain.specs.Refusal.{answered, length_in};
ghost use Rattle.saved.specs.Fields.{packed, Fit};
ghost use Rattle.saved.specs.Layout.{head_rows, rows, form1, widths, values, saved_bytes};
ghost use Rattle.saved.specs.Reads.{Reads};
ghost use Rattle.saved.specs.Calls.{save_number, pick_up_number, picked_up, Save, PickUp};

use chain::paper::*;
use chain::refusal::Refusal;
use chain::state::{open, sound};
use chain::{Chain, Made, Place, Written};

// The bytes: 0 the head (form, mode, check, device, awaited, a zero bit, windows left, zero); 4 start; 6 end; 8 next cell;
// 10 bytes taken; 14 mismatches; 18 the registers; 26 the control byte. Numbers stand with their most significant byte first.
pub const SAVED_LENGTH: usize = 27;

const SAVED_FORM: u32 = 1;

// The first four bytes; the zero bits are what the shifts leave.
fn head(p: Place) -> u32
    requires { Fit (widths head_rows) (values form1.number head_rows [] p) }
    ensures { result ≡ packed (widths head_rows) (values form1.number head_rows [] p) }
{
    (SAVED_FORM << 28)
        | ((u32::from(p.mode) << 25)
            | ((u32::from(p.check) << 24)
                | ((u32::from(p.device) << 21)
                    | ((u32::from(p.awaited) << 17) | (u32::from(p.left) << 8)))))
}

// What is saved of a chain.
#[derive(Clone, Copy)]
struct Saved {
    registers: [u8; 8],
    place: Place,
}

impl Saved {
    // The bytes of document 01's rows.
    fn bytes(self) -> [u8; SAVED_LENGTH]
        requires { Fit (widths rows) (values form1.number rows self.registers self.place) }
        ensures { result ≡ saved_bytes self.registers self.place }
    {
        let p = self.place;
        let [h0, h1, h2, h3] = head(p).to_be_bytes();
        let [s0, s1] = p.start.to_be_bytes();
        let [e0, e1] = p.end.to_be_bytes();
        let [n0, n1] = p.next.to_be_bytes();
        let [t0, t1, t2, t3] = p.taken.to_be_bytes();
        let [m0, m1, m2, m3] = p.mismatches.to_be_bytes();
        let [r0, r1, r2, r3, r4, r5, r6, r7] = self.registers;
        [
            h0, h1, h2, h3, s0, s1, e0, e1, n0, n1, t0, t1, t2, t3, m0, m1, m2, m3, r0, r1, r2, r3,
            r4, r5, r6, r7, p.control,
        ]
    }
}

// What the bytes hold, where there are 27, of form 1, with zero bits 0.
impl TryFrom<&[u8]> for Saved {
    type Error = Refusal;

    ghost try_from_gives = { λ s r. Reads s.now r };

    fn try_from(s: &[u8]) -> Result<Saved, Refusal> {
        let s: &[u8; SAVED_LENGTH] = s.as_array().ok_or(Refusal::IllFormed)?;
        let head = u32::from_be_bytes([s[0], s[1], s[2], s[3]]);
        let marked = (head >> 28 == SAVED_FORM) & ((head >> 16) & 1 == 0) & (head & 255 == 0);
        if !marked {
            return Err(Refusal::IllFormed);
        }
        let place = Place {
            running: OPENED,
            mode: ((head >> 25) & 7) as u8,
            check: ((head >> 24) & 1) as u8,
            device: ((head >> 21) & 7) as u8,
            awaited: ((head >> 17) & 15) as u8,
            left: ((head >> 8) & 255) as u8,
            control: s[26],
            start: u16::from_be_bytes([s[4], s[5]]),
            end: u16::from_be_bytes([s[6], s[7]]),
            next: u16::from_be_bytes([s[8], s[9]]),
            taken: u32::from_be_bytes([s[10], s[11], s[12], s[13]]),
            mismatches: u32::from_be_bytes([s[14], s[15], s[16], s[17]]),
        };
        let registers = [s[18], s[19], s[20], s[21], s[22], s[23], s[24], s[25]];
        Ok(Saved { registers, place })
    }
}

// Writes the open run down; the run stays open.
pub fn save(c: Chain, mem: &[u8], out: &mut [u8]) -> Written
    ensures { Save c mem.now out.old result out.new }
{
    save_front(c, mem.len(), out).into()
}

// The length of what is written over the front of out.
fn save_front(c: Chain, len: usize, out: &mut [u8]) -> Result<usize, Refusal>
    ensures { Writes (save_number c len (length out.old)) (saved_bytes c.registers c.place) out.old
        (record { number = answered result; length = length_in result }) out.new }
{
    open(c, len)?;
    let Some(front) = out.first_chunk_mut() else {
        return Err(Refusal::TooShort);
    };
    let registers = c.registers;
    let place = c.place;
    *front = Saved { registers, place }.bytes();
    Ok(SAVED_LENGTH)
}

// The state that was saved, in a chain with no open run; refused, the state is handed back as lent.
pub fn pick_up(c: Chain, mem: &[u8], saved: &[u8]) -> Made
    ensures { PickUp c mem.now saved.now result }
{
    match picked_up(c, mem.len(), saved) {
        Ok(chain) => Made::done(chain),
        Err(refusal) => Made::refused(c, refusal),
    }
}

// The chain with the registers and the place that were saved, where a chain with these is taken.
fn picked_up(c: Chain, len: usize, saved: &[u8]) -> Result<Chain, Refusal>
    ensures number { answered result ≡ pick_up_number c len saved.now }
    ensures chain { IfOk result (λ d. d ≡ picked_up c saved.now) }
{
    sound(c, len)?;
    if c.place.running == OPENED {
        return Err(Refusal::RunOpen);
    }
    let Saved { registers, place } = Saved::try_from(saved)?;
    let chain = Chain {
        registers,
        place,
        ..c
    };
    sound(chain, len)?;
    Ok(chain)
}
