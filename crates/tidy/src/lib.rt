// The tidier: one stream in mode 1 for one meaning. The windows' spans are put in order and joined, framed in the output, and the windows' data
// is laid over them in the stream's order, so that the last one stays. Nothing as large as a device is kept.
#![tactic(auto)]

mod given;
mod lay;
mod sort;
mod spans;

ghost use Rattle.std.specs.Prelude.{length};
ghost use Rattle.chain.specs.Output.{Writes};
ghost use Rattle.chain.specs.Refusal.{answered, length_in};
ghost use Rattle.tidy.specs.Tidy.{tidied, Tidies};
ghost use Rattle.tidy.specs.Steps.{room_number};

use chain::Written;
use chain::refusal::Refusal;
use chain::window::Window;
use given::Given;

// The tidied stream of a given one, where it has room.
fn write(given: Given<'_>, out: &mut [u8]) -> Result<usize, Refusal>
    ensures { Writes (room_number (length (tidied given.entry.size given.entry.s.now)) (length out.old)) (tidied given.entry.size given.entry.s.now) out.old
        (record { number = answered result; length = length_in result }) out.new }
{
    let mut table = [Window { start: 0, end: 0 }; 255];
    let mut places = [0; 256];
    let m = spans::gather(given, &mut table[..usize::from(given.n)], &mut places);
    let spans = &table[..m];
    let end = 6 + spans::long(spans);
    if out.len() <= end {
        return Err(Refusal::TooShort);
    }
    lay::stream(given, spans, &places, end, out);
    Ok(end + 1)
}

// The same as `tidy` with the refusal itself.
fn try_tidy(kind: u8, s: &[u8], out: &mut [u8]) -> Result<usize, Refusal>
    ensures { Tidies kind s.now out.old (record { number = answered result; length = length_in result }) out.new }
{
    let given = Given::read(kind, s)?;
    write(given, out)
}

// Tidies a stream for one device; what follows its postamble is not looked at.
// Kept: C interface: at6000_tidy asks for the kind as a byte and answers a Written.
pub fn tidy(kind: u8, s: &[u8], out: &mut [u8]) -> Written
    ensures { Tidies kind s.now out.old result out.new }
{
    Written::from(try_tidy(kind, s, out))
}
