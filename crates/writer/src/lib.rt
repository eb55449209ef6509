// The stream writer for one device. All is tested, and the length worked out, before a byte is written.
#![tactic(auto)]

mod blocks;
mod put;
mod tables;

ghost use Rattle.chain.specs.Refusal.{answered, length_in};
ghost use Rattle.writer.specs.Write.{Write};

use chain::Written;
use chain::kinds::Kind;
use chain::mode::Mode;
use chain::refusal::Refusal;
use put::lead_in;
use tables::Tables;

// The same as `write` with the refusal itself.
fn try_write(
    kind: u8,
    mode: u8,
    control: u8,
    address: [u8; 3],
    starts: &[u16],
    ends: &[u16],
    cells: &[u8],
    out: &mut [u8],
) -> Result<usize, Refusal>
    ensures { Write kind mode control address starts.now ends.now cells.now out.old
        (record { number = answered result; length = length_in result }) out.new }
{
    let size = Kind::try_from(kind)?.size();
    let mode = Mode::try_from(mode)?;
    let tables = Tables::new(starts, ends)?;
    if cells.len() != tables.sum(size)? {
        return Err(Refusal::BadData);
    }
    if out.len() < lead_in(mode).len() + 6 + 5 * starts.len() + cells.len() {
        return Err(Refusal::TooShort);
    }
    Ok(put::stream(mode, control, address, tables, cells, out))
}

// Writes the stream of these windows; `cells` is their data, one window's after another's.
// Kept: C interface: at6000_write lends two tables and asks for kind and mode as bytes, and answers a Written.
pub fn write(
    kind: u8,
    mode: u8,
    control: u8,
    address: [u8; 3],
    starts: &[u16],
    ends: &[u16],
    cells: &[u8],
    out: &mut [u8],
) -> Written
    ensures { Write kind mode control address starts.now ends.now cells.now out.old result out.new }
{
    Written::from(try_write(kind, mode, control, address, starts, ends, cells, out))
}
