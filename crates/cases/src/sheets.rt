// The load sheet, with the streams and the lengths that the script spells; its sums and its rows are printed.
ghost use Rattle.std.specs.Prelude.{◌<◌, ◌^◌};

use crate::script::{Args, Call};
use crate::show::{Longs, Rows};
use std::io;
use std::io::Print;

// One length more than a sheet takes, and six figures for each; and room for a short sheet, since most are.
const LENGTHS: usize = 65537;

const FIGURES: usize = 393222;

const FEW_LENGTHS: usize = 64;

const FEW_FIGURES: usize = 384;

// What stands in the figures before the call.
const LENT: u32 = 0xeeeeeeee;

// The call with m lengths and n figures, and room for so many of each. The first lengths are spelled, and behind them come the streams; a length
// that is not spelled is 0.
fn in_room<const LENGTHS: usize, const FIGURES: usize>(
    to: &impl Print,
    call: Call,
    mut args: Args,
    m: usize,
    n: usize,
    numbers: &mut [u8],
) -> io::Result<()>
    requires lengths { LENGTHS < 2 ^ 32 }
    requires figures { FIGURES < 2 ^ 32 }
{
    let mut lengths = [0; LENGTHS];
    let mut figures = [LENT; FIGURES];
    let lengths = &mut lengths[..m.min(LENGTHS)];
    let figures = &mut figures[..n.min(FIGURES)];
    for length in lengths.iter_mut().take(call.starts) {
        *length = args.long();
    }
    let r = sheet::load_sheet(call.a, call.b, args.rest(), lengths, numbers, figures);
    let sums = [r.taken, r.data, r.cells, r.again, r.bits, r.edges];
    print!(to; " {:02x}{}{}", r.number, Longs(&sums), Rows(figures))
}

// The arguments are how many lengths there are, how many figures are lent, the first lengths, and the streams.
pub fn load(to: &impl Print, call: Call, args: &[u8], numbers: &mut [u8]) -> io::Result<()> {
    let mut args = Args::new(args);
    let m = args.long() as usize;
    let n = args.long() as usize;
    if m <= FEW_LENGTHS && n <= FEW_FIGURES {
        in_room::<FEW_LENGTHS, FEW_FIGURES>(to, call, args, m, n, numbers)
    } else {
        in_room::<LENGTHS, FIGURES>(to, call, args, m, n, numbers)
    }
}
