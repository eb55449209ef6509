// Eight kinds or registers: one read, one replaced, those past the first n.
ghost use Rattle.std.specs.Prelude.{◌≡◌, get_or, set};
ghost use Rattle.chain.specs.State.{unused_zero};
ghost use Rattle.chain.specs.Calls.{first_only};

// An element of eight, 0 past them.
pub fn at8(xs: [u8; 8], i: u8) -> u8
    ensures { result ≡ get_or xs i 0 }
{
    xs.get(usize::from(i)).copied().unwrap_or(0)
}

// Eight with one replaced, the same past them.
pub fn with8(xs: [u8; 8], i: u8, v: u8) -> [u8; 8]
    ensures { result ≡ set xs i v }
{
    let mut ys = xs;
    // Kept: proof: tried `if let Some(y) = ys.get_mut(..)`; what the eight hold after it stayed open.
    let at = usize::from(i);
    if at < ys.len() {
        ys[at] = v;
    }
    ys
}

// Past the first n of eight all are zero. The number of turns does not depend on n, so that the compiler makes straight code of them.
pub fn unused_zero(xs: [u8; 8], n: u8) -> bool
    ensures { result ≡ unused_zero xs n }
{
    let first = usize::from(n);
    for (i, x) in xs.iter().enumerate() {
        if i < first {
            continue;
        }
        if *x != 0 {
            return false;
        }
    }
    true
}

// The first n of eight, those past them zero.
pub fn first_only(xs: [u8; 8], n: u8) -> [u8; 8]
    ensures { result ≡ first_only n xs }
{
    let mut ys = xs;
    ys[usize::from(n).min(8)..].fill(0);
    ys
}
