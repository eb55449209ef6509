// Bytes into the front of a lent output, none where there is no room for all of them.
ghost use Rattle.std.specs.Prelude.{◌≡◌, ◌++◌, ◌+◌, ◌≤◌, length, take, drop};
ghost use Rattle.std.proofs.lemmas.List.Edits.{sets};
ghost use Rattle.closing.specs.Put.{Put, told};

use cells::copy;
use chain::refusal::Refusal;

// n cells from at on, as far as memory goes.
pub fn part(mem: &[u8], at: usize, n: usize) -> &[u8]
    ensures { (result.now ≡ take n (drop at mem.now)) × (length result.now ≤ n) }
{
    let rest = mem.get(at..).unwrap_or(&[]);
    &rest[..n.min(rest.len())]
}

// Bytes to the front of out, where there is room: how many.
pub fn put(out: &mut [u8], bytes: &[u8]) -> Result<usize, Refusal>
    ensures { Put bytes.now out.old (told result) out.new }
{
    let n = bytes.len();
    if out.len() < n {
        return Err(Refusal::TooShort);
    }
    copy(out, bytes);
    Ok(n)
}

// The same as put, of three parts one after another: a window's lead, its cells and what follows.
pub fn put_three(out: &mut [u8], lead: &[u8], cells: &[u8], end: &[u8]) -> Result<usize, Refusal>
    requires { (length lead.now ≤ 1) × (length cells.now ≤ 65536) × (length end.now ≤ 3) }
    ensures { Put (lead.now ++ (cells.now ++ end.now)) out.old (told result) out.new }
{
    let i = lead.len();
    let j = i + cells.len();
    let n = j + end.len();
    if out.len() < n {
        return Err(Refusal::TooShort);
    }
    copy(&mut out[..i], lead);
    copy(&mut out[i..j], cells);
    copy(&mut out[j..n], end);
    Ok(n)
}
