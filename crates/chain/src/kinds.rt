// Kinds of device, their sizes, and where a device's memory begins.
ghost use Rattle.std.specs.Prelude.{◌≡◌, ◌≤◌};
ghost use Rattle.chain.specs.KnownKinds.{kind_number, AsKind};
ghost use Rattle.chain.specs.Kinds.{size_of, size_here, base_of};

use crate::Chain;
use crate::eight::at8;
use crate::refusal::Refusal;

// Document 01's table: two constant arrays, and one lookup that is proved once for every kind.
const KINDS: [u8; 5] = [0, 2, 3, 5, 10];

const SIZES: [u16; 5] = [52, 2665, 4141, 8065, 16381];

// Each kind has its number in the guide; the first is the guide's teaching array.
#[derive(Clone, Copy, Debug, PartialEq, Eq)]
pub enum Kind {
    Teaching = 0,
    At6002 = 2,
    At6003 = 3,
    At6005 = 5,
    At6010 = 10,
}

impl Kind {
    pub fn number(self) -> u8
        ensures { result ≡ kind_number self }
    {
        self as u8
    }

    // How many bytes of memory a device of this kind has.
    pub fn size(self) -> u16
        ensures value { result ≡ size_of (kind_number self) }
        ensures bounds { (52 ≤ result) × (result ≤ 16381) }
    {
        size_of(self.number())
    }
}

impl TryFrom<u8> for Kind {
    type Error = Refusal;

    ghost try_from_gives = { AsKind };

    #[tactic(auto, unfolding(crate::specs::Kinds::size_of))]
    fn try_from(kind: u8) -> Result<Self, Refusal> {
        match kind {
            0 => Ok(Kind::Teaching),
            2 => Ok(Kind::At6002),
            3 => Ok(Kind::At6003),
            5 => Ok(Kind::At6005),
            10 => Ok(Kind::At6010),
            _ => Err(Refusal::BadChain),
        }
    }
}

// The size of a kind, 0 for an unknown one. From the last row to the first and to the end, whatever is found: with no way out in
// between the compiler needs no table in memory.
pub fn size_of(kind: u8) -> u16
    ensures { result ≡ size_of kind }
{
    let mut size: u16 = 0;
    for i in (0..KINDS.len()).rev() {
        if KINDS[i] == kind {
            size = SIZES[i];
        }
    }
    size
}

// The size of the run's device.
pub fn size_here(c: Chain) -> u16
    ensures { result ≡ size_here c }
{
    size_of(at8(c.kinds, c.place.device))
}

// Where the memory of a device begins. The bound is what makes an address safe to add up.
pub fn base_of(kinds: [u8; 8], device: u8) -> usize
    ensures value { result ≡ base_of kinds device }
    ensures upper_bound { result ≤ 524280 }
{
    let mut sum: usize = 0;
    for kind in &kinds[..usize::from(device).min(8)] {
        sum += usize::from(size_of(*kind));
    }
    sum
}
