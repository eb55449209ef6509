// An open run and its device.
ghost use Rattle.std.specs.Prelude.{◌≡◌, ◌≤◌};
ghost use Rattle.chain.specs.Kinds.{base_of, size_here};

use chain::Chain;
use chain::kinds::{base_of, size_here};

// An open run's chain, and what its blocks ask of the run's device, found once: where the device's memory begins, and its size.
#[derive(Clone, Copy)]
pub struct Here {
    pub chain: Chain,
    pub base: usize,
    pub size: u16,
    ghost begins: { base ≡ base_of chain.kinds chain.place.device },
    ghost small: { base ≤ 524280 },
    ghost covers: { size ≡ size_here chain },
}

impl Here {
    #[inline(always)]
    pub fn new(chain: Chain) -> Here
        ensures { result.chain ≡ chain }
    {
        Here {
            chain,
            base: base_of(chain.kinds, chain.place.device),
            size: size_here(chain),
        }
    }

    // Another place in the same device.
    #[inline(always)]
    pub fn moved(self, chain: Chain) -> Here
        requires { (chain.kinds ≡ self.chain.kinds) × (chain.place.device ≡ self.chain.place.device) }
        ensures chain { result.chain ≡ chain }
        ensures same_device { (result.base ≡ self.base) × (result.size ≡ self.size) }
    {
        Here {
            chain,
            base: self.base,
            size: self.size,
        }
    }
}
