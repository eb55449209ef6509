// Where a reading stops before its end.
ghost use Rattle.std.specs.Prelude.{◌≡◌, length};
ghost use Rattle.chain.specs.declared.refusal.Refusal.TheVariants.{UsedUp};

use chain::refusal::Refusal;

// Why a reading stops, and the bytes taken: the refused byte is one of them.
#[derive(Clone, Copy, Debug, PartialEq, Eq)]
pub struct Stopped {
    pub refusal: Refusal,
    pub taken: usize,
}

impl Stopped {
    pub(crate) fn refused(refusal: Refusal, taken: usize) -> Stopped
        ensures { result ≡ record { refusal = refusal; taken = taken } }
    {
        Stopped { refusal, taken }
    }

    // The stream is used up.
    pub(crate) fn used_up(s: &[u8]) -> Stopped
        ensures { result ≡ record { refusal = UsedUp; taken = length s.now } }
    {
        Stopped {
            refusal: Refusal::UsedUp,
            taken: s.len(),
        }
    }
}

// A call that is refused before a byte is read has taken none.
impl From<Refusal> for Stopped {
    ghost from_gives = { λ refusal e. e ≡ record { refusal = refusal; taken = 0 } };

    fn from(refusal: Refusal) -> Stopped {
        Stopped { refusal, taken: 0 }
    }
}
