// The modes of configuration: how a stream is brought to the first device.
ghost use Rattle.std.specs.Prelude.{◌≡◌};
ghost use Rattle.chain.specs.Paper.{serial};
ghost use Rattle.chain.specs.Mode.{mode_number, AsMode};

use crate::refusal::Refusal;

// Each mode has its number in the guide. Two of them read an EPROM upward, `Upward` and `EpromInternal`, and one downward.
#[derive(Clone, Copy, Debug, PartialEq, Eq)]
pub enum Mode {
    Upward = 1,
    Downward = 2,
    SerialExternal = 3,
    SerialInternal = 4,
    EpromInternal = 5,
    TwoPreambles = 6,
}

impl Mode {
    pub fn number(self) -> u8
        ensures { result ≡ mode_number self }
    {
        self as u8
    }

    // The modes whose streams come as bits.
    pub fn is_serial(self) -> bool
        ensures { result ≡ serial (mode_number self) }
    {
        matches!(self, Mode::SerialExternal | Mode::SerialInternal)
    }
}

impl TryFrom<u8> for Mode {
    type Error = Refusal;

    ghost try_from_gives = { AsMode };

    fn try_from(mode: u8) -> Result<Self, Refusal> {
        match mode {
            1 => Ok(Mode::Upward),
            2 => Ok(Mode::Downward),
            3 => Ok(Mode::SerialExternal),
            4 => Ok(Mode::SerialInternal),
            5 => Ok(Mode::EpromInternal),
            6 => Ok(Mode::TwoPreambles),
            _ => Err(Refusal::BadMode),
        }
    }
}
