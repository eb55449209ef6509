// The address counter: 17 bits, up by one each byte, in mode 2 down.
ghost use Rattle.std.specs.Prelude.{◌≡◌, ◌==◌};
ghost use Rattle.chain.specs.Paper.{downward};
ghost use Rattle.eprom.specs.Counter.{fetches, home_of};

use chain::mode::Mode;

// How many values it has, and the last of them.
pub const COUNTS: u32 = 0x20000;

pub const LAST_COUNT: u32 = 0x1ffff;

// The modes that boot from an EPROM.
pub fn is_fetched(mode: u8) -> bool
    ensures { result ≡ fetches mode }
{
    matches!(
        Mode::try_from(mode),
        Ok(Mode::Upward | Mode::Downward | Mode::EpromInternal)
    )
}

// The mode whose counter goes down.
pub fn counts_down(mode: u8) -> bool
    ensures { result ≡ (mode == downward) }
{
    matches!(Mode::try_from(mode), Ok(Mode::Downward))
}

// Where it starts, and what resets it.
#[tactic(auto, unfolding(crate::specs::Counter::home_of))]
pub fn home(mode: u8) -> u32
    ensures { result ≡ home_of mode }
{
    if counts_down(mode) { LAST_COUNT } else { 0 }
}
