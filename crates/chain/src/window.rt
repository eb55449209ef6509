// A window of cells: bounds of two bytes, how many cells it covers, and whether a device has it.
ghost use Rattle.std.specs.Prelude.{◌≡◌, ◌≤◌};
ghost use Rattle.chain.specs.Refusal.{answered};
ghost use Rattle.chain.specs.Window.{word, with_low, width_of, fits_of, window_number, framing_of};

use crate::refusal::Refusal;

const NULL: u8 = 0x00;

// The cells from start to end, both among them.
#[derive(Clone, Copy, Debug, PartialEq, Eq)]
pub struct Window {
    pub start: u16,
    pub end: u16,
}

impl Window {
    // How many cells; 1 where end is below start, so that no caller owes an order.
    pub fn width(self) -> usize
        ensures value { result ≡ width_of self.start self.end }
        ensures upper_bound { result ≤ 65536 }
    {
        usize::from(self.end.saturating_sub(self.start)) + 1
    }

    // Whether a device of that size has it.
    pub fn fits(self, size: u16) -> bool
        ensures { result ≡ fits_of size self.start self.end }
    {
        (self.start < size) & (self.start <= self.end) & (self.end < size)
    }

    // What refuses it in a device of that size.
    pub fn tested(self, size: u16) -> Result<(), Refusal>
        ensures { answered result ≡ window_number size self.start self.end }
    {
        if size <= self.start {
            return Err(Refusal::BadStart);
        }
        if (self.end < self.start) | (size <= self.end) {
            return Err(Refusal::BadEnd);
        }
        Ok(())
    }

    // The five bytes before its data.
    pub fn framing(self) -> [u8; 5]
        ensures { result ≡ framing_of self.start self.end }
    {
        let [start_high, start_low] = self.start.to_be_bytes();
        let [end_high, end_low] = self.end.to_be_bytes();
        [NULL, start_high, start_low, end_high, end_low]
    }
}

// A number of two bytes, the high one first.
pub fn pair(high: u8, low: u8) -> u16
    ensures { result ≡ word high low }
{
    u16::from_be_bytes([high, low])
}

// The same number with another low byte.
pub fn with_low(x: u16, low: u8) -> u16
    ensures { result ≡ with_low x low }
{
    let [high, _] = x.to_be_bytes();
    u16::from_be_bytes([high, low])
}
