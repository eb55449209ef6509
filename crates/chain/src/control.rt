// A control byte, by what its bits do.
ghost use Rattle.std.specs.Prelude.{◌≡◌, ◌<◌, ◌/◌, ◌%◌, ◌==◌};
ghost use Rattle.chain.specs.Paper.{B0, B1, B2, B3, B4};

use crate::paper::*;

#[derive(Clone, Copy, Debug, PartialEq, Eq)]
pub struct Control(pub u8);

impl Control {
    // The bit of a weight.
    fn bit(self, weight: u8) -> bool
        requires { 0 < weight }
        ensures { result ≡ self.0 / weight % 2 == 1 }
    {
        self.0 / weight % 2 == 1
    }

    // The EPROM's address counter keeps its value at the run's end.
    pub fn keeps_counter(self) -> bool
        ensures { result ≡ B0 self.0 }
    {
        self.bit(BIT_0)
    }

    // The counter jumps at the first device's first null byte.
    pub fn jumps(self) -> bool
        ensures { result ≡ B1 self.0 }
    {
        self.bit(BIT_1)
    }

    // The stream ends at this device.
    pub fn ends_here(self) -> bool
        ensures { result ≡ B2 self.0 }
    {
        self.bit(BIT_2)
    }

    // The device takes no check.
    pub fn bars_checks(self) -> bool
        ensures { result ≡ B3 self.0 }
    {
        self.bit(BIT_3)
    }

    // The device takes no later run.
    pub fn bars_runs(self) -> bool
        ensures { result ≡ B4 self.0 }
    {
        self.bit(BIT_4)
    }
}
