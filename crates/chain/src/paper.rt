// The constants of documents 01 and 02 that are bytes of a stream, of a place or of an answer, by name; specs/Paper.antt has them all. Refusals, modes and
// kinds are types, in refusal.rt, mode.rt and kinds.rt.

// the stream's own bytes
pub const PREAMBLE: u8 = 0xb2;

pub const POSTAMBLE: u8 = 0x4d;

pub const NO_WINDOWS: u8 = 0xff;

// Kept: C interface: the awaited byte of a place is a number that a caller in C lends and reads, and each of the 256 has its answer: so these
// are constants to match on, and no enum.
pub const AT_PREAMBLE: u8 = 0;

pub const AT_SECOND: u8 = 1;

pub const AT_CONTROL: u8 = 2;

pub const AT_ADDRESS: u8 = 3;

pub const AT_ADDRESS2: u8 = 4;

pub const AT_ADDRESS3: u8 = 5;

pub const AT_COUNT: u8 = 6;

pub const AT_NULL: u8 = 7;

pub const AT_START: u8 = 8;

pub const AT_START_LOW: u8 = 9;

pub const AT_END: u8 = 10;

pub const AT_END_LOW: u8 = 11;

pub const AT_DATA: u8 = 12;

pub const AT_CHECK: u8 = 13;

// Kept: C interface: what a place says of itself, closed or open, writing or checking, are bytes for the same reason.
pub const CLOSED: u8 = 0;

pub const OPENED: u8 = 1;

pub const WRITING: u8 = 0;

pub const CHECKING: u8 = 1;

// modes: the first, and the last, which has two preambles
pub const FIRST_MODE: u8 = 1;

pub const TWO_PREAMBLES: u8 = 6;

// a chain: devices and bytes of memory at most
pub const MOST_DEVICES: u8 = 8;

pub const MOST_MEMORY: usize = 65536;

// a load sheet: streams, and bytes of them in all, at most
pub const MOST_STREAMS: usize = 65536;

pub const MOST_BYTES: usize = 67108864;

// the numbers that refuse nothing: all is done, and the slice is used up with the run still open
pub const DONE: u8 = 0;

pub const MORE: u8 = 16;

// document 02, wish 1
pub const BAD_JUMP: u8 = 19;

// control bits by their weight: bit 0 keeps the EPROM's address counter at a run's end, bit 1 makes it jump, bit 2 ends the stream at this device, bit 3
// bars checks, bit 4 bars later runs
pub const BIT_0: u8 = 1;

pub const BIT_1: u8 = 2;

pub const BIT_2: u8 = 4;

pub const BIT_3: u8 = 8;

pub const BIT_4: u8 = 16;
