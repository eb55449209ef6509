// How a script is read: the sixteen bytes that begin each call, and numbers out of its arguments, high byte first and 0 past their end.

// A call: its letter, three small numbers, and how long are the memory, the output, the two tables and the arguments that it is lent.
#[derive(Clone, Copy)]
pub struct Call {
    pub letter: u8,
    pub a: u8,
    pub b: u8,
    pub c: u8,
    pub mem: usize,
    pub out: usize,
    pub starts: usize,
    pub ends: usize,
    pub args: usize,
}

impl From<[u8; 16]> for Call {
    fn from(head: [u8; 16]) -> Call {
        let mut s = Args::new(&head);
        Call {
            letter: s.byte(),
            a: s.byte(),
            b: s.byte(),
            c: s.byte(),
            mem: s.length(),
            out: s.length(),
            starts: usize::from(s.word()),
            ends: usize::from(s.word()),
            args: usize::from(s.word()),
        }
    }
}

// Arguments that are read from the front; past their end stand zeros.
#[derive(Drop)]
pub struct Args<'a> {
    rest: &'a [u8],
}

impl<'a> Args<'a> {
    pub fn new(args: &'a [u8]) -> Args<'a> {
        Args { rest: args }
    }

    pub fn bytes<const N: usize>(&mut self) -> [u8; N] {
        let mut next = [0; N];
        let (front, rest) = self.rest.split_at(N.min(self.rest.len()));
        cells::copy(&mut next, front);
        self.rest = rest;
        next
    }

    pub fn byte(&mut self) -> u8 {
        u8::from_be_bytes(self.bytes())
    }

    pub fn word(&mut self) -> u16 {
        u16::from_be_bytes(self.bytes())
    }

    pub fn long(&mut self) -> u32 {
        u32::from_be_bytes(self.bytes())
    }

    // A length in three bytes.
    fn length(&mut self) -> usize {
        let [high, middle, low]: [u8; 3] = self.bytes();
        u32::from_be_bytes([0, high, middle, low]) as usize
    }

    // What is left of them.
    pub fn rest(self) -> &'a [u8] {
        self.rest
    }
}
