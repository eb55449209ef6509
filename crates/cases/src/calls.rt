// Each public call, made with what the script lends it; what it answers is printed, and so is the state that it hands back.
use crate::script::{Args, Call};
use crate::sheets;
use crate::show::{Hex, Longs};
use chain::{Chain, Made, Place, Written};
use eprom::{Fetched, Fetcher};
use machine::{Answer, Fed};
use std::io;
use std::io::Print;

// What stands in the lister's tables before the call.
const WORD: u16 = 0xeeee;

const LONG: u32 = 0xeeeeeeee;

// Entries of a table at most.
const ENTRIES: usize = 512;

// The place that the arguments spell, in the order in which it is printed.
fn spelled_place(s: &mut Args) -> Place {
    Place {
        running: s.byte(),
        mode: s.byte(),
        check: s.byte(),
        device: s.byte(),
        awaited: s.byte(),
        left: s.byte(),
        control: s.byte(),
        start: s.word(),
        end: s.word(),
        next: s.word(),
        taken: s.long(),
        mismatches: s.long(),
    }
}

// The state that the arguments spell; what they do not reach is 0. So a field that a place gets later is spelled behind the mismatches, and printed
// there where it is not 0: no line without it moves.
fn spelled_chain(s: &mut Args) -> Chain {
    Chain {
        count: s.byte(),
        kinds: s.bytes(),
        registers: s.bytes(),
        place: spelled_place(s),
    }
}

fn spelled_fetcher(s: &mut Args) -> Fetcher {
    Fetcher {
        counter: s.long(),
        control: s.byte(),
        address: s.bytes(),
        nulled: s.byte(),
    }
}

// The call m fills memory: a, a + b, a + 2b and so on.
pub fn fill(call: Call, mem: &mut [u8]) {
    let mut next = call.a;
    for cell in mem {
        *cell = next;
        next = next.wrapping_add(call.b);
    }
}

// The call e lays bytes into the EPROM from an address on.
pub fn burn(call: Call, e: &mut [u8], args: &[u8]) {
    let from = call.mem.min(e.len());
    cells::copy(&mut e[from..], args);
}

fn answer(to: &impl Print, a: Answer) -> io::Result<()> {
    print!(to; " {:02x} {:08x} {:08x}", a.number, a.taken, a.mismatches)
}

fn written(to: &impl Print, w: Written) -> io::Result<()> {
    print!(to; " {:02x} {:08x}", w.number, w.length)
}

// Kept: C interface: the writer and the lister take their tables beside one another (two places).
fn write(to: &impl Print, call: Call, args: &[u8], out: &mut [u8]) -> io::Result<()> {
    let mut starts = [0; ENTRIES];
    let mut ends = [0; ENTRIES];
    let starts = &mut starts[..call.starts.min(ENTRIES)];
    let ends = &mut ends[..call.ends.min(ENTRIES)];
    let mut args = Args::new(args);
    let address = args.bytes();
    for start in starts.iter_mut() {
        *start = args.word();
    }
    for end in ends.iter_mut() {
        *end = args.word();
    }
    let w = writer::write(
        call.a,
        call.b,
        call.c,
        address,
        starts,
        ends,
        args.rest(),
        out,
    );
    written(to, w)
}

fn list(to: &impl Print, call: Call, s: &[u8]) -> io::Result<()> {
    let mut starts = [WORD; ENTRIES];
    let mut ends = [WORD; ENTRIES];
    let mut offsets = [LONG; ENTRIES];
    let starts = &mut starts[..call.starts.min(ENTRIES)];
    let ends = &mut ends[..call.ends.min(ENTRIES)];
    let offsets = &mut offsets[..call.out.min(ENTRIES)];
    let l = lister::list(call.a, call.b, s, starts, ends, offsets);
    print!(to;
        " {:02x} {:02x} {:02x} {}",
        l.number,
        l.windows,
        l.control,
        Hex(&l.address)
    )?;
    print!(to;
        " {:08x} {} {}{}",
        l.taken,
        Hex(starts),
        Hex(ends),
        Longs(offsets)
    )
}

// What goes from call to call: the state, and the fetcher that a board has beside it.
#[derive(Clone, Copy)]
pub struct Board {
    chain: Chain,
    fetcher: Fetcher,
}

impl Board {
    // All zero.
    pub fn new() -> Board {
        Board {
            chain: spelled_chain(&mut Args::new(&[])),
            fetcher: spelled_fetcher(&mut Args::new(&[])),
        }
    }

    // Each of these takes over what a call hands back, and prints it.
    fn take_chain(&mut self, to: &impl Print, c: Chain) -> io::Result<()> {
        self.chain = c;
        let p = c.place;
        let bytes = [
            p.running, p.mode, p.check, p.device, p.awaited, p.left, p.control,
        ];
        let words = [p.start, p.end, p.next];
        print!(to; " {:02x} {} {}", c.count, Hex(&c.kinds), Hex(&c.registers))?;
        print!(to;
            " {} {} {:08x} {:08x}",
            Hex(&bytes),
            Hex(&words),
            p.taken,
            p.mismatches
        )
    }

    fn take_fetcher(&mut self, to: &impl Print, f: Fetcher) -> io::Result<()> {
        self.fetcher = f;
        print!(to;
            " {:08x} {:02x} {} {:02x}",
            f.counter,
            f.control,
            Hex(&f.address),
            f.nulled
        )
    }

    fn made(&mut self, to: &impl Print, m: Made) -> io::Result<()> {
        print!(to; " {:02x}", m.number)?;
        self.take_chain(to, m.chain)
    }

    fn fed(&mut self, to: &impl Print, f: Fed) -> io::Result<()> {
        answer(to, f.answer)?;
        self.take_chain(to, f.chain)
    }

    fn fetched(&mut self, to: &impl Print, f: Fetched) -> io::Result<()> {
        answer(to, f.answer)?;
        self.take_chain(to, f.chain)?;
        self.take_fetcher(to, f.fetcher)
    }

    // Makes the call with what it is lent. Any other letter leaves all as it is.
    // Kept: no plainer: each letter stands beside its call, where an enum of them would name it once more.
    pub fn make(
        &mut self,
        to: &impl Print,
        call: Call,
        args: &[u8],
        mem: &mut [u8],
        e: &[u8],
        out: &mut [u8],
    ) -> io::Result<()> {
        let c = self.chain;
        let f = self.fetcher;
        match call.letter {
            b'=' => self.take_chain(to, spelled_chain(&mut Args::new(args))),
            b'n' => self.made(to, chain::new(call.a, Args::new(args).bytes(), mem)),
            b'r' => self.made(to, chain::reset(c, mem)),
            b's' => self.made(to, machine::start(c, mem, call.a, call.b)),
            b'd' => self.made(to, machine::drop(c, mem)),
            b'b' => self.fed(to, machine::byte(c, mem, call.a)),
            b'f' => self.fed(to, machine::slice(c, mem, args)),
            b'p' => self.made(to, saved::pick_up(c, mem, args)),
            b'g' => self.take_fetcher(to, spelled_fetcher(&mut Args::new(args))),
            b'i' => self.take_fetcher(to, eprom::fetcher_new(call.a)),
            b'x' => {
                let n = Args::new(args).long() as usize;
                let lent = &e[..call.out.min(e.len())];
                self.fetched(to, eprom::fetch(c, f, mem, lent, n))
            }
            b'c' => written(to, closing::closing(c, mem, out)),
            b'v' => written(to, saved::save(c, mem, out)),
            b'h' => {
                let h = hunt::hunt(args, out);
                print!(to;
                    " {:02x} {:02x} {:02x} {:08x}",
                    h.number, h.p, h.left, h.length
                )
            }
            b't' => written(to, tidy::tidy(call.a, args, out)),
            b'k' => {
                let r = salvage::salvage(call.a, args, out);
                print!(to;
                    " {:02x} {:02x} {:02x} {:02x}",
                    r.number, r.kept, r.announced, r.end
                )?;
                print!(to; " {:08x} {:08x}", r.offset, r.length)
            }
            b'y' => sheets::load(to, call, args, out),
            b'w' => write(to, call, args, out),
            b'l' => list(to, call, args),
            b'#' => to.write_all(args),
            _ => Ok(()),
        }
    }
}
