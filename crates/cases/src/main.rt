// All cases of documents 01 and 02 but the twelve proved ones: a script of calls comes from standard input, each call is made, and a line says what it answered
// and what it left behind. tests/model/cases.py lists the cases, and works out from the paper what this program must print.
#![tactic(auto)]

mod calls;
mod script;
mod sheets;
mod show;

use crate::calls::Board;
use crate::script::Call;
use crate::show::Changes;
use std::io;
use std::io::{ErrorKind, Print, Read};

// Memory has room for a chain that is refused for its total alone: four devices of kind 10 and one of kind 0.
const CELLS: usize = 65576;

// The EPROM has more bytes than a counter of 17 bits reaches.
const EPROM: usize = 131200;

// What stands in it before anything is laid there.
const ERASED: u8 = 0xff;

// Room for the arguments, and for the output.
const ROOM: usize = 65536;

// What stands in the output before the call.
const LENT: u8 = 0xee;

// Whether the input had enough bytes for all of a block; where it has fewer, they stand at its front.
fn filled(from: &mut impl Read, block: &mut [u8]) -> io::Result<bool> {
    match from.read_exact(block) {
        Ok(()) => Ok(true),
        Err(e) if e.kind() == ErrorKind::UnexpectedEof => Ok(false),
        Err(e) => Err(e),
    }
}

// The next call, until the input ends.
fn next_call(from: &mut impl Read) -> io::Result<Option<Call>> {
    let mut head = [0; 16];
    Ok(filled(from, &mut head)?.then(|| Call::from(head)))
}

// What goes from call to call: the board, its memory and its EPROM.
#[derive(Drop)]
struct Bench {
    board: Board,
    mem: [u8; CELLS],
    eprom: [u8; EPROM],
}

impl Bench {
    fn new() -> Bench {
        Bench {
            board: Board::new(),
            mem: [0; CELLS],
            eprom: [ERASED; EPROM],
        }
    }

    // Makes a call with its arguments, of which the last may be missing. Where it is a call that fills memory or the EPROM, that comes before its line;
    // at the end stands what it changed in memory.
    fn make(&mut self, from: &mut impl Read, to: &impl Print, call: Call) -> io::Result<()> {
        let Bench { board, mem, eprom } = self;
        let mem = &mut mem[..call.mem.min(CELLS)];
        let mut args = [0; ROOM];
        let args = &mut args[..call.args.min(ROOM)];
        filled(from, args)?;
        match call.letter {
            b'm' => calls::fill(call, mem),
            b'e' => calls::burn(call, eprom, args),
            _ => {}
        }
        let mut old = [0; CELLS];
        cells::copy(&mut old, mem);
        board.answer(to, call, args, mem, eprom)?;
        if &*mem == &old[..mem.len()] {
            return println!(to; "");
        }
        let stored = Changes {
            mark: '@',
            bytes: mem,
            old: &old,
        };
        println!(to; "{stored}")
    }

    // Nothing says that the input ends, so the calls are counted down, from more than any script has.
    fn run(&mut self, from: &mut impl Read, to: &impl Print) -> io::Result<()> {
        for _ in 0..u64::MAX {
            let Some(call) = next_call(from)? else {
                break;
            };
            self.make(from, to, call)?;
        }
        Ok(())
    }
}

impl Board {
    // The line's letter and the answers, then what the call wrote into the output.
    // Kept: speed: apart from `make`, and what is printed apart from both: in one function the blocks are filled twice for each call, a third of the program's instructions.
    fn answer(
        &mut self,
        to: &impl Print,
        call: Call,
        args: &[u8],
        mem: &mut [u8],
        eprom: &[u8],
    ) -> io::Result<()> {
        let mut out = [LENT; ROOM];
        let out = &mut out[..call.out.min(ROOM)];
        to.write_all(&[call.letter])?;
        self.make(to, call, args, mem, eprom, out)?;
        written(to, out)
    }
}

fn written(to: &impl Print, out: &[u8]) -> io::Result<()> {
    // most calls write nothing, which is told sooner so than by printing; with the like of it in `make` the program takes half the time
    if out.iter().all(|b| *b == LENT) {
        return Ok(());
    }
    let blank = [LENT; ROOM];
    let written = Changes {
        mark: '>',
        bytes: out,
        old: &blank,
    };
    print!(to; "{written}")
}

fn main(rt: HostRuntime) -> io::Result<()> {
    Bench::new().run(&mut rt.stdin(), &rt)
}
