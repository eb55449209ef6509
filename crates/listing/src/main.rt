// The listing program: mode byte, kind byte and a stream on standard input, the windows of the stream on standard output.
#![tactic(auto)]

mod program;
mod text;

use std::io;

fn main(rt: HostRuntime) -> io::Result<()> {
    program::run(&mut rt.stdin(), &mut rt.stdout())
}
