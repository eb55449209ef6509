// The tidied stream laid into the output: head, frames with empty cells, the windows' data over them in the stream's order, postamble.
ghost use Rattle.std.specs.Prelude.{◌≡◌, ℕ, ◌+◌, ◌≤◌, length, replicate};
ghost use Rattle.std.proofs.lemmas.List.Edits.{sets};
ghost use Rattle.chain.specs.Output.{over};
ghost use Rattle.chain.specs.Window.{width_of};
ghost use Rattle.reader.specs.Stream.{head_length};
ghost use Rattle.reader.specs.Given.{windows_at};
ghost use Rattle.tidy.specs.Tidy.{last_byte};
ghost use Rattle.tidy.specs.Steps.{spans_in, window_bytes, render, long_of, paint_all, laid_out, Ready};

use crate::given::Given;
use cells::copy;
use chain::paper::*;
use chain::window::Window;

// A window over a span, all cells 0.
fn empty(span: Window, out: &mut [u8])
    requires { 5 + width_of span.start span.end ≤ length out.old }
    ensures { out.new ≡ over (window_bytes span.start span.end (replicate (width_of span.start span.end) 0)) out.old }
{
    [out[0], out[1], out[2], out[3], out[4]] = span.framing();
    out[5..5 + span.width()].fill(0);
}

// The windows over the spans, all cells 0.
fn frames(spans: &[Window], out: &mut [u8])
    requires { long_of (spans_in spans.now) ≤ length out.old }
    ensures { out.new ≡ over (render (spans_in spans.now) (λ (i : ℕ). 0)) out.old }
{
    let mut at = 0;
    for span in spans {
        empty(*span, &mut out[at..]);
        at += 5 + span.width();
    }
}

// Bytes over an output from a position on, as far as it goes.
fn put(at: usize, bytes: &[u8], out: &mut [u8])
    ensures { out.new ≡ sets out.old at bytes.now }
{
    if at <= out.len() {
        copy(&mut out[at..], bytes);
    }
}

// The windows' data, in the stream's order, each from its place.
fn paint(given: Given<'_>, places: &[u16], out: &mut [u8])
    requires { given.n ≤ length places.now }
    ensures { out.new ≡ paint_all places.now 0 (windows_at given.entry.size given.entry.s.now given.entry.n head_length) out.old }
{
    for (i, w) in given.windows().enumerate() {
        put(usize::from(places[i]), &given.s[w.first..w.next], out);
    }
}

// The whole stream of these spans, which are those of the given windows; end is where the postamble goes.
pub(crate) fn stream(given: Given<'_>, spans: &[Window], places: &[u16], end: usize, out: &mut [u8])
    requires { Ready given.size given.s.now given.n (spans_in spans.now) places.now end (length out.old) }
    ensures { out.new ≡ over (laid_out given.entry.s.now (spans_in spans.now)
        (last_byte (windows_at given.entry.size given.entry.s.now given.entry.n head_length))) out.old }
{
    let s = given.s;
    let count = spans.len() as u8;
    copy(out, &[PREAMBLE, s[1], s[2], s[3], s[4], NO_WINDOWS - count]);
    frames(spans, &mut out[6..]);
    paint(given, places, &mut out[6..]);
    out[end] = POSTAMBLE;
}
