// Windows in the order of their starts, joined to spans of cells.
ghost use Rattle.std.specs.Prelude.{◌≡◌, ◌+◌, ◌*◌, ◌≤◌, length, take, leb};
ghost use Rattle.reader.specs.Stream.{head_length};
ghost use Rattle.reader.specs.Given.{windows_at};
ghost use Rattle.tidy.specs.Steps.{spans_in, keys_of, ends_of, Gathered, long_of, AtPlaces, Joinable, Joins};

use crate::given::Given;
use crate::sort::sort;
use chain::window::Window;

// For each window, in the stream's order, its start and, where a span has its end, its index; and in the other table its end.
// Kept: no heap: one table has the windows first and then the spans, and the other the windows' ends and then their places. With a table for each
// they would take 3,060 bytes, and tests/stack allows a call 2,048 in all.
fn collect(given: Given<'_>, xs: &mut [Window], ends: &mut [u16])
    requires { (length xs.old ≡ given.n) × (length ends.old ≡ 256) }
    ensures { (length xs.new ≡ length xs.old) × (length ends.new ≡ length ends.old)
        × (xs.new ≡ keys_of 0 (windows_at given.entry.size given.entry.s.now given.entry.n head_length))
        × (take given.entry.n ends.new ≡ ends_of (windows_at given.entry.size given.entry.s.now given.entry.n head_length)) }
{
    for (i, w) in given.windows().enumerate() {
        xs[i] = Window {
            start: w.bounds.start,
            end: i as u16,
        };
        ends[i] = w.bounds.end;
    }
}

// No cell is between a span with that end and one with that start, where the second does not start below the first.
fn touch(end: u16, start: u16) -> bool
    ensures { result ≡ leb start (end + 1) }
{
    start <= end.saturating_add(1)
}

// Windows that touch are made one span; the spans come to stand at the front, as many as is answered. Where a window's end stood comes to stand the
// place of its first cell, counted from the first span's null byte: the span's own place, at, and the way from its start. The first window's place
// is put last, so that the loop begins with all ends as they were given.
fn join(xs: &mut [Window], ends: &mut [u16]) -> usize
    requires { Joinable xs.old ends.old }
    ensures { Joins xs.old ends.old result xs.new ends.new }
{
    let n = xs.len();
    if n == 0 {
        return 0;
    }
    let first = usize::from(xs[0].end);
    let mut start = xs[0].start;
    let mut end = ends[first];
    let mut at = 5;
    let mut k = 0;
    for i in 1..n {
        let x = xs[i];
        let j = usize::from(x.end);
        let e = ends[j];
        if touch(end, x.start) {
            end = end.max(e);
            ends[j] = (at + usize::from(x.start - start)) as u16;
            continue;
        }
        let span = Window { start, end };
        xs[k] = span;
        k += 1;
        at += 5 + span.width();
        ends[j] = at as u16;
        start = x.start;
        end = e;
    }
    xs[k] = Window { start, end };
    ends[first] = 5;
    k + 1
}

// The spans of the windows, as many as is answered, and the windows' places.
pub(crate) fn gather(given: Given<'_>, xs: &mut [Window], places: &mut [u16]) -> usize
    requires { (length xs.old ≡ given.n) × (length places.old ≡ 256) }
    ensures { (result ≤ length xs.old) × (length xs.new ≡ length xs.old)
        × Gathered given.entry.size (windows_at given.entry.size given.entry.s.now given.entry.n head_length) (spans_in (take result xs.new))
        × AtPlaces places.new (spans_in (take result xs.new)) 0 (windows_at given.entry.size given.entry.s.now given.entry.n head_length) }
{
    collect(given, xs, places);
    sort(xs);
    join(xs, places)
}

// How many bytes the windows over these spans take.
pub(crate) fn long(spans: &[Window]) -> usize
    requires { length spans.now ≤ 255 }
    ensures { (result ≡ long_of (spans_in spans.now)) × (result ≤ 65541 * 255) }
{
    let mut sum = 0;
    for span in spans {
        sum += 5 + span.width();
    }
    sum
}
