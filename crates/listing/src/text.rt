// The text that the program writes for an input.
ghost use Rattle.std.specs.Prelude.{◌≡◌, true, [], ◌∷◌, ◌++◌, ◌+◌, ◌*◌, ◌≤◌, ◌<◌, length, IfOk, IfErr};
ghost use Rattle.std.specs.Counts.{IsPrefixLen};
ghost use Rattle.arrayvec.specs.ArrayString.{array_string_len};
ghost use Rattle.listing.specs.Lines.{line_of};
ghost use Rattle.chain.specs.Paper.{serial};
ghost use Rattle.chain.specs.Refusal.{number_of};
ghost use Rattle.listing.specs.Program.{most_windows, most_input, most_text, lister_stop, window_lines, windows_text, answer_line, program_lines, text_of, Writes};

use arrayvec::ArrayString;
use chain::kinds::Kind;
use chain::mode::Mode;
use chain::paper::DONE;
use chain::refusal::Refusal;
use hunt::hunt;
use itoa::Buffer;
use lister::{Listed, list};

// The most bytes of input, mode byte and kind byte among them.
pub const MOST_INPUT: usize = 65536;

// The most windows of a stream.
const MOST_WINDOWS: usize = 255;

// 255 windows' lines of 18 bytes, and a last one of 25.
pub const MOST_TEXT: usize = 4615;

// The text so far.
type Text = ArrayString<MOST_TEXT>;

// A line: a letter, the numbers with a space before each, and a line feed. Numbers come from itoa, since write! could fail.
fn line(text: &mut Text, letter: char, ns: &[u32])
    requires ascii { letter < 128 }
    requires room { array_string_len text.old + length (line_of letter ns.now) ≤ most_text }
    ensures { text.new.bytes ≡ text.old.bytes ++ line_of letter ns.now }
{
    text.push(letter);
    for n in ns {
        text.push(' ');
        text.push_str(Buffer::new().format(*n));
    }
    text.push('\n');
}

// A text of one line.
fn alone(letter: char, ns: &[u32]) -> Text
    requires ascii { letter < 128 }
    requires room { length (line_of letter ns.now) ≤ most_text }
    ensures { result.bytes ≡ line_of letter ns.now }
{
    let mut text = Text::new();
    line(&mut text, letter, ns);
    text
}

// A line for each window, from 1. Never laid into its caller, like what follows: a text is 4,615 bytes, and all laid into one function it has one for each step.
#[inline(never)]
fn windows(starts: &[u16], ends: &[u16]) -> Text
    requires pairs { length ends.now ≡ length starts.now }
    requires few { length starts.now ≤ most_windows }
    ensures lines { result.bytes ≡ window_lines 1 starts.now ends.now }
    ensures upper_bound { array_string_len result ≤ 18 * length starts.now }
{
    let mut text = Text::new();
    for (i, (start, end)) in starts.iter().zip(ends).enumerate() {
        line(&mut text, 'W', &[i as u32 + 1, *start as u32, *end as u32]);
    }
    text
}

// What the lister answers for the bytes that it is given, and the windows' lines.
#[inline(never)]
fn listed(kind: u8, mode: u8, given: &[u8]) -> (Listed, Text)
    ensures number { result.0.number ≡ (lister_stop kind mode given.now).number }
    ensures taken { result.0.taken ≡ (lister_stop kind mode given.now).taken }
    ensures lines { result.1.bytes ≡ windows_text kind mode given.now (lister_stop kind mode given.now) }
    ensures upper_bound { array_string_len result.1 ≤ 18 * most_windows }
{
    // Kept: C interface: list fills three tables beside one another.
    let mut starts = [0; MOST_WINDOWS];
    let mut ends = [0; MOST_WINDOWS];
    let mut offsets = [0; MOST_WINDOWS];
    let r = list(kind, mode, given, &mut starts, &mut ends, &mut offsets);
    let n = r.windows as usize;
    (r, windows(&starts[..n], &ends[..n]))
}

// Modes 3 and 4: the lister is given the hunted bytes, and the last line ends with where they began and the bits left. Kind is tested before the hunt.
#[inline(never)]
fn hunted(kind: u8, mode: u8, s: &[u8]) -> Result<Text, Refusal>
    requires hunts { serial mode ≡ true }
    requires fits { length s.now ≤ most_input }
    ensures ok { IfOk result (λ text. text.bytes ≡ program_lines kind mode s.now) }
    ensures err { IfErr result (λ e. program_lines kind mode s.now ≡ answer_line (number_of e) 0 (0 ∷ 0 ∷ [])) }
{
    Kind::try_from(kind)?;
    let mut found = [0; MOST_INPUT];
    let h = hunt(s, &mut found);
    if h.number != DONE {
        return Err(Refusal::NoPreamble);
    }
    let (r, mut text) = listed(kind, mode, &found[..h.length]);
    line(
        &mut text,
        'A',
        &[r.number as u32, r.taken, h.p as u32, h.left as u32],
    );
    Ok(text)
}

// The text for an input, which is mode byte, kind byte and stream.
fn written(input: &[u8]) -> Text
    ensures { result.bytes ≡ text_of input.now }
{
    if MOST_INPUT < input.len() {
        return alone('L', &[]);
    }
    let [mode, kind, stream @ ..] = input else {
        return alone('A', &[Refusal::BadChain.number() as u32, 0]);
    };
    if Mode::try_from(*mode).is_ok_and(|m| m.is_serial()) {
        return match hunted(*kind, *mode, stream) {
            Ok(text) => text,
            Err(refusal) => alone('A', &[refusal.number() as u32, 0, 0, 0]),
        };
    }
    let (r, mut text) = listed(*kind, *mode, stream);
    line(&mut text, 'A', &[r.number as u32, r.taken]);
    text
}

// The text for an input, put at the front of a block; its length is answered.
// Kept: promise of text: Writes speaks of a lent block and of how much of it is the text.
pub fn text(input: &[u8], out: &mut [u8; MOST_TEXT]) -> usize
    ensures writes { Writes input.now out.old result out.new }
    ensures prefix_len { IsPrefixLen result out.new }
{
    let text = written(input);
    let bytes = text.as_str().as_bytes();
    let n = bytes.len();
    out[..n].copy_from_slice(bytes);
    n
}
