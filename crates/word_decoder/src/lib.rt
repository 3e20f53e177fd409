// Codewords of order 2 to 6 taken out of an encoding by words of 64 bits.
#![tactic(auto)]

ghost use Rattle.std.specs.Prelude.{◌≡◌, ◌+◌, ◌*◌, ◌^◌, ◌≤◌, ◌<◌, length, IfSome, [], ℕ};
ghost use Rattle.bits.specs.Bits.{unpack};
ghost use Rattle.calls.specs.Limits.{max_number, max_count};
ghost use Rattle.word_windows.specs.Leaves.{RunStarts};
ghost use Rattle.word_decoder.specs.Leaves.{Windowed, Filled, Next, Summed, EndsPart, CountsInSpan, summary, Adds, SpanTaken, RowTaken};

use digit_values::Body;
use reading::Encoding;
use word_windows::Window;

// How far codewords were taken: up to which bit, and how many.
#[derive(Clone, Copy)]
pub struct Progress {
    pub bit: usize,
    pub count: usize,
}

// A span of a row: from one place up to but without another.
#[derive(Clone, Copy)]
pub struct Span {
    pub from: usize,
    pub to: usize,
}

impl Span {
    // Where the part of a row ends that a place is in: before the span, in it, or behind it.
    fn part_end(self, place: usize) -> usize
        ensures { EndsPart self.from self.to place result }
    {
        if place < self.from {
            return self.from.min(calls::MAX_COUNT);
        }
        if place < self.to {
            self.to.min(calls::MAX_COUNT)
        } else {
            calls::MAX_COUNT
        }
    }

    // The sum of a part of a row that begins at a place, as far as it counts: all of it in the span, else nothing.
    fn counted(self, place: usize, sum: u64) -> u64
        ensures { CountsInSpan self.from self.to place sum result }
    {
        if (self.from..self.to).contains(&place) {
            sum
        } else {
            0
        }
    }
}

// A part of a row: how many numbers, up to which bit they go, and their sum.
#[derive(Clone, Copy)]
pub struct Part {
    pub count: usize,
    pub bits: usize,
    pub sum: u64,
}

// What is told of a row: how many numbers it has, how many bits they take, the sum of those of a span and of all, and the bit where the span begins, or the end
// of the row where that is before it.
#[derive(Clone, Copy)]
pub struct Summary {
    pub count: usize,
    pub bits: usize,
    pub total: u64,
    pub all: u64,
    pub start: usize,
}

impl Summary {
    // What is told of no number.
    pub fn empty() -> Summary
        ensures { (m from to : ℕ) → result ≡ summary m from to [] }
    {
        Summary {
            count: 0,
            bits: 0,
            total: 0,
            all: 0,
            start: 0,
        }
    }

    // What is told with a part more, which is in the span as a whole or not at all. Requires: numbers that are not too large, which whoever takes a part shows.
    pub fn with(self, span: Span, part: Part) -> Summary
        requires { (self.count + part.count < 2 ^ 64) × (self.total + part.sum < 2 ^ 64) × (self.all + part.sum < 2 ^ 64) }
        ensures { Adds span.from span.to self part result }
    {
        let count = self.count + part.count;
        Summary {
            count,
            bits: part.bits,
            total: self.total + span.counted(self.count, part.sum),
            all: self.all + part.sum,
            start: if count <= span.from {
                part.bits
            } else {
                self.start
            },
        }
    }
}

// Where the next codeword is taken from an encoding: a bit, and the bits from there on that a word has.
#[derive(Clone, Copy)]
struct Cursor<'a> {
    encoding: Encoding<'a>,
    bit: usize,
    window: Window,
    ghost within: { bit ≤ 8 * length encoding.bytes.now },
    ghost windowed: { Windowed (unpack encoding.bytes.now) bit window.left },
    ghost starts_are: { RunStarts encoding.order.m window.left window.starts },
}

impl<'a> Cursor<'a> {
    // At the start; no bit is in a word yet.
    fn start(encoding: Encoding<'a>) -> Cursor<'a>
        ensures { (result.encoding ≡ encoding.entry) × (result.bit ≡ 0) }
    {
        Cursor {
            encoding,
            bit: 0,
            window: Window { left: 0, starts: 0 },
        }
    }

    // The window, filled anew where no codeword ends in it; None where none does then.
    fn filled(&self) -> Option<Window>
        ensures { let e = self.now.encoding in Filled e.order.m e.limit (unpack e.bytes.now) self.now.bit result }
    {
        if self.window.starts != 0 {
            return Some(self.window);
        }
        let window = word_windows::window_at(self.encoding.order, self.encoding.bytes, self.bit);
        if window.starts == 0 {
            return None;
        }
        Some(window)
    }

    // The number of the next codeword, which the cursor goes past; None where words cannot take it, or its number is not legal. What stands then is for the
    // scan by bits to judge.
    fn next(&mut self) -> Option<u64>
        ensures same { self.new.encoding ≡ self.old.encoding }
        ensures taken { let e = self.old.encoding in Next e.order.m e.limit (unpack e.bytes.now) self.old.bit self.new.bit result }
        ensures few { IfSome result (λ n. n ≤ max_number) }
    {
        let window = self.filled()?;
        let order = self.encoding.order;
        let body = Body {
            word: window.left,
            len: window.starts.leading_zeros() as usize,
        };
        let n = word_windows::number(order, body);
        if !calls::is_number(n, u64::from(self.encoding.limit)) {
            return None;
        }
        let size = body.len + order.m();
        *self = Cursor {
            encoding: self.encoding,
            bit: self.bit + size,
            window: Window {
                left: window.left << size,
                starts: window.starts << size,
            },
        };
        Some(n)
    }
    // Takes codewords as far as words can, `most` at most: how many, up to which bit, and the sum of their numbers. Requires: no more than a row has, which
    // `take_span` shows.
    fn take_sum(&mut self, most: usize) -> Part
        requires { most ≤ max_count }
        ensures same { self.new.encoding ≡ self.old.encoding }
        ensures at { self.new.bit ≡ result.bits }
        ensures taken { let e = self.old.encoding in Summed e.order.m e.limit (unpack e.bytes.now) self.old.bit most result }
    {
        let mut sum = 0;
        for count in 0..most {
            let Some(n) = self.next() else {
                return Part {
                    count,
                    bits: self.bit,
                    sum,
                };
            };
            sum += n;
        }
        Part {
            count: most,
            bits: self.bit,
            sum,
        }
    }
}

// Takes codewords from the start of an encoding on, as far as words can, and tells of them and of a span. It goes in parts, so that no number is tested for its
// place.
pub fn take_span(encoding: Encoding, span: Span) -> Summary
    ensures { let e = encoding.entry in SpanTaken e.order.m e.limit span.from span.to (unpack e.bytes.now) result }
{
    let mut cursor = Cursor::start(encoding);
    let mut told = Summary::empty();
    while told.count < calls::MAX_COUNT {
        let most = span.part_end(told.count) - told.count;
        let part = cursor.take_sum(most);
        told = told.with(span, part);
        if part.count < most {
            break;
        }
    }
    told
}

// Takes codewords from the start of an encoding on, as far as words can, and stores their numbers, as far as the list has room.
pub fn take_row(encoding: Encoding, row: &mut [u32]) -> Progress
    ensures { let e = encoding.entry in RowTaken e.order.m e.limit (unpack e.bytes.now) row.old row.new result }
{
    let most = row.len().min(calls::MAX_COUNT);
    let mut cursor = Cursor::start(encoding);
    for count in 0..most {
        let Some(n) = cursor.next() else {
            return Progress {
                bit: cursor.bit,
                count,
            };
        };
        row[count] = n as u32;
    }
    Progress {
        bit: cursor.bit,
        count: most,
    }
}
