// Reading bytes of the (s, c)-dense code, s from 1 to 254 and c the rest.
#![tactic(auto)]

ghost use Rattle.std.specs.Prelude.{◌≡◌, ℕ, ◌-◌, ◌≤◌, ◌<◌, min, length, take, drop, slice_index};
ghost use Rattle.calls.specs.Limits.{max_number, max_count};
ghost use Rattle.calls.specs.Reading.{decode};
ghost use Rattle.calls.specs.Leaves.{Scanned};
ghost use Rattle.dense_decoder.specs.Reading.{dense, ReadPromise};
ghost use Rattle.dense_decoder.specs.Leaves.{Finished, Numbered, Front, FrontAfter};

use calls::Refusal;
use dense::Stoppers;

// Codewords and no rest: bytes of which the last, if there is one, is a stopper. Their numbers are read as far as they are within a limit.
#[derive(Clone, Copy)]
struct Codewords<'a> {
    stoppers: Stoppers,
    limit: u32,
    bytes: &'a [u8],
    ghost finished: { Finished stoppers.s bytes.now },
}

// Where the last codeword that is finished ends: behind the last stopper. It is compiled as a function of its own: beside its loop the one over the codewords
// is put so that codewords of one byte take a seventh longer.
#[inline(never)]
fn finished_end(stoppers: Stoppers, b: &[u8]) -> usize
    ensures within { result ≤ length b.now }
    ensures stops { 0 < result → slice_index b.now (result - 1) < stoppers.s }
    ensures rest { (k : ℕ) → result ≤ k → k < length b.now → stoppers.s ≤ slice_index b.now k }
{
    match b.iter().rposition(|&x| u32::from(x) < stoppers.s()) {
        Some(last) => last + 1,
        None => 0,
    }
}

// What is found is always compiled into the loop over the codewords: where it is handed over by a call, a row takes up to four times as long.
impl<'a> Codewords<'a> {
    // Those of an encoding that are finished.
    fn new(stoppers: Stoppers, limit: u32, b: &'a [u8]) -> Codewords<'a>
        ensures same { (result.stoppers.s ≡ stoppers.s) × (result.limit ≡ limit) }
        ensures front { result.bytes.now ≡ take (length result.bytes.now) b.now }
        ensures rest { (k : ℕ) → length result.bytes.now ≤ k → k < length b.now → stoppers.s ≤ slice_index b.now k }
    {
        let end = finished_end(stoppers, b);
        Codewords {
            stoppers,
            limit,
            bytes: &b[..end],
        }
    }

    // The number after `before`, as far as it is within the limit, and the byte after its codeword.
    #[inline(always)]
    fn numbered(self, before: u64, after: usize) -> Option<(u32, usize)>
        ensures { Numbered before after self.entry.limit result }
    {
        if before < u64::from(self.limit) {
            Some((before as u32 + 1, after))
        } else {
            None
        }
    }

    // The end of a codeword from a place on, after continuers that are string y, counted from 0, the shorter first. A continuer is a digit, from 1 up: what it
    // is above the highest stopper. Every number is above its string, and so too large where that is at the limit. Requires: a place within the bytes, and a
    // string of 32 bits, which `next` shows.
    #[inline(always)]
    #[tactic(auto, using(crate::proofs::Front::product_small))]
    fn finish(self, from: usize, y: u64) -> Option<(u32, usize)>
        requires { (from < length self.bytes.now) × (y ≤ max_number) }
        ensures { FrontAfter self.entry.stoppers.s self.entry.limit self.entry.bytes.now from y result }
    {
        let (s, c) = (
            u64::from(self.stoppers.s()),
            u64::from(self.stoppers.continuers()),
        );
        let highest = (s - 1) as u8;
        let limit = u64::from(self.limit);
        let b = self.bytes;
        let mut string = y;
        let mut i = from;
        loop {
            let x = b[i];
            let last = u64::from(x);
            i += 1;
            if last < s {
                return self.numbered(string * s + last, i);
            }
            string = string * c + u64::from(x - highest);
            if limit <= string {
                return None;
            }
        }
    }

    // What stands from a place on: a number and the byte after its codeword, or none if the number is above the limit. Codewords of one byte and of two are at
    // hand at once. Requires: a place within the bytes, which `store_row` shows.
    #[inline(always)]
    #[tactic(auto, using(crate::proofs::Front::product_small))]
    fn next(self, i: usize) -> Option<(u32, usize)>
        requires { i < length self.bytes.now }
        ensures { Front self.entry.stoppers.s self.entry.limit self.entry.bytes.now (drop i self.entry.bytes.now) result }
    {
        let (s, c) = (
            u64::from(self.stoppers.s()),
            u64::from(self.stoppers.continuers()),
        );
        let first = u64::from(self.bytes[i]);
        if first < s {
            return self.numbered(first, i + 1);
        }
        let y = first - s + 1;
        let second = u64::from(self.bytes[i + 1]);
        if second < s {
            return self.numbered(y * s + second, i + 2);
        }
        self.finish(i + 2, y * c + (second - s + 1))
    }
}

// Stores the row of an encoding in a list. Requires: room for every row that so many bytes can hold, as a codeword has at least one, which `read` sees to.
fn store_row(stoppers: Stoppers, b: &[u8], limit: u32, row: &mut [u32]) -> Result<usize, Refusal>
    requires { min max_count (length b.now) ≤ length row.old }
    ensures { Scanned (decode (dense stoppers.s) limit b.now) result row.new }
{
    if b.len() > dense::MAX_BYTES {
        return Err(Refusal::TooManyBytes);
    }
    let codewords = Codewords::new(stoppers, limit, b);
    let mut i: usize = 0;
    let mut count: usize = 0;
    while i < codewords.bytes.len() {
        if count == calls::MAX_COUNT {
            return Err(Refusal::TooManyCodewords);
        }
        let (n, after) = codewords.next(i).ok_or(Refusal::TooLarge(count))?;
        row[count] = n;
        count += 1;
        i = after;
    }
    if i < b.len() {
        return Err(Refusal::Unfinished);
    }
    Ok(count)
}

// Reads an encoding. The row goes to a list of its own first, as a refusal must leave the output as it was. A list of zeros for 4,096 numbers takes longer to
// make than a few bytes take to read.
pub fn read(stoppers: usize, b: &[u8], out: &mut [u32]) -> Result<usize, Refusal>
    ensures { ReadPromise stoppers b.now out.old result out.new }
{
    let stoppers = Stoppers::new(stoppers)?;
    if b.len() <= 64 {
        let mut few = [0u32; 64];
        let count = store_row(stoppers, b, calls::MAX_NUMBER, &mut few)?;
        return calls::deliver(&few[..count], out);
    }
    let mut row = [0u32; calls::MAX_COUNT];
    let count = store_row(stoppers, b, calls::MAX_NUMBER, &mut row)?;
    calls::deliver(&row[..count], out)
}
