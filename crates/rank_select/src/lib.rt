// The ones of any range of the bits of a byte slice, and the place of a bit in it, by words.
#![tactic(auto)]

ghost use Rattle.std.specs.Prelude.{◌≡◌, true, ◌+◌, ◌*◌, ◌^◌, ◌≤◌, ◌<◌, length, take, drop};
ghost use Rattle.bits.specs.Bits.{unpack, count, select_bit};

// How many ones eight bytes have, counted as those of a word.
fn ones_of_word(w: &[u8; 8]) -> usize
    ensures { result ≡ count true (unpack w.now) }
{
    u64::from_be_bytes(*w).count_ones() as usize
}

// How many ones the bytes have: eight bytes at a time, and those that are left one by one. Requires: their bits can be counted, which `ones_before` shows.
fn ones(s: &[u8]) -> usize
    requires { 8 * length s.now < 2 ^ 64 }
    ensures { result ≡ count true (unpack s.now) }
{
    let (words, bytes) = s.as_chunks::<8>();
    let of_words: usize = words.iter().map(ones_of_word).sum();
    let of_bytes: usize = bytes.iter().map(|b| b.count_ones() as usize).sum();
    of_words + of_bytes
}

// How many of the first e bits are ones.
// Requires: the bits are there, which whoever counts shows.
pub fn ones_before(s: &[u8], e: usize) -> usize
    requires { e ≤ 8 * length s.now }
    ensures { result ≡ count true (take e (unpack s.now)) }
{
    let q = e / 8;
    let j = e % 8;
    let whole = ones(&s[..q]);
    if j == 0 {
        return whole;
    }
    let last = s[q] >> (8 - j);
    whole + last.count_ones() as usize
}

// How many of the k bits from bit `from` on are ones. The bits before are counted too, so a caller hands on the part of its bytes that begins with the
// byte of the first bit.
// Requires: the range is in the slice and its end fits in a usize, which the index shows: its bitmaps are in its bytes, and at most 4,096 bits long.
pub fn ones_from(s: &[u8], from: usize, k: usize) -> usize
    requires { (from + k ≤ 8 * length s.now) × (from + k < 2 ^ 64) }
    ensures { result ≡ count true (take k (drop from (unpack s.now))) }
{
    ones_before(s, from + k) - ones_before(s, from)
}

// The len bits of a byte slice from bit `from` on.
#[derive(Clone, Copy)]
struct Range<'a> {
    bytes: &'a [u8],
    from: usize,
    len: usize,
    ghost within: { (from + len ≤ 8 * length bytes.now) × (from + len < 2 ^ 64) },
}

// How far the search for a bit has come: to bit `at` of the range, with `left` bits of its kind still to be skipped.
#[derive(Clone, Copy)]
struct Skipped {
    at: usize,
    left: usize,
}

impl<'a> Range<'a> {
    ghost use Rattle.rank_select.specs.Leaves.{bits_of, Skips};

    // How many of the bits are v. Only the bytes that hold them are read.
    fn count(self, v: bool) -> usize
        ensures { result ≡ count v (bits_of self.entry) }
    {
        let first = self.from / 8;
        let ones = ones_from(&self.bytes[first..], self.from % 8, self.len);
        if v { ones } else { self.len - ones }
    }

    // Skips steps of `step` bits as long as a whole step is there and the bits v in it are no more than are still to be skipped, so that the bit searched for
    // stays the same.
    // Requires: a step of at least one bit, and a start in the range, which `select_bit` shows: it begins at bit 0 and goes on where a call has stopped.
    fn skip(self, v: bool, step: usize, start: Skipped) -> Skipped
        requires { (1 ≤ step) × (start.at ≤ self.len) }
        ensures { Skips v step self.entry.len (bits_of self.entry) start result }
    {
        let Skipped { mut at, mut left } = start;
        while step <= self.len - at {
            let next = Range {
                bytes: self.bytes,
                from: self.from + at,
                len: step,
            };
            let here = next.count(v);
            if here > left {
                break;
            }
            left -= here;
            at += step;
        }
        Skipped { at, left }
    }
}

// The place of the bit v that has j others of its kind before it, among the k bits from bit `from` on; k where there is none. Steps of a word are
// skipped first, then steps of a byte, then bits.
// Requires: what `ones_from` requires, which the index shows too.
pub fn select_bit(s: &[u8], from: usize, k: usize, v: bool, j: usize) -> usize
    requires { (from + k ≤ 8 * length s.now) × (from + k < 2 ^ 64) }
    ensures { result ≡ select_bit v j (take k (drop from (unpack s.now))) }
{
    let all = Range {
        bytes: s,
        from,
        len: k,
    };
    let words = all.skip(v, 64, Skipped { at: 0, left: j });
    let bytes = all.skip(v, 8, words);
    let bits = all.skip(v, 1, bytes);
    bits.at
}
