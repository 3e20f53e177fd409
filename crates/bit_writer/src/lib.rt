// Bits put into a byte slice, up to 56 at once.
#![tactic(auto)]

ghost use Rattle.std.specs.Prelude.{◌≡◌, ◌++◌, ◌+◌, ◌*◌, ◌≤◌, ◌<◌, length, drop};
ghost use Rattle.bits.specs.Bits.{word_bits, unpack, bytes_of};
ghost use Rattle.bits.specs.Leaves.{put_to, put_at};

use bits::Word;

// The n low bytes of w, the highest first, at the front of the slice. (Where n is 8, this is compiled to one store.) Requires: at most 8, and there is room,
// which both functions that put bits show, and `bit_moves` for the bytes that it moves.
pub fn store(s: &mut [u8], w: u64, n: usize)
    requires { (n ≤ 8) × (n ≤ length s.old) }
    ensures { s.new ≡ bytes_of n (word_bits (8 * n) w) ++ drop n s.old }
{
    s[..n].copy_from_slice(&w.to_be_bytes()[8 - n..]);
}

// The first o bits of a byte, then the bits of the word, then zeros, as the low bits of a word, width of them. Requires: they fit, which both functions below
// show.
fn joined(first: u8, o: usize, word: Word, width: usize) -> u64
    requires { (o < 8) × (8 ≤ width) × (o + word.len ≤ width) × (width ≤ 64) }
    ensures { word_bits width result ≡ put_to o (word_bits word.len word.bits) width (word_bits 8 first) }
{
    let kept = u64::from(first) >> (8 - o);
    let pad = width - (o + word.len);
    (kept << word.len | word.bits) << pad
}

// The bits of the word after the first o bits of the slice, then zeros to the end of the byte. Requires: o is below 8, and they fit, which the writer of
// codewords shows on the part of its buffer from the byte with the first free bit.
pub fn put_word(s: &mut [u8], o: usize, word: Word)
    requires { (o < 8) × (o + word.len ≤ 8 * length s.old) }
    ensures { unpack s.new ≡ put_at o (word_bits word.len word.bits) (unpack s.old) }
{
    let count = (o + word.len).div_ceil(8);
    let all = joined(s[0], o, word, 8 * count);
    store(s, all, count);
}

// The same with zeros to the end of the eighth byte, by one store. Requires: o is below 8, and there are eight bytes, which the writer of rows shows; it writes
// those behind the word later.
pub fn put_over(s: &mut [u8], o: usize, word: Word)
    requires { (o < 8) × (8 ≤ length s.old) }
    ensures { unpack s.new ≡ put_to o (word_bits word.len word.bits) 64 (unpack s.old) }
{
    let all = joined(s[0], o, word, 64);
    store(s, all, 8);
}
