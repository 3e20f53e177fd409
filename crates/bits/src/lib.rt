// A byte slice as a list of bits, the top bit of each byte first; and a word's low bits.
#![tactic(auto)]

ghost use Rattle.std.specs.Prelude.{◌≡◌, false, ◌+◌, ◌-◌, ◌^◌, ◌≤◌, ◌<◌, length, take, drop, get_or, set};
ghost use Rattle.bits.specs.Bits.{word_bits, unpack};

// The len low bits of a word and no others, 1 to 56 of them: a codeword, or a part of one, before it goes into a buffer.
#[derive(Clone, Copy)]
pub struct Word {
    pub bits: u64,
    pub len: usize,
    pub ghost fits: { (1 ≤ len) × (len ≤ 56) × (bits < 2 ^ len) },
}

// Bit k of the slice; false past its end.
pub fn bit(s: &[u8], k: usize) -> bool
    ensures { result ≡ get_or (unpack s.now) k false }
{
    let low = 7 - (k & 7);
    s.get(k >> 3).is_some_and(|b| *b >> low & 1 == 1)
}

// The byte b with its bit of value 2 ^ low set to v, with no branch by v. Requires: low is below 8, which `set_bit` shows.
#[tactic(auto, using(crate::proofs::Words::words_put))]
fn with_bit(b: u8, low: usize, v: bool) -> u8
    requires { low < 8 }
    ensures { word_bits 8 result ≡ set (word_bits 8 b) (7 - low) v }
{
    let mask: u8 = 1 << low;
    b & !mask | u8::from(v) << low
}

// Bit k of the slice becomes v; where k is past its end, nothing changes.
#[tactic(auto, using(crate::proofs::Bytes::set_bit_at, crate::proofs::Bytes::set_bit_past))]
pub fn set_bit(s: &mut [u8], k: usize, v: bool)
    ensures { unpack s.new ≡ set (unpack s.old) k v }
{
    let q = k >> 3;
    if q < s.len() {
        s[q] = with_bit(s[q], 7 - (k & 7), v);
    }
}

// Eight bytes of the slice as a word, the first bit on top. (So written it is compiled to one load.) Requires: eight bytes are left, which whoever reads by
// words tests.
pub fn word_at(s: &[u8], i: usize) -> u64
    requires { i + 8 ≤ length s.now }
    ensures { word_bits 64 result ≡ unpack (take 8 (drop i s.now)) }
{
    u64::from_be_bytes([
        s[i],
        s[i + 1],
        s[i + 2],
        s[i + 3],
        s[i + 4],
        s[i + 5],
        s[i + 6],
        s[i + 7],
    ])
}
