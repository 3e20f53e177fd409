// Bits of a buffer replaced by others, more or fewer of them: the bits behind them move, by words of 64 bits.
#![tactic(auto)]

ghost use Rattle.std.specs.Prelude.{◌≡◌, ◌++◌, ◌+◌, ◌*◌, ◌^◌, ◌≤◌, ◌<◌, length, take, drop};
ghost use Rattle.bits.specs.Bits.{word_bits, unpack};
ghost use Rattle.bits.specs.Leaves.{fit};
ghost use Rattle.bit_moves.specs.Splices.{splice};

use bits::Word;

// How bits move in the first `used` bytes of a buffer: what is written from byte i on is read from byte i + gap on, and `held` bits that were read are still to
// be written then.
#[derive(Clone, Copy)]
struct Shift {
    used: usize,
    gap: usize,
    held: usize,
    ghost fits: { (used < 2 ^ 32) × (gap ≤ used) × (1 ≤ held) × (held < 64) },
}

// How far bits have been moved: up to the byte where the next word goes, and the word that was read last, whose low bits are still to be written.
#[derive(Clone, Copy)]
struct Progress {
    next: usize,
    word: u64,
}

// The o low bits of one word, the bits of a second, and the p low ones of a third, as one word. Requires: they fit, and the words have no other bits, which
// `splice` shows.
fn three(kept: u64, o: usize, word: Word, last: u64, p: usize) -> u64
    requires { (o + word.len + p < 64) × (kept < 2 ^ o) × (last < 2 ^ p) }
    ensures { word_bits (o + word.len + p) result ≡ word_bits o kept ++ (word_bits word.len word.bits ++ word_bits p last) }
{
    (kept << word.len | word.bits) << p | last
}

// Eight bytes of the slice as a word; zeros past its end.
fn word_or_zeros(s: &[u8], j: usize) -> u64
    ensures { word_bits 64 result ≡ fit 64 (unpack (drop j s.now)) }
{
    let rest = &s[j.min(s.len())..];
    let n = rest.len().min(8);
    let mut bytes = [0; 8];
    bytes[..n].copy_from_slice(&rest[..n]);
    u64::from_be_bytes(bytes)
}

impl Shift {
    ghost use Rattle.bit_moves.specs.Leaves.{all_moved, MovedTo};

    // The bits of one word that are held back and then the first of another, as a word: as many of the other are left over.
    fn joined(self, before: u64, w: u64) -> u64
        ensures { word_bits 64 result ++ word_bits self.held w ≡ word_bits self.held before ++ word_bits 64 w }
    {
        before << (64 - self.held) | w >> self.held
    }

    // Moves bits as long as a whole word of them is left. A word is read before one is written, and none is written behind where the next is read: so it goes
    // from the front, whichever way the bits move. Requires: bytes that are in the buffer, which `splice` shows.
    fn move_words(self, s: &mut [u8], from: Progress) -> Progress
        requires { (self.used ≤ length s.old) × (from.next ≤ self.used) }
        ensures { MovedTo self (all_moved self s.old from) s.old s.new result }
    {
        let Progress { mut next, mut word } = from;
        while next + self.gap + 8 <= self.used {
            let w = bits::word_at(s, next + self.gap);
            bit_writer::store(&mut s[next..next + 8], self.joined(word, w), 8);
            word = w;
            next += 8;
        }
        Progress { next, word }
    }

    // The same up to byte `end`, with zeros for the bytes behind those in use. Requires: the same, and that `end` is in the buffer and not before the end of
    // those in use, which `splice` shows.
    fn move_last(self, s: &mut [u8], end: usize, from: Progress)
        requires { (self.used ≤ end) × (end ≤ length s.old) × (end < 2 ^ 32) × (from.next ≤ self.used) }
        ensures { unpack s.new ≡ fit (8 * end) (all_moved self s.old from) ++ unpack (drop end s.old) }
    {
        let Progress { mut next, mut word } = from;
        while next < end {
            let w = word_or_zeros(&s[..self.used], next + self.gap);
            let n = (end - next).min(8);
            bit_writer::store(
                &mut s[next..next + n],
                self.joined(word, w) >> (64 - 8 * n),
                n,
            );
            word = w;
            next += n;
        }
    }
}

// In the first `used` bytes, the bits of a word for the `old` bits that stand at bit `at`; the bits behind them move. The first `end` bytes hold what comes of
// it, cut off there or with zeros up to there, and later bytes stay. Requires: the bits to be replaced are in use, a word of at most 48 bits, and at least the
// bytes in use are written, within the buffer, which `replacer` shows.
pub fn splice(s: &mut [u8], used: usize, end: usize, at: usize, old: usize, word: Word)
    requires { (used ≤ end) × (end ≤ length s.old) × (end < 2 ^ 32) × (1 ≤ old) × (at + old ≤ 8 * used) × (word.len ≤ 48) }
    ensures { unpack s.new ≡ fit (8 * end) (splice at old (word_bits word.len word.bits) (unpack (take used s.old))) ++ unpack (drop end s.old) }
{
    let start = at / 8;
    let o = at % 8;
    let behind = at + old;
    let source = behind.div_ceil(8);
    let p = 8 * source - behind;
    let kept = u64::from(s[start]) >> (8 - o);
    let last = u64::from(s[source - 1]) % (1 << p);
    let first = three(kept, o, word, last, p);
    let shift = Shift {
        used,
        gap: source - start,
        held: o + word.len + p,
    };
    let moved = shift.move_words(
        s,
        Progress {
            next: start,
            word: first,
        },
    );
    shift.move_last(s, end, moved);
}
