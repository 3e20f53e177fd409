// Writing the bitmaps of a row: those below a string of the tree, a node first, then its 0 side, then its 1 side.
#![tactic(auto)]

ghost use Rattle.std.specs.Prelude.{◌≡◌, false, map, ◌+◌, ◌*◌, ◌^◌, ◌≤◌, ◌<◌, ◌++◌, length, take, drop};
ghost use Rattle.std.proofs.lemmas.List.Edits.{sets};
ghost use Rattle.bits.specs.Bits.{unpack, count};
ghost use Rattle.calls.specs.Limits.{max_count};
ghost use Rattle.wavelet.specs.Leaves.{max_index_bytes};
ghost use Rattle.wavelet_bitmaps.specs.Leaves.{bit_after, partitioned, room, HasWords, WritesSubtree, HasRow, WritesBitmaps};

use wavelet::{Cursor, Tree};

// The first n words of a list over those of another, one by one: two lists that a caller lends would else be copied by a routine from outside that allows for an
// overlap. Requires: both lists have so many, which `partition` shows.
fn copy_words(to: &mut [u32], words: &[u32], n: usize)
    requires { (n ≤ length words.now) × (n ≤ length to.old) }
    ensures { to.new ≡ take n words.now ++ drop n to.old }
{
    for i in 0..n {
        to[i] = words[i];
    }
}

// A node: writes the next bits of the words' codewords as its bitmap from bit `at` on, and partitions the words by them, those with a 0 first; the result is
// how many those are. The others go by way of `spare`. No branch goes by a bit, which a processor cannot foretell: each word is stored on both sides, and
// its bit says on which it stays.
// Requires: fewer than 32 bits before, as many words to spare, and room for the bitmap, all of which `write_subtree` shows of a node.
fn partition(words: &mut [u32], spare: &mut [u32], depth: usize, out: &mut [u8], at: usize) -> usize
    requires short { depth < 32 }
    requires spare { length words.old ≤ length spare.old }
    requires room { at + length words.old ≤ 8 * length out.old }
    requires fits { 8 * length out.old < 2 ^ 64 }
    ensures zeros { result ≡ count false (map (bit_after depth) words.old) }
    ensures words { words.new ≡ partitioned depth words.old }
    ensures bits { unpack out.new ≡ sets (unpack out.old) at (map (bit_after depth) words.old) }
{
    let mut ones: usize = 0;
    for i in 0..words.len() {
        let x = words[i];
        let one = wavelet::next_bit(x, depth);
        bits::set_bit(out, at + i, one);
        spare[ones] = x;
        words[i - ones] = x;
        ones += usize::from(one);
    }
    let zeros = words.len() - ones;
    copy_words(&mut words[zeros..], spare, ones);
    zeros
}

// Writes the bitmaps below a string, from bit `at` on, of the numbers whose codewords the words have; the result is where they end. At a node the words
// are partitioned in place, so each side has its own range of them, in the row's order.
// Requires: the codewords of some row's numbers below a string of the tree, as many words to spare, and room for the bitmaps, all of which `write_bitmaps`
// shows of the root and a node shows of its sides.
fn write_subtree(
    tree: Tree,
    v: Cursor,
    words: &mut [u32],
    spare: &mut [u32],
    out: &mut [u8],
    at: usize,
) -> usize
    requires words { HasWords tree.order.m tree.limit v words.old }
    requires spare { length words.old ≤ length spare.old }
    requires room { at + room v.depth (length words.old) ≤ 8 * length out.old }
    requires bytes { length out.old ≤ max_index_bytes }
    ensures within { result ≤ at + room v.depth (length words.old) }
    ensures written { WritesSubtree tree.order.m tree.limit v words.old at out.old result out.new }
{
    let n = words.len();
    if n == 0 || !tree.is_node(v) {
        return at;
    }
    let zeros = partition(words, spare, v.depth, out, at);
    let (zero_words, one_words) = words.split_at_mut(zeros);
    let zero = tree.side(v, false);
    let mid = write_subtree(tree, zero, zero_words, spare, out, at + n);
    let one = tree.side(v, true);
    write_subtree(tree, one, one_words, spare, out, mid)
}

// Writes the bitmaps of a row from the front of a buffer that has room for every index; the words have the codewords of its numbers. The result is how many
// bits they have.
// Requires: the codewords of a row that is not too long, and as many bytes as an index has at most, all of which building checks or makes.
pub fn write_bitmaps(tree: Tree, words: &mut [u32], out: &mut [u8]) -> usize
    requires count { length words.old ≤ max_count }
    requires row { HasRow tree.order.m words.old }
    requires bytes { length out.old ≡ max_index_bytes }
    ensures within { result ≤ 8 * max_index_bytes }
    ensures written { WritesBitmaps tree.order.m tree.limit words.old out.old result out.new }
{
    let mut spare = [0; calls::MAX_COUNT];
    write_subtree(tree, Cursor::root(), words, &mut spare, out, 0)
}
