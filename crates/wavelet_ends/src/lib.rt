// Where the bitmaps of an index start and end, which decides whether bytes are one.
#![tactic(auto)]

ghost use Rattle.std.specs.Prelude.{◌≡◌, true, ◌+◌, ◌*◌, ◌≤◌, ◌<◌, length, take, drop, MatchResult};
ghost use Rattle.bits.specs.Bits.{unpack, count};
ghost use Rattle.calls.specs.declared.Refusal.TheVariants.{NotAnIndex};
ghost use Rattle.wavelet.specs.Bitmaps.{exact};
ghost use Rattle.wavelet.specs.Leaves.{IsCursor, node_test, Ends, Starts, Closes, max_index_bytes};

use calls::Refusal;
use wavelet::{Cursor, Tree};

// The bytes of an index that are not too many, and the tree whose bitmaps they are to be.
#[derive(Clone, Copy)]
pub struct Index<'a> {
    pub tree: Tree,
    pub bytes: &'a [u8],
    pub ghost short: { length bytes.now ≤ max_index_bytes },
}

// How many ones the bitmap of k bits has that starts at bit `at`. Its bytes are handed on with the offset of its first bit.
// Requires: a bitmap that does not run past the bytes, which whoever asks has seen, and at most 8,192 bytes, which `Index` says of its own.
#[tactic(auto, using(wavelet::proofs::Ends::slice_bits, wavelet::proofs::Ends::ones_few))]
pub fn ones_in(b: &[u8], at: usize, k: usize) -> usize
    requires bitmap { at + k ≤ 8 * length b.now }
    requires short { length b.now ≤ max_index_bytes }
    ensures ones { result ≡ count true (take k (drop at (unpack b.now))) }
    ensures few { result ≤ k }
{
    let from = at / 8;
    let to = (at + k).div_ceil(8);
    rank_select::ones_from(&b[from..to], at % 8, k)
}

// Whether bitmaps that end at bit `end` take exactly the bytes, and the padding after them holds no one.
// Requires: at most 8,192 bytes, which `Index` says of its own.
#[tactic(auto, using(wavelet::proofs::Exact::exact_is))]
pub fn is_exact(b: &[u8], end: usize) -> bool
    requires { length b.now ≤ max_index_bytes }
    ensures { result ≡ exact end b.now }
{
    end.div_ceil(8) == b.len() && ones_in(b, end, b.len() * 8 - end) == 0
}

impl<'a> Index<'a> {
    // The check of the bytes' number: no index has more than 8,192.
    pub fn new(tree: Tree, bytes: &'a [u8]) -> Result<Index<'a>, Refusal>
        ensures { MatchResult result (λ x. (x.tree ≡ tree) × (x.bytes.now ≡ bytes.now)) (λ r. (r ≡ NotAnIndex) × (max_index_bytes < length bytes.now)) }
    {
        if bytes.len() > wavelet::MAX_INDEX_BYTES {
            return Err(Refusal::NotAnIndex);
        }
        Ok(Index { tree, bytes })
    }

    // How many ones the bitmap of k bits has that starts at bit `at`.
    // Requires: a bitmap that does not run past the bytes, which whoever asks has seen.
    pub fn ones_in(self, at: usize, k: usize) -> usize
        requires { at + k ≤ 8 * length self.bytes.now }
        ensures ones { result ≡ count true (take k (drop at (unpack self.entry.bytes.now))) }
        ensures few { result ≤ k }
    {
        ones_in(self.bytes, at, k)
    }

    // Where the bitmaps below a string end that start at bit `at` and are of k numbers, if they do not run past the bytes.
    // Requires: a string of the tree and a start in the bytes, which `start_of` and `end_after` show of the sides of their node.
    #[cycle(end_after_end_of_start_of)]
    fn end_of(self, v: Cursor, k: usize, at: usize) -> Option<usize>
        requires string { IsCursor self.tree.order.m self.tree.limit v }
        requires start { at ≤ 8 * length self.bytes.now }
        ensures { Ends self.entry.tree.order.m self.entry.tree.limit v k self.entry.bytes.now at result }
    {
        if !self.tree.is_node(v) {
            return Some(at);
        }
        if k > self.bytes.len() * 8 - at {
            return None;
        }
        let ones = self.ones_in(at, k);
        let mid = self.start_of(v, k, ones, at, true)?;
        self.end_after(v, ones, mid, false)
    }

    // Where the bitmaps of a side of a node start, whose own bitmap has k bits, `ones` of them ones, and starts at bit `at`.
    // Requires: a string of the tree, which is the root or a side of a node; and that it is a node whose bitmap does not run past the bytes, which whoever goes
    // on from it has tested.
    #[cycle(end_after_end_of_start_of)]
    pub fn start_of(self, v: Cursor, k: usize, ones: usize, at: usize, one: bool) -> Option<usize>
        requires string { IsCursor self.tree.order.m self.tree.limit v }
        requires node { node_test self.tree.order.m self.tree.limit v ≡ true }
        requires own { at + k ≤ 8 * length self.bytes.now }
        requires ones { ones ≤ k }
        ensures { Starts self.entry.tree.order.m self.entry.tree.limit v k ones self.entry.bytes.now at one result }
    {
        let own = at + k;
        if !one || ones == k {
            return Some(own);
        }
        let zero = self.tree.side(v, false);
        self.end_of(zero, k - ones, own)
    }

    // Where the bitmaps of a node end, once those of the side that a walk has taken have ended at bit `at`; `ones` of the node's own bits are ones.
    // Requires: what `start_of` requires, but in place of the node's bitmap the end of the side in the bytes.
    #[cycle(end_after_end_of_start_of)]
    #[tactic(auto, using(wavelet::proofs::Walking::closes_now))]
    pub fn end_after(self, v: Cursor, ones: usize, at: usize, one: bool) -> Option<usize>
        requires string { IsCursor self.tree.order.m self.tree.limit v }
        requires node { node_test self.tree.order.m self.tree.limit v ≡ true }
        requires start { at ≤ 8 * length self.bytes.now }
        ensures { Closes self.entry.tree.order.m self.entry.tree.limit v ones self.entry.bytes.now at one result }
    {
        if one || ones == 0 {
            return Some(at);
        }
        let side = self.tree.side(v, true);
        self.end_of(side, ones, at)
    }

    // Whether bitmaps that end at bit `end` take exactly the bytes, and the padding after them holds no one.
    pub fn is_exact(self, end: usize) -> bool
        ensures { result ≡ exact end self.entry.bytes.now }
    {
        is_exact(self.bytes, end)
    }
}
