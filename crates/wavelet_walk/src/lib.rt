// The walk of the three questions: down the tree the way of a number, and for select back. It goes over every bitmap once, which also shows whether the
// bytes are an index.
#![tactic(auto)]

ghost use Rattle.std.specs.Prelude.{◌≡◌, ◌+◌, ◌-◌, ◌*◌, ◌≤◌, ◌<◌, length, take, drop};
ghost use Rattle.bits.specs.Bits.{unpack, select_bit};
ghost use Rattle.wavelet.specs.Leaves.{IsCursor, side};
ghost use Rattle.wavelet_walk.specs.Leaves.{InView, turn, at_leaf, onward, back, Finds, Walks};

use calls::Refusal;
use wavelet::{Cursor, Tree};
use wavelet_ends::Index;

// What a walk is for. It has a place or a use in view.
#[derive(Clone, Copy)]
pub enum Question {
    // The number at the place: at a node the walk goes by the bit there.
    Extract,
    // How often a number stands before the place: the walk goes by its codeword.
    Rank,
    // The place of the use of a number, by how many others stand before it: the walk goes by its codeword.
    Select,
}

// What a walk finds: where the bitmaps end; what the question asks for, and how many nodes begin the codeword of the number that the walk comes to.
#[derive(Clone, Copy)]
struct Walked {
    end: usize,
    result: usize,
    visits: usize,
}

// How many numbers are on a side of a node that has k, of which `ones` are on the 1 side.
// Requires: no more ones than numbers, which their count shows.
fn count_on(one: bool, k: usize, ones: usize) -> usize
    requires { ones ≤ k }
    ensures { result ≡ side one (k - ones) ones }
{
    if one { ones } else { k - ones }
}

// The place of the bit v that has j others of its kind before it in the bitmap of k bits that starts at bit `at`; k where there is none.
// Requires: a bitmap that does not run past the bytes, which `descend` shows of a node's.
#[tactic(auto, using(wavelet::proofs::Ends::slice_bits))]
fn select_in(index: Index, at: usize, k: usize, v: bool, j: usize) -> usize
    requires { at + k ≤ 8 * length index.bytes.now }
    ensures { result ≡ select_bit v j (take k (drop at (unpack index.entry.bytes.now))) }
{
    let from = at / 8;
    let to = (at + k).div_ceil(8);
    rank_select::select_bit(&index.bytes[from..to], at % 8, k, v, j)
}

impl Question {
    // What is found where only the number n is left, k times.
    fn at_leaf(self, n: usize, k: usize, i: usize) -> usize
        ensures { result ≡ at_leaf self n k i }
    {
        match self {
            Question::Extract => n,
            Question::Rank => i,
            Question::Select => i.min(k),
        }
    }

    // Whether a walk goes on with a 1 from a node whose bitmap starts at bit `at`; x is the codeword that it goes by.
    // Requires: fewer than 32 bits before the node's next, and the place in view in the bytes, which `descend` shows.
    fn takes_one(self, x: u32, index: Index, at: usize, i: usize, depth: usize) -> bool
        requires depth { depth < 32 }
        requires view { InView self (at + i) (8 * length index.bytes.now) }
        ensures { result ≡ turn self x index.entry.bytes.now at i depth }
    {
        match self {
            Question::Extract => bits::bit(index.bytes, at + i),
            Question::Rank | Question::Select => wavelet::next_bit(x, depth),
        }
    }

    // What is in view on a side of a node: a place becomes how many of the numbers before it are on that side, and a use stays the same one.
    // Requires: the place in view in the bytes, which `descend` shows.
    #[tactic(auto, using(crate::proofs::Questions::place_onward))]
    fn onward(self, index: Index, at: usize, i: usize, one: bool) -> usize
        requires { InView self (at + i) (8 * length index.bytes.now) }
        ensures { result ≡ onward self one (drop at (unpack index.entry.bytes.now)) i }
    {
        match self {
            Question::Extract | Question::Rank => count_on(one, i, index.ones_in(at, i)),
            Question::Select => i,
        }
    }

    // What was found on a side of a node, on the way back: a place there becomes the place here.
    // Requires: the node's bitmap in the bytes, which `descend` shows.
    fn back(self, index: Index, at: usize, k: usize, one: bool, res: usize) -> usize
        requires { at + k ≤ 8 * length index.bytes.now }
        ensures { result ≡ back self one (take k (drop at (unpack index.entry.bytes.now))) res }
    {
        match self {
            Question::Extract | Question::Rank => res,
            Question::Select => select_in(index, at, k, one, res),
        }
    }
}

// Walks the bitmaps of k numbers below a string, from bit `at` on, with place or use i of those numbers in view, if they do not run past the bytes.
// Requires: a string of the tree, which is the root or a side of a node, a start in the bytes, and a place in the row, which `walk` checks.
#[tactic(auto, using(wavelet::proofs::Walking::end_short))]
fn descend(
    index: Index,
    v: Cursor,
    k: usize,
    at: usize,
    question: Question,
    x: u32,
    i: usize,
) -> Option<Walked>
    requires string { IsCursor index.tree.order.m index.tree.limit v }
    requires start { at ≤ 8 * length index.bytes.now }
    requires view { InView question i k }
    ensures { Finds index.entry.tree.order.m index.entry.tree.limit v k index.entry.bytes.now at question x i result }
{
    if !index.tree.is_node(v) {
        let result = question.at_leaf(v.number as usize, k, i);
        return Some(Walked {
            end: at,
            result,
            visits: v.depth,
        });
    }
    if k > index.bytes.len() * 8 - at {
        return None;
    }
    let ones = index.ones_in(at, k);
    let one = question.takes_one(x, index, at, i, v.depth);
    let from = index.start_of(v, k, ones, at, one)?;
    let side = index.tree.side(v, one);
    let many = count_on(one, k, ones);
    let j = question.onward(index, at, i, one);
    let found = descend(index, side, many, from, question, x, j)?;
    let end = index.end_after(v, ones, found.end, one)?;
    let result = question.back(index, at, k, one, found.result);
    Some(Walked {
        end,
        result,
        ..found
    })
}

// Walks the whole index for a question about place or use i, and about the number n if it asks for one: the checks that the questions share, and what they
// go on with. Where n is no number of the alphabet or i no place of the row, its result may be any, and that is enough: the walk still shows whether the
// bytes are an index, and then the question refuses n or i.
#[tactic(auto, using(wavelet::proofs::Answering::ask_long))]
pub fn walk(
    order: usize,
    alphabet: u32,
    len: usize,
    bytes: &[u8],
    question: Question,
    n: u32,
    i: usize,
) -> Result<(usize, usize), Refusal>
    ensures { Walks order alphabet len bytes.now question n i result }
{
    let tree = Tree::new(order, alphabet, len)?;
    let index = Index::new(tree, bytes)?;
    let x = tree.target_codeword(u64::from(n));
    let Some(found) = descend(index, Cursor::root(), len, 0, question, x, i.min(len)) else {
        return Err(Refusal::NotAnIndex);
    };
    if !index.is_exact(found.end) {
        return Err(Refusal::NotAnIndex);
    }
    Ok((found.result, found.visits))
}
