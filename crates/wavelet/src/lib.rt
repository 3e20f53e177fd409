// The pruned Wavelet tree of the row index, walked: nothing of it is stored, as it follows from the order and the alphabet.
#![tactic(auto)]

ghost use Rattle.std.specs.Prelude.{◌≡◌, true, ◌-◌, ◌≤◌, ◌<◌, IfOk, MatchResult};
ghost use Rattle.bits.specs.Bits.{bit_of};
ghost use Rattle.calls.specs.Limits.{is_number};
ghost use Rattle.wavelet.specs.Questions.{max_alphabet, check_tree};
ghost use Rattle.wavelet.specs.Leaves.{Passed, SomeNode, node_test, side_of, Aligned, Root};

use calls::Refusal;
use fibonacci::Order;

// The limits of the index: the largest alphabet, and how many bytes an index has at most: 16 bits for each of 4,096 numbers.
pub const MAX_ALPHABET: u32 = 4096;

pub const MAX_INDEX_BYTES: usize = 8192;

// The tree of the numbers from 1 up to a limit, the alphabet, by an order.
#[derive(Clone, Copy)]
pub struct Tree {
    pub order: Order,
    pub limit: u32,
    pub ghost small: { (1 ≤ limit) × (limit ≤ max_alphabet) },
}

// A string of bits on a walk down the tree, by what the walk needs of it.
#[derive(Clone, Copy)]
pub struct Cursor {
    // How many bits it has.
    pub depth: usize,
    // The number of the codeword that goes on with a 0 and the last ones. The string is a node where that is a number of the alphabet.
    pub next: u64,
    // How many ones it ends with.
    pub ones: usize,
    // The number of the codeword that goes on with ones only. Where the string is no node, this is the only number left.
    pub number: u64,
}

impl Cursor {
    // The empty string.
    pub fn root() -> Cursor
        ensures { Root result }
    {
        Cursor {
            depth: 0,
            next: 2,
            ones: 0,
            number: 1,
        }
    }
}

// Whether a string is a node of the tree of 1 .. limit.
pub fn is_node(order: usize, limit: u64, v: Cursor) -> bool
    ensures { result ≡ node_test order limit v }
{
    v.ones < order && v.next <= limit
}

impl Tree {
    // The check that building and the questions begin with, of a row of `len` numbers up to `alphabet`.
    #[tactic(auto, using(calls::proofs::Checks::number_is))]
    pub fn new(order: usize, alphabet: u32, len: usize) -> Result<Tree, Refusal>
        ensures checked { MatchResult result (λ _. Passed order alphabet len) (λ r. check_tree order alphabet len (Ok alphabet) ≡ Err r) }
        ensures tree { IfOk result (λ t. (t.order.m ≡ order) × (t.limit ≡ alphabet)) }
    {
        let order = Order::new(order)?;
        if !calls::is_number(u64::from(alphabet), u64::from(MAX_ALPHABET)) {
            return Err(Refusal::BadAlphabet);
        }
        if len > calls::MAX_COUNT {
            return Err(Refusal::TooManyNumbers);
        }
        Ok(Tree {
            order,
            limit: alphabet,
        })
    }

    // Whether a string is a node.
    pub fn is_node(self, v: Cursor) -> bool
        ensures { result ≡ node_test self.order.m self.limit v }
    {
        is_node(self.order.m(), u64::from(self.limit), v)
    }

    // The string with a bit more.
    // Requires: a node of the tree of some alphabet, which a walk has found by `is_node`; so the values that are added are small.
    #[tactic(auto, using(crate::proofs::Walking::step_fits))]
    pub fn side(self, v: Cursor, one: bool) -> Cursor
        requires { SomeNode self.order.m v }
        ensures { result ≡ side_of self.order.m v one }
    {
        let depth = v.depth + 1;
        let step = self.order.position(depth);
        if one {
            Cursor {
                depth,
                next: v.next + step + step,
                ones: v.ones + 1,
                number: v.number,
            }
        } else {
            Cursor {
                depth,
                next: v.next + step,
                ones: 0,
                number: v.next,
            }
        }
    }

    // The codeword of a number of the alphabet from the top of a word: at most 16 bits and the last ones.
    // Requires: a number from 1 to 4,096, which building and `target_codeword` check.
    #[tactic(auto, using(crate::proofs::Aligned::aligned_short, crate::proofs::Aligned::aligned_fits, crate::proofs::Aligned::aligned_is))]
    pub fn aligned_codeword(self, n: u64) -> u32
        requires { (1 ≤ n) × (n ≤ max_alphabet) }
        ensures { Aligned self.order.m n result }
    {
        let word = codewords::codeword(self.order, n);
        (word.bits << (32 - word.len)) as u32
    }

    // The codeword of n from the top of a word. Where n is no number of the alphabet it may be any word, and that is enough: a walk by any word goes over every
    // bitmap and so shows whether the bytes are an index, and then the question refuses n.
    #[tactic(auto, using(calls::proofs::Checks::number_is))]
    pub fn target_codeword(self, n: u64) -> u32
        ensures { is_number self.limit n ≡ true → Aligned self.order.m n result }
    {
        if !calls::is_number(n, u64::from(self.limit)) {
            return 0;
        }
        self.aligned_codeword(n)
    }
}

// The bit after `depth` others in a codeword that stands at the top of a word.
// Requires: fewer than 32 bits before it, which a walk shows: the tree is at most 16 deep.
#[tactic(auto, using(bits::proofs::Words::bit_masked))]
pub fn next_bit(x: u32, depth: usize) -> bool
    requires { depth < 32 }
    ensures { result ≡ bit_of x (31 - depth) }
{
    x >> (31 - depth) & 1 == 1
}
