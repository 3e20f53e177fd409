// Building the index of a row.
#![tactic(auto)]

ghost use Rattle.std.specs.Prelude.{◌≤◌, length};
ghost use Rattle.wavelet.specs.Questions.{BuildPromise};
ghost use Rattle.wavelet_build.specs.Leaves.{Fills};

use calls::Refusal;
use wavelet::Tree;

// The codewords of a row's numbers, each from the top of a word, up to the first number at fault; how many they are. Where a number is at fault the words may
// be any, and that is enough: building refuses and drops them.
// Requires: a word for each number, which building has made.
#[tactic(auto, using(crate::proofs::Filling::filling_fault, crate::proofs::Filling::filling_more, crate::proofs::Filling::filling_end))]
fn fill(tree: Tree, row: &[u32], words: &mut [u32]) -> Result<usize, Refusal>
    requires { length row.now ≤ length words.old }
    ensures { Fills tree.order.m tree.limit row.now words.new result }
{
    for (i, &n) in row.iter().enumerate() {
        let n = u64::from(n);
        if !calls::is_number(n, u64::from(tree.limit)) {
            return Err(Refusal::OutsideAlphabet(i));
        }
        words[i] = tree.aligned_codeword(n);
    }
    Ok(row.len())
}

// Builds the index of a row of numbers up to `alphabet`; the result is how many bits the bitmaps have. It is built apart, as a refusal must leave the output as it was.
pub fn build(order: usize, alphabet: u32, row: &[u32], out: &mut [u8]) -> Result<usize, Refusal>
    ensures { BuildPromise order alphabet row.now out.old result out.new }
{
    let tree = Tree::new(order, alphabet, row.len())?;
    let mut words = [0; calls::MAX_COUNT];
    let numbers = fill(tree, row, &mut words)?;
    let mut bytes = [0; wavelet::MAX_INDEX_BYTES];
    let bits = wavelet_bitmaps::write_bitmaps(tree, &mut words[..numbers], &mut bytes);
    let count = bits.div_ceil(8);
    if out.len() < count {
        return Err(Refusal::NoRoom);
    }
    lists::copy(out, &bytes, count);
    Ok(bits)
}
