// What is wrong with a proposal, which judge, lists and logs all test so, and with placements to keep.
#![tactic(auto)]

ghost use Rattle.std.specs.Prelude.{◌≡◌, ◌≤◌, length};
ghost use Rattle.rules.specs.Problem.{WellFormed, most_words, messages as messageCount, proposal_words, Gives};
ghost use Rattle.rules.specs.Refusal.{first_fault};
ghost use Rattle.rules.specs.Tests.{proposal_fault};
ghost use Rattle.row_words.specs.RowWords.{RowWords};
ghost use Rattle.proposal.specs.Accept.{Tested};
ghost use Rattle.proposal.specs.Partial.{looked, fault_in, Walked, KeptTested};

use rules::{Refusal, placing, words};

// Whether message j is tested: of a list that may leave messages out only those that it keeps.
fn looks_at(partial: bool, w: &[u32], j: usize) -> bool
    requires { Gives w.now j }
    ensures { result ≡ looked partial w.now j }
{
    !partial || kept::keeps(w, j)
}

// The first message with a fault, and at it the lowest number; of a meeting also the lowest earlier message, which is looked up only where a cell is found taken.
// The row words are those of no message at the start, and of all where there is no fault. Document 01 names the form: nested loops, left by a label that yields the fault.
fn first_fault(
    p: &[u32],
    w: &[u32],
    messages: usize,
    partial: bool,
    taken: &mut [u32; words::MOST_ROWS],
) -> Result<(), Refusal>
    requires { WellFormed p.now × (messages ≡ messageCount p.now) × (length w.now ≡ proposal_words p.now) × RowWords p.now w.now 0 taken.old }
    ensures { Walked (first_fault messages (fault_in partial p.now w.now)) p.now w.now taken.new result }
{
    let rows = words::rows_of(p);
    'faults: {
        for j in 0..messages {
            if !looks_at(partial, w, j) {
                continue;
            }
            let c = words::column_of(w, j);
            let r = words::row_of(w, j);
            let step = words::repeat_of(p, j);
            let own = placing::own_fault(p, j, step, c, r);
            let Ok(()) = own else {
                break 'faults own;
            };
            if row_words::occupy(taken, rows, step, c, r) {
                for i in 0..j {
                    if placing::do_meet(p, w, i, j) {
                        break 'faults Err(Refusal::Meeting(j as u32, i as u32));
                    }
                }
                // A cell that is taken is an earlier message's: the label is the only way out.
                unreachable!();
            }
        }
        Ok(())
    }
}

// What is wrong with a proposal for a well-formed problem: its number of words, or the first message with a fault.
fn proposal_fault(p: &[u32], w: &[u32]) -> Result<(), Refusal>
    requires { WellFormed p.now }
    ensures { result ≡ proposal_fault p.now w.now }
{
    if w.len() != words::proposal_words(p) {
        return Err(Refusal::ProposalLength);
    }
    let mut taken = [0u32; words::MOST_ROWS];
    first_fault(p, w, words::messages_of(p), false, &mut taken)
}

// What is wrong with placements to keep for a well-formed problem. Where nothing is, the words that were all 0 are the row words of the kept messages.
pub fn kept_fault(p: &[u32], k: &[u32], taken: &mut [u32; words::MOST_ROWS]) -> Result<(), Refusal>
    requires { WellFormed p.now × RowWords p.now k.now 0 taken.old }
    ensures { KeptTested p.now k.now taken.new result }
{
    if k.len() != words::proposal_words(p) {
        return Err(Refusal::ProposalLength);
    }
    first_fault(p, k, words::messages_of(p), true, taken)
}

// Reads the problem into a buffer that is large enough for any, hands its refusal on, and tests the proposal.
#[tactic(auto, using(crate::proofs::Accepting::accepting))]
pub fn accept(file: &[u8], proposal: &[u32], words: &mut [u32]) -> Result<usize, Refusal>
    requires { most_words ≤ length words.old }
    ensures { Tested file.now proposal.now words.new result }
{
    // Document 01 names let .. else for this place.
    let got = reader::decode(file, words);
    let Ok(n) = got else {
        return got;
    };
    proposal_fault(&words[..n], proposal)?;
    Ok(n)
}
