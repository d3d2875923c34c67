// Is this proposal acceptable, and where does the bus time go?
#![tactic(auto)]

ghost use Rattle.judge.specs.Promise.{Judging};

use basics::FILL;
use losses::BusTime;
use rules::{Refusal, words};

// Where the bus time goes with an acceptable proposal for a problem file, or why it is refused: both are read once and tested, and the figures are those of
// what was tested.
#[tactic(auto, using(crate::proofs::Promise::judged))]
pub fn judge(file: &[u8], proposal: &[u32]) -> Result<BusTime, Refusal>
    ensures { Judging file.now proposal.now result }
{
    let mut words = [FILL; words::MOST_WORDS];
    let n = proposal::accept(file, proposal, &mut words)?;
    let lost = losses::figures(&words[..n], proposal);
    Ok(lost)
}
