// A problem file moved to the other version: up to version 2, and back to version 1.
#![tactic(auto)]

ghost use Rattle.std.specs.Prelude.{◌≡◌, ◌≤◌, length};
ghost use Rattle.rules.specs.Problem.{most_words};
ghost use Rattle.rules.specs.Refusal.{first_fault};
ghost use Rattle.problem.specs.Parts.{Counted};
ghost use Rattle.problem.specs.Wrong.{column_unheld, message_unheld, held_fault};
ghost use Rattle.versions.specs.Promise.{OpenedIn, Raising, Lowering};

use basics::FILL;
use problem::Layout;
use problem::layout::{identifier_most, kind_most, version_of};
use rules::{Refusal, refuse_if, words};

// The words of a file of that version, in the front of a buffer that is large enough for any problem, or the refusal.
fn open_in(file: &[u8], layout: Layout, words: &mut [u32]) -> Result<usize, Refusal>
    requires { most_words ≤ length words.old }
    ensures { OpenedIn layout file.now words.new result }
{
    let n = reader::decode(file, words)?;
    let version = reader::two_bytes(file, problem::VERSION_AT);
    refuse_if(version != version_of(layout), Refusal::Version)?;
    Ok(n)
}

// The first column whose kind the version has no room for.
fn columns_held(layout: Layout, p: &[u32], k: usize, m: usize) -> Result<(), Refusal>
    requires { Counted p.now k m }
    ensures { result ≡ first_fault k (column_unheld layout p.now) }
{
    let most = kind_most(layout);
    for c in 0..k {
        refuse_if(most < wellformed::kind_in(p, c), Refusal::Unheld(c as u32))?;
    }
    Ok(())
}

// The first message whose identifier the version has no room for.
fn messages_held(layout: Layout, p: &[u32], k: usize, m: usize) -> Result<(), Refusal>
    requires { Counted p.now k m }
    ensures { result ≡ first_fault m (message_unheld layout p.now) }
{
    let most = identifier_most(layout);
    for j in 0..m {
        let identifier = wellformed::field_in(p, k, j, words::IDENTIFIER);
        refuse_if(most < identifier, Refusal::Unheld(j as u32))?;
    }
    Ok(())
}

// The first column, else the first message, that the version has no room for.
fn held_fault(layout: Layout, p: &[u32], k: usize, m: usize) -> Result<(), Refusal>
    requires { Counted p.now k m }
    ensures { result ≡ held_fault layout p.now }
{
    columns_held(layout, p, k, m)?;
    messages_held(layout, p, k, m)
}

// Moves a file of version 1 up to version 2, into the caller's buffer, which keeps its bytes beyond the file's.
pub fn up(file: &[u8], out: &mut [u8]) -> Result<usize, Refusal>
    ensures { Raising file.now out.old out.new result }
{
    let mut words = [FILL; words::MOST_WORDS];
    let n = open_in(file, Layout::One, &mut words)?;
    writer::lay(Layout::Two, &words[..n], out)
}

// Moves a file of version 2 back to version 1, into the caller's buffer, which keeps its bytes beyond the file's.
pub fn back(file: &[u8], out: &mut [u8]) -> Result<usize, Refusal>
    ensures { Lowering file.now out.old out.new result }
{
    let mut words = [FILL; words::MOST_WORDS];
    let n = open_in(file, Layout::Two, &mut words)?;
    let problem = &words[..n];
    let k = words::columns_of(problem);
    let m = words::messages_of(problem);
    held_fault(Layout::One, problem, k, m)?;
    writer::lay(Layout::One, problem, out)
}
