// The calls for programs in other languages: each hands over the answer of its Rattle call as eight words. A slice is a pointer and a length.
#![tactic(auto)]

ghost use Rattle.std.specs.Prelude.{◌≡◌, ◌<◌};
ghost use Rattle.rules.specs.Paper.{done, refused, count_of};
ghost use Rattle.reader.specs.Promise.{Reading};
ghost use Rattle.writer.specs.Promise.{Writing};
ghost use Rattle.judge.specs.Promise.{Judging};
ghost use Rattle.triggers.specs.Promise.{Listing};
ghost use Rattle.bus_log.specs.Promise.{Holding, DueWritten};
ghost use Rattle.planner.specs.Promise.{Planning, Replanning};
ghost use Rattle.response.specs.Promise.{Responding};
ghost use Rattle.versions.specs.Promise.{Raising, Lowering};
ghost use Rattle.ffynorwel.specs.Eight.{eight, counted, count_words, judged_words, held_words};
ghost use Rattle.ffynorwel.specs.Handed.{Handed};

use rules::{Paper, Refusal};

// Stores number, place, second place and figures.
fn store(answer: &mut [u32; 8], paper: Paper, figures: [u32; 5])
    ensures { answer.new ≡ eight paper figures }
{
    let [a, b, c, d, e] = figures;
    *answer = [paper.number, paper.place, paper.second, a, b, c, d, e];
}

// Stores a refusal.
fn refuse(answer: &mut [u32; 8], q: Refusal)
    ensures { answer.new ≡ counted (refused q) 0 }
{
    store(answer, Paper::from(q), [0; 5]);
}

// Stores that the call is done, with its figures.
fn finish(answer: &mut [u32; 8], figures: [u32; 5])
    ensures { answer.new ≡ eight done figures }
{
    store(answer, Paper::DONE, figures);
}

// Stores the answer of a call that counts what it wrote.
fn store_count(answer: &mut [u32; 8], got: Result<usize, Refusal>)
    requires { count_of got < 4294967296 }
    ensures { answer.new ≡ count_words got }
{
    match got {
        Ok(n) => finish(answer, [n as u32, 0, 0, 0, 0]),
        Err(q) => refuse(answer, q),
    }
}

// reader::read; the figure is how many words were written.
#[unsafe(no_mangle)]
pub extern "C" fn ffy_read(file: &[u8], words: &mut [u32], answer: &mut [u32; 8])
    ensures { Handed (Reading file.now words.old words.new) count_words answer.new }
{
    store_count(answer, reader::read(file, words));
}

// writer::write; the figure is how many bytes were written.
#[unsafe(no_mangle)]
pub extern "C" fn ffy_write(words: &[u32], file: &mut [u8], answer: &mut [u32; 8])
    ensures { Handed (Writing words.now file.old file.new) count_words answer.new }
{
    store_count(answer, writer::write(words, file));
}

// versions::up, and versions::back; the figure is how many bytes were written.
#[unsafe(no_mangle)]
pub extern "C" fn ffy_up(file: &[u8], out: &mut [u8], answer: &mut [u32; 8])
    ensures { Handed (Raising file.now out.old out.new) count_words answer.new }
{
    store_count(answer, versions::up(file, out));
}

#[unsafe(no_mangle)]
pub extern "C" fn ffy_back(file: &[u8], out: &mut [u8], answer: &mut [u32; 8])
    ensures { Handed (Lowering file.now out.old out.new) count_words answer.new }
{
    store_count(answer, versions::back(file, out));
}

// judge::judge; the figures are the five of the bus time.
#[unsafe(no_mangle)]
pub extern "C" fn ffy_judge(file: &[u8], proposal: &[u32], answer: &mut [u32; 8])
    ensures { Handed (Judging file.now proposal.now) judged_words answer.new }
{
    match judge::judge(file, proposal) {
        Ok(t) => finish(answer, [t.reference, t.used, t.in_window, t.empty, t.gaps]),
        Err(q) => refuse(answer, q),
    }
}

// triggers::lists; the figure is how many words were written.
#[unsafe(no_mangle)]
pub extern "C" fn ffy_lists(file: &[u8], proposal: &[u32], words: &mut [u32], answer: &mut [u32; 8])
    ensures { Handed (Listing file.now proposal.now words.old words.new) count_words answer.new }
{
    store_count(answer, triggers::lists(file, proposal, words));
}

// bus_log::hold; the figures are 0 for clean or 1 for a difference, then its index and the time and identifier that were due there.
#[unsafe(no_mangle)]
pub extern "C" fn ffy_hold(
    file: &[u8],
    proposal: &[u32],
    log: &[u32],
    span: u32,
    answer: &mut [u32; 8],
)
    ensures { Handed (Holding file.now proposal.now log.now span) held_words answer.new }
{
    match bus_log::hold(file, proposal, log, span) {
        Ok(None) => finish(answer, [0; 5]),
        Ok(Some(d)) => finish(answer, [1, d.index, d.time, d.identifier, 0]),
        Err(q) => refuse(answer, q),
    }
}

// bus_log::due; the figure is how many words were written.
#[unsafe(no_mangle)]
pub extern "C" fn ffy_due(
    file: &[u8],
    proposal: &[u32],
    span: u32,
    words: &mut [u32],
    answer: &mut [u32; 8],
)
    ensures { Handed (DueWritten file.now proposal.now span words.old words.new) count_words answer.new }
{
    store_count(answer, bus_log::due(file, proposal, span, words));
}

// planner::plan, and planner::replan; the figure is how many words of the proposal were written.
#[unsafe(no_mangle)]
pub extern "C" fn ffy_plan(file: &[u8], proposal: &mut [u32], answer: &mut [u32; 8])
    ensures { Handed (Planning file.now proposal.old proposal.new) count_words answer.new }
{
    store_count(answer, planner::plan(file, proposal));
}

#[unsafe(no_mangle)]
pub extern "C" fn ffy_replan(file: &[u8], kept: &[u32], proposal: &mut [u32], answer: &mut [u32; 8])
    ensures { Handed (Replanning file.now kept.now proposal.old proposal.new) count_words answer.new }
{
    store_count(answer, planner::replan(file, kept, proposal));
}

// response::responses; the figure is how many events miss their deadlines.
#[unsafe(no_mangle)]
pub extern "C" fn ffy_responses(events: &[u32], times: &mut [u32], answer: &mut [u32; 8])
    ensures { Handed (Responding events.now times.old times.new) count_words answer.new }
{
    match response::responses(events, times) {
        Ok(misses) => finish(answer, [misses, 0, 0, 0, 0]),
        Err(q) => refuse(answer, q),
    }
}
