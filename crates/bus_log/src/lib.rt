// What was on the wire held against the plan, and the list of sends that is due.
#![tactic(auto)]

ghost use Rattle.std.specs.Prelude.{◌≡◌, ◌∷◌, ◌*◌, ◌%◌, ◌<◌, ◌≤◌, length, drop};
ghost use Rattle.basics.specs.Runs.{run, Put};
ghost use Rattle.rules.specs.Problem.{WellFormed, rows as row_count, messages as messageCount};
ghost use Rattle.proposal.specs.Accepted.{Accepted};
ghost use Rattle.cells.specs.Table.{Table};
ghost use Rattle.bus_log.specs.Span.{most_span, cycle_sends};
ghost use Rattle.bus_log.specs.Rows.{Numbered, cell_words, cells_of, words_of_row, most_rows_due, cycle_most};
ghost use Rattle.bus_log.specs.Parts.{Agreeing, Begins};
ghost use Rattle.bus_log.specs.Promise.{HoldingAccepted, Holding, DueAccepted, DueWritten};

use basics::FILL;
use cells::{CELLS, cell_of};
use rules::{Refusal, refuse_if, words};

// A send's words: when it starts, and its identifier.
pub const PAIR: usize = 2;

// A span has 1 to 100 matrix cycles.
pub const MOST_SPAN: u32 = 100;

// Twice this is due where nothing is: a number, as the C interface hands on the three words of a Difference (FFY_NONE of include/ffynorwel.h).
pub const NOTHING: u32 = 4294967295;

// A row has at most the reference message and a send in each column.
const ROW_WORDS: usize = PAIR * (1 + words::MOST_COLUMNS);

// No list has more words.
pub const MOST_WORDS: usize = ROW_WORDS * words::MOST_ROWS * MOST_SPAN as usize;

// ---- what is due

// A send's words, at the front of a part.
fn put_pair(list: &mut [u32], time: usize, identifier: usize)
    requires { (2 ≤ length list.old) × (time < 4294967296) × (identifier < 4294967296) }
    ensures { list.new ≡ time ∷ identifier ∷ drop 2 list.old }
{
    list[0] = time as u32;
    list[1] = identifier as u32;
}

// The words of a cell in which the message of this number, counted from 1, starts, none where the number is 0 (the table of cells is bytes, in fixed memory);
// answers how many words they are.
fn write_cell(p: &[u32], number: usize, time: usize, list: &mut [u32]) -> usize
    requires well_formed { WellFormed p.now × (number ≤ messageCount p.now) × (time < 4294967296) }
    requires time_in_bounds { length (cell_words p.now number time) ≤ length list.old }
    ensures { Put (cell_words p.now number time) list.old list.new result }
{
    let Some(j) = number.checked_sub(1) else {
        return 0;
    };
    put_pair(list, time, words::identifier_of(p, j));
    PAIR
}

// The sends in the cells of row i, counted from time 0 on; answers how many words they are.
fn write_cells(p: &[u32], table: &[u8; CELLS], i: usize, list: &mut [u32]) -> usize
    requires numbered { Numbered p.now table.now × (i < most_rows_due) }
    requires i_in_bounds { length (cells_of p.now table.now i) ≤ length list.old }
    ensures { Put (cells_of p.now table.now i) list.old list.new result }
{
    let row = i % words::rows_of(p);
    let begin = i * words::cycle_of(p);
    let mut at: usize = 0;
    for c in 0..words::columns_of(p) {
        let number = usize::from(table[cell_of(row, c)]);
        at += write_cell(p, number, begin + words::start_of(p, c), &mut list[at..]);
    }
    at
}

// The sends of row i: the reference message, then those of the cells.
fn write_row(p: &[u32], table: &[u8; CELLS], i: usize, list: &mut [u32]) -> usize
    requires numbered { Numbered p.now table.now × (i < most_rows_due) }
    requires i_in_bounds { length (words_of_row p.now table.now i) ≤ length list.old }
    ensures { Put (words_of_row p.now table.now i) list.old list.new result }
{
    put_pair(list, i * words::cycle_of(p), words::ref_id_of(p));
    PAIR + write_cells(p, table, i, &mut list[PAIR..])
}

// The sends of the first rows, so many, one row behind the other.
fn write_rows(p: &[u32], table: &[u8; CELLS], count: usize, list: &mut [u32]) -> usize
    requires numbered { Numbered p.now table.now × (count ≤ most_rows_due) }
    requires table_in_bounds { length (run count (words_of_row p.now table.now)) ≤ length list.old }
    ensures { Put (run count (words_of_row p.now table.now)) list.old list.new result }
{
    let mut at: usize = 0;
    for i in 0..count {
        at += write_row(p, table, i, &mut list[at..]);
    }
    at
}

// How many sends start in a matrix cycle: a reference message in each row, and each message once in so many rows as it repeats.
fn cycle_sends(p: &[u32]) -> usize
    requires { WellFormed p.now }
    ensures { (result ≡ cycle_sends p.now) × (result ≤ cycle_most) }
{
    let rows = words::rows_of(p);
    let mut sends = rows;
    for j in 0..words::messages_of(p) {
        sends += rows / words::repeat_of(p, j);
    }
    sends
}

// The list of an accepted proposal, if the buffer has room; answers how many words it has.
fn due_accepted(p: &[u32], w: &[u32], span: usize, list: &mut [u32]) -> Result<usize, Refusal>
    requires { Accepted p.now w.now × (span ≤ most_span) }
    ensures { DueAccepted p.now w.now span list.old list.new result }
{
    refuse_if(list.len() < PAIR * (cycle_sends(p) * span), Refusal::Room)?;
    let mut table = [0u8; CELLS];
    cells::fill(p, w, &mut table);
    Ok(write_rows(p, &table, span * words::rows_of(p), list))
}

// Writes the list of the sends that start in so many matrix cycles into the caller's buffer, which keeps its words beyond them; answers how many words the list has.
pub fn due(file: &[u8], proposal: &[u32], span: u32, list: &mut [u32]) -> Result<usize, Refusal>
    ensures { DueWritten file.now proposal.now span list.old list.new result }
{
    let mut buffer = [FILL; words::MOST_WORDS];
    let n = proposal::accept(file, proposal, &mut buffer)?;
    refuse_if(basics::is_outside(span, 1, MOST_SPAN), Refusal::Log)?;
    due_accepted(&buffer[..n], proposal, span as usize, list)
}

// ---- a log against it

// The first pair that differs, counted from 0, and what was due there: the time and the identifier, NOTHING twice if nothing was.
#[derive(Clone, Copy)]
pub struct Difference {
    pub index: u32,
    pub time: u32,
    pub identifier: u32,
}

// How many words at the front of a log are those that are due, each pair so much later.
fn agreeing(due: &[u32], later: usize, log: &[u32]) -> usize
    requires { (length due.now % 2 ≡ 0) × (length log.now % 2 ≡ 0) × (later < 4294967296) }
    ensures { Agreeing due.now later log.now result }
{
    let most = due.len().min(log.len());
    for pair in 0..most / PAIR {
        let at = PAIR * pair;
        if log[at] as usize != due[at] as usize + later || log[at + 1] != due[at + 1] {
            return at;
        }
    }
    most
}

// Holds a log against the sends of the first matrix cycle, row by row: how many words they are if it begins with all of them, or where it differs.
fn hold_rows(p: &[u32], table: &[u8; CELLS], log: &[u32]) -> Result<usize, Difference>
    requires { Numbered p.now table.now × (length log.now % 2 ≡ 0) }
    ensures { Begins (run (row_count p.now) (words_of_row p.now table.now)) log.now result }
{
    let mut row = [0u32; ROW_WORDS];
    let mut at: usize = 0;
    for i in 0..words::rows_of(p) {
        let n = write_row(p, table, i, &mut row);
        let same = agreeing(&row[..n], 0, &log[at..]);
        if same < n {
            return Err(Difference {
                index: ((at + same) / PAIR) as u32,
                time: row[same],
                identifier: row[same + 1],
            });
        }
        at += n;
    }
    Ok(at)
}

// Holds a log against an accepted proposal: where its first matrix cycle is the one that is due, each later pair must be the one
// of the matrix cycle before, a matrix cycle later.
fn hold_accepted(p: &[u32], w: &[u32], log: &[u32], span: usize) -> Result<(), Difference>
    requires { Accepted p.now w.now × (length log.now % 2 ≡ 0) × (1 ≤ span) × (span ≤ most_span) }
    ensures { HoldingAccepted p.now w.now span log.now result }
{
    let mut table = [0u8; CELLS];
    cells::fill(p, w, &mut table);
    let n = hold_rows(p, &table, log)?;
    let all = n * span;
    let later = words::rows_of(p) * words::cycle_of(p);
    let reach = log.len().min(all);
    let more = agreeing(log, later, &log[n..reach]);
    let same = n + more;
    if same < all {
        return Err(Difference {
            index: (same / PAIR) as u32,
            time: (log[more] as usize + later) as u32,
            identifier: log[more + 1],
        });
    }
    if all < log.len() {
        return Err(Difference {
            index: (all / PAIR) as u32,
            time: NOTHING,
            identifier: NOTHING,
        });
    }
    Ok(())
}

// Holds a log, pairs of start time and identifier, against the plan for so many matrix cycles from time 0: where it first differs, or nothing if it is clean.
pub fn hold(
    file: &[u8],
    proposal: &[u32],
    log: &[u32],
    span: u32,
) -> Result<Option<Difference>, Refusal>
    ensures { Holding file.now proposal.now log.now span result }
{
    let mut buffer = [FILL; words::MOST_WORDS];
    let n = proposal::accept(file, proposal, &mut buffer)?;
    refuse_if(
        log.len() % PAIR != 0 || basics::is_outside(span, 1, MOST_SPAN),
        Refusal::Log,
    )?;
    Ok(hold_accepted(&buffer[..n], proposal, log, span as usize).err())
}
