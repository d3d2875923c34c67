// The rules of a problem's words, tested: those of the header, and those of the columns, messages and nodes.
#![tactic(auto)]

ghost use Rattle.std.specs.Prelude.{◌≡◌, ◌+◌, ◌<◌, ◌≤◌, eqb, length};
ghost use Rattle.basics.specs.Bits.{bit};
ghost use Rattle.rules.specs.Refusal.{guard, first_fault};
ghost use Rattle.rules.specs.declared.Refusal.TheVariants.{Header};
ghost use Rattle.rules.specs.Problem.{header_words, start, width, kind, field, nodes, triggers};
ghost use Rattle.rules.specs.Rules.{is_row_count, header_fault, column_wrong, repeated, identity_wrong, on_grid, timing_wrong};
ghost use Rattle.rules.specs.Rules.{column_fault, message_fault, node_fault, words_fault};
ghost use Rattle.problem.specs.Parts.{Counted};
ghost use Rattle.wellformed.specs.Parts.{HasColumn, Reached, HasMessage};

use basics::{has_bit, is_outside};
use problem::{COLUMNS_AT, CYCLE_AT, LIMIT_AT, MESSAGES_AT, REF_ID_AT, REF_LEN_AT, ROWS_AT};
use rules::{Refusal, refuse_if, words};

// Whether a matrix may have r rows.
fn is_row_count(r: u32) -> bool
    ensures { result ≡ is_row_count r }
{
    (r == 1) | (r == 2) | (r == 4) | (r == 8) | (r == 16) | (r == 32) | (r == 64)
}

// The refusal of the header's number at a byte, where it is wrong.
fn header_number(wrong: bool, byte: usize) -> Result<(), Refusal>
    requires { byte < 16 }
    ensures { result ≡ guard wrong (Header byte) }
{
    refuse_if(wrong, Refusal::Header(byte as u32))
}

// The first number of the header, in file order, that is outside its range.
pub fn header_fault(words: &[u32]) -> Result<(), Refusal>
    requires { header_words ≤ length words.now }
    ensures { result ≡ header_fault words.now }
{
    let cycle = words[words::CYCLE];
    header_number(!is_row_count(words[words::ROWS]), ROWS_AT)?;
    header_number(is_outside(cycle, 1, 65535), CYCLE_AT)?;
    header_number(is_outside(words[words::REF_LEN], 65, cycle), REF_LEN_AT)?;
    header_number(2047 < words[words::REF_ID], REF_ID_AT)?;
    header_number(is_outside(words[words::LIMIT], 1, 32), LIMIT_AT)?;
    header_number(is_outside(words[words::COLUMNS], 1, 32), COLUMNS_AT)?;
    header_number(64 < words[words::MESSAGES], MESSAGES_AT)
}

// Where a column ends; two words of any size fit.
fn end_of(start: u32, width: u32) -> u64
    ensures { result ≡ start + width }
{
    u64::from(start) + u64::from(width)
}

// When column c starts.
fn start_in(words: &[u32], c: usize) -> u32
    requires { HasColumn words.now c }
    ensures { result ≡ start words.now c }
{
    words[words::column_at(c)]
}

// How wide column c is.
fn width_in(words: &[u32], c: usize) -> u32
    requires { HasColumn words.now c }
    ensures { result ≡ width words.now c }
{
    words[words::column_at(c) + words::WIDTH]
}

// Of which kind column c is.
pub fn kind_in(words: &[u32], c: usize) -> u32
    requires { HasColumn words.now c }
    ensures { result ≡ kind words.now c }
{
    words[words::column_at(c) + words::KIND]
}

// Word i of message j, behind k columns.
pub fn field_in(words: &[u32], k: usize, j: usize, i: usize) -> u32
    requires { HasMessage words.now k j × (i < 7) }
    ensures { result ≡ field words.now j i }
{
    words[words::message_at(k, j) + i]
}

// Whether column c breaks its rule, where `from` is the earliest place at which it may start.
fn column_wrong(words: &[u32], c: usize, from: u64) -> bool
    requires { Reached words.now c from }
    ensures { result ≡ column_wrong words.now c }
{
    let start = start_in(words, c);
    let width = width_in(words, c);
    (65535 < start)
        | (65535 < width)
        | (width == 0)
        | (0 < kind_in(words, c))
        | (u64::from(start) < from)
        | ((c + 1 == words[words::COLUMNS] as usize)
            & (u64::from(words[words::CYCLE]) < end_of(start, width)))
}

// The first column that breaks its rule.
fn columns_fault(words: &[u32], k: usize, m: usize) -> Result<(), Refusal>
    requires { Counted words.now k m }
    ensures { result ≡ first_fault k (column_fault words.now) }
{
    let mut from = u64::from(words[words::REF_LEN]);
    for c in 0..k {
        refuse_if(column_wrong(words, c, from), Refusal::Column(c as u32))?;
        from = end_of(start_in(words, c), width_in(words, c));
    }
    Ok(())
}

// Whether an earlier message has message j's identifier.
fn is_repeated(words: &[u32], k: usize, j: usize) -> bool
    requires { HasMessage words.now k j }
    ensures { result ≡ repeated words.now j }
{
    let id = field_in(words, k, j, words::IDENTIFIER);
    for i in 0..j {
        if field_in(words, k, i, words::IDENTIFIER) == id {
            return true;
        }
    }
    false
}

// Whether the receivers hold the node; a word has no digit from 32 on.
pub fn is_receiver(receivers: u32, node: u32) -> bool
    ensures { result ≡ eqb (bit receivers node) 1 }
{
    if 32 <= node {
        return false;
    }
    has_bit(receivers, node)
}

// Whether message j's identifier, node, data bytes or mask is wrong.
fn identity_wrong(words: &[u32], k: usize, j: usize) -> bool
    requires { HasMessage words.now k j }
    ensures { result ≡ identity_wrong words.now j }
{
    let id = field_in(words, k, j, words::IDENTIFIER);
    let sender = field_in(words, k, j, words::SENDER);
    let receivers = field_in(words, k, j, words::RECEIVERS);
    (2047 < id)
        | (id == words[words::REF_ID])
        | (15 < sender)
        | (8 < field_in(words, k, j, words::SIZE))
        | (65535 < receivers)
        | is_receiver(receivers, sender)
        | is_repeated(words, k, j)
}

// Whether the period is the cycle times 2^k, with 2^k at most the rows.
pub fn is_on_grid(rows: u32, cycle: u32, period: u32) -> bool
    ensures { result ≡ on_grid rows cycle period }
{
    for k in 0..7 {
        let power = 2u64.pow(k);
        if (power <= u64::from(rows)) & (u64::from(period) == u64::from(cycle) * power) {
            return true;
        }
    }
    false
}

// Whether message j's period, offset or deadline is wrong.
fn timing_wrong(words: &[u32], k: usize, j: usize) -> bool
    requires { HasMessage words.now k j }
    ensures { result ≡ timing_wrong words.now j }
{
    let period = field_in(words, k, j, words::PERIOD);
    let offset = field_in(words, k, j, words::OFFSET);
    let deadline = field_in(words, k, j, words::DEADLINE);
    !is_on_grid(words[words::ROWS], words[words::CYCLE], period)
        | (period <= offset)
        | (deadline == 0)
        | (period < deadline)
}

// The first message that breaks a rule, and of it the lower number.
fn messages_fault(words: &[u32], k: usize, m: usize) -> Result<(), Refusal>
    requires { Counted words.now k m }
    ensures { result ≡ first_fault m (message_fault words.now) }
{
    for j in 0..m {
        refuse_if(identity_wrong(words, k, j), Refusal::Identity(j as u32))?;
        refuse_if(timing_wrong(words, k, j), Refusal::Timing(j as u32))?;
    }
    Ok(())
}

// The triggers of a node.
pub fn triggers_of(words: &[u32], k: usize, m: usize, node: u32) -> u32
    requires { Counted words.now k m }
    ensures { result ≡ triggers words.now node }
{
    let mut count: u32 = 1;
    for j in 0..m {
        let is_sent = field_in(words, k, j, words::SENDER) == node;
        let is_received = is_receiver(field_in(words, k, j, words::RECEIVERS), node);
        count = count + u32::from(is_sent) + u32::from(is_received);
    }
    count
}

// The lowest node that needs more triggers than it may have.
fn nodes_fault(words: &[u32], k: usize, m: usize) -> Result<(), Refusal>
    requires { Counted words.now k m }
    ensures { result ≡ first_fault nodes (node_fault words.now) }
{
    for n in 0..words::NODES {
        refuse_if(
            words[words::LIMIT] < triggers_of(words, k, m, n),
            Refusal::Triggers(n),
        )?;
    }
    Ok(())
}

// The first fault of the words behind the header, for k columns and m messages as the header says.
pub fn words_fault(words: &[u32], k: usize, m: usize) -> Result<(), Refusal>
    requires { Counted words.now k m }
    ensures { result ≡ words_fault words.now }
{
    columns_fault(words, k, m)?;
    messages_fault(words, k, m)?;
    nodes_fault(words, k, m)
}
