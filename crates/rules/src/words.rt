// One function for each word of a well-formed problem and of a proposal, with the bounds that the rules give it.
ghost use Rattle.std.specs.Prelude.{◌≡◌, ◌+◌, ◌*◌, ◌<◌, ◌≤◌, ltb, length, get_or};
ghost use Rattle.rules.specs.Problem.{WellFormed, column_at, message_at, rows, cycle, ref_len, ref_id, limit, columns, messages};
ghost use Rattle.rules.specs.Problem.{field, identifier, sender, size, receivers, offset, deadline, frame, proposal_words, Gives, column, row};
ghost use Rattle.rules.specs.Parts.{Member, Start, Width, Period, Frame, Repeat};

// How many words a header, a column and a message have.
pub const HEADER_WORDS: usize = 7;

pub const COLUMN_WORDS: usize = 3;

pub const MESSAGE_WORDS: usize = 7;

// Where each of the header's words stands.
pub const ROWS: usize = 0;

pub const CYCLE: usize = 1;

pub const REF_LEN: usize = 2;

pub const REF_ID: usize = 3;

pub const LIMIT: usize = 4;

pub const COLUMNS: usize = 5;

pub const MESSAGES: usize = 6;

// Where each of a column's words, and each of a message's, stands in its record.
pub const START: usize = 0;

pub const WIDTH: usize = 1;

pub const KIND: usize = 2;

pub const IDENTIFIER: usize = 0;

pub const SENDER: usize = 1;

pub const SIZE: usize = 2;

pub const RECEIVERS: usize = 3;

pub const PERIOD: usize = 4;

pub const OFFSET: usize = 5;

pub const DEADLINE: usize = 6;

// How many nodes there are, silent ones too.
pub const NODES: u32 = 16;

// No problem has more rows, columns, messages, triggers a node, and words.
pub const MOST_ROWS: usize = 64;

pub const MOST_COLUMNS: usize = 32;

pub const MOST_MESSAGES: usize = 64;

pub const MOST_TRIGGERS: usize = 32;

pub const MOST_WORDS: usize = HEADER_WORDS
    + COLUMN_WORDS * MOST_COLUMNS
    + MESSAGE_WORDS * MOST_MESSAGES;

// No proposal has more words.
pub const MOST_PROPOSAL: usize = 2 * MOST_MESSAGES;

// The word at a place.
pub fn word(words: &[u32], at: usize) -> usize
    requires { at < length words.now }
    ensures { (result ≡ get_or words.now at 0) × (result < 4294967296) }
{
    words[at] as usize
}

// Where the words of column c stand, and behind k columns those of message j. So many words are k columns and j messages.
pub fn column_at(c: usize) -> usize
    requires { c ≤ 32 }
    ensures { result ≡ column_at c }
{
    HEADER_WORDS + COLUMN_WORDS * c
}

pub fn message_at(k: usize, j: usize) -> usize
    requires { (k ≤ 32) × (j ≤ 64) }
    ensures { result ≡ message_at k j }
{
    column_at(k) + MESSAGE_WORDS * j
}

pub fn rows_of(p: &[u32]) -> usize
    requires { WellFormed p.now }
    ensures { (result ≡ rows p.now) × (1 ≤ result) × (result ≤ 64) }
{
    word(p, ROWS)
}

pub fn cycle_of(p: &[u32]) -> usize
    requires { WellFormed p.now }
    ensures { (result ≡ cycle p.now) × (1 ≤ result) × (result ≤ 65535) }
{
    word(p, CYCLE)
}

pub fn ref_len_of(p: &[u32]) -> usize
    requires { WellFormed p.now }
    ensures { (result ≡ ref_len p.now) × (result ≤ 65535) }
{
    word(p, REF_LEN)
}

pub fn ref_id_of(p: &[u32]) -> usize
    requires { WellFormed p.now }
    ensures { (result ≡ ref_id p.now) × (result ≤ 2047) }
{
    word(p, REF_ID)
}

pub fn limit_of(p: &[u32]) -> usize
    requires { WellFormed p.now }
    ensures { (result ≡ limit p.now) × (result ≤ 32) }
{
    word(p, LIMIT)
}

pub fn columns_of(p: &[u32]) -> usize
    requires { WellFormed p.now }
    ensures { (result ≡ columns p.now) × (1 ≤ result) × (result ≤ 32) }
{
    word(p, COLUMNS)
}

pub fn messages_of(p: &[u32]) -> usize
    requires { WellFormed p.now }
    ensures { (result ≡ messages p.now) × (result ≤ 64) }
{
    word(p, MESSAGES)
}

pub fn start_of(p: &[u32], c: usize) -> usize
    requires { WellFormed p.now × (c < columns p.now) }
    ensures { Start p.now c result }
{
    word(p, column_at(c))
}

pub fn width_of(p: &[u32], c: usize) -> usize
    requires { WellFormed p.now × (c < columns p.now) }
    ensures { Width p.now c result }
{
    word(p, column_at(c) + WIDTH)
}

// Word k of message j.
pub fn field_of(p: &[u32], j: usize, k: usize) -> usize
    requires { Member p.now j × (k < 7) }
    ensures { (result ≡ field p.now j k) × (result < 4294967296) }
{
    word(p, message_at(columns_of(p), j) + k)
}

pub fn identifier_of(p: &[u32], j: usize) -> usize
    requires { Member p.now j }
    ensures { (result ≡ identifier p.now j) × (result ≤ 2047) }
{
    field_of(p, j, IDENTIFIER)
}

pub fn sender_of(p: &[u32], j: usize) -> usize
    requires { Member p.now j }
    ensures { (result ≡ sender p.now j) × (result ≤ 15) }
{
    field_of(p, j, SENDER)
}

pub fn size_of(p: &[u32], j: usize) -> usize
    requires { Member p.now j }
    ensures { (result ≡ size p.now j) × (result ≤ 8) }
{
    field_of(p, j, SIZE)
}

// How long a frame of message j takes.
pub fn frame_of(p: &[u32], j: usize) -> usize
    requires { Member p.now j }
    ensures { Frame p.now j result }
{
    frame_bits(size_of(p, j))
}

// The bits of an 11-bit frame with s data bytes, stuffing and the space between frames included.
pub fn frame_bits(s: usize) -> usize
    requires { s ≤ 8 }
    ensures { (result ≡ frame s) × (55 ≤ result) × (result ≤ 135) }
{
    55 + 10 * s
}

pub fn receivers_of(p: &[u32], j: usize) -> usize
    requires { Member p.now j }
    ensures { (result ≡ receivers p.now j) × (result ≤ 65535) }
{
    field_of(p, j, RECEIVERS)
}

pub fn period_of(p: &[u32], j: usize) -> usize
    requires { Member p.now j }
    ensures { Period p.now j result }
{
    field_of(p, j, PERIOD)
}

pub fn offset_of(p: &[u32], j: usize) -> usize
    requires { Member p.now j }
    ensures { (result ≡ offset p.now j) × (result < 4294967296) }
{
    field_of(p, j, OFFSET)
}

pub fn deadline_of(p: &[u32], j: usize) -> usize
    requires { Member p.now j }
    ensures { (result ≡ deadline p.now j) × (result < 4294967296) }
{
    field_of(p, j, DEADLINE)
}

// Every how many rows message j is sent.
pub fn repeat_of(p: &[u32], j: usize) -> usize
    requires { Member p.now j }
    ensures { Repeat p.now j result }
{
    period_of(p, j) / cycle_of(p)
}

// How many words a proposal has.
pub fn proposal_words(p: &[u32]) -> usize
    requires { WellFormed p.now }
    ensures { (result ≡ proposal_words p.now) × (result ≤ 128) }
{
    2 * messages_of(p)
}

// Whether a proposal has the words of message j.
pub fn gives(w: &[u32], j: usize) -> bool
    requires { j < 64 }
    ensures { result ≡ ltb (2 * j + 1) (length w.now) }
{
    2 * j + 1 < w.len()
}

// The column that a proposal gives message j.
pub fn column_of(w: &[u32], j: usize) -> usize
    requires { Gives w.now j }
    ensures { (result ≡ column w.now j) × (result < 4294967296) }
{
    word(w, 2 * j)
}

// The base row that a proposal gives message j.
pub fn row_of(w: &[u32], j: usize) -> usize
    requires { Gives w.now j }
    ensures { (result ≡ row w.now j) × (result < 4294967296) }
{
    word(w, 2 * j + 1)
}
