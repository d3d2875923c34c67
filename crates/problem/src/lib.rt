// What reader and writer share of the file: its versions, where the numbers of its header stand, and the words that callers see.
#![tactic(auto)]

pub mod layout;
pub mod recast;

pub use layout::{HEAD_BYTES, Layout, MOST_BYTES};

// Where the numbers of a file's header stand.
pub const VERSION_AT: usize = 3;

pub const ROWS_AT: usize = 5;

pub const CYCLE_AT: usize = 6;

pub const REF_LEN_AT: usize = 8;

pub const REF_ID_AT: usize = 10;

pub const LIMIT_AT: usize = 12;

pub const COLUMNS_AT: usize = 13;

pub const MESSAGES_AT: usize = 14;

pub const LAST_AT: usize = 15;
