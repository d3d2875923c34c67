// The versions of the problem file, and how long their records are.
ghost use Rattle.std.specs.Prelude.{◌≡◌, ◌<◌, ◌≤◌};
ghost use Rattle.problem.specs.Layout.{version, is_version, layout_of, kind_size, kind_most, identifier_size, identifier_most, column_size, message_size};
ghost use Rattle.problem.specs.File.{bytes_for};

use rules::words;

// Version 1, and version 2: its columns have a kind, and its identifiers four bytes.
#[derive(Clone, Copy)]
pub enum Layout {
    One,
    Two,
}

// A file's header, what the versions share of a column's record, and of a message's, in bytes.
pub const HEAD_BYTES: usize = 16;

const COLUMN_BYTES: usize = 4;

const REST_BYTES: usize = 16;

// No problem file has more bytes.
pub const MOST_BYTES: usize = HEAD_BYTES
    + (COLUMN_BYTES + 1) * words::MOST_COLUMNS
    + (4 + REST_BYTES) * words::MOST_MESSAGES;

// The number by which a file says its version.
pub fn version_of(layout: Layout) -> u32
    ensures { result ≡ version layout }
{
    match layout {
        Layout::One => 1,
        Layout::Two => 2,
    }
}

// Whether there is such a version.
pub fn is_version(v: u32) -> bool
    ensures { result ≡ is_version v }
{
    (v == 1) | (v == 2)
}

// The layout of a version.
pub fn layout_of(v: u32) -> Layout
    ensures { result ≡ layout_of v }
{
    if v == 1 {
        return Layout::One;
    }
    Layout::Two
}

// How many bytes a column's kind has.
fn kind_size(layout: Layout) -> usize
    ensures { (result ≡ kind_size layout) × (result ≤ 1) }
{
    match layout {
        Layout::One => 0,
        Layout::Two => 1,
    }
}

// How many bytes a message's identifier has.
pub fn identifier_size(layout: Layout) -> usize
    ensures { (result ≡ identifier_size layout) × (result ≤ 4) }
{
    match layout {
        Layout::One => 2,
        Layout::Two => 4,
    }
}

// The largest kind and the largest identifier that there is room for.
pub fn kind_most(layout: Layout) -> u32
    ensures { result ≡ kind_most layout }
{
    match layout {
        Layout::One => 0,
        Layout::Two => 255,
    }
}

pub fn identifier_most(layout: Layout) -> u32
    ensures { result ≡ identifier_most layout }
{
    match layout {
        Layout::One => 65535,
        Layout::Two => 4294967295,
    }
}

// How many bytes a column's record has.
pub fn column_size(layout: Layout) -> usize
    ensures { (result ≡ column_size layout) × (result ≤ 5) }
{
    COLUMN_BYTES + kind_size(layout)
}

// How many bytes a message's record has.
pub fn message_size(layout: Layout) -> usize
    ensures { (result ≡ message_size layout) × (result ≤ 20) }
{
    identifier_size(layout) + REST_BYTES
}

// How many bytes the file of k columns and m messages has.
pub fn bytes_for(layout: Layout, k: usize, m: usize) -> usize
    requires { (k < 256) × (m < 256) }
    ensures { result ≡ bytes_for layout k m }
{
    HEAD_BYTES + column_size(layout) * k + message_size(layout) * m
}
