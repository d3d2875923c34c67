// The record of a case, read part by part. All numbers are big-endian.
ghost use Rattle.std.specs.Prelude.{◌+◌, ◌≤◌};
ghost use Rattle.io.specs.Counts.{IsPrefixLen};

use crate::calls::NUMBERS;
use std::io::Read;

// The bytes of a word.
pub const WORD: usize = 4;

// The most bytes of input A.
pub const INPUT_BYTES: usize = 4096;

// The most words of input A.
pub const INPUT_WORDS: usize = INPUT_BYTES / WORD;

// The most words of a list beside it.
pub const LIST_WORDS: usize = 2048;

// The most bytes of such a list.
pub const LIST_BYTES: usize = WORD * LIST_WORDS;

// The most words of a log, which is list C: a pair more than the longest list that is due.
pub const LOG_WORDS: usize = bus_log::MOST_WORDS + bus_log::PAIR;

// The most bytes of a log.
pub const LOG_BYTES: usize = WORD * LOG_WORDS;

// The most words or bytes that are lent for the output.
pub const MOST_ROOM: usize = 8192;

// The most bytes of the output.
pub const OUTPUT_BYTES: usize = WORD * MOST_ROOM;

// The bytes of the block of numbers between the inputs and the outputs: span, room and room 2; then what is expected, that is number,
// place, second place and five figures. Behind it are the places in the block of those that are read here.
const BLOCK_BYTES: usize = 41;

const SPAN: usize = 0;

const ROOM: usize = 4;

const NUMBER: usize = 12;

const PLACE: usize = 13;

const SECOND_PLACE: usize = 17;

const FIGURES: usize = 21;

// Why a case could not be read.
#[derive(Clone, Copy)]
pub enum Broken {
    Missing,
    CutShort,
    TooLong,
}

impl Broken {
    // The end of a line that says so.
    pub fn text(self) -> &'static [u8] {
        match self {
            Broken::Missing => b" is missing\n",
            Broken::CutShort => b" is cut short\n",
            Broken::TooLong => b" has a part that is longer than any case needs\n",
        }
    }
}

// The parts of a record: its call's number, the inputs, the block, the output that is expected, and how long the second is to be.
#[derive(Clone, Copy)]
pub struct Case<'a> {
    pub call: u8,
    pub input: &'a [u8],
    pub proposal: &'a [u8],
    pub log: &'a [u8],
    pub block: &'a [u8; BLOCK_BYTES],
    pub output: &'a [u8],
    pub output_2: usize,
}

// The number of four bytes at a place of the block.
fn number_at(block: &[u8; BLOCK_BYTES], at: usize) -> u32
    requires { at + 4 ≤ 41 }
{
    u32::from_be_bytes([block[at], block[at + 1], block[at + 2], block[at + 3]])
}

impl<'a> Case<'a> {
    // How many matrix cycles a log is held against.
    pub fn span(&self) -> u32 {
        number_at(self.block, SPAN)
    }

    // How many words or bytes are lent for the output.
    pub fn room(&self) -> usize {
        number_at(self.block, ROOM) as usize
    }

    // The answer that is expected, where so much is written.
    pub fn expected(&self, written: usize) -> [u64; NUMBERS] {
        let block = self.block;
        [
            u64::from(block[NUMBER]),
            u64::from(number_at(block, PLACE)),
            u64::from(number_at(block, SECOND_PLACE)),
            u64::from(number_at(block, FIGURES)),
            u64::from(number_at(block, FIGURES + 4)),
            u64::from(number_at(block, FIGURES + 8)),
            u64::from(number_at(block, FIGURES + 12)),
            u64::from(number_at(block, FIGURES + 16)),
            written as u64,
            self.output_2 as u64,
        ]
    }
}

// Reads as many bytes as a buffer has.
fn fill<F: Read>(file: &mut F, buffer: &mut [u8]) -> Result<(), Broken> {
    if host::read_full(file, buffer) == buffer.len() {
        Ok(())
    } else {
        Err(Broken::CutShort)
    }
}

// Reads a number of four bytes.
pub fn read_number<F: Read>(file: &mut F) -> Result<u32, Broken> {
    let mut b = [0u8; WORD];
    fill(file, &mut b)?;
    Ok(u32::from_be_bytes(b))
}

// Reads a part of a known length into the front of a buffer.
fn read_bytes<'a, F: Read>(
    file: &mut F,
    length: usize,
    buffer: &'a mut [u8],
) -> Result<&'a [u8], Broken> {
    let part = buffer.get_mut(..length).ok_or(Broken::TooLong)?;
    fill(file, part)?;
    Ok(part)
}

// Reads a part of bytes: its length, then the bytes.
fn read_text<'a, F: Read>(file: &mut F, buffer: &'a mut [u8]) -> Result<&'a [u8], Broken> {
    let count = read_number(file)?;
    read_bytes(file, count as usize, buffer)
}

// Reads a part of words: how many, then four bytes each.
fn read_list<'a, F: Read>(file: &mut F, buffer: &'a mut [u8]) -> Result<&'a [u8], Broken> {
    let count = read_number(file)?;
    read_bytes(file, WORD * count as usize, buffer)
}

// Reads list C, a log, and past list D, which no call takes yet.
fn read_log<'a, F: Read>(file: &mut F, log: &'a mut [u8]) -> Result<&'a [u8], Broken> {
    let third = read_list(file, log)?;
    let mut list = [0u8; LIST_BYTES];
    read_list(file, &mut list)?;
    Ok(third)
}

// Reads past the second output, which no call has yet; answers its length, which is compared.
fn pass_output<F: Read>(file: &mut F) -> Result<usize, Broken> {
    let mut output = [0u8; LIST_BYTES];
    let second = read_text(file, &mut output)?;
    Ok(second.len())
}

// Where a record's parts are read to. The buffer for its log is the file's: it is too long to be filled for each case.
#[derive(Drop)]
pub struct Buffers {
    input: [u8; INPUT_BYTES],
    proposal: [u8; LIST_BYTES],
    block: [u8; BLOCK_BYTES],
    output: [u8; OUTPUT_BYTES],
}

impl Buffers {
    // Buffers for one record.
    pub fn new() -> Buffers {
        Buffers {
            input: [0; INPUT_BYTES],
            proposal: [0; LIST_BYTES],
            block: [0; BLOCK_BYTES],
            output: [0; OUTPUT_BYTES],
        }
    }
}

// Reads a record, each part into the front of its own buffer.
pub fn read_record<'a, F: Read>(
    file: &mut F,
    buffers: &'a mut Buffers,
    log: &'a mut [u8],
) -> Result<Case<'a>, Broken> {
    let mut head = [0u8; 1];
    fill(file, &mut head).map_err(|_| Broken::Missing)?;
    let Buffers {
        input,
        proposal,
        block,
        output,
    } = buffers;
    let input = read_text(file, input)?;
    let proposal = read_list(file, proposal)?;
    let log = read_log(file, log)?;
    fill(file, block)?;
    let output = read_text(file, output)?;
    let output_2 = pass_output(file)?;
    Ok(Case {
        call: head[0],
        input,
        proposal,
        log,
        block,
        output,
        output_2,
    })
}

// Whether bytes are whole words.
pub fn are_words(bytes: &[u8]) -> bool {
    bytes.len() % WORD == 0
}

// The words that bytes are, four bytes to a word, in the front of a buffer; answers how many.
pub fn gather(from: &[u8], words: &mut [u32]) -> usize
    ensures { IsPrefixLen result words.new }
{
    let n = (from.len() / WORD).min(words.len());
    for (word, bytes) in words.iter_mut().zip(from.chunks_exact(WORD)) {
        *word = u32::from_be_bytes([bytes[0], bytes[1], bytes[2], bytes[3]]);
    }
    n
}
