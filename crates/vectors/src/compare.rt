// A call's answer and output held to what is expected of them.
ghost use Rattle.std.specs.Prelude.{◌<◌, IfSome, length};

use crate::calls::NUMBERS;

// What is there and what is expected, at one of the numbers or at a place of the buffer.
#[derive(Clone, Copy)]
pub struct Unlike {
    pub at: usize,
    pub is: u64,
    pub expected: u64,
}

// The first difference of a case: that there is no such call or no such input or output for it; in the answer, or in the buffer.
#[derive(Clone, Copy)]
pub enum Difference {
    NoCall,
    NoWords,
    Answer(Unlike),
    Buffer(Unlike),
}

// The first place where numbers are not those that are expected; behind the last of these the pattern is.
fn first_unlike<T: Copy + PartialEq + Into<u64>>(
    are: &[T],
    expected: &[T],
    pattern: T,
) -> Option<Unlike>
    ensures { IfSome result (λ u. u.at < length are.now) }
{
    for (at, is) in are.iter().enumerate() {
        let wanted = expected.get(at).copied().unwrap_or(pattern);
        if *is != wanted {
            return Some(Unlike {
                at,
                is: (*is).into(),
                expected: wanted.into(),
            });
        }
    }
    None
}

// Holds the answer to what is expected, then the buffer: the output, and behind it the pattern.
pub fn compare<T: Copy + PartialEq + Into<u64>>(
    answer: &[u64; NUMBERS],
    expected: &[u64; NUMBERS],
    buffer: &[T],
    output: &[T],
    pattern: T,
) -> Result<(), Difference> {
    if let Some(u) = first_unlike(answer, expected, 0) {
        return Err(Difference::Answer(u));
    }
    match first_unlike(buffer, output, pattern) {
        Some(u) => Err(Difference::Buffer(u)),
        None => Ok(()),
    }
}

// The name of one of an answer's numbers.
fn name(k: usize) -> &'static [u8] {
    match k {
        0 => b"number",
        1 => b"place",
        2 => b"second place",
        3 => b"figure 0",
        4 => b"figure 1",
        5 => b"figure 2",
        6 => b"figure 3",
        7 => b"figure 4",
        8 => b"length of the output",
        _ => b"length of the second output",
    }
}

// Ends a line with what is there and what is expected.
fn end_line(u: Unlike) {
    paper::text(b" is ");
    io::print_decimal(1, u.is);
    paper::text(b", expected ");
    io::print_decimal(1, u.expected);
    paper::end_line();
}

// Ends a line with a difference.
pub fn tell(d: Difference) {
    match d {
        Difference::NoCall => paper::line(b"there is no such call"),
        Difference::NoWords => paper::line(b"the bytes are no whole words"),
        Difference::Answer(u) => {
            paper::text(name(u.at));
            end_line(u);
        }
        Difference::Buffer(u) => {
            paper::text_count(b"the buffer at ", u.at);
            end_line(u);
        }
    }
}
