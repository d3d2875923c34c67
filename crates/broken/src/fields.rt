// Words that were refused, in records of some words each: nothing is asked of them, and a word behind their end is 0.
// A wrong one is said by its name and value, and what it must be.
ghost use Rattle.std.specs.Prelude.{◌<◌, ◌≤◌};

// No identifier is larger, and no frame has more data bytes.
pub const MOST_IDENTIFIER: u32 = 2047;

pub const MOST_DATA: u32 = 8;

// The word at a place.
pub fn word(words: &[u32], at: usize) -> u32 {
    words.get(at).copied().unwrap_or(0)
}

// Words in records of so many each.
#[derive(Clone, Copy)]
pub struct Records<'a> {
    pub words: &'a [u32],
    pub size: usize,
    ghost small: { size ≤ 7 },
}

impl<'a> Records<'a> {
    // Word i of record j.
    pub fn field(&self, j: u32, i: usize) -> u32
        requires { i < 7 }
    {
        word(self.words, self.size * j as usize + i)
    }

    // The first record that begins with the same word as record j, which is its identifier.
    pub fn first_like(&self, j: u32) -> u32 {
        let identifier = self.field(j, 0);
        for i in 0..j {
            if self.field(i, 0) == identifier {
                return i;
            }
        }
        j
    }
}

// ---- sentences

// A number by its name.
pub fn value(name: &[u8], n: u32) {
    paper::say(name);
    paper::say_count(b" ", n);
    paper::say(b"; it must be ");
}

// A number that must be in a range.
pub fn range(name: &[u8], n: u32, low: u32, high: u32) {
    value(name, n);
    paper::say_count(b"", low);
    paper::say_count(b" to ", high);
}

// An identifier that must be in its range.
pub fn identifier(name: &[u8], id: u32) {
    paper::say_hex(name, id as usize);
    paper::say_hex(b"; it must be ", 0);
    paper::say_hex(b" to ", MOST_IDENTIFIER as usize);
}

// An identifier that something before has too.
pub fn taken(id: u32, thing: &[u8], i: u32) {
    paper::say_hex(b"identifier ", id as usize);
    paper::say_count(thing, i);
    paper::say(b" has it too, and each must have its own");
}

// A number that must be below the period.
pub fn below(name: &[u8], n: u32, period: u32) {
    value(name, n);
    paper::say_count(b"below ", period);
    paper::say(b", the period");
}

// A deadline that must be in the period.
pub fn deadline(n: u32, period: u32) {
    range(b"deadline", n, 1, period);
    paper::say(b", the period");
}
