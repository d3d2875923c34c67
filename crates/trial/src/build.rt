// Words from word lists, so that problems and proposals stand in a case as the document has them.
ghost use Rattle.std.specs.Prelude.{◌≤◌, length};
ghost use Rattle.io.specs.Counts.{IsPrefixLen};

// Puts the words of a text into a buffer from a place on; answers the place behind them. A text that is no word list, or too long, is said.
fn append(text: &[u8], at: usize, words: &mut [u32]) -> usize
    requires { at ≤ length words.old }
    ensures { IsPrefixLen result words.new }
{
    match wordlist::parse(text, &mut words[at..]) {
        Ok(count) => at + count,
        Err(stop) => {
            paper::line(b"a text has more than its words");
            at + stop.count
        }
    }
}

// The words of a text in the front of a buffer; answers how many.
pub fn words(text: &[u8], words: &mut [u32]) -> usize
    ensures { IsPrefixLen result words.new }
{
    append(text, 0, words)
}

// The words of a problem in the front of a buffer; answers how many.
pub fn problem(header: &[u8], columns: &[u8], messages: &[u8], words: &mut [u32]) -> usize
    ensures { IsPrefixLen result words.new }
{
    let behind_header = append(header, 0, words);
    let behind_columns = append(columns, behind_header, words);
    append(messages, behind_columns, words)
}

// Another word, or another byte, in one place.
pub fn set<T: Copy>(list: &mut [T], at: usize, value: T) {
    if let Some(x) = list.get_mut(at) {
        *x = value;
    }
}

// Words in the place of those from a place on, as far as the buffer has room.
pub fn put(part: &[u32], at: usize, words: &mut [u32]) {
    for (word, x) in words.iter_mut().skip(at).zip(part) {
        *word = *x;
    }
}
