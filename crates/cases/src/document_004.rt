// Document 004: the messages of its table 1, of 8 bytes at 25 kbit/s, where a millisecond is 25 bit times.
use trial::show;

// Set B; the first six are set A. The last of a set is blocked by none, so Op. 2 is sooner done in set A than the document's 37.8 ms.
// In every busy period the first instance is the worst, so that document 02 changes none of these.
pub fn run() {
    paper::text(b"Document 004\n");
    let cases: [(&[u8], &[u8], &[u8], u32); 2] = [
        (
            b"table 1, set B, of which 10.8 16.2 21.6 27.0 32.4 37.8 ms are in time",
            b"1 8 2000 0 2000
              2 8 1000 0 1000
              3 8 1000 0 1000
              4 8 1000 0 1000
              5 8 1000 0 1000
              6 8 3750 0 3750
              7 8  750 0  750",
            b"270 405 540 675 810 945 0",
            1,
        ),
        (
            b"table 1, set A",
            b"1 8 2000 0 2000
              2 8 1000 0 1000
              3 8 1000 0 1000
              4 8 1000 0 1000
              5 8 1000 0 1000
              6 8 3750 0 3750",
            b"270 405 540 675 810 810",
            0,
        ),
    ];
    for (title, events, times, misses) in cases {
        show::responses(title, events, times, misses);
    }
}
