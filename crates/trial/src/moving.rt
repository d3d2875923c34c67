// Files moved up to version 2 and back, each shown on a line.
ghost use Rattle.std.specs.Prelude.{◌≤◌};

use crate::show::{BEFORE, written};
use crate::{build, show};
use rules::Refusal;

// The most words of a text of changes.
const CHANGES: usize = 16;

// A file moved, up or back: a flag and no layout, since `cases`, which asks for it, knows nothing of the file.
fn moved(file: &[u8], is_up: bool, out: &mut [u8]) -> Result<usize, Refusal> {
    if is_up {
        versions::up(file, out)
    } else {
        versions::back(file, out)
    }
}

// A problem's file moved to the other version and again: the old bytes come.
pub fn there_and_again(title: &[u8], problem: &[u32], is_up: bool) {
    let mut file = [0u8; problem::MOST_BYTES];
    let n = show::file_of(problem, &mut file);
    let mut other = [BEFORE; problem::MOST_BYTES];
    let mut again = [BEFORE; problem::MOST_BYTES];
    show::start(title, b", moved to the other version and again: ");
    let there = moved(&file[..n], is_up, &mut other);
    let k = written(there, &other);
    let back = moved(&other[..k], !is_up, &mut again);
    let m = written(back, &again);
    paper::count(n);
    paper::text_count(b" bytes, ", k);
    paper::text_count(b" bytes, ", m);
    paper::text(b" bytes");
    let is_back = again[..m] == file[..n];
    show::end(is_back & show::is_kept(&other, k) & show::is_kept(&again, m));
}

// A file with bytes changed, moved into so much room: the refusal that the document wants. The pairs of offset and byte stand as text.
pub fn refused(
    title: &[u8],
    problem: &[u32],
    pairs: &[u8],
    is_up: bool,
    room: usize,
    wanted: [u32; 3],
)
    requires { room ≤ 100 }
{
    let mut file = [0u8; problem::MOST_BYTES];
    let n = show::file_of(problem, &mut file);
    let mut changes = [0u32; CHANGES];
    let m = build::words(pairs, &mut changes);
    show::damage(&changes[..m], &mut file[..n]);
    let mut out = [BEFORE; problem::MOST_BYTES];
    show::start(title, b", moved ");
    paper::text(if is_up { b"up: " } else { b"back: " });
    match moved(&file[..n], is_up, &mut out[..room]) {
        Ok(_) => {
            paper::text(b"a file");
            show::end(false);
        }
        Err(q) => show::end_kept(q, &out, Some(wanted)),
    }
}
