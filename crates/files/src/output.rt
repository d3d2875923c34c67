// What the program writes: the file that an argument names.
use super::input;
use super::input::Told;
use std::io::Result as IoResult;
use std::rt::{Env, Files};

// Whether two arguments are the same name.
pub fn is_same_name(rt: &impl Env, i: usize, j: usize) -> bool {
    let mut one = io::buffer();
    let n = host::arg(rt, i, &mut one);
    let mut other = io::buffer();
    let m = host::arg(rt, j, &mut other);
    one[..n] == other[..m]
}

// Writes bytes as the file that an argument names, in the place of what it held; why it could not is said.
pub fn keep<R: Env + Files>(rt: &R, i: usize, bytes: &[u8]) -> Result<(), Told> {
    let mut name = io::buffer();
    let k = host::arg(rt, i, &mut name);
    let name = &name[..k];
    if input::is_dash(name) {
        paper::say(b"ttplan: OUT is the name of a file, and - is none\n");
        return Err(Told);
    }
    match overwrite(rt, name, bytes) {
        Ok(()) => Ok(()),
        Err(e) => Err(input::fail(name, &e)),
    }
}

// Writes bytes as the file of this name.
fn overwrite(rt: &impl Files, name: &[u8], bytes: &[u8]) -> IoResult<()> {
    let mut file = host::open_overwrite(rt, name)?;
    host::write_all(&mut file, bytes)
}
