// Reading a setup file.

use crate::failures::Failure;
use std::fs::File;
use std::io;
use std::io::Read;
use std::rt::Files;

// One byte more than the longest setup file: what is longer is refused by its length all the same.
const LIMIT: u64 = 9217;

fn read_some(rt: &(impl Files + AllocGlobal), path: &str) -> io::Result<Vec<u8>> {
    let mut bytes = Vec::new(rt.alloc());
    File::open(rt, path)?.take(LIMIT).read_to_end(&mut bytes)?;
    Ok(bytes)
}

pub fn read_setup(rt: &(impl Files + AllocGlobal), path: &str) -> Result<Vec<u8>, Failure> {
    read_some(rt, path).try_map_err(|error| {
        let path = String::from_str(rt.alloc(), path)?;
        Ok(Failure::Unreadable { path, error })
    })
}
