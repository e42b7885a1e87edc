// varc sum: the table directory's entry of each file.
use crate::Failure;
use std::env::Args;
use std::{fs, io};
use whole::{DirectoryEntry, directory_entry};
use write::Bytes;

// The entry of one file, or none after a message that says why.
fn entry_of(rt: &HostRuntime, path: &str) -> io::Result<Option<DirectoryEntry>> {
    let bytes = match fs::read(rt, path) {
        Ok(bytes) => bytes,
        Err(e) => {
            eprintln!(rt; "varc: {path}: cannot be read: {e}")?;
            return Ok(None);
        }
    };
    match directory_entry(&Bytes(bytes.as_slice())) {
        Ok(entry) => Ok(Some(entry)),
        Err(full) => {
            let number = full.number();
            eprintln!(rt;
                "varc: {path}: refused ({number}): a table has at most 268,435,455 bytes"
            )?;
            Ok(None)
        }
    }
}

// Goes on to the next file where one is refused.
pub fn sum(rt: &HostRuntime, paths: Args) -> Result<(), Failure> {
    let mut asked = false;
    let mut refused = false;
    for path in paths {
        asked = true;
        let path = path.as_str();
        match entry_of(rt, path)? {
            Some(entry) => {
                let checksum = entry.checksum;
                let length = entry.length;
                println!(rt; "{checksum:08x} {length} {path}")?;
            }
            None => refused = true,
        }
    }
    if !asked {
        eprintln!(rt; "varc: sum wants one file or more")?;
        return Err(Failure::Refused);
    }
    if refused {
        return Err(Failure::Refused);
    }
    Ok(())
}
