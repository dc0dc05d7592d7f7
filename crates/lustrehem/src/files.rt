// Reading scripts and card images.
use crate::failure::{Failure, Unfit};
use page_mailbox::bytes::{LARGEST, PAGE};
use std::fs::File;
use std::io::Read;

// The most bytes of a script.
const LONGEST: usize = 16_777_216;

// A file of 1 to so many bytes, or standard input for "-".
fn read(rt: &HostRuntime, name: &str, most: usize) -> Result<Vec<u8>, Unfit> {
    let mut bytes = Vec::new(rt.alloc());
    // One byte more shows that there are too many.
    let limit = (most as u64).saturating_add(1);
    if name == "-" {
        rt.stdin().take(limit).read_to_end(&mut bytes)?;
    } else {
        File::open(rt, name)?.take(limit).read_to_end(&mut bytes)?;
    }
    if bytes.is_empty() {
        return Err(Unfit::Empty);
    }
    if bytes.len() > most {
        return Err(Unfit::Large(most));
    }
    Ok(bytes)
}

// An image of 1 to 128 whole pages.
fn read_image(rt: &HostRuntime, name: &str) -> Result<Vec<u8>, Unfit> {
    let bytes = read(rt, name, LARGEST)?;
    if bytes.len() % PAGE != 0 {
        return Err(Unfit::NotPages);
    }
    Ok(bytes)
}

// The failure that names the file.
fn named(rt: &HostRuntime, name: &str, unfit: Unfit) -> Result<Failure, Failure> {
    Ok(Failure::File(String::from_str(rt.alloc(), name)?, unfit))
}

pub(crate) fn load_script(rt: &HostRuntime, name: &str) -> Result<Vec<u8>, Failure> {
    read(rt, name, LONGEST).try_map_err(|unfit| named(rt, name, unfit))
}

pub(crate) fn load_image(rt: &HostRuntime, name: &str) -> Result<Vec<u8>, Failure> {
    read_image(rt, name).try_map_err(|unfit| named(rt, name, unfit))
}
