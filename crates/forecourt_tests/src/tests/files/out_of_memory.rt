//! For runs in which one allocation fails: the call says so, and the same call then answers as
//! usual.

use super::{assert_known, text_of};
use site_file::{ConfigFault, read_config};
use std::alloc::{AllocError, Global};
use std::process::Abort;

/// The text, after one more try if an allocation failed.
fn written_text(alloc: Global, points: u8) -> Result<String, AllocError> {
    match text_of(alloc, points) {
        Ok(text) => Ok(text),
        Err(_) => text_of(alloc, points),
    }
}

/// Reads the site file of as many points, once more if an allocation failed.
fn read(rt: &(impl Abort + Eprint), alloc: Global, points: u8) {
    let Ok(text) = written_text(alloc, points) else {
        panic!(rt; "no text");
    };
    let answer = match read_config(alloc, text.as_bytes()) {
        Err(ConfigFault::NoMemory) => {
            let _ = rt.eprintln("an allocation failed");
            read_config(alloc, text.as_bytes())
        }
        answer => answer,
    };
    match answer {
        Ok(config) => assert_known(rt, &config, points),
        Err(fault) => panic!(rt; "{fault}"),
    }
}

#[test]
fn five_points(rt: HostRuntime) {
    read(&rt, rt.alloc(), 5);
}

#[test]
fn sixty_four_points(rt: HostRuntime) {
    read(&rt, rt.alloc(), 64);
}
