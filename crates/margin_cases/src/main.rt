// The answer to each sheet that an argument names, so that one stored run shows every refusal of the program, 1 to 13, and every verdict.
#![tactic(auto)]

use std::env::{Env, FillError};
use std::fs::File;
use std::str;

// A path of the system has at most 4,095 bytes.
const PATH: usize = 4096;

// A sheet that cannot be opened is named on standard error.
fn answer_file(rt: HostRuntime, path: &str) {
    match File::open(&rt, path) {
        Ok(mut file) => {
            let _ = program::answer_from(&mut file, &mut rt.stdout());
        }
        Err(error) => {
            let _ = eprintln!(rt; "{path}: {error}");
        }
    }
}

fn main(rt: HostRuntime) {
    let mut bytes = [0u8; PATH];
    for i in 1..usize::MAX {
        match rt.arg(i, &mut bytes) {
            Ok(length) => match str::from_utf8(&bytes[..length]) {
                Ok(path) => answer_file(rt, path),
                Err(error) => {
                    let _ = eprintln!(rt; "argument {i}: {error}");
                }
            },
            Err(FillError::TooLong) => {
                let _ = eprintln!(rt; "argument {i} is too long for a path");
            }
            Err(FillError::NotPresent) => return,
        }
    }
}
