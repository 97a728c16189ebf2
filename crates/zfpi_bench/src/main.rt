//! Calls on a cached array, many times over, for `bench/arrays.py` to time.
//!
//! ```text
//! zfpi_bench TYPE CALL ORDER ROUNDS
//! ```
//!
//! The array has 1024 x 1024 values of int32 or int64, at 16 bits a value. A number is printed that comes of
//! all that the calls gave.
#![tactic(auto)]

mod bench;
mod calls;
mod orders;
mod words;

use crate::orders::measured;
use crate::words::asked_for;
use std::rt::Env;
use std::{env, io};

fn main(rt: HostRuntime) -> io::Result<()> {
    let words = arguments(&rt)?;
    let Some(asked) = asked_for(&words) else {
        return println!(rt; "zfpi_bench TYPE CALL ORDER ROUNDS");
    };
    let number = if asked.is_wide {
        measured::<i64>(rt.alloc(), asked)?
    } else {
        measured::<i32>(rt.alloc(), asked)?
    };
    println!(rt; "{number}")
}

// What the process was given: the program's name and its words.
fn arguments<R: Env + AllocGlobal>(rt: &R) -> io::Result<Vec<String>> {
    let all = env::args(rt)?.collect(rt.alloc())?;
    Ok(all)
}
