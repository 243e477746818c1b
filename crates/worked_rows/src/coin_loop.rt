//! This module makes the files of the coin loop.

use crate::models::{COIN_LOOP, GOAL_AT_1, SECOND_OWNS_1};
use crate::rows::file;
use game_outside::HeldFile;
use std::alloc::Global;
use std::test::Fail;

/// This certificate gives the value of the coin loop.
const COIN_LOOP_CERTIFICATE: &str =
    "certificate 2 3\n0 0.500000000000000 0 1 0.500000000000000 -\n1 1.000000000000000 - 0 1.000000000000000 -\n2 0.000000000000000 - 0 0.000000000000000 -\n";

/// Makes the files of the coin loop, and a certificate. A single minus is also a name of the transition file.
pub fn coin_loop_files(alloc: Global) -> Result<Vec<HeldFile>, Fail> {
    let mut files = Vec::new(alloc);
    files.push(file(alloc, "m.tra", COIN_LOOP)?)?;
    files.push(file(alloc, "m.lab", GOAL_AT_1)?)?;
    files.push(file(alloc, "m.own", SECOND_OWNS_1)?)?;
    files.push(file(alloc, "-", COIN_LOOP)?)?;
    files.push(file(alloc, "c", COIN_LOOP_CERTIFICATE)?)?;
    Ok(files)
}
