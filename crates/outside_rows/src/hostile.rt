//! These rows are over texts that are refused, hostile or cut.

mod audit_faults;
mod cuts;
mod files;
mod transitions;
mod values;

use game_outside::HeldFile;
use std::alloc::Global;
use std::test::Fail;

// Puts one file in front of the others, because the first of two files with the same name counts.
fn with_file(alloc: Global, front: HeldFile, others: Vec<HeldFile>) -> Result<Vec<HeldFile>, Fail> {
    let mut held = Vec::new(alloc);
    held.push(front)?;
    for other in others {
        held.push(other)?;
    }
    Ok(held)
}
