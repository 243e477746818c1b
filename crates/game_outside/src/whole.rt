//! This module reads a text whole.

ghost use Rattle.std.specs.Prelude.{◌≤◌, IfOk, IsErrOf, length};
ghost use Rattle.game_outside.specs.Outside.{IsHeldAs, IsHeldLonger};
ghost use Rattle.game_outside.specs.Reading.{LeavesNamed};

use crate::shelf::{PIECE, ReadEnd, Shelf};
use std::alloc::Global;

/// Returns all bytes that are held under the name, at most `limit` of them.
#[tactic(auto, using(crate::proofs::Streams::longer))]
pub fn read_all<H: Shelf>(
    alloc: Global,
    shelf: &mut H,
    name: &str,
    limit: u64,
) -> Result<Vec<u8>, ReadEnd>
    // The answer is the whole text, within the limit.
    ensures bytes { IfOk result (λ v. IsHeldAs (H.held shelf.old) name.now v.items) }
    ensures within { IfOk result (λ v. length v.items ≤ limit) }

    // It answers that the text is too long only if more bytes than the limit are held. It answers a fault of reading
    // only if the shelf fails, takes at most a piece more than the limit, and changes nothing of what the shelf holds.
    ensures longer { IsErrOf result ReadEnd.TooLong → IsHeldLonger (H.held shelf.old) name.now limit }
    ensures shelf { LeavesNamed H.Shelf name.now limit shelf.old shelf.new result }
{
    if shelf.begin(name).is_err() {
        return Err(ReadEnd::ReadFault);
    }
    let mut bytes = Vec::new(alloc);
    let mut piece = [0u8; PIECE];
    loop {
        match shelf.next(&mut piece) {
            Err(_) => return Err(ReadEnd::ReadFault),
            Ok(0) => return Ok(bytes),
            Ok(count) => {
                if (bytes.len() + count) as u64 > limit {
                    return Err(ReadEnd::TooLong);
                }
                match bytes.extend_from_slice(&piece[..count]) {
                    Err(_) => return Err(ReadEnd::OutOfMemory),
                    Ok(()) => {}
                }
            }
        }
    }
}
