//! Whole texts are read from shelves and written to sinks in memory.

use game_outside::{
    Gate, HeldFile, HoldGate, LateGate, MemShelf, MemSink, Name, ReadEnd, Shelf, SteadyShelf,
    SteadySink, read_all, write_all,
};
use sample_games::expectations::{holds, same};
use std::alloc::{AllocError, Global};
use std::test::Fail;

/// The gates of these tests hold a worker for this many turns.
const FEW_TURNS: u32 = 10;

// Makes the two texts that each test holds.
fn files(alloc: Global) -> Result<Vec<HeldFile>, AllocError> {
    let mut files = Vec::new(alloc);
    files.push(held(alloc, b"m.tra", b"hello, world")?)?;
    files.push(held(alloc, b"m.lab", b"labels")?)?;
    Ok(files)
}

fn held(alloc: Global, name: &[u8], bytes: &[u8]) -> Result<HeldFile, AllocError> {
    let bytes = Vec::from_slice(alloc, bytes)?;
    match Name::from_bytes(alloc, name) {
        Ok(name) => Ok(HeldFile { name, bytes }),
        Err(_) => Err(AllocError {}),
    }
}

// A shelf gives this for the text under a name, within a limit.
fn gives<H: Shelf>(
    alloc: Global,
    shelf: &mut H,
    name: &str,
    limit: u64,
    wanted: Result<&[u8], ReadEnd>,
) -> Result<(), Fail> {
    match read_all(alloc, shelf, name, limit) {
        Ok(bytes) => same(name, Ok(bytes.as_slice()), wanted),
        Err(end) => same(name, Err(end), wanted),
    }
}

#[test]
fn a_steady_shelf_gives_all(rt: HostRuntime) -> Result<(), Fail> {
    let alloc = rt.alloc();
    let mut shelf = SteadyShelf::new(files(alloc)?);
    gives(alloc, &mut shelf, "m.tra", 12, Ok(b"hello, world"))?;
    gives(alloc, &mut shelf, "m.tra", 11, Err(ReadEnd::TooLong))?;
    gives(alloc, &mut shelf, "m.own", 0, Ok(b""))
}

#[test]
fn a_shelf_gives_pieces_and_fails_where_named(rt: HostRuntime) -> Result<(), Fail> {
    let alloc = rt.alloc();
    let mut shelf = MemShelf::new(files(alloc)?, 5, vec![in alloc; 8]?);
    // Calls 1 to 5 are `begin`, pieces of 5, 5 and 2 bytes, and the end.
    gives(alloc, &mut shelf, "m.tra", 100, Ok(b"hello, world"))?;
    // Call 7 gives a piece, and call 8 fails.
    gives(alloc, &mut shelf, "m.lab", 100, Err(ReadEnd::ReadFault))?;
    same("faults of m.lab", shelf.fault_count(), 1)?;
    gives(alloc, &mut shelf, "m.own", 100, Err(ReadEnd::ReadFault))?;
    same("faults", shelf.fault_count(), 2)
}

#[test]
fn a_sink_takes_steps_and_fails_where_named(rt: HostRuntime) -> Result<(), Fail> {
    let alloc = rt.alloc();
    let mut sink = MemSink::new(alloc, 7, vec![in alloc; 4]?);
    let room = sink.reserve(100).is_ok();
    let first = write_all(&mut sink, b"state 0 lower").is_ok();
    let second = write_all(&mut sink, b" upper 1.0").is_ok();
    same("calls", (room, first, second), (true, true, false))?;
    same(
        "sink",
        (sink.bytes(), sink.fault_count()),
        (Some(b"state 0 lower upper ".as_slice()), 1),
    )
}

#[test]
fn a_sink_tells_nothing_once_its_room_is_used_up(rt: HostRuntime) -> Result<(), Fail> {
    let mut sink = SteadySink::new(rt.alloc());
    let room = sink.reserve(4).is_ok();
    let first = write_all(&mut sink, b"four").is_ok();
    same("bytes", sink.bytes(), Some(b"four".as_slice()))?;
    let second = write_all(&mut sink, b"!").is_ok();
    same("calls", (room, first, second), (true, true, true))?;
    same("bytes past the room", sink.bytes(), None)
}

#[test]
fn a_hold_gate_gives_up_where_a_worker_is_alone() -> Result<(), Fail> {
    let gate = HoldGate::holding_for(FEW_TURNS);
    gate.arrive(2, 0);
    holds("another worker is not held", !gate.gave_up())?;
    gate.arrive(0, 0);
    holds("worker 0 is alone", gate.gave_up())?;
    let gate = HoldGate::holding_for(FEW_TURNS);
    gate.arrive(1, 0);
    holds("worker 1 is alone", gate.gave_up())
}

#[test]
fn a_late_gate_gives_up_where_the_others_come_too_rarely() -> Result<(), Fail> {
    let gate = LateGate::holding_for(0, 3, FEW_TURNS);
    for state in 0..2 {
        gate.arrive(1, state);
    }
    holds("the others are not held", !gate.gave_up())?;
    gate.arrive(0, 0);
    holds("two arrivals for three", gate.gave_up())?;
    let gate = LateGate::holding_for(0, 3, FEW_TURNS);
    for worker in 1..4 {
        gate.arrive(worker, 0);
    }
    gate.arrive(0, 0);
    holds("three arrivals for three", !gate.gave_up())
}
