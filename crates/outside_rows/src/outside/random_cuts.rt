//! Some bytes of these texts are changed at random. In pieces of any size the texts are answered as they are in large
//! ones.

ghost use Rattle.std.specs.Prelude.{◌<◌, length};

use sample_games::Draw;
use sample_games::expectations::{holds, same};
use std::alloc::Global;
use std::str::from_utf8;
use std::test::Fail;
use std::thread::Threads;
use stogame_app::Status;
use worked_rows::{Command, Ended, FIRST_OF_TWO_PLAYERS, Outside, Row, ends_over};

const DAMAGE: &[u8] = b"0123456789 \t\r\n.:\"=/eap\0";

// Draws one of a list.
fn one_of<T: Copy>(draws: &mut Draw, list: &[T]) -> T
    requires { 0 < length list.now }
{
    list[draws.below(list.len())]
}

// Replaces, drops or inserts a byte.
fn change_byte(draws: &mut Draw, text: &mut Vec<u8>) -> Result<(), Fail> {
    let byte = one_of(draws, DAMAGE);
    let is_replaced = draws.below(2) == 0;
    if draws.below(3) != 0 && !text.is_empty() {
        let place = draws.below(text.len());
        if is_replaced {
            text[place] = byte;
        } else {
            let _dropped = text.remove(place);
        }
    } else {
        let place = draws.below(text.len() + 1);
        text.insert(place, byte)?;
    }
    Ok(())
}

// Changes up to two bytes of a text.
fn changed(alloc: Global, draws: &mut Draw, text: &str) -> Result<Vec<u8>, Fail> {
    let mut bytes = text.as_bytes().to_vec(alloc)?;
    for _ in 0..draws.below(3) {
        change_byte(draws, &mut bytes)?;
    }
    Ok(bytes)
}

// Returns the text of this file of the row.
fn text_of(row: Row<'static>, file: usize) -> &'static str {
    match file {
        0 => row.tra,
        1 => row.lab,
        _ => row.own.unwrap_or(""),
    }
}

// Returns the row with another text of this file.
fn with_text<'a>(row: Row<'a>, file: usize, text: &'a str) -> Row<'a> {
    match file {
        0 => Row { tra: text, ..row },
        1 => Row { lab: text, ..row },
        _ => Row {
            own: Some(text),
            ..row
        },
    }
}

// Says how the check of a row ends over pieces of this many bytes.
fn ends_in_pieces<R: Threads + Sync>(
    rt: &R,
    alloc: Global,
    row: Row<'_>,
    piece: u32,
) -> Result<Ended, Fail>
    requires { 0 < piece }
{
    let outside = Outside {
        piece,
        reads: &[],
        writes: &[],
    };
    ends_over(rt, alloc, Command::Check(row), outside)
}

// The check of a row ends the same over pieces of this many bytes and over large ones. The result says whether its
// files are accepted.
fn is_answered<R: Threads + Sync>(
    rt: &R,
    alloc: Global,
    row: Row<'_>,
    piece: u32,
) -> Result<bool, Fail>
    requires { 0 < piece }
{
    let small = ends_in_pieces(rt, alloc, row, piece)?;
    let large = ends_in_pieces(rt, alloc, row, 4096)?;
    same(
        format_args!("{:?}, {:?}, {:?}", row.tra, row.lab, row.own),
        (small.status, small.written.as_slice()),
        (large.status, large.written.as_slice()),
    )?;
    Ok(large.status != Status::ModelRefused)
}

// The game of two players, with a changed text of one of its files, is answered the same.
fn one_is_answered<R: Threads + Sync>(
    rt: &R,
    alloc: Global,
    draws: &mut Draw,
    file: usize,
) -> Result<bool, Fail> {
    let bytes = changed(alloc, draws, text_of(FIRST_OF_TWO_PLAYERS, file))?;
    let Ok(text) = from_utf8(&bytes) else {
        return Err(Fail::new("the text is no UTF-8"));
    };
    let row = with_text(FIRST_OF_TWO_PLAYERS, file, text);
    is_answered(rt, alloc, row, draws.between(1, 40))
}

// Counts how many of this many changed texts of this file are accepted.
fn are_answered<R: Threads + Sync>(
    rt: &R,
    alloc: Global,
    draws: &mut Draw,
    file: usize,
    count: u32,
) -> Result<u32, Fail> {
    let mut accepted = 0_u32;
    for _ in 0..count {
        if one_is_answered(rt, alloc, draws, file)? {
            accepted = accepted.saturating_add(1);
        }
    }
    Ok(accepted)
}

fn all_are_answered<R: Threads + Sync>(rt: &R, alloc: Global) -> Result<(), Fail> {
    let mut draws = Draw::new(1);
    for file in 0..3 {
        let accepted = are_answered(rt, alloc, &mut draws, file, 166)?;
        holds(
            format_args!("of 166 texts of file {file} 40 to 126 are accepted: {accepted}"),
            40 <= accepted && accepted <= 126,
        )?;
    }
    Ok(())
}

#[test]
fn changed_texts_are_answered_alike_in_pieces_of_any_size(rt: HostRuntime) -> Result<(), Fail> {
    all_are_answered(&rt, rt.alloc())
}
