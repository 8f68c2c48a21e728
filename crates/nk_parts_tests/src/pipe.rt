// Pipes: the room that the furthest open reader makes, what each reader gets, and what is answered behind a close.

use crate::rows::none_wrong;
use nk_base::Status;
use nk_pipe::{CloneError, NoReader, Pipe, Read, Write};
use std::alloc::Global;

/// A call of a pipe. A write is of so many bytes of the text, from those on that were written.
#[derive(Clone, Copy, Drop)]
enum Call {
    Write(usize),
    Read(u32, usize),
    Clone(u32),
    Close(u32, Status),
    CloseWriter(Status),
    Written,
    Position(u32),
}

/// What it answered. A read gives the bytes of the text from the reader's position on.
#[derive(Clone, Copy, Drop, PartialEq, Eq)]
enum Answer {
    Write(Write),
    Read(Read),
    OtherBytes,
    NoReader(u32),
    Reader(u32),
    NoClone(CloneError),
    Done,
    Written(u64),
    Position(Option<u64>),
    Refused,
    Memory,
}

const TEXT: &[u8] = b"abcdefghijklmnopqrstuvwxyzABCDEFGHIJKLMN";

const FULL: Answer = Answer::Write(Write::WouldBlock);

const NOTHING: Answer = Answer::Read(Read::WouldBlock);

const END: Answer = Answer::Read(Read::End);

const OK: Status = Status::OK;

const ABORTED: Status = Status::BINDING_ABORTED;

const RESET: Status = Status::NET_RESET;

const CLOSED: Status = Status::STREAM_CLOSED;

/// Whether these are bytes of the text, from a place on.
fn are_at(bytes: &[u8], from: Option<u64>) -> bool {
    match from {
        Some(from) if from <= 40 => TEXT[from as usize..].starts_with(bytes),
        _ => false,
    }
}

fn write(pipe: &mut Pipe, count: usize) -> Answer {
    let from = pipe.written();
    if from > 40 || count > 40 - from as usize {
        return Answer::Refused;
    }
    match pipe.write(&TEXT[from as usize..from as usize + count]) {
        Ok(write) => Answer::Write(write),
        Err(_) => Answer::Memory,
    }
}

fn read(pipe: &mut Pipe, reader: u32, size: usize) -> Answer {
    if size > 40 {
        return Answer::Refused;
    }
    let from = pipe.position(reader);
    let mut buffer = [0; 40];
    match pipe.read_into(reader, &mut buffer[..size]) {
        Ok(Read::Read(count)) if count > 40 || !are_at(&buffer[..count as usize], from) => {
            Answer::OtherBytes
        }
        Ok(read) => Answer::Read(read),
        Err(NoReader(number)) => Answer::NoReader(number),
    }
}

fn make(pipe: &mut Pipe, call: Call) -> Answer {
    match call {
        Call::Write(count) => write(pipe, count),
        Call::Read(reader, size) => read(pipe, reader, size),
        Call::Clone(reader) => match pipe.clone_reader(reader) {
            Ok(number) => Answer::Reader(number),
            Err(error) => Answer::NoClone(error),
        },
        Call::Close(reader, status) => match pipe.close_reader(reader, status) {
            Ok(()) => Answer::Done,
            Err(NoReader(number)) => Answer::NoReader(number),
        },
        Call::CloseWriter(status) => {
            pipe.close_writer(status);
            Answer::Done
        }
        Call::Written => Answer::Written(pipe.written()),
        Call::Position(reader) => Answer::Position(pipe.position(reader)),
    }
}

/// The number of the first call that answers otherwise than its row says.
fn first_wrong_of(pipe: &mut Pipe, rows: &[(Call, Answer)]) -> Option<usize> {
    for (i, row) in rows.iter().enumerate() {
        if make(pipe, row.0) != row.1 {
            return Some(i);
        }
    }
    None
}

/// The same for a new pipe.
fn first_wrong(alloc: Global, segment: u32, limit: u32, rows: &[(Call, Answer)]) -> Option<usize> {
    if segment < 4 || segment > 65536 || limit < 1 || limit > 1024 {
        return Some(0);
    }
    match Pipe::new(alloc, segment, limit) {
        Ok((mut pipe, 1)) => first_wrong_of(&mut pipe, rows),
        _ => Some(0),
    }
}

#[test]
fn two_readers_read_all_bytes_at_their_own_pace(rt: HostRuntime) {
    let rows = &[
        (Call::Clone(1), Answer::Reader(2)),
        (Call::Write(20), Answer::Write(Write::Wrote(8))),
        (Call::Write(12), FULL),
        (Call::Read(1, 4), Answer::Read(Read::Read(4))),
        (Call::Write(12), Answer::Write(Write::Wrote(4))),
        (Call::Read(1, 20), Answer::Read(Read::Read(8))),
        (Call::Write(8), Answer::Write(Write::Wrote(8))),
        (Call::CloseWriter(OK), Answer::Done),
        (Call::Read(2, 20), Answer::Read(Read::Read(20))),
        (Call::Read(2, 20), END),
        (Call::Read(1, 20), Answer::Read(Read::Read(8))),
        (Call::Read(1, 20), END),
        (Call::Written, Answer::Written(20)),
        (Call::Position(1), Answer::Position(Some(20))),
        (Call::Position(3), Answer::Position(None)),
        (Call::Position(0), Answer::Position(None)),
    ];
    none_wrong(&rt, first_wrong(rt.alloc(), 4, 2, rows));
}

#[test]
fn a_closed_pipe_answers_with_the_status_of_the_first_close(rt: HostRuntime) {
    let by_reader = &[
        (Call::Write(2), Answer::Write(Write::Wrote(2))),
        (Call::Close(1, ABORTED), Answer::Done),
        (Call::Write(1), Answer::Write(Write::Closed(ABORTED))),
        (Call::Write(0), Answer::Write(Write::Closed(ABORTED))),
        (Call::Read(1, 2), Answer::Read(Read::Failed(ABORTED))),
        (Call::Clone(1), Answer::NoClone(CloneError::Closed(ABORTED))),
        (Call::Read(9, 2), Answer::NoReader(9)),
        (Call::Close(1, RESET), Answer::Done),
        (Call::CloseWriter(RESET), Answer::Done),
        (Call::Write(1), Answer::Write(Write::Closed(ABORTED))),
        (Call::Read(1, 2), Answer::Read(Read::Failed(ABORTED))),
    ];
    none_wrong(&rt, first_wrong(rt.alloc(), 4, 2, by_reader));
    let by_writer = &[
        (Call::Write(2), Answer::Write(Write::Wrote(2))),
        (Call::CloseWriter(RESET), Answer::Done),
        (Call::Read(1, 2), Answer::Read(Read::Read(2))),
        (Call::Read(1, 2), Answer::Read(Read::Failed(RESET))),
        (Call::CloseWriter(OK), Answer::Done),
        (Call::Close(1, ABORTED), Answer::Done),
        (Call::Read(1, 2), Answer::Read(Read::Failed(ABORTED))),
        (Call::Write(1), Answer::Write(Write::Closed(RESET))),
    ];
    none_wrong(&rt, first_wrong(rt.alloc(), 4, 2, by_writer));
}

#[test]
fn a_clone_holds_the_room_when_the_original_is_closed(rt: HostRuntime) {
    let rows = &[
        (Call::Write(6), Answer::Write(Write::Wrote(4))),
        (Call::Clone(1), Answer::Reader(2)),
        (Call::Read(1, 4), Answer::Read(Read::Read(4))),
        (Call::Write(2), Answer::Write(Write::Wrote(2))),
        (Call::Close(1, ABORTED), Answer::Done),
        (Call::Write(1), FULL),
        (Call::Read(2, 9), Answer::Read(Read::Read(6))),
        (Call::Write(9), Answer::Write(Write::Wrote(2))),
        (Call::Close(2, RESET), Answer::Done),
        (Call::Write(1), Answer::Write(Write::Closed(RESET))),
        (Call::Read(1, 1), Answer::Read(Read::Failed(ABORTED))),
    ];
    none_wrong(&rt, first_wrong(rt.alloc(), 4, 1, rows));
}

#[test]
fn room_grows_by_whole_segments(rt: HostRuntime) {
    let rows = &[
        (Call::Read(1, 9), NOTHING),
        (Call::Write(0), Answer::Write(Write::Wrote(0))),
        (Call::Write(3), Answer::Write(Write::Wrote(3))),
        (Call::Write(9), Answer::Write(Write::Wrote(5))),
        (Call::Write(0), Answer::Write(Write::Wrote(0))),
        (Call::Read(1, 0), Answer::Read(Read::Read(0))),
        (Call::Read(1, 3), Answer::Read(Read::Read(3))),
        (Call::Write(1), FULL),
        (Call::Read(1, 1), Answer::Read(Read::Read(1))),
        (Call::Write(9), Answer::Write(Write::Wrote(4))),
        (Call::Read(1, 9), Answer::Read(Read::Read(8))),
        (Call::Read(1, 0), NOTHING),
        (Call::Write(9), Answer::Write(Write::Wrote(8))),
        (Call::CloseWriter(OK), Answer::Done),
        (Call::Write(1), Answer::Write(Write::Closed(CLOSED))),
        (Call::Read(1, 40), Answer::Read(Read::Read(8))),
        (Call::Read(1, 0), END),
    ];
    none_wrong(&rt, first_wrong(rt.alloc(), 4, 2, rows));
    none_wrong(
        &rt,
        first_wrong(
            rt.alloc(),
            65_536,
            1024,
            &[(Call::Write(40), Answer::Write(Write::Wrote(40)))],
        ),
    );
}

#[test]
fn eight_readers_are_made_and_no_more(rt: HostRuntime) {
    let rows = &[
        (Call::Clone(0), Answer::NoClone(CloneError::NoReader(0))),
        (Call::Clone(2), Answer::NoClone(CloneError::NoReader(2))),
        (Call::Write(4), Answer::Write(Write::Wrote(4))),
        (Call::Read(1, 3), Answer::Read(Read::Read(3))),
        (Call::Clone(1), Answer::Reader(2)),
        (Call::Clone(2), Answer::Reader(3)),
        (Call::Close(2, ABORTED), Answer::Done),
        (Call::CloseWriter(RESET), Answer::Done),
        (Call::Clone(3), Answer::Reader(4)),
        (Call::Clone(1), Answer::Reader(5)),
        (Call::Clone(1), Answer::Reader(6)),
        (Call::Clone(1), Answer::Reader(7)),
        (Call::Clone(4), Answer::Reader(8)),
        (Call::Clone(8), Answer::NoClone(CloneError::TooManyReaders)),
        (Call::Clone(2), Answer::NoClone(CloneError::Closed(ABORTED))),
        (Call::Clone(9), Answer::NoClone(CloneError::NoReader(9))),
        (Call::Position(8), Answer::Position(Some(3))),
        (Call::Read(8, 9), Answer::Read(Read::Read(1))),
        (Call::Read(8, 9), Answer::Read(Read::Failed(RESET))),
        (Call::Close(0, RESET), Answer::NoReader(0)),
        (Call::Close(9, RESET), Answer::NoReader(9)),
        (Call::Read(0, 1), Answer::NoReader(0)),
        (Call::Position(1), Answer::Position(Some(3))),
    ];
    none_wrong(&rt, first_wrong(rt.alloc(), 4, 1, rows));
}

#[test]
fn a_reader_that_is_closed_in_good_order_has_failed(rt: HostRuntime) {
    let rows = &[
        (Call::Clone(1), Answer::Reader(2)),
        (Call::Write(2), Answer::Write(Write::Wrote(2))),
        (Call::Close(1, OK), Answer::Done),
        (Call::Read(1, 2), Answer::Read(Read::Failed(CLOSED))),
        (Call::Clone(1), Answer::NoClone(CloneError::Closed(CLOSED))),
        (Call::Write(1), Answer::Write(Write::Wrote(1))),
        (Call::Close(2, OK), Answer::Done),
        (Call::Write(1), Answer::Write(Write::Closed(CLOSED))),
        (Call::Read(2, 2), Answer::Read(Read::Failed(CLOSED))),
        (Call::CloseWriter(RESET), Answer::Done),
        (Call::Read(2, 2), Answer::Read(Read::Failed(CLOSED))),
        (Call::Written, Answer::Written(3)),
    ];
    none_wrong(&rt, first_wrong(rt.alloc(), 4, 2, rows));
}
