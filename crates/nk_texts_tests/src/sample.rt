// Messages as the rows of tables name them, and the messages that they stand for.

use nk_base::{BackMsg, Field, Fields, Head, MainMsg, Memory, Name, Piece, Status, UpMsg, Value};
use nk_wire::AnyMsg;
use std::alloc::Global;

/// A text that is repeated so many times.
pub type Text = (&'static [u8], usize);

/// So many header fields, all of this name and this value.
#[derive(Clone, Copy)]
pub struct Headers(pub usize, pub Text, pub Text);

/// No header fields.
pub const NO_HEADERS: Headers = Headers(0, (b"", 0), (b"", 0));

/// The one header field x: y.
pub const ONE_HEADER: Headers = Headers(1, (b"x", 1), (b"y", 1));

/// The one header field x-sum: 17.
pub const TRAILER: Headers = Headers(1, (b"x-sum", 1), (b"17", 1));

/// A message of any lane.
#[derive(Clone, Copy)]
pub enum Sample {
    Start(u32, Status, u16, Headers),
    FailedOpen(u32, Status),
    Redirect1(u32, u16),
    Redirect3(u32),
    BackStart(u32, Status, u16, Headers),
    StartSent(u32),
    Bytes(u32, Status, u64, Text),
    Stop(u32, Status, Headers),
    Up(UpMsg),
}

fn name(alloc: Global, text: Text) -> Result<Name, Memory> {
    match text.0.repeat(alloc, text.1) {
        Ok(bytes) => Name::new(alloc, &bytes),
        Err(_) => Err(Memory),
    }
}

fn value(alloc: Global, text: Text) -> Result<Value, Memory> {
    match text.0.repeat(alloc, text.1) {
        Ok(bytes) => Value::new(alloc, &bytes),
        Err(_) => Err(Memory),
    }
}

fn field(alloc: Global, headers: Headers) -> Result<Field, Memory> {
    let name = name(alloc, headers.1)?;
    let value = value(alloc, headers.2)?;
    Ok(Field { name, value })
}

/// The header fields.
pub fn fields(alloc: Global, headers: Headers) -> Result<Fields, Memory> {
    let mut all = Fields::new(alloc);
    for _ in 0..headers.0 {
        all.push(field(alloc, headers)?)?;
    }
    Ok(all)
}

fn new_piece(alloc: Global, bytes: &[u8]) -> Result<Piece, Memory> {
    match Piece::new(alloc, bytes) {
        Ok(piece) => Ok(piece),
        Err(_) => Err(Memory),
    }
}

/// The piece of this text.
pub fn piece(alloc: Global, text: Text) -> Result<Piece, Memory> {
    match text.0.repeat(alloc, text.1) {
        Ok(bytes) => new_piece(alloc, &bytes),
        Err(_) => Err(Memory),
    }
}

fn head(alloc: Global, code: u16, headers: Headers) -> Result<Head, Memory> {
    match Head::new(code, fields(alloc, headers)?) {
        Ok(head) => Ok(head),
        Err(_) => Err(Memory),
    }
}

/// The message that the sample stands for; `Memory` also where there is none.
pub fn message(alloc: Global, sample: &Sample) -> Result<AnyMsg, Memory> {
    match *sample {
        Sample::Start(hop, status, code, headers) => {
            let head = head(alloc, code, headers)?;
            Ok(AnyMsg::Main(MainMsg::Start { hop, status, head }))
        }
        Sample::FailedOpen(hop, status) => Ok(AnyMsg::Main(MainMsg::FailedOpen { hop, status })),
        Sample::Redirect1(hop, code) => Ok(AnyMsg::Main(MainMsg::Redirect1 { hop, code })),
        Sample::Redirect3(hop) => Ok(AnyMsg::Main(MainMsg::Redirect3 { hop })),
        Sample::BackStart(hop, status, code, headers) => {
            let head = head(alloc, code, headers)?;
            Ok(AnyMsg::Back(BackMsg::Start { hop, status, head }))
        }
        Sample::StartSent(hop) => Ok(AnyMsg::Back(BackMsg::StartSent { hop })),
        Sample::Bytes(hop, status, offset, text) => {
            let piece = piece(alloc, text)?;
            Ok(AnyMsg::Back(BackMsg::Bytes {
                hop,
                status,
                offset,
                piece,
            }))
        }
        Sample::Stop(hop, status, headers) => {
            let trailers = fields(alloc, headers)?;
            Ok(AnyMsg::Back(BackMsg::Stop {
                hop,
                status,
                trailers,
            }))
        }
        Sample::Up(m) => Ok(AnyMsg::Up(m)),
    }
}
