// What every layer speaks of: statuses, header fields and heads, pieces, messages, lists, and the list that takes messages.

ghost use Rattle.std.specs.Prelude.{◌≤◌, ◌+◌, length, IsTrue};
ghost use Rattle.nk_base.specs.Ranges.{IsUpInRange};

use crate::rows::{none_wrong, right};
use nk_base::{
    BackMsg, ByteList, Entry, Field, Fields, Grow, Head, HeadError, MainMsg, Name, Out, OutList,
    Piece, PieceError, Status, Target, UpMsg, Value,
};
use std::alloc::Global;
use std::mem::size_of;

mod messages;

pub(crate) use messages::{Numbered, first_confused, is_as, share_of};

fn field_of(alloc: Global, name: Name, value: &[u8]) -> Option<Field> {
    let value = Value::new(alloc, value).ok()?;
    Some(Field { name, value })
}

/// Puts a field behind the others.
pub(crate) fn add_field(alloc: Global, all: &mut Fields, name: &[u8], value: &[u8]) -> Option<()> {
    let name = Name::new(alloc, name).ok()?;
    let field = field_of(alloc, name, value)?;
    all.push(field).ok()
}

fn add_fields(
    alloc: Global,
    all: &mut Fields,
    count: usize,
    name: &[u8],
    value: &[u8],
) -> Option<()> {
    for _ in 1..count {
        add_field(alloc, all, b"content-type", b"text/html")?;
    }
    if count > 0 {
        add_field(alloc, all, name, value)?;
    }
    Some(())
}

/// So many fields, of which the last is this one.
fn fields(alloc: Global, count: usize, name: &[u8], value: &[u8]) -> Option<Fields> {
    let mut all = Fields::new(alloc);
    add_fields(alloc, &mut all, count, name, value)?;
    Some(all)
}

/// A code, the number of fields, the last of them, and what is wrong with such a head.
#[derive(Clone, Copy, Drop)]
struct HeadRow(u16, usize, &'static [u8], &'static [u8], Option<HeadError>);

/// Whether a head of these fields is refused as its row says, and else has the parts that it was given.
fn is_so(fields: Fields, row: &HeadRow) -> bool {
    match Head::new(row.0, fields) {
        Ok(head) => row.4.is_none() && head.code == row.0 && head.fields.len() == row.1,
        Err(error) => row.4 == Some(error),
    }
}

/// The number of the first row that is not so.
fn first_wrong_head(alloc: Global, rows: &[HeadRow]) -> Option<usize> {
    for (i, row) in rows.iter().enumerate() {
        let Some(fields) = fields(alloc, row.1, row.2, row.3) else {
            return Some(i);
        };
        if !is_so(fields, row) {
            return Some(i);
        }
    }
    None
}

#[test]
fn a_head_that_is_refused_names_its_cause(rt: HostRuntime) {
    const HTML: &[u8] = b"text/html";
    let rows = &[
        HeadRow(99, 0, b"", b"", Some(HeadError::BadCode(99))),
        HeadRow(200, 1, b"A", HTML, Some(HeadError::BadName(0))),
        HeadRow(200, 65, b"vary", b"accept", Some(HeadError::TooMany(65))),
        HeadRow(200, 2, b"x_1", HTML, None),
        HeadRow(100, 0, b"", b"", None),
        HeadRow(999, 64, b"vary", b"accept", None),
        HeadRow(1000, 0, b"", b"", Some(HeadError::BadCode(1000))),
        HeadRow(0, 65, b"A", b"", Some(HeadError::BadCode(0))),
        HeadRow(200, 65, b"A", b"", Some(HeadError::TooMany(65))),
        HeadRow(200, 64, b"A", b"", Some(HeadError::BadName(63))),
        HeadRow(200, 64, b"a", b"", Some(HeadError::BadValue(63))),
        HeadRow(200, 3, b"", HTML, Some(HeadError::BadName(2))),
        HeadRow(200, 3, b"vary", b" accept", Some(HeadError::BadValue(2))),
        HeadRow(200, 3, b"vary", b"accept ", Some(HeadError::BadValue(2))),
        HeadRow(200, 3, b"vary", b"a  b", None),
    ];
    none_wrong(&rt, first_wrong_head(rt.alloc(), rows));
}

const NAME_BYTES: &[u8] = b"abcdefghijklmnopqrstuvwxyz0123456789!#$%&'*+-.^_`|~";

fn is_name(alloc: Global, bytes: &[u8]) -> Option<bool> {
    let name = Name::new(alloc, bytes).ok()?;
    Some(name.is_good())
}

fn is_value(alloc: Global, bytes: &[u8]) -> Option<bool> {
    let value = Value::new(alloc, bytes).ok()?;
    Some(value.is_good())
}

/// Whether a byte may stand in names and in values exactly where it should.
fn is_byte_so(alloc: Global, byte: u8) -> bool {
    let name = is_name(alloc, &[byte]);
    let alone = is_value(alloc, &[byte]);
    let within = is_value(alloc, &[b'a', byte, b'b']);
    name == Some(NAME_BYTES.contains(&byte))
        && alone == Some(0x21 <= byte && byte <= 0x7e)
        && within == Some(0x20 <= byte && byte <= 0x7e)
}

fn first_wrong_byte(alloc: Global) -> Option<usize> {
    for byte in 0..=255 {
        if !is_byte_so(alloc, byte) {
            return Some(usize::from(byte));
        }
    }
    None
}

#[test]
fn names_and_values_have_their_bytes(rt: HostRuntime) {
    none_wrong(&rt, first_wrong_byte(rt.alloc()));
}

/// Whether so many bytes are a name, and a value.
fn are_good(alloc: Global, length: usize) -> Option<(bool, bool)> {
    let bytes = vec![in alloc; b'a'; length].ok()?;
    Some((is_name(alloc, &bytes)?, is_value(alloc, &bytes)?))
}

/// The number of the first row of a length and what is good of it that is not so.
fn first_wrong_length(alloc: Global, rows: &[(usize, bool, bool)]) -> Option<usize> {
    for (i, row) in rows.iter().enumerate() {
        if are_good(alloc, row.0) != Some((row.1, row.2)) {
            return Some(i);
        }
    }
    None
}

#[test]
fn names_and_values_have_their_lengths(rt: HostRuntime) {
    let rows = &[
        (0, false, false),
        (1, true, true),
        (64, true, true),
        (65, false, true),
        (8192, false, true),
        (8193, false, false),
    ];
    none_wrong(&rt, first_wrong_length(rt.alloc(), rows));
}

/// The size of the share of a piece of these bytes, where it has the bytes too.
fn share_size(piece: &Piece, bytes: &[u8]) -> Result<u32, PieceError> {
    match piece.share() {
        Ok(share) if share.as_slice() == bytes && piece.same(&share) => Ok(share.size()),
        Ok(_) => Ok(0),
        Err(_) => Err(PieceError::Memory),
    }
}

/// The size of the share of a piece of so many bytes.
fn piece_size(alloc: Global, length: usize) -> Result<u32, PieceError> {
    let Ok(bytes) = vec![in alloc; 0x2e_u8; length] else {
        return Err(PieceError::Memory);
    };
    match Piece::new(alloc, &bytes) {
        Ok(piece) => share_size(&piece, &bytes),
        Err(error) => Err(error),
    }
}

/// The size of a piece that is made of a vector of so many bytes.
fn moved_size(alloc: Global, length: usize) -> Result<u32, PieceError> {
    let Ok(bytes) = vec![in alloc; 0x2e_u8; length] else {
        return Err(PieceError::Memory);
    };
    match Piece::from_vec(bytes) {
        Ok(piece) => Ok(piece.size()),
        Err(error) => Err(error),
    }
}

/// The number of the first row of a length and the size of such a piece, made either way, that is not so.
fn first_wrong_size(alloc: Global, rows: &[(usize, Result<u32, PieceError>)]) -> Option<usize> {
    for (i, row) in rows.iter().enumerate() {
        if piece_size(alloc, row.0) != row.1 || moved_size(alloc, row.0) != row.1 {
            return Some(i);
        }
    }
    None
}

#[test]
fn a_piece_has_1_to_131072_bytes(rt: HostRuntime) {
    let rows = &[
        (0, Err(PieceError::Empty)),
        (1, Ok(1)),
        (131_071, Ok(131_071)),
        (131_072, Ok(131_072)),
        (131_073, Err(PieceError::TooLong)),
    ];
    none_wrong(&rt, first_wrong_size(rt.alloc(), rows));
}

/// A part of a piece, so many bytes from this one on; none where they are none, or do not lie in it.
fn part(piece: &Piece, from: u32, size: u32) -> Option<Piece> {
    let whole = piece.size();
    if size == 0 || whole < size || whole - size < from {
        return None;
    }
    piece.part(from, size).ok()
}

/// The part `bcde` of a piece.
fn middle(alloc: Global) -> Option<Piece> {
    let source = Vec::from_slice(alloc, b"abcdef".as_slice()).ok()?;
    part(&Piece::from_vec(source).ok()?, 1, 4)
}

fn has_bytes(piece: Option<Piece>, bytes: Option<&[u8]>) -> bool {
    match (piece, bytes) {
        (Some(piece), Some(bytes)) => piece.as_slice() == bytes,
        (None, None) => true,
        _ => false,
    }
}

/// Where a part of that part begins, its size, and its bytes.
#[derive(Clone, Copy, Drop)]
struct PartRow(u32, u32, Option<&'static [u8]>);

fn first_wrong_part_of(middle: &Piece, rows: &[PartRow]) -> Option<usize> {
    for (i, row) in rows.iter().enumerate() {
        if !has_bytes(part(middle, row.0, row.1), row.2) {
            return Some(i);
        }
    }
    None
}

/// The number of the first row that is not so.
fn first_wrong_part(alloc: Global, rows: &[PartRow]) -> Option<usize> {
    match middle(alloc) {
        Some(middle) => first_wrong_part_of(&middle, rows),
        None => Some(0),
    }
}

#[test]
fn a_part_of_a_part_has_its_bytes(rt: HostRuntime) {
    let rows = &[
        PartRow(0, 4, Some(b"bcde")),
        PartRow(0, 1, Some(b"b")),
        PartRow(1, 2, Some(b"cd")),
        PartRow(3, 1, Some(b"e")),
        PartRow(0, 0, None),
        PartRow(0, 5, None),
        PartRow(2, 3, None),
        PartRow(4, 1, None),
    ];
    none_wrong(&rt, first_wrong_part(rt.alloc(), rows));
}

/// Whether a new share of a list is as the list, and this one is not.
fn is_left_alone(list: &Fields, share: &Fields) -> Option<bool> {
    let again = list.share().ok()?;
    Some(again.same(list) && !share.same(list))
}

/// How many fields there are in a share of a list, and then in the share and in the list once two were added to the
/// share and one to the list; and whether a share that is left alone is as the list.
fn counts_of(alloc: Global, list: &mut Fields, share: &mut Fields) -> Option<([usize; 3], bool)> {
    let before = share.len();
    add_fields(alloc, share, 2, b"age", b"0")?;
    add_field(alloc, list, b"age", b"1")?;
    let counts = [before, share.len(), list.len()];
    Some((counts, is_left_alone(list, share)?))
}

/// The same for a list of one.
fn counts(alloc: Global) -> Option<([usize; 3], bool)> {
    let mut list = fields(alloc, 1, b"vary", b"accept")?;
    let mut share = list.share().ok()?;
    counts_of(alloc, &mut list, &mut share)
}

#[test]
fn a_list_that_is_shared_is_left_as_it_is(rt: HostRuntime) {
    right(&rt, counts(rt.alloc()) == Some(([1, 3, 2], true)));
}

#[test]
fn what_carries_a_piece_is_small(rt: HostRuntime) {
    right(&rt, size_of::<Piece>() == 16);
    right(&rt, size_of::<Entry>() == 32);
    right(&rt, size_of::<MainMsg>() == 40);
    right(&rt, size_of::<BackMsg>() == 40);
}

/// Adds a byte and then more.
fn gather(bytes: &mut ByteList) -> Option<()> {
    bytes.push(b'a').ok()?;
    bytes.extend(b"bc").ok()?;
    bytes.extend(b"").ok()
}

/// The length of the list that is gathered, whether it has its bytes, and whether it has them as a list of items too.
fn gathered(alloc: Global) -> Option<(usize, bool, bool)> {
    let mut bytes = ByteList::new(alloc);
    gather(&mut bytes)?;
    let length = bytes.len();
    let has_bytes = bytes.as_slice() == b"abc".as_slice();
    let back = ByteList::from_grow(bytes.into_grow());
    Some((length, has_bytes, back.as_slice() == b"abc".as_slice()))
}

/// Whether a list has the items that were added in the room that was made for them, and how many it has by way of a `Vec`.
fn grown(alloc: Global) -> Option<(bool, usize)> {
    let mut grow = Grow::new(alloc);
    grow.reserve(3).ok()?;
    grow.push(7u32);
    grow.extend(&[8, 9]);
    let has_items = grow.as_slice() == [7, 8, 9].as_slice();
    Some((has_items, Grow::from_vec(grow.into_vec()).len()))
}

#[test]
fn lists_take_what_is_pushed(rt: HostRuntime) {
    right(&rt, gathered(rt.alloc()) == Some((3, true, true)));
    right(&rt, grown(rt.alloc()) == Some((true, 3)));
}

/// A list of messages, and how many it was given at most: so few that there is room for more.
#[derive(Drop)]
struct Lane {
    list: OutList<UpMsg>,
    given: u32,
    ghost few: { length list.held + length list.staged ≤ given },
}

/// A call of a list of messages.
#[derive(Clone, Copy, Drop)]
enum Call {
    Stage(UpMsg),
    Send,
    Drop,
    First,
    Take,
}

/// What it answered.
#[derive(Clone, Copy, Drop, PartialEq, Eq)]
enum Answer {
    Done,
    Message(Option<UpMsg>),
    Refused,
    Memory,
}

fn is_in_range(message: UpMsg) -> bool
    ensures { IsTrue result → IsUpInRange message }
{
    match message {
        UpMsg::Open | UpMsg::Suspend | UpMsg::Resume | UpMsg::Deleting => true,
        UpMsg::Cancel { status } => status.is_failure(),
        UpMsg::Verify { hop, status } => hop < 32 && status.is_legal(),
        UpMsg::BytesRead { count } => 1 <= count && count <= 131_072,
    }
}

fn stage(lane: &mut Lane, message: UpMsg) -> Answer {
    if lane.given >= 1000 || !is_in_range(message) {
        return Answer::Refused;
    }
    lane.given += 1;
    match lane.list.stage(message) {
        Ok(()) => Answer::Done,
        Err(_) => Answer::Memory,
    }
}

fn make(lane: &mut Lane, call: Call) -> Answer {
    match call {
        Call::Stage(message) => stage(lane, message),
        Call::Send => {
            lane.list.send_staged();
            Answer::Done
        }
        Call::Drop => {
            lane.list.drop_staged();
            Answer::Done
        }
        Call::First => Answer::Message(lane.list.first().copied()),
        Call::Take => Answer::Message(lane.list.take()),
    }
}

/// The number of the first call of a new list that answers otherwise than its row says.
fn first_wrong(alloc: Global, rows: &[(Call, Answer)]) -> Option<usize> {
    let mut lane = Lane {
        list: OutList::new(alloc),
        given: 0,
    };
    for (i, row) in rows.iter().enumerate() {
        if make(&mut lane, row.0) != row.1 {
            return Some(i);
        }
    }
    None
}

#[test]
fn what_is_staged_is_sent_in_order(rt: HostRuntime) {
    let rows = &[
        (Call::Stage(UpMsg::Open), Answer::Done),
        (Call::Stage(UpMsg::Suspend), Answer::Done),
        (Call::Take, Answer::Message(None)),
        (Call::First, Answer::Message(None)),
        (Call::Send, Answer::Done),
        (Call::Stage(UpMsg::Deleting), Answer::Done),
        (Call::Drop, Answer::Done),
        (Call::Send, Answer::Done),
        (Call::First, Answer::Message(Some(UpMsg::Open))),
        (Call::Take, Answer::Message(Some(UpMsg::Open))),
        (Call::Stage(UpMsg::Resume), Answer::Done),
        (Call::Send, Answer::Done),
        (Call::Take, Answer::Message(Some(UpMsg::Suspend))),
        (Call::Take, Answer::Message(Some(UpMsg::Resume))),
        (Call::Take, Answer::Message(None)),
        (Call::Drop, Answer::Done),
        (Call::Take, Answer::Message(None)),
    ];
    none_wrong(&rt, first_wrong(rt.alloc(), rows));
}

/// A status, its number, and whether it is a failure and is legal.
#[derive(Clone, Copy, Drop)]
struct StatusRow(Status, u32, bool, bool);

/// The number of the first row that is not so.
fn first_wrong_status(rows: &[StatusRow]) -> Option<usize> {
    for (i, row) in rows.iter().enumerate() {
        let status = row.0;
        if status.0 != row.1 || status.is_failure() != row.2 || status.is_legal() != row.3 {
            return Some(i);
        }
    }
    None
}

#[test]
fn statuses_have_their_numbers(rt: HostRuntime) {
    let rows = &[
        StatusRow(Status::OK, 0, false, true),
        StatusRow(Status::FAILURE, 0x8000_4005, true, true),
        StatusRow(Status::BINDING_ABORTED, 0x804b_0002, true, true),
        StatusRow(Status::CONNECTION_REFUSED, 0x804b_000d, true, true),
        StatusRow(Status::NET_RESET, 0x804b_0014, true, true),
        StatusRow(Status::REDIRECT_LOOP, 0x804b_001f, true, true),
        StatusRow(Status::STREAM_CLOSED, 0x8047_0002, true, true),
        StatusRow(Status::STREAM_WOULD_BLOCK, 0x8047_0007, true, true),
    ];
    none_wrong(&rt, first_wrong_status(rows));
}

#[test]
fn a_status_is_0_or_has_its_top_bit_set(rt: HostRuntime) {
    let rows = &[
        StatusRow(Status(0), 0, false, true),
        StatusRow(Status(1), 1, false, false),
        StatusRow(Status(0x7fff_ffff), 0x7fff_ffff, false, false),
        StatusRow(Status(0x8000_0000), 0x8000_0000, true, true),
        StatusRow(Status(0xffff_ffff), 0xffff_ffff, true, true),
    ];
    none_wrong(&rt, first_wrong_status(rows));
}

/// Whether each of the targets is itself alone.
fn are_apart(targets: &[Target]) -> bool {
    for (i, one) in targets.iter().enumerate() {
        for (j, other) in targets.iter().enumerate() {
            if one.is(*other) != (i == j) {
                return false;
            }
        }
    }
    true
}

#[test]
fn each_worker_is_a_target_of_its_own(rt: HostRuntime) {
    let targets = &[
        Target::Main,
        Target::Worker(1),
        Target::Worker(16),
        Target::Back,
    ];
    right(&rt, are_apart(targets));
}
