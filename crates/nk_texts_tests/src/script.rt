// Texts that are no script, and the line at which each is refused; and what else a text may say there.

use crate::rows::{none_wrong, right};
use bytes::Bytes;
use nk_script::Cause::{self, EndsEarly, Malformed, Unexpected};
use nk_script::{Script, ScriptError, read_script, read_shared};
use std::alloc::{AllocError, Global};

/// The line at which a text is refused, and why; `None` where it is a script.
pub type Answer = Option<(u32, Cause)>;

/// A part of a text, and how often it comes.
pub type Part = (&'static str, usize);

/// What follows the head of a text, and the answer to the whole.
type Row = (&'static str, Answer);

// Whether a text was answered so; it was not for want of memory.
fn is_so(answer: Result<Script, ScriptError>, expected: Answer) -> bool {
    match answer {
        Ok(_) => expected.is_none(),
        Err(ScriptError::Line { number, cause }) => expected == Some((number, cause)),
        Err(ScriptError::Memory) => false,
    }
}

// Whether that is the answer to a text; it is not where the text is too long.
fn is_answer(alloc: Global, text: &[u8], expected: Answer) -> bool {
    text.len() < 0x8000_0000 && is_so(read_script(alloc, text), expected)
}

// Whether that is the answer to shared bytes.
fn is_shared_answer(alloc: Global, text: &'static str, expected: Answer) -> bool {
    let input = Bytes::from_static(text.as_bytes());
    input.len() < 0x8000_0000 && is_so(read_shared(alloc, &input), expected)
}

// Adds a part to a text.
fn add(text: &mut Vec<u8>, part: &str, times: usize) -> Result<(), AllocError> {
    for _ in 0..times {
        text.extend_from_slice(part.as_bytes())?;
    }
    Ok(())
}

fn add_all(text: &mut Vec<u8>, parts: &[Part]) -> Result<(), AllocError> {
    for (part, times) in parts {
        add(text, part, *times)?;
    }
    Ok(())
}

/// Whether the text of these parts is answered so.
pub fn is_answered(alloc: Global, parts: &[Part], expected: Answer) -> bool {
    let mut text = Vec::new(alloc);
    match add_all(&mut text, parts) {
        Ok(()) => is_answer(alloc, &text, expected),
        Err(_) => false,
    }
}

// The number of the first row whose text, behind this head, is answered otherwise.
fn first_wrong(alloc: Global, head: &'static str, rows: &[Row]) -> Option<usize> {
    let mut number: usize = 0;
    for (rest, expected) in rows {
        if !is_answered(alloc, &[(head, 1), (rest, 1)], *expected) {
            return Some(number);
        }
        number = number.wrapping_add(1);
    }
    None
}

const CHANNEL: &str = "script 1\nchannel\n";

const RESPONSE: &str = "script 1\nchannel\nhop response 200\n";

const FAILED: &str = "script 1\nchannel\nhop fail 804b000d\n";

const SCHEDULE: &str = "script 1\nchannel\nhop fail 804b000d\nschedule\n";

const WORKED: &[Row] = &[
    ("hop response 200\npiece\n", Some((4, Malformed))),
    ("hop response 99\n", Some((3, Malformed))),
    ("hop redirect 302 allow\n", Some((4, EndsEarly))),
    ("hop fail 804b000d\nschedule\n2 act\n", Some((5, Malformed))),
    ("hop fail 00000000\n", Some((3, Malformed))),
    (
        "hop fail 804b000d\nhop fail 804b000d\n",
        Some((4, Unexpected)),
    ),
    (
        "hop fail 804b000d\nschedule\n0 act\n",
        Some((5, Unexpected)),
    ),
    (
        "hop fail 804b000d\nclosed\nwhen 1 suspend\n",
        Some((5, Unexpected)),
    ),
    ("hop fail 804b000d\nwindow 0\nx\n", Some((4, Malformed))),
    ("hop fail 804b000d\nwindow 07\n", Some((4, Malformed))),
    (
        "hop fail 804b000d\nclosed\nstart back\n",
        Some((5, Unexpected)),
    ),
    (
        "hop response 200\nend fail 804b0014\ntrailer a b\n",
        Some((5, Unexpected)),
    ),
];

#[test]
fn texts_are_refused_at_the_first_line_that_cannot_stand(rt: HostRuntime) {
    none_wrong(&rt, first_wrong(rt.alloc(), CHANNEL, WORKED));
}

// Shared bytes, the last line with its line feed and without, and a line that cannot stand behind pieces.
const SHARED: &[Row] = &[
    ("", Some((1, EndsEarly))),
    (
        "script 1\nchannel\nhop response 200\npiece a\npiece b\nend ok\nchannel\nhop response 200\npiece c\nend ok",
        None,
    ),
    (
        "script 1\nchannel\nhop redirect 302 allow\nhop response 200\npiece a\npiece \nend ok\n",
        Some((6, Malformed)),
    ),
    (
        "script 1\nchannel\nhop response 200\npiece a\nfield a b\n",
        Some((5, Unexpected)),
    ),
];

// The number of the first row whose bytes are answered otherwise.
fn first_wrong_shared(alloc: Global, rows: &[Row]) -> Option<usize> {
    let mut number: usize = 0;
    for (text, expected) in rows {
        if !is_shared_answer(alloc, text, *expected) {
            return Some(number);
        }
        number = number.wrapping_add(1);
    }
    None
}

#[test]
fn shared_bytes_are_read_as_a_text_is(rt: HostRuntime) {
    none_wrong(&rt, first_wrong_shared(rt.alloc(), SHARED));
}

const HEADS: &[Row] = &[
    ("", Some((1, EndsEarly))),
    ("\n", Some((1, Unexpected))),
    ("script", Some((1, Malformed))),
    ("script 2", Some((1, Malformed))),
    ("script 01", Some((1, Malformed))),
    ("script 1 ", Some((1, Malformed))),
    ("script  1", Some((1, Malformed))),
    ("script 1\r\n", Some((1, Malformed))),
    (" script 1", Some((1, Unexpected))),
    ("Script 1", Some((1, Unexpected))),
    ("scripts 1", Some((1, Unexpected))),
    ("é", Some((1, Unexpected))),
    ("channel", Some((1, Unexpected))),
    ("script 1", Some((2, EndsEarly))),
    ("script 1\n", Some((2, EndsEarly))),
    ("script 1\n\n", Some((2, Unexpected))),
    ("script 1\nscript 1", Some((2, Unexpected))),
    ("script 1\nschedule", Some((2, Unexpected))),
    ("script 1\nchannel 1", Some((2, Malformed))),
    ("script 1\nchannel", Some((3, EndsEarly))),
    ("script 1\nchannel\nhop fail 804b000d", None),
    ("script 1\nchannel\nhop fail 804b000d\n", None),
];

#[test]
fn the_text_of_no_bytes_ends_early(rt: HostRuntime) {
    none_wrong(&rt, first_wrong(rt.alloc(), "", HEADS));
    right(&rt, is_answer(rt.alloc(), b"\xff", Some((1, Unexpected))));
}

const HOPS: &[Row] = &[
    ("hop", Some((3, Malformed))),
    ("hop other", Some((3, Malformed))),
    ("hop fail", Some((3, Malformed))),
    ("hop fail 7fffffff", Some((3, Malformed))),
    ("hop fail 80000000", None),
    ("hop fail ffffffff", None),
    ("hop fail 804B000D", Some((3, Malformed))),
    ("hop fail 804b00d", Some((3, Malformed))),
    ("hop fail 804b000d0", Some((3, Malformed))),
    ("hop fail 804b000d ", Some((3, Malformed))),
    ("hop fail 804b000d 804b000d", Some((3, Malformed))),
    ("hop redirect 302", Some((3, Malformed))),
    ("hop redirect 299 allow", Some((3, Malformed))),
    ("hop redirect 300 allow", Some((4, EndsEarly))),
    ("hop redirect 399 allow", Some((4, EndsEarly))),
    ("hop redirect 400 allow", Some((3, Malformed))),
    ("hop redirect 302 deny", Some((3, Malformed))),
    ("hop redirect 302 allow 804b0002", Some((3, Malformed))),
    ("hop redirect 302 veto", Some((3, Malformed))),
    ("hop redirect 302 veto 00000000", Some((3, Malformed))),
    ("hop redirect 302 veto 80000000", Some((4, EndsEarly))),
    ("hop response", Some((3, Malformed))),
    ("hop response 100", Some((4, EndsEarly))),
    ("hop response 999", Some((4, EndsEarly))),
    ("hop response 1000", Some((3, Malformed))),
    ("hop response 0200", Some((3, Malformed))),
    ("hop response 200 ok", Some((3, Malformed))),
    ("field a b", Some((3, Unexpected))),
    ("channel", Some((3, Unexpected))),
    ("closed", Some((3, Unexpected))),
    ("1 act", Some((3, Unexpected))),
];

const RESPONSES: &[Row] = &[
    ("", Some((4, EndsEarly))),
    ("hop fail 804b000d", Some((4, Unexpected))),
    ("channel", Some((4, Unexpected))),
    ("schedule", Some((4, Unexpected))),
    ("trailer a b", Some((4, Unexpected))),
    ("field", Some((4, Malformed))),
    ("field a", Some((4, Malformed))),
    ("field a ", Some((4, Malformed))),
    ("field  b", Some((4, Malformed))),
    ("field A b", Some((4, Malformed))),
    ("field a  b", Some((4, Malformed))),
    ("field a b ", Some((4, Malformed))),
    ("field a b\x7f", Some((4, Malformed))),
    ("field a b", Some((5, EndsEarly))),
    ("field a b c\nend ok", None),
    ("field x-!#$%&'*+.^_`|~09 b\nend ok", None),
    ("piece", Some((4, Malformed))),
    ("piece ", Some((4, Malformed))),
    ("piece  \nend ok", None),
    ("piece \0é\r\nend ok", None),
    ("piece a\nfield a b", Some((5, Unexpected))),
    ("hex", Some((4, Malformed))),
    ("hex ", Some((4, Malformed))),
    ("hex 0", Some((4, Malformed))),
    ("hex 000", Some((4, Malformed))),
    ("hex 0g", Some((4, Malformed))),
    ("hex 0A", Some((4, Malformed))),
    ("hex 00 ff", Some((4, Malformed))),
    ("hex 00ff\nend ok", None),
    ("fill", Some((4, Malformed))),
    ("fill 61", Some((4, Malformed))),
    ("fill 61 0", Some((4, Malformed))),
    ("fill 61 01", Some((4, Malformed))),
    ("fill 6 1", Some((4, Malformed))),
    ("fill 6A 1", Some((4, Malformed))),
    ("fill 61 1 ", Some((4, Malformed))),
    ("fill 61 131073", Some((4, Malformed))),
    ("fill 61 131072\nend ok", None),
    ("hex 61\nfill 61 1\npiece a\nhex 61\nend ok", None),
    ("end", Some((4, Malformed))),
    ("end good", Some((4, Malformed))),
    ("end ok ok", Some((4, Malformed))),
    ("end fail", Some((4, Malformed))),
    ("end fail 00000000", Some((4, Malformed))),
    ("end fail 80000000", None),
    ("end ok", None),
    ("end ok\npiece a", Some((5, Unexpected))),
    ("end ok\nend ok", Some((5, Unexpected))),
    ("end ok\ntrailer a b", None),
    ("end ok\ntrailer", Some((5, Malformed))),
    ("end ok\ntrailer a", Some((5, Malformed))),
    ("end ok\ntrailer A b", Some((5, Malformed))),
    ("end ok\ntrailer a b ", Some((5, Malformed))),
    ("end ok\nlistener plain\ntrailer a b", Some((6, Unexpected))),
    ("end ok\nhop fail 804b000d", Some((5, Unexpected))),
];

#[test]
fn a_channel_has_hops_and_a_response_has_a_body(rt: HostRuntime) {
    let first = first_wrong(rt.alloc(), CHANNEL, HOPS);
    none_wrong(&rt, first.or(first_wrong(rt.alloc(), RESPONSE, RESPONSES)));
}

const OPTIONS: &[Row] = &[
    ("listener", Some((4, Malformed))),
    ("listener other", Some((4, Malformed))),
    ("listener plain 1", Some((4, Malformed))),
    ("listener plain", None),
    ("listener pipe", Some((4, Malformed))),
    ("listener pipe 4 1", Some((4, Malformed))),
    ("listener pipe 4 1 1 1", Some((4, Malformed))),
    ("listener pipe 3 1 1", Some((4, Malformed))),
    ("listener pipe 4 1 1", None),
    ("listener pipe 65536 1024 8", None),
    ("listener pipe 65537 1 1", Some((4, Malformed))),
    ("listener pipe 4 0 1", Some((4, Malformed))),
    ("listener pipe 4 1025 1", Some((4, Malformed))),
    ("listener pipe 4 1 0", Some((4, Malformed))),
    ("listener pipe 4 1 9", Some((4, Malformed))),
    ("listener pipe 04 1 1", Some((4, Malformed))),
    ("listener plain\nlistener plain", Some((5, Unexpected))),
    ("retargetable", Some((4, Malformed))),
    ("retargetable yes", Some((4, Malformed))),
    ("retargetable no", None),
    ("retargetable no\nretargetable no", Some((5, Unexpected))),
    ("retargetable no\nlistener plain", Some((5, Unexpected))),
    ("window", Some((4, Malformed))),
    ("window 1", None),
    ("window 16777216", None),
    ("window 16777217", Some((4, Malformed))),
    ("window 1 1", Some((4, Malformed))),
    ("window 1\nwindow 1", Some((5, Unexpected))),
    ("window 1\nretargetable no", Some((5, Unexpected))),
    ("start", Some((4, Malformed))),
    ("start main", Some((4, Malformed))),
    ("start back", None),
    ("start back\nstart back", Some((5, Unexpected))),
    ("start back\nwindow 1", Some((5, Unexpected))),
    ("closed", None),
    ("closed no", Some((4, Malformed))),
    ("closed\nclosed", Some((5, Unexpected))),
    ("closed\nat start suspend", None),
    (
        "closed\nat start suspend\nwhen 1 suspend",
        Some((6, Unexpected)),
    ),
    (
        "listener plain\nretargetable no\nwindow 1\nstart back\nclosed\nschedule",
        None,
    ),
    ("retargetable no\nstart back\nwhen 1 suspend", None),
    ("piece a", Some((4, Unexpected))),
    ("channel", Some((5, EndsEarly))),
    ("channel\nhop fail 804b000d", None),
];

const REACTIONS: &[Row] = &[
    ("at", Some((4, Malformed))),
    ("at start", Some((4, Malformed))),
    ("at start resume", Some((4, Malformed))),
    ("at stop fail 80004005", Some((4, Malformed))),
    ("at start retarget w1", None),
    ("at start retarget w16", None),
    ("at start retarget w17", Some((4, Malformed))),
    ("at start retarget w0", Some((4, Malformed))),
    ("at start retarget w01", Some((4, Malformed))),
    ("at start retarget main", Some((4, Malformed))),
    ("at start suspend", None),
    ("at start suspend 1", Some((4, Malformed))),
    ("at start cancel 80000000", None),
    ("at start cancel 00000000", Some((4, Malformed))),
    ("at start fail 80004005", None),
    ("at start fail 7fffffff", Some((4, Malformed))),
    ("at data 0 fail 80004005", Some((4, Malformed))),
    ("at data 1 fail 80004005", None),
    ("at data 65536 fail 80004005", None),
    ("at data 65537 fail 80004005", Some((4, Malformed))),
    ("at data 1 cancel 80004005", Some((4, Malformed))),
    ("at data 1 fail 00000000", Some((4, Malformed))),
    ("at start suspend\nstart back", Some((5, Unexpected))),
    ("at start suspend\nclosed", Some((5, Unexpected))),
    ("at start suspend\nwhen 1 resume", None),
    ("when", Some((4, Malformed))),
    ("when 1", Some((4, Malformed))),
    ("when 1 open", Some((4, Malformed))),
    ("when 01 suspend", Some((4, Malformed))),
    ("when -1 suspend", Some((4, Malformed))),
    ("when 0 suspend", None),
    ("when 100000 resume", None),
    ("when 100001 resume", Some((4, Malformed))),
    ("when 1 cancel 80000000", None),
    ("when 1 cancel 00000000", Some((4, Malformed))),
    ("when 1 retarget w16", None),
    ("when 1 retarget w17", Some((4, Malformed))),
    ("when 1 break 804b0014", None),
    ("when 1 break 00000000", Some((4, Malformed))),
    ("when 1 suspend 1", Some((4, Malformed))),
    ("when 1 suspend\nat start suspend", Some((5, Unexpected))),
];

#[test]
fn options_reactions_and_controls_stand_in_their_order(rt: HostRuntime) {
    let first = first_wrong(rt.alloc(), FAILED, OPTIONS);
    none_wrong(&rt, first.or(first_wrong(rt.alloc(), FAILED, REACTIONS)));
}

const STEPS: &[Row] = &[
    ("", None),
    ("1 act\n1 act", None),
    ("\n", Some((5, Unexpected))),
    ("act", Some((5, Unexpected))),
    ("x act", Some((5, Unexpected))),
    ("-1 act", Some((5, Unexpected))),
    ("01 act", Some((5, Unexpected))),
    (" 1 act", Some((5, Unexpected))),
    ("schedule", Some((5, Unexpected))),
    ("channel", Some((5, Unexpected))),
    ("2 act", Some((5, Malformed))),
    ("4294967297 act", Some((5, Malformed))),
    ("18446744073709551617 act", Some((5, Malformed))),
    ("1", Some((5, Malformed))),
    ("1 ", Some((5, Malformed))),
    ("1  act", Some((5, Malformed))),
    ("1 run", Some((5, Malformed))),
    ("1 act 1", Some((5, Malformed))),
    ("1 begin", Some((5, Malformed))),
    ("1 begin back", Some((5, Malformed))),
    ("1 begin w0", Some((5, Malformed))),
    ("1 begin w17", Some((5, Malformed))),
    ("1 begin main main", Some((5, Malformed))),
    ("1 finish", Some((5, Malformed))),
    ("1 finish back", Some((5, Malformed))),
    ("1 finish w17", Some((5, Malformed))),
    ("1 read", Some((5, Malformed))),
    ("1 read 0", Some((5, Malformed))),
    ("1 read 1", None),
    ("1 read 8", None),
    ("1 read 9", Some((5, Malformed))),
    ("1 read 01", Some((5, Malformed))),
    ("1 act\n1 act\n2 act", Some((7, Malformed))),
];

#[test]
fn a_schedule_has_steps_of_channels(rt: HostRuntime) {
    none_wrong(&rt, first_wrong(rt.alloc(), SCHEDULE, STEPS));
}
