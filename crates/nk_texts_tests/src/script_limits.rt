// Texts at their limits, and one step behind them.

use crate::rows::{Row, all_right};
use crate::script::{Answer, Part, is_answered};
use nk_script::Cause::{Limit, Malformed};
use std::alloc::Global;

/// What a text begins with, what then comes so often, what it ends with, and the answer to it.
type Repeated = (&'static str, &'static str, usize, &'static str, Answer);

/// The parts of a text, and the answer to it.
type Long = (&'static [Part], Answer);

const HEAD: &str = "script 1\n";

const CHANNEL: &str = "script 1\nchannel\n";

const FAILED: &str = "script 1\nchannel\nhop fail 804b000d\n";

const RESPONSE: &str = "script 1\nchannel\nhop response 200\n";

const ENDED: &str = "script 1\nchannel\nhop response 200\nend ok\n";

const REDIRECT: &str = "hop redirect 302 allow\n";

const FILL: &str = "fill 00 131072\n";

const PIECE: &str = "piece a\n";

impl Row for Repeated {
    fn is_right(&self, alloc: Global) -> bool {
        let (head, line, times, tail, expected) = *self;
        is_answered(alloc, &[(head, 1), (line, times), (tail, 1)], expected)
    }
}

impl Row for Long {
    fn is_right(&self, alloc: Global) -> bool {
        is_answered(alloc, self.0, self.1)
    }
}

const HOPS: &[Repeated] = &[
    (CHANNEL, REDIRECT, 32, "", Some((34, Limit))),
    (
        CHANNEL,
        REDIRECT,
        31,
        "hop redirect 302 veto 80004005",
        Some((34, Limit)),
    ),
    (CHANNEL, REDIRECT, 31, "hop fail 804b000d", None),
    (CHANNEL, REDIRECT, 31, "hop response 200\nend ok", None),
];

#[test]
fn a_redirect_is_no_last_hop_that_a_channel_may_have(rt: HostRuntime) {
    all_right(&rt, rt.alloc(), HOPS);
}

const LINES_AND_WORDS: &[Repeated] = &[
    (HEAD, "channel\nhop fail 804b000d\n", 1024, "", None),
    (
        HEAD,
        "channel\nhop fail 804b000d\n",
        1025,
        "",
        Some((2050, Limit)),
    ),
    (RESPONSE, "field a b\n", 64, "end ok", None),
    (RESPONSE, "field a b\n", 65, "end ok", Some((68, Limit))),
    (ENDED, "trailer a b\n", 64, "", None),
    (ENDED, "trailer a b\n", 65, "", Some((69, Limit))),
    (FAILED, "at start suspend\n", 64, "", None),
    (FAILED, "at start suspend\n", 65, "", Some((68, Limit))),
    (
        FAILED,
        "at start suspend\n",
        64,
        "at start resume",
        Some((68, Malformed)),
    ),
    (FAILED, "when 1 suspend\n", 64, "", None),
    (FAILED, "when 1 suspend\n", 65, "", Some((68, Limit))),
    (RESPONSE, PIECE, 65_536, "end ok", None),
    (RESPONSE, PIECE, 65_537, "", Some((65_540, Limit))),
    (
        "script 1\nchannel\nhop response 200\npiece ",
        "a",
        131_072,
        "\nend ok",
        None,
    ),
    (
        "script 1\nchannel\nhop response 200\npiece ",
        "a",
        131_073,
        "",
        Some((4, Malformed)),
    ),
    (
        "script 1\nchannel\nhop response 200\nhex ",
        "61",
        131_072,
        "\nend ok",
        None,
    ),
    (
        "script 1\nchannel\nhop response 200\nhex ",
        "61",
        131_073,
        "",
        Some((4, Malformed)),
    ),
    (
        "script 1\nchannel\nhop response 200\nfield ",
        "a",
        64,
        " b\nend ok",
        None,
    ),
    (
        "script 1\nchannel\nhop response 200\nfield ",
        "a",
        65,
        " b",
        Some((4, Malformed)),
    ),
    (
        "script 1\nchannel\nhop response 200\nfield a ",
        "b",
        8192,
        "\nend ok",
        None,
    ),
    (
        "script 1\nchannel\nhop response 200\nfield a ",
        "b",
        8193,
        "",
        Some((4, Malformed)),
    ),
    (
        "script 1\nchannel\nhop response 200\nend ok\ntrailer a ",
        "b",
        8192,
        "",
        None,
    ),
    (
        "script 1\nchannel\nhop response 200\nend ok\ntrailer a ",
        "b",
        8193,
        "",
        Some((5, Malformed)),
    ),
];

#[test]
fn lines_and_words_have_limits(rt: HostRuntime) {
    all_right(&rt, rt.alloc(), LINES_AND_WORDS);
}

const LISTENERS: &[Repeated] = &[
    (
        RESPONSE,
        FILL,
        30,
        "fill 00 67840\nend ok\nlistener pipe 4 1 1",
        None,
    ),
    (
        RESPONSE,
        FILL,
        30,
        "fill 00 67841\nend ok\nlistener pipe 4 1 1",
        Some((36, Limit)),
    ),
    (
        RESPONSE,
        FILL,
        129,
        "end ok\nlistener pipe 65536 1 8",
        Some((134, Limit)),
    ),
    (
        RESPONSE,
        FILL,
        128,
        "end ok\nlistener pipe 65536 1 8\n\
            channel\nhop response 200\npiece a\nend ok\nlistener pipe 4 1 1",
        Some((138, Limit)),
    ),
];

#[test]
fn listeners_have_limits(rt: HostRuntime) {
    all_right(&rt, rt.alloc(), LISTENERS);
}

const BODY: &[Repeated] = &[(RESPONSE, FILL, 513, "", Some((516, Limit)))];

#[test]
fn a_body_has_a_limit(rt: HostRuntime) {
    all_right(&rt, rt.alloc(), BODY);
}

const NEXT: &str = "end ok\nchannel\nhop response 200\n";

// The bodies of two channels, each of half of what all may have, are refused at the next piece.
const BODIES: &[Long] = &[(
    &[
        (RESPONSE, 1),
        (FILL, 256),
        (NEXT, 1),
        (FILL, 256),
        ("piece a\nend ok", 1),
    ],
    Some((519, Limit)),
)];

#[test]
fn the_bodies_of_all_channels_have_a_limit(rt: HostRuntime) {
    all_right(&rt, rt.alloc(), BODIES);
}

// The pieces of four channels, of 65,536 each, are refused at the next one.
const PIECES: &[Long] = &[(
    &[
        (RESPONSE, 1),
        (PIECE, 65_536),
        (NEXT, 1),
        (PIECE, 65_536),
        (NEXT, 1),
        (PIECE, 65_536),
        (NEXT, 1),
        (PIECE, 65_536),
        (NEXT, 1),
        (PIECE, 1),
        ("end ok", 1),
    ],
    Some((262_160, Limit)),
)];

#[test]
fn the_pieces_of_all_channels_have_a_limit(rt: HostRuntime) {
    all_right(&rt, rt.alloc(), PIECES);
}
