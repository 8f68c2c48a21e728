// Rests of frames that are read or refused, by the decoder of each lane and by the one of all.

use crate::rows::{Row, all_right, bytes};
use crate::wire::{Lane, refusal};
use nk_wire::DecodeError::{self, BadField, Kind, Long, Short};
use std::alloc::Global;

/// A rest, who reads it, and why it is refused; `None` where it is read.
type Rest = (Lane, &'static str, Option<DecodeError>);

// Whether the rest is answered so. What a lane's decoder answers to its own kinds, the one of all lanes answers too.
fn is_answer(alloc: Global, lane: Lane, rest: &[u8], error: Option<DecodeError>) -> bool {
    let is_own = !matches!(error, Some(Kind(_)));
    let by_all = refusal(alloc, Lane::Any, rest);
    refusal(alloc, lane, rest) == error && (by_all == error || !is_own)
}

impl Row for Rest {
    fn is_right(&self, alloc: Global) -> bool {
        match bytes(alloc, self.1) {
            Some(rest) => is_answer(alloc, self.0, &rest, self.2),
            None => false,
        }
    }
}

const KINDS: &[Rest] = &[
    (Lane::Main, "04 03000000", None),
    (Lane::Back, "11 03000000", None),
    (Lane::Up, "26 05000000", None),
    (Lane::Main, "f213", Some(Kind(0xf2))),
    (Lane::Up, "f213", Some(Kind(0xf2))),
    (Lane::Up, "13", Some(Kind(0x13))),
    (Lane::Back, "f2", Some(Short { have: 1, need: 2 })),
    (Lane::Any, "", Some(Short { have: 0, need: 1 })),
    (Lane::Main, "", Some(Short { have: 0, need: 1 })),
    (Lane::Back, "", Some(Short { have: 0, need: 1 })),
    (Lane::Up, "", Some(Short { have: 0, need: 1 })),
    (Lane::Any, "f2", Some(Short { have: 1, need: 2 })),
    (Lane::Any, "f213", Some(Short { have: 2, need: 6 })),
    (Lane::Main, "f2", Some(Kind(0xf2))),
    (Lane::Up, "f2", Some(Kind(0xf2))),
    (Lane::Back, "f212", Some(Kind(0x12))),
    (Lane::Any, "f212", Some(Kind(0x12))),
    (Lane::Back, "f214", Some(Kind(0x14))),
    (Lane::Any, "f2f2", Some(Kind(0xf2))),
    (Lane::Main, "00", Some(Kind(0))),
    (Lane::Main, "05", Some(Kind(0x05))),
    (Lane::Main, "11 03000000", Some(Kind(0x11))),
    (Lane::Main, "14", Some(Kind(0x14))),
    (Lane::Main, "21", Some(Kind(0x21))),
    (Lane::Back, "01", Some(Kind(0x01))),
    (Lane::Back, "04 03000000", Some(Kind(0x04))),
    (Lane::Back, "10", Some(Kind(0x10))),
    (Lane::Back, "15", Some(Kind(0x15))),
    (Lane::Back, "27", Some(Kind(0x27))),
    (Lane::Up, "02", Some(Kind(0x02))),
    (Lane::Up, "14", Some(Kind(0x14))),
    (Lane::Up, "20", Some(Kind(0x20))),
    (Lane::Up, "28", Some(Kind(0x28))),
    (Lane::Any, "00", Some(Kind(0))),
    (Lane::Any, "05", Some(Kind(0x05))),
    (Lane::Any, "15", Some(Kind(0x15))),
    (Lane::Any, "28", Some(Kind(0x28))),
    (Lane::Any, "99", Some(Kind(0x99))),
    (Lane::Any, "ff", Some(Kind(0xff))),
];

#[test]
fn each_lane_has_its_kinds(rt: HostRuntime) {
    all_right(&rt, rt.alloc(), KINDS);
}

const RANGES: &[Rest] = &[
    // Hops are below 32.
    (Lane::Main, "04 20000000", Some(BadField(1))),
    (Lane::Main, "04 1f000000", None),
    (Lane::Main, "04 00000080", Some(BadField(1))),
    (Lane::Main, "01 20000000", Some(BadField(1))),
    (Lane::Main, "02 20000000", Some(BadField(1))),
    (Lane::Main, "03 20000000", Some(BadField(1))),
    (Lane::Back, "11 20000000", Some(BadField(1))),
    (Lane::Back, "11 1f000000", None),
    (Lane::Back, "12 ffffffff", Some(BadField(1))),
    (Lane::Back, "13 20000000", Some(BadField(1))),
    (Lane::Back, "14 00010000", Some(BadField(1))),
    (Lane::Back, "f213 20000000", Some(BadField(2))),
    (Lane::Up, "25 20000000", Some(BadField(1))),
    // A status is 0 or a failure; some are failures alone, and some 0 alone.
    (Lane::Back, "f213 00000000 02004b80 0100", Some(BadField(6))),
    (Lane::Back, "f213 00000000 00000080", Some(BadField(6))),
    (Lane::Back, "f213 00000000 01000000", Some(BadField(6))),
    (Lane::Main, "01 00000000 01000000", Some(BadField(5))),
    (Lane::Main, "01 00000000 ffffff7f", Some(BadField(5))),
    (Lane::Main, "02 00000000 00000000", Some(BadField(5))),
    (Lane::Main, "02 00000000 ffffff7f", Some(BadField(5))),
    (Lane::Main, "02 00000000 00000080", None),
    (Lane::Main, "02 00000000 ffffffff", None),
    (Lane::Back, "12 00000000 01000000", Some(BadField(5))),
    (Lane::Back, "13 00000000 01000000", Some(BadField(5))),
    (Lane::Back, "13 00000000 ffffff7f", Some(BadField(5))),
    (Lane::Back, "13 00000000 00000080", None),
    (
        Lane::Back,
        "14 00000000 04004080",
        Some(Short { have: 9, need: 11 }),
    ),
    (Lane::Back, "14 00000000 02004b00", Some(BadField(5))),
    (Lane::Up, "24 00000000", Some(BadField(1))),
    (Lane::Up, "24 ffffff7f", Some(BadField(1))),
    (Lane::Up, "24 00000080", None),
    (Lane::Up, "25 00000000 01000000", Some(BadField(5))),
    (Lane::Up, "25 00000000 00000080", None),
    // Codes, and how many there are of something.
    (
        Lane::Back,
        "f213 00000000 00000000 0000",
        Some(BadField(10)),
    ),
    (
        Lane::Back,
        "f213 00000000 00000000 4100",
        Some(BadField(10)),
    ),
    (
        Lane::Back,
        "f213 00000000 00000000 4000",
        Some(Short { have: 12, need: 14 }),
    ),
    (
        Lane::Main,
        "01 00000000 00000000 6300 0000",
        Some(BadField(9)),
    ),
    (Lane::Main, "01 00000000 00000000 6400 0000", None),
    (Lane::Main, "01 00000000 00000000 e703 0000", None),
    (
        Lane::Main,
        "01 00000000 00000000 e803 0000",
        Some(BadField(9)),
    ),
    (
        Lane::Main,
        "01 00000000 00000000 c800 4100",
        Some(BadField(11)),
    ),
    (
        Lane::Main,
        "01 00000000 00000000 c800 4000",
        Some(Short { have: 13, need: 15 }),
    ),
    (
        Lane::Back,
        "14 00000000 00000000 6300 0000",
        Some(BadField(9)),
    ),
    (Lane::Back, "14 00000000 00000000 6400 0000", None),
    (
        Lane::Back,
        "14 00000000 00000000 c800 4100",
        Some(BadField(11)),
    ),
    (Lane::Main, "03 00000000 2b01", Some(BadField(5))),
    (Lane::Main, "03 00000000 2c01", None),
    (Lane::Main, "03 00000000 8f01", None),
    (Lane::Main, "03 00000000 9001", Some(BadField(5))),
    (
        Lane::Back,
        "12 00000000 00000000 0000000000000000 00000000",
        Some(BadField(17)),
    ),
    (
        Lane::Back,
        "12 00000000 00000000 0000000000000000 01000200",
        Some(BadField(17)),
    ),
    (
        Lane::Back,
        "12 00000000 00000000 0000000000000000 00000200",
        Some(Short {
            have: 21,
            need: 131_093,
        }),
    ),
    (
        Lane::Back,
        "12 00000000 00000000 ffffffffffffffff 01000000 61",
        None,
    ),
    (Lane::Up, "26 00000000", Some(BadField(1))),
    (Lane::Up, "26 01000000", None),
    (Lane::Up, "26 00000200", None),
    (Lane::Up, "26 01000200", Some(BadField(1))),
    (Lane::Up, "26 00000080", Some(BadField(1))),
    (Lane::Up, "26 000002", Some(Short { have: 4, need: 5 })),
    // Names and values.
    (
        Lane::Main,
        "01 00000000 00000000 c800 0100 0000",
        Some(BadField(13)),
    ),
    (
        Lane::Main,
        "01 00000000 00000000 c800 0100 4100",
        Some(BadField(13)),
    ),
    (
        Lane::Main,
        "01 00000000 00000000 c800 0100 4000",
        Some(Short { have: 15, need: 79 }),
    ),
    (
        Lane::Main,
        "01 00000000 00000000 c800 0100 0100 41",
        Some(BadField(15)),
    ),
    (
        Lane::Main,
        "01 00000000 00000000 c800 0100 0100 20",
        Some(BadField(15)),
    ),
    (
        Lane::Main,
        "01 00000000 00000000 c800 0100 0100 ff",
        Some(BadField(15)),
    ),
    (
        Lane::Main,
        "01 00000000 00000000 c800 0100 0100 78 0000",
        Some(BadField(16)),
    ),
    (
        Lane::Main,
        "01 00000000 00000000 c800 0100 0100 78 0120",
        Some(BadField(16)),
    ),
    (
        Lane::Main,
        "01 00000000 00000000 c800 0100 0100 78 0020",
        Some(Short {
            have: 18,
            need: 8210,
        }),
    ),
    (
        Lane::Main,
        "01 00000000 00000000 c800 0100 0100 78 0100 20",
        Some(BadField(18)),
    ),
    (
        Lane::Main,
        "01 00000000 00000000 c800 0100 0100 78 0200 7920",
        Some(BadField(18)),
    ),
    (
        Lane::Main,
        "01 00000000 00000000 c800 0100 0100 78 0100 0a",
        Some(BadField(18)),
    ),
    (
        Lane::Main,
        "01 00000000 00000000 c800 0100 0100 78 0100 7f",
        Some(BadField(18)),
    ),
    (
        Lane::Main,
        "01 00000000 00000000 c800 0100 0100 78 0100 7e",
        None,
    ),
    (
        Lane::Back,
        "14 00000000 00000000 c800 0200 0100 78 0100 79 0000",
        Some(BadField(19)),
    ),
    (
        Lane::Back,
        "f213 00000000 00000000 0100 0000",
        Some(BadField(12)),
    ),
    (
        Lane::Back,
        "f213 00000000 00000000 0100 0100 41",
        Some(BadField(14)),
    ),
    (
        Lane::Back,
        "f213 00000000 00000000 0100 0100 78 0000",
        Some(BadField(15)),
    ),
    (
        Lane::Back,
        "f213 00000000 00000000 0100 0100 78 0100 20",
        Some(BadField(17)),
    ),
];

#[test]
fn fields_are_in_their_ranges(rt: HostRuntime) {
    all_right(&rt, rt.alloc(), RANGES);
}

const FAULTS: &[Rest] = &[
    // Bytes behind the fields.
    (
        Lane::Main,
        "01 00000000 00000000 c800 0000 00",
        Some(Long { extra: 1 }),
    ),
    (
        Lane::Main,
        "02 00000000 02004b80 0000",
        Some(Long { extra: 2 }),
    ),
    (Lane::Main, "03 00000000 2e01 ff", Some(Long { extra: 1 })),
    (
        Lane::Main,
        "04 03000000 04 03000000",
        Some(Long { extra: 5 }),
    ),
    (Lane::Back, "11 00000000 61", Some(Long { extra: 1 })),
    (
        Lane::Back,
        "12 00000000 00000000 0000000000000000 01000000 6162",
        Some(Long { extra: 1 }),
    ),
    (
        Lane::Back,
        "13 00000000 00000000 ff",
        Some(Long { extra: 1 }),
    ),
    (
        Lane::Back,
        "14 00000000 00000000 c800 0000 000000",
        Some(Long { extra: 3 }),
    ),
    (
        Lane::Back,
        "f213 00000000 00000000 0100 0100 78 0100 79 00",
        Some(Long { extra: 1 }),
    ),
    (Lane::Up, "21 21", Some(Long { extra: 1 })),
    (Lane::Up, "24 02004b80 00", Some(Long { extra: 1 })),
    (Lane::Up, "27 00000000", Some(Long { extra: 4 })),
    // Two faults.
    (Lane::Main, "02 20000000 0000", Some(BadField(1))),
    (Lane::Main, "02 200000", Some(Short { have: 4, need: 5 })),
    (Lane::Main, "03 00000000 2b01 ff", Some(BadField(5))),
    (
        Lane::Main,
        "01 00000000 00000000 6300 41",
        Some(BadField(9)),
    ),
    (
        Lane::Main,
        "01 00000000 01000000 6300 4100",
        Some(BadField(5)),
    ),
    (Lane::Back, "13 00000000 01000000 ff", Some(BadField(5))),
    (Lane::Back, "f213 20000000 01000000 0000", Some(BadField(2))),
    (Lane::Up, "25 20000000 01", Some(BadField(1))),
];

#[test]
fn the_first_fault_from_the_left_is_named(rt: HostRuntime) {
    all_right(&rt, rt.alloc(), FAULTS);
}
