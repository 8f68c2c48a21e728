// The send window of a channel: what credit is left, and whether a piece may be sent.

use crate::rows::none_wrong;
use nk_flow::Window;

/// A call of a window.
#[derive(Clone, Copy, Drop)]
enum Call {
    Look,
    Sent(u32),
    Read(u32),
}

/// Makes a call, and answers whether a piece may be sent and the credit; nothing where the call may not be made.
fn make(window: &mut Window, call: Call) -> Option<(bool, i64)> {
    match call {
        Call::Look => {}
        Call::Sent(n) => {
            if !window.may_send() || n > Window::MOST {
                return None;
            }
            window.sent(n);
        }
        Call::Read(n) => window.read(n),
    }
    Some((window.may_send(), window.credit()))
}

/// The number of the first call that answers otherwise than its row says.
fn first_wrong(size: u32, rows: &[(Call, Option<(bool, i64)>)]) -> Option<usize> {
    let mut window = Window::new(size);
    for (i, row) in rows.iter().enumerate() {
        if make(&mut window, row.0) != row.1 {
            return Some(i);
        }
    }
    None
}

#[test]
fn a_window_of_ten_bytes_fills_and_empties(rt: HostRuntime) {
    let rows = &[
        (Call::Look, Some((true, 10))),
        (Call::Sent(8), Some((true, 2))),
        (Call::Sent(8), Some((false, -6))),
        (Call::Sent(1), None),
        (Call::Read(7), Some((true, 1))),
        (Call::Read(131_072), Some((true, 10))),
    ];
    none_wrong(&rt, first_wrong(10, rows));
}

#[test]
fn the_least_window_lets_one_piece_go_at_a_time(rt: HostRuntime) {
    let rows = &[
        (Call::Sent(5), Some((false, -4))),
        (Call::Read(4), Some((false, 0))),
        (Call::Sent(5), None),
        (Call::Read(1), Some((true, 1))),
        (Call::Read(0), Some((true, 1))),
        (Call::Sent(0), Some((true, 1))),
        (Call::Sent(131_073), None),
        (Call::Sent(131_072), Some((false, -131_071))),
        (Call::Read(131_071), Some((false, 0))),
        (Call::Read(4_294_967_295), Some((true, 1))),
    ];
    none_wrong(&rt, first_wrong(1, rows));
}

#[test]
fn credit_stays_within_any_window(rt: HostRuntime) {
    let none = &[
        (Call::Look, Some((false, 0))),
        (Call::Sent(0), None),
        (Call::Read(5), Some((false, 0))),
    ];
    none_wrong(&rt, first_wrong(0, none));
    let most = &[
        (Call::Look, Some((true, 4_294_967_295))),
        (Call::Sent(131_072), Some((true, 4_294_836_223))),
        (Call::Read(131_071), Some((true, 4_294_967_294))),
        (Call::Read(4_294_967_295), Some((true, 4_294_967_295))),
    ];
    none_wrong(&rt, first_wrong(4_294_967_295, most));
}
