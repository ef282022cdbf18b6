//! The sizes of a report, added up.

/// The state after some bytes of a report: whether the next byte is in a quoted label, the number in the current
/// field, and the sum over the lines before.
#[derive(Clone, Copy)]
struct State {
    is_quoted: bool,
    number: u64,
    sum: u64,
}

// The state after a byte. The digits of a label make a number too, which is dropped at the end of the label.
fn after(state: State, byte: u8) -> State {
    match byte {
        b'"' => State {
            is_quoted: !state.is_quoted,
            ..state
        },
        _ if state.is_quoted => state,
        b',' => State { number: 0, ..state },
        b'\n' => State {
            number: 0,
            sum: state.sum.wrapping_add(state.number),
            ..state
        },
        b'0'..=b'9' => {
            let digit = u64::from(byte.wrapping_sub(b'0'));
            let number = state.number.wrapping_mul(10).wrapping_add(digit);
            State { number, ..state }
        }
        _ => state,
    }
}

/// The sum of the last column of a report of comma-separated values, whose titles have no digit.
pub fn sum_of_last(report: &[u8]) -> u64 {
    let mut state = State {
        is_quoted: false,
        number: 0,
        sum: 0,
    };
    for byte in report {
        state = after(state, *byte);
    }
    state.sum
}
