//! Values that are numbers: which are accepted, and how they compare.

ghost use Rattle.std.specs.Prelude.{◌≡◌};
ghost use Rattle.attr_keys.specs.Value.{limit, with_digit, first_digit, next_number, is_whole, bad_integer, integer_of, whole_value};

/// Where the reading of an integer stands.
#[derive(Clone, Copy, Debug, Drop, Eq, PartialEq)]
pub(crate) enum NumberState {
    Start,
    /// After the sign.
    Minus,
    /// After a 0, which stands alone.
    Zero,
    /// After digits: the number that they spell, without its sign.
    Digits { negative: bool, value: u64 },
}

fn limit(negative: bool) -> u64
    ensures { result ≡ limit negative }
{
    if negative { 1 << 63 } else { (1 << 63) - 1 }
}

fn with_digit(negative: bool, value: u64, b: u8) -> Option<NumberState>
    ensures { result ≡ with_digit negative value b }
{
    if b < b'0' || b > b'9' {
        return None;
    }
    let wide = value as u128 * 10 + (b - b'0') as u128;
    if wide <= limit(negative) as u128 {
        Some(NumberState::Digits {
            negative,
            value: wide as u64,
        })
    } else {
        None
    }
}

fn first_digit(negative: bool, b: u8) -> Option<NumberState>
    ensures { result ≡ first_digit negative b }
{
    match b {
        b'1'..=b'9' => Some(NumberState::Digits {
            negative,
            value: (b - b'0') as u64,
        }),
        _ => None,
    }
}

fn next_number(state: NumberState, b: u8) -> Option<NumberState>
    ensures { result ≡ next_number state b }
{
    match state {
        NumberState::Start => match b {
            b'-' => Some(NumberState::Minus),
            b'0' => Some(NumberState::Zero),
            _ => first_digit(false, b),
        },
        NumberState::Minus => first_digit(true, b),
        NumberState::Zero => None,
        NumberState::Digits { negative, value } => with_digit(negative, value, b),
    }
}

fn is_whole(state: NumberState) -> bool
    ensures { result ≡ is_whole state }
{
    match state {
        NumberState::Zero | NumberState::Digits { .. } => true,
        _ => false,
    }
}

/// The first byte that no integer of 64 bits with sign has there, or the length if it ends too early.
pub(crate) fn bad_integer(text: &[u8]) -> Option<usize>
    ensures { result ≡ bad_integer text.now }
{
    let mut state = NumberState::Start;
    for (at, b) in text.iter().enumerate() {
        let Some(next) = next_number(state, *b) else {
            return Some(at);
        };
        state = next;
    }
    if is_whole(state) {
        None
    } else {
        Some(text.len())
    }
}

fn whole_value(state: NumberState) -> Option<i128>
    ensures { result ≡ whole_value state }
{
    match state {
        NumberState::Zero => Some(0),
        NumberState::Digits { negative, value } => {
            if negative {
                Some(0 - value as i128)
            } else {
                Some(value as i128)
            }
        }
        _ => None,
    }
}

/// The integer that the text spells, if it is one.
pub(crate) fn integer_of(text: &[u8]) -> Option<i128>
    ensures { result ≡ integer_of text.now }
{
    let mut state = NumberState::Start;
    for b in text {
        let Some(next) = next_number(state, *b) else {
            return None;
        };
        state = next;
    }
    whole_value(state)
}
