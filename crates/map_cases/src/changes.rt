// Generated changes of a map from numbers to numbers.

/// What a change does.
#[derive(Clone, Copy)]
pub enum Change {
    With { key: u64, value: u64 },
    Without { key: u64 },
}

impl Change {
    pub fn key(self) -> u64 {
        match self {
            Change::With { key, .. } => key,
            Change::Without { key } => key,
        }
    }
}

/// How keys are chosen.
#[derive(Clone, Copy)]
pub enum Pattern {
    /// Keys below the span, in any order; one change in three takes a key out.
    Mixed { span: u64 },
    /// Rising keys. Every other change takes out the key that was put in 500 changes before.
    Rising,
    /// Falling keys, taken out likewise.
    Falling,
}

/// Numbers by a linear congruential generator, the upper half of 64 bits each.
#[derive(Drop)]
pub struct Numbers {
    state: u64,
}

impl Numbers {
    pub fn new(seed: u64) -> Numbers {
        Numbers { state: seed }
    }

    pub fn draw(&mut self) -> u64 {
        self.state = self
            .state
            .wrapping_mul(6364136223846793005)
            .wrapping_add(1442695040888963407);
        self.state >> 32
    }
}

/// The change with this number, counted from 0.
pub fn change_at(pattern: Pattern, number: u64, numbers: &mut Numbers) -> Change {
    let value = numbers.draw();
    match pattern {
        Pattern::Mixed { span } => mixed(span, value, numbers),
        Pattern::Rising | Pattern::Falling => moving(pattern, number, value),
    }
}

fn mixed(span: u64, value: u64, numbers: &mut Numbers) -> Change {
    let key = numbers.draw().checked_rem(span).unwrap_or(0);
    if numbers.draw() % 3 == 0 {
        Change::Without { key }
    } else {
        Change::With { key, value }
    }
}

fn moving(pattern: Pattern, number: u64, value: u64) -> Change {
    if number % 2 == 0 {
        Change::With {
            key: key_at(pattern, number),
            value,
        }
    } else {
        Change::Without {
            key: key_at(pattern, number.wrapping_sub(501)),
        }
    }
}

fn key_at(pattern: Pattern, step: u64) -> u64 {
    match pattern {
        Pattern::Falling => u64::MAX - step,
        Pattern::Mixed { .. } | Pattern::Rising => step,
    }
}
