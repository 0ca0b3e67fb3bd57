//! Lines of numbers.

use crate::reason::Reason;
use crate::shown::Shown;
use arrayvec::ArrayVec;
use quandle_core::MAX_LARGE_ORDER;
use text_lines::{Line, MAX_DIGITS};

/// The numbers that are left of a line.
#[derive(Drop)]
pub(crate) struct Numbers<'a> {
    /// The first `MAX_LARGE_ORDER` of them.
    pub(crate) first: ArrayVec<u32, MAX_LARGE_ORDER>,
    /// How many there are.
    pub(crate) count: usize,
    /// The first that has too many digits, which counts as a great one.
    pub(crate) long: Option<Shown<'a>>,
}

impl<'a> Numbers<'a> {
    /// The numbers that are left of a line, or why some token is none or has too many digits.
    pub(crate) fn of(line: &mut Line<'a>) -> Result<Numbers<'a>, Reason<'a>> {
        let numbers = Numbers::of_any_length(line)?;
        let long = numbers.long;
        match long {
            Some(token) => Err(Reason::Digits { token }),
            None => Ok(numbers),
        }
    }

    /// The numbers that are left of a line, or why some token is none.
    pub(crate) fn of_any_length(line: &mut Line<'a>) -> Result<Numbers<'a>, Reason<'a>> {
        let mut numbers = Numbers {
            first: ArrayVec::new(),
            count: 0,
            long: None,
        };
        for _token in 0..u64::MAX {
            let Some(token) = line.next_token() else {
                break;
            };
            let value = number_of(token)?;
            numbers.take(token, value);
        }
        Ok(numbers)
    }

    /// Takes the number of one token more, and keeps it if there is room.
    fn take(&mut self, token: &'a [u8], value: u32) {
        if token.len() > MAX_DIGITS && self.long.is_none() {
            self.long = Some(Shown(token));
        }
        self.count = self.count.saturating_add(1);
        if !self.first.is_full() {
            self.first.push(value);
        }
    }

    /// The first number that is not below a bound.
    pub(crate) fn outside(&self, bound: usize) -> Option<u32> {
        self.first
            .as_slice()
            .iter()
            .copied()
            .find(|value| *value as usize >= bound)
    }

    /// The first place whose number is at an earlier place too, and that place.
    pub(crate) fn repeated(&self) -> Option<(usize, usize)> {
        let values = self.first.as_slice();
        for second in 0..values.len() {
            let (front, _) = values.split_at(second);
            if let Some(first) = place_of(front, values[second]) {
                return Some((first, second));
            }
        }
        None
    }
}

/// The number that a token is, or why it is none.
pub(crate) fn number_of<'a>(token: &'a [u8]) -> Result<u32, Reason<'a>> {
    match text_lines::number(token) {
        Some(value) => Ok(value),
        None => Err(Reason::NoNumber {
            token: Shown(token),
        }),
    }
}

/// Where a value first occurs.
fn place_of(values: &[u32], value: u32) -> Option<usize> {
    values.iter().position(|other| *other == value)
}
