// A number of a case's line, and what it is in each type: 0 where it does not fit. A type without a sign takes no notice of the minus.

// How far the number is from 0, and whether a minus stands before it.
#[derive(Clone, Copy)]
pub struct Number {
    pub minus: bool,
    pub size: u64,
}

impl From<Number> for u8 {
    fn from(number: Number) -> u8 {
        u8::try_from(number.size).unwrap_or(0)
    }
}

impl From<Number> for u16 {
    fn from(number: Number) -> u16 {
        u16::try_from(number.size).unwrap_or(0)
    }
}

impl From<Number> for usize {
    fn from(number: Number) -> usize {
        number.size as usize
    }
}

impl From<Number> for i64 {
    fn from(number: Number) -> i64 {
        if number.minus {
            0i64.checked_sub_unsigned(number.size).unwrap_or(0)
        } else {
            i64::try_from(number.size).unwrap_or(0)
        }
    }
}

impl From<Number> for i32 {
    fn from(number: Number) -> i32 {
        i32::try_from(i64::from(number)).unwrap_or(0)
    }
}
