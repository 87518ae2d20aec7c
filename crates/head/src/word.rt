// The words of a line: numbers, and bytes.
ghost use Rattle.std.specs.Iterator.{IsFinite};

use arrayvec::ArrayVec;
use text::{Parsed, octet_at, parse_number, parse_short};

// The most digits of a number of 32 bits.
const DIGITS_MAX: usize = 10;

/// A number of 32 bits, of one to ten digits.
pub fn parse_digits(word: &[u8]) -> Option<u32> {
    if word.len() > DIGITS_MAX {
        return None;
    }
    whole(word, parse_short(word, 0)?)
}

/// A number of 64 bits, of any number of digits.
pub fn parse_place(word: &[u8]) -> Option<usize> {
    let place = whole(word, parse_number(word, 0, u64::MAX)?)?;
    Some(place as usize)
}

/// A byte, of two hexadecimal digits.
pub fn parse_octet(word: &[u8]) -> Option<u8> {
    if word.len() != 2 {
        return None;
    }
    octet_at(word, 0)
}

// What was read at the front of a word, if nothing stands behind it.
fn whole<T: Drop>(word: &[u8], parsed: Parsed<T>) -> Option<T> {
    let Parsed { value, next } = parsed;
    if next < word.len() {
        return None;
    }
    Some(value)
}

/// Lists all that was read, if each was and they are at most `N`, in place of what was listed before.
pub fn list<I, T, const N: usize>(read: I, list: &mut ArrayVec<T, N>) -> Option<()>
where
    I: Iterator<Item = Option<T>> + Drop,
    T: Default + Drop,
    requires can { I.can_next read }
    requires ends { IsFinite (I.remaining read) }
{
    list.clear();
    for value in read {
        list.try_push(value?).ok()?;
    }
    Some(())
}
