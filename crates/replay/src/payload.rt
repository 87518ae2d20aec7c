// The bytes that a line gives: words of hexadecimal digits, two for each byte, each with a space before it. A word may
// end with a count, as `00FF*3`, by which its bytes are repeated.
ghost use Rattle.std.specs.Prelude.{◌≤◌, IfSome};
ghost use Rattle.replay.specs.declared.payload.TheConstants.{PAYLOAD_MAX};

use text::{Parsed, octet_at, parse_number};

// The most bytes that a line may give: some more than the splitter takes in one payload.
pub const PAYLOAD_MAX: usize = 65600;

#[derive(Drop)]
pub struct Payload {
    bytes: [u8; PAYLOAD_MAX],
    len: usize,
    ghost within: { len ≤ PAYLOAD_MAX },
}

impl Payload {
    pub fn new() -> Self {
        Payload {
            bytes: [0; PAYLOAD_MAX],
            len: 0,
        }
    }

    pub fn bytes(&self) -> &[u8] {
        &self.bytes[..self.len]
    }

    // `None` where there are as many already.
    fn push(&mut self, byte: u8, most: usize) -> Option<()>
        requires limit { most ≤ PAYLOAD_MAX }
        requires len { self.old.len ≤ most }
        ensures { self.new.len ≤ most }
    {
        if self.len == most {
            return None;
        }
        self.bytes[self.len] = byte;
        self.len += 1;
        Some(())
    }

    // The last bytes, so many, once more. `None` where they would be too many.
    fn repeat_last(&mut self, count: usize, most: usize) -> Option<()>
        requires limit { most ≤ PAYLOAD_MAX }
        requires len { self.old.len ≤ most }
        ensures { self.new.len ≤ most }
    {
        if count > most - self.len {
            return None;
        }
        let from = self.len.saturating_sub(count);
        self.bytes.copy_within(from..self.len, self.len);
        self.len += count;
        Some(())
    }
}

/// Reads the rest of a line. `None` where it is malformed, or gives too many bytes.
pub fn read_bytes(text: &[u8], payload: &mut Payload, most: usize) -> Option<()>
    requires { most ≤ PAYLOAD_MAX }
    ensures { IfSome result (λ read. payload.new.len ≤ most) }
{
    payload.len = 0;
    let mut words = text.split(|byte| *byte == b' ');
    // Before the first space there is nothing.
    if !words.next()?.is_empty() {
        return None;
    }
    for word in words {
        join_word(word, payload, most)?;
    }
    Some(())
}

// Joins a word's bytes to those before them, as often as it says: once, where it has no count.
fn join_word(word: &[u8], payload: &mut Payload, most: usize) -> Option<()>
    requires limit { most ≤ PAYLOAD_MAX }
    requires len { payload.old.len ≤ most }
    ensures { payload.new.len ≤ most }
{
    let mut parts = word.splitn(2, |byte| *byte == b'*');
    let digits = parts.next()?;
    let times = match parts.next() {
        Some(count) => whole_number(count)?,
        None => 1,
    };
    if digits.is_empty() {
        return None;
    }
    if times == 0 {
        return all_octets(digits);
    }
    for pair in digits.chunks(2) {
        payload.push(octet_at(pair, 0)?, most)?;
    }
    // What is there so far is copied behind itself, so that a word of few bytes takes few copies.
    let size = digits.len() / 2;
    let mut copies = 1;
    while copies < times {
        let more = copies.min(times - copies);
        payload.repeat_last(size.saturating_mul(more as usize), most)?;
        copies += more;
    }
    Some(())
}

// Whether they are pairs of digits. A word that gives no byte may have any number of them.
fn all_octets(digits: &[u8]) -> Option<()> {
    for pair in digits.chunks(2) {
        octet_at(pair, 0)?;
    }
    Some(())
}

fn whole_number(text: &[u8]) -> Option<u64> {
    let Parsed { value, next } = parse_number(text, 0, u64::MAX)?;
    if next == text.len() {
        Some(value)
    } else {
        None
    }
}
