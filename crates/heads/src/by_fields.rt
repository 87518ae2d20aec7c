// Reading a head by its fields: too few bytes, or what the fields say. Written once for the heads whose fields stand in
// the same bits of so many bytes.
ghost use Rattle.std.specs.Prelude.{◌≡◌, ℕ, List, ◌≤◌, length};
ghost use Rattle.heads.specs.Judge.{verdict_of, is_read, head_by_fields};
ghost use Rattle.heads.specs.declared.info.Head.{Head};

use crate::info::{Head, Refusal};

// The fields of a head: how many bytes they are taken from, whether they are accepted, and what they say.
pub trait HeadFields: Copy {
    ghost SIZE: { ℕ };

    // The fields of the bytes, that each fits its width, and the judgement of them.
    ghost fields_of: { List ℕ → Self };

    ghost Fit: { Self → Type 0 };

    ghost judged: { Self → Head };

    const SIZE: usize;

    fn of(b: &[u8]) -> Self
        requires { SIZE ≤ length b.now }
        ensures fields { result ≡ fields_of b.now }
        ensures widths { Fit result };

    fn verdict(self) -> Result<(), Refusal>
        ensures { result ≡ verdict_of (judged self) };

    // What the fields say, each of which fits its width.
    fn judge(self) -> Head
        requires { Fit self }
        ensures { result ≡ judged self };
}

// The head at the front of b.
pub fn parse<F: HeadFields>(b: &[u8]) -> Head
    ensures { result ≡ head_by_fields F.SIZE F.fields_of F.judged b.now }
{
    if b.len() < F::SIZE {
        return Head::Refused(Refusal::ShortHead);
    }
    F::of(b).judge()
}

// Whether the head reads: the tests alone, without what the fields say.
pub fn reads<F: HeadFields>(b: &[u8]) -> bool
    ensures { result ≡ is_read (head_by_fields F.SIZE F.fields_of F.judged b.now) }
{
    if b.len() < F::SIZE {
        return false;
    }
    F::of(b).verdict().is_ok()
}
