// Parts of a message that stand all or none.
ghost use Rattle.std.specs.Prelude.{◌≡◌};
ghost use Rattle.numbers.specs.declared.refusal.Refusal.TheVariants.{OutOfRange};
ghost use Rattle.isup.specs.Groups.{all_or_none};

use numbers::refusal::Refusal;

// Some of the parts of a group are there, and some are not.
#[derive(Clone, Copy, Debug, PartialEq, Eq)]
pub struct BrokenGroup;

// A part without its companions is out of range.
impl From<BrokenGroup> for Refusal {
    ghost from_gives = { λ _ refusal. refusal ≡ OutOfRange };

    fn from(_broken: BrokenGroup) -> Refusal {
        Refusal::OutOfRange
    }
}

// The three parts of a group, or none of them.
pub fn all_or_none<A: Copy, B: Copy, C: Copy>(
    first: Option<A>,
    second: Option<B>,
    third: Option<C>,
) -> Result<Option<(A, B, C)>, BrokenGroup>
    ensures { result ≡ all_or_none first second third }
{
    match (first, second, third) {
        (Some(a), Some(b), Some(c)) => Ok(Some((a, b, c))),
        (None, None, None) => Ok(None),
        _ => Err(BrokenGroup),
    }
}
