// A draft of octets that are to be written once all of them are known.
ghost use Rattle.std.specs.Prelude.{◌≡◌, ◌≤◌, length};

pub mod drafting;

// The first len octets are drafted. No message has more than 50.
// An array and a length, since an `ArrayVec` is not `Copy`, and who copies drafts may go on doing so.
#[derive(Clone, Copy)]
pub struct Draft {
    octets: [u8; 64],
    len: usize,
    ghost whole: { length octets ≡ 64 },
    ghost within: { len ≤ 64 },
}
