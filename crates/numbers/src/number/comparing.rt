// Comparing two numbers.
ghost use Rattle.std.specs.Cmp.Rules.{comparing};
ghost use Rattle.std.proofs.Common.{rules};
ghost use Rattle.numbers.specs.Comparing.{Compared, same_number};

use super::Number;

// True exactly where the two are the same number, which a derive would not state.
impl PartialEq for Number {
    ghost eq = { same_number };

    ghost laws = { Prim.search (comparing, rules) };

    fn eq(&self, other: &Number) -> bool
        ensures { Compared self.now other.now result }
    {
        self.digits() == other.digits()
    }
}

impl Eq for Number {
    ghost laws = { Prim.search (comparing, rules) };
}
