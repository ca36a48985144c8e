// The parts of a message, each of which is drafted by itself.
ghost use Rattle.std.specs.Prelude.{ℕ, List, Option};
ghost use Rattle.numbers.specs.Drafts.{Adds};
ghost use Rattle.encode.specs.Sending.{octets_if};

use numbers::draft::Draft;

pub(crate) trait Part {
    // The octets that it is drafted as.
    ghost octets: { Self → List ℕ };

    fn draft(&self, draft: &mut Draft)
        ensures { Adds draft.old draft.new (octets self.now) };
}

// A part that is absent has no octets.
impl<P: Part> Part for Option<P> {
    ghost octets = { octets_if P.octets };

    fn draft(&self, draft: &mut Draft) {
        if let Some(part) = self {
            part.draft(draft);
        }
    }
}
