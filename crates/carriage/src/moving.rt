// Moving from one carrier to another, of whatever kinds the two are.
ghost use Rattle.std.specs.Prelude.{◌≡◌};
ghost use Rattle.waiting.specs.Items.{earliest};
ghost use Rattle.carriage.specs.Carried.{between};
ghost use Rattle.carriage.specs.Moved.{left_behind, moved_onto, move_answer};

use super::carrier::Carrier;
use super::question::Between;
use numbers::refusal::Refusal;

// Moves what waits from one exchange to another onto a second carrier, in its order, while that has room.
// Refused where some are left for want of room.
pub fn move_all<S: Carrier, T: Carrier>(
    source: &mut S,
    target: &mut T,
    ends: Between,
) -> Result<(), Refusal>
    ensures answer { result ≡ move_answer (earliest (between ends) (S.Carrier.waiting source.new).items) }
    ensures left { S.Carrier.waiting source.new ≡ left_behind (between ends) (S.Carrier.waiting source.old) (T.Carrier.waiting target.old) }
    ensures moved { T.Carrier.waiting target.new ≡ moved_onto (between ends) (S.Carrier.waiting source.old) (T.Carrier.waiting target.old) }
{
    for _moved in 0..target.free() {
        let Some(e) = source.take(ends) else {
            return Ok(());
        };
        target.put(e)?;
    }
    match source.look(ends) {
        Some(_) => Err(Refusal::Full),
        None => Ok(()),
    }
}
