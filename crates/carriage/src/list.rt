// The carrier that keeps its envelopes in slots of one kind, on a waiting list.
ghost use Rattle.std.specs.Prelude.{◌≡◌, min, [], length};

use super::carrier::Carrier;
use super::question::{Between, OfCall};
use super::slot::Slot;
use isup::message::Envelope;
use numbers::refusal::Refusal;
use std::marker::Model;
use waiting::WaitingList;

// As many envelopes as may wait on a carrier at most, however much memory is handed.
pub const MOST: usize = 4096;

#[derive(Drop)]
pub struct ListCarrier<'a, S: Slot> {
    list: WaitingList<'a, S>,
}

// A carrier is seen as its capacity and the envelopes that its slots keep.
impl<'a, S: Slot> Model for ListCarrier<'a, S> {
    ghost use Rattle.isup.specs.declared.message.Envelope.{Envelope};
    ghost use Rattle.numbers.specs.declared.number.Number.{Number};
    ghost use Rattle.waiting.specs.Items.{Waiting};
    ghost use Rattle.carriage.specs.Carried.{unpacked};

    ghost Value = { Waiting (Envelope Number) };

    ghost view = { λ c. unpacked S.Slot.kept c.list };
}

impl<'a, S: Slot> ListCarrier<'a, S> {
    // An empty carrier: it has room for what is handed, at most 4,096 envelopes.
    // The clause gives the number and not the constant, so that a change of the constant breaks it.
    pub fn new(slots: &'a mut [S]) -> ListCarrier<'a, S>
        ensures empty { result.items ≡ [] }
        ensures room { result.places ≡ min 4096 (length slots.old) }
    {
        ListCarrier {
            list: WaitingList::new(slots, MOST),
        }
    }
}

impl<'a, S: Slot> Carrier for ListCarrier<'a, S> {
    ghost waiting = { λ c. c };

    fn put(&mut self, e: Envelope) -> Result<(), Refusal> {
        self.list.put(S::of(&e)).map_err(|_| Refusal::Full)
    }

    fn look(&self, ends: Between) -> Option<Envelope> {
        self.list.first(&ends).map(|slot| slot.envelope())
    }

    fn take(&mut self, ends: Between) -> Option<Envelope> {
        self.list.take_first(&ends).map(|slot| slot.envelope())
    }

    fn free(&self) -> usize {
        self.list.free()
    }

    fn waiting_for(&self, call: u8) -> usize {
        self.list.count(&OfCall { call })
    }
}
