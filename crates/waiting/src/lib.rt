// A list of elements of one kind, kept in their order in lent memory.
#![tactic(auto)]

ghost use Rattle.std.specs.Prelude.{◌≡◌, ◌+◌, min, Bool, [], length, is_err, count_by};
ghost use Rattle.std.specs.List.{slice_get, remove};
ghost use Rattle.waiting.specs.Items.{holding, is_full, added, first_fit, earliest, without_earliest, others};

use std::marker::Model;

// The list is the front of the memory. What stands in the places behind it is open.
// The owner lends the memory, so the elements are counted in a slice and stand in no Vec.
#[derive(Drop)]
pub struct WaitingList<'a, T: Copy> {
    slots: &'a mut [T],
    held: usize,
}

impl<'a, T: Copy> Model for WaitingList<'a, T> {
    ghost use Rattle.std.specs.Prelude.{◌≤◌, length, take};
    ghost use Rattle.waiting.specs.Items.{Waiting};

    ghost Value = { Waiting T };

    ghost view = { λ w. record { places = length w.slots.now; items = take w.held w.slots.now } };

    ghost invariant = { λ w. w.held ≤ length w.slots.now };
}

// As many elements are held as there are places.
#[derive(Clone, Copy, Debug, PartialEq, Eq)]
pub struct Full;

// A question that each element fits or does not fit.
// No closure stands for it: a call of one asks a `requires` of the caller, and names no function by which it answers.
pub trait Question<T> {
    ghost fits: { Self → T → Bool };

    fn asks(&self, x: &T) -> bool
        ensures { result ≡ fits self.now x.now };
}

impl<'a, T: Copy> WaitingList<'a, T> {
    // An empty list in the first places of the memory, at most as many as the limit.
    pub fn new(slots: &'a mut [T], limit: usize) -> WaitingList<'a, T>
        ensures empty { result.items ≡ [] }
        ensures room { result.places ≡ min limit (length slots.old) }
    {
        let count = limit.min(slots.len());
        let (front, _) = slots.split_at_mut(count);
        WaitingList {
            slots: front,
            held: 0,
        }
    }

    // The elements, in their order.
    pub fn elements(&self) -> &[T]
        ensures { result.now ≡ self.now.items }
    {
        &self.slots[..self.held]
    }

    pub fn len(&self) -> usize
        ensures { result ≡ length self.now.items }
    {
        self.held
    }

    // How many elements there is room for in all.
    pub fn capacity(&self) -> usize
        ensures { result ≡ self.now.places }
    {
        self.slots.len()
    }

    // The free places: with the elements held they make up the capacity.
    pub fn free(&self) -> usize
        ensures { result + length self.now.items ≡ self.now.places }
    {
        self.slots.len() - self.held
    }

    // Adds an element at the end; refused exactly when the list is full.
    pub fn put(&mut self, x: T) -> Result<(), Full>
        ensures answer { is_err result ≡ is_full self.old.places self.old.items }
        ensures after { self.new ≡ holding self.old (added self.old.places self.old.items x) }
    {
        if self.held >= self.slots.len() {
            return Err(Full);
        }
        self.slots[self.held] = x;
        self.held += 1;
        Ok(())
    }

    // The element at a place, counted from 0.
    pub fn get(&self, i: usize) -> Option<T>
        ensures { result ≡ slice_get self.now.items i }
    {
        self.elements().get(i).copied()
    }

    // The place of the first element that fits a question.
    pub fn find<Q: Question<T>>(&self, question: &Q) -> Option<usize>
        ensures { result ≡ first_fit (Q.Question.fits question.now) self.now.items }
    {
        self.elements().iter().position(|x| question.asks(x))
    }

    // How many elements fit a question.
    pub fn count<Q: Question<T>>(&self, question: &Q) -> usize
        ensures { result ≡ count_by (Q.Question.fits question.now) self.now.items }
    {
        // A fold, since the count of a filter takes twice the time.
        self.elements()
            .iter()
            .fold(0, |n, x| if question.asks(x) { n + 1 } else { n })
    }

    // Takes the element at a place out; the others keep their order.
    pub fn take(&mut self, i: usize) -> Option<T>
        ensures answer { result ≡ slice_get self.old.items i }
        ensures after { self.new ≡ holding self.old (remove self.old.items i) }
    {
        let taken = self.get(i)?;
        self.slots.copy_within(i + 1..self.held, i);
        self.held -= 1;
        Some(taken)
    }

    // The first element that fits a question.
    pub fn first<Q: Question<T>>(&self, question: &Q) -> Option<T>
        ensures { result ≡ earliest (Q.Question.fits question.now) self.now.items }
    {
        self.elements().iter().find(|x| question.asks(x)).copied()
    }

    // Takes the first element that fits a question out; the others keep their order.
    pub fn take_first<Q: Question<T>>(&mut self, question: &Q) -> Option<T>
        ensures answer { result ≡ earliest (Q.Question.fits question.now) self.old.items }
        ensures after { self.new ≡ holding self.old (without_earliest (Q.Question.fits question.now) self.old.items) }
    {
        let i = self.find(question)?;
        self.take(i)
    }

    // Takes every element that fits a question out; the others keep their order.
    pub fn take_all<Q: Question<T>>(&mut self, question: &Q)
        ensures after { self.new ≡ holding self.old (others (Q.Question.fits question.now) self.old.items) }
    {
        let held = self.held;
        // What stands in front of the first that fits stays where it is.
        let first = self.find(question).unwrap_or(held);
        self.held = first;
        // One walk in place of many. Elements are read and written in the same memory, so no iterator can lend them here.
        for i in first..held {
            if !question.asks(&self.slots[i]) {
                self.slots[self.held] = self.slots[i];
                self.held += 1;
            }
        }
    }
}

#[cfg(test)]
mod tests;
