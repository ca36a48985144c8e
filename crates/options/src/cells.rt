// The store that holds its options in lent cells.
ghost use Rattle.std.specs.Prelude.{◌≡◌, ◌+◌, ◌≤◌, min, true, false, [], ◌++◌, length, if◌then◌else◌, Some, None, count_by, MatchResult};
ghost use Rattle.waiting.specs.Items.{holding};
ghost use Rattle.options.specs.Cells.{record_in, held_in, withheld_in, is_withheld, Diverted, Marked, activate_answer, too_few, new_cells, deactivate_answer, withhold_answer};
ghost use Rattle.options.specs.Records.{record_of, service_count};

use super::question::{Diversions, Withholding};
use super::record::{Kind, RawRecord, Record, Services};
use super::store::Store;
use isup::message::Service;
use numbers::number::Number;
use numbers::refusal::Refusal;
use std::marker::Model;
use waiting::WaitingList;

// As many cells as a store uses at most, however many are handed.
pub const MOST: usize = 256;

// One option: the record for a number, a service and a kind, or that a number is withheld.
#[derive(Clone, Copy)]
pub enum Cell {
    Diversion {
        number: Number,
        service: Service,
        kind: Kind,
        record: Record,
    },
    Withheld {
        number: Number,
    },
}

impl Cell {
    // The record, where it holds one.
    fn record(self) -> Option<Record>
        ensures { result ≡ record_in (Some self) }
    {
        match self {
            Cell::Diversion { record, .. } => Some(record),
            Cell::Withheld { .. } => None,
        }
    }
}

#[derive(Drop)]
pub struct CellStore<'a> {
    list: WaitingList<'a, Cell>,
}

// A store is seen as its list of cells.
impl<'a> Model for CellStore<'a> {
    ghost use Rattle.waiting.specs.Items.{Waiting};
    ghost use Rattle.options.specs.declared.cells.Cell.{Cell};

    ghost Value = { Waiting Cell };

    ghost view = { λ s. s.list };
}

impl<'a> CellStore<'a> {
    // A store that holds nothing: it has room for as many options as cells are handed, at most 256.
    // The clause gives the number and not the constant, so that a change of the constant breaks it.
    // What a carrier's `new` does too stands in the list's: a store and a carrier show different values of it.
    pub fn new(cells: &'a mut [Cell]) -> CellStore<'a>
        ensures empty { result.items ≡ [] }
        ensures room { result.places ≡ min 256 (length cells.old) }
    {
        CellStore {
            list: WaitingList::new(cells, MOST),
        }
    }

    // The cells in use.
    pub fn used(&self) -> usize
        ensures { result ≡ length self.now.items }
    {
        self.list.len()
    }

    // The free cells: with those in use they make up all there is room for.
    pub fn free(&self) -> usize
        ensures { result + length self.now.items ≡ self.now.places }
    {
        self.list.free()
    }

    // Holds a record for the number, the services and the kind, in place of what is held for them. The option is 1 to 3, the
    // release mark 0 or 1. Refused for these, and then exactly where fewer cells are free than are needed besides those replaced.
    pub fn activate(&mut self, meant: Diversions, raw: RawRecord) -> Result<(), Refusal>
        ensures answer { result ≡ activate_answer (record_of raw.target raw.option raw.mark) (too_few self.old meant) }
        ensures after { MatchResult result (λ _. Diverted self.old self.new meant (record_of raw.target raw.option raw.mark) (service_count meant.services)) (λ _. self.new ≡ self.old) }
    {
        let record = Record::try_from(raw)?;
        let needed = meant
            .services
            .count()
            .saturating_sub(self.list.count(&meant));
        if self.list.free() < needed {
            return Err(Refusal::NoFreeCell);
        }
        self.list.take_all(&meant);
        self.fill(meant, record);
        Ok(())
    }

    // Fills a cell for each of the services.
    fn fill(&mut self, meant: Diversions, record: Record)
        requires { length self.old.items + service_count meant.services ≤ self.old.places }
        ensures { self.new ≡ holding self.old (self.old.items ++ new_cells meant «record») }
    {
        for service in meant.services.each() {
            let _ = self.list.put(Cell::Diversion {
                number: meant.number,
                service: *service,
                kind: meant.kind,
                record,
            });
        }
    }

    // Takes back what is held for the number, the services and the kind; refused where none of it is held.
    pub fn deactivate(&mut self, meant: Diversions) -> Result<(), Refusal>
        ensures answer { result ≡ deactivate_answer self.old meant }
        ensures after { MatchResult result (λ _. Diverted self.old self.new meant None 0) (λ _. self.new ≡ self.old) }
    {
        if self.list.count(&meant) == 0 {
            return Err(Refusal::NotHeld);
        }
        self.list.take_all(&meant);
        Ok(())
    }

    // Marks the number as withheld; refused where that needs a cell and none is free.
    pub fn withhold(&mut self, number: Number) -> Result<(), Refusal>
        ensures answer { result ≡ withhold_answer self.old number }
        ensures after { MatchResult result (λ _. Marked self.old self.new number true 0 (if withheld_in self.old.items number then 0 else 1)) (λ _. self.new ≡ self.old) }
    {
        if self.is_withheld(&number) {
            return Ok(());
        }
        self.list
            .put(Cell::Withheld { number })
            .map_err(|_| Refusal::NoFreeCell)
    }

    // Takes the mark of a withheld number back.
    pub fn lift(&mut self, number: Number)
        ensures { Marked self.old self.new number false (count_by (is_withheld number) self.old.items) 0 }
    {
        self.list.take_all(&Withholding { number });
    }
}

impl<'a> Store for CellStore<'a> {
    ghost held = { λ s n t k. held_in s.items n t k };

    ghost withheld = { λ s n. withheld_in s.items n };

    fn record(&self, number: &Number, service: Service, kind: Kind) -> Option<Record> {
        let cell = self.list.first(&Diversions {
            number: *number,
            services: Services::One(service),
            kind,
        })?;
        cell.record()
    }

    fn is_withheld(&self, number: &Number) -> bool {
        self.list.first(&Withholding { number: *number }).is_some()
    }
}
