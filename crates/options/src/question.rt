// What is asked of the cells.
ghost use Rattle.options.specs.Cells.{is_diversion, is_withheld};

use super::cells::Cell;
use super::record::{Kind, Services};
use numbers::number::Number;
use waiting::Question;

// The diversions of a number, for the services and the kind: does a cell hold one of them?
#[derive(Clone, Copy)]
pub struct Diversions {
    pub number: Number,
    pub services: Services,
    pub kind: Kind,
}

impl Question<Cell> for Diversions {
    ghost fits = { is_diversion };

    fn asks(&self, cell: &Cell) -> bool {
        match cell {
            Cell::Diversion {
                number,
                service,
                kind,
                ..
            } => self.number == *number && self.services.has(*service) && self.kind == *kind,
            Cell::Withheld { .. } => false,
        }
    }
}

// Does it hold that a number is withheld?
#[derive(Clone, Copy)]
pub struct Withholding {
    pub number: Number,
}

impl Question<Cell> for Withholding {
    ghost fits = { λ question cell. is_withheld question.number cell };

    fn asks(&self, cell: &Cell) -> bool {
        match cell {
            Cell::Diversion { .. } => false,
            Cell::Withheld { number } => self.number == *number,
        }
    }
}
