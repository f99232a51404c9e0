// Why something was refused, in words, with the number, and where it is.
ghost use Rattle.std.specs.Prelude.{Some};

use crate::rows::{FaultRow, Unit};
use model::Refusal;
use std::fmt;

// Where a refusal is, with a comma before it.
#[derive(Clone, Copy)]
struct PlaceWords {
    unit: Unit,
    place: u64,
}

impl fmt::Display for PlaceWords {
    ghost use Rattle.answers.specs.Reasons.{place_words};

    ghost output = { λ p. Some (place_words p.unit p.place) };

    fn fmt<W: fmt::Write>(&self, f: &mut fmt::Formatter<W>) -> fmt::Result {
        let place = self.place;
        match self.unit {
            Unit::Nothing => Ok(()),
            Unit::Byte => write!(f, ", at byte {place}"),
            Unit::Line | Unit::End => write!(f, ", at line {place}"),
        }
    }
}

// A refusal in words, as standard error says it.
#[derive(Clone, Copy)]
pub struct RefusalWords(pub Refusal);

impl fmt::Display for RefusalWords {
    ghost use Rattle.answers.specs.Reasons.{reason};

    ghost output = { λ r. Some (reason r.0) };

    fn fmt<W: fmt::Write>(&self, f: &mut fmt::Formatter<W>) -> fmt::Result {
        let Refusal { place, fault } = self.0;
        let row = FaultRow::of(fault);
        let subject = row.subject;
        let words = row.words;
        let number = fault.number();
        let unit = row.unit;
        let place = PlaceWords { unit, place };
        write!(f, "{subject}: {words} ({number}){place}")
    }
}
