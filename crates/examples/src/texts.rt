// What a load refuses before any line of a text is read.
use crate::lent::Cells;
use refusals::{LoadError, Place};
use std::{fmt, io};

// A refusal, with its number and the offset that it carries.
#[derive(Drop)]
pub struct Refused(pub LoadError);

impl fmt::Display for Refused {
    fn fmt<W: fmt::Write>(&self, f: &mut fmt::Formatter<W>) -> fmt::Result {
        let number = self.0.refusal.number();
        match self.0.place {
            Some(Place::Offset(at)) => write!(f, "refused {number} at {at}"),
            _ => write!(f, "refused {number}"),
        }
    }
}

// A byte, 1 for memory with one cell of the offsets too few, the edition, and the text.
pub fn text_case(rt: &impl Print, cells: &mut Cells, case: &[u8]) -> io::Result<()> {
    let [short, edition, text @ ..] = case else {
        return Ok(());
    };
    let how = source::text_of(u32::from(*edition), true);
    match source::start_of(text, how, cells.empty(*short == 1)) {
        Ok(_) => print!(rt; "read on"),
        Err(error) => rt.print(Refused(error)),
    }
}
