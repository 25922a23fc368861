// A reader of a book. 02, K1: "A reader keeps the book and the place it has got to, and gives back
// each sheet as the very part of the book that holds it."
//
// Each function here is thin: the work is the crate book's, over a slice and a number.
#![tactic(auto)]

ghost use Rattle.std.specs.Prelude.{◌≡◌};
ghost use Rattle.book.specs.Stepping.{step_back};
ghost use Rattle.reader.specs.Reading.{at_end, StepsBack};

use book::Back;

#[derive(Clone, Copy)]
pub struct Reader<'a> {
    pub book: &'a [u8],
    pub place: usize,
}

impl<'a> Reader<'a> {
    // A reader of this very slice. "A book opens at its end".
    pub fn opened(book: &'a [u8]) -> Reader<'a>
        ensures { result ≡ at_end book.entry }
    {
        Reader {
            book,
            place: book.len(),
        }
    }

    // One step back. "gives back each sheet as the very part of the book that holds it": by where
    // it starts and ends there. The reader then stands at its start, or where it was if none came.
    pub fn back(&mut self) -> Option<Back>
        ensures { StepsBack self.old result self.new }
    {
        let step = book::step_back(self.book, self.place);
        self.place = book::place_after(step, self.place);
        step
    }
}

// One step back from a place, forged or not, by a reader that stands there. No reader is in the
// contract.
pub fn step_from(book: &[u8], place: usize) -> Option<Back>
    ensures { result ≡ step_back book.now place }
{
    Reader { book, place }.back()
}
