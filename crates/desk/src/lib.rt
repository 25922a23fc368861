// A desk: its record and its six calls. 01, "A desk, call by call".
//
// Each call takes any record, buffer, tray and sheet, forged ones too, and hands the next record back
// beside its answer. Its promise is one equation with its definition in specs/Calls.antt: `outcome`
// of what it gives back, with the lent bytes as they are then, is what the definition says. What a
// call does to the record, where it lies, is in calls.rt.
#![tactic(auto)]

ghost use Rattle.std.specs.Prelude.{[], ◌≡◌};
ghost use Rattle.desk.specs.Answers.{outcome};
ghost use Rattle.desk.specs.Calls.{open_of, write_of, read_of, send_of, deliver_of, take_of};
ghost use Rattle.desk.specs.Calls as calls;

mod calls;

use answer::Refusal;
use content::Content;
use sound::Head;

// "A record holds n, m, the desk's own number, mode .., turn number, shelf, pending entries, and the
// waiting read if any." The head has the numbers; the shelf and the pending entries are an array of
// kinds and one of days each, with 64 places. A pending place that is not blank is a pending entry.
// Stays: kinds, mode and waiting read are numbers: any record is given, forged ones too (`sound`).
#[derive(Clone, Copy)]
pub struct Desk {
    pub head: Head,
    pub kind: [u8; 64],
    pub day: [i32; 64],
    pub pkind: [u8; 64],
    pub pday: [i32; 64],
}

// What a call that is carried out answers: one shape for all calls. `value_of` (specs/Answers.antt)
// gives 01's values for each case.
#[derive(Clone, Copy)]
pub enum Answer {
    Opened,
    Stored,
    Holds(Content),
    Waits,
    Sent {
        turn: u32,
        entries: u8,
    },
    Held,
    // With it ends the read that waited, if one did: `waited` is what its cell holds.
    Taken {
        turn: u32,
        entries: u8,
        applied: u8,
        waited: Option<Content>,
    },
}

// "Each call takes the record and gives back the next record beside its answer."
#[derive(Clone, Copy)]
pub struct Outcome {
    pub answer: Result<Answer, Refusal>,
    pub desk: Desk,
}

impl Desk {
    // Whether the record is sound.
    pub fn sound(self) -> bool
        ensures { result ≡ calls.sound self }
    {
        self.is_sound()
    }

    // "All cells blank, nothing pending, turn number 0. Mode 0 means the default: causal. A refused
    // open gives a record of zeros." Refusals 1, 2, 3, 4.
    // Stays: four numbers, as 01 gives them to the call, whose signature this is.
    pub fn open(n: u32, m: u32, own: u32, mode: u32) -> Outcome
        ensures { outcome result [] ≡ open_of n m own mode }
    {
        match calls::opened_head(n, m, own, mode) {
            Ok(head) => Outcome {
                answer: Ok(Answer::Opened),
                desk: Desk::blank(head),
            },
            Err(refusal) => Outcome {
                answer: Err(refusal),
                desk: Desk::zeros(),
            },
        }
    }

    // "The cell takes the content; the content becomes that cell's pending entry, replacing an
    // earlier one." Refusals 5, 6, 7, 8.
    pub fn write(mut self, cell: u32, c: Content) -> Outcome
        ensures { outcome result [] ≡ write_of self cell c }
    {
        let answer = self.store(cell, c);
        Outcome { answer, desk: self }
    }

    // "It waits exactly if the mode is sequential, something is pending, this cell is not, and the
    // turn is elsewhere. Otherwise it answers the cell." Refusals 5, 6, 8.
    pub fn read(mut self, cell: u32) -> Outcome
        ensures { outcome result [] ≡ read_of self cell }
    {
        let answer = self.answer_cell(cell);
        Outcome { answer, desk: self }
    }

    // "Writes one sheet with every pending entry, an empty sheet if there are none, empties the
    // pending set, adds 1 to the turn number. Bytes of the lent buffer past the sheet stay. The answer
    // gives the sheet's turn number and its number of entries." The buffer may have any length.
    // Refusals 5, 9, 10, 11.
    pub fn send(mut self, buf: &mut [u8]) -> Outcome
        ensures { outcome result buf.new ≡ send_of self buf.old }
    {
        let answer = self.write_sheet(buf);
        Outcome { answer, desk: self }
    }

    // "Puts a sheet in the sender's place in the lent tray. The record stays." Tray and sheet may have
    // any length. Refusals 5, 12 to 18.
    pub fn deliver(self, tray: &mut [u8], sheet: &[u8]) -> Outcome
        ensures { outcome result tray.new ≡ deliver_of self tray.old sheet.now }
    {
        let answer = self.put_sheet(tray, sheet);
        Outcome { answer, desk: self }
    }

    // "Takes the sheet of the desk whose turn it is. Each entry goes to the shelf in causal mode
    // always, in the other modes only if that cell is not pending. Pending entries never change. The
    // place becomes zeros, the turn number goes up by 1. If the turn is now the desk's own and a read
    // waits, the answer carries that cell's content and the read is over. The answer always gives the
    // sheet's turn number, its number of entries and how many of them went to the shelf." The tray may
    // have any length. Refusals 5, 12, 19, 10, 20, 21.
    pub fn take(mut self, tray: &mut [u8]) -> Outcome
        ensures { outcome result tray.new ≡ take_of self tray.old }
    {
        let answer = self.take_sheet(tray);
        Outcome { answer, desk: self }
    }
}
