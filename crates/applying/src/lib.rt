// Entries of a sheet, put on the shelf. 01, "Take": "Each entry goes to the shelf in causal mode
// always, in the other modes only if that cell is not pending."
//
// The entries are read where the sheet lies; the shelf's two arrays are lent.
#![tactic(auto)]

ghost use Rattle.std.specs.Prelude.{◌≡◌};
ghost use Rattle.applying.specs.Applying.{goes, entries_in, AppliesEntries};

use layout::Entry;

// Whether an entry of this cell goes to the shelf.
fn entry_goes(causal: bool, pkind: &[u8; 64], e: Entry) -> bool
    ensures { result ≡ goes causal pkind.now e }
{
    causal || cells::at(pkind, usize::from(e.cell), 0) == 0
}

// Puts the first `count` entries of a sheet on the shelf, each that goes there, and counts these.
// Where the bytes end before so many entries and a trailer do, nothing is put.
// Stays: kind and day: the clause `AppliesEntries` names each, before and after.
pub fn apply(
    causal: bool,
    kind: &mut [u8; 64],
    day: &mut [i32; 64],
    pkind: &[u8; 64],
    s: &[u8],
    count: u8,
) -> u8
    ensures { AppliesEntries causal pkind.now (entries_in s.now count) kind.old day.old result kind.new day.new }
{
    let mut went = 0;
    if s.len() < 6 * (count as usize) + 12 {
        return went;
    }
    for i in 0..count {
        let e = sheet::entry_at(s, i);
        if entry_goes(causal, pkind, e) {
            cells::put(kind, true, e.cell as usize, e.kind);
            cells::put(day, true, e.cell as usize, e.day.cast_signed());
            went += 1;
        }
    }
    went
}
