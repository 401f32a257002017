// What a refusal to read says by number, and its place.
ghost use Rattle.records.specs.Readings.{unread_number, unread_place};

use crate::ReadRefusal;
use board::numbered::Numbered;

impl Numbered for ReadRefusal {
    ghost number_of = { unread_number };

    ghost place_of = { unread_place };

    fn number(self) -> u32 {
        match self {
            ReadRefusal::CutShort(_) => 17,
            ReadRefusal::BadNumber(_) => 18,
            ReadRefusal::BadSide(_) => 1,
            ReadRefusal::LongList(_) => 21,
            ReadRefusal::BytesAfter(_) => 20,
            ReadRefusal::WrongMark => 19,
            ReadRefusal::Plan(plan) => plan.number(),
        }
    }

    // The place in the record (17, 18, 20, and 1 and 21 met while reading), the faulty cell (3, 4) or the bad move's place (13, 14).
    fn place(self) -> usize {
        match self {
            ReadRefusal::CutShort(i)
            | ReadRefusal::BadNumber(i)
            | ReadRefusal::BadSide(i)
            | ReadRefusal::LongList(i)
            | ReadRefusal::BytesAfter(i) => i,
            ReadRefusal::WrongMark => 0,
            ReadRefusal::Plan(plan) => plan.place(),
        }
    }
}
