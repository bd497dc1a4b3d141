// Why a call is refused.

ghost use Rattle.std.specs.Prelude.{◌≡◌};
ghost use Rattle.book.specs.Refusals.{refusal, reason_number};

// The reasons by their names, each the number that an answer has.
#[derive(Clone, Copy)]
pub enum Reason {
    // book over 1,048,576 bytes
    BookLong = 1,
    // book under 32 bytes
    BookShort = 2,
    // layout not 1, or a spare bit of the header set
    HeaderBad = 3,
    // an entry, a key's head or its value runs past the end
    PastEnd = 4,
    // a spare bit set, or a data type without has-type
    SpareBit = 5,
    // a first field not above that of the entry before in its table
    NotRising = 6,
    // a key of the snapshot_trees btree, without the trees mark
    TreeKey = 7,
    // bytes after the last key
    BytesLeft = 8,
    // the work area is short
    WorkShort = 9,
    // the findings exceed the buffer
    FindingsExceed = 10,
    // no root within 1,024 links
    NoRoot = 11,
    // the drawn mark with a parents table
    DrawnTable = 12,
    // a parents table of too many entries
    ParentsMany = 13,
}

// A refusal: its number, and its place in the book.
#[derive(Clone, Copy)]
pub struct Refusal {
    pub number: usize,
    pub place: usize,
}

impl Reason {
    // The refusal for this reason at a place.
    #[inline]
    pub fn at(self, place: usize) -> Refusal
        ensures { result ≡ refusal (reason_number self) place }
    {
        Refusal {
            number: self as usize,
            place,
        }
    }
}
