// A book whose runs of free buckets are looked at, and marks of its alloc entries.

ghost use Rattle.buckets.specs.Steps.{Marked, marked_prop};

use book::open::Book;

// A book, and as many marks of its alloc entries as there are words for.
#[derive(Clone, Copy)]
pub struct Runs<'a, 'b> {
    pub book: Book<'a>,
    pub marks: &'b [u64],
    pub ghost marked: { Marked book.bytes.now book.places.alloc book.header.alloc marks.now } by { marked_prop book.bytes.now book.places.alloc book.header.alloc marks.now },
}
