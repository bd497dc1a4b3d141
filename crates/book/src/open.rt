// An accepted book, and its keys.

ghost use Rattle.std.specs.Prelude.{◌≡◌, true, ◌+◌, ◌≤◌, length};
ghost use Rattle.bits.specs.Bits.{le_at};
ghost use Rattle.book.specs.Book.{key_head, key_end, is};
ghost use Rattle.book.specs.Walk.{Opened, KeysFit, keys_fit_prop};
ghost use Rattle.book.specs.Words.{holds, id_of};
ghost use Rattle.book.specs.Keys.{key_at, AtKey};

use crate::{Header, KeyFront, KeyHead, Places};

// A book that was accepted: its bytes, its header, and where its tables and keys start.
#[derive(Clone, Copy)]
pub struct Book<'a> {
    pub bytes: &'a [u8],
    pub header: Header,
    pub places: Places,
    pub ghost opened: { Opened bytes.now header places },
}

impl<'a> Book<'a> {
    // Its keys, in its order.
    #[inline]
    pub fn keys(&self) -> Keys<'a>
        ensures bytes { result.book.now ≡ self.now.bytes.now }
        ensures all { (result.at ≡ self.now.places.keys) × (result.left ≡ self.now.header.keys) }
    {
        Keys {
            book: self.bytes,
            at: self.places.keys,
            left: self.header.keys as usize,
        }
    }
}

// The inode of the key whose head stands at a byte.
#[inline]
pub fn inode_at(book: &[u8], at: usize) -> u64
    requires { (length book.now ≤ 1048576) × (at + 28 ≤ length book.now) }
    ensures { result ≡ (key_at book.now at).inode }
{
    bits::be64(book, at + 8)
}

// Its offset.
#[inline]
pub fn offset_at(book: &[u8], at: usize) -> u64
    requires { (length book.now ≤ 1048576) × (at + 28 ≤ length book.now) }
    ensures { result ≡ (key_at book.now at).offset }
{
    bits::be64(book, at + 16)
}

// A key of an accepted book: where it stands, and its front.
#[derive(Clone, Copy)]
pub struct Key<'a> {
    pub book: &'a [u8],
    pub at: usize,
    pub front: KeyFront,
    pub ghost stands: { AtKey book.now at front },
}

#[tactic(auto, using(crate::proofs::AtKey::at_inside))]
impl<'a> Key<'a> {
    ghost use Rattle.book.specs.Turns.{held};

    // The key at a byte where one stands.
    #[inline]
    pub fn read(book: &'a [u8], at: usize) -> Key<'a>
        requires { (length book.now ≤ 1048576) × (at + 28 ≤ length book.now) × (key_end book.now at ≤ length book.now) }
        ensures { (result.book.now ≡ book.now) × (result.at ≡ at) }
    {
        Key {
            book,
            at,
            front: crate::key_front(book, at),
        }
    }

    // Whether it is of this btree and this type.
    #[inline]
    pub fn is(&self, btree: u8, key_type: u8) -> bool
        ensures { result ≡ is btree key_type (held self.now) }
    {
        (self.front.btree == btree) & (self.front.key_type == key_type)
    }

    // Whether it is of this btree and this type, and has this many value bytes or more.
    #[inline]
    pub fn holds(&self, btree: u8, key_type: u8, least: usize) -> bool
        ensures holds { result ≡ holds btree key_type least (held self.now) }
        ensures long { result ≡ true → least ≤ length (held self.now).value }
    {
        self.is(btree, key_type) & (least <= self.front.len)
    }

    // The inode.
    #[inline]
    pub fn inode(&self) -> u64
        ensures { result ≡ (held self.now).inode }
    {
        inode_at(self.book, self.at)
    }

    // The offset.
    #[inline]
    pub fn offset(&self) -> u64
        ensures { result ≡ (held self.now).offset }
    {
        offset_at(self.book, self.at)
    }

    // The low 32 bits of the offset: the id of a snapshot or a tree.
    #[inline]
    pub fn id(&self) -> u32
        ensures { result ≡ id_of (held self.now) }
    {
        (self.offset() % 0x1_0000_0000) as u32
    }

    // The word at byte i of the value.
    #[inline]
    pub fn word(&self, i: usize) -> u32
        requires { i + 4 ≤ length (held self.now).value }
        ensures { result ≡ le_at (held self.now).value i 4 }
    {
        bits::le32(self.book, self.at + 28 + i)
    }

    // The bytes of the value.
    #[inline]
    pub fn value(&self) -> &'a [u8]
        ensures { result.now ≡ (held self.now).value }
    {
        let start = self.at + 28;
        let end = start + self.front.len;
        &self.book[start..end]
    }

    // The head.
    #[inline]
    pub fn head(&self) -> KeyHead
        ensures { result ≡ key_head self.now.book.now self.now.at }
    {
        crate::key_head(self.book, self.at)
    }
}

// The keys of a book from a byte on.
#[derive(Clone, Copy)]
pub struct Keys<'a> {
    pub book: &'a [u8],
    pub at: usize,
    pub left: usize,
    pub ghost small: { length book.now ≤ 1048576 },
    pub ghost fit: { KeysFit book.now left at } by { keys_fit_prop book.now left at },
}

impl<'a> Iterator for Keys<'a> {
    ghost use Rattle.std.specs.Iterator.{at_most};
    ghost use Rattle.book.specs.Turns.{GivesKey};

    type Item = Key<'a>;

    ghost next_gives = { GivesKey };

    ghost remaining = { λ s. at_most s.left };

    #[inline]
    fn next(&mut self) -> Option<Key<'a>> {
        if self.left == 0 {
            return None;
        }
        let book = self.book;
        let at = self.at;
        let front = crate::key_front(book, at);
        *self = Keys {
            book,
            at: at + 28 + front.len,
            left: self.left - 1,
        };
        Some(Key { book, at, front })
    }
}
