// What bytes are a book: its header, its four tables and its keys, in definitions, types and laws; and a key's head, read where it stands.
#![tactic(auto)]

ghost use Rattle.std.specs.Prelude.{◌≡◌, ◌+◌, ◌≤◌, length};
ghost use Rattle.book.specs.Book.{key_head};
ghost use Rattle.book.specs.Walk.{front_of};

use bits::Cursor;

pub mod names;
pub mod open;
pub mod refusal;

// The first 32 bytes, field by field. The mark `trees` says that the snapshot_trees btree is present, the mark `drawn` that the parents are
// those of the snapshot keys.
#[derive(Clone, Copy)]
pub struct Header {
    pub layout: u8,
    pub trees: bool,
    pub drawn: bool,
    pub spare: u16,
    pub version: u16,
    pub first_bucket: u16,
    pub keys: u16,
    pub device: u64,
    pub buckets: u64,
    pub parents: u16,
    pub subvolumes: u16,
    pub gens: u16,
    pub alloc: u16,
}

// Where the tables and the keys start, in bytes.
#[derive(Clone, Copy)]
pub struct Places {
    pub parents: usize,
    pub subvolumes: usize,
    pub gens: usize,
    pub alloc: usize,
    pub keys: usize,
}

// A table's form: the bytes of an entry, the bits of its first field, and whether the rest is an alloc entry's.
#[derive(Clone, Copy)]
pub struct Table {
    pub size: usize,
    pub first: usize,
    pub typed: bool,
}

// An entry of a table: its first field, and the number that the rest of its bits makes.
#[derive(Clone, Copy)]
pub struct Entry {
    pub first: u64,
    pub rest: u64,
}

// A key's head, with the start and the length of its value.
#[derive(Clone, Copy)]
pub struct KeyHead {
    pub btree: u8,
    pub key_type: u8,
    pub len: usize,
    pub spare: u8,
    pub size: u32,
    pub inode: u64,
    pub offset: u64,
    pub snapshot: u32,
    pub start: usize,
}

// The first four fields of a key's head: what a rule passes over a key by.
#[derive(Clone, Copy)]
pub struct KeyFront {
    pub btree: u8,
    pub key_type: u8,
    pub len: usize,
    pub spare: u8,
}

// An alloc entry: a bucket, and its data type, if it has one.
#[derive(Clone, Copy)]
pub struct AllocEntry {
    pub bucket: u64,
    pub data_type: Option<u8>,
}

// The front of the key at byte `at`.
pub fn key_front(book: &[u8], at: usize) -> KeyFront
    requires { (length book.now ≤ 1048576) × (at + 4 ≤ length book.now) }
    ensures { result ≡ front_of (key_head book.now at) }
{
    let start = Cursor { at: 8 * at };
    let t = start.take(book, 8);
    let btree = t.value as u8;
    let c = t.next;
    let t = c.take(book, 8);
    let key_type = t.value as u8;
    let c = t.next;
    let t = c.take(book, 11);
    let len = t.value as usize;
    let c = t.next;
    let t = c.take(book, 5);
    let spare = t.value as u8;
    KeyFront {
        btree,
        key_type,
        len,
        spare,
    }
}

// The head of the key at byte `at`.
pub fn key_head(book: &[u8], at: usize) -> KeyHead
    requires { (length book.now ≤ 1048576) × (at + 28 ≤ length book.now) }
    ensures { result ≡ key_head book.now at }
{
    let front = key_front(book, at);
    let start = Cursor { at: 8 * at + 32 };
    let t = start.take(book, 32);
    let size = t.value as u32;
    let c = t.next;
    let inode = c.take(book, 64);
    let c = inode.next;
    let offset = c.take(book, 64);
    let c = offset.next;
    let t = c.take(book, 32);
    let snapshot = t.value as u32;
    KeyHead {
        btree: front.btree,
        key_type: front.key_type,
        len: front.len,
        spare: front.spare,
        size,
        inode: inode.value,
        offset: offset.value,
        snapshot,
        start: at + 28,
    }
}
