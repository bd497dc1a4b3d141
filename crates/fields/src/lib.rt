// The rules on one key's device and fields: kinds 1 to 21.
#![tactic(auto)]

ghost use Rattle.std.specs.Prelude.{◌≡◌, [], ◌+◌, ◌/◌, ◌<◌, ◌≤◌, ◌%◌, ◌^◌, length, eqb, ltb};
ghost use Rattle.bits.specs.Bits.{le_at};
ghost use Rattle.findings.specs.Reports.{Reports};
ghost use Rattle.book.specs.Book.{bkey};
ghost use Rattle.fields.specs.CheckKeyDevice.{elsewhere, check_key_device};
ghost use Rattle.fields.specs.CheckKeyFields.{
  has_row,
  minimum_value,
  accounting_position_bytes,
  replicas_end,
  accounting_fields,
  some_nonzero,
  some_not_rising,
  replicas_entry_refused,
  counters_bad,
  backpointers_start,
  alloc_v4_bytes,
  front_pad_bad,
  level_bad,
  xattr_short,
  check_key_fields,
};
ghost use Rattle.fields.specs.Steps.{pair_of, accounting_number, is_counted, size_bad, snapshot_bad, junk_at_end};

use book::KeyHead;
use book::names::{btree_id, key_type};
use findings::kind::Kind;
use findings::report::Report;

// The btrees and types whose keys have no size.
static SIZE_ZERO: [(u8, u8); 15] = [
    (btree_id::INODES, key_type::INODE_V3),
    (btree_id::DIRENTS, key_type::DIRENT),
    (btree_id::XATTRS, key_type::XATTR),
    (btree_id::SUBVOLUMES, key_type::SUBVOLUME),
    (btree_id::LRU, key_type::SET),
    (btree_id::BACKPOINTERS, key_type::BACKPOINTER),
    (btree_id::BUCKET_GENS, key_type::BUCKET_GENS),
    (btree_id::SNAPSHOT_TREES, key_type::SNAPSHOT_TREE),
    (btree_id::LOGGED_OPS, key_type::INODE_ALLOC_CURSOR),
    (btree_id::ACCOUNTING, key_type::ACCOUNTING),
    (btree_id::SNAPSHOTS, key_type::SNAPSHOT),
    (btree_id::SUBVOLUME_CHILDREN, key_type::SET),
    (btree_id::NEED_DISCARD, key_type::SET),
    (btree_id::ALLOC, key_type::ALLOC_V4),
    (btree_id::RECONCILE_WORK, key_type::SET),
];

// The btrees and types whose keys are in no snapshot.
static SNAPSHOT_ZERO: [(u8, u8); 11] = [
    (btree_id::SUBVOLUMES, key_type::SUBVOLUME),
    (btree_id::SNAPSHOTS, key_type::SNAPSHOT),
    (btree_id::LRU, key_type::SET),
    (btree_id::NEED_DISCARD, key_type::SET),
    (btree_id::FREESPACE, key_type::SET),
    (btree_id::LOGGED_OPS, key_type::INODE_ALLOC_CURSOR),
    (btree_id::SNAPSHOT_TREES, key_type::SNAPSHOT_TREE),
    (btree_id::BACKPOINTERS, key_type::BACKPOINTER),
    (btree_id::BUCKET_GENS, key_type::BUCKET_GENS),
    (btree_id::SUBVOLUME_CHILDREN, key_type::SET),
    (btree_id::REFLINK, key_type::REFLINK_V),
];

// Whether a key is on another device than the book's, and neither deleted nor a whiteout.
#[tactic(auto, unfolding(crate::specs::CheckKeyDevice::elsewhere))]
fn elsewhere(h: KeyHead, device: u64) -> bool
    ensures { result ≡ elsewhere device (bkey h []) }
{
    (h.inode != device) & (key_type::WHITEOUT < h.key_type)
}

// Kinds 1 and 2: a key of a btree that is filed by device, on another device than the book's.
pub fn check_key_device(h: KeyHead, device: u64, index: u64, report: &mut Report<'_>)
    requires { report.old.found < 2 ^ 61 }
    ensures reports { Reports report.old (check_key_device device index (bkey h [])) report.new }
    ensures few { report.new.found ≤ report.old.found + 2 }
{
    let away = elsewhere(h, device);
    let filed = (h.btree == btree_id::ALLOC) | (h.btree == btree_id::BUCKET_GENS);
    report.emit_if(away & filed, Kind::PointerToNonexistentDevice, index, 0);
    let pointer = h.btree == btree_id::BACKPOINTERS;
    report.emit_if(away & pointer, Kind::BackpointerForMissingDevice, index, 0);
}

// Whether a table of btrees and types has a row of these.
fn has_row(table: &[(u8, u8)], btree: u8, key_type: u8) -> bool
    ensures { result ≡ has_row table.now btree key_type }
{
    table
        .iter()
        .any(|row| (row.0 == btree) & (row.1 == key_type))
}

// Whether a key has a size that it may not have: those of extents and of free space may.
fn size_bad(h: KeyHead) -> bool
    ensures { result ≡ size_bad (bkey h []) }
{
    if (h.size == 0) | ((h.btree == btree_id::EXTENTS) | (h.btree == btree_id::FREESPACE)) {
        return false;
    }
    has_row(&SIZE_ZERO, h.btree, h.key_type)
}

// Whether a key has a snapshot that it may not have.
fn snapshot_bad(h: KeyHead) -> bool
    ensures { result ≡ snapshot_bad (bkey h []) }
{
    if h.snapshot == 0 {
        return false;
    }
    has_row(&SNAPSHOT_ZERO, h.btree, h.key_type)
}

// A key's btree and type as one number, the btree its high byte.
// Not a match on the two numbers: that jumps by a table, which takes twice as long as the compares of one on this.
fn pair(h: KeyHead) -> u16
    ensures value { result ≡ pair_of h.btree h.key_type }
    ensures low { h.key_type < 2 ^ 8 }
{
    h.btree as u16 * 256 + h.key_type as u16
}

const INODE_V3: u16 = btree_id::INODES as u16 * 256 + key_type::INODE_V3 as u16;

const XATTR: u16 = btree_id::XATTRS as u16 * 256 + key_type::XATTR as u16;

const ALLOC_V4: u16 = btree_id::ALLOC as u16 * 256 + key_type::ALLOC_V4 as u16;

const REFLINK_P: u16 = btree_id::EXTENTS as u16 * 256 + key_type::REFLINK_P as u16;

const REFLINK_V: u16 = btree_id::REFLINK as u16 * 256 + key_type::REFLINK_V as u16;

const SUBVOLUME: u16 = btree_id::SUBVOLUMES as u16 * 256 + key_type::SUBVOLUME as u16;

const SNAPSHOT: u16 = btree_id::SNAPSHOTS as u16 * 256 + key_type::SNAPSHOT as u16;

const BACKPOINTER: u16 = btree_id::BACKPOINTERS as u16 * 256 + key_type::BACKPOINTER as u16;

const SNAPSHOT_TREE: u16 = btree_id::SNAPSHOT_TREES as u16 * 256 + key_type::SNAPSHOT_TREE as u16;

const INODE_ALLOC_CURSOR: u16 = btree_id::LOGGED_OPS as u16 * 256
    + key_type::INODE_ALLOC_CURSOR as u16;

const ACCOUNTING: u16 = btree_id::ACCOUNTING as u16 * 256 + key_type::ACCOUNTING as u16;

// The least number of value bytes that a key must have.
fn minimum_value(h: KeyHead) -> usize
    ensures { result ≡ minimum_value (bkey h []) }
{
    match pair(h) {
        BACKPOINTER => 32,
        SNAPSHOT => 24,
        SUBVOLUME => 16,
        _ => 0,
    }
}

// The position's bytes: inode, offset and snapshot, the most significant first.
fn accounting_position_bytes(h: KeyHead) -> [u8; 20]
    ensures { result ≡ accounting_position_bytes (bkey h []) }
{
    [
        ((h.inode >> 56) % 256) as u8,
        ((h.inode >> 48) % 256) as u8,
        ((h.inode >> 40) % 256) as u8,
        ((h.inode >> 32) % 256) as u8,
        ((h.inode >> 24) % 256) as u8,
        ((h.inode >> 16) % 256) as u8,
        ((h.inode >> 8) % 256) as u8,
        (h.inode % 256) as u8,
        ((h.offset >> 56) % 256) as u8,
        ((h.offset >> 48) % 256) as u8,
        ((h.offset >> 40) % 256) as u8,
        ((h.offset >> 32) % 256) as u8,
        ((h.offset >> 24) % 256) as u8,
        ((h.offset >> 16) % 256) as u8,
        ((h.offset >> 8) % 256) as u8,
        (h.offset % 256) as u8,
        ((h.snapshot >> 24) % 256) as u8,
        ((h.snapshot >> 16) % 256) as u8,
        ((h.snapshot >> 8) % 256) as u8,
        (h.snapshot % 256) as u8,
    ]
}

// Where the devices of a replicas entry end.
#[tactic(auto, unfolding(crate::specs::CheckKeyFields::replicas_end))]
fn replicas_end(bytes: &[u8; 20]) -> usize
    ensures { (result ≡ replicas_end bytes.now) × (4 ≤ result) × (result ≤ 20) }
{
    let devices = bytes[2];
    if devices < 16 {
        return 4 + (devices as usize);
    }
    20
}

// The kinds of accounting keys that are judged, each the first byte of the position.
#[derive(Clone, Copy, PartialEq, Eq)]
enum AccountingKind {
    NrInodes = 0,
    Replicas = 2,
    DevDataType = 3,
    Snapshot = 5,
    Btree = 6,
}

// Whether the keys of this kind hold counters that are judged.
fn has_counters(kind: AccountingKind) -> bool
    ensures { result ≡ is_counted (accounting_number kind) }
{
    match kind {
        AccountingKind::NrInodes | AccountingKind::Replicas | AccountingKind::DevDataType => true,
        AccountingKind::Snapshot | AccountingKind::Btree => false,
    }
}

// How many bytes of the position the fields of the kind take.
#[tactic(auto, using(crate::proofs::Laws::key_rules), unfolding(crate::specs::CheckKeyFields::accounting_fields))]
fn accounting_fields(kind: AccountingKind, bytes: &[u8; 20]) -> usize
    ensures { (result ≡ accounting_fields (accounting_number kind) bytes.now) × (result ≤ 20) }
{
    match kind {
        AccountingKind::NrInodes => 1,
        AccountingKind::Replicas => replicas_end(bytes),
        _ => 3,
    }
}

// Whether some byte is not 0.
fn some_nonzero(bytes: &[u8]) -> bool
    ensures { result ≡ some_nonzero bytes.now }
{
    bytes.iter().any(|b| *b != 0)
}

// Whether a byte of the position is not 0 after the fields of the kind.
#[tactic(auto, using(crate::proofs::Laws::key_rules), unfolding(crate::specs::Steps::junk_at_end))]
fn junk_at_end(kind: AccountingKind, bytes: &[u8; 20]) -> bool
    ensures { result ≡ junk_at_end (accounting_number kind) bytes.now }
{
    let from = accounting_fields(kind, bytes);
    let whole = &bytes[..];
    some_nonzero(&whole[from..])
}

// Whether some number is not below the next.
fn some_not_rising(devices: &[u8]) -> bool
    ensures { result ≡ some_not_rising devices.now }
{
    !devices.is_sorted_by(|a, b| *a < *b)
}

// Whether a replicas entry is one that the reference refuses.
#[tactic(auto, using(crate::proofs::Laws::key_rules), unfolding(crate::specs::CheckKeyFields::replicas_entry_refused))]
fn replicas_entry_refused(bytes: &[u8; 20]) -> bool
    ensures { result ≡ replicas_entry_refused bytes.now }
{
    let end = replicas_end(bytes);
    let devices = bytes[2];
    let required = bytes[3];
    let whole = &bytes[..];
    let unsorted = some_not_rising(&whole[4..end]);
    (devices == 0) | (((1 < required) & (devices <= required)) | unsorted)
}

// The bytes of a counter.
const ONE_COUNTER: usize = 8;

// The bytes of four counters, one more than a key may have.
const FOUR_COUNTERS: usize = 32;

// Whether so many bytes hold no counter.
fn no_counter(bytes: usize) -> bool
    ensures { result ≡ eqb (bytes / 8) 0 }
{
    bytes < ONE_COUNTER
}

// Whether so many bytes hold more than three counters.
fn over_three_counters(bytes: usize) -> bool
    ensures { result ≡ ltb 3 (bytes / 8) }
{
    FOUR_COUNTERS <= bytes
}

// Whether a key of this kind may not have the counters that so many bytes hold: only dev_data_type may have none.
#[tactic(auto, unfolding(crate::specs::CheckKeyFields::counters_bad))]
fn counters_bad(kind: AccountingKind, bytes: usize) -> bool
    ensures { result ≡ counters_bad (accounting_number kind) (bytes / 8) }
{
    over_three_counters(bytes) | (no_counter(bytes) & (kind != AccountingKind::DevDataType))
}

// Where the backpointers of an alloc_v4 value start, in words of 8 bytes, by its start field.
#[tactic(auto, using(crate::proofs::Laws::key_rules), unfolding(crate::specs::CheckKeyFields::backpointers_start))]
fn backpointers_start(field: u32) -> u32
    ensures { (result ≡ backpointers_start field) × (result ≤ field + 6) }
{
    if field == 0 {
        return 6;
    }
    field
}

// The bytes that an alloc_v4 value needs.
#[tactic(auto, using(crate::proofs::Laws::key_rules), unfolding(crate::specs::CheckKeyFields::alloc_v4_bytes))]
fn alloc_v4_bytes(value: &[u8]) -> usize
    ensures { result ≡ alloc_v4_bytes value.now }
{
    if value.len() < 48 {
        return 48;
    }
    let flags = bits::le32(value, 8);
    let start = backpointers_start(flags / 4 % 64);
    ((start + 4 * (flags / 256 % 64)) * 8) as usize
}

// The index of a reflink_p value: the low 56 bits of its first word.
fn reflink_p_idx(value: &[u8]) -> u64
    requires { 8 ≤ length value.now }
    ensures { result ≡ le_at value.now 0 8 % 2 ^ 56 }
{
    bits::le64(value, 0) % 0x0100_0000_0000_0000
}

// Whether the index of a reflink_p value is below its front_pad.
#[tactic(auto, using(crate::proofs::Laws::key_rules), unfolding(crate::specs::CheckKeyFields::front_pad_bad))]
fn front_pad_bad(value: &[u8]) -> bool
    ensures { result ≡ front_pad_bad value.now }
{
    if value.len() < 16 {
        return false;
    }
    reflink_p_idx(value) < (bits::le32(value, 8) as u64)
}

// Whether the level of a backpointer is above 4.
#[tactic(auto, using(crate::proofs::Laws::key_rules), unfolding(crate::specs::CheckKeyFields::level_bad))]
fn level_bad(value: &[u8]) -> bool
    ensures { result ≡ level_bad value.now }
{
    if value.len() < 2 {
        return false;
    }
    4 < bits::byte(value, 1)
}

// Whether an xattr's name and value do not fit the key's value.
#[tactic(auto, using(crate::proofs::Laws::key_rules), unfolding(crate::specs::CheckKeyFields::xattr_short))]
fn xattr_short(value: &[u8]) -> bool
    ensures { result ≡ xattr_short value.now }
{
    if value.len() < 4 {
        return false;
    }
    let name = bits::byte(value, 1);
    let size = bits::byte(value, 2) + 256 * bits::byte(value, 3);
    value.len() < ((4 + name + size) as usize)
}

// A key to be judged: its head, the bytes of its value, and its index.
#[derive(Clone, Copy)]
struct Judged<'a> {
    head: KeyHead,
    value: &'a [u8],
    index: u64,
}

impl<'a> Judged<'a> {
    ghost use Rattle.std.specs.Prelude.{◌≡◌, ◌+◌, ◌^◌, ◌<◌, ◌≤◌, MatchOption};
    ghost use Rattle.findings.specs.Reports.{Reports};
    ghost use Rattle.fields.specs.CheckKeyFields.{
      accounting_kind,
      check_accounting_key,
      check_inode_v3_word,
      check_snapshot_pad,
      check_alloc_v4_value,
      bad_id,
      accounting_junk,
      check_position,
    };
    ghost use Rattle.fields.specs.Steps.{judged, accounting_number, IsOther, check_head, check_value, kind_found};

    // Kinds 3 to 5: the size, the snapshot and the length of the value.
    fn check_head(&self, report: &mut Report<'_>)
        requires { report.old.found < 2 ^ 62 }
        ensures reports { Reports report.old (check_head self.now.index (judged self.now)) report.new }
        ensures few { report.new.found ≤ report.old.found + 3 }
    {
        let i = self.index;
        report.emit_if(size_bad(self.head), Kind::BkeySizeNonzero, i, 0);
        report.emit_if(snapshot_bad(self.head), Kind::BkeySnapshotNonzero, i, 0);
        let short = self.value.len() < minimum_value(self.head);
        report.emit_if(short, Kind::BkeyValSizeTooSmall, i, 0);
    }

    // The kind of an accounting key, if keys of the kind are judged.
    #[tactic(auto, unfolding(crate::specs::CheckKeyFields::accounting_kind))]
    fn accounting_kind(&self) -> Option<AccountingKind>
        ensures { MatchOption result (IsOther (accounting_kind (judged self.now))) (λ kind. accounting_number kind ≡ accounting_kind (judged self.now)) }
    {
        match self.head.inode >> 56 {
            0 => Some(AccountingKind::NrInodes),
            2 => Some(AccountingKind::Replicas),
            3 => Some(AccountingKind::DevDataType),
            5 => Some(AccountingKind::Snapshot),
            6 => Some(AccountingKind::Btree),
            _ => None,
        }
    }

    // Kinds 6 to 8: an accounting key of kind nr_inodes, replicas or dev_data_type.
    fn check_accounting_key(&self, report: &mut Report<'_>)
        requires { report.old.found < 2 ^ 62 }
        ensures reports { Reports report.old (check_accounting_key self.now.index (judged self.now)) report.new }
        ensures few { report.new.found ≤ report.old.found + 3 }
    {
        let i = self.index;
        let Some(kind) = self.accounting_kind() else {
            return;
        };
        if !has_counters(kind) {
            return;
        }
        let bytes = accounting_position_bytes(self.head);
        report.emit_if(
            junk_at_end(kind, &bytes),
            Kind::AccountingKeyJunkAtEnd,
            i,
            0,
        );
        let refused = (kind == AccountingKind::Replicas) & replicas_entry_refused(&bytes);
        report.emit_if(refused, Kind::AccountingReplicasBad, i, 0);
        let bad = counters_bad(kind, self.value.len());
        report.emit_if(bad, Kind::AccountingKeyCountersBad, i, 0);
    }

    // Kinds 9 and 10: the third word of an inode's value.
    fn check_inode_v3_word(&self, report: &mut Report<'_>)
        requires { report.old.found < 2 ^ 62 }
        ensures reports { Reports report.old (check_inode_v3_word self.now.index (judged self.now)) report.new }
        ensures few { report.new.found ≤ report.old.found + 2 }
    {
        if self.value.len() < 48 {
            return;
        }
        let i = self.index;
        let word = bits::le64(self.value, 16);
        let hash = word / 0x0010_0000 % 16;
        report.emit_if(4 <= hash, Kind::InodeStrHashInvalid, i, 0);
        let start = 2 * (word / 0x0001_0000_0000 % 16);
        let words = (self.value.len() / 8) as u64;
        report.emit_if(
            (start < 6) | (words < start),
            Kind::InodeFieldsStartBad,
            i,
            0,
        );
    }

    // Kind 11: the pad word of a snapshot.
    #[tactic(auto, using(crate::proofs::Laws::key_rules), unfolding(crate::specs::CheckKeyFields::check_snapshot_pad))]
    fn check_snapshot_pad(&self, report: &mut Report<'_>)
        requires { report.old.found < 2 ^ 62 }
        ensures reports { Reports report.old (check_snapshot_pad self.now.index (judged self.now)) report.new }
        ensures few { report.new.found ≤ report.old.found + 1 }
    {
        if self.value.len() < 64 {
            return;
        }
        let padded = bits::le32(self.value, 60) != 0;
        report.emit_if(padded, Kind::SnapshotPadNonzero, self.index, 0);
    }

    // Kind 12: the length of an alloc_v4 value.
    #[tactic(auto, using(crate::proofs::Laws::key_rules), unfolding(crate::specs::CheckKeyFields::check_alloc_v4_value))]
    fn check_alloc_v4_value(&self, report: &mut Report<'_>)
        requires { report.old.found < 2 ^ 62 }
        ensures reports { Reports report.old (check_alloc_v4_value self.now.index (judged self.now)) report.new }
        ensures few { report.new.found ≤ report.old.found + 1 }
    {
        let short = self.value.len() < alloc_v4_bytes(self.value);
        report.emit_if(short, Kind::AllocV4ValSizeBad, self.index, 0);
    }

    // Kinds 6 to 12, by the btree and the type.
    fn check_value(&self, report: &mut Report<'_>)
        requires { report.old.found < 2 ^ 62 }
        ensures reports { Reports report.old (check_value self.now.index (judged self.now)) report.new }
        ensures few { report.new.found ≤ report.old.found + 3 }
    {
        match pair(self.head) {
            ACCOUNTING => self.check_accounting_key(report),
            INODE_V3 => self.check_inode_v3_word(report),
            SNAPSHOT => self.check_snapshot_pad(report),
            ALLOC_V4 => self.check_alloc_v4_value(report),
            _ => {}
        }
    }

    // Whether the key is not at `0:id` with a 32-bit id other than 0.
    #[tactic(auto, unfolding(crate::specs::CheckKeyFields::bad_id))]
    fn bad_id(&self) -> bool
        ensures { result ≡ bad_id (judged self.now) }
    {
        let h = self.head;
        (h.offset == 0) | ((0xffff_ffff < h.offset) | (h.inode != 0))
    }

    // Whether an accounting key of kind btree or snapshot holds more than its fields.
    #[tactic(auto, using(crate::proofs::Laws::key_rules), unfolding(crate::specs::CheckKeyFields::accounting_junk))]
    fn accounting_junk(&self) -> bool
        ensures { result ≡ accounting_junk (judged self.now) }
    {
        let h = self.head;
        let below = h.inode % 0x0001_0000_0000_0000;
        match self.accounting_kind() {
            Some(AccountingKind::Btree) => (below != 0) | ((h.offset != 0) | (h.snapshot != 0)),
            Some(AccountingKind::Snapshot) => h.offset != 0,
            Some(AccountingKind::NrInodes | AccountingKind::Replicas | AccountingKind::DevDataType)
            | None => false,
        }
    }

    // The kind of what is wrong with the position or the value, by the btree and the type.
    fn position_kind(&self) -> Option<Kind>
        ensures { kind_found self.now.index result ≡ check_position self.now.index (judged self.now) }
    {
        let h = self.head;
        match pair(h) {
            INODE_V3 => { (h.inode != 0).then_some(Kind::InodePosInodeNonzero) }
            SUBVOLUME => { self.bad_id().then_some(Kind::SubvolPosBad) }
            SNAPSHOT => { self.bad_id().then_some(Kind::SnapshotPosBad) }
            REFLINK_V => { (h.inode != 0).then_some(Kind::ReflinkVPosBad) }
            REFLINK_P => { front_pad_bad(self.value).then_some(Kind::ReflinkPFrontPadBad) }
            INODE_ALLOC_CURSOR => { (h.inode != 1).then_some(Kind::InodeAllocCursorInodeBad) }
            SNAPSHOT_TREE => { self.bad_id().then_some(Kind::SnapshotTreePosBad) }
            ACCOUNTING => {
                self.accounting_junk()
                    .then_some(Kind::AccountingKeyJunkAtEnd)
            }
            BACKPOINTER => { level_bad(self.value).then_some(Kind::BackpointerLevelBad) }
            XATTR => { xattr_short(self.value).then_some(Kind::XattrValSizeTooSmall) }
            _ => None,
        }
    }

    // Kinds 13 to 21, and 6 for the kinds btree and snapshot of accounting keys.
    #[tactic(auto, using(crate::proofs::Laws::key_rules))]
    fn check_position(&self, report: &mut Report<'_>)
        requires { report.old.found < 2 ^ 62 }
        ensures reports { Reports report.old (check_position self.now.index (judged self.now)) report.new }
        ensures few { report.new.found ≤ report.old.found + 1 }
    {
        if let Some(kind) = self.position_kind() {
            report.emit(kind, self.index, 0);
        }
    }
}

// Kinds 3 to 21: what a key's own fields may not hold.
pub fn check_key_fields(head: KeyHead, value: &[u8], index: u64, report: &mut Report<'_>)
    requires { report.old.found < 2 ^ 61 }
    ensures reports { Reports report.old (check_key_fields index (bkey head value.now)) report.new }
    ensures few { report.new.found ≤ report.old.found + 7 }
{
    let key = Judged { head, value, index };
    key.check_head(report);
    key.check_value(report);
    key.check_position(report);
}
