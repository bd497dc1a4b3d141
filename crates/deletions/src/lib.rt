// The rule on snapshots that are deleted or will be.
#![tactic(auto)]

ghost use Rattle.std.specs.Prelude.{◌≡◌, true, ◌&&◌, ◌+◌, ◌*◌, ◌^◌, ◌<◌, ◌≤◌, length, leb};
ghost use Rattle.bits.specs.Bits.{le_at};
ghost use Rattle.findings.specs.Findings.{each, bytes_of};
ghost use Rattle.findings.specs.Reports.{Reports};
ghost use Rattle.pairs.specs.Pairs.{pairs_of};
ghost use Rattle.book.specs.Book.{book_of};
ghost use Rattle.book.specs.Turns.{held};
ghost use Rattle.walk.specs.Gives.{pair_in};
ghost use Rattle.deletions.specs.SnapshotStates.{has_snap_state, snapshot_states};
ghost use Rattle.deletions.specs.Steps.{
  is_live_subvolume,
  is_accounted,
  set_pair,
  will_delete,
  deleting,
  has_data,
  set_findings,
};

use book::names::{btree_id, key_type};
use book::open::{Book, Key};
use findings::kind::Kind;
use findings::report::Report;
use pairs::SortedPairs;
use states::{SNAP_DELETED, SNAP_NO_KEYS, SNAP_STATE, SNAP_WILL_DELETE, SUBVOL_LIVE, SUBVOL_STATE};
use subvolumes::is_live_snapshot;
use walk::put::put_pairs;

// The sets of ids that the rule asks for: a pair is an id and the number of its set.
#[derive(Clone, Copy)]
enum Set {
    LiveSnapshots = 0,
    LiveSubvolumes = 1,
    Accounted = 2,
}

// The kind of accounting keys that count a snapshot's keys: the first byte of the position.
const ACCOUNTING_SNAPSHOT: u64 = 5;

// Whether a key is a live subvolume.
fn is_live_subvolume(key: Key<'_>) -> bool
    ensures { result ≡ is_live_subvolume (held key.entry) }
{
    if key.holds(btree_id::SUBVOLUMES, key_type::SUBVOLUME, 44) {
        return key.word(SUBVOL_STATE) == SUBVOL_LIVE;
    }
    false
}

// Whether a key is an accounting key of a snapshot with keys counted.
fn is_accounted(key: Key<'_>) -> bool
    ensures { result ≡ is_accounted (held key.entry) }
{
    if key.holds(btree_id::ACCOUNTING, key_type::ACCOUNTING, 8) {
        let kind = key.inode() / 0x0100_0000_0000_0000;
        let keys = bits::le64(key.value(), 0);
        return (kind == ACCOUNTING_SNAPSHOT) & (keys != 0);
    }
    false
}

// The snapshot that an accounting key's inode names: the four bytes after the kind, the least significant first.
fn accounted_id(inode: u64) -> u64
    ensures { result ≡ le_at (bytes_of 8 inode) 1 4 }
{
    let bytes = inode.to_be_bytes();
    u32::from_le_bytes([bytes[1], bytes[2], bytes[3], bytes[4]]) as u64
}

// The pair of a key, if it is a live snapshot, a live subvolume or an accounting key with keys counted: the id and its
// set.
fn set_pair(key: Key<'_>) -> Option<(u64, u64)>
    ensures { pair_in result ≡ set_pair key.entry.at (held key.entry) }
{
    if is_live_snapshot(key) {
        return Some((key.offset(), Set::LiveSnapshots as u64));
    }
    if is_live_subvolume(key) {
        return Some((key.offset(), Set::LiveSubvolumes as u64));
    }
    if is_accounted(key) {
        return Some((accounted_id(key.inode()), Set::Accounted as u64));
    }
    None
}

// The findings of a snapshot that will be deleted: its subvolume is live, or else both its children are.
fn show_will_delete(sets: SortedPairs<'_>, key: Key<'_>, report: &mut Report<'_>)
    requires { (60 ≤ length (held key).value) × (report.old.found < 2 ^ 61) }
    ensures reports { Reports report.old (will_delete (pairs_of sets.entry.words.now sets.entry.count) (held key.entry)) report.new }
    ensures few { report.new.found ≤ report.old.found + 2 }
{
    let live = sets.has(key.word(16) as u64, Set::LiveSubvolumes as u64);
    let left = sets.has(key.word(8) as u64, Set::LiveSnapshots as u64);
    let right = sets.has(key.word(12) as u64, Set::LiveSnapshots as u64);
    let id = key.offset();
    report.emit_if(live, Kind::SnapshotDeletedButSubvolLive, id, 0);
    let children = !live & (left & right);
    report.emit_if(children, Kind::SnapshotDeletedHasLiveChildren, id, 0);
}

// The findings of a snapshot, if it will be deleted.
fn show_deleting(sets: SortedPairs<'_>, key: Key<'_>, report: &mut Report<'_>)
    requires { (60 ≤ length (held key).value) × (report.old.found < 2 ^ 61) }
    ensures reports { Reports report.old (deleting (pairs_of sets.entry.words.now sets.entry.count) (held key.entry)) report.new }
    ensures few { report.new.found ≤ report.old.found + 2 }
{
    if key.word(SNAP_STATE) == SNAP_WILL_DELETE {
        show_will_delete(sets, key, report);
    }
}

// The finding of a snapshot, if it is one with no keys or deleted and has keys counted.
fn show_has_data(sets: SortedPairs<'_>, key: Key<'_>, report: &mut Report<'_>)
    requires { (60 ≤ length (held key).value) × (report.old.found < 2 ^ 61) }
    ensures reports { Reports report.old (has_data (pairs_of sets.entry.words.now sets.entry.count) (held key.entry)) report.new }
    ensures few { report.new.found ≤ report.old.found + 1 }
{
    let state = key.word(SNAP_STATE);
    let id = key.offset();
    let data = sets.has(id, Set::Accounted as u64);
    let bad = ((state == SNAP_NO_KEYS) | (state == SNAP_DELETED)) & data;
    report.emit_if(bad, Kind::SnapshotDeletedButHasData, id, 0);
}

// Whether a key is a snapshot with a state whose offset is an id of 32 bits.
fn is_judged(key: Key<'_>) -> bool
    ensures judged { result ≡ has_snap_state (held key.entry) && leb (held key.entry).offset 4294967295 }
    ensures long { result ≡ true → 60 ≤ length (held key.entry).value }
{
    if key.holds(btree_id::SNAPSHOTS, key_type::SNAPSHOT, 60) {
        return key.offset() <= 0xffff_ffff;
    }
    false
}

// The findings of a key.
fn show_snapshot(sets: SortedPairs<'_>, key: Key<'_>, report: &mut Report<'_>)
    requires { report.old.found < 2 ^ 60 }
    ensures reports { Reports report.old (set_findings (pairs_of sets.entry.words.now sets.entry.count) (held key.entry)) report.new }
    ensures few { report.new.found ≤ report.old.found + 3 }
{
    if is_judged(key) {
        show_deleting(sets, key, report);
        show_has_data(sets, key, report);
    }
}

// The findings of the snapshots.
fn show_snapshots(book: Book<'_>, sets: SortedPairs<'_>, report: &mut Report<'_>)
    requires { report.old.found < 2 ^ 58 }
    ensures reports { Reports report.old (each (λ _ k. set_findings (pairs_of sets.entry.words.now sets.entry.count) k) 0 (book_of book.entry.bytes.now).keys) report.new }
    ensures few { report.new.found ≤ report.old.found + book.entry.header.keys * 3 }
{
    for key in book.keys() {
        show_snapshot(sets, key, report);
    }
}

// The findings of snapshots whose state does not fit their subvolume, their children or the keys accounted to them.
pub fn snapshot_states(book: Book<'_>, work: &mut [u64], report: &mut Report<'_>)
    requires room { 2 * book.header.keys ≤ length work.old }
    requires found { report.old.found < 2 ^ 58 }
    ensures reports { Reports report.old (snapshot_states (book_of book.entry.bytes.now)) report.new }
    ensures few { report.new.found ≤ report.old.found + book.entry.header.keys * 3 }
{
    let count = put_pairs(book, set_pair, work);
    sorting::sort_pairs(work, count);
    let sets = SortedPairs::new(work, count);
    show_snapshots(book, sets, report);
}
