// The rules on unavailable subvolumes.
#![tactic(auto)]

ghost use Rattle.std.specs.Prelude.{◌≡◌, true, ◌++◌, ◌+◌, ◌*◌, ◌^◌, ◌<◌, ◌≤◌, length};
ghost use Rattle.findings.specs.Findings.{each};
ghost use Rattle.findings.specs.Reports.{Reports, kind_number};
ghost use Rattle.pairs.specs.Pairs.{pairs_of};
ghost use Rattle.book.specs.Book.{book_of};
ghost use Rattle.book.specs.Turns.{held};
ghost use Rattle.walk.specs.Gives.{pair_in};
ghost use Rattle.walk.specs.Keys.{any_key};
ghost use Rattle.subvolumes.specs.SubvolumeStates.{is_live_snapshot, unavailable, subvolume_states, is_unavailable};
ghost use Rattle.subvolumes.specs.Steps.{state_pair, GroupFrom, group_findings, judged};

use book::names::{btree_id, key_type};
use book::open::{Book, Key, offset_at};
use findings::count;
use findings::kind::Kind;
use findings::report::Report;
use grouped::States;
use pairs::SortedPairs;
use states::{SNAP_LIVE, SNAP_STATE, SUBVOL_DELETED, SUBVOL_STATE, SUBVOL_UNLINKED};
use walk::put::put_pairs;

mod grouped;

// Whether a key is an unlinked or deleted subvolume whose offset is an id of 32 bits.
fn is_gone(key: Key<'_>) -> bool
    ensures { result ≡ unavailable (held key.entry) }
{
    if !key.holds(btree_id::SUBVOLUMES, key_type::SUBVOLUME, 44) {
        return false;
    }
    let state = key.word(SUBVOL_STATE);
    if (state == SUBVOL_UNLINKED) | (state == SUBVOL_DELETED) {
        return key.offset() <= 0xffff_ffff;
    }
    false
}

// Whether an id is in the set of unavailable subvolumes, which are unlinked or deleted.
pub fn is_unavailable(book: Book<'_>, id: u32) -> bool
    ensures { result ≡ is_unavailable id (book_of book.entry.bytes.now).keys }
{
    for key in book.keys() {
        if is_gone(key) && key.offset() == id as u64 {
            return true;
        }
    }
    false
}

// Whether a key is a live snapshot.
pub fn is_live_snapshot(key: Key<'_>) -> bool
    ensures live { result ≡ is_live_snapshot (held key.entry) }
    ensures long { result ≡ true → 60 ≤ length (held key.entry).value }
{
    if key.holds(btree_id::SNAPSHOTS, key_type::SNAPSHOT, 60) {
        return key.word(SNAP_STATE) == SNAP_LIVE;
    }
    false
}

// The pair of a key, if it is a live snapshot or a tree record: the group of its subvolume, and its place.
fn state_pair(key: Key<'_>) -> Option<(u64, u64)>
    ensures { pair_in result ≡ state_pair key.entry.at (held key.entry) }
{
    if is_live_snapshot(key) {
        return Some((2 * key.word(16) as u64, key.at as u64));
    }
    if key.holds(btree_id::SNAPSHOT_TREES, key_type::SNAPSHOT_TREE, 8) {
        return Some((2 * key.word(0) as u64 + 1, key.at as u64));
    }
    None
}

// The findings of a kind for each key of a group, whose pairs start at `from`, with id as object; returns where the next group starts.
// Those that the buffer has no room for are counted without a look at each.
fn show_group(
    states: &States<'_, '_>,
    from: usize,
    group: u64,
    kind: Kind,
    id: u64,
    report: &mut Report<'_>,
) -> usize
    requires group { GroupFrom states.now.pairs.words.now states.now.pairs.count group from × (group < 2 ^ 34) }
    requires kind { kind_number kind < 2 ^ 8 }
    requires found { report.old.found < 2 ^ 61 }
    ensures reports { Reports report.old (group_findings states.now.book.bytes.now (kind_number kind) group id (pairs_of states.now.pairs.words.now states.now.pairs.count)) report.new }
    ensures ends { GroupFrom states.now.pairs.words.now states.now.pairs.count (group + 1) result }
    ensures few { report.new.found ≤ report.old.found + states.now.pairs.count }
{
    let pairs = states.pairs;
    for i in from..pairs.count {
        if pairs.first(i) != group {
            return i;
        }
        if report.buffer.len() / 17 <= report.found {
            let end = pairs.lower_bound(group + 1, 0);
            let more = end - i;
            count(report.counts, kind as u8, more as u64);
            report.found += more;
            return end;
        }
        let offset = offset_at(states.book.bytes, pairs.second(i) as usize);
        report.emit(kind, offset, id);
    }
    pairs.count
}

// The findings of a deleted subvolume's snapshots and tree records: the records' group follows that of the snapshots.
fn show_deleted(states: &States<'_, '_>, id: u64, report: &mut Report<'_>)
    requires { (id < 2 ^ 32) × (report.old.found < 2 ^ 60) }
    ensures reports { Reports report.old (group_findings states.now.book.bytes.now 30 (2 * id) id (pairs_of states.now.pairs.words.now states.now.pairs.count) ++ group_findings states.now.book.bytes.now 31 (2 * id + 1) id (pairs_of states.now.pairs.words.now states.now.pairs.count)) report.new }
    ensures few { report.new.found ≤ report.old.found + states.now.pairs.count + states.now.pairs.count }
{
    let group = 2 * id;
    let from = states.pairs.lower_bound(group, 0);
    let next = show_group(
        states,
        from,
        group,
        Kind::SnapshotSubvolStateMismatch,
        id,
        report,
    );
    show_group(
        states,
        next,
        group + 1,
        Kind::SnapshotTreeToMissingSubvol,
        id,
        report,
    );
}

// The findings of a key, if it is an unavailable subvolume.
fn show_subvolume(states: &States<'_, '_>, key: Key<'_>, report: &mut Report<'_>)
    requires { report.old.found < 2 ^ 59 }
    ensures reports { Reports report.old (judged states.now.book.bytes.now (pairs_of states.now.pairs.words.now states.now.pairs.count) (held key.entry)) report.new }
    ensures few { report.new.found ≤ report.old.found + 1 + states.now.pairs.count + states.now.pairs.count }
{
    if is_gone(key) {
        let id = key.offset();
        report.emit_if(id == 1, Kind::RootSubvolMissing, 1, 0);
        if key.word(SUBVOL_STATE) == SUBVOL_DELETED {
            show_deleted(states, id, report);
        }
    }
}

// The findings of the unavailable subvolumes.
fn show_subvolumes(states: &States<'_, '_>, report: &mut Report<'_>)
    requires { report.old.found < 2 ^ 58 }
    ensures reports { Reports report.old (each (λ _ k. judged states.now.book.bytes.now (pairs_of states.now.pairs.words.now states.now.pairs.count) k) 0 (book_of states.now.book.bytes.now).keys) report.new }
    ensures few { report.new.found ≤ report.old.found + states.now.book.header.keys * 74899 }
{
    for key in states.book.keys() {
        show_subvolume(states, key, report);
    }
}

// Whether some key is an unavailable subvolume.
fn has_gone(book: Book<'_>) -> bool
    ensures { result ≡ any_key unavailable (book_of book.entry.bytes.now).keys }
{
    for key in book.keys() {
        if is_gone(key) {
            return true;
        }
    }
    false
}

// The findings of unlinked and deleted subvolumes, and of live snapshots and tree records of deleted ones.
pub fn subvolume_states(book: Book<'_>, work: &mut [u64], report: &mut Report<'_>)
    requires room { 2 * book.header.keys ≤ length work.old }
    requires found { report.old.found < 2 ^ 58 }
    ensures reports { Reports report.old (subvolume_states (book_of book.entry.bytes.now)) report.new }
    ensures few { report.new.found ≤ report.old.found + book.entry.header.keys * 74899 }
{
    if has_gone(book) {
        let count = put_pairs(book, state_pair, work);
        sorting::sort_pairs(work, count);
        let pairs = SortedPairs::new(work, count);
        let states = States { book, pairs };
        show_subvolumes(&states, report);
    }
}
