// The rule on snapshots that more than one subvolume claims.
#![tactic(auto)]

ghost use Rattle.std.specs.Prelude.{◌≡◌, ◌+◌, ◌*◌, ◌^◌, ◌<◌, ◌≤◌, length};
ghost use Rattle.findings.specs.Reports.{Reports};
ghost use Rattle.book.specs.Book.{book_of};
ghost use Rattle.book.specs.Turns.{held};
ghost use Rattle.walk.specs.Gives.{pair_in};
ghost use Rattle.claims.specs.SnapshotClaims.{claims, claim_findings, snapshot_claims};
ghost use Rattle.claims.specs.Steps.{claim_pair, firsts, RunEnd};

use book::names::{btree_id, key_type};
use book::open::{Book, Key};
use findings::kind::Kind;
use findings::report::Report;
use pairs::SortedPairs;
use states::{SUBVOL_DELETED, SUBVOL_STATE};
use walk::put::put_pairs;

// Whether a key is a subvolume that claims a snapshot.
fn claims_snapshot(key: Key<'_>) -> bool
    ensures { result ≡ claims (held key.entry) }
{
    if !key.holds(btree_id::SUBVOLUMES, key_type::SUBVOLUME, 8) {
        return false;
    }
    if key.front.len < 44 {
        return true;
    }
    2 < states::bits_apart(key.word(SUBVOL_STATE), SUBVOL_DELETED)
}

// The pair of a key, if it is a claimant: the snapshot that it claims, and 0.
fn claim_pair(key: Key<'_>) -> Option<(u64, u64)>
    ensures { pair_in result ≡ claim_pair key.entry.at (held key.entry) }
{
    if claims_snapshot(key) {
        return Some((key.word(4) as u64, 0));
    }
    None
}

// The first place past i whose first word is not that of pair i.
fn run_end(pairs: SortedPairs<'_>, i: usize) -> usize
    requires { i < pairs.count }
    ensures { RunEnd pairs.entry.words.now pairs.entry.count i result }
{
    let id = pairs.first(i);
    for end in i + 1..pairs.count {
        if pairs.first(end) != id {
            return end;
        }
    }
    pairs.count
}

// The findings of the pairs: one for each first word that stands more than once.
fn show_claims(pairs: SortedPairs<'_>, report: &mut Report<'_>)
    requires { (pairs.count < 2 ^ 32) × (report.old.found < 2 ^ 60) }
    ensures reports { Reports report.old (claim_findings (firsts pairs.entry.words.now pairs.entry.count)) report.new }
    ensures few { report.new.found ≤ report.old.found + pairs.entry.count }
{
    let mut i = 0;
    // A turn passes a whole run of pairs, so no range counts the turns.
    while i < pairs.count {
        let end = run_end(pairs, i);
        let size = end - i;
        report.emit_if(
            1 < size,
            Kind::SnapshotClaimedTwice,
            pairs.first(i),
            size as u64,
        );
        i = end;
    }
}

// The findings of snapshots that more than one subvolume claims.
pub fn snapshot_claims(book: Book<'_>, work: &mut [u64], report: &mut Report<'_>)
    requires room { 2 * book.header.keys ≤ length work.old }
    requires found { report.old.found < 2 ^ 60 }
    ensures reports { Reports report.old (snapshot_claims (book_of book.entry.bytes.now)) report.new }
    ensures few { report.new.found ≤ report.old.found + book.entry.header.keys }
{
    let count = put_pairs(book, claim_pair, work);
    sorting::sort_pairs(work, count);
    show_claims(SortedPairs::new(work, count), report);
}
