// The rule on the subvolume flags of snapshots.
#![tactic(auto)]

ghost use Rattle.std.specs.Prelude.{◌≡◌, ◌+◌, ◌^◌, ◌<◌, ◌≤◌};
ghost use Rattle.findings.specs.Findings.{each};
ghost use Rattle.findings.specs.Reports.{Reports};
ghost use Rattle.book.specs.Book.{book_of};
ghost use Rattle.book.specs.Turns.{held};
ghost use Rattle.snapshots.specs.SnapshotSubvolFlags.{flag_findings, snapshot_subvol_flags};

use book::names::{btree_id, key_type};
use book::open::{Book, Key};
use findings::kind::Kind;
use findings::report::Report;

// The finding of a key, if it is a snapshot whose subvolume flag, bit 1 of its flags, is wrong.
fn show_flag(key: Key<'_>, report: &mut Report<'_>)
    requires { report.old.found < 2 ^ 62 }
    ensures reports { Reports report.old (flag_findings (held key.entry)) report.new }
    ensures few { report.new.found ≤ report.old.found + 1 }
{
    if key.holds(btree_id::SNAPSHOTS, key_type::SNAPSHOT, 20) {
        let flagged = key.word(0) / 2 % 2 == 1;
        let subvolume = key.word(16);
        let wrong = flagged == (subvolume == 0);
        report.emit_if(
            wrong,
            Kind::SnapshotSubvolFlagWrong,
            key.offset(),
            subvolume as u64,
        );
    }
}

// The findings of snapshots whose subvolume flag is set without a subvolume, or clear with one.
pub fn snapshot_subvol_flags(book: Book<'_>, report: &mut Report<'_>)
    requires { report.old.found < 2 ^ 61 }
    ensures reports { Reports report.old (snapshot_subvol_flags (book_of book.entry.bytes.now)) report.new }
    ensures few { report.new.found ≤ report.old.found + book.entry.header.keys }
{
    for key in book.keys() {
        show_flag(key, report);
    }
}
