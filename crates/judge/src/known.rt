// A book and the btrees of its keys: a rule across keys without keys of its btrees has nothing to find.

ghost use Rattle.std.specs.Prelude.{◌≡◌};
ghost use Rattle.book.specs.Book.{book_of};
ghost use Rattle.keys.specs.Present.{present_in};

use book::open::Book;
use findings::report::Report;
use keys::Present;

// A book, and the btrees of which it has keys.
#[derive(Clone, Copy)]
pub struct Known<'a> {
    pub book: Book<'a>,
    pub present: Present,
    pub ghost all: { present ≡ present_in (book_of book.bytes.now).keys },
}

impl Known<'_> {
    ghost use Rattle.std.specs.Prelude.{◌≡◌, ◌+◌, ◌*◌, ◌^◌, ◌<◌, ◌≤◌, length};
    ghost use Rattle.findings.specs.Reports.{Reports};
    ghost use Rattle.book.specs.Book.{book_of};
    ghost use Rattle.children.specs.SubvolumeChildren.{subvolume_children};
    ghost use Rattle.links.specs.SnapshotLinks.{snapshot_links};
    ghost use Rattle.gens.specs.BucketGensAgainstAlloc.{bucket_gens_against_alloc};
    ghost use Rattle.judge.specs.Steps.{
      subvolume_rules,
      snapshot_rules,
      first_rules,
      last_rules,
      across_rules,
    };

    // The rules on subvolumes alone.
    fn judge_subvolumes(self, work: &mut [u64], report: &mut Report<'_>)
        requires room { 2 * self.book.header.keys ≤ length work.old }
        requires found { report.old.found < 2 ^ 57 + 2 ^ 37 }
        ensures reports { Reports report.old (subvolume_rules (book_of self.entry.book.bytes.now)) report.new }
        ensures few { report.new.found ≤ report.old.found + self.entry.book.header.keys * 74900 }
    {
        if self.present.subvolumes {
            subvolumes::subvolume_states(self.book, work, report);
            claims::snapshot_claims(self.book, work, report);
        }
    }

    // The rules on snapshots alone.
    fn judge_snapshots(self, work: &mut [u64], report: &mut Report<'_>)
        requires room { 2 * self.book.header.keys ≤ length work.old }
        requires found { report.old.found < 2 ^ 57 + 2 ^ 37 }
        ensures reports { Reports report.old (snapshot_rules (book_of self.entry.book.bytes.now)) report.new }
        ensures few { report.new.found ≤ report.old.found + self.entry.book.header.keys * 4 }
    {
        if self.present.snapshots {
            deletions::snapshot_states(self.book, work, report);
            snapshots::snapshot_subvol_flags(self.book, report);
        }
    }

    // The rule on subvolumes and the entries of their parents.
    fn judge_children(self, work: &mut [u64], report: &mut Report<'_>)
        requires room { 2 * self.book.header.keys ≤ length work.old }
        requires found { report.old.found < 2 ^ 58 }
        ensures reports { Reports report.old (subvolume_children (book_of self.entry.book.bytes.now)) report.new }
        ensures few { report.new.found ≤ report.old.found + self.entry.book.header.keys * 2 }
    {
        if self.present.subvolumes | self.present.children {
            children::subvolume_children(self.book, work, report);
        }
    }

    // The rule on snapshots and their trees.
    fn judge_links(self, work: &mut [u64], report: &mut Report<'_>)
        requires room { 2 * self.book.header.keys ≤ length work.old }
        requires found { report.old.found < 2 ^ 58 }
        ensures reports { Reports report.old (snapshot_links (book_of self.entry.book.bytes.now)) report.new }
        ensures few { report.new.found ≤ report.old.found + self.entry.book.header.keys * 8 }
    {
        if self.present.snapshots | self.present.trees {
            links::snapshot_links(self.book, work, report);
        }
    }

    // The rule on generations.
    fn judge_gens(self, work: &mut [u64], report: &mut Report<'_>)
        requires room { 2 * self.book.header.keys ≤ length work.old }
        requires found { report.old.found < 2 ^ 58 }
        ensures reports { Reports report.old (bucket_gens_against_alloc (book_of self.entry.book.bytes.now)) report.new }
        ensures few { report.new.found ≤ report.old.found + self.entry.book.header.keys * 256 + 65535 }
    {
        if self.present.gens | (self.book.header.gens != 0) {
            gens::bucket_gens_against_alloc(self.book, work, report);
        }
    }

    // The rules up to `subvolume_children`.
    fn judge_first(self, work: &mut [u64], report: &mut Report<'_>)
        requires room { 2 * self.book.header.keys ≤ length work.old }
        requires found { report.old.found < 2 ^ 57 + 2 ^ 36 }
        ensures reports { Reports report.old (first_rules (book_of self.entry.book.bytes.now)) report.new }
        ensures few { report.new.found ≤ report.old.found + self.entry.book.header.keys * 74906 }
    {
        self.judge_subvolumes(work, report);
        self.judge_snapshots(work, report);
        self.judge_children(work, report);
    }

    // The rules from `snapshot_links` on.
    fn judge_last(self, work: &mut [u64], report: &mut Report<'_>)
        requires room { 2 * self.book.header.keys ≤ length work.old }
        requires found { report.old.found < 2 ^ 57 + 2 ^ 38 }
        ensures reports { Reports report.old (last_rules (book_of self.entry.book.bytes.now)) report.new }
        ensures few { report.new.found ≤ report.old.found + self.entry.book.header.keys * 266 + 196608 }
    {
        self.judge_links(work, report);
        self.judge_gens(work, report);
        buckets::free_space(self.book, work, report);
    }

    // The eight rules across keys.
    pub fn judge_across(self, work: &mut [u64], report: &mut Report<'_>)
        requires room { 2 * self.book.header.keys ≤ length work.old }
        requires found { report.old.found < 2 ^ 57 + 2 ^ 36 }
        ensures reports { Reports report.old (across_rules (book_of self.entry.book.bytes.now)) report.new }
        ensures few { report.new.found ≤ report.old.found + self.entry.book.header.keys * 75172 + 196608 }
    {
        self.judge_first(work, report);
        self.judge_last(work, report);
    }
}
