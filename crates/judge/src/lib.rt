// All rules over an accepted book, in document 01's order.
#![tactic(auto)]

ghost use Rattle.std.specs.Prelude.{◌≡◌, ◌+◌, ◌*◌, ◌^◌, ◌<◌, ◌≤◌, length};
ghost use Rattle.findings.specs.Findings.{Counted};
ghost use Rattle.findings.specs.Reports.{Reports};
ghost use Rattle.book.specs.Book.{book_of};
ghost use Rattle.rules.specs.Rules.{findings_of};

use book::open::Book;
use findings::report::Report;
use known::Known;

mod known;

// All rules: each finding counted by its kind, and in the buffer those that fit.
pub fn judge(book: Book<'_>, work: &mut [u64], report: &mut Report<'_>)
    requires room { 2 * book.header.keys ≤ length work.old }
    requires found { report.old.found < 2 ^ 57 }
    ensures reports { Reports report.old (findings_of (book_of book.entry.bytes.now)) report.new }
    ensures few { report.new.found < report.old.found + 2 ^ 32 }
    ensures counted { Counted report.old.counts.now (findings_of (book_of book.entry.bytes.now)) report.new.counts.now }
{
    let present = keys::judge_keys(book, report);
    let known = Known { book, present };
    known.judge_across(work, report);
}
