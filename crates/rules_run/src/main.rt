// Judges the lines of standard input, rule by rule, and writes what is found.
//
// A line that starts with `=` names what judges the lines after it, by the letter at its byte 2:
//   r  a book: `accepted`, if it is; so too for a letter that is not here
//   f  a key of device 0: `check_key_device`, `check_key_type`, `check_key_fields`
//   w  a key: `check_state_words`
//   d  a book: `subvolume_states`, `snapshot_claims`, `snapshot_states`; then `unavailable` and those of the ids 0, 1, 2 and 4,294,967,295 that are
//   s  a book: `snapshot_subvol_flags`, `subvolume_children`
//   l  a book: `snapshot_links`
//   b  a book: `bucket_gens_against_alloc`, `free_space`
// Such a line, and one that starts with `#`, is written as it stands. A line `version 1062` sets the version for the keys after it. Any other
// line is a book in hexadecimal, or a key, its head's 28 bytes and then its value, whose index is the line's number since the last `=`, counted from 0.
// Each rule is answered by `findings COUNT` and a line `KIND SUBJECT OBJECT` for each finding; a refused book by `refused NUMBER PLACE`, a book
// of more keys than the work words are lent for by `more than 128 keys`, and fewer bytes than a head has by `no key`.
#![tactic(auto)]

ghost use Rattle.std.specs.Prelude.{◌≡◌, ◌*◌, ◌≤◌, length};

use book::open::Book;
use findings::report::Report;
use lines::STDOUT_FILENO;
use states::Version;

// What judges a line, the number of the line, and the version for state words.
#[derive(Clone, Copy, Default)]
struct Section {
    letter: u8,
    line: u64,
    version: u16,
}

// Writes what a report holds, and empties it.
fn show_report(report: &mut Report<'_>)
    ensures { report.new.found ≡ 0 }
{
    let found = report.found;
    lines::show_findings(report.buffer, found);
    report.found = 0;
}

// Writes what is found in the key of these bytes.
fn judge_key(bytes: &[u8], s: Section)
    requires { (28 ≤ length bytes.now) × (length bytes.now ≤ 1048576) }
{
    let head = book::key_head(bytes, 0);
    let value = &bytes[28..];
    let mut out = io::buffer();
    let mut counts = [0u64; 0];
    let mut report = Report {
        buffer: &mut out,
        counts: &mut counts,
        found: 0,
    };
    if s.letter == b'w' {
        states::check_state_words(Version(s.version), head, value, s.line, &mut report);
        show_report(&mut report);
        return;
    }
    fields::check_key_device(head, 0, s.line, &mut report);
    show_report(&mut report);
    types::check_key_type(head, s.line, &mut report);
    show_report(&mut report);
    fields::check_key_fields(head, value, s.line, &mut report);
    show_report(&mut report);
}

// Writes an id, if it is unavailable.
fn ask(book: Book<'_>, id: u32) {
    if subvolumes::is_unavailable(book, id) {
        io::write_all(STDOUT_FILENO, b" ");
        io::print_decimal(STDOUT_FILENO, id as u64);
    }
}

// Writes the ids that are unavailable.
fn ask_all(book: Book<'_>) {
    io::write_all(STDOUT_FILENO, b"unavailable");
    for id in [0, 1, 2, 0xffff_ffff] {
        ask(book, id);
    }
    io::write_all(STDOUT_FILENO, b"\n");
}

// Subvolumes that are unlinked or deleted, claims, and states of snapshots; then the ids that are unavailable.
fn judge_deletions(book: Book<'_>, work: &mut [u64], report: &mut Report<'_>)
    requires { (2 * book.header.keys ≤ length work.old) × (report.old.found ≡ 0) }
{
    subvolumes::subvolume_states(book, work, report);
    show_report(report);
    claims::snapshot_claims(book, work, report);
    show_report(report);
    deletions::snapshot_states(book, work, report);
    show_report(report);
    ask_all(book);
}

// Flags of snapshots, and children of subvolumes.
fn judge_snapshots(book: Book<'_>, work: &mut [u64], report: &mut Report<'_>)
    requires { (2 * book.header.keys ≤ length work.old) × (report.old.found ≡ 0) }
{
    snapshots::snapshot_subvol_flags(book, report);
    show_report(report);
    children::subvolume_children(book, work, report);
    show_report(report);
}

// Links between snapshots and trees.
fn judge_links(book: Book<'_>, work: &mut [u64], report: &mut Report<'_>)
    requires { (2 * book.header.keys ≤ length work.old) × (report.old.found ≡ 0) }
{
    links::snapshot_links(book, work, report);
    show_report(report);
}

// Generations, and free space.
fn judge_buckets(book: Book<'_>, work: &mut [u64], report: &mut Report<'_>)
    requires { (2 * book.header.keys ≤ length work.old) × (report.old.found ≡ 0) }
{
    gens::bucket_gens_against_alloc(book, work, report);
    show_report(report);
    buckets::free_space(book, work, report);
    show_report(report);
}

// Judges an accepted book by rules. Each is lent the work words as the one before leaves them.
fn judge_rules(book: Book<'_>, letter: u8) {
    if 128 < book.header.keys {
        io::write_all(STDOUT_FILENO, b"more than 128 keys\n");
        return;
    }
    let mut out = io::buffer();
    let mut counts = [0u64; 0];
    let mut work = [0u64; 256];
    let mut report = Report {
        buffer: &mut out,
        counts: &mut counts,
        found: 0,
    };
    match letter {
        b'd' => judge_deletions(book, &mut work, &mut report),
        b's' => judge_snapshots(book, &mut work, &mut report),
        b'l' => judge_links(book, &mut work, &mut report),
        _ => judge_buckets(book, &mut work, &mut report),
    }
}

// Judges an accepted book, or says that it is one.
fn judge_accepted(book: Book<'_>, letter: u8) {
    match letter {
        b'd' | b's' | b'l' | b'b' => judge_rules(book, letter),
        _ => {
            io::write_all(STDOUT_FILENO, b"accepted\n");
        }
    }
}

// Judges the book that these bytes are, if it is accepted.
fn judge_book(bytes: &[u8], letter: u8) {
    match scan::scan(bytes) {
        Ok(book) => judge_accepted(book, letter),
        Err(refusal) => {
            let _ = report::refused(refusal.number, refusal.place);
        }
    }
}

// Judges a line in hexadecimal.
fn judge(text: &[u8], s: Section) {
    let mut space = io::large_buffer();
    let n = lines::decode(text, &mut space);
    if (s.letter != b'f') & (s.letter != b'w') {
        judge_book(&space[..n], s.letter);
        return;
    }
    if n < 28 {
        io::write_all(STDOUT_FILENO, b"no key\n");
        return;
    }
    judge_key(&space[..n], s);
}

// The number that the decimal digits after `version ` make, its low 16 bits.
fn number(text: &[u8]) -> u16 {
    let mut x: u16 = 0;
    for at in 8..text.len() {
        x = x
            .wrapping_mul(10)
            .wrapping_add(lines::digit(text[at]) as u16);
    }
    x
}

// The letter after `= `, and 0 if there is none.
fn letter(text: &[u8]) -> u8 {
    text.get(2).copied().unwrap_or(0)
}

// Shows a line that is no `=`; returns the version for the lines after it.
fn show(text: &[u8], s: Section) -> u16 {
    if lines::echo(text, b'#') {
        return s.version;
    }
    if lines::mark(text) == b'v' {
        return number(text);
    }
    judge(text, s);
    s.version
}

// Shows a line; returns what judges the next.
fn step(text: &[u8], s: Section) -> Section {
    if lines::echo(text, b'=') {
        return Section {
            letter: letter(text),
            line: 0,
            version: s.version,
        };
    }
    Section {
        letter: s.letter,
        line: s.line.wrapping_add(1),
        version: show(text, s),
    }
}

// The same for a line that may end in a newline.
fn show_line(text: &[u8], s: Section) -> Section {
    let end = lines::line_end(text, 0);
    step(&text[..end], s)
}

// Each line of the input, in a buffer for one. A proved loop has to end: its turns are more than any input uses up.
fn show_lines(line: &mut [u8]) {
    let mut s = Section::default();
    for _ in 0..u64::MAX {
        let n = lines::read_line(line);
        if n == 0 {
            return;
        }
        s = show_line(&line[..n], s);
    }
}

fn main() {
    let mut line = io::large_buffer();
    show_lines(&mut line);
}
