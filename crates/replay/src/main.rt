// Makes the main call and both questions over the books that stand in the lines of standard input, in hexadecimal: 4 bytes with the room,
// the number of bytes lent for findings; 4 with the number of work words lent; 4 with the id to ask; then the book. Each line is answered by
// `NUMBER PLACE COUNT | NUMBER ROOT LINKS | NUMBER YES`, and ` | KIND SUBJECT OBJECT` for each finding that the room holds whole. A line
// that starts with `#` is a heading, and is written as it stands. A line without the 12 bytes, or with more than 65,535 bytes or 4,678 words to
// lend, is answered by `bad line`. A line of more than 65,535 bytes is read as several.
#![tactic(auto)]

use book::refusal::{Reason, Refusal};
use dockwrench::{Availability, Checked, Root};
use lines::STDOUT_FILENO;

// Writes two numbers.
fn write_two(first: usize, second: usize) {
    io::print_decimal(STDOUT_FILENO, first as u64);
    io::write_all(STDOUT_FILENO, b" ");
    io::print_decimal(STDOUT_FILENO, second as u64);
}

// Writes three numbers.
fn write_three(first: usize, second: usize, third: usize) {
    write_two(first, second);
    io::write_all(STDOUT_FILENO, b" ");
    io::print_decimal(STDOUT_FILENO, third as u64);
}

// Writes the bar between two parts of a line.
fn write_bar() {
    io::write_all(STDOUT_FILENO, b" | ");
}

// Writes the main call's answer: number, place and count. Returns the count.
fn write_checked(answer: Result<Checked, Refusal>) -> usize {
    match answer {
        Ok(Checked::Found(count)) => {
            write_three(0, 0, count);
            count
        }
        Ok(Checked::NoRoom(count)) => {
            write_three(Reason::FindingsExceed as usize, 0, count);
            count
        }
        Err(refusal) => {
            write_three(refusal.number, refusal.place, 0);
            0
        }
    }
}

// Writes the ancestor question's answer: number, root and links, or number, place and 0.
fn write_ancestor(answer: Result<Option<Root>, Refusal>) {
    match answer {
        Ok(Some(found)) => write_three(0, found.root as usize, found.links as usize),
        Ok(None) => write_three(Reason::NoRoot as usize, 0, 0),
        Err(refusal) => write_three(refusal.number, refusal.place, 0),
    }
}

// Writes the availability question's answer: 0, and 1 for an unavailable id; or number and place.
fn write_availability(answer: Result<Availability, Refusal>) {
    match answer {
        Ok(Availability::Unavailable) => write_two(0, 1),
        Ok(Availability::Available) => write_two(0, 0),
        Err(refusal) => write_two(refusal.number, refusal.place),
    }
}

// Writes what answers a line that can't be replayed.
fn write_bad() {
    io::write_all(STDOUT_FILENO, b"bad line\n");
}

// Both questions.
fn ask(book: &[u8], id: u32) {
    write_bar();
    let ancestor = dockwrench::ask_ancestor(book, id);
    write_ancestor(ancestor);
    write_bar();
    let availability = dockwrench::ask_available(book, id);
    write_availability(availability);
}

// The main call and both questions, in a line.
fn replay(book: &[u8], findings: &mut [u8], work: &mut [u64], id: u32) {
    let answer = dockwrench::check(book, findings, work);
    let count = write_checked(answer);
    ask(book, id);
    lines::write_findings(findings, count, b" | ");
    io::write_all(STDOUT_FILENO, b"\n");
}

// Lends so many bytes for findings and so many work words, all zero, if there are as many.
fn lend(book: &[u8], room: usize, words: usize, id: u32) {
    if 65535 < room {
        write_bad();
        return;
    }
    if 4678 < words {
        write_bad();
        return;
    }
    let mut findings = [0u8; 65535];
    let mut work = [0u64; 4678];
    replay(book, &mut findings[..room], &mut work[..words], id);
}

// The bytes of a line: room, words, id and book.
fn show_bytes(bytes: &[u8]) {
    if bytes.len() < 12 {
        write_bad();
        return;
    }
    let room = bits::be32(bytes, 0) as usize;
    let words = bits::be32(bytes, 4) as usize;
    let id = bits::be32(bytes, 8);
    lend(&bytes[12..], room, words, id);
}

// A heading, or bytes in hexadecimal.
fn show(text: &[u8]) {
    if lines::echo(text, b'#') {
        return;
    }
    let mut space = io::large_buffer();
    let n = lines::decode(text, &mut space);
    show_bytes(&space[..n]);
}

// A line that may end in a newline.
fn show_line(text: &[u8]) {
    let end = lines::line_end(text, 0);
    show(&text[..end]);
}

// Reads a line and shows it; returns whether there was one.
fn show_next(line: &mut [u8]) -> bool {
    let n = lines::read_line(line);
    if n == 0 {
        return false;
    }
    show_line(&line[..n]);
    true
}

// Each line of the input, in a buffer for one. A proved loop has to end: it has more turns than any input uses up.
fn show_lines(line: &mut [u8]) {
    for _ in 0..u64::MAX {
        if !show_next(line) {
            return;
        }
    }
}

fn main() {
    let mut line = io::large_buffer();
    show_lines(&mut line);
}
