// Reads a book of at most 65,536 bytes from standard input and writes `findings` and the count, then a line of kind, subject and object for
// each finding; or `refused`, the refusal's number and its place. Longer input is written as `refused 1 0`, and input that can't be read as `not read`.
#![tactic(auto)]

ghost use Rattle.std.specs.Prelude.{IfOk};
ghost use Rattle.io.specs.Counts.{IsPrefixLen};

use book::refusal::Reason;
use lines::STDOUT_FILENO;
use report::ReadError;
use std::io::{Read, Stdin};

// What a read answered, as C's read answers: so many bytes, or -1 for an error.
fn answer_of(read: std::io::Result<usize>) -> isize {
    match read {
        Ok(n) => isize::try_from(n).unwrap_or(isize::MAX),
        Err(_) => -1,
    }
}

// Reads standard input to its end, as far as there is room, unless a read fails. Nothing is known of the bytes.
fn read_book(input: &mut Stdin, buffer: &mut [u8]) -> Result<usize, ReadError>
    ensures { IfOk result (λ n. IsPrefixLen n buffer.new) }
{
    let mut n: usize = 0;
    while n < buffer.len() {
        let answer = answer_of(input.read(&mut buffer[n..]));
        let more = report::gave(answer, &buffer[n..])?;
        if more == 0 {
            return Ok(n);
        }
        n += more;
    }
    Ok(n)
}

// Writes what the main call answers, and refusal 1 for more than 65,536 bytes.
fn judge(book: &[u8]) {
    if 65536 < book.len() {
        let _ = report::refused(Reason::BookLong as usize, 0);
        return;
    }
    let mut findings = [0u8; 65535];
    let mut work = [0u64; 4678];
    let _ = report::list(book, &mut findings, &mut work);
}

fn main(rt: HostRuntime) {
    // a byte more than is judged
    let mut buffer = [0u8; 65537];
    match read_book(&mut rt.stdin(), &mut buffer) {
        Ok(n) => judge(&buffer[..n]),
        Err(_) => {
            io::write_all(STDOUT_FILENO, b"not read\n");
        }
    }
}
