// What a read gave, by its answer; and answers of the main call, in words on standard output.
#![tactic(auto)]

ghost use Rattle.std.specs.Prelude.{◌≡◌, length, Err};
ghost use Rattle.book.specs.Refusals.{parse, refusal};
ghost use Rattle.dockwrench.specs.Answers.{check_of, buffer_after, work_after};
ghost use Rattle.report.specs.Reading.{gave_of};

use book::refusal::{Reason, Refusal};
use dockwrench::Checked;
use lines::STDOUT_FILENO;

// A read failed.
#[derive(Clone, Copy)]
pub struct ReadError;

// How many bytes a call of C's read into this buffer gave, by its answer. 0 bytes are the end of the input, and an error is not.
pub fn gave(answer: isize, buffer: &[u8]) -> Result<usize, ReadError>
    ensures { result ≡ gave_of answer (length buffer.now) }
{
    if answer < 0 {
        return Err(ReadError);
    }
    Ok(io::count(answer, buffer))
}

// Writes `refused`, a refusal's number and its place.
fn write_refused(number: usize, place: usize) {
    io::write_all(STDOUT_FILENO, b"refused ");
    io::print_decimal(STDOUT_FILENO, number as u64);
    io::write_all(STDOUT_FILENO, b" ");
    io::print_decimal(STDOUT_FILENO, place as u64);
    io::write_all(STDOUT_FILENO, b"\n");
}

// The refusal of this number at this place, which is also written.
pub fn refused(number: usize, place: usize) -> Result<Checked, Refusal>
    ensures { result ≡ Err (refusal number place) }
{
    write_refused(number, place);
    Err(Refusal { number, place })
}

// Writes an answer of the main call, which left its findings in the buffer.
fn show(answer: Result<Checked, Refusal>, findings: &[u8]) {
    match answer {
        Ok(Checked::Found(count)) => {
            lines::show_findings(findings, count);
        }
        Ok(Checked::NoRoom(_)) => write_refused(Reason::FindingsExceed as usize, 0),
        Err(refusal) => write_refused(refusal.number, refusal.place),
    }
}

// The main call, whose answer is also written.
pub fn list(book: &[u8], findings: &mut [u8], work: &mut [u64]) -> Result<Checked, Refusal>
    ensures answer { result ≡ check_of (parse book.now) (length findings.old) (length work.old) }
    ensures buffer { findings.new ≡ buffer_after (parse book.now) (length work.old) findings.old }
    ensures work { work.new ≡ work_after (parse book.now) work.old }
{
    let answer = dockwrench::check(book, findings, work);
    show(answer, findings);
    answer
}
