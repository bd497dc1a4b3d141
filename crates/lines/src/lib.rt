// Lines of a text that is read and written, bytes that stand there in hexadecimal, and findings in words.
#![tactic(auto)]

ghost use Rattle.std.specs.Prelude.{◌≡◌, ◌++◌, ◌+◌, ◌/◌, ◌<◌, ◌≤◌, min, eqb, length, take, drop};
ghost use Rattle.io.specs.Counts.{IsPrefixLen};
ghost use Rattle.lines.specs.Lines.{digit_of, decoded, line_length, mark_of};

// The numbers of standard input and standard output.
pub const STDIN_FILENO: i32 = 0;

pub const STDOUT_FILENO: i32 = 1;

// The value of a hexadecimal digit, and 0 for any other byte.
pub fn digit(b: u8) -> u8
    ensures value { result ≡ digit_of b }
    ensures small { result < 16 }
{
    match b {
        b'0'..=b'9' => b - b'0',
        b'a'..=b'f' => b - b'a' + 10,
        _ => 0,
    }
}

// Puts the bytes that the digits of a line stand for into the buffer, as many as it has room for, and returns how many these are. A digit more is left out.
pub fn decode(digits: &[u8], bytes: &mut [u8]) -> usize
    ensures count { result ≡ min (length digits.now / 2) (length bytes.old) }
    ensures filled { bytes.new ≡ decoded digits.now result ++ drop result bytes.old }
    ensures counts { IsPrefixLen result bytes.new }
{
    let n = bytes.len().min(digits.len() / 2);
    for i in 0..n {
        let high = digit(digits[2 * i]);
        let low = digit(digits[2 * i + 1]);
        bytes[i] = high * 16 + low;
    }
    n
}

// Where the line that starts at byte `from` ends.
pub fn line_end(text: &[u8], from: usize) -> usize
    requires { from ≤ length text.now }
    ensures end { result ≡ from + line_length (drop from text.now) }
    ensures counts { IsPrefixLen result text.now }
{
    match text[from..].iter().position(|b| *b == b'\n') {
        Some(length) => from + length,
        None => text.len(),
    }
}

// The first byte of a line, and 0 for an empty one.
pub fn mark(text: &[u8]) -> u8
    ensures { result ≡ mark_of text.now }
{
    text.first().copied().unwrap_or(0)
}

// Writes a line as it stands if it starts with this byte; returns whether it does. An empty line counts as one that starts with 0.
pub fn echo(text: &[u8], first: u8) -> bool
    ensures { result ≡ eqb (mark_of text.now) first }
{
    let starts = mark(text) == first;
    if starts {
        io::write_all(STDOUT_FILENO, text);
        io::write_all(STDOUT_FILENO, b"\n");
    }
    starts
}

// Reads a line of standard input and its newline, a byte at a time and as far as there is room; returns the number of bytes, which is 0 at the
// end of the input. Nothing is known of the bytes, but that a newline can only be the last; at most one byte past them is changed.
pub fn read_line(line: &mut [u8]) -> usize
    ensures counts { IsPrefixLen result line.new }
    ensures size { length line.new ≡ length line.old }
    ensures one { result ≤ line_length (take result line.new) + 1 }
    ensures rest { drop (result + 1) line.new ≡ drop (result + 1) line.old }
{
    for n in 0..line.len() {
        let next = n + 1;
        if io::read_full(STDIN_FILENO, &mut line[n..next]) < 1 {
            return n;
        }
        if line[n] == b'\n' {
            return next;
        }
    }
    line.len()
}

// Writes a finding: kind, subject and object.
fn write_finding(finding: &[u8; 17]) {
    io::print_decimal(STDOUT_FILENO, bits::byte(finding, 0) as u64);
    io::write_all(STDOUT_FILENO, b" ");
    io::print_decimal(STDOUT_FILENO, bits::be64(finding, 1));
    io::write_all(STDOUT_FILENO, b" ");
    io::print_decimal(STDOUT_FILENO, bits::be64(finding, 9));
}

// Writes the first `count` findings of a buffer, or those that it holds whole, each behind these bytes; returns how many it wrote.
pub fn write_findings(out: &[u8], count: usize, before: &[u8]) -> usize
    ensures { result ≡ min count (length out.now / 17) }
{
    let (whole, _) = out.as_chunks::<17>();
    let shown = &whole[..count.min(whole.len())];
    for finding in shown {
        io::write_all(STDOUT_FILENO, before);
        write_finding(finding);
    }
    shown.len()
}

// Writes `findings` and the count, then a line for each of the first `count` findings that the buffer holds whole; returns how many these are.
pub fn show_findings(out: &[u8], count: usize) -> usize
    ensures { result ≡ min count (length out.now / 17) }
{
    io::write_all(STDOUT_FILENO, b"findings ");
    io::print_decimal(STDOUT_FILENO, count as u64);
    let written = write_findings(out, count, b"\n");
    io::write_all(STDOUT_FILENO, b"\n");
    written
}
