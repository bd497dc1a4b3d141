// Emits three findings into buffers of 51, 50, 17, 16 and 0 bytes, and prints each time the count, the buffer, and the counts by kind that are not 0.
#![tactic(auto)]

// Prints the bytes in hexadecimal, and a line end.
fn show(bytes: &[u8]) {
    for byte in bytes {
        io::print_hex(1, *byte as u64, 2);
    }
    io::write_all(1, b"\n");
}

// Prints a kind and its count, if that is not 0.
fn show_count(kind: usize, count: u64) {
    if count != 0 {
        io::write_all(1, b" ");
        io::print_decimal(1, kind as u64);
        io::write_all(1, b":");
        io::print_decimal(1, count);
    }
}

// Prints the counts by kind, and a line end.
fn show_counts(counts: &[u64]) {
    io::write_all(1, b"counts");
    for (kind, count) in counts.iter().enumerate() {
        show_count(kind, *count);
    }
    io::write_all(1, b"\n");
}

// Emits the three findings, of which the first two have the least and the greatest numbers, and one whose test fails.
// Not by a report: no kind has the number 255 or 0.
fn emit_three(out: &mut [u8], counts: &mut [u64]) -> usize {
    let n = findings::emit(out, counts, 0, 255, 0xffff_ffff_ffff_ffff, 0);
    let n = findings::emit(out, counts, n, 0, 0, 0xffff_ffff_ffff_ffff);
    let n = findings::emit_if(
        out,
        counts,
        n,
        true,
        1,
        0x0123_4567_89ab_cdef,
        0xfedc_ba98_7654_3210,
    );
    findings::emit_if(out, counts, n, false, 2, 3, 4)
}

// Prints what they leave.
fn run(out: &mut [u8], counts: &mut [u64]) {
    let n = emit_three(out, counts);
    io::print_decimal(1, n as u64);
    io::write_all(1, b"\n");
    show(out);
    show_counts(counts);
}

// The counts go on from run to run; then they have places for the kinds 0 and 1 alone, for none, and for kind 0 at the greatest number.
fn main() {
    let mut counts = [0u64; 256];
    run(&mut [170u8; 51], &mut counts);
    run(&mut [170u8; 50], &mut counts);
    run(&mut [170u8; 17], &mut counts);
    run(&mut [170u8; 16], &mut counts);
    run(&mut [170u8; 0], &mut [0u64; 2]);
    run(&mut [170u8; 0], &mut [0u64; 0]);
    run(&mut [170u8; 0], &mut [0xffff_ffff_ffff_ffff; 1]);
}
