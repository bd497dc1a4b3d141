// The findings buffer. Finding number n stands at byte 17 * n; one that does not fit whole is counted and not written.
#![tactic(auto)]

ghost use Rattle.std.specs.Prelude.{◌≡◌, ◌+◌, ◌^◌, ◌<◌, ◌≤◌, [], ◌∷◌, length};
ghost use Rattle.std.proofs.lemmas.List.Edits.{sets};
ghost use Rattle.findings.specs.Findings.{finding, bytes_of, put, start, when, bump, sink, Added};

pub mod kind;
pub mod report;

// Where finding number n begins in a buffer of len bytes: the part of the buffer that is left for it and those after it.
pub fn start_of(len: usize, n: usize) -> usize
    ensures { result ≡ start len n }
{
    if n <= len / 17 { 17 * n } else { len }
}

// Writes x in eight bytes from byte `at` on, the most significant first.
fn put_word(out: &mut [u8], at: usize, x: u64)
    requires { at + 8 ≤ length out.old }
    ensures { out.new ≡ sets out.old at (bytes_of 8 x) }
{
    out[at] = (x / 0x0100_0000_0000_0000 % 256) as u8;
    out[at + 1] = (x / 0x0001_0000_0000_0000 % 256) as u8;
    out[at + 2] = (x / 0x0000_0100_0000_0000 % 256) as u8;
    out[at + 3] = (x / 0x0000_0001_0000_0000 % 256) as u8;
    out[at + 4] = (x / 0x0000_0000_0100_0000 % 256) as u8;
    out[at + 5] = (x / 0x0000_0000_0001_0000 % 256) as u8;
    out[at + 6] = (x / 0x0000_0000_0000_0100 % 256) as u8;
    out[at + 7] = (x / 1 % 256) as u8;
}

// Writes one finding at the front, if it fits whole.
fn put_first(out: &mut [u8], kind: u8, subject: u64, object: u64)
    ensures { out.new ≡ put out.old (finding kind subject object ∷ []) }
{
    if out.len() < 17 {
        return;
    }
    out[0] = kind;
    put_word(out, 1, subject);
    put_word(out, 9, object);
}

// Some more of this kind, where the counts have a place for it.
pub fn count(counts: &mut [u64], kind: u8, more: u64)
    ensures { counts.new ≡ bump counts.old kind more }
{
    let k = kind as usize;
    if k < counts.len() {
        counts[k] = std::num::wrapping_add_u64(counts[k], more);
    }
}

// Writes finding number n, if it fits whole, counts it, and returns the count of all with it.
pub fn emit(
    out: &mut [u8],
    counts: &mut [u64],
    n: usize,
    kind: u8,
    subject: u64,
    object: u64,
) -> usize
    requires { n < 2 ^ 63 }
    ensures { Added (sink out.old counts.old) n (finding kind subject object ∷ []) result (sink out.new counts.new) }
{
    let at = start_of(out.len(), n);
    put_first(&mut out[at..], kind, subject, object);
    count(counts, kind, 1);
    n + 1
}

// The same if `yes` holds; else it writes nothing and returns n.
pub fn emit_if(
    out: &mut [u8],
    counts: &mut [u64],
    n: usize,
    yes: bool,
    kind: u8,
    subject: u64,
    object: u64,
) -> usize
    requires { n < 2 ^ 63 }
    ensures added { Added (sink out.old counts.old) n (when yes (finding kind subject object)) result (sink out.new counts.new) }
    ensures few { result ≤ n + 1 }
{
    if yes {
        return emit(out, counts, n, kind, subject, object);
    }
    n
}
