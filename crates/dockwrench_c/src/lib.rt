// The C entries: the main call and the two questions. Each calls the function of its name in `dockwrench`, and promises what that does.
#![tactic(auto)]

ghost use Rattle.std.specs.Prelude.{◌≡◌, length};
ghost use Rattle.book.specs.Refusals.{parse};
ghost use Rattle.dockwrench.specs.Answers.{
  check_of,
  buffer_after,
  work_after,
  checked_answer,
  ancestor_of,
  availability_of,
  ancestor_answer,
  availability_answer,
  packed,
  unpacked,
};
ghost use Rattle.dockwrench.specs.Claim.{Claim};

// The main call for C.
#[unsafe(no_mangle)]
pub extern "C" fn dockwrench_check(book: &[u8], findings: &mut [u8], work: &mut [u64]) -> u64
    ensures answer { result ≡ packed (checked_answer (check_of (parse book.now) (length findings.old) (length work.old))) }
    ensures apart { unpacked result ≡ checked_answer (check_of (parse book.now) (length findings.old) (length work.old)) }
    ensures buffer { findings.new ≡ buffer_after (parse book.now) (length work.old) findings.old }
    ensures work { work.new ≡ work_after (parse book.now) work.old }
    ensures claim { Claim book.now (unpacked result) findings.new }
{
    dockwrench::dockwrench_check(book, findings, work)
}

// The ancestor question for C.
#[unsafe(no_mangle)]
pub extern "C" fn dockwrench_ancestor(book: &[u8], id: u32) -> u64
    ensures answer { result ≡ packed (ancestor_answer (ancestor_of (parse book.now) id)) }
    ensures apart { unpacked result ≡ ancestor_answer (ancestor_of (parse book.now) id) }
{
    dockwrench::dockwrench_ancestor(book, id)
}

// The availability question for C.
#[unsafe(no_mangle)]
pub extern "C" fn dockwrench_unavailable(book: &[u8], id: u32) -> u64
    ensures answer { result ≡ packed (availability_answer (availability_of (parse book.now) id)) }
    ensures apart { unpacked result ≡ availability_answer (availability_of (parse book.now) id) }
{
    dockwrench::dockwrench_unavailable(book, id)
}
