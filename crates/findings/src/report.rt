// A report: where the rules put what they find.

ghost use Rattle.std.specs.Prelude.{◌+◌, ◌^◌, ◌<◌, ◌≤◌, ◌≡◌, [], ◌∷◌};
ghost use Rattle.findings.specs.Findings.{finding, when};

use crate::kind::Kind;

// How many findings there are, the buffer with those that fit whole, and the counts by kind.
#[derive(Drop)]
pub struct Report<'a> {
    pub buffer: &'a mut [u8],
    pub counts: &'a mut [u64],
    pub found: usize,
}

impl<'a> Report<'a> {
    ghost use Rattle.findings.specs.Reports.{Reports, kind_number};

    // Adds one finding.
    pub fn emit(&mut self, kind: Kind, subject: u64, object: u64)
        requires { self.old.found < 2 ^ 63 }
        ensures reports { Reports self.old (finding (kind_number kind) subject object ∷ []) self.new }
        ensures one { self.new.found ≡ self.old.found + 1 }
    {
        self.found = crate::emit(
            self.buffer,
            self.counts,
            self.found,
            kind as u8,
            subject,
            object,
        );
    }

    // The same if `yes` holds; else nothing changes, and nothing is stored: most tests of most rules fail.
    pub fn emit_if(&mut self, yes: bool, kind: Kind, subject: u64, object: u64)
        requires { self.old.found < 2 ^ 63 }
        ensures reports { Reports self.old (when yes (finding (kind_number kind) subject object)) self.new }
        ensures few { self.new.found ≤ self.old.found + 1 }
    {
        if yes {
            self.emit(kind, subject, object);
        }
    }
}
