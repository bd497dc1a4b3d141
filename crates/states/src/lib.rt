// The rule on state words.
#![tactic(auto)]

ghost use Rattle.std.specs.Prelude.{◌≡◌, ◌+◌, ◌^◌, ◌<◌, ◌≤◌};
ghost use Rattle.findings.specs.Reports.{Reports};
ghost use Rattle.book.specs.Book.{bkey};
ghost use Rattle.states.specs.StateDistance.{distance, nearer, state_distance};
ghost use Rattle.states.specs.CheckStateWords.{state_required, check_state_words};

use book::KeyHead;
use book::names::{btree_id, key_type};
use findings::kind::Kind;
use findings::report::Report;

// A format version: six bits major above ten bits minor, compared as one number.
#[derive(Clone, Copy, PartialEq, Eq, PartialOrd, Ord)]
pub struct Version(pub u16);

// Version 1.39: from here on states must be set.
const STATE_REQUIRED_FROM: Version = Version((1 << 10) | 39);

// Where the state and pad words of values stand.
pub const SUBVOL_STATE: usize = 40;

const SUBVOL_PAD: usize = 44;

pub const SNAP_STATE: usize = 56;

// The state words of subvolumes.
pub const SUBVOL_LIVE: u32 = 0x4ad5_447e;

pub const SUBVOL_UNLINKED: u32 = 0x2d35_8e8f;

pub const SUBVOL_DELETED: u32 = 0x3c6b_2d4c;

const SUBVOL_STATES: [u32; 3] = [SUBVOL_LIVE, SUBVOL_UNLINKED, SUBVOL_DELETED];

// The state words of snapshots.
pub const SNAP_LIVE: u32 = 0x757c_47a2;

pub const SNAP_WILL_DELETE: u32 = 0x3316_a8d2;

pub const SNAP_NO_KEYS: u32 = 0x372b_5a01;

pub const SNAP_DELETED: u32 = 0x7cd4_a225;

const SNAP_STATES: [u32; 4] = [SNAP_LIVE, SNAP_WILL_DELETE, SNAP_NO_KEYS, SNAP_DELETED];

// Whether states must be set at a version.
#[tactic(auto, unfolding(crate::specs::CheckStateWords::state_required))]
fn state_required(version: Version) -> bool
    ensures { result ≡ state_required version.0 }
{
    STATE_REQUIRED_FROM <= version
}

// How many bits of two words differ.
pub fn bits_apart(x: u32, y: u32) -> u32
    ensures { result ≡ distance x y }
{
    u32::count_ones(x ^ y)
}

// A state word, and how many bits a word is from it.
#[derive(Clone, Copy)]
pub struct Nearest {
    pub distance: u32,
    pub state: u32,
}

// The nearer of two, the first of equals.
fn nearer(a: Nearest, b: Nearest) -> Nearest
    ensures { result ≡ nearer a b }
{
    if a.distance <= b.distance {
        return a;
    }
    b
}

// The nearest of these states to a word, the first listed of equals, and the bits that it is away.
// No Option: 32 and 0 stand for no state, as the definition of the distance says.
pub fn state_distance(word: u32, states: &[u32]) -> Nearest
    ensures { result ≡ state_distance word states.now }
{
    let none = Nearest {
        distance: 32,
        state: 0,
    };
    states.iter().rev().fold(none, |nearest, &state| {
        let distance = bits_apart(word, state);
        nearer(Nearest { distance, state }, nearest)
    })
}

// The value of a key to be judged: the version of its book, its bytes, and the key's index.
#[derive(Clone, Copy)]
struct Judged<'a> {
    version: Version,
    value: &'a [u8],
    index: u64,
}

impl<'a> Judged<'a> {
    ghost use Rattle.std.specs.Prelude.{◌≡◌, ◌&&◌, ◌+◌, ◌^◌, ◌<◌, ◌≤◌};
    ghost use Rattle.findings.specs.Findings.{finding, when};
    ghost use Rattle.findings.specs.Reports.{Reports};
    ghost use Rattle.states.specs.Steps.{word_or_zero};
    ghost use Rattle.states.specs.CheckStateWords.{
      state_required,
      snapshot_state,
      subvol_state_unset,
      subvolume_word,
      subvolume_state,
    };

    // The word at byte `at` of the value, or 0 where the value ends before it does.
    fn word_or_zero(&self, at: usize) -> u32
        requires { at < 2 ^ 32 }
        ensures { result ≡ word_or_zero self.now.value.now at }
    {
        if at + 4 <= self.value.len() {
            return bits::le32(self.value, at);
        }
        0
    }

    // The findings of a snapshot's state word.
    fn check_snapshot_state(&self, report: &mut Report<'_>)
        requires { report.old.found < 2 ^ 62 }
        ensures reports { Reports report.old (snapshot_state self.now.version.0 self.now.index self.now.value.now) report.new }
        ensures few { report.new.found ≤ report.old.found + 2 }
    {
        let word = self.word_or_zero(SNAP_STATE);
        let nearest = state_distance(word, &SNAP_STATES);
        let d = nearest.distance;
        let flipped = nearest.state as u64;
        let near = (0 < d) & (d <= 2);
        report.emit_if(near, Kind::SnapshotStateBitflip, self.index, flipped);
        let bad = (2 < d) & state_required(self.version);
        report.emit_if(bad, Kind::SnapshotStateBad, self.index, 0);
    }

    // The finding of a subvolume's state that is not set, for versions where it must be.
    fn check_subvolume_state(&self, report: &mut Report<'_>)
        requires { report.old.found < 2 ^ 62 }
        ensures reports { Reports report.old (when (state_required self.now.version.0 && subvol_state_unset self.now.value.now) (finding 25 self.now.index 0)) report.new }
        ensures few { report.new.found ≤ report.old.found + 1 }
    {
        let word = self.word_or_zero(SUBVOL_STATE);
        let required = state_required(self.version);
        let unset = (16 <= self.value.len()) & (word == 0);
        report.emit_if(required & unset, Kind::SubvolStateBad, self.index, 0);
    }

    // The findings of a subvolume's state word.
    fn check_subvolume_word(&self, word: u32, report: &mut Report<'_>)
        requires { report.old.found < 2 ^ 62 }
        ensures reports { Reports report.old (subvolume_word self.now.version.0 self.now.index word) report.new }
        ensures few { report.new.found ≤ report.old.found + 3 }
    {
        if word == 0 {
            return;
        }
        let nearest = state_distance(word, &SUBVOL_STATES);
        let d = nearest.distance;
        let state = nearest.state as u64;
        let near = (0 < d) & (d <= 2);
        report.emit_if(near, Kind::SubvolStateBitflip, self.index, state);
        report.emit_if(6 < d, Kind::SubvolStateInvalid, self.index, 0);
        let bad = ((2 < d) & (d <= 6)) & state_required(self.version);
        report.emit_if(bad, Kind::SubvolStateBad, self.index, 0);
    }

    // The findings of a subvolume's state and pad words.
    fn check_subvolume(&self, report: &mut Report<'_>)
        requires { report.old.found < 2 ^ 61 }
        ensures reports { Reports report.old (subvolume_state self.now.version.0 self.now.index self.now.value.now) report.new }
        ensures few { report.new.found ≤ report.old.found + 5 }
    {
        self.check_subvolume_state(report);
        self.check_subvolume_word(self.word_or_zero(SUBVOL_STATE), report);
        let pad = self.word_or_zero(SUBVOL_PAD);
        report.emit_if(pad != 0, Kind::SubvolPadNonzero, self.index, 0);
    }
}

// The findings of the state and pad words of a key: of a snapshot's state, and of a subvolume's state and pad.
pub fn check_state_words(
    version: Version,
    head: KeyHead,
    value: &[u8],
    index: u64,
    report: &mut Report<'_>,
)
    requires { report.old.found < 2 ^ 61 }
    ensures reports { Reports report.old (check_state_words version.0 index (bkey head value.now)) report.new }
    ensures few { report.new.found ≤ report.old.found + 5 }
{
    let key = Judged {
        version,
        value,
        index,
    };
    match (head.btree, head.key_type) {
        (btree_id::SNAPSHOTS, key_type::SNAPSHOT) if 24 <= value.len() => {
            key.check_snapshot_state(report)
        }
        (btree_id::SUBVOLUMES, key_type::SUBVOLUME) => key.check_subvolume(report),
        _ => {}
    }
}
