// The rule on the types that a btree holds: kind 22.
#![tactic(auto)]

ghost use Rattle.std.specs.Prelude.{◌≡◌, [], ◌+◌, ◌^◌, ◌<◌, ◌≤◌};
ghost use Rattle.findings.specs.Reports.{Reports};
ghost use Rattle.book.specs.Book.{bkey};
ghost use Rattle.types.specs.CheckKeyType.{foreign_type, check_key_type};
ghost use Rattle.types.specs.Steps.{in_mask, allowed_mask};

use book::KeyHead;
use book::names::key_type;
use findings::kind::Kind;
use findings::report::Report;

mod rows;

// The types that a key of every btree may have: the bit of a type is set.
const KEY_TYPES_ANYWHERE: u64 = 1 << key_type::DELETED
    | 1 << key_type::WHITEOUT
    | 1 << key_type::ERROR
    | 1 << key_type::COOKIE
    | 1 << key_type::SET
    | 1 << key_type::TYPE_40;

// The rows of the btrees, in the order of their numbers.
static KEY_TYPES_ALLOWED: [u64; 29] = [
    rows::EXTENTS,
    rows::INODES,
    rows::DIRENTS,
    rows::XATTRS,
    rows::ALLOC,
    rows::QUOTAS,
    rows::STRIPES,
    rows::REFLINK,
    rows::SUBVOLUMES,
    rows::SNAPSHOTS,
    rows::LRU,
    rows::FREESPACE,
    rows::NEED_DISCARD,
    rows::BACKPOINTERS,
    rows::BUCKET_GENS,
    rows::SNAPSHOT_TREES,
    rows::DELETED_INODES,
    rows::LOGGED_OPS,
    rows::RECONCILE_WORK,
    rows::SUBVOLUME_CHILDREN,
    rows::ACCOUNTING,
    rows::RECONCILE_HIPRI,
    rows::RECONCILE_PENDING,
    rows::RECONCILE_SCAN,
    rows::RECONCILE_WORK_PHYS,
    rows::RECONCILE_HIPRI_PHYS,
    rows::BUCKET_TO_STRIPE,
    rows::STRIPE_BACKPOINTERS,
    rows::DAMAGE,
];

// The last type that has a bit.
const LAST_BIT: u8 = 63;

// Whether the bit of a type is set in a mask: no type from 64 on has one.
fn in_mask(mask: u64, key_type: u8) -> bool
    ensures { result ≡ in_mask mask key_type }
{
    if LAST_BIT < key_type {
        return false;
    }
    (mask >> key_type) % 2 == 1
}

// The row of a btree, if it has one.
fn allowed(btree: u8) -> Option<u64>
    ensures { result ≡ allowed_mask btree }
{
    KEY_TYPES_ALLOWED.get(btree as usize).copied()
}

// Whether keys of this btree may not have this type.
fn is_foreign(btree: u8, key_type: u8) -> bool
    ensures { result ≡ foreign_type btree key_type }
{
    match allowed(btree) {
        Some(row) => !in_mask(row | KEY_TYPES_ANYWHERE, key_type),
        None => false,
    }
}

// Kind 22: a key of a type that its btree does not hold.
#[tactic(auto, unfolding(crate::specs::CheckKeyType::check_key_type))]
pub fn check_key_type(h: KeyHead, index: u64, report: &mut Report<'_>)
    requires { report.old.found < 2 ^ 61 }
    ensures reports { Reports report.old (check_key_type index (bkey h [])) report.new }
    ensures few { report.new.found ≤ report.old.found + 1 }
{
    let foreign = is_foreign(h.btree, h.key_type);
    report.emit_if(foreign, Kind::BkeyInvalidTypeForBtree, index, 0);
}
