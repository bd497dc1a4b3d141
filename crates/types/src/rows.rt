// KEY_TYPES_ALLOWED: a row for each btree, with the bits of the types that its keys may have beside those of
// KEY_TYPES_ANYWHERE. An empty row is a row.
use book::names::key_type;

pub const EXTENTS: u64 = 1 << key_type::EXTENT
    | 1 << key_type::RESERVATION
    | 1 << key_type::REFLINK_P
    | 1 << key_type::INLINE_DATA
    | 1 << key_type::EXTENT_WHITEOUT;

pub const INODES: u64 = 1 << key_type::INODE
    | 1 << key_type::INODE_GENERATION
    | 1 << key_type::INODE_V2
    | 1 << key_type::INODE_V3;

pub const DIRENTS: u64 = 1 << key_type::HASH_WHITEOUT | 1 << key_type::DIRENT;

pub const XATTRS: u64 = 1 << key_type::HASH_WHITEOUT | 1 << key_type::XATTR;

pub const ALLOC: u64 = 1 << key_type::ALLOC
    | 1 << key_type::ALLOC_V2
    | 1 << key_type::ALLOC_V3
    | 1 << key_type::ALLOC_V4;

pub const QUOTAS: u64 = 1 << key_type::QUOTA;

pub const STRIPES: u64 = 1 << key_type::STRIPE;

pub const REFLINK: u64 = 1 << key_type::REFLINK_V | 1 << key_type::INDIRECT_INLINE_DATA;

pub const SUBVOLUMES: u64 = 1 << key_type::SUBVOLUME;

pub const SNAPSHOTS: u64 = 1 << key_type::SNAPSHOT;

pub const LRU: u64 = 0;

pub const FREESPACE: u64 = 0;

pub const NEED_DISCARD: u64 = 0;

pub const BACKPOINTERS: u64 = 1 << key_type::BACKPOINTER;

pub const BUCKET_GENS: u64 = 1 << key_type::BUCKET_GENS;

pub const SNAPSHOT_TREES: u64 = 1 << key_type::SNAPSHOT_TREE;

pub const DELETED_INODES: u64 = 0;

pub const LOGGED_OPS: u64 = 1 << key_type::LOGGED_OP_TRUNCATE
    | 1 << key_type::LOGGED_OP_FINSERT
    | 1 << key_type::INODE_ALLOC_CURSOR
    | 1 << key_type::TYPE_37
    | 1 << key_type::TYPE_39;

pub const RECONCILE_WORK: u64 = 0;

pub const SUBVOLUME_CHILDREN: u64 = 0;

pub const ACCOUNTING: u64 = 1 << key_type::ACCOUNTING;

pub const RECONCILE_HIPRI: u64 = 0;

pub const RECONCILE_PENDING: u64 = 0;

pub const RECONCILE_SCAN: u64 = 1 << key_type::BACKPOINTER;

pub const RECONCILE_WORK_PHYS: u64 = 0;

pub const RECONCILE_HIPRI_PHYS: u64 = 0;

pub const BUCKET_TO_STRIPE: u64 = 0;

pub const STRIPE_BACKPOINTERS: u64 = 1 << key_type::BACKPOINTER;

pub const DAMAGE: u64 = 1 << key_type::TYPE_38;
