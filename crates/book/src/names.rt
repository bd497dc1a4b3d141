// The numbers of btrees and of key types, one name each: the Rust's, or where it has none that of Linux's header.
// Neither names the types 37 to 40.

pub mod btree_id {
    pub const EXTENTS: u8 = 0;

    pub const INODES: u8 = 1;

    pub const DIRENTS: u8 = 2;

    pub const XATTRS: u8 = 3;

    pub const ALLOC: u8 = 4;

    pub const QUOTAS: u8 = 5;

    pub const STRIPES: u8 = 6;

    pub const REFLINK: u8 = 7;

    pub const SUBVOLUMES: u8 = 8;

    pub const SNAPSHOTS: u8 = 9;

    pub const LRU: u8 = 10;

    pub const FREESPACE: u8 = 11;

    pub const NEED_DISCARD: u8 = 12;

    pub const BACKPOINTERS: u8 = 13;

    pub const BUCKET_GENS: u8 = 14;

    pub const SNAPSHOT_TREES: u8 = 15;

    pub const DELETED_INODES: u8 = 16;

    pub const LOGGED_OPS: u8 = 17;

    pub const RECONCILE_WORK: u8 = 18;

    pub const SUBVOLUME_CHILDREN: u8 = 19;

    pub const ACCOUNTING: u8 = 20;

    pub const RECONCILE_HIPRI: u8 = 21;

    pub const RECONCILE_PENDING: u8 = 22;

    pub const RECONCILE_SCAN: u8 = 23;

    pub const RECONCILE_WORK_PHYS: u8 = 24;

    pub const RECONCILE_HIPRI_PHYS: u8 = 25;

    pub const BUCKET_TO_STRIPE: u8 = 26;

    pub const STRIPE_BACKPOINTERS: u8 = 27;

    pub const DAMAGE: u8 = 28;
}

pub mod key_type {
    pub const DELETED: u8 = 0;

    pub const WHITEOUT: u8 = 1;

    pub const ERROR: u8 = 2;

    pub const COOKIE: u8 = 3;

    pub const HASH_WHITEOUT: u8 = 4;

    pub const EXTENT: u8 = 6;

    pub const RESERVATION: u8 = 7;

    pub const INODE: u8 = 8;

    pub const INODE_GENERATION: u8 = 9;

    pub const DIRENT: u8 = 10;

    pub const XATTR: u8 = 11;

    pub const ALLOC: u8 = 12;

    pub const QUOTA: u8 = 13;

    pub const STRIPE: u8 = 14;

    pub const REFLINK_P: u8 = 15;

    pub const REFLINK_V: u8 = 16;

    pub const INLINE_DATA: u8 = 17;

    pub const INDIRECT_INLINE_DATA: u8 = 19;

    pub const ALLOC_V2: u8 = 20;

    pub const SUBVOLUME: u8 = 21;

    pub const SNAPSHOT: u8 = 22;

    pub const INODE_V2: u8 = 23;

    pub const ALLOC_V3: u8 = 24;

    pub const SET: u8 = 25;

    pub const ALLOC_V4: u8 = 27;

    pub const BACKPOINTER: u8 = 28;

    pub const INODE_V3: u8 = 29;

    pub const BUCKET_GENS: u8 = 30;

    pub const SNAPSHOT_TREE: u8 = 31;

    pub const LOGGED_OP_TRUNCATE: u8 = 32;

    pub const LOGGED_OP_FINSERT: u8 = 33;

    pub const ACCOUNTING: u8 = 34;

    pub const INODE_ALLOC_CURSOR: u8 = 35;

    pub const EXTENT_WHITEOUT: u8 = 36;

    pub const TYPE_37: u8 = 37;

    pub const TYPE_38: u8 = 38;

    pub const TYPE_39: u8 = 39;

    pub const TYPE_40: u8 = 40;
}
