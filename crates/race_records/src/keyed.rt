//! A hasher whose start is secret, so that who writes a text can't choose names that all have one hash.
use std::hash::{BuildHasher, FoldHasher, Hasher};

/// Makes hashers that all start alike: as one into which a key was written.
#[derive(Clone, Copy)]
pub(crate) struct KeyedHasher {
    start: FoldHasher,
}

impl KeyedHasher {
    pub(crate) fn new(key: u64) -> KeyedHasher {
        let mut start = FoldHasher::default();
        start.write(&key.to_le_bytes());
        KeyedHasher { start }
    }
}

impl BuildHasher for KeyedHasher {
    type Hasher = FoldHasher;

    ghost build_hasher = { λ keyed. keyed.start };

    fn build_hasher(&self) -> FoldHasher {
        self.start
    }
}
