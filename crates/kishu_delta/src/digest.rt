// What is kept of a picture.
ghost use Rattle.std.specs.Prelude.{◌≡◌};
ghost use Rattle.kishu_delta.specs.Kept.{digest_in, digest_of, is_digest};

use sha2::{Digest as Hash, Sha256};

/// The SHA-256 of a picture, and its length in bytes.
#[derive(Drop)]
pub(crate) struct Digest {
    pub(crate) sha256: [u8; 32],
    pub(crate) len: u64,
}

impl Digest {
    /// That of these bytes.
    pub(crate) fn of(bytes: &[u8]) -> Digest
        ensures { digest_in result ≡ digest_of bytes.now }
    {
        Digest {
            sha256: Sha256::digest(bytes),
            len: bytes.len() as u64,
        }
    }

    /// Whether it is that of these bytes. They are read only where there are as many.
    pub(crate) fn is_of(&self, bytes: &[u8]) -> bool
        ensures { result ≡ is_digest (digest_in self.now) bytes.now }
    {
        self.len == bytes.len() as u64 && self.sha256.as_slice() == Sha256::digest(bytes).as_slice()
    }
}
