ghost use Rattle.std.specs.Prelude.{◌≡◌};
ghost use Rattle.md5.specs.Md5.{md5};

use md5::{Digest, Md5};

/// The MD5 of some bytes (RFC 1321). It takes no memory.
pub fn digest(bytes: &[u8]) -> [u8; 16]
    ensures { result ≡ md5 bytes.now }
{
    Md5::digest(bytes)
}
