//! The bytes of a new store.
ghost use Rattle.std.specs.Prelude.{◌≡◌, ◌++◌, [], ◌∷◌, IfOk};
ghost use Rattle.store.specs.store_format.Headers.{store_header, HeaderFits};

use crate::store_format::Header;
use byteorder::{BigEndian, ByteOrder};

/// The bytes of a header and of a closed gate.
pub fn new_store(header: Header) -> [u8; 65]
    ensures bytes { result ≡ store_header header ++ 0 ∷ [] }
    ensures fits { HeaderFits header }
{
    let mut bytes = [0; 65];
    bytes[..8].copy_from_slice(b"GLABSTOR");
    BigEndian::write_u32(&mut bytes[8..], 1);
    BigEndian::write_u16(&mut bytes[12..], header.machines);
    bytes[14] = header.algorithm;
    bytes[15] = header.directed;
    BigEndian::write_u64(&mut bytes[16..], header.source);
    BigEndian::write_u32(&mut bytes[24..], header.n);
    BigEndian::write_u32(&mut bytes[28..], header.m);
    bytes[32..64].copy_from_slice(&header.digest.0);
    bytes
}
