//! Keys of samples.

use std::alloc::{AllocError, Global};
use stick_key::{KeyType, Sample, StickKey, convert};

/// The key of a sample, where it has one of this type.
pub fn key_of(alloc: Global, sample: &Sample, kind: KeyType) -> Result<StickKey, AllocError> {
    match convert(alloc, sample, kind) {
        Ok(Some(key)) => Ok(key),
        _ => Err(AllocError),
    }
}
