//! A copy of a key for an entry that may be made: `entries` and `tracked` take its memory before anything changes, and `tracking`
//! makes it where the key has no entry.
ghost use Rattle.std.specs.Prelude.{◌≡◌, IfOk};
ghost use Rattle.stick_pooled.specs.Steps.{IsSpare};

use base_sequence::NoMemory;
use stick_key::StickKey;

/// A copy of a key, where one takes memory. Up to sixteen bytes take none, so that such a copy can be made at any time.
pub(crate) fn spare_copy(key: &StickKey) -> Result<Option<StickKey>, NoMemory>
    ensures { IfOk result (IsSpare key.now) }
{
    if key.bytes().len() <= 16 {
        return Ok(None);
    }
    let copy = key.copy()?;
    Ok(Some(copy))
}

/// A copy of a key, the one that was made before or, where its bytes take no memory, a new one.
pub(crate) fn own_copy(key: &StickKey, spare: Option<StickKey>) -> StickKey
    requires { IsSpare key.now spare }
    ensures { result ≡ key.now }
{
    match spare {
        Some(copy) => copy,
        None => match key.copy() {
            Ok(copy) => copy,
            Err(_) => unreachable!(),
        },
    }
}
