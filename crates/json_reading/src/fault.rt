//! Why a document was not read.

ghost use Rattle.std.specs.Prelude.{◌≡◌};
ghost use Rattle.json_reading.specs.declared.fault.ReadError.TheVariants.{Memory};

use fb_types::Text;
use std::alloc::{AllocError, AllocFailed};

/// The one first fault, or no memory.
#[derive(Debug, Drop)]
pub enum ReadError<K> {
    Fault { place: Text, kind: K },
    Memory(AllocError),
}

impl<K> From<AllocError> for ReadError<K> {
    ghost from_gives = { λ d e. e ≡ Memory d };

    fn from(e: AllocError) -> ReadError<K> {
        ReadError::Memory(e)
    }
}

impl<K, T: Drop> From<AllocFailed<T>> for ReadError<K> {
    ghost use Rattle.std.specs.Prelude.{alloc_error};

    ghost from_gives = { λ _ e. e ≡ Memory alloc_error };

    fn from(_e: AllocFailed<T>) -> ReadError<K> {
        ReadError::Memory(AllocError)
    }
}
