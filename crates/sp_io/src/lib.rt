// The outside: where texts come from (`Library`) and where answers go (`Sink`), with a form of each in memory, and
// one of each that never fails.
// Nothing stands below it. Above it stand the top call, which is proved over any library and any sink, and the
// program, which brings files and the terminal.
// It promises that a call ends by a fault only where a count of faults rose, that a fetch gives exactly what the
// library tells, and that `write_whole` writes all of its bytes or, after a fault, a prefix of them.
#![tactic(auto)]

ghost use Rattle.std.specs.Prelude.{◌≡◌, ◌<◌, ◌≤◌, ◌↔◌, List, [], ◌∷◌, ℕ, Option, Some, None, length, take, OnOk, IfOk, OnErr, IsErrOf};
ghost use Rattle.sp_io.specs.Told.{Rose, extended, IsExtendedByPrefix, IsCutShort};

use std::alloc::{AllocError, Global};
use thiserror::Error;

mod mem_library;
mod mem_sink;
mod sure;

pub use mem_library::MemLibrary;
pub use mem_sink::MemSink;
pub use sure::{SureLibrary, SureSink};

/// Why a fetch gave no bytes.
#[derive(Clone, Copy, Debug, PartialEq, Eq, Error)]
pub enum FetchFail {
    /// The library failed; its count of faults rose.
    #[error("the library failed")]
    Failed = 1,
    /// There are more bytes than the limit.
    #[error("the text is longer than the limit")]
    TooLong = 2,
    /// Memory was wanting.
    #[error("out of memory")]
    NoMemory = 3,
    /// Nothing is held under the name.
    #[error("nothing is held under this name")]
    Missing = 4,
}

impl From<AllocError> for FetchFail {
    ghost use Rattle.sp_io.specs.declared.FetchFail.{FetchFail};

    ghost from_gives = { λ _ cause. cause ≡ FetchFail.NoMemory };

    fn from(_: AllocError) -> FetchFail {
        FetchFail::NoMemory
    }
}

/// The sink failed; its count of faults rose.
#[derive(Clone, Copy, Debug, PartialEq, Eq, Error)]
#[error("the sink failed")]
pub struct Failed;

/// A place that holds texts under names.
pub trait Library {
    /// What is held under a name, bytes or nothing; it is told or not told.
    ghost holds: { Self → List ℕ → Option (Option (List ℕ)) };

    /// The names fetched so far; they are told or not told.
    ghost asked: { Self → Option (List (List ℕ)) };

    /// How often the library failed. The count never falls.
    ghost faults: { Self → ℕ };

    /// The bytes under a name, at most `limit`.
    fn fetch(&mut self, alloc: Global, name: &str, limit: usize) -> Result<Vec<u8>, FetchFail>
        // Whatever is answered.
        ensures kept { (other : List ℕ) → holds self.new other ≡ holds self.old other }
        ensures count { faults self.old ≤ faults self.new }
        ensures asked { ¬ IsErrOf result FetchFail.NoMemory → asked self.new ≡ extended (asked self.old) (name.now ∷ []) }
        ensures not_asked { IsErrOf result FetchFail.NoMemory → asked self.new ≡ asked self.old }

        // Bytes, or the cause of their absence.
        ensures bounded { IfOk result (λ bytes. length bytes.items ≤ limit) }
        ensures exact { IfOk result (λ bytes. (told : Option (List ℕ)) → holds self.old name.now ≡ Some told → told ≡ Some bytes.items) }
        ensures failed { IsErrOf result FetchFail.Failed → Rose (faults self.old) (faults self.new) }
        ensures missing { ¬ IsCutShort result → (IsErrOf result FetchFail.Missing ↔ (holds self.old name.now ≡ Some None)) }
        ensures too_long { (bytes : List ℕ) → holds self.old name.now ≡ Some (Some bytes) → ¬ IsCutShort result → (IsErrOf result FetchFail.TooLong ↔ (limit < length bytes)) };
}

/// A place that takes bytes.
pub trait Sink {
    /// The bytes written so far; they are told or not told.
    ghost written: { Self → Option (List ℕ) };

    /// How often the sink failed. The count never falls.
    ghost faults: { Self → ℕ };

    /// Writes some first bytes of the piece, at least one where it has any, and says how many.
    fn write(&mut self, piece: &[u8]) -> Result<usize, Failed>
        ensures count { faults self.old ≤ faults self.new }

        // An empty piece changes nothing.
        ensures empty { piece.now ≡ [] → result ≡ Ok 0 }
        ensures empty_written { piece.now ≡ [] → written self.new ≡ written self.old }
        ensures empty_faults { piece.now ≡ [] → faults self.new ≡ faults self.old }

        ensures within { IfOk result (λ n. n ≤ length piece.now) }
        ensures some { IfOk result (λ n. 0 < length piece.now → 0 < n) }
        ensures appended { IfOk result (λ n. written self.new ≡ extended (written self.old) (take n piece.now)) }
        ensures failed { OnErr result (Rose (faults self.old) (faults self.new)) }
        ensures failed_written { OnErr result (written self.new ≡ written self.old) };
}

/// Writes all of the bytes, or after a fault a prefix of them. It takes no memory.
pub fn write_whole<K: Sink>(sink: &mut K, bytes: &[u8]) -> Result<(), Failed>
    ensures count { K.faults sink.old ≤ K.faults sink.new }
    ensures all { OnOk result (K.written sink.new ≡ extended (K.written sink.old) bytes.now) }
    ensures failed { OnErr result (Rose (K.faults sink.old) (K.faults sink.new)) }
    ensures prefix { OnErr result (IsExtendedByPrefix (K.written sink.old) (K.written sink.new) bytes.now) }
{
    let mut done = 0;
    while done < bytes.len() {
        let n = sink.write(&bytes[done..])?;
        done += n;
    }
    Ok(())
}
