ghost use Rattle.std.specs.Prelude.{◌≡◌, ◌<◌, ◌≤◌, ◌↔◌, List, [], ◌∷◌, ℕ, Option, Ok, Some, None, length, take, OnErr, IfOk, IsErrOf};
ghost use Rattle.sp_io.specs.Sure.{untold_names, untold_bytes, no_faults};
ghost use Rattle.sp_io.specs.Told.{Rose, extended, IsCutShort};

use crate::{Failed, FetchFail, Library, Sink};
use std::alloc::Global;
use std::marker::Model;

/// A library that holds one text under every name. It never fails, and doesn't tell which names were fetched.
#[derive(Drop)]
pub struct SureLibrary {
    text: Vec<u8>,
}

impl Model for SureLibrary {
    ghost Value = { List ℕ };

    ghost view = { λ l. l.text.items };
}

impl SureLibrary {
    /// The library of this text.
    pub fn new(text: Vec<u8>) -> Self
        ensures { result ≡ text.items }
    {
        SureLibrary { text }
    }
}

impl Library for SureLibrary {
    ghost holds = { λ text name. Some (Some text) };

    ghost asked = { λ text. untold_names };

    ghost faults = { λ text. no_faults };

    fn fetch(&mut self, alloc: Global, name: &str, limit: usize) -> Result<Vec<u8>, FetchFail>
        // Whatever is answered.
        ensures kept { (other : List ℕ) → Some (Some self.new) ≡ Some (Some self.old) }
        ensures count { no_faults ≤ no_faults }
        ensures asked { ¬ IsErrOf result FetchFail.NoMemory → untold_names ≡ extended untold_names (name.now ∷ []) }
        ensures not_asked { IsErrOf result FetchFail.NoMemory → untold_names ≡ untold_names }

        // Bytes, or the cause of their absence.
        ensures bounded { IfOk result (λ bytes. length bytes.items ≤ limit) }
        ensures exact { IfOk result (λ bytes. (told : Option (List ℕ)) → Some (Some self.old) ≡ Some told → told ≡ Some bytes.items) }
        ensures failed { IsErrOf result FetchFail.Failed → Rose no_faults no_faults }
        ensures missing { ¬ IsCutShort result → (IsErrOf result FetchFail.Missing ↔ (Some (Some self.old) ≡ Some None)) }
        ensures too_long { (bytes : List ℕ) → Some (Some self.old) ≡ Some (Some bytes) → ¬ IsCutShort result → (IsErrOf result FetchFail.TooLong ↔ (limit < length bytes)) }

        // It gives its text wherever that is short enough.
        ensures sure { ¬ IsErrOf result FetchFail.Failed }
        ensures held { ¬ IsErrOf result FetchFail.Missing }
    {
        if self.text.len() > limit {
            return Err(FetchFail::TooLong);
        }
        let bytes = Vec::from_slice(alloc, &self.text)?;
        Ok(bytes)
    }
}

/// A sink that takes every piece whole, and keeps and tells nothing. It never fails.
#[derive(Clone, Copy)]
pub struct SureSink;

impl Sink for SureSink {
    ghost written = { λ sink. untold_bytes };

    ghost faults = { λ sink. no_faults };

    fn write(&mut self, piece: &[u8]) -> Result<usize, Failed>
        ensures count { no_faults ≤ no_faults }

        // An empty piece changes nothing.
        ensures empty { piece.now ≡ [] → result ≡ Ok 0 }
        ensures empty_written { piece.now ≡ [] → untold_bytes ≡ untold_bytes }
        ensures empty_faults { piece.now ≡ [] → no_faults ≡ no_faults }

        ensures within { IfOk result (λ n. n ≤ length piece.now) }
        ensures some { IfOk result (λ n. 0 < length piece.now → 0 < n) }
        ensures appended { IfOk result (λ n. untold_bytes ≡ extended untold_bytes (take n piece.now)) }
        ensures failed { OnErr result (Rose no_faults no_faults) }
        ensures failed_written { OnErr result (untold_bytes ≡ untold_bytes) }

        // It takes all.
        ensures all { result ≡ Ok (length piece.now) }
    {
        Ok(piece.len())
    }
}
