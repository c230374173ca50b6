ghost use Rattle.std.specs.Prelude.{◌≡◌, ◌<◌, ◌≤◌, ◌+◌, ◌↔◌, ◌++◌, List, [], ◌∷◌, ℕ, Option, Some, None, length, map, OnOk, OnErr, IfOk, IsErrOf, IsSomeAnd, IsTrue, option_copied, string_bytes, bytes_eq, if◌then◌else◌};
ghost use Rattle.sp_io.specs.Calls.{raised, is_planned, count_after};
ghost use Rattle.sp_io.specs.Shelf.{Shelf, under};
ghost use Rattle.sp_io.specs.Told.{Rose, extended, IsCutShort};

use crate::{FetchFail, Library};
use std::alloc::{AllocError, Global};
use std::collections::BTreeMap;
use std::marker::Model;

/// A library in memory. It tells what it holds and which names were fetched, and fails at the calls that it was told of.
#[derive(Drop)]
pub struct MemLibrary {
    alloc: Global,
    texts: BTreeMap<String, Vec<u8>>,
    failing: Vec<u64>,
    asked: Vec<String>,
    calls: u64,
    faults: u64,
}

impl Model for MemLibrary {
    ghost Value = { Shelf };

    ghost view = { λ s. record { texts = map (λ text. (string_bytes text.0, text.1.items)) s.texts.entries; failing = s.failing.items; asked = map string_bytes s.asked.items; calls = s.calls; faults = s.faults } };
}

impl MemLibrary {
    /// A library that holds nothing and never fails.
    pub fn new(alloc: Global) -> Self
        ensures { result ≡ record { texts = []; failing = []; asked = []; calls = 0; faults = 0 } }
    {
        MemLibrary {
            alloc,
            texts: BTreeMap::new(alloc),
            failing: Vec::new(alloc),
            asked: Vec::new(alloc),
            calls: 0,
            faults: 0,
        }
    }

    /// Holds a text under a name, in place of what was there.
    pub fn put(&mut self, name: &str, bytes: &[u8]) -> Result<(), AllocError>
        ensures held { OnOk result ((other : List ℕ) → under self.new other ≡ (if bytes_eq name.now other then Some bytes.now else under self.old other)) }
        ensures unchanged { OnErr result (self.new ≡ self.old) }
        ensures failing { self.new.failing ≡ self.old.failing }
        ensures asked { self.new.asked ≡ self.old.asked }
        ensures calls { self.new.calls ≡ self.old.calls }
        ensures faults { self.new.faults ≡ self.old.faults }
    {
        let key = String::from_str(self.alloc, name)?;
        let text = Vec::from_slice(self.alloc, bytes)?;
        self.texts.insert(key, text)?;
        Ok(())
    }

    /// Lets the call of this number fail; the first call has the number 1.
    pub fn fail_at(&mut self, call: u64) -> Result<(), AllocError>
        ensures added { OnOk result (self.new ≡ record self.old { failing = self.old.failing ++ call ∷ [] }) }
        ensures unchanged { OnErr result (self.new ≡ self.old) }
    {
        self.failing.push(call)?;
        Ok(())
    }

    /// The names fetched so far.
    pub fn asked(&self) -> &[String]
        ensures { map string_bytes result.now ≡ self.now.asked }
    {
        self.asked.as_slice()
    }

    /// How many calls failed.
    pub fn faults(&self) -> u64
        ensures { result ≡ self.now.faults }
    {
        self.faults
    }

    /// Counts a call, and a fault where it is to fail.
    fn count_call(&mut self) -> bool
        ensures fails { result ≡ is_planned self.old.failing (raised self.old.calls) }
        ensures never_falls { self.old.faults ≤ self.new.faults }
        ensures rose { IsTrue result → Rose self.old.faults self.new.faults }
        ensures counted { self.new ≡ record self.old { calls = raised self.old.calls; faults = count_after (is_planned self.old.failing (raised self.old.calls)) self.old.faults } }
    {
        self.calls = self.calls.saturating_add(1);
        let fails = self.failing.contains(&self.calls);
        if fails {
            self.faults = self.faults.saturating_add(1);
        }
        fails
    }

    /// Adds a name to those fetched.
    fn note(&mut self, alloc: Global, name: &str) -> Result<(), AllocError>
        ensures added { OnOk result (self.new ≡ record self.old { asked = self.old.asked ++ name.now ∷ [] }) }
        ensures unchanged { OnErr result (self.new ≡ self.old) }
    {
        let noted = String::from_str(alloc, name)?;
        self.asked.push(noted)?;
        Ok(())
    }

    /// The bytes under a name.
    fn text(&self, name: &str) -> Option<&[u8]>
        ensures { option_copied result ≡ under self.now name.now }
    {
        match self.texts.get(name) {
            Some(text) => Some(text.as_slice()),
            None => None,
        }
    }

    /// What is answered to a fetch that is to fail or not.
    fn answer(
        &self,
        alloc: Global,
        name: &str,
        limit: usize,
        fails: bool,
    ) -> Result<Vec<u8>, FetchFail>
        ensures bounded { IfOk result (λ bytes. length bytes.items ≤ limit) }
        ensures exact { IfOk result (λ bytes. under self.now name.now ≡ Some bytes.items) }
        ensures failed { ¬ IsErrOf result FetchFail.NoMemory → (IsErrOf result FetchFail.Failed ↔ IsTrue fails) }
        ensures missing { ¬ IsCutShort result → (IsErrOf result FetchFail.Missing ↔ (under self.now name.now ≡ None)) }
        ensures too_long { ¬ IsCutShort result → (IsErrOf result FetchFail.TooLong ↔ IsSomeAnd (under self.now name.now) (λ bytes. limit < length bytes)) }
    {
        if fails {
            return Err(FetchFail::Failed);
        }
        let Some(text) = self.text(name) else {
            return Err(FetchFail::Missing);
        };
        if text.len() > limit {
            return Err(FetchFail::TooLong);
        }
        let bytes = Vec::from_slice(alloc, text)?;
        Ok(bytes)
    }
}

impl Library for MemLibrary {
    ghost holds = { λ shelf name. Some (under shelf name) };

    ghost asked = { λ shelf. Some shelf.asked };

    ghost faults = { λ shelf. shelf.faults };

    fn fetch(&mut self, alloc: Global, name: &str, limit: usize) -> Result<Vec<u8>, FetchFail>
        // Whatever is answered.
        ensures kept { (other : List ℕ) → Some (under self.new other) ≡ Some (under self.old other) }
        ensures count { self.old.faults ≤ self.new.faults }
        ensures asked { ¬ IsErrOf result FetchFail.NoMemory → Some self.new.asked ≡ extended (Some self.old.asked) (name.now ∷ []) }
        ensures not_asked { IsErrOf result FetchFail.NoMemory → Some self.new.asked ≡ Some self.old.asked }

        // Bytes, or the cause of their absence.
        ensures bounded { IfOk result (λ bytes. length bytes.items ≤ limit) }
        ensures exact { IfOk result (λ bytes. (told : Option (List ℕ)) → Some (under self.old name.now) ≡ Some told → told ≡ Some bytes.items) }
        ensures failed { IsErrOf result FetchFail.Failed → Rose self.old.faults self.new.faults }
        ensures missing { ¬ IsCutShort result → (IsErrOf result FetchFail.Missing ↔ (Some (under self.old name.now) ≡ Some None)) }
        ensures too_long { (bytes : List ℕ) → Some (under self.old name.now) ≡ Some (Some bytes) → ¬ IsCutShort result → (IsErrOf result FetchFail.TooLong ↔ (limit < length bytes)) }

        // The calls that are to fail are those that do, and their number is the count of faults.
        ensures fails { ¬ IsErrOf result FetchFail.NoMemory → (IsErrOf result FetchFail.Failed ↔ IsTrue (is_planned self.old.failing (raised self.old.calls))) }
        ensures counted { self.new.faults ≡ count_after (is_planned self.old.failing (raised self.old.calls)) self.old.faults }
        ensures called { self.new.calls ≡ raised self.old.calls }
        ensures planned { self.new.failing ≡ self.old.failing }
        ensures texts { self.new.texts ≡ self.old.texts }
    {
        let fails = self.count_call();
        match self.answer(alloc, name, limit, fails) {
            Err(FetchFail::NoMemory) => Err(FetchFail::NoMemory),
            answer => {
                self.note(alloc, name)?;
                answer
            }
        }
    }
}
