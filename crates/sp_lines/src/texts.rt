// Texts, each once.

ghost use Rattle.std.specs.Prelude.{◌≡◌, ◌∷◌, [], IfOk, OnErr, OnOk, map, not, string_bytes};
ghost use Rattle.sp_spec.specs.Lists.{is_listed};
ghost use Rattle.sp_spec.specs.Constants.{once_after};
ghost use Rattle.sp_lines.specs.TextsView.{texts_of};

use indexmap::IndexSet;
use std::alloc::{AllocError, Global};

/// Texts in the order in which they were first seen.
#[derive(Drop)]
pub struct Texts {
    texts: IndexSet<String>,
}

impl Texts {
    /// No texts.
    pub fn new(alloc: Global) -> Texts
        ensures { texts_of result ≡ [] }
    {
        Texts {
            texts: IndexSet::new(alloc),
        }
    }

    /// Puts the text at the end, unless it is there; says whether it wasn't.
    ///
    /// # Errors
    ///
    /// `AllocError` where memory is wanting; the texts stay.
    #[tactic(auto, using(crate::proofs::Seen::seen_once, crate::proofs::Seen::new_text))]
    pub fn see(&mut self, text: String) -> Result<bool, AllocError>
        ensures seen { OnOk result (texts_of self.new ≡ once_after (texts_of self.old) (string_bytes text ∷ [])) }
        ensures is_new { IfOk result (λ b. b ≡ not (is_listed (string_bytes text) (texts_of self.old))) }
        ensures unchanged { OnErr result (texts_of self.new ≡ texts_of self.old) }
    {
        let is_new = self.texts.insert(text)?;
        Ok(is_new)
    }

    /// The texts, in their order.
    ///
    /// # Errors
    ///
    /// `AllocError` where memory is wanting.
    pub fn into_vec(self, alloc: Global) -> Result<Vec<String>, AllocError>
        ensures { IfOk result (λ made. map string_bytes made.items ≡ texts_of self) }
    {
        let mut made = Vec::with_capacity(alloc, self.texts.len())?;
        for text in self.texts {
            made.push(text)?;
        }
        Ok(made)
    }
}
