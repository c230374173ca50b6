ghost use Rattle.std.specs.Prelude.{◌≡◌, ◌++◌, List, [], ◌∷◌, ℕ, map, string_bytes, OnOk, OnErr, IfOk, IfErr};
ghost use Rattle.sp_top.specs.Command.{IsLine, IsNoLine, request_of};
ghost use Rattle.sp_words.specs.declared.RequestError.TheVariants.{NoLine};

use sp_words::{Request, RequestError, read_request};
use std::alloc::{AllocError, Global};
use std::marker::Model;

/// The words of a command, the program's name first.
#[derive(Drop)]
pub struct Words {
    alloc: Global,
    texts: Vec<String>,
}

impl Model for Words {
    ghost Value = { List (List ℕ) };

    ghost view = { λ w. map string_bytes w.texts.items };
}

impl Words {
    /// No words.
    pub fn new(alloc: Global) -> Self
        ensures { result ≡ [] }
    {
        Words {
            alloc,
            texts: Vec::new(alloc),
        }
    }

    /// Adds a word at the end.
    pub fn push(&mut self, word: &str) -> Result<(), AllocError>
        ensures added { OnOk result (self.new ≡ self.old ++ word.now ∷ []) }
        ensures unchanged { OnErr result (self.new ≡ self.old) }
    {
        let text = String::from_str(self.alloc, word)?;
        self.texts.push(text)?;
        Ok(())
    }

    /// What the words ask for.
    ///
    /// # Errors
    ///
    /// `NoLine` where they are no line of the command; `NoMemory` where memory was wanting.
    #[tactic(auto, using(crate::proofs::Lines::asks))]
    pub(crate) fn request(&self) -> Result<Request<'_>, RequestError>
        ensures line { IfOk result (λ request. IsLine self.now (request_of request)) }
        ensures no_line { IfErr result (λ cause. cause ≡ NoLine → IsNoLine self.now) }
    {
        read_request(self.alloc, self.texts.as_slice())
    }
}
