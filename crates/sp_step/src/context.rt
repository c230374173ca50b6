// What a proof is made in.

ghost use Rattle.std.specs.Prelude.{◌≡◌, IfOk, is_some, option_map};
ghost use Rattle.sp_system.specs.SystemView.{system_of};
ghost use Rattle.sp_learn.specs.View.{log_of};
ghost use Rattle.sp_step.specs.View.{context_of, rules_of};
ghost use Rattle.sp_spec_system.specs.Move.{end_log};

use sp_book::book::RuleBook;
use sp_fact::signature::Signature;
use sp_learn::log::Log;
use sp_solved::{Sought, found};
use sp_system::system::System;
use std::alloc::{AllocError, Global};

/// The rules that a proof is made in, with the theory's symbols and equations.
#[derive(Clone, Copy)]
pub struct Rules<'a> {
    /// the symbols and equations
    pub signature: &'a Signature,
    /// the rules with their forms
    pub book: &'a RuleBook,
}

/// What a proof is made in: the theory's rules, and what the search ends with.
#[derive(Clone, Copy)]
pub struct Context<'a> {
    /// the rules with their forms
    pub rules: &'a RuleBook,
    /// the log that is looked for
    pub sought: Sought<'a>,
}

impl<'a> Context<'a> {
    /// The theory: its rules, with its symbols and equations.
    pub fn theory(&self) -> Rules<'a>
        ensures { rules_of result ≡ (context_of self.now).rules }
    {
        Rules {
            signature: self.sought.signature,
            book: self.rules,
        }
    }

    /// The log with which the search ends at the system, if it ends there.
    ///
    /// # Errors
    ///
    /// `AllocError` where memory is wanting.
    pub fn found(&self, alloc: Global, system: &System) -> Result<Option<Log>, AllocError>
        ensures { IfOk result (λ o. option_map log_of o ≡ end_log (context_of self.now) (system_of system.now)) }
    {
        let log = found(alloc, &self.sought, &self.rules.rules, system)?;
        Ok(log)
    }

    /// Whether the search ends at the system.
    ///
    /// # Errors
    ///
    /// `AllocError` where memory is wanting.
    pub fn ends(&self, alloc: Global, system: &System) -> Result<bool, AllocError>
        ensures { IfOk result (λ b. b ≡ is_some (end_log (context_of self.now) (system_of system.now))) }
    {
        let log = self.found(alloc, system)?;
        Ok(log.is_some())
    }
}
