// What has a name and arguments: facts and actions.

ghost use Rattle.std.specs.Prelude.{◌≡◌, Bool, IfOk};
ghost use Rattle.sp_spec.specs.Term as terms;
ghost use Rattle.sp_spec.specs.Rule as rule;
ghost use Rattle.sp_term.specs.View.{view_all};
ghost use Rattle.sp_fact.specs.View.{fact_of, action_of};
ghost use Rattle.sp_spec_forms.specs.Alike.{same_action};
ghost use Rattle.sp_spec_forms.specs.Alike.{alike_fact};

use sp_fact::fact::{Action, Fact};
use sp_term::term::{Term, all_same};
use std::alloc::{AllocError, Global};

/// A fact or an action.
pub trait HasArguments: Drop {
    /// what it stands for
    ghost Kind: { Type 0 };

    ghost kind_of: { Self → Kind };

    ghost args_of: { Kind → terms.Terms terms.Variable };

    /// it, over these arguments
    ghost with_args: { Kind → terms.Terms terms.Variable → Kind };

    ghost alike: { Kind → Kind → Bool };

    /// Its arguments.
    fn arguments(&self) -> &Vec<Term>
        ensures { view_all result.now.items ≡ args_of (kind_of self.now) };

    /// The same over these arguments.
    fn over(&self, arguments: Vec<Term>) -> Result<Self, AllocError>
        ensures { IfOk result (λ x. kind_of x ≡ with_args (kind_of self.now) (view_all arguments.items)) };

    /// An equal one.
    fn duplicate(&self, alloc: Global) -> Result<Self, AllocError>
        ensures { IfOk result (λ x. kind_of x ≡ kind_of self.now) };

    /// Whether both are the same.
    fn is_alike(&self, other: &Self) -> bool
        ensures { result ≡ alike (kind_of self.now) (kind_of other.now) };
}

impl HasArguments for Fact {
    ghost Kind = { rule.Fact terms.Variable };

    ghost kind_of = { fact_of };

    ghost args_of = { λ f. f.args };

    ghost with_args = { λ f ts. record { symbol = f.symbol; persistent = f.persistent; args = ts } };

    ghost alike = { alike_fact };

    fn arguments(&self) -> &Vec<Term> {
        &self.args
    }

    fn over(&self, arguments: Vec<Term>) -> Result<Fact, AllocError> {
        let symbol = self.symbol.clone()?;
        Ok(Fact {
            symbol,
            persistent: self.persistent,
            args: arguments,
        })
    }

    fn duplicate(&self, alloc: Global) -> Result<Fact, AllocError> {
        self.clone()
    }

    fn is_alike(&self, other: &Fact) -> bool {
        self.symbol == other.symbol
            && self.persistent == other.persistent
            && all_same(&self.args, &other.args)
    }
}

impl HasArguments for Action {
    ghost Kind = { rule.Action terms.Variable };

    ghost kind_of = { action_of };

    ghost args_of = { λ a. a.args };

    ghost with_args = { λ a ts. record { symbol = a.symbol; args = ts } };

    ghost alike = { same_action };

    fn arguments(&self) -> &Vec<Term> {
        &self.args
    }

    fn over(&self, arguments: Vec<Term>) -> Result<Action, AllocError> {
        let symbol = self.symbol.clone()?;
        Ok(Action {
            symbol,
            args: arguments,
        })
    }

    fn duplicate(&self, alloc: Global) -> Result<Action, AllocError> {
        self.clone()
    }

    fn is_alike(&self, other: &Action) -> bool {
        self.symbol == other.symbol && all_same(&self.args, &other.args)
    }
}
