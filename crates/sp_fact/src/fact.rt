// State facts, actions and the facts of a step, over terms in memory with leaves of any kind.

ghost use Rattle.std.specs.Prelude.{◌≡◌, IfOk, map};
ghost use Rattle.sp_spec.specs.Rule.{fact_at, action_at, facts_at};
ghost use Rattle.sp_fact.specs.View.{fact_by, action_by, facts_by};

use sp_term::apply::{Assigns, apply_all};
use sp_term::term::{Leaf, Name, Term, Variable, copied};
use std::alloc::{AllocError, Global};

/// A state fact, linear or persistent.
#[derive(Drop)]
pub struct Fact<L = Variable> {
    /// its name
    pub symbol: Name,
    /// whether it stays when it is taken
    pub persistent: bool,
    /// its arguments
    pub args: Vec<Term<L>>,
}

/// What a trace shows of a step.
#[derive(Drop)]
pub struct Action<L = Variable> {
    /// its name
    pub symbol: Name,
    /// its arguments
    pub args: Vec<Term<L>>,
}

/// What a step takes, shows and adds.
#[derive(Drop)]
pub struct Facts<L = Variable> {
    /// what is taken
    pub premises: Vec<Fact<L>>,
    /// what the trace shows
    pub actions: Vec<Action<L>>,
    /// what is added
    pub conclusions: Vec<Fact<L>>,
}

impl<L: Leaf> Clone for Fact<L> {
    ghost is_clone = { λ f g. fact_by L.leaf_of g ≡ fact_by L.leaf_of f };

    fn clone(&self) -> Result<Fact<L>, AllocError> {
        let symbol = self.symbol.clone()?;
        let args = copied(&self.args)?;
        Ok(Fact {
            symbol,
            persistent: self.persistent,
            args,
        })
    }
}

impl<L> Fact<L> {
    /// The fact with each leaf replaced.
    pub fn changed<M: Drop, F: Assigns<L, M>>(
        &self,
        alloc: Global,
        values: &F,
    ) -> Result<Fact<M>, AllocError>
        ensures { IfOk result (λ f. fact_by F.to_of f ≡ fact_at (F.value_of values.now) (fact_by F.from_of self.now)) }
    {
        let symbol = self.symbol.clone()?;
        let args = apply_all(alloc, values, &self.args)?;
        Ok(Fact {
            symbol,
            persistent: self.persistent,
            args,
        })
    }
}

impl<L: Leaf> Clone for Action<L> {
    ghost is_clone = { λ a b. action_by L.leaf_of b ≡ action_by L.leaf_of a };

    fn clone(&self) -> Result<Action<L>, AllocError> {
        let symbol = self.symbol.clone()?;
        let args = copied(&self.args)?;
        Ok(Action { symbol, args })
    }
}

impl<L> Action<L> {
    /// The action with each leaf replaced.
    pub fn changed<M: Drop, F: Assigns<L, M>>(
        &self,
        alloc: Global,
        values: &F,
    ) -> Result<Action<M>, AllocError>
        ensures { IfOk result (λ a. action_by F.to_of a ≡ action_at (F.value_of values.now) (action_by F.from_of self.now)) }
    {
        let symbol = self.symbol.clone()?;
        let args = apply_all(alloc, values, &self.args)?;
        Ok(Action { symbol, args })
    }
}

fn changed_facts<L, M: Drop, F: Assigns<L, M>>(
    alloc: Global,
    values: &F,
    facts: &Vec<Fact<L>>,
) -> Result<Vec<Fact<M>>, AllocError>
    ensures { IfOk result (λ fs. map (fact_by F.to_of) fs.items ≡ map (fact_at (F.value_of values.now)) (map (fact_by F.from_of) facts.now.items)) }
{
    let mut made = Vec::with_capacity(alloc, facts.len())?;
    for fact in facts {
        made.push(fact.changed(alloc, values)?)?;
    }
    Ok(made)
}

fn changed_actions<L, M: Drop, F: Assigns<L, M>>(
    alloc: Global,
    values: &F,
    actions: &Vec<Action<L>>,
) -> Result<Vec<Action<M>>, AllocError>
    ensures { IfOk result (λ xs. map (action_by F.to_of) xs.items ≡ map (action_at (F.value_of values.now)) (map (action_by F.from_of) actions.now.items)) }
{
    let mut made = Vec::with_capacity(alloc, actions.len())?;
    for action in actions {
        made.push(action.changed(alloc, values)?)?;
    }
    Ok(made)
}

impl<L: Leaf> Clone for Facts<L> {
    ghost is_clone = { λ f g. facts_by L.leaf_of g ≡ facts_by L.leaf_of f };

    #[tactic(auto, using(sp_term::proofs::Cloned::cloned))]
    fn clone(&self) -> Result<Facts<L>, AllocError> {
        let premises = self.premises.clone()?;
        let actions = self.actions.clone()?;
        let conclusions = self.conclusions.clone()?;
        Ok(Facts {
            premises,
            actions,
            conclusions,
        })
    }
}

impl<L> Facts<L> {
    /// The facts with each leaf replaced.
    pub fn changed<M: Drop, F: Assigns<L, M>>(
        &self,
        alloc: Global,
        values: &F,
    ) -> Result<Facts<M>, AllocError>
        ensures { IfOk result (λ f. facts_by F.to_of f ≡ facts_at (F.value_of values.now) (facts_by F.from_of self.now)) }
    {
        let premises = changed_facts(alloc, values, &self.premises)?;
        let actions = changed_actions(alloc, values, &self.actions)?;
        let conclusions = changed_facts(alloc, values, &self.conclusions)?;
        Ok(Facts {
            premises,
            actions,
            conclusions,
        })
    }
}
