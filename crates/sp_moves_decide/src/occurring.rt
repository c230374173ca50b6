// Whether a variable, or a public name, stands anywhere in a system.

ghost use Rattle.std.specs.Prelude.{◌≡◌, map};
ghost use Rattle.std.specs.List.{list_any};
ghost use Rattle.sp_spec.specs.Term as spec_term;
ghost use Rattle.sp_spec.specs.Guarded as spec_guarded;
ghost use Rattle.sp_spec.specs.Guarded.{guardeds_of};
ghost use Rattle.sp_spec.specs.Same.{same_variable};
ghost use Rattle.sp_term.specs.View.{name_of, variable_of, view, view_all, view_by, view_all_by};
ghost use Rattle.sp_fact.specs.View.{action_of, fact_of, facts_of};
ghost use Rattle.sp_unify.specs.View.{pair_view};
ghost use Rattle.sp_formula.specs.PlaceView.{place_of, placed_term, placed_terms};
ghost use Rattle.sp_formula.specs.FormulaView.{atom_of, formula_of};
ghost use Rattle.sp_system.specs.WayView.{way_of};
ghost use Rattle.sp_system.specs.SystemView.{event_of, shown, system_of};
ghost use Rattle.sp_moves_decide.specs.Sought as spec;
ghost use Rattle.sp_moves_decide.specs.SoughtView.{sought_of};

use sp_fact::fact::{Action, Fact, Facts};
use sp_formula::formula::{Atom, Formula};
use sp_formula::place::{FormulaTerm, Place};
use sp_formula::shared::SharedFormula;
use sp_system::event::{Event, Happening, What};
use sp_system::system::{System, UnequalPair};
use sp_system::way::Way;
use sp_term::leaves::{Tests, some_leaf, some_leaf_of_one};
use sp_term::term::{Leaf, Name, Term, Variable};

/// What is looked for.
#[derive(Clone, Copy)]
pub(crate) enum Sought<'a> {
    /// a variable
    Variable(Variable),
    /// a public name
    PublicName(&'a Name),
}

// Whether it is the variable.
#[derive(Clone, Copy)]
struct Is {
    variable: Variable,
}

impl Tests<Variable> for Is {
    ghost Kind = { spec_term.Variable };

    ghost leaf_of = { variable_of };

    ghost test_of = { λ t. same_variable (variable_of t.variable) };

    fn passes(&self, leaf: &Variable) -> bool {
        self.variable == *leaf
    }
}

impl Tests<Place> for Is {
    ghost Kind = { spec_guarded.Place };

    ghost leaf_of = { place_of };

    ghost test_of = { λ t. spec.is_free (variable_of t.variable) };

    fn passes(&self, leaf: &Place) -> bool {
        match leaf {
            Place::Free(variable) => self.variable == *variable,
            Place::Bound(_) => false,
        }
    }
}

#[cycle(names)]
fn term_names<L: Leaf>(name: &Name, term: &Term<L>) -> bool
    ensures { result ≡ spec.term_names (name_of name.now) (view_by L.leaf_of term.now) }
{
    match term {
        Term::Constant(other) => *other == *name,
        Term::Var(_) | Term::FreshName(_) => false,
        Term::App(_, terms, _) => terms_name(name, terms),
    }
}

#[cycle(names)]
fn terms_name<L: Leaf>(name: &Name, terms: &Vec<Term<L>>) -> bool
    ensures { result ≡ spec.terms_name (name_of name.now) (view_all_by L.leaf_of terms.now.items) }
{
    for term in terms {
        if term_names(name, term) {
            return true;
        }
    }
    false
}

fn term_has(sought: Sought, term: &Term) -> bool
    ensures { result ≡ spec.term_has (sought_of sought.entry) (view term.now) }
{
    match sought {
        Sought::Variable(variable) => some_leaf(&Is { variable }, term),
        Sought::PublicName(name) => term_names(name, term),
    }
}

fn terms_have(sought: Sought, terms: &Vec<Term>) -> bool
    ensures { result ≡ spec.terms_have (sought_of sought.entry) (view_all terms.now.items) }
{
    match sought {
        Sought::Variable(variable) => some_leaf_of_one(&Is { variable }, terms),
        Sought::PublicName(name) => terms_name(name, terms),
    }
}

fn placed_has(sought: Sought, term: &FormulaTerm) -> bool
    ensures { result ≡ spec.placed_has (sought_of sought.entry) (placed_term term.now) }
{
    match sought {
        Sought::Variable(variable) => some_leaf(&Is { variable }, term),
        Sought::PublicName(name) => term_names(name, term),
    }
}

fn placed_have(sought: Sought, terms: &Vec<FormulaTerm>) -> bool
    ensures { result ≡ spec.placed_have (sought_of sought.entry) (placed_terms terms.now.items) }
{
    match sought {
        Sought::Variable(variable) => some_leaf_of_one(&Is { variable }, terms),
        Sought::PublicName(name) => terms_name(name, terms),
    }
}

fn some_fact_has(sought: Sought, facts: &Vec<Fact>) -> bool
    ensures { result ≡ list_any (spec.fact_has (sought_of sought.entry)) (map fact_of facts.now.items) }
{
    for fact in facts {
        if terms_have(sought, &fact.args) {
            return true;
        }
    }
    false
}

fn some_action_has(sought: Sought, actions: &Vec<Action>) -> bool
    ensures { result ≡ list_any (spec.action_has (sought_of sought.entry)) (map action_of actions.now.items) }
{
    for action in actions {
        if terms_have(sought, &action.args) {
            return true;
        }
    }
    false
}

fn facts_have(sought: Sought, facts: &Facts) -> bool
    ensures { result ≡ spec.facts_have (sought_of sought.entry) (facts_of facts.now) }
{
    some_fact_has(sought, &facts.premises)
        || some_action_has(sought, &facts.actions)
        || some_fact_has(sought, &facts.conclusions)
}

fn some_message_has(sought: Sought, messages: &Vec<Term>) -> bool
    ensures { result ≡ list_any (spec.term_has (sought_of sought.entry)) (map view messages.now.items) }
{
    for message in messages {
        if term_has(sought, message) {
            return true;
        }
    }
    false
}

fn way_has(sought: Sought, way: &Way) -> bool
    ensures { result ≡ spec.way_has (sought_of sought.entry) (way_of way.now) }
{
    match way {
        Way::ChainBegun(chain) => some_message_has(sought, &chain.messages),
        Way::ChainDone(chain) => some_message_has(sought, &chain.messages),
        Way::Anyhow | Way::PublicName | Way::OwnName | Way::Constructed => false,
    }
}

fn happening_has(sought: Sought, happening: &Happening) -> bool
    ensures { result ≡ spec.happening_has (sought_of sought.entry) (shown happening.now) }
{
    match &happening.what {
        What::Rule(_) => facts_have(sought, &happening.facts),
        What::Send(message) => term_has(sought, message),
        What::Learn(message, way) => term_has(sought, message) || way_has(sought, way),
    }
}

fn some_event_has(sought: Sought, events: &Vec<Event>) -> bool
    ensures { result ≡ list_any (spec.event_has (sought_of sought.entry)) (map event_of events.now.items) }
{
    for event in events {
        if happening_has(sought, &event.happening) {
            return true;
        }
    }
    false
}

fn atom_has(sought: Sought, atom: &Atom) -> bool
    ensures { result ≡ spec.atom_has (sought_of sought.entry) (atom_of atom.now) }
{
    match atom {
        Atom::Acts(action, _) => placed_have(sought, &action.args),
        Atom::Same(left, right) => placed_has(sought, left) || placed_has(sought, right),
        Atom::SameTime(_, _) | Atom::Before(_, _) | Atom::Last(_) => false,
    }
}

fn some_atom_has(sought: Sought, atoms: &Vec<Atom>) -> bool
    ensures { result ≡ list_any (spec.atom_has (sought_of sought.entry)) (map atom_of atoms.now.items) }
{
    for atom in atoms {
        if atom_has(sought, atom) {
            return true;
        }
    }
    false
}

#[cycle(formula_has)]
fn formula_has(sought: Sought, formula: &Formula) -> bool
    ensures { result ≡ spec.formula_has (sought_of sought.entry) (formula_of formula.now) }
{
    match formula {
        Formula::Truth | Formula::Falsity => false,
        Formula::Holds(atom) => atom_has(sought, atom),
        Formula::Fails(atom) => atom_has(sought, atom),
        Formula::AllOf(parts) => formulas_have(sought, parts),
        Formula::OneOf(parts) => formulas_have(sought, parts),
        Formula::Exists(_, guard, body) => {
            some_atom_has(sought, guard) || formula_has(sought, body)
        }
        Formula::ForAll(_, guard, body) => {
            some_atom_has(sought, guard) || formula_has(sought, body)
        }
    }
}

#[cycle(formula_has)]
fn formulas_have(sought: Sought, formulas: &Vec<Formula>) -> bool
    ensures { result ≡ spec.formulas_have (sought_of sought.entry) (guardeds_of (map formula_of formulas.now.items)) }
{
    for formula in formulas {
        if formula_has(sought, formula) {
            return true;
        }
    }
    false
}

fn some_formula_has(sought: Sought, formulas: &Vec<SharedFormula>) -> bool
    ensures { result ≡ list_any (spec.formula_has (sought_of sought.entry)) (map formula_of formulas.now.items) }
{
    for formula in formulas {
        if formula_has(sought, formula) {
            return true;
        }
    }
    false
}

fn some_pair_has(sought: Sought, pairs: &Vec<UnequalPair>) -> bool
    ensures { result ≡ list_any (spec.pair_has (sought_of sought.entry)) (map pair_view pairs.now.items) }
{
    for pair in pairs {
        if term_has(sought, &pair.0) || term_has(sought, &pair.1) {
            return true;
        }
    }
    false
}

// Whether it stands anywhere in the system.
pub(crate) fn system_has(sought: Sought, system: &System) -> bool
    ensures { result ≡ spec.system_has (sought_of sought.entry) (system_of system.now) }
{
    some_event_has(sought, &system.events)
        || some_formula_has(sought, &system.formulas)
        || some_formula_has(sought, &system.spent)
        || some_pair_has(sought, &system.unequal)
}
