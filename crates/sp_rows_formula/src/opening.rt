// Values for what a formula binds, and what they put into it; among them new variables for the binders of an existential formula.

ghost use Rattle.std.specs.Prelude.{◌≡◌, ◌+◌, IfOk, length, map};
ghost use Rattle.sp_spec.specs.Guarded as guarded;
ghost use Rattle.sp_term.specs.View.{view};
ghost use Rattle.sp_spec.specs.Change.{place_changed, time_changed, atom_changed, changed, opening};
ghost use Rattle.sp_formula.specs.FormulaView.{moment_of, atom_of, binder_of, formula_of};
ghost use Rattle.sp_formula.specs.PlaceView.{place_of, placed_term};
ghost use Rattle.sp_spec_formula.specs.Instances.{instance};
ghost use Rattle.sp_rows_formula.specs.InsideView.{inside_of};
ghost use Rattle.sp_rows_formula.specs.OpeningView.{change_of, put};

use crate::inside::Inside;
use sp_formula::formula::{Atom, Binder, Formula, Moment};
use sp_formula::place::{FormulaTerm, Place, placed};
use sp_term::apply::{Assigns, apply};
use sp_term::term::{Term, Variable};
use std::alloc::{AllocError, Global};

/// What stands for the variables that binders bind, in the order of the binders: the innermost is the last one.
#[derive(Drop)]
pub struct Values {
    /// for those of messages
    pub messages: Vec<Term>,
    /// for those of times
    pub times: Vec<u128>,
}

/// Values inside of a formula, under binders of its own.
#[derive(Clone, Copy)]
struct ValuesInside<'a> {
    // the values
    values: &'a Values,
    // the binders that stand between
    inside: Inside,
}

impl<'a> Assigns<Place, Place> for ValuesInside<'a> {
    ghost From = { guarded.Place };

    ghost To = { guarded.Place };

    ghost from_of = { place_of };

    ghost to_of = { place_of };

    ghost value_of = { λ s. place_changed (inside_of s.inside (change_of s.values.now)) };

    fn value(&self, alloc: Global, leaf: &Place) -> Result<FormulaTerm, AllocError> {
        match leaf {
            Place::Bound(place) => self.values.message(alloc, self.inside, *place),
            Place::Free(_) => Ok(Term::Var(*leaf)),
        }
    }
}

/// New variables for binders.
#[derive(Drop)]
pub struct NewVariables {
    /// what stands for the variables that are bound
    pub values: Values,
    /// the number of the next one
    pub next: u128,
}

impl NewVariables {
    // With a variable for one more binder.
    fn with(self, binder: Binder) -> Result<NewVariables, AllocError>
        ensures change { IfOk result (λ v. change_of v.values ≡ put (binder_of binder) self.next (change_of self.values)) }
        ensures next { IfOk result (λ v. v.next ≡ self.next + 1) }
    {
        let number = self.next;
        let Some(next) = number.checked_add(1) else {
            return Err(AllocError);
        };
        let mut made = NewVariables {
            values: self.values,
            next,
        };
        match binder {
            Binder::Message(sort) => {
                let variable = Term::Var(Variable { sort, number });
                made.values.messages.push(variable)?;
                Ok(made)
            }
            Binder::Time => {
                made.values.times.push(number)?;
                Ok(made)
            }
        }
    }

    /// Variables of the numbers from `next` on for the binders.
    ///
    /// # Errors
    ///
    /// `AllocError` where memory is wanting, or no number is left.
    pub fn of(alloc: Global, binders: &Vec<Binder>, next: u128) -> Result<NewVariables, AllocError>
        ensures change { IfOk result (λ v. change_of v.values ≡ opening (map binder_of binders.now.items) next) }
        ensures next { IfOk result (λ v. v.next ≡ next + length binders.now.items) }
    {
        let values = Values {
            messages: Vec::new(alloc),
            times: Vec::new(alloc),
        };
        let mut made = NewVariables { values, next };
        for binder in binders {
            made = made.with(*binder)?;
        }
        Ok(made)
    }
}

impl Values {
    /// These values, which are given with the innermost first.
    pub fn innermost_first(mut messages: Vec<Term>, mut times: Vec<u128>) -> Values
        ensures { change_of result ≡ instance (map view messages.items) times.items }
    {
        messages.reverse();
        times.reverse();
        Values { messages, times }
    }

    fn message(&self, alloc: Global, inside: Inside, place: u64) -> Result<FormulaTerm, AllocError>
        ensures { IfOk result (λ t. placed_term t ≡ (inside_of inside (change_of self.now)).bound_terms place) }
    {
        if place < inside.messages {
            return Ok(Term::Var(Place::Bound(place)));
        }
        let beyond = place - inside.messages;
        let count = self.messages.len() as u64;
        if beyond < count {
            placed(alloc, &self.messages[(count - 1 - beyond) as usize])
        } else {
            Ok(Term::Var(Place::Bound(place - count)))
        }
    }

    fn moment(&self, inside: Inside, place: u64) -> Moment
        ensures { moment_of result ≡ (inside_of inside (change_of self.now)).bound_times place }
    {
        if place < inside.times {
            return Moment::Bound(place);
        }
        let beyond = place - inside.times;
        let count = self.times.len() as u64;
        if beyond < count {
            Moment::Free(self.times[(count - 1 - beyond) as usize])
        } else {
            Moment::Bound(place - count)
        }
    }

    fn in_moment(&self, inside: Inside, moment: Moment) -> Moment
        ensures { moment_of result ≡ time_changed (inside_of inside (change_of self.now)) (moment_of moment) }
    {
        match moment {
            Moment::Bound(place) => self.moment(inside, place),
            Moment::Free(time) => Moment::Free(time),
        }
    }

    fn atom_inside(&self, alloc: Global, inside: Inside, atom: &Atom) -> Result<Atom, AllocError>
        ensures { IfOk result (λ a. atom_of a ≡ atom_changed (inside_of inside (change_of self.now)) (atom_of atom.now)) }
    {
        let values = ValuesInside {
            values: self,
            inside,
        };
        match atom {
            Atom::Acts(action, time) => {
                let action = action.changed(alloc, &values)?;
                Ok(Atom::Acts(action, self.in_moment(inside, *time)))
            }
            Atom::Same(left, right) => {
                let left = apply(alloc, &values, left)?;
                let right = apply(alloc, &values, right)?;
                Ok(Atom::Same(left, right))
            }
            Atom::SameTime(first, second) => Ok(Atom::SameTime(
                self.in_moment(inside, *first),
                self.in_moment(inside, *second),
            )),
            Atom::Before(first, second) => Ok(Atom::Before(
                self.in_moment(inside, *first),
                self.in_moment(inside, *second),
            )),
            Atom::Last(time) => Ok(Atom::Last(self.in_moment(inside, *time))),
        }
    }

    fn atoms_inside(
        &self,
        alloc: Global,
        inside: Inside,
        atoms: &Vec<Atom>,
    ) -> Result<Vec<Atom>, AllocError>
        ensures { IfOk result (λ xs. map atom_of xs.items ≡ map (atom_changed (inside_of inside (change_of self.now))) (map atom_of atoms.now.items)) }
    {
        let mut made = Vec::with_capacity(alloc, atoms.len())?;
        for atom in atoms {
            made.push(self.atom_inside(alloc, inside, atom)?)?;
        }
        Ok(made)
    }

    // The existential formula over the body, with the values put into its guard.
    fn existential(
        &self,
        alloc: Global,
        within: Inside,
        binders: &Vec<Binder>,
        guard: &Vec<Atom>,
        body: Box<Formula>,
    ) -> Result<Formula, AllocError>
        ensures { IfOk result (λ f. formula_of f ≡ guarded.some (map binder_of binders.now.items) (map (atom_changed (inside_of within (change_of self.now))) (map atom_of guard.now.items)) (formula_of body.value)) }
    {
        let binders = Vec::from_slice(alloc, binders.as_slice())?;
        let guard = self.atoms_inside(alloc, within, guard)?;
        Ok(Formula::Exists(binders, guard, body))
    }

    // The universal formula over the body, with the values put into its guard.
    fn universal(
        &self,
        alloc: Global,
        within: Inside,
        binders: &Vec<Binder>,
        guard: &Vec<Atom>,
        body: Box<Formula>,
    ) -> Result<Formula, AllocError>
        ensures { IfOk result (λ f. formula_of f ≡ guarded.every (map binder_of binders.now.items) (map (atom_changed (inside_of within (change_of self.now))) (map atom_of guard.now.items)) (formula_of body.value)) }
    {
        let binders = Vec::from_slice(alloc, binders.as_slice())?;
        let guard = self.atoms_inside(alloc, within, guard)?;
        Ok(Formula::ForAll(binders, guard, body))
    }

    #[cycle(formula_inside)]
    fn formula_inside(
        &self,
        alloc: Global,
        inside: Inside,
        formula: &Formula,
    ) -> Result<Formula, AllocError>
        ensures { IfOk result (λ f. formula_of f ≡ changed (inside_of inside (change_of self.now)) (formula_of formula.now)) }
    {
        match formula {
            Formula::Truth => Ok(Formula::Truth),
            Formula::Falsity => Ok(Formula::Falsity),
            Formula::Holds(atom) => Ok(Formula::Holds(self.atom_inside(alloc, inside, atom)?)),
            Formula::Fails(atom) => Ok(Formula::Fails(self.atom_inside(alloc, inside, atom)?)),
            Formula::AllOf(formulas) => {
                let formulas = self.formulas_inside(alloc, inside, formulas)?;
                Ok(Formula::AllOf(formulas))
            }
            Formula::OneOf(formulas) => {
                let formulas = self.formulas_inside(alloc, inside, formulas)?;
                Ok(Formula::OneOf(formulas))
            }
            Formula::Exists(binders, guard, body) => {
                let within = inside.under(binders)?;
                let body = self.body_inside(alloc, within, body)?;
                self.existential(alloc, within, binders, guard, body)
            }
            Formula::ForAll(binders, guard, body) => {
                let within = inside.under(binders)?;
                let body = self.body_inside(alloc, within, body)?;
                self.universal(alloc, within, binders, guard, body)
            }
        }
    }

    // The formula, in a box.
    #[cycle(formula_inside)]
    fn body_inside(
        &self,
        alloc: Global,
        inside: Inside,
        body: &Formula,
    ) -> Result<Box<Formula>, AllocError>
        ensures { IfOk result (λ f. formula_of f.value ≡ changed (inside_of inside (change_of self.now)) (formula_of body.now)) }
    {
        let made = self.formula_inside(alloc, inside, body)?;
        let boxed = Box::new(alloc, made)?;
        Ok(boxed)
    }

    #[cycle(formula_inside)]
    fn formulas_inside(
        &self,
        alloc: Global,
        inside: Inside,
        formulas: &Vec<Formula>,
    ) -> Result<Vec<Formula>, AllocError>
        ensures { IfOk result (λ fs. map formula_of fs.items ≡ map (changed (inside_of inside (change_of self.now))) (map formula_of formulas.now.items)) }
    {
        let mut made = Vec::with_capacity(alloc, formulas.len())?;
        for formula in formulas {
            made.push(self.formula_inside(alloc, inside, formula)?)?;
        }
        Ok(made)
    }

    /// The atom with these values in place of those that were bound.
    ///
    /// # Errors
    ///
    /// `AllocError` where memory is wanting.
    pub fn in_atom(&self, alloc: Global, atom: &Atom) -> Result<Atom, AllocError>
        ensures { IfOk result (λ a. atom_of a ≡ atom_changed (change_of self.now) (atom_of atom.now)) }
    {
        let outermost = Inside {
            messages: 0,
            times: 0,
        };
        let made = self.atom_inside(alloc, outermost, atom)?;
        Ok(made)
    }

    /// The formula with these values in place of those that were bound outside it.
    ///
    /// # Errors
    ///
    /// `AllocError` where memory is wanting.
    pub fn in_formula(&self, alloc: Global, formula: &Formula) -> Result<Formula, AllocError>
        ensures { IfOk result (λ f. formula_of f ≡ changed (change_of self.now) (formula_of formula.now)) }
    {
        let outermost = Inside {
            messages: 0,
            times: 0,
        };
        let made = self.formula_inside(alloc, outermost, formula)?;
        Ok(made)
    }
}
