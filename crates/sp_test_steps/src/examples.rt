// Systems and contexts that several files of tests begin with.

use sp_book::book::RuleBook;
use sp_fact::rule::Rule;
use sp_fact::signature::Signature;
use sp_formula::formula::{Binder, Formula, Moment};
use sp_solved::{Root, Sought};
use sp_step::context::Context;
use sp_step::reduce::{Row, reduce};
use sp_step::simplify::is_contradictory;
use sp_system::system::System;
use sp_term::term::{Name, Sort};
use sp_test_make::plain::{PlainEvent, PlainFact, PlainFacts, PlainTerm};
use sp_test_make::plain_systems::{EMPTY, PlainAtom, PlainFormula, PlainLeaf, PlainSystem};
use sp_variant::book::book;
use std::alloc::{AllocError, Global};

/// There are ~x, i, y and j with A(y) at j and A(~x) at i, and not y = ~x.
pub const TWO_THAT_DIFFER: PlainFormula<'static> = PlainFormula::Exists(
    &[
        Binder::Message(Sort::Fresh),
        Binder::Time,
        Binder::Message(Sort::Msg),
        Binder::Time,
    ],
    &[
        PlainAtom::Acts("A", &[PlainLeaf::Bound(0)], Moment::Bound(0)),
        PlainAtom::Acts("A", &[PlainLeaf::Bound(1)], Moment::Bound(1)),
    ],
    &PlainFormula::Fails(PlainAtom::Same(PlainLeaf::Bound(0), PlainLeaf::Bound(1))),
);

/// The premise Fr(~0) and the action A(~0).
pub const USING: PlainFacts<'static> = PlainFacts {
    premises: &[PlainFact::Linear("Fr", &[PlainTerm::Variable(Sort::Fresh, 0)])],
    actions: &[("A", &[PlainTerm::Variable(Sort::Fresh, 0)])],
    conclusions: &[],
};

/// Two events of R at 2 and 3 with one Fr; and: ~0 isn't 'c', two differ, A(~0) at 2, and 2 isn't 3.
pub const SHARING: PlainSystem<'static> = PlainSystem {
    events: &[
        PlainEvent::Step(2, "R", USING),
        PlainEvent::Step(3, "R", USING),
    ],
    formulas: &[
        PlainFormula::Fails(PlainAtom::Same(
            PlainLeaf::Free(Sort::Fresh, 0),
            PlainLeaf::Public("c"),
        )),
        TWO_THAT_DIFFER,
        PlainFormula::Holds(PlainAtom::Acts(
            "A",
            &[PlainLeaf::Free(Sort::Fresh, 0)],
            Moment::Free(2),
        )),
        PlainFormula::Fails(PlainAtom::SameTime(Moment::Free(2), Moment::Free(3))),
    ],
    next: 4,
    ..EMPTY
};

/// The second event is one of S.
pub const SHARING_OF_TWO: PlainSystem<'static> = PlainSystem {
    events: &[
        PlainEvent::Step(2, "R", USING),
        PlainEvent::Step(3, "S", USING),
    ],
    ..SHARING
};

/// The numbers of events, formulas, spent formulas, unequal pairs and ordered pairs, and the next number.
pub type Sizes = (usize, usize, usize, usize, usize, u128);

/// How much stands in the system.
pub fn sizes(system: &System) -> Sizes {
    (
        system.events.len(),
        system.formulas.len(),
        system.spent.len(),
        system.unequal.len(),
        system.order.pairs().len(),
        system.next,
    )
}

/// What a context refers to.
#[derive(Drop)]
pub struct Parts {
    rules: RuleBook,
    signature: Signature,
    constants: Vec<Name>,
    restrictions: Vec<Formula>,
    taken: Vec<Formula>,
    formula: Formula,
}

impl Parts {
    /// The rules, the restrictions, no symbols, constants and taken formulas, and the formula that is sought.
    pub fn restricted(
        alloc: Global,
        rules: Vec<Rule>,
        restrictions: Vec<Formula>,
        formula: Formula,
    ) -> Result<Parts, AllocError> {
        let signature = Signature {
            symbols: Vec::new(alloc),
            equations: Vec::new(alloc),
        };
        Ok(Parts {
            rules: book(alloc, &signature.equations, &rules)?,
            signature,
            constants: Vec::new(alloc),
            restrictions,
            taken: Vec::new(alloc),
            formula,
        })
    }

    /// The rules, no symbols, constants, restrictions and taken formulas, and the formula that is sought.
    pub fn new(alloc: Global, rules: Vec<Rule>, formula: Formula) -> Result<Parts, AllocError> {
        Parts::restricted(alloc, rules, Vec::new(alloc), formula)
    }

    /// The context of these.
    pub fn context(&self) -> Context<'_> {
        Context {
            rules: &self.rules,
            sought: Sought {
                signature: &self.signature,
                constants: &self.constants,
                root: Root {
                    restrictions: &self.restrictions,
                    taken: &self.taken,
                    sought: &self.formula,
                    begins_with_induction: false,
                    consecutive: false,
                    cases: None,
                },
            },
        }
    }
}

/// No rules, and what no system speaks of.
pub fn no_rules(alloc: Global) -> Result<Parts, AllocError> {
    Parts::new(alloc, Vec::new(alloc), Formula::Truth)
}

/// What the row makes of the system, if it applies.
pub fn reduced(alloc: Global, row: Row, given: &System) -> Result<Option<System>, AllocError> {
    let parts = no_rules(alloc)?;
    let mut made = given.clone()?;
    let applies = reduce(alloc, &parts.context().theory(), &mut made, row)?;
    Ok(if applies { Some(made) } else { None })
}

/// Whether a contradiction is seen.
pub fn contradicts(alloc: Global, given: &System) -> Result<bool, AllocError> {
    let parts = no_rules(alloc)?;
    is_contradictory(alloc, &parts.context().theory(), given)
}
