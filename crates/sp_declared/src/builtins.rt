// The theories that a text names to have their symbols and equations.

ghost use Rattle.std.specs.Prelude.{◌≡◌, [], ◌∷◌, IfOk, map, option_map, codes};
ghost use Rattle.sp_spec.specs.Term.{app};
ghost use Rattle.sp_spec.specs.Signature.{msg};
ghost use Rattle.sp_term.specs.View.{view, view_all};
ghost use Rattle.sp_fact.specs.GroundView.{symbol_of, equation_of};
ghost use Rattle.sp_spec_text.specs.Declared as spec;
ghost use Rattle.sp_declared.specs.View.{builtin};

use sp_fact::signature::{Equation, Symbol};
use sp_term::term::{Name, Sort, Term, Variable, nesting_over};
use std::alloc::{AllocError, Global};
use std::rc::Rc;

/// A theory that a text may name.
#[derive(Clone, Copy)]
pub enum Builtin {
    /// `hashing`
    Hashing,
    /// `symmetric-encryption`
    SymmetricEncryption,
    /// `asymmetric-encryption`
    AsymmetricEncryption,
    /// `signing`
    Signing,
    /// `revealing-signing`
    RevealingSigning,
}

/// The variable of this number, of sort msg.
fn message(number: u128) -> Term
    ensures { view result ≡ msg number }
{
    Term::Var(Variable {
        sort: Sort::Msg,
        number,
    })
}

/// A public symbol.
fn public(alloc: Global, name: &str, arity: usize) -> Result<Symbol, AllocError>
    ensures { IfOk result (λ s. symbol_of s ≡ spec.public name.now arity) }
{
    let name = Name::new(alloc, name)?;
    Ok(Symbol {
        name,
        arity,
        private: false,
    })
}

/// The public symbols of these names and arities.
fn all_public(alloc: Global, declared: &[(&str, usize)]) -> Result<Vec<Symbol>, AllocError>
    ensures { IfOk result (λ ss. map symbol_of ss.items ≡ map (λ d. spec.public d.0.now d.1) declared.now) }
{
    let mut made = Vec::with_capacity(alloc, declared.len())?;
    for (name, arity) in declared {
        made.push(public(alloc, name, *arity)?)?;
    }
    Ok(made)
}

/// The symbol over these arguments.
fn over(alloc: Global, symbol: &str, args: Vec<Term>) -> Result<Term, AllocError>
    ensures { IfOk result (λ t. view t ≡ app symbol.now (view_all args.items)) }
{
    let name = Name::new(alloc, symbol)?;
    let nesting = nesting_over(&args)?;
    let shared = Rc::new(alloc, args)?;
    Ok(Term::App(name, shared, nesting))
}

/// The message that an equation of builtins speaks of.
fn plain() -> Term
    ensures { view result ≡ spec.m }
{
    message(0)
}

/// Its key.
fn key() -> Term
    ensures { view result ≡ spec.k }
{
    message(1)
}

/// The public key of it.
fn public_key(alloc: Global) -> Result<Term, AllocError>
    ensures { IfOk result (λ t. view t ≡ spec.pk spec.k) }
{
    over(alloc, "pk", vec![in alloc; key()]?)
}

/// sdec(senc(m, k), k) = m
fn symmetric_decryption(alloc: Global) -> Result<Equation, AllocError>
    ensures { IfOk result (λ e. equation_of e ∷ [] ≡ spec.equations_of spec.symmetric_encryption) }
{
    let encrypted = over(alloc, "senc", vec![in alloc; plain(), key()]?)?;
    let left = over(alloc, "sdec", vec![in alloc; encrypted, key()]?)?;
    let right = plain();
    Ok(Equation { left, right })
}

/// adec(aenc(m, pk(k)), k) = m
fn asymmetric_decryption(alloc: Global) -> Result<Equation, AllocError>
    ensures { IfOk result (λ e. equation_of e ∷ [] ≡ spec.equations_of spec.asymmetric_encryption) }
{
    let public = public_key(alloc)?;
    let encrypted = over(alloc, "aenc", vec![in alloc; plain(), public]?)?;
    let left = over(alloc, "adec", vec![in alloc; encrypted, key()]?)?;
    let right = plain();
    Ok(Equation { left, right })
}

/// The test of a signature on m: verify(sign(m, k), m, pk(k)) = true, with these names of the symbols that test and sign
fn verification(alloc: Global, verify: &str, sign: &str) -> Result<Equation, AllocError>
    ensures { IfOk result (λ e. equation_of e ≡ record {
      left = spec.over verify.now (spec.over sign.now (spec.m ∷ spec.k ∷ []) ∷ spec.m ∷ spec.pk spec.k ∷ []);
      right = spec.over (codes "true") [];
    }) }
{
    let signed = over(alloc, sign, vec![in alloc; plain(), key()]?)?;
    let public = public_key(alloc)?;
    let left = over(alloc, verify, vec![in alloc; signed, plain(), public]?)?;
    let right = over(alloc, "true", Vec::new(alloc))?;
    Ok(Equation { left, right })
}

/// getMessage(revealSign(m, k)) = m
fn revelation(alloc: Global) -> Result<Equation, AllocError>
    ensures { IfOk result (λ e. equation_of e ≡ record {
      left = spec.over (codes "getMessage") (spec.over (codes "revealSign") (spec.m ∷ spec.k ∷ []) ∷ []);
      right = spec.m;
    }) }
{
    let signed = over(alloc, "revealSign", vec![in alloc; plain(), key()]?)?;
    let left = over(alloc, "getMessage", vec![in alloc; signed]?)?;
    let right = plain();
    Ok(Equation { left, right })
}

/// The equation alone.
fn alone(alloc: Global, equation: Equation) -> Result<Vec<Equation>, AllocError>
    ensures { IfOk result (λ es. map equation_of es.items ≡ equation_of equation ∷ []) }
{
    let mut made = Vec::new(alloc);
    made.push(equation)?;
    Ok(made)
}

/// The equations of signatures that reveal what is signed.
fn revealing(alloc: Global) -> Result<Vec<Equation>, AllocError>
    ensures { IfOk result (λ es. map equation_of es.items ≡ spec.equations_of spec.revealing_signing) }
{
    let mut made = alone(alloc, verification(alloc, "revealVerify", "revealSign")?)?;
    made.push(revelation(alloc)?)?;
    Ok(made)
}

impl Builtin {
    /// The builtin with this name; none where no builtin has it.
    #[tactic(auto, unfolding(sp_spec_text::specs::Declared::builtin_of))]
    pub fn named(name: &str) -> Option<Builtin>
        ensures { option_map builtin result ≡ spec.builtin_of name.now }
    {
        if name == "hashing" {
            Some(Builtin::Hashing)
        } else if name == "symmetric-encryption" {
            Some(Builtin::SymmetricEncryption)
        } else if name == "asymmetric-encryption" {
            Some(Builtin::AsymmetricEncryption)
        } else if name == "signing" {
            Some(Builtin::Signing)
        } else if name == "revealing-signing" {
            Some(Builtin::RevealingSigning)
        } else {
            None
        }
    }

    /// The symbols that it declares, all of them public.
    ///
    /// # Errors
    ///
    /// `AllocError` where memory is wanting.
    pub fn symbols(self, alloc: Global) -> Result<Vec<Symbol>, AllocError>
        ensures { IfOk result (λ ss. map symbol_of ss.items ≡ spec.symbols_of (builtin self)) }
    {
        match self {
            Builtin::Hashing => all_public(alloc, &[("h", 1)]),
            Builtin::SymmetricEncryption => all_public(alloc, &[("senc", 2), ("sdec", 2)]),
            Builtin::AsymmetricEncryption => {
                all_public(alloc, &[("aenc", 2), ("adec", 2), ("pk", 1)])
            }
            Builtin::Signing => all_public(
                alloc,
                &[("sign", 2), ("verify", 3), ("pk", 1), ("true", 0)],
            ),
            Builtin::RevealingSigning => all_public(
                alloc,
                &[
                    ("revealSign", 2),
                    ("revealVerify", 3),
                    ("getMessage", 1),
                    ("pk", 1),
                    ("true", 0),
                ],
            ),
        }
    }

    /// The equations that it declares.
    ///
    /// # Errors
    ///
    /// `AllocError` where memory is wanting.
    pub fn equations(self, alloc: Global) -> Result<Vec<Equation>, AllocError>
        ensures { IfOk result (λ es. map equation_of es.items ≡ spec.equations_of (builtin self)) }
    {
        match self {
            Builtin::Hashing => Ok(Vec::new(alloc)),
            Builtin::SymmetricEncryption => alone(alloc, symmetric_decryption(alloc)?),
            Builtin::AsymmetricEncryption => alone(alloc, asymmetric_decryption(alloc)?),
            Builtin::Signing => alone(alloc, verification(alloc, "verify", "sign")?),
            Builtin::RevealingSigning => revealing(alloc),
        }
    }
}
