// Laws of the forms of rules (their variants): each instance of a rule has as its normal form an instance of one of its forms, and the other way round.
// Below stand sp_spec, sp_law_equal (normal forms), sp_law_unify (the unifier is most general) and sp_law_conv (terms with their variables renamed apart);
// sp_law_decide and sp_law_system have lemmas on values of terms.
// Carried here: the forms are complete, sound, in normal form and each listed once, for equations over which each term has one normal form.
// What the forms are stands in sp_spec_forms, and each lemma in a file of proofs/ by its subject.
// The functions do nothing when they run: the one clause of each is a law.
#![tactic(auto)]

ghost use Rattle.sp_law_forms.specs.Laws.{FormsAreComplete, FormsAreSound, FormsAreProper, FormsKeepPremises, PlainRulesStay};

/// At all values the normal form of a rule's facts is an instance, at normal values, of one of its forms.
pub fn forms_are_complete()
    ensures { FormsAreComplete }
{}

/// Each instance of a form is equal, modulo the equations, to one of the rule.
pub fn forms_are_sound()
    ensures { FormsAreSound }
{}

/// Forms are numbered from 0 on, count their facts' variables, are in normal form, and listed once; none is left out but for one with the same facts.
pub fn forms_are_proper()
    ensures { FormsAreProper }
{}

/// Where the premises of a form are normal they are those of the rule at normal values, if these hold no destructor.
pub fn forms_keep_premises()
    ensures { FormsKeepPremises }
{}

/// A rule without destructors has one form: itself, with its variables numbered.
pub fn plain_rules_stay()
    ensures { PlainRulesStay }
{}
