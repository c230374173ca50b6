// The rules of a text, each with its forms.

ghost use Rattle.std.specs.Prelude.{◌≡◌, ◌++◌, IfOk, OnOk, map, string_bytes};
ghost use Rattle.sp_pose.specs.Replies.{IsReplyTo};
ghost use Rattle.sp_book.specs.View.{form_of, rule_forms_of};
ghost use Rattle.sp_rule_forms.specs.Variants as spec;
ghost use Rattle.sp_rule_forms.specs.View.{IsWritten};

use crate::text::{write_facts, write_rule_head};
use sp_book::form::{Form, RuleForms};
use sp_pose::{Read, Reply, posed_by};
use sp_variant::book::book;
use std::alloc::{AllocError, Global};

/// Puts a line for each form at the end.
fn write_forms(alloc: Global, out: &mut String, forms: &Vec<Form>) -> Result<(), AllocError>
    ensures { OnOk result (string_bytes out.new ≡ string_bytes out.old ++ spec.lines_of (map form_of forms.now.items)) }
{
    for form in forms {
        write_facts(alloc, out, &form.facts)?;
    }
    Ok(())
}

/// Puts the rule with its forms at the end.
fn write_rule(alloc: Global, out: &mut String, rule: &RuleForms) -> Result<(), AllocError>
    ensures { OnOk result (string_bytes out.new ≡ string_bytes out.old ++ spec.rule_text (rule_forms_of rule.now)) }
{
    write_rule_head(out, &rule.name, rule.forms.len())?;
    write_forms(alloc, out, &rule.forms)
}

/// The rules, each with its forms.
fn rules_text(alloc: Global, rules: &Vec<RuleForms>) -> Result<Vec<u8>, AllocError>
    ensures { IfOk result (λ text. text.items ≡ spec.rules_text (map rule_forms_of rules.now.items)) }
{
    let mut out = String::new(alloc);
    for rule in rules {
        write_rule(alloc, &mut out, rule)?;
    }
    Vec::from_slice(alloc, out.as_bytes())
}

/// What comes of a text whose rules' forms are listed: it is refused at a place, or there are findings on its theory, or each of its rules is
/// written with its forms.
///
/// # Errors
///
/// `AllocError` where memory is wanting, or a number of a new variable doesn't fit.
pub fn variants(alloc: Global, text: &[u8]) -> Result<Reply<Vec<u8>>, AllocError>
    ensures { IfOk result (IsReplyTo IsWritten text.now) }
{
    match posed_by(alloc, text)? {
        Read::Refused(place) => Ok(Reply::Refused(place)),
        Read::Reported(lines) => Ok(Reply::Reported(lines)),
        Read::Posed(problem) => {
            let book = book(alloc, &problem.signature.equations, &problem.rules)?;
            let written = rules_text(alloc, &book.rules)?;
            Ok(Reply::Done(written))
        }
    }
}
