// The bindings that make a pattern a term.

ghost use Rattle.std.specs.Prelude.{◌≡◌, [], IfOk, MatchOption, option_map};
ghost use Rattle.sp_spec.specs.Matching.{matched_by, bound_by, IsMatch, NoneMatches};
ghost use Rattle.sp_term.specs.Bindings.{bindings_by};
ghost use Rattle.sp_term.specs.View.{view, view_by};

use crate::matching::extend;
use crate::subst::Bindings;
use crate::term::{Leaf, Term};
use std::alloc::{AllocError, Global};

/// The bindings of the pattern's variables that make it the term, by sorts; none where no terms do so.
pub fn matches<M: Leaf>(
    alloc: Global,
    pattern: &Term,
    term: &Term<M>,
) -> Result<Option<Bindings<M>>, AllocError>
    ensures found { IfOk result (λ o. option_map (bindings_by M.leaf_of) o ≡ matched_by (bound_by M.test M.of_sort) (view pattern.now) (view_by M.leaf_of term.now) []) }
    ensures means { IfOk result (λ o. MatchOption o (NoneMatches M.of_sort (view pattern.now) (view_by M.leaf_of term.now))
        (λ s. IsMatch M.of_sort (view pattern.now) (view_by M.leaf_of term.now) (bindings_by M.leaf_of s))) }
{
    let mut found = Bindings::new(alloc);
    if extend(pattern, term, &mut found)? {
        Ok(Some(found))
    } else {
        Ok(None)
    }
}
