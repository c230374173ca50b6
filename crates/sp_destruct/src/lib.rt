// The destructions of a theory, by which the adversary gets the result from a message of the pattern and from the side messages, and links of chains:
// whether a message follows from another by a destruction, its side messages among those learnt earlier. Below stand the definitions (sp_spec), terms
// in memory (sp_term) and a theory's symbols and equations (sp_fact, sp_norm, sp_conv); above stands whoever checks or makes logs that learn by chains.
// Carried here: the list is the definition's, in its order, and a link that is found is one of the definition, with the least destruction and the least
// places of side messages; where none is found there is none. A function without a body does nothing when it runs: its clause is the law.
#![tactic(auto)]

ghost use Rattle.sp_destruct.specs.Laws.{LinksAreDecided};

pub mod destruction;
pub mod link;
pub mod search;

/// By a destruction there is a link exactly if some values make it lead from the first message to the second.
pub fn links_are_decided()
    ensures { LinksAreDecided }
{}
