// Premises that need no step for a source: an Fr, an In, and what a link leads to.

ghost use Rattle.std.specs.Prelude.{◌≡◌, map};
ghost use Rattle.sp_spec.specs.Log.{is_fr, is_in};
ghost use Rattle.sp_fact.specs.View.{fact_of};
ghost use Rattle.sp_system.specs.SystemView.{link_of};
ghost use Rattle.sp_spec_graph.specs.Premise as premise_spec;

use sp_fact::fact::Fact;
use sp_system::system::Link;

/// Whether the fact is the Fr of a name.
pub fn is_fresh(fact: &Fact) -> bool
    ensures { result ≡ is_fr (fact_of fact.now) }
{
    fact.symbol.text.as_str() == "Fr" && !fact.persistent
}

/// Whether the fact is an In.
pub fn is_received(fact: &Fact) -> bool
    ensures { result ≡ is_in (fact_of fact.now) }
{
    fact.symbol.text.as_str() == "In" && !fact.persistent
}

/// Whether some link leads to the premise at the place of the event at the time.
pub fn is_linked(links: &Vec<Link>, time: u128, place: usize) -> bool
    ensures { result ≡ premise_spec.is_linked (map link_of links.now.items) time place }
{
    for link in links {
        if link.to == time && link.premise == place {
            return true;
        }
    }
    false
}
