// The graph of a learning log as JSON.

ghost use Rattle.std.specs.Prelude.{◌≡◌, IfOk, map, string_bytes};
ghost use Rattle.serde_json.specs.View.{view};
ghost use Rattle.sp_fact.specs.GroundView.{equation_of};
ghost use Rattle.sp_book.specs.View.{rule_forms_of};
ghost use Rattle.sp_learn.specs.View.{entry_of, log_of};
ghost use Rattle.sp_show_log.specs.Given.{given_among};
ghost use Rattle.sp_graph.specs.EdgesView.{edge_of};
ghost use Rattle.sp_graph.specs.Edges.{edges};
ghost use Rattle.sp_graph.specs.Graph as spec;

use crate::edges::{Edge, edges};
use serde_json::{Value, json};
use sp_book::book::RuleBook;
use sp_book::form::RuleForms;
use sp_fact::signature::{Equation, Signature};
use sp_learn::log::{Entry, Log};
use sp_show_log::line::log_line;
use std::alloc::{AllocError, Global};

// The kind of an entry's node.
fn node_kind(entry: &Entry) -> &str
    ensures { result.now ≡ spec.node_kind (entry_of entry.now) }
{
    match entry {
        Entry::Step(_) => "rule",
        Entry::Send(_) => "send",
        Entry::Learn(_, _) => "learn",
    }
}

// A text without its first word and the blank behind that.
fn behind_word(text: &str) -> &str
    ensures { result.now ≡ spec.behind_word text.now }
{
    match text.split_once(' ') {
        Some((_, rest)) => rest,
        None => "",
    }
}

// What is written for an edge.
fn edge_value(alloc: Global, edge: &Edge) -> Result<Value, AllocError>
    ensures { IfOk result (λ v. view v ≡ spec.edge (edge_of edge.now)) }
{
    let kind = if edge.is_fact { "fact" } else { "learn" };
    json!(in alloc; {"from": edge.from, "kind": kind, "to": edge.to})
}

// What is written for each edge.
fn edge_values(alloc: Global, entries: &Vec<Entry>) -> Result<Vec<Value>, AllocError>
    ensures { IfOk result (λ vs. map view vs.items ≡ map spec.edge (edges (map entry_of entries.now.items))) }
{
    let mut values = Vec::new(alloc);
    for edge in &edges(alloc, entries)? {
        values.push(edge_value(alloc, edge)?)?;
    }
    Ok(values)
}

// The node of an entry.
fn node(
    alloc: Global,
    equations: &Vec<Equation>,
    rules: &Vec<RuleForms>,
    entry: &Entry,
) -> Result<Value, AllocError>
    ensures { IfOk result (λ v. view v
        ≡ spec.node (given_among (map equation_of equations.now.items) (map rule_forms_of rules.now.items)) (entry_of entry.now)) }
{
    let line = log_line(alloc, equations, rules, entry)?;
    let text = behind_word(line.as_str());
    json!(in alloc; {"kind": node_kind(entry), "text": text})
}

// The node of each entry.
fn nodes(
    alloc: Global,
    equations: &Vec<Equation>,
    rules: &Vec<RuleForms>,
    entries: &Vec<Entry>,
) -> Result<Vec<Value>, AllocError>
    ensures { IfOk result (λ vs. map view vs.items
        ≡ map (spec.node (given_among (map equation_of equations.now.items) (map rule_forms_of rules.now.items))) (map entry_of entries.now.items)) }
{
    let mut values = Vec::new(alloc);
    for entry in entries {
        values.push(node(alloc, equations, rules, entry)?)?;
    }
    Ok(values)
}

// What is written of a log that was found for the lemma of this name.
fn graph_value(
    alloc: Global,
    signature: &Signature,
    rules: &RuleBook,
    lemma: &str,
    entries: &Vec<Entry>,
) -> Result<Value, AllocError>
    ensures { IfOk result (λ v. view v
        ≡ spec.graph_of (given_among (map equation_of signature.now.equations.items) (map rule_forms_of rules.now.rules.items))
        lemma.now (map entry_of entries.now.items)) }
{
    let edges = Value::Array(edge_values(alloc, entries)?);
    let nodes = Value::Array(nodes(alloc, &signature.equations, &rules.rules, entries)?);
    json!(in alloc; {"edges": edges, "lemma": lemma, "nodes": nodes})
}

/// The text of the graph of a log that was found for the lemma of this name: one line of JSON without a blank.
///
/// # Errors
///
/// `AllocError` where memory is wanting.
pub fn graph(
    alloc: Global,
    signature: &Signature,
    rules: &RuleBook,
    lemma: &str,
    log: &Log,
) -> Result<String, AllocError>
    ensures { IfOk result (λ text. string_bytes text
        ≡ spec.graph_text (given_among (map equation_of signature.now.equations.items) (map rule_forms_of rules.now.rules.items)) lemma.now (log_of log.now)) }
{
    let value = graph_value(alloc, signature, rules, lemma, &log.entries)?;
    let mut text = value.to_string(alloc)?;
    text.push_str("\n")?;
    Ok(text)
}
