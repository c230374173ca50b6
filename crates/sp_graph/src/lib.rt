// The graph of a learning log that was found, as JSON.
// Below stand logs in memory (sp_learn), the lines of logs (sp_show_log) and what they are (sp_spec_log_lines); above stands what is printed for a picture.
// Carried here: the promise that the graph's nodes are the log's lines, and its edges the sources that the log names and, of what is learnt, those to
// its send, from its parts and from its chain's step, each once. specs/Edges.antt says what the edges are, specs/Graph.antt what is written.
#![tactic(auto)]

pub mod edges;
pub mod graph;

ghost use Rattle.sp_graph.specs.Laws.{GraphIsRight};

/// An edge leads from each entry that is taken from to the one that takes, and no edge leads elsewhere; they stand in order, each once.
pub fn graph_is_right()
    ensures { GraphIsRight }
{}
