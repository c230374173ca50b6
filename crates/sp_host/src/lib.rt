// The outside as the system has it: files and standard input as a library of texts, standard output as a sink.
// Below stands sp_io, whose clauses they keep; above it the program (spthy) alone.
// It promises that they fail only where their count of faults rises, give at most as many bytes as they may, and take what they say. What files hold and
// what the terminal shows isn't told.
#![tactic(auto)]

mod files;
mod terminal;

pub use files::Files;
pub use terminal::Terminal;
