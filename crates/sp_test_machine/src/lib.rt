// What steps do on worked examples: equations that are accepted, ground terms and their normal forms, steps and the texts of them, executions, truth over a trace, learning logs, of steps alone too, and links of chains.
// Below stand the makers of values (sp_test_make), what reads the theories, formulas and steps of the examples (sp_pose, sp_guard,
// sp_read_steps), and the crates of ground terms (sp_fact), normal forms (sp_norm), texts of steps
// (sp_show), replayed executions (sp_exec), truth (sp_eval), steps of logs (sp_log), destructions and links (sp_destruct) and learning logs (sp_learn). Nothing stands above.
// Nothing is promised here. What no clause says is shown: that the definitions mean what is meant by them, by values from outside.
#![tactic(auto)]

#[cfg(test)]
mod equations;
#[cfg(test)]
mod executions;
#[cfg(test)]
mod learn;
#[cfg(test)]
mod links;
#[cfg(test)]
mod logs;
#[cfg(test)]
mod normal_forms;
#[cfg(test)]
mod terms;
#[cfg(test)]
mod texts;
#[cfg(test)]
mod theories;
#[cfg(test)]
mod truth;
