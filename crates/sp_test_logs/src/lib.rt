// What texts pose, their step lines, and the logs of the executions that these tell, on worked examples.
// Below stand what a text poses (sp_pose), the reader of step lines (sp_read_steps), and the logs of executions (sp_transfer) with what judges them.
// Nothing stands above.
// Nothing is promised here. What no clause says is shown: that the definitions mean what the language does, by values from outside.
#![tactic(auto)]

#[cfg(test)]
mod executions;
#[cfg(test)]
mod logs;
#[cfg(test)]
mod posed;
#[cfg(test)]
mod steps;
