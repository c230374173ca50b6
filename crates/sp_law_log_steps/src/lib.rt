// What a step in a log stands for: the making of its fresh names and the use of its rule, with the values that its facts give to the rule's variables.
// Below stand sp_spec (logs, executions), the laws of equality, sp_law_run (values given by name), sp_law_log (what stands in logs) and sp_law_forms (forms
// of rules); above stand the executions of learning logs (sp_law_log_execution), and the steps of logs in memory (sp_log).
// It carries no promise of its own: that an execution goes on with these steps is a part of the law of sp_law_log_execution.
#![tactic(auto)]
