// The adversary: whatever it gets in an execution, by constructions and destructions in any order and modulo the equations,
// can be learnt in normal form, each message once.
// Below stand sp_spec (executions, learning logs), the laws of equality, of truth, of guarded forms, and of logs (destructions, where facts come from).
// Above stands whoever shows a lemma of executions by learning logs. Carried here: each execution has a log that shows its trace in normal form.
// The functions do nothing when they run: the one clause of each is a law.
#![tactic(auto)]

ghost use Rattle.sp_law_adversary.specs.Laws.{ExecutionsAreLearnt, LogsKeepTruth, PairsKeepPublic};
ghost use Rattle.sp_law_adversary.specs.Lemmas.{LogsShowLemmas};
ghost use Rattle.sp_law_adversary.specs.Lost.{SecretsAreLost};

/// Each execution has a learning log that shows its trace in normal form.
pub fn executions_are_learnt()
    ensures { ExecutionsAreLearnt }
{}

/// The equations that belong to every theory bring the adversary nothing that it can't make or take out.
pub fn pairs_keep_public()
    ensures { PairsKeepPublic }
{}

/// What doesn't speak of learning is as true over the trace as over the log's.
pub fn logs_keep_truth()
    ensures { LogsKeepTruth }
{}

/// What holds in all learning logs holds in all executions, and what holds in none holds in none.
pub fn logs_show_lemmas()
    ensures { LogsShowLemmas }
{}

/// Where a right side is a private constant, there is a theory with an execution whose trace no log shows.
pub fn secrets_are_lost()
    ensures { SecretsAreLost }
{}
