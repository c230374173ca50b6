// The command, as `clap` takes it: its subcommands, and their arguments.
ghost use Rattle.std.specs.Prelude.{◌≡◌, IfOk, false};
ghost use Rattle.clap.specs.Words.{app_of};
ghost use Rattle.clap.specs.declared.builder.command.Command.TheViews.{out-Command as fields_of};
ghost use Rattle.sp_words.specs.Line.{drawing, first_four, making, on_file, proving, spthy};

use clap::Arg;
use std::alloc::{AllocError, Global};

/// The word of a command, and FILE.
fn on_file<'a>(alloc: Global, word: &'a str) -> Result<clap::Command<'a>, AllocError>
    ensures app { IfOk result (λ r. app_of r ≡ on_file word.entry.now) }
    ensures local { IfOk result (λ r. (fields_of r).has_globals ≡ false) }
{
    let file = Arg::new(alloc, "FILE").required(true);
    clap::Command::new(alloc, word).arg(file)
}

/// `prove FILE [--budget N] [--lemma NAME]`.
fn proving<'a>(alloc: Global) -> Result<clap::Command<'a>, AllocError>
    ensures app { IfOk result (λ r. app_of r ≡ proving) }
    ensures local { IfOk result (λ r. (fields_of r).has_globals ≡ false) }
{
    let budget = Arg::new(alloc, "budget").long("budget");
    let lemma = Arg::new(alloc, "lemma").long("lemma");
    let with_budget = on_file(alloc, "prove")?.arg(budget)?;
    with_budget.arg(lemma)
}

/// `graph FILE --lemma NAME`.
fn drawing<'a>(alloc: Global) -> Result<clap::Command<'a>, AllocError>
    ensures app { IfOk result (λ r. app_of r ≡ drawing) }
    ensures local { IfOk result (λ r. (fields_of r).has_globals ≡ false) }
{
    let lemma = Arg::new(alloc, "lemma").long("lemma").required(true);
    on_file(alloc, "graph")?.arg(lemma)
}

/// `gen N [--budget N]`.
fn making<'a>(alloc: Global) -> Result<clap::Command<'a>, AllocError>
    ensures app { IfOk result (λ r. app_of r ≡ making) }
    ensures local { IfOk result (λ r. (fields_of r).has_globals ≡ false) }
{
    let number = Arg::new(alloc, "N").required(true);
    let budget = Arg::new(alloc, "budget").long("budget");
    let with_number = clap::Command::new(alloc, "gen").arg(number)?;
    with_number.arg(budget)
}

/// The subcommands up to `variants FILE`.
fn first_four<'a>(alloc: Global) -> Result<clap::Command<'a>, AllocError>
    ensures { IfOk result (λ r. app_of r ≡ first_four) }
{
    let proves = clap::Command::new(alloc, "spthy").subcommand(proving(alloc)?)?;
    let checks = proves.subcommand(on_file(alloc, "check")?)?;
    let replays = checks.subcommand(on_file(alloc, "replay")?)?;
    replays.subcommand(on_file(alloc, "variants")?)
}

/// The whole command, of which one subcommand is required.
pub(crate) fn spthy<'a>(alloc: Global) -> Result<clap::Command<'a>, AllocError>
    ensures { IfOk result (λ r. app_of r ≡ spthy) }
{
    let finds = first_four(alloc)?.subcommand(on_file(alloc, "wf")?)?;
    let draws = finds.subcommand(drawing(alloc)?)?;
    let makes = draws.subcommand(making(alloc)?)?;
    Ok(makes.subcommand_required(true))
}
