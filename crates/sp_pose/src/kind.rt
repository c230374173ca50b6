// The words of a lemma's kind.

ghost use Rattle.std.specs.Prelude.{◌≡◌};
ghost use Rattle.sp_written.specs.Views as view;
ghost use Rattle.sp_spec_printed.specs.Kind as spec;

use sp_written::TraceKind;

/// The words of a kind.
pub fn kind_text(kind: TraceKind) -> &'static str
    ensures { result.now ≡ spec.kind_text (view.kind kind) }
{
    match kind {
        TraceKind::AllTraces => "all-traces",
        TraceKind::ExistsTrace => "exists-trace",
    }
}
