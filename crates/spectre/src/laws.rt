//! Laws over the definitions alone, of what the answers of each command rest on. Each is the
//! contract of a function that does nothing, or that calls another law, so that the check proves it.

ghost use Rattle.std.specs.Prelude.{ℕ, List, Option};
ghost use Rattle.sp_form.specs.Bytes.{IsBytes};
ghost use Rattle.spectre.specs.Exports.{ExportIsRead};
ghost use Rattle.spectre.specs.Rests.{KeptAgree};
ghost use Rattle.spectre.specs.RunOf.{RunsAreLines};
ghost use Rattle.spectre.specs.Talks.{JobAgrees, Talk, TalksAnswerAlike};
ghost use Rattle.spectre.specs.declared.job.Job.{Job};

/// Of whatever bytes arrive, the blocks that are kept agree: no two accepted transactions conflict, each
/// accepted one has accepted inputs, and no more is left than genesis grants. So it is with each command.
pub fn kept_agree()
    ensures { KeptAgree }
{
    sp_engine::payments::nothing_is_made();
}

/// So they do of each command that answers anything: over what is kept of a found journal's blocks and
/// then of the feed's; over the blocks of a journal that is shown; and over those of a scenario.
pub fn jobs_agree()
    ensures { (job : Option Job) (disk input : List ℕ) → IsBytes disk → JobAgrees job disk input }
{
    sp_engine::payments::nothing_is_made();
}

/// A question is answered by the same bytes by any two commands, once the same valid blocks have
/// arrived for it, in whatever order.
pub fn talks_are_alike()
    ensures { (talk other : Talk) → TalksAnswerAlike talk other }
{}

/// A reader of the feed that is written of a journal finds the profile that was asked for, the journal's
/// bits of work and genesis block, and its blocks in their order, and that nothing follows.
#[tactic(auto, using(crate::proofs::Exported::export_is_read))]
pub fn exports_are_read()
    ensures { ExportIsRead }
{}

/// What a run writes before the line of its fault are whole lines.
#[tactic(auto, using(crate::proofs::RunLines::run_lines))]
pub fn runs_are_lines()
    ensures { RunsAreLines }
{}
