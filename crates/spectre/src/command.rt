//! The top call: all that the program does, with the theorem as its contract.

ghost use Rattle.std.specs.Prelude.{◌⊎◌, ◌≡◌, ◌↔◌, ℕ, Bool, List, IfSome, IsNone};
ghost use Rattle.sp_disk.specs.Moments.{Lasts, Leaves, Looks};
ghost use Rattle.sp_journal.specs.Creation.{HoldsJournal, IsSynced};
ghost use Rattle.sp_journal.specs.Records.{records};
ghost use Rattle.sp_io.specs.Causes.{Rose};
ghost use Rattle.sp_io.specs.Whole.{AppendsFront, ConsumesUpTo};
ghost use Rattle.sp_play.specs.Source.{scenario_limit};
ghost use Rattle.spectre.specs.Certificates.{ShowsSign, Stands};
ghost use Rattle.spectre.specs.Chains.{EndsByChain, TakesHead};
ghost use Rattle.spectre.specs.Crashes.{HoldsOnward, Recovery};
ghost use Rattle.spectre.specs.Ends.{Comes, EndsByDisk};
ghost use Rattle.spectre.specs.JobEnds.{WritesFed};
ghost use Rattle.spectre.specs.Jobs.{AnswersFeed, IsCheck, NamesFile, Shows, TakesNothing, TakesScenario, WritesLast};
ghost use Rattle.spectre.specs.Output.{blocks_before, due_of, OnCertify, OnDisk, OnKeep};
ghost use Rattle.spectre.specs.Replay.{replied_but_last};
ghost use Rattle.spectre.specs.Rests.{KeptAgree};
ghost use Rattle.spectre.specs.Run.{Counted, Ended, IsCutShort, IsOwnEnd, run_status, run_text};
ghost use Rattle.spectre.specs.RunOf.{asked, EndsAtDisk, LeavesRest, OnRun, RunsAreLines, Told};
ghost use Rattle.spectre.specs.Taken.{TakesFeedFor};
ghost use Rattle.spectre.specs.Talks.{JobAgrees, JobAnswersAlike};

use crate::doing::do_job;
use crate::job::{Job, JobFault, read_job};
use crate::laws::{jobs_agree, kept_agree, runs_are_lines};
use crate::status::Status;
use sp_cert::laws::{read_is_certificate, soundness};
use sp_disk::Disk;
use sp_io::{Sink, Source};
use std::alloc::Global;

/// Runs the program on the words after its name, and answers how the run ended. `play` and `build`
/// read a scenario from `source` to the end before they write the first byte to `sink`; `replay`
/// reads a feed message by message and writes the answer to each before it takes a byte of the next;
/// `node` does so too, and records each kept block in the journal on `disk` before its line is written;
/// `show` writes what that journal holds; `make` and `drill` read nothing. `certify` and `spend` read a feed,
/// and `check` a certificate, to its end before they write the first byte; `watch` answers a feed as `replay`
/// does, and writes what each block changes.
///
/// No clause speaks of time. A block that becomes present takes a few passes over the pairs of unrelated
/// blocks, at most 130,816, and for each voter that is asked anew on such a pair a count over rows of
/// eight words; what it carries takes time by what it brings and turns. The reading of a scenario takes
/// time in proportion to its bytes, but for look-ups of names, and for the nonces that are tried where
/// work is asked for. A recorded block costs two writes and two syncs, and a start reads each record once.
pub fn run<S: Source, K: Sink, D: Disk>(
    alloc: Global,
    words: &[String],
    source: &mut S,
    sink: &mut K,
    disk: &mut D,
) -> Status
    // A run that ends of itself is the one that the words, the input and what the disk reads define: with its
    // status, and all of its text, which the sink took: whole lines, and then the line of its fault, where it has
    // one. What is left of the input follows from the status.
    ensures as_defined { IsOwnEnd result → OnRun (asked words.now) (S.left source.old) (D.now disk.old).reads (λ run.
        Ended run result (K.taken sink.old) (K.taken sink.new)) }
    ensures whole_lines { RunsAreLines }
    ensures rest { LeavesRest (asked words.now) (S.left source.old) (S.left source.new) result }
    // Where a read, a write or the disk failed, or memory was refused, the sink took a front of that text.
    ensures cut_short { IsCutShort result → OnRun (asked words.now) (S.left source.old) (D.now disk.old).reads (λ run.
        AppendsFront (K.taken sink.old) (K.taken sink.new) (run_text run)) }
    // Where no count rose, the run ends so, or memory was refused.
    ensures complete { ¬ Rose (S.faults source.old) (S.faults source.new)
        → ¬ Rose (K.faults sink.old) (K.faults sink.new)
        → ¬ Rose (D.now disk.old).faults (D.now disk.new).faults
        → OnRun (asked words.now) (S.left source.old) (D.now disk.old).reads (λ run.
        (result ≡ run_status run) ⊎ (result ≡ Status.Memory)) }

    // A count rose just where the run ends by that fault.
    ensures read_counted { Counted Status.ReadFault result (S.faults source.old) (S.faults source.new) }
    ensures write_counted { Counted Status.WriteFault result (K.faults sink.old) (K.faults sink.new) }
    ensures disk_counted { Counted Status.DiskFault result (D.now disk.old).faults (D.now disk.new).faults }

    // Where the words are wrong, nothing was read or written; and no other status comes than those of a command.
    ensures usage { (result ≡ Status.Usage) ↔ IsNone (asked words.now) }
    ensures untouched { result ≡ Status.Usage → (source.new ≡ source.old) × (sink.new ≡ sink.old) }
    ensures no_input { TakesNothing (asked words.now) → source.new ≡ source.old }
    ensures among { Comes (asked words.now) result }

    // Where what the disk holds is at fault, the run ends by that, whatever the feed is, and nothing of
    // it is taken.
    ensures disk_first { OnDisk (asked words.now) (D.now disk.old).reads (λ bytes.
        EndsAtDisk (asked words.now) bytes → EndsByDisk result × (source.new ≡ source.old)) }
    // Where it holds the journal of another chain than that of the feed's whole head, the run ends by
    // that, whatever follows in the feed, and nothing behind the head is taken; or it ends by a failed
    // read or write or for want of memory, or before that, with nothing taken, since the disk failed.
    ensures chain_first { OnRun (asked words.now) (S.left source.old) (D.now disk.old).reads (λ run.
        run_status run ≡ Status.OtherChain
        → EndsByChain result × TakesHead (S.left source.old) (S.left source.new) result) }

    // However the run ends, of a scenario 16,777,216 bytes were taken at most. Of a feed no more
    // were than its limit, and none that wasn't needed: each front of them that isn't all ends too
    // early for a feed, and what is due for its messages was written: their lines, but nothing in `certify` and
    // `spend`.
    ensures taken { TakesScenario (asked words.now)
        → ConsumesUpTo (S.left source.old) (S.left source.new) scenario_limit }
    ensures taken_fed { AnswersFeed (asked words.now) → OnDisk (asked words.now) (D.now disk.old).reads (λ bytes.
        TakesFeedFor (due_of (asked words.now) bytes)
        (S.left source.old) (S.left source.new) (K.taken sink.old) (K.taken sink.new)) }
    // Where a read failed, the sink took nothing for a scenario or a certificate, and of a feed exactly what is due for
    // the messages in the bytes that were given; where the disk failed, these without the last one's,
    // and nothing of what it holds.
    ensures read_fault { result ≡ Status.ReadFault → (WritesLast (asked words.now) → sink.new ≡ sink.old)
        × WritesFed (asked words.now) (D.now disk.old).reads (S.left source.old) (S.left source.new)
        (K.taken sink.old) (K.taken sink.new) (due_of (asked words.now)) }
    ensures disk_fault { result ≡ Status.DiskFault → (Shows (asked words.now) → sink.new ≡ sink.old)
        × WritesFed (asked words.now) (D.now disk.old).reads (S.left source.old) (S.left source.new)
        (K.taken sink.old) (K.taken sink.new) (λ bytes. replied_but_last (blocks_before (asked words.now) bytes)) }

    // In `node`, a crash at any moment leaves a front of the kept blocks with all that was found, and
    // a crash at the return one with all that was acknowledged; all that is kept, where the run is done.
    // `show` only looks at the disk, and in every other command, and with wrong words, it isn't called.
    ensures crash { OnKeep (asked words.now) (λ fresh. IfSome (S.left source.old) (λ input.
        IfSome (D.now disk.old).reads (λ bytes. Recovery fresh bytes input (S.left source.new)
        (K.taken sink.old) (K.taken sink.new) (D.now disk.old) (D.now disk.new) result))) }
    // Whatever the feed is, and whether or not the source tells it: where nothing was pending at the start,
    // a crash at any moment leaves what was found, or a journal that goes on from it.
    ensures found_stays { OnKeep (asked words.now) (λ fresh.
        IfSome (D.now disk.old).reads (λ bytes. IsSynced (D.now disk.old)
        → Leaves (D.now disk.old) (D.now disk.new) (HoldsOnward (records bytes)))) }
    // From a moment on at which a crash can leave nothing but a journal, it leaves a journal: so once one was
    // created, it stays, however the run ends.
    ensures journal_stays { OnKeep (asked words.now) (λ fresh.
        IfSome (D.now disk.old).reads (λ bytes. Lasts (D.now disk.old) (D.now disk.new) HoldsJournal)) }
    ensures looks { Shows (asked words.now) → Looks (D.now disk.old) (D.now disk.new) }
    ensures uncalled { (NamesFile (asked words.now) → ⊥) → disk.new ≡ disk.old }

    // Of the kept blocks on which each answer of a command rests: no two accepted transactions conflict,
    // each accepted one has accepted inputs, and no more is left than genesis grants. And a question that
    // another command is asked too, once the same blocks have arrived for it in another order, is answered
    // by the same bytes.
    ensures agree { Told (asked words.now) (S.left source.old) (D.now disk.old).reads (λ bytes input.
        JobAgrees (asked words.now) bytes input) }
    ensures kept_agree { KeptAgree }
    ensures order { Told (asked words.now) (S.left source.old) (D.now disk.old).reads (λ bytes input.
        JobAnswersAlike (asked words.now) bytes input) }

    // What `certify` wrote where it is done is a certificate of the two blocks, which nothing refuses and
    // which its bytes say again, so that `check` shows it; and what `check` then showed is so: the virtual vote
    // of the certificate's own blocks, which are all present, on its two is its sign.
    ensures certified { result ≡ Status.Done → OnCertify (asked words.now) (λ x y.
        Stands x y (K.taken sink.old) (K.taken sink.new)) }
    ensures shown { result ≡ Status.Done → IsCheck (asked words.now)
        → IfSome (S.left source.old) (λ input. ShowsSign input (K.taken sink.old) (K.taken sink.new)) }
{
    // Tells the proof what every answer rests on.
    jobs_agree();
    kept_agree();
    // That a fault's line stands behind whole lines.
    runs_are_lines();
    // And what a certificate shows that nothing refuses.
    read_is_certificate();
    soundness();
    match read_job(alloc, words) {
        Ok(job) => do_job(alloc, &job, source, sink, disk),
        Err(JobFault::Usage) => Status::Usage,
        Err(JobFault::Memory) => Status::Memory,
    }
}
