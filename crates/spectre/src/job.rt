//! The words of the command line: which job they ask for.

ghost use Rattle.std.specs.Prelude.{◌≡◌, ◌≤◌, IfOk, IfSome, IsErrOf, IsNone, length, Some};
ghost use Rattle.spectre.specs.Jobs.{AreNumbers, IsJob, job_in, KeepsWords, texts, wallet_job};
ghost use Rattle.spectre.specs.Jobs as meant;
ghost use Rattle.spectre.specs.declared.job.JobFault.TheVariants as faults;

use crate::file_name::FileName;
use crate::files::{FileUse, file_of};
use crate::id_words::ids_of;
use crate::spend_words::{preimages_of, spend_of};
use crate::watch_words::{items_of, watch_of};
use sp_ids::{BlockId, Lock, Memory as Refused};
use sp_model::Profile;
use sp_play::number_of;
use sp_wallet::Preimages;
use sp_watch::Items;
use std::alloc::Global;
use thiserror::Error;

/// What the program is asked to do.
#[derive(Debug, Drop)]
pub enum Job {
    /// To answer a feed.
    Replay,
    /// To answer a feed, with the journal in a file; `fresh` where a file without a journal gets a
    /// new one.
    Keep {
        path: FileName,
        fresh: bool,
    },
    /// To write what the journal in a file holds.
    Show {
        path: FileName,
    },
    /// To write the feed of the blocks that the journal in a file holds, in this profile.
    Export {
        path: FileName,
        profile: Profile,
    },
    /// To answer a scenario.
    Play,
    /// To write the feed of a scenario.
    Build,
    /// To write a scenario that is made of numbers: how many blocks it has, 511 at most; a seed; and
    /// from how many blocks before it a block's parents are drawn, 1 to 16.
    Make {
        n: u16,
        seed: u64,
        width: u8,
    },
    /// To play such a scenario, and to write a summary alone.
    Drill {
        n: u16,
        seed: u64,
        width: u8,
    },
    /// To write the certificate of what the blocks of a feed say of two of them.
    Certify {
        x: BlockId,
        y: BlockId,
    },
    /// To check a certificate.
    Check,
    /// To play a script of nodes behind a scenario.
    Gossip,
    /// To write the transaction that pays an amount to a lock, out of what the blocks of a feed leave
    /// under the locks of these words.
    Spend {
        amount: u64,
        to: Lock,
        words: Preimages,
    },
    /// To answer a feed, and to tell what changes of these items.
    Watch {
        items: Items,
    },
}

/// Why the words ask for no job.
#[derive(Clone, Copy, Debug, PartialEq, Eq, Error)]
pub enum JobFault {
    /// They are none of the forms of a command.
    #[error("these words are no command of spectre")]
    Usage,
    /// There was no memory for the name of a file, or for the words of a wallet or a watch.
    #[error("there is no memory for the words")]
    Memory,
}

impl From<Refused> for JobFault {
    ghost from_gives = { λ _ e. e ≡ faults.Memory };

    fn from(_refused: Refused) -> JobFault {
        JobFault::Memory
    }
}

/// The job that a single word asks for.
#[tactic(auto, unfolding(crate::specs::Jobs::job_named))]
fn job_named(word: &[u8]) -> Option<Job>
    ensures value { result ≡ meant.job_named word.now }
    ensures ranges { IfSome result IsJob }
{
    if word == b"replay".as_slice() {
        Some(Job::Replay)
    } else if word == b"play".as_slice() {
        Some(Job::Play)
    } else if word == b"build".as_slice() {
        Some(Job::Build)
    } else if word == b"check".as_slice() {
        Some(Job::Check)
    } else if word == b"gossip".as_slice() {
        Some(Job::Gossip)
    } else {
        None
    }
}

/// The job that a word and three numbers ask for.
#[tactic(auto, unfolding(crate::specs::Jobs::job_with))]
fn job_with(word: &[u8], n: u16, seed: u64, width: u8) -> Option<Job>
    requires { AreNumbers n width }
    ensures value { result ≡ meant.job_with word.now n seed width }
    ensures ranges { IfSome result IsJob }
{
    if word == b"make".as_slice() {
        Some(Job::Make { n, seed, width })
    } else if word == b"drill".as_slice() {
        Some(Job::Drill { n, seed, width })
    } else {
        None
    }
}

/// The job that four words ask for.
#[tactic(auto, unfolding(crate::specs::Jobs::job_of_numbers))]
fn job_of_numbers(words: &[String]) -> Option<Job>
    requires { length words.now ≡ 4 }
    ensures value { result ≡ meant.job_of_numbers (texts words.now) }
    ensures ranges { IfSome result IsJob }
{
    let n = number_of(0, 511, words[1].as_bytes())?;
    let seed = number_of(0, u64::MAX, words[2].as_bytes())?;
    let width = number_of(1, 16, words[3].as_bytes())?;
    job_with(words[0].as_bytes(), n as u16, seed, width as u8)
}

/// The job that three words ask for, if none of them is a file.
#[tactic(auto, unfolding(crate::specs::Jobs::job_of_ids))]
fn job_of_ids(words: &[String]) -> Option<Job>
    requires { length words.now ≡ 3 }
    ensures value { result ≡ meant.job_of_ids (texts words.now) }
    ensures ranges { IfSome result IsJob }
{
    if words[0].as_bytes() != b"certify".as_slice() {
        return None;
    }
    let (x, y) = ids_of(words[1].as_bytes(), words[2].as_bytes())?;
    Some(Job::Certify { x, y })
}

/// The job that some words ask for, if they are so many and none of them is a file.
fn job_of(words: &[String]) -> Option<Job>
    ensures value { result ≡ meant.plain_job (texts words.now) }
    ensures ranges { IfSome result IsJob }
{
    match words.len() {
        1 => job_named(words[0].as_bytes()),
        3 => job_of_ids(words),
        4 => job_of_numbers(words),
        _ => None,
    }
}

/// The job for which a file is used.
fn job_on(path: FileName, how: FileUse) -> Job
    ensures value { result ≡ meant.job_on path how }
    ensures ranges { IsJob result }
{
    match how {
        FileUse::Keep => Job::Keep { path, fresh: false },
        FileUse::Fresh => Job::Keep { path, fresh: true },
        FileUse::Show => Job::Show { path },
        FileUse::Export(profile) => Job::Export { path, profile },
    }
}

/// The spend or the watch that some words ask for.
#[tactic(auto, using(crate::proofs::ArgumentLists::words_some))]
fn wallet_job_of(alloc: Global, words: &[String]) -> Result<Job, JobFault>
    ensures job { IfOk result (λ job. wallet_job (texts words.now) ≡ Some job) }
    ensures usage { IsErrOf result faults.Usage → IsNone (wallet_job (texts words.now)) }
    ensures memory { IsErrOf result faults.Memory → KeepsWords (wallet_job (texts words.now)) }
    ensures ranges { IfOk result IsJob }
{
    if let Some(asked) = spend_of(words) {
        return Ok(Job::Spend {
            amount: asked.amount,
            to: Lock::of(asked.to),
            words: preimages_of(alloc, asked.from)?,
        });
    }
    match watch_of(words) {
        Some(items) => Ok(Job::Watch {
            items: items_of(alloc, items)?,
        }),
        None => Err(JobFault::Usage),
    }
}

/// The job that the words after the program's name ask for: `replay`, `node FILE`, `node --fresh FILE`,
/// `node FILE --fresh`, `show FILE`, `export FILE N`, `play`, `build`, `make N SEED WIDTH`,
/// `drill N SEED WIDTH`, `certify X Y`, `check`, `gossip`, `spend AMOUNT to WORD from WORD ..` or
/// `watch ITEM ..`. FILE isn't empty and doesn't begin with `-`. The N of `export` is 1 or 2. The numbers are
/// decimal digits without a leading zero unless the number is 0. X and Y are ids. A WORD has 1 to 64 bytes
/// and doesn't begin with `-`; behind `from` stand 1 to 16 different ones. An ITEM is `tx:ID`, `lock:ID` or
/// `pair:ID,ID`; there are 1 to 64 different ones. An id has 64 hexadecimal digits.
///
/// # Errors
///
/// `Usage` where the words are anything else. `Memory` where there is none for what the job keeps of them.
pub fn read_job(alloc: Global, words: &[String]) -> Result<Job, JobFault>
    ensures job { IfOk result (λ job. job_in (texts words.now) ≡ Some job) }
    ensures usage { IsErrOf result faults.Usage → IsNone (job_in (texts words.now)) }
    ensures memory { IsErrOf result faults.Memory → KeepsWords (job_in (texts words.now)) }
    ensures ranges { IfOk result IsJob }
{
    if let Some((path, how)) = file_of(words) {
        return match String::from_str(alloc, path) {
            Ok(text) => Ok(job_on(FileName::of(text), how)),
            Err(_) => Err(JobFault::Memory),
        };
    }
    match job_of(words) {
        Some(job) => Ok(job),
        None => wallet_job_of(alloc, words),
    }
}
