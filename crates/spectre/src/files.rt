//! The words of the command line that name a file.

ghost use Rattle.std.specs.Prelude.{◌≡◌, length, IfSome, IsNone, Some};
ghost use Rattle.spectre.specs.Files as meant;
ghost use Rattle.spectre.specs.Words.{texts};

use sp_model::Profile;
use sp_play::profile_of;

/// What a file is used for.
#[derive(Clone, Copy, Debug, PartialEq, Eq)]
pub enum FileUse {
    /// To keep a journal in it. Where it holds bytes and no journal, that is a fault.
    Keep,
    /// To keep a journal in it, a new one where it holds none.
    Fresh,
    /// To show the journal in it.
    Show,
    /// To write the feed of the journal in it, in this profile.
    Export(Profile),
}

/// Whether a word is the name of a file: it isn't empty and doesn't begin with `-`.
#[tactic(auto, unfolding(crate::specs::Files::is_file))]
pub fn is_file(word: &[u8]) -> bool
    ensures { result ≡ meant.is_file word.now }
{
    match word.first() {
        Some(first) => *first != b'-',
        None => false,
    }
}

/// The file that the second of two words names, and what it is used for.
#[tactic(auto, unfolding(crate::specs::Files::named_file))]
fn named_file(words: &[String]) -> Option<(&str, FileUse)>
    requires { length words.now ≡ 2 }
    ensures some { IfSome result (λ file. meant.named_file (texts words.now) ≡ Some (file.0.now, file.1)) }
    ensures none { IsNone result → IsNone (meant.named_file (texts words.now)) }
{
    if !is_file(words[1].as_bytes()) {
        None
    } else if words[0].as_bytes() == b"node".as_slice() {
        Some((words[1].as_str(), FileUse::Keep))
    } else if words[0].as_bytes() == b"show".as_slice() {
        Some((words[1].as_str(), FileUse::Show))
    } else {
        None
    }
}

/// The file of `node` among three words, of which `--fresh` is one.
#[tactic(auto, unfolding(crate::specs::Files::fresh_file))]
fn fresh_file(words: &[String]) -> Option<(&str, FileUse)>
    requires { length words.now ≡ 3 }
    ensures some { IfSome result (λ file. meant.fresh_file (texts words.now) ≡ Some (file.0.now, file.1)) }
    ensures none { IsNone result → IsNone (meant.fresh_file (texts words.now)) }
{
    if words[0].as_bytes() != b"node".as_slice() {
        None
    } else if words[1].as_bytes() == b"--fresh".as_slice() && is_file(words[2].as_bytes()) {
        Some((words[2].as_str(), FileUse::Fresh))
    } else if words[2].as_bytes() == b"--fresh".as_slice() && is_file(words[1].as_bytes()) {
        Some((words[1].as_str(), FileUse::Fresh))
    } else {
        None
    }
}

/// The file of `export` among three words.
#[tactic(auto, unfolding(crate::specs::Files::exported_file))]
fn exported_file(words: &[String]) -> Option<(&str, FileUse)>
    requires { length words.now ≡ 3 }
    ensures some { IfSome result (λ file. meant.exported_file (texts words.now) ≡ Some (file.0.now, file.1)) }
    ensures none { IsNone result → IsNone (meant.exported_file (texts words.now)) }
{
    if !is_file(words[1].as_bytes()) {
        return None;
    }
    let profile = profile_of(words[2].as_bytes())?;
    Some((words[1].as_str(), FileUse::Export(profile)))
}

/// The file among three words.
#[tactic(auto, unfolding(crate::specs::Files::third_file))]
fn third_file(words: &[String]) -> Option<(&str, FileUse)>
    requires { length words.now ≡ 3 }
    ensures some { IfSome result (λ file. meant.third_file (texts words.now) ≡ Some (file.0.now, file.1)) }
    ensures none { IsNone result → IsNone (meant.third_file (texts words.now)) }
{
    if words[0].as_bytes() == b"export".as_slice() {
        exported_file(words)
    } else {
        fresh_file(words)
    }
}

/// The file that the words name, and what it is used for.
pub fn file_of(words: &[String]) -> Option<(&str, FileUse)>
    ensures some { IfSome result (λ file. meant.file_in (texts words.now) ≡ Some (file.0.now, file.1)) }
    ensures none { IsNone result → IsNone (meant.file_in (texts words.now)) }
{
    match words.len() {
        2 => named_file(words),
        3 => third_file(words),
        _ => None,
    }
}

/// The file that the words after the program's name name, and whether it is to be made where it isn't
/// there: for `node`, and not for `show` and `export`. `None` where the words name no file.
pub fn path_of(words: &[String]) -> Option<(&str, bool)>
    ensures some { IfSome result (λ path. meant.path_in (texts words.now) ≡ Some (path.0.now, path.1)) }
    ensures none { IsNone result → IsNone (meant.path_in (texts words.now)) }
{
    match file_of(words) {
        Some((path, FileUse::Show | FileUse::Export(_))) => Some((path, false)),
        Some((path, _)) => Some((path, true)),
        None => None,
    }
}
