// A list of words to what it asks for.
ghost use Rattle.std.specs.Prelude.{◌≡◌, ◌≢◌, ◌↔◌, List, ℕ, ◌∷◌, Some, codes, map, string_bytes, IfSome};
ghost use Rattle.node_words.specs.Ranges.{IsInRange};
ghost use Rattle.node_words.specs.Reading.{Answers, Checked, asked_for};
ghost use Rattle.node_words.specs.Words.{Asks};
ghost use Rattle.node_words.specs.declared.job.Job.{Job};

use crate::Job;
use crate::names::are_names;
use crate::number::number_of;
use crate::options::Options;
use crate::table::{generate_of, job_of};

/// What a list of words asks for.
#[derive(Drop)]
pub struct Request<'w> {
    /// What is to be done with the devices.
    pub job: Job,
    /// The words that name devices.
    pub names: &'w [String],
}

// The job over the devices that are named behind its options, where each option was one of the job's.
fn request_of<'w>(job: Job, options: &Options<'_>, names: &'w [String]) -> Option<Request<'w>>
    ensures { Checked job options.now.unread (map string_bytes names.entry.now) (asked_for result) }
{
    if options.are_read() && are_names(names) {
        Some(Request { job, names })
    } else {
        None
    }
}

// What `gen` asks for with the words behind it.
fn behind_gen(words: &[String]) -> Option<Request<'_>>
    ensures { Answers (codes "gen" ∷ map string_bytes words.now) (asked_for result) }
{
    let (count, words) = words.split_first()?;
    let count = number_of(count.as_str(), 1, 1_000_000)?;
    let (mut options, names) = Options::split(words);
    let job = generate_of(count, &mut options)?;
    request_of(job, &options, names)
}

// What another first word asks for with the words behind it.
fn behind_word<'w>(word: &str, words: &'w [String]) -> Option<Request<'w>>
    requires { word.now ≢ codes "gen" }
    ensures { Answers (word.now ∷ map string_bytes words.entry.now) (asked_for result) }
{
    let (mut options, names) = Options::split(words);
    let job = job_of(word, &mut options)?;
    request_of(job, &options, names)
}

/// What the words, without the program's name, ask for. It is none exactly where they aren't accepted. The numbers of the
/// job are in their ranges. It takes no memory.
pub fn read_words(words: &[String]) -> Option<Request<'_>>
    ensures exact { (job : Job) (names : List (List ℕ)) →
        (asked_for result ≡ Some (job, names)) ↔ Asks (map string_bytes words.now) job names }
    ensures in_range { IfSome result (λ request. IsInRange request.job) }
{
    let (word, words) = words.split_first()?;
    if word.as_str() == "gen" {
        behind_gen(words)
    } else {
        behind_word(word.as_str(), words)
    }
}
