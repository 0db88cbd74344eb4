// What the words ask for on one thread.
ghost use Rattle.std.specs.Prelude.{◌≡◌, List, ℕ, length, vec_len, map, string_bytes};
ghost use Rattle.core_run.specs.Views.{faults_of};
ghost use Rattle.node_words.specs.Words.{Asks};
ghost use Rattle.node_words.specs.declared.job.Shape.{Shape};
ghost use Rattle.node_words.specs.declared.job.Tuning.{Tuning};
ghost use Rattle.node_words.specs.declared.job.Job.{Job};
ghost use Rattle.model_node.specs.declared.run_end.RunEnd.TheVariants.{WordsRefused};
ghost use Rattle.law_run.specs.Promises.{Runs, IsTold, disks_between};
ghost use Rattle.node_jobs.specs.Settling.{settings_of};
ghost use Rattle.node_jobs.specs.Serving.{IsServe};
ghost use Rattle.node_jobs.specs.Formatting.{Formats};
ghost use Rattle.node_jobs.specs.Checking.{Checks};
ghost use Rattle.node_jobs.specs.Generating.{Generates};
ghost use Rattle.node_jobs.specs.Handing.{HandsOn};

use crate::check::{Telling, check_with};
use crate::format::format_with;
use crate::load::gen_with;
use crate::outcome::Outcome;
use crate::run::run_with;
use crate::settings::settings_of;
use disk_model::Disk;
use io_traits::{Clock, Sink, Source};
use model_node::RunEnd;
use node_words::{Job, read_words};
use sprig_advice::Teller;
use std::alloc::Global;

/// Does what the words ask for on one thread, and answers how it ended, as a status and a note, and the disks, in order. The words don't have the
/// program's name among them, and the disks are those of the devices that they name, in order. `format` makes them devices, `run` serves the lines
/// of the link over them, `check` tells what is on them, `audit` whether their images are sound, `gen` makes them devices and serves a script of
/// its own over them: what stands after each, and after a crash, is as with `format_with`, `run_with`, `check_with` and `gen_with`. Other words, and
/// those of `serve`, are refused, and leave the disks, the link and the clock as they were. The teller is told of the start of a `run`.
pub fn job_alone<D: Disk, L: Source + Sink, C: Clock, T: Teller>(
    alloc: Global,
    words: &[String],
    disks: Vec<D>,
    link: &mut L,
    clock: &mut C,
    teller: &T,
) -> Outcome<D>
    requires disks { (job : Job) (names : List (List ℕ)) → Asks (map string_bytes words.now) job names → vec_len disks ≡ length names }
    ensures refused { ((job : Job) (names : List (List ℕ)) → Asks (map string_bytes words.now) job names → IsServe job)
        → IsTold WordsRefused result.status result.note × (result.disks.items ≡ disks.items) × (link.new ≡ link.old) × (clock.new ≡ clock.old) }
    ensures formatted { (shape : Shape) (names : List (List ℕ)) → Asks (map string_bytes words.now) (Job.Format shape) names
        → Formats D.view shape disks.items result.disks.items result.status result.note
        (record { taken = L.taken link.old; left = L.left link.old; written = L.written link.old; source = L.source_faults link.old; sink = L.sink_faults link.old; disks = faults_of D.view disks.items })
        (record { taken = L.taken link.new; left = L.left link.new; written = L.written link.new; source = L.source_faults link.new; sink = L.sink_faults link.new; disks = faults_of D.view result.disks.items })
        × (clock.new ≡ clock.old) }
    ensures served { (tuning : Tuning) (names : List (List ℕ)) → Asks (map string_bytes words.now) (Job.Run tuning) names
        → Runs (settings_of tuning) (disks_between D.view disks.items result.disks.items) result.status result.note (C.times clock.old)
        (record { taken = L.taken link.old; left = L.left link.old; written = L.written link.old; source = L.source_faults link.old; sink = L.sink_faults link.old; disks = faults_of D.view disks.items })
        (record { taken = L.taken link.new; left = L.left link.new; written = L.written link.new; source = L.source_faults link.new; sink = L.sink_faults link.new; disks = faults_of D.view result.disks.items }) }
    ensures checked { (names : List (List ℕ)) → Asks (map string_bytes words.now) Job.Check names
        → Checks Telling.Counts D.view disks.items result.disks.items result.status result.note
        (record { taken = L.taken link.old; left = L.left link.old; written = L.written link.old; source = L.source_faults link.old; sink = L.sink_faults link.old; disks = faults_of D.view disks.items })
        (record { taken = L.taken link.new; left = L.left link.new; written = L.written link.new; source = L.source_faults link.new; sink = L.sink_faults link.new; disks = faults_of D.view result.disks.items })
        × (clock.new ≡ clock.old) }
    ensures audited { (names : List (List ℕ)) → Asks (map string_bytes words.now) Job.Audit names
        → Checks Telling.Soundness D.view disks.items result.disks.items result.status result.note
        (record { taken = L.taken link.old; left = L.left link.old; written = L.written link.old; source = L.source_faults link.old; sink = L.sink_faults link.old; disks = faults_of D.view disks.items })
        (record { taken = L.taken link.new; left = L.left link.new; written = L.written link.new; source = L.source_faults link.new; sink = L.sink_faults link.new; disks = faults_of D.view result.disks.items })
        × (clock.new ≡ clock.old) }
    ensures generated { (records : ℕ) (shape : Shape) (tuning : Tuning) (names : List (List ℕ)) → Asks (map string_bytes words.now) (Job.Generate records shape tuning) names
        → Generates D.view records shape (settings_of tuning) disks.items result.disks.items result.status result.note (C.times clock.old)
        (record { taken = L.taken link.old; left = L.left link.old; written = L.written link.old; source = L.source_faults link.old; sink = L.sink_faults link.old; disks = faults_of D.view disks.items })
        (record { taken = L.taken link.new; left = L.left link.new; written = L.written link.new; source = L.source_faults link.new; sink = L.sink_faults link.new; disks = faults_of D.view result.disks.items }) }

    // Whatever was asked for, nothing that was written waits for a flush in the end, unless the sink failed.
    ensures handed { HandsOn (L.written link.old) (L.written link.new) (L.handed link.old) (L.handed link.new) (L.sink_faults link.old) (L.sink_faults link.new) }
{
    let Some(request) = read_words(words) else {
        return Outcome::new(RunEnd::WordsRefused, disks);
    };
    match request.job {
        Job::Format(shape) => format_with(shape, disks, link),
        Job::Run(tuning) => run_with(alloc, settings_of(&tuning), disks, link, clock, teller),
        Job::Serve { .. } => Outcome::new(RunEnd::WordsRefused, disks),
        Job::Check => check_with(alloc, Telling::Counts, disks, link),
        Job::Audit => check_with(alloc, Telling::Soundness, disks, link),
        Job::Generate {
            count,
            shape,
            tuning,
        } => gen_with(
            alloc,
            count,
            shape,
            settings_of(&tuning),
            disks,
            link,
            clock,
        ),
    }
}
