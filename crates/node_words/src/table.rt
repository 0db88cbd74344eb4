// The options of each job. A row has the name, the least and the greatest value, and the default.
ghost use Rattle.std.specs.Prelude.{◌≤◌, [], ◌∷◌, codes, decimal, IfSome};
ghost use Rattle.node_words.specs.Reading.{ReadsRows, AsksForRows, ReadsJob};
ghost use Rattle.node_words.specs.Words.{shape_rows, tuning_rows, serving_rows, rows_of, IsCounted};

use crate::options::Options;
use crate::{Job, Serving, Shape, Tuning};

// What the options say of the devices to be made.
fn shape_of(options: &mut Options<'_>) -> Option<Shape>
    ensures value { ReadsRows shape_rows options.old.pairs result }
    ensures asked { AsksForRows shape_rows options.old options.new result }
{
    Some(Shape {
        block_size: options.power("--block-size", 16_384, 1_048_576, 1_048_576)?,
        blocks: options.number("--blocks", 8, 65_536, 64)?,
    })
}

// What the options say of how devices are run.
fn tuning_of(options: &mut Options<'_>) -> Option<Tuning>
    ensures value { ReadsRows tuning_rows options.old.pairs result }
    ensures asked { AsksForRows tuning_rows options.old options.new result }
{
    Some(Tuning {
        sprigs: options.number("--sprigs", 1, 256, 16)?,
        lwm: options.number("--lwm", 0, 99, 50)?,
        pending: options.number("--pending", 4, 64, 16)?,
        cache: options.number("--cache", 0, 64, 8)?,
        commit: options.choice("--commit")?,
        raid_age: u64::from(options.number("--raid-age", 0, 315_360_000, 86_400)?),
    })
}

// What the options say of how connections are served.
fn serving_of(options: &mut Options<'_>) -> Option<Serving>
    ensures value { ReadsRows serving_rows options.old.pairs result }
    ensures asked { AsksForRows serving_rows options.old options.new result }
{
    Some(Serving {
        port: options.number("--port", 1, 65_535, 3_000)? as u16,
        links: options.number("--links", 0, 1_000_000, 0)?,
        seats: options.number("--seats", 1, 64, 4)? as u8,
        idle: options.number("--idle", 0, 86_400, 60)?,
    })
}

/// The job of a command word alone, with its options; each option of the job has then been asked for. It is none where
/// there is no such command, or an option says what its row doesn't allow.
pub fn job_of(word: &str, options: &mut Options<'_>) -> Option<Job>
    ensures value { ReadsJob (word.now ∷ []) options.old.pairs result }
    ensures asked { AsksForRows rows_of options.old options.new result }
{
    match word {
        "format" => Some(Job::Format(shape_of(options)?)),
        "run" => Some(Job::Run(tuning_of(options)?)),
        "serve" => Some(Job::Serve {
            tuning: tuning_of(options)?,
            serving: serving_of(options)?,
        }),
        "check" => Some(Job::Check),
        "audit" => Some(Job::Audit),
        _ => None,
    }
}

/// The job of `gen` and its number, with its options; each option of the job has then been asked for. It is none
/// where an option says what its row doesn't allow.
pub fn generate_of(count: u32, options: &mut Options<'_>) -> Option<Job>
    requires { (1 ≤ count) × (count ≤ 1000000) }
    ensures counted { IfSome result IsCounted }
    ensures value { ReadsJob (codes "gen" ∷ decimal count ∷ []) options.old.pairs result }
    ensures asked { AsksForRows rows_of options.old options.new result }
{
    Some(Job::Generate {
        count,
        shape: shape_of(options)?,
        tuning: tuning_of(options)?,
    })
}
