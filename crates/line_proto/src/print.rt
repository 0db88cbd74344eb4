// A reply to a line. Each of these writes behind the text of the page. An `Err` is want of memory; the text before stays, and some of what was
// to be written may stand behind it.
ghost use Rattle.std.specs.Prelude.{◌≡◌, ◌≢◌, ◌≤◌, ◌++◌, ◌∷◌, [], OnOk, OnErr, decimal, length, map, take};
ghost use Rattle.std.specs.List.{flat_map};
ghost use Rattle.line_proto.specs.Lines.{reply_text, data_text, words_line};
ghost use Rattle.line_proto.specs.Printing.{GoesOn, spaced};

use crate::{LineFault, NoMemory, Page, Reply};
use rec_format::{Counts, Stamp, VersionRef};

fn put(text: &[u8], page: &mut Page) -> Result<(), NoMemory>
    ensures ok { OnOk result (page.new ≡ page.old ++ text.now) }
    ensures kept { GoesOn page.old page.new }
{
    page.put(text)
}

fn put_byte(byte: u8, page: &mut Page) -> Result<(), NoMemory>
    ensures ok { OnOk result (page.new ≡ page.old ++ byte ∷ []) }
    ensures kept { GoesOn page.old page.new }
{
    page.put_byte(byte)
}

// A space and the number.
fn put_number(number: u64, page: &mut Page) -> Result<(), NoMemory>
    ensures ok { OnOk result (page.new ≡ page.old ++ spaced number) }
    ensures kept { GoesOn page.old page.new }
{
    page.put_number(number)
}

fn put_numbers(numbers: &[u64], page: &mut Page) -> Result<(), NoMemory>
    ensures ok { OnOk result (page.new ≡ page.old ++ flat_map spaced numbers.now) }
    ensures kept { GoesOn page.old page.new }
{
    for number in numbers {
        put_number(*number, page)?;
    }
    Ok(())
}

fn put_words(word: &[u8], numbers: &[u64], page: &mut Page) -> Result<(), NoMemory>
    ensures ok { OnOk result (page.new ≡ page.old ++ words_line (word.now ∷ map decimal numbers.now)) }
    ensures kept { GoesOn page.old page.new }
{
    put(word, page)?;
    put_numbers(numbers, page)
}

fn put_line(word: &[u8], numbers: &[u64], page: &mut Page) -> Result<(), NoMemory>
    ensures ok { OnOk result (page.new ≡ page.old ++ (words_line (word.now ∷ map decimal numbers.now) ++ 10 ∷ [])) }
    ensures kept { GoesOn page.old page.new }
{
    put_words(word, numbers, page)?;
    put_byte(b'\n', page)
}

// The hex digits of the bytes in lower case, and a dash where there are no bytes.
fn put_data(bytes: &[u8], page: &mut Page) -> Result<(), NoMemory>
    ensures ok { OnOk result (page.new ≡ page.old ++ data_text bytes.now) }
    ensures kept { GoesOn page.old page.new }
{
    if bytes.is_empty() {
        return put_byte(b'-', page);
    }
    page.put_digits(bytes)
}

// The line of a version.
fn put_value(stamp: Stamp, void: u64, payload: &[u8], page: &mut Page) -> Result<(), NoMemory>
    ensures ok { OnOk result (page.new ≡ page.old ++ reply_text (Reply.Val stamp void payload.now)) }
    ensures kept { GoesOn page.old page.new }
{
    put_words(b"val", &[u64::from(stamp.gen_), stamp.lut, void], page)?;
    put_byte(b' ', page)?;
    put_data(payload, page)?;
    put_byte(b'\n', page)
}

fn put_counts(counts: Counts, page: &mut Page) -> Result<(), NoMemory>
    ensures ok { OnOk result (page.new ≡ page.old ++ reply_text (Reply.StatOf counts)) }
    ensures kept { GoesOn page.old page.new }
{
    let Counts {
        records,
        tombstones,
        covered,
        free,
        pending,
        queued,
        held,
    } = counts;
    put_line(
        b"stat",
        &[records, tombstones, covered, free, pending, queued, held],
        page,
    )
}

fn put_fault(fault: LineFault, page: &mut Page) -> Result<(), NoMemory>
    ensures ok { OnOk result (page.new ≡ page.old ++ reply_text (Reply.Fail fault)) }
    ensures kept { GoesOn page.old page.new }
{
    match fault {
        LineFault::Line => put(b"err line\n", page),
        LineFault::Mode => put(b"err mode\n", page),
        LineFault::Big => put(b"err big\n", page),
        LineFault::Gen(seen) => put_line(b"err gen", &[u64::from(seen)], page),
        LineFault::Spent => put(b"err spent\n", page),
        LineFault::Load => put(b"err load\n", page),
        LineFault::Space => put(b"err space\n", page),
        LineFault::Memory => put(b"err memory\n", page),
        LineFault::Fault => put(b"err fault\n", page),
        LineFault::Damaged => put(b"err damaged\n", page),
    }
}

fn put_reply(reply: &Reply, page: &mut Page) -> Result<(), NoMemory>
    requires { reply.now ≢ Reply.Halted }
    ensures ok { OnOk result (page.new ≡ page.old ++ reply_text reply.now) }
    ensures kept { GoesOn page.old page.new }
{
    match reply {
        Reply::Written { stamp } => put_line(b"ok", &[u64::from(stamp.gen_), stamp.lut], page),
        Reply::Flushed { buffers } => put_line(b"ok", &[*buffers], page),
        Reply::Healed { gates } => put_line(b"ok", &[*gates], page),
        Reply::Defragged { moved, vacated } => put_line(b"ok", &[*moved, *vacated], page),
        Reply::Expired { removed } => put_line(b"ok", &[*removed], page),
        Reply::Raided { removed, cleared } => put_line(b"ok", &[*removed, *cleared], page),
        Reply::Restarted {
            records,
            tombstones,
        } => put_line(b"ok", &[*records, *tombstones], page),
        Reply::Val {
            stamp,
            void,
            payload,
        } => put_value(*stamp, *void, payload.as_slice(), page),
        Reply::MetaOf { stamp, void, units } => put_line(
            b"meta",
            &[u64::from(stamp.gen_), stamp.lut, *void, u64::from(*units)],
            page,
        ),
        Reply::Nothing => put(b"none\n", page),
        Reply::Gone => put(b"gone\n", page),
        Reply::StatOf(counts) => put_counts(*counts, page),
        Reply::Bye => put(b"bye\n", page),
        Reply::Fail(fault) => put_fault(*fault, page),
        Reply::Halted => unreachable!(),
    }
}

// After an `Err` the page is as it was when its text had so many bytes.
fn whole_or_none(
    printed: Result<(), NoMemory>,
    before: usize,
    page: &mut Page,
) -> Result<(), NoMemory>
    requires { before ≤ length page.old }
    ensures same { result ≡ printed }
    ensures ok { OnOk printed (page.new ≡ page.old) }
    ensures err { OnErr printed (page.new ≡ take before page.old) }
{
    if printed.is_err() {
        page.truncate(before);
    }
    printed
}

/// At `Ok` the reply's line, with its LF, stands behind the text of the page. An `Err` is want of memory, and changes nothing. `Halted` has no
/// line.
pub fn print_reply(reply: &Reply, page: &mut Page) -> Result<(), NoMemory>
    requires { reply.now ≢ Reply.Halted }
    ensures ok { OnOk result (page.new ≡ page.old ++ reply_text reply.now) }
    ensures err { OnErr result (page.new ≡ page.old) }
{
    let before = page.len();
    let printed = put_reply(reply, page);
    whole_or_none(printed, before, page)
}

/// At `Ok` the line of the version, as the reply to a get has it, stands behind the text of the page: the digits of the payload are made there, and
/// the payload isn't copied. An `Err` is want of memory, and changes nothing.
pub fn print_version(version: &VersionRef<'_>, page: &mut Page) -> Result<(), NoMemory>
    ensures ok { OnOk result (page.new ≡ page.old ++ reply_text (Reply.Val version.now.stamp version.now.void version.now.payload)) }
    ensures err { OnErr result (page.new ≡ page.old) }
{
    let before = page.len();
    let printed = put_value(version.stamp, version.void, version.payload, page);
    whole_or_none(printed, before, page)
}
