// The steps of the script.
ghost use Rattle.std.specs.Prelude.{◌≡◌, ◌+◌, ◌∷◌, [], ◌<◌, ◌≤◌, ◌^◌, length, MatchOption, IfSome};
ghost use Rattle.line_proto.specs.Stream.{ended};
ghost use Rattle.node_gen.specs.Script.{script};
ghost use Rattle.node_gen.specs.Places.{stride, numbers, step_line, steps_after, numbers_from, step_lines, lines_from};

use crate::line::{Line, of_digest, of_put, of_word};

/// What the lines of the script do, in their order.
#[derive(Clone, Copy)]
pub enum Step {
    Put,
    PutAgain,
    Delete,
    Bury,
    Flush,
    Get,
    Quit,
}

impl Step {
    // The step has a line for each number that this one divides.
    fn stride(self) -> u32
        ensures value { result ≡ stride self }
        ensures some { 0 < result }
    {
        match self {
            Step::Put | Step::Flush | Step::Get | Step::Quit => 1,
            Step::PutAgain => 2,
            Step::Delete => 5,
            Step::Bury => 7,
        }
    }

    // How many numbers it goes over, from 0 on, in a script of so many records.
    fn numbers(self, count: u32) -> u32
        ensures { result ≡ numbers self count }
    {
        match self {
            Step::Flush | Step::Quit => 1,
            _ => count,
        }
    }

    fn following(self) -> Option<Self>
        ensures { MatchOption result (steps_after self ≡ []) (λ next. steps_after self ≡ next ∷ steps_after next) }
    {
        match self {
            Step::Put => Some(Step::PutAgain),
            Step::PutAgain => Some(Step::Delete),
            Step::Delete => Some(Step::Bury),
            Step::Bury => Some(Step::Flush),
            Step::Flush => Some(Step::Get),
            Step::Get => Some(Step::Quit),
            Step::Quit => None,
        }
    }

    // Its first number that has a line, from one on.
    fn first_number(self, from: u32, count: u32) -> Option<u32>
        ensures numbers { MatchOption result (numbers_from self from count ≡ []) (λ i. numbers_from self from count ≡ i ∷ numbers_from self (i + 1) count) }
        ensures below { IfSome result (λ i. i < u32.MAX) }
    {
        let stride = self.stride();
        for number in from..self.numbers(count) {
            if number % stride == 0 {
                return Some(number);
            }
        }
        None
    }

    // How many lines it has in a script of so many records.
    fn line_count(self, count: u32) -> u64
        ensures lines { result ≡ length (step_lines self 0 count) }
        ensures fits { result < 2 ^ 32 }
    {
        u64::from(self.numbers(count).div_ceil(self.stride()))
    }

    // Its line for a number, without the LF.
    fn text(self, number: u32) -> Line
        ensures bytes { result.bytes ≡ step_line self number }
        ensures short { length result.bytes ≤ 2049 }
    {
        match self {
            Step::Put => of_put(number, u64::from(number)),
            Step::PutAgain => of_put(number, u64::from(number) + 1),
            Step::Delete => of_digest("del", number),
            Step::Bury => of_digest("bury", number),
            Step::Flush => of_word("flush"),
            Step::Get => of_digest("get", number),
            Step::Quit => of_word("quit"),
        }
    }

    /// Its line for a number, with the LF.
    pub fn line(self, number: u32) -> Line
        ensures { result.bytes ≡ ended (step_line self number) }
    {
        let mut line = self.text(number);
        line.push_str("\n");
        line
    }
}

/// How many lines the script of so many records has.
pub fn lines_of(count: u32) -> u64
    ensures { result ≡ length (script count) }
{
    let mut step = Step::Put;
    let mut lines = step.line_count(count);
    while let Some(next) = step.following() {
        lines += next.line_count(count);
        step = next;
    }
    lines
}

/// The step and the number of the next line of a script of so many records, from a place on.
pub fn next_of(mut step: Step, mut from: u32, count: u32) -> Option<(Step, u32)>
    ensures lines { MatchOption result (lines_from step from count ≡ [])
        (λ at. lines_from step from count ≡ step_line at.0 at.1 ∷ lines_from at.0 (at.1 + 1) count) }
    ensures below { IfSome result (λ at. at.1 < u32.MAX) }
{
    loop {
        if let Some(number) = step.first_number(from, count) {
            return Some((step, number));
        }
        step = step.following()?;
        from = 0;
    }
}
