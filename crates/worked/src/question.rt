// The questions: what their words ask for, and the call that answers them.
use crate::example::Lent;
use crate::lines::cut;
use cli::arguments::{Plan, offset_of, second_of};
use engine::Answer;

// Start, end, offset, and a stamp; one that is left out is 0, for the busy time alone does not show it.
pub fn read_plan(words: &[u8]) -> Option<Plan> {
    let (start, rest) = cut(words, b' ');
    let (end, rest) = cut(rest, b' ');
    let (offset, stamp) = cut(rest, b' ');
    Some(Plan {
        start: second_of(start)?,
        end: second_of(end)?,
        offset: offset_of(offset)?,
        stamp: if stamp.is_empty() {
            0
        } else {
            second_of(stamp)?
        },
    })
}

// The answer to a report's question. The buffers are lent as long as the example says; nothing that a question can expect, where there is less than that.
// No Option, here and in `ask_match`: refusal 0 is printed then, so none would be turned into that answer again.
pub fn ask_report(out: &mut [u8], cal: &[u8], p: Plan, lent: Lent) -> Answer {
    let mut work = [0u8; 65536];
    let (Some(work), Some(out)) = (work.get_mut(..lent.work), out.get_mut(..lent.output)) else {
        return Answer::Refused(0, 0);
    };
    engine::report(cal, p.start, p.end, p.offset, p.stamp, work, out)
}

// The answer to a match's question.
pub fn ask_match(cal: &[u8], query: &[u8], offset: i64, lent: Lent) -> Answer {
    let mut work = [0u8; 65536];
    let Some(work) = work.get_mut(..lent.work) else {
        return Answer::Refused(0, 0);
    };
    engine::matches(cal, query, offset, work)
}
