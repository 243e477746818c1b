//! This is a worked audit.

use certificate_audit::{AuditFault, audit};
use game_model::{Question, Side};
use inductive_check::{UpperCause, UpperFault};
use plan_text::Plan;
use sample_games::expectations::same;
use sample_games::{goal_or_sink, question_of};
use std::alloc::Global;
use std::test::Fail;
use text_lines::MOST_BYTES;

fn answer(
    alloc: Global,
    question: &Question,
    text: &[u8],
) -> Result<Result<Plan, AuditFault>, Fail> {
    if text.len() > MOST_BYTES {
        return Err(Fail::new("too long"));
    }
    Ok(audit(alloc, question, text))
}

// Returns what the audit of a text says if the minimiser chooses between the goal and the sink.
fn sink_answer(alloc: Global, text: &[u8]) -> Result<Result<Plan, AuditFault>, Fail> {
    let game = goal_or_sink(alloc)?;
    let question = question_of(alloc, &game, Side::Min, 1)?;
    answer(alloc, &question, text)
}

fn at_upper(state: u32, cause: UpperCause) -> AuditFault {
    AuditFault::Upper(UpperFault { state, cause })
}

// The minimiser goes from state 0 to the sink and not to the goal.
#[test]
fn a_reply_that_is_not_held_is_refused(rt: HostRuntime) -> Result<(), Fail> {
    let held = b"certificate 2 3\n\
        0 0.000000000000000 - 0 0.000000000000000 1\n\
        1 1.000000000000000 - 0 1.000000000000000 -\n\
        2 0.000000000000000 - 0 0.000000000000000 0\n";
    let plan = sink_answer(rt.alloc(), held)??;
    same(
        "replies",
        plan.replies.as_slice(),
        [Some(1), None, Some(0)].as_slice(),
    )?;
    let to_the_goal = b"certificate 2 3\n\
        0 0.500000000000000 - 0 0.000000000000000 0\n\
        1 1.000000000000000 - 0 1.000000000000000 -\n\
        2 0.000000000000000 - 0 0.000000000000000 0\n";
    let fault = at_upper(0, UpperCause::Reply);
    same(
        "fault",
        sink_answer(rt.alloc(), to_the_goal)?.err(),
        Some(fault),
    )
}
