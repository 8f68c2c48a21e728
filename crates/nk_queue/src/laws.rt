//! That the queue machine alone decides what a queue answers: the queue over a chain and a plain one over a
//! deque meet one contract, and any list of calls that both may be asked has the same answers in both.

ghost use Rattle.std.specs.Prelude.{◌≡◌, [], ◌∷◌, ◌++◌, IfOk, OnOk};
ghost use Rattle.nk_queue.specs.Calls.{MayCallAll, call_answers, calls_leave};

mod body;
mod call;
mod plain;

pub use body::QueueBody;
pub use call::{QueueAnswer, QueueCall};
use nk_base::{Classed, Memory};
pub use plain::PlainQueue;
use std::alloc::Global;

// Puts an item behind the others.
fn keep<T: Drop>(items: &mut Vec<T>, item: T) -> Result<(), Memory>
    ensures { OnOk result (items.new.items ≡ items.old.items ++ item ∷ []) }
{
    match items.push(item) {
        Ok(()) => Ok(()),
        Err(_) => Err(Memory),
    }
}

/// The answers of a list of calls, one after another. `Memory` where a `Reserve` wants memory, or the list of
/// answers does. This project's own.
pub fn answers_of<E: Classed + Drop, B: QueueBody<E>>(
    alloc: Global,
    body: &mut B,
    calls: Vec<QueueCall<E>>,
) -> Result<Vec<QueueAnswer<E>>, Memory>
    requires { MayCallAll E.class (B.state body.old) (B.spare body.old) calls.items }
    ensures answers { IfOk result (λ answers. answers.items ≡ call_answers E.class (B.state body.old) calls.items) }
    ensures state { OnOk result (B.state body.new ≡ calls_leave E.class (B.state body.old) calls.items) }
{
    let mut answers = Vec::new(alloc);
    for call in calls {
        let answer = body.call(call)?;
        keep(&mut answers, answer)?;
    }
    Ok(answers)
}

/// Asks two bodies the same calls: where both begin in one state and may be asked them, all answers are the same,
/// and both end in one state. This project's own.
pub fn same_answers<E: Classed + Drop, L: QueueBody<E>, R: QueueBody<E>>(
    alloc: Global,
    left: &mut L,
    right: &mut R,
    left_calls: Vec<QueueCall<E>>,
    right_calls: Vec<QueueCall<E>>,
) -> Result<(Vec<QueueAnswer<E>>, Vec<QueueAnswer<E>>), Memory>
    requires one_state { L.state left.old ≡ R.state right.old }
    requires one_list { left_calls.items ≡ right_calls.items }
    requires left { MayCallAll E.class (L.state left.old) (L.spare left.old) left_calls.items }
    requires right { MayCallAll E.class (R.state right.old) (R.spare right.old) right_calls.items }
    ensures same_answers { IfOk result (λ answers. answers.0.items ≡ answers.1.items) }
    ensures of_the_machine { IfOk result (λ answers. answers.0.items ≡ call_answers E.class (L.state left.old) left_calls.items) }
    ensures same_state { OnOk result (L.state left.new ≡ R.state right.new) }
{
    let left_answers = answers_of(alloc, left, left_calls)?;
    let right_answers = answers_of(alloc, right, right_calls)?;
    Ok((left_answers, right_answers))
}
