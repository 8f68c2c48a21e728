// The worked examples of the queue, on both bodies.

ghost use Rattle.std.specs.Prelude.{◌≡◌};
ghost use Rattle.nk_base.specs.Queue.{empty_queue};
ghost use Rattle.nk_queue.specs.Calls.{MayCallAll};

use crate::rows::{all_right, right};
use nk_base::{Class, Classed, Target};
use nk_queue::laws::{PlainQueue, QueueAnswer, QueueBody, QueueCall, answers_of, same_answers};
use nk_queue::{EventQueue, Offer, Taken};
use std::alloc::Global;

/// An event that is known by a number.
#[derive(Clone, Copy, Drop, PartialEq, Eq)]
struct Event {
    number: u32,
    class: Class,
}

impl Classed for Event {
    ghost class = { λ e. e.class };

    fn class(&self) -> Class {
        self.class
    }
}

const MAIN: Class = Class::Fixed(Target::Main);

const WORKER: Target = Target::Worker(1);

const A: Event = Event {
    number: 1,
    class: MAIN,
};

const B: Event = Event {
    number: 2,
    class: MAIN,
};

const DATA: Event = Event {
    number: 3,
    class: Class::Delivery,
};

// Whether these calls have these answers.
fn answers_are<Q: QueueBody<Event>>(
    alloc: Global,
    queue: &mut Q,
    calls: Vec<QueueCall<Event>>,
    wants: &[QueueAnswer<Event>],
) -> Option<bool>
    requires { MayCallAll Event.class (Q.state queue.old) (Q.spare queue.old) calls.items }
{
    let answers = answers_of(alloc, queue, calls).ok()?;
    Some(answers.as_slice() == wants)
}

// An event runs at once, and the next waits for the flush to take it.
fn runs_and_takes<Q: QueueBody<Event>>(alloc: Global, queue: &mut Q) -> Option<bool>
    requires { Q.state queue.old ≡ empty_queue }
{
    let calls = vec![in alloc;
        QueueCall::Reserve(2),
        QueueCall::Offer(A, Target::Main),
        QueueCall::Offer(B, Target::Main),
        QueueCall::Take(Target::Main),
        QueueCall::Take(Target::Main),
    ]
    .ok()?;
    let wants = &[
        QueueAnswer::Done,
        QueueAnswer::Offered(Offer::RunNow(A)),
        QueueAnswer::Offered(Offer::Queued),
        QueueAnswer::Took(Taken::Event(B)),
        QueueAnswer::Took(Taken::Ended),
    ];
    answers_are(alloc, queue, calls, wants)
}

// Data goes to a worker, and the queue is suspended before its task runs.
fn posts_to_a_worker<Q: QueueBody<Event>>(alloc: Global, queue: &mut Q) -> Option<bool>
    requires { Q.state queue.old ≡ empty_queue }
{
    let calls = vec![in alloc;
        QueueCall::Reserve(2),
        QueueCall::SetDataTarget(WORKER),
        QueueCall::Offer(DATA, Target::Back),
        QueueCall::Suspend,
        QueueCall::Complete(WORKER),
        QueueCall::Resume,
        QueueCall::IsSuspended,
        QueueCall::Complete(WORKER),
        QueueCall::Take(WORKER),
        QueueCall::Take(WORKER),
    ]
    .ok()?;
    let wants = &[
        QueueAnswer::Done,
        QueueAnswer::Done,
        QueueAnswer::Offered(Offer::Posted(WORKER)),
        QueueAnswer::Done,
        QueueAnswer::Began(false),
        QueueAnswer::Resumed(Some(WORKER)),
        QueueAnswer::Flag(true),
        QueueAnswer::Began(true),
        QueueAnswer::Took(Taken::Event(DATA)),
        QueueAnswer::Took(Taken::Ended),
    ];
    answers_are(alloc, queue, calls, wants)
}

// An event that is queued by force is taken afterwards.
fn queues_by_force<Q: QueueBody<Event>>(alloc: Global, queue: &mut Q) -> Option<bool>
    requires { Q.state queue.old ≡ empty_queue }
{
    let calls = vec![in alloc;
        QueueCall::Reserve(2),
        QueueCall::StartForced,
        QueueCall::Offer(A, Target::Main),
        QueueCall::EndForced(Target::Main),
        QueueCall::Take(Target::Main),
    ]
    .ok()?;
    let wants = &[
        QueueAnswer::Done,
        QueueAnswer::Done,
        QueueAnswer::Offered(Offer::Queued),
        QueueAnswer::Began(true),
        QueueAnswer::Took(Taken::Event(A)),
    ];
    answers_are(alloc, queue, calls, wants)
}

// What is prepended last is taken first.
fn prepends<Q: QueueBody<Event>>(alloc: Global, queue: &mut Q) -> Option<bool>
    requires { Q.state queue.old ≡ empty_queue }
{
    let calls = vec![in alloc;
        QueueCall::Reserve(2),
        QueueCall::Suspend,
        QueueCall::Prepend(A),
        QueueCall::Prepend(B),
        QueueCall::Resume,
        QueueCall::Complete(Target::Main),
        QueueCall::Take(Target::Main),
        QueueCall::Take(Target::Main),
    ]
    .ok()?;
    let wants = &[
        QueueAnswer::Done,
        QueueAnswer::Done,
        QueueAnswer::Done,
        QueueAnswer::Done,
        QueueAnswer::Resumed(Some(Target::Main)),
        QueueAnswer::Began(true),
        QueueAnswer::Took(Taken::Event(B)),
        QueueAnswer::Took(Taken::Event(A)),
    ];
    answers_are(alloc, queue, calls, wants)
}

// A cleared queue has its room again.
fn clears<Q: QueueBody<Event>>(alloc: Global, queue: &mut Q) -> Option<bool>
    requires { Q.state queue.old ≡ empty_queue }
{
    let calls = vec![in alloc;
        QueueCall::Reserve(1),
        QueueCall::Suspend,
        QueueCall::Offer(A, Target::Main),
        QueueCall::Clear,
        QueueCall::Waiting,
        QueueCall::Offer(B, Target::Main),
        QueueCall::Waiting,
        QueueCall::Flushing,
        QueueCall::Posted(Target::Main),
    ]
    .ok()?;
    let wants = &[
        QueueAnswer::Done,
        QueueAnswer::Done,
        QueueAnswer::Offered(Offer::Queued),
        QueueAnswer::Done,
        QueueAnswer::Number(0),
        QueueAnswer::Offered(Offer::Queued),
        QueueAnswer::Number(1),
        QueueAnswer::Flushing(None),
        QueueAnswer::Number(0),
    ];
    answers_are(alloc, queue, calls, wants)
}

#[test]
fn queue_calls(rt: HostRuntime) {
    let alloc = rt.alloc();
    all_right(
        &rt,
        &[
            runs_and_takes(alloc, &mut EventQueue::new(alloc)),
            posts_to_a_worker(alloc, &mut EventQueue::new(alloc)),
            queues_by_force(alloc, &mut EventQueue::new(alloc)),
            clears(alloc, &mut EventQueue::new(alloc)),
        ],
    );
}

#[test]
fn prepend_order(rt: HostRuntime) {
    let is_so = prepends(rt.alloc(), &mut EventQueue::new(rt.alloc()));
    all_right(&rt, &[is_so]);
}

// Both bodies answer an offer from another target alike.
fn answer_alike(alloc: Global) -> Option<bool> {
    let calls = vec![in alloc; QueueCall::Reserve(1), QueueCall::Offer(A, Target::Back)].ok()?;
    let same_calls = vec![in alloc; QueueCall::Reserve(1), QueueCall::Offer(A, Target::Back)].ok()?;
    let both = same_answers(
        alloc,
        &mut EventQueue::new(alloc),
        &mut PlainQueue::new(alloc),
        calls,
        same_calls,
    );
    let (chained, plain) = both.ok()?;
    Some(chained.as_slice() == plain.as_slice())
}

#[test]
fn both_queue_bodies(rt: HostRuntime) {
    let alloc = rt.alloc();
    all_right(
        &rt,
        &[
            runs_and_takes(alloc, &mut PlainQueue::new(alloc)),
            posts_to_a_worker(alloc, &mut PlainQueue::new(alloc)),
            queues_by_force(alloc, &mut PlainQueue::new(alloc)),
            prepends(alloc, &mut PlainQueue::new(alloc)),
            clears(alloc, &mut PlainQueue::new(alloc)),
            answer_alike(alloc),
        ],
    );
}

/// Whether an event runs at once here and from behind.
fn runs(queue: &EventQueue<Event>) -> [bool; 2] {
    [
        queue.runs_now(&A, Target::Main),
        queue.runs_now(&A, Target::Back),
    ]
}

/// Whether an event runs at once here, whether it would in the cleared queue, and whether an event is next.
fn runs_or_waits(queue: &EventQueue<Event>) -> [bool; 3] {
    [
        queue.runs_now(&A, Target::Main),
        queue.runs_cleared(&A, Target::Main),
        queue.next(Target::Main).is_some(),
    ]
}

/// Whether the event that was put in front is the next.
fn is_next(queue: &EventQueue<Event>) -> bool {
    queue.next(Target::Main) == Some(&B)
}

/// What is seen of an idle queue, and of one that is suspended; the target that a resume posts to, whether its task
/// begins, and whether the event that was put in front is the next.
type Looks = ([bool; 2], [bool; 3], Option<Target>, bool, bool);

fn looks(alloc: Global) -> Option<Looks> {
    let mut queue = EventQueue::new(alloc);
    queue.reserve(1).ok()?;
    let idle = runs(&queue);
    queue.suspend();
    queue.prepend(B);
    let suspended = runs_or_waits(&queue);
    let resumed = queue.resume();
    let begins = queue.complete(Target::Main);
    Some((idle, suspended, resumed, begins, is_next(&queue)))
}

#[test]
fn readers(rt: HostRuntime) {
    let suspended = [false, false, false];
    let wants = ([true, false], suspended, Some(Target::Main), true, true);
    right(&rt, looks(rt.alloc()) == Some(wants));
}
