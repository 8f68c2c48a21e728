// What the words of a line say.

ghost use Rattle.std.specs.Prelude.{◌≡◌, ◌≢◌, ◌∷◌, [], ℕ, List, map, codes, Some, IfSome, MatchOption};
ghost use Rattle.nk_base.specs.declared.status.Target.{Target as AnyTarget};
ghost use Rattle.nk_plan.specs.declared.plan.Act.{Act as AnyAct};
ghost use Rattle.nk_plan.specs.declared.plan.Control.{Control as AnyControl};
ghost use Rattle.nk_plan.specs.declared.plan.Finish.{Finish as AnyFinish};
ghost use Rattle.nk_plan.specs.declared.plan.ListenerKind.{ListenerKind as AnyListener};
ghost use Rattle.nk_plan.specs.declared.plan.Reaction.{Reaction as AnyReaction};
ghost use Rattle.nk_plan.specs.declared.step.Step.{Step as AnyStep};
ghost use Rattle.nk_script.specs.declared.line.HopLine.{HopLine as AnyHop};
ghost use Rattle.nk_script.specs.Lines.{IsWorkerWord, IsTargetWord, IsHop, IsEnd, IsListener, IsReaction, IsAct, IsControl, IsStep};

use crate::line::HopLine;
use crate::number::{read_number, read_status};
use nk_base::Target;
use nk_plan::{Act, ChannelPlan, Control, Finish, ListenerKind, Reaction, Step, Verdict};

// A worker, `w1` to `w16`.
fn read_worker(word: &str) -> Option<u8>
    ensures worker { IfSome result (IsWorkerWord word.now) }
    ensures each { (worker : ℕ) → IsWorkerWord word.now worker → result ≡ Some worker }
{
    Some(read_number(behind_w(word)?, 1, 16)? as u8)
}

// What stands behind `w`, where the word begins so.
fn behind_w(word: &str) -> Option<&str>
    ensures { MatchOption result ((rest : List ℕ) → word.now ≢ 119 ∷ rest) (λ rest. word.now ≡ 119 ∷ rest.now) }
{
    word.strip_prefix('w')
}

// A target of a step, `main` or a worker.
fn read_target(word: &str) -> Option<Target>
    ensures target { IfSome result (IsTargetWord word.now) }
    ensures each { (target : AnyTarget) → IsTargetWord word.now target → result ≡ Some target }
{
    match word {
        "main" => Some(Target::Main),
        _ => Some(Target::Worker(read_worker(word)?)),
    }
}

// The words behind `hop`.
pub(crate) fn read_hop(words: &[&str]) -> Option<HopLine>
    ensures hop { IfSome result (IsHop (map (λ word. word.now) words.now)) }
    ensures each { (hop : AnyHop) → IsHop (map (λ word. word.now) words.now) hop → result ≡ Some hop }
{
    match *words {
        [kind, argument] => read_last_hop(kind, argument),
        ["redirect", code, "allow"] => read_allowed_redirect(code),
        ["redirect", code, "veto", status] => read_vetoed_redirect(code, status),
        _ => None,
    }
}

// `fail STATUS` or `response CODE`.
fn read_last_hop(kind: &str, argument: &str) -> Option<HopLine>
    ensures hop { IfSome result (IsHop (kind.now ∷ argument.now ∷ [])) }
    ensures each { (hop : AnyHop) → IsHop (kind.now ∷ argument.now ∷ []) hop → result ≡ Some hop }
{
    match kind {
        "fail" => Some(HopLine::Fail(read_status(argument.as_bytes())?)),
        "response" => Some(HopLine::Response(read_number(argument, 100, 999)? as u16)),
        _ => None,
    }
}

// `redirect CODE allow`.
fn read_allowed_redirect(code: &str) -> Option<HopLine>
    ensures hop { IfSome result (IsHop (codes "redirect" ∷ code.now ∷ codes "allow" ∷ [])) }
    ensures each { (hop : AnyHop) → IsHop (codes "redirect" ∷ code.now ∷ codes "allow" ∷ []) hop → result ≡ Some hop }
{
    Some(HopLine::Redirect {
        code: read_number(code, 300, 399)? as u16,
        verdict: Verdict::Allow,
    })
}

// `redirect CODE veto STATUS`.
fn read_vetoed_redirect(code: &str, status: &str) -> Option<HopLine>
    ensures hop { IfSome result (IsHop (codes "redirect" ∷ code.now ∷ codes "veto" ∷ status.now ∷ [])) }
    ensures each { (hop : AnyHop) → IsHop (codes "redirect" ∷ code.now ∷ codes "veto" ∷ status.now ∷ []) hop → result ≡ Some hop }
{
    Some(HopLine::Redirect {
        code: read_number(code, 300, 399)? as u16,
        verdict: Verdict::Veto(read_status(status.as_bytes())?),
    })
}

// The words behind `end`.
pub(crate) fn read_end(words: &[&str]) -> Option<Finish>
    ensures end { IfSome result (IsEnd (map (λ word. word.now) words.now)) }
    ensures each { (finish : AnyFinish) → IsEnd (map (λ word. word.now) words.now) finish → result ≡ Some finish }
{
    match *words {
        ["ok"] => Some(Finish::Good),
        ["fail", status] => Some(Finish::Fail(read_status(status.as_bytes())?)),
        _ => None,
    }
}

// The words behind `listener`.
pub(crate) fn read_listener(words: &[&str]) -> Option<ListenerKind>
    ensures listener { IfSome result (IsListener (map (λ word. word.now) words.now)) }
    ensures each { (listener : AnyListener) → IsListener (map (λ word. word.now) words.now) listener → result ≡ Some listener }
{
    match *words {
        ["plain"] => Some(ListenerKind::Plain),
        ["pipe", segment, limit, readers] => read_pipe(segment, limit, readers),
        _ => None,
    }
}

// `pipe SEGMENT LIMIT READERS`.
fn read_pipe(segment: &str, limit: &str, readers: &str) -> Option<ListenerKind>
    ensures listener { IfSome result (IsListener (codes "pipe" ∷ segment.now ∷ limit.now ∷ readers.now ∷ [])) }
    ensures each { (listener : AnyListener) → IsListener (codes "pipe" ∷ segment.now ∷ limit.now ∷ readers.now ∷ []) listener → result ≡ Some listener }
{
    Some(ListenerKind::Pipe {
        segment: read_number(segment, 4, 65_536)?,
        limit: read_number(limit, 1, 1024)?,
        readers: read_number(readers, 1, 8)? as u8,
    })
}

// The words behind `at`.
pub(crate) fn read_reaction(words: &[&str]) -> Option<Reaction>
    ensures reaction { IfSome result (IsReaction (map (λ word. word.now) words.now)) }
    ensures each { (reaction : AnyReaction) → IsReaction (map (λ word. word.now) words.now) reaction → result ≡ Some reaction }
{
    match *words {
        ["start", "suspend"] => Some(Reaction::StartSuspend),
        ["start", call, argument] => read_start(call, argument),
        ["data", nth, "fail", status] => read_bytes_fail(nth, status),
        _ => None,
    }
}

// `start CALL ARGUMENT`.
fn read_start(call: &str, argument: &str) -> Option<Reaction>
    ensures reaction { IfSome result (IsReaction (codes "start" ∷ call.now ∷ argument.now ∷ [])) }
    ensures each { (reaction : AnyReaction) → IsReaction (codes "start" ∷ call.now ∷ argument.now ∷ []) reaction → result ≡ Some reaction }
{
    match call {
        "retarget" => Some(Reaction::StartRetarget(read_worker(argument)?)),
        "cancel" => Some(Reaction::StartCancel(read_status(argument.as_bytes())?)),
        "fail" => Some(Reaction::StartFail(read_status(argument.as_bytes())?)),
        _ => None,
    }
}

// `data NTH fail STATUS`.
fn read_bytes_fail(nth: &str, status: &str) -> Option<Reaction>
    ensures reaction { IfSome result (IsReaction (codes "data" ∷ nth.now ∷ codes "fail" ∷ status.now ∷ [])) }
    ensures each { (reaction : AnyReaction) → IsReaction (codes "data" ∷ nth.now ∷ codes "fail" ∷ status.now ∷ []) reaction → result ≡ Some reaction }
{
    Some(Reaction::BytesFail {
        nth: read_number(nth, 1, 65_536)?,
        status: read_status(status.as_bytes())?,
    })
}

// The words of a call of the page.
fn read_act(words: &[&str]) -> Option<Act>
    ensures act { IfSome result (IsAct (map (λ word. word.now) words.now)) }
    ensures each { (act : AnyAct) → IsAct (map (λ word. word.now) words.now) act → result ≡ Some act }
{
    match *words {
        ["suspend"] => Some(Act::Suspend),
        ["resume"] => Some(Act::Resume),
        [call, argument] => read_act_with(call, argument),
        _ => None,
    }
}

// A call of the page that has an argument.
fn read_act_with(call: &str, argument: &str) -> Option<Act>
    ensures act { IfSome result (IsAct (call.now ∷ argument.now ∷ [])) }
    ensures each { (act : AnyAct) → IsAct (call.now ∷ argument.now ∷ []) act → result ≡ Some act }
{
    match call {
        "cancel" => Some(Act::Cancel(read_status(argument.as_bytes())?)),
        "retarget" => Some(Act::Retarget(read_worker(argument)?)),
        "break" => Some(Act::Break(read_status(argument.as_bytes())?)),
        _ => None,
    }
}

// The words behind `when`.
pub(crate) fn read_control(words: &[&str]) -> Option<Control>
    ensures control { IfSome result (IsControl (map (λ word. word.now) words.now)) }
    ensures each { (control : AnyControl) → IsControl (map (λ word. word.now) words.now) control → result ≡ Some control }
{
    match words {
        [after, act @ ..] => Some(Control {
            after: read_number(after, 0, ChannelPlan::MOST_AFTER)?,
            act: read_act(act)?,
        }),
        [] => None,
    }
}

// The words of a step.
pub(crate) fn read_step(words: &[&str]) -> Option<Step>
    ensures step { IfSome result (IsStep (map (λ word. word.now) words.now)) }
    ensures each { (step : AnyStep) → IsStep (map (λ word. word.now) words.now) step → result ≡ Some step }
{
    match *words {
        [step] => read_plain_step(step),
        [step, argument] => read_step_with(step, argument),
        _ => None,
    }
}

// A step that has no argument.
fn read_plain_step(word: &str) -> Option<Step>
    ensures step { IfSome result (IsStep (word.now ∷ [])) }
    ensures each { (step : AnyStep) → IsStep (word.now ∷ []) step → result ≡ Some step }
{
    match word {
        "act" => Some(Step::Act),
        "verdict" => Some(Step::Verdict),
        "fetch" => Some(Step::Fetch),
        "up" => Some(Step::Up),
        "forward" => Some(Step::Forward),
        "main" => Some(Step::Main),
        "back" => Some(Step::Back),
        "release" => Some(Step::Release),
        _ => None,
    }
}

// A step that has an argument.
fn read_step_with(word: &str, argument: &str) -> Option<Step>
    ensures step { IfSome result (IsStep (word.now ∷ argument.now ∷ [])) }
    ensures each { (step : AnyStep) → IsStep (word.now ∷ argument.now ∷ []) step → result ≡ Some step }
{
    match word {
        "begin" => Some(Step::Begin(read_target(argument)?)),
        "finish" => Some(Step::Finish(read_target(argument)?)),
        "read" => Some(Step::Read(read_number(argument, 1, 8)? as u8)),
        _ => None,
    }
}
