// What a load sends: each message is made ready on its lane and entered in the journal.

ghost use Rattle.std.specs.Prelude.{◌≡◌, ◌++◌, ◌∷◌, ◌<◌, ◌-◌, ◌+◌, [], length, true, OnOk, OnErr, IfOk};
ghost use Rattle.nk_base.specs.Heads.{IsGoodHead};
ghost use Rattle.nk_base.specs.Ranges.{IsHop, IsMainInRange, IsBackInRange, IsRedirectCode};
ghost use Rattle.nk_base.specs.Status.{is_legal_status};
ghost use Rattle.nk_plan.specs.declared.journal.ParentEntry.TheVariants as entry;
ghost use Rattle.nk_plan.specs.Journal.{mains_sent, backs_sent};
ghost use Rattle.nk_plan.specs.Parent.{start_entries, bare_head};

use nk_base::{BackMsg, Fields, Grow, Head, MainMsg, Memory, Out, Status};
use nk_plan::{ParentEntry, StartLane};
use std::alloc::Global;

/// Sends a message on the main lane.
pub fn send_main<A: Out<MainMsg>>(
    m: MainMsg,
    journal: &mut Grow<ParentEntry>,
    main: &mut A,
) -> Result<(), Memory>
    requires journal_room { 0 < journal.old.room }
    requires room { 0 < A.room main.old }
    requires in_range { IsMainInRange m }
    ensures ok { OnOk result (journal.new.items ≡ journal.old.items ++ entry.SentMain m ∷ []) }
    ensures err { OnErr result (journal.new ≡ journal.old) }
    ensures held { A.held main.new ≡ A.held main.old }
    ensures staged { OnOk result (A.staged main.new ≡ A.staged main.old ++ m ∷ []) }
    ensures conserved { A.room main.new + length (A.staged main.new) ≡ A.room main.old + length (A.staged main.old) }
{
    main.stage(m.share()?)?;
    journal.push(ParentEntry::SentMain(m));
    Ok(())
}

/// Hands a message to the background half.
pub fn send_back<B: Out<BackMsg>>(
    m: BackMsg,
    journal: &mut Grow<ParentEntry>,
    back: &mut B,
) -> Result<(), Memory>
    requires journal_room { 0 < journal.old.room }
    requires room { 0 < B.room back.old }
    requires in_range { IsBackInRange m }
    ensures ok { OnOk result (journal.new.items ≡ journal.old.items ++ entry.SentBack m ∷ []) }
    ensures err { OnErr result (journal.new ≡ journal.old) }
    ensures held { B.held back.new ≡ B.held back.old }
    ensures staged { OnOk result (B.staged back.new ≡ B.staged back.old ++ m ∷ []) }
    ensures conserved { B.room back.new + length (B.staged back.new) ≡ B.room back.old + length (B.staged back.old) }
{
    back.stage(m.share()?)?;
    journal.push(ParentEntry::SentBack(m));
    Ok(())
}

/// Gives the start of a hop on its lane. A start on the main lane is told to the background half.
pub fn send_start<A: Out<MainMsg>, B: Out<BackMsg>>(
    lane: StartLane,
    hop: u32,
    status: Status,
    head: Head,
    journal: &mut Grow<ParentEntry>,
    main: &mut A,
    back: &mut B,
) -> Result<(), Memory>
    requires journal_room { 1 < journal.old.room }
    requires main_room { 0 < A.room main.old }
    requires back_room { 0 < B.room back.old }
    requires hop { IsHop hop }
    requires legal { is_legal_status status ≡ true }
    requires good { IsGoodHead head }
    ensures ok { OnOk result (journal.new.items ≡ journal.old.items ++ start_entries lane hop status head) }
    ensures err { OnErr result (journal.new ≡ journal.old) }
    ensures main_held { A.held main.new ≡ A.held main.old }
    ensures main_staged { OnOk result (A.staged main.new ≡ A.staged main.old ++ mains_sent (start_entries lane hop status head)) }
    ensures main_conserved { A.room main.new + length (A.staged main.new) ≡ A.room main.old + length (A.staged main.old) }
    ensures back_held { B.held back.new ≡ B.held back.old }
    ensures back_staged { OnOk result (B.staged back.new ≡ B.staged back.old ++ backs_sent (start_entries lane hop status head)) }
    ensures back_conserved { B.room back.new + length (B.staged back.new) ≡ B.room back.old + length (B.staged back.old) }
{
    match lane {
        StartLane::Main => {
            let start = MainMsg::Start { hop, status, head };
            main.stage(start.share()?)?;
            back.stage(BackMsg::StartSent { hop })?;
            journal.push(ParentEntry::SentMain(start));
            journal.push(ParentEntry::SentBack(BackMsg::StartSent { hop }));
            Ok(())
        }
        StartLane::Back => send_back(BackMsg::Start { hop, status, head }, journal, back),
    }
}

/// The head of a redirect that is not followed: its code, without fields.
pub fn bare_head(alloc: Global, code: u16) -> Head
    requires { IsRedirectCode code }
    ensures head { result ≡ bare_head code }
    ensures good { IsGoodHead result }
{
    Head {
        code,
        fields: Fields::new(alloc),
    }
}

/// An equal head over the same bytes.
pub fn share_head(head: &Head) -> Result<Head, Memory>
    ensures head { IfOk result (λ r. r ≡ head.now) }
    ensures good { IsGoodHead head.now }
{
    let _code = head.code;
    head.share()
}
