// The three encoders.

ghost use Rattle.std.specs.Prelude.{IfOk};
ghost use Rattle.nk_base.specs.Ranges.{IsMainInRange, IsBackInRange, IsUpInRange};
ghost use Rattle.nk_wire.specs.Spelling.{IsFrameOf, SpellsMain, SpellsBack, SpellsUp};

use crate::frame::Frame;
use crate::{write_back, write_main, write_up};
use nk_base::{BackMsg, MainMsg, Memory, UpMsg};
use std::alloc::Global;

/// The frame of a message of the main lane, in one buffer of its size. In the place of the writing that Firefox's IPDL
/// makes for PHttpChannelParent; the format is this project's own.
pub fn encode_main(alloc: Global, m: &MainMsg) -> Result<Frame, Memory>
    requires { IsMainInRange m.now }
    ensures { IfOk result (λ f. IsFrameOf SpellsMain m.now f) }
{
    let mut out = Frame::with_length(alloc, write_main::size(m))?;
    write_main::write(&mut out, m)?;
    Ok(out)
}

/// The frame of a message of the background lane, in one buffer of its size. In the place of the writing that Firefox's
/// IPDL makes for PHttpBackgroundChannelParent; the format is this project's own.
pub fn encode_back(alloc: Global, m: &BackMsg) -> Result<Frame, Memory>
    requires { IsBackInRange m.now }
    ensures { IfOk result (λ f. IsFrameOf SpellsBack m.now f) }
{
    let mut out = Frame::with_length(alloc, write_back::size(m))?;
    write_back::write(&mut out, m)?;
    Ok(out)
}

/// The frame of a message of the up lane, in one buffer of its size. In the place of the writing that Firefox's IPDL
/// makes for PHttpChannelChild; the format is this project's own.
pub fn encode_up(alloc: Global, m: &UpMsg) -> Result<Frame, Memory>
    requires { IsUpInRange m.now }
    ensures { IfOk result (λ f. IsFrameOf SpellsUp m.now f) }
{
    let mut out = Frame::with_length(alloc, write_up::size(m))?;
    write_up::write(&mut out, m)?;
    Ok(out)
}
