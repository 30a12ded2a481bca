//! How a pass is tied to the writer.
ghost use Rattle.std.specs.Prelude.{◌≡◌, ◌<◌, ◌^◌, OnOk, OnErr};
ghost use Rattle.ck_snap.specs.Tokens.{IsWriterOf, IsPassOf, IsTied};

use crate::tokens::{Snap, SnapPass, SnapWriter};
use std::alloc::AllocError;
use std::sync::Wait;

impl Snap {
    /// Afterwards the pass has seen the writer's whole log. An `AllocError` is as in `set`.
    pub fn tie<R: Wait>(
        &self,
        rt: &R,
        w: &mut SnapWriter,
        pass: &mut SnapPass,
    ) -> Result<(), AllocError>
        requires tokens { IsWriterOf self.now w.old × IsPassOf self.now pass.old }
        requires calls { (w.old.calls < 2 ^ 40) × (pass.old.calls < 2 ^ 40) }
        ensures ok { OnOk result (IsTied w.old pass.old w.new pass.new) }
        ensures err { OnErr result ((w.new ≡ w.old) × (pass.new ≡ pass.old)) }
    {
        // This publish puts the last update into the log, so that the pass can see a version that is in the log whole.
        w.publisher.publish(rt, &self.log, None)?;
        pass.subscriber.catch_up(rt, w.publisher.version());
        w.calls += 1;
        pass.calls += 1;
        Ok(())
    }
}
