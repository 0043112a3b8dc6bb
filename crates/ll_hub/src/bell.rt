//! Who learns that replies became ready.
ghost use Rattle.std.specs.Prelude.{List, None, Option};
ghost use Rattle.ll_hub.specs.Rung.{Ring, Rings};

/// Who learns that replies to held requests became ready. A bell is a handle: all copies of it ring for the same listeners.
pub trait Bell: Copy {
    /// What this handle was rung for, in order; `None` if that isn't known.
    ghost rung: { Self → Option (List Ring) } = { λ _. None };

    /// Is called after each locked section that can make replies ready in the channel at place `channel`: `more` of them became ready in
    /// it, perhaps none. The channel isn't locked any more.
    fn ring(&mut self, channel: usize, more: usize)
        ensures { Rings (rung self.old) (rung self.new) channel more };
}
