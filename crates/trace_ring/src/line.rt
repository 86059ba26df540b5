//! The line: values on their way from one end to the other, in groups.

use crate::group::Group;
use crate::role::Role;
use crossbeam_queue::protocol::{Outcome, Protocol};
use crossbeam_queue::{Pass, RuledArrayQueue};
use mono_model::Setup;
use std::collections::LinkedList;
use std::marker::PhantomData;

/// What one end of a line knows. No value of it is made.
pub struct View<T> {
    pub role: Role,
    /// What the run depends on.
    pub setup: Setup,
    /// The values that were pushed or taken through this end, the oldest first.
    pub values: LinkedList<T>,
}

/// Which values may be handed over.
pub trait Law<T> {
    ghost use Rattle.std.specs.Prelude.{List};
    ghost use Rattle.mono_model.specs.declared.setup.Setup.{Setup as RunSetup};

    // behind these values this one may be pushed
    ghost allows: { RunSetup → List T → T → Type 0 };
}

/// The rule of a line.
pub struct InLine<L> {
    law: PhantomData<L>,
}

impl<T, L: Law<T>> Protocol<Group<T>, View<T>> for InLine<L> {
    ghost use Rattle.trace_ring.specs.Line.{fresh, Lined};

    ghost holds = { Lined L.allows };

    ghost first = { fresh };
}

/// A group is pushed.
pub struct PushesGroup;

impl<T> Outcome<Group<T>, View<T>> for PushesGroup {
    ghost use Rattle.std.specs.Prelude.{◌≡◌};
    ghost use Rattle.trace_ring.specs.Line.{with_group};

    ghost then = { λ v group w. w ≡ with_group v group };
}

/// A group is taken.
pub struct TakesGroup<L> {
    law: PhantomData<L>,
}

impl<T, L: Law<T>> Outcome<Group<T>, View<T>> for TakesGroup<L> {
    ghost use Rattle.std.specs.Prelude.{◌≡◌, [], ◌++◌};
    ghost use Rattle.trace_ring.specs.Line.{with_group, Allowed};

    ghost then = { λ v group w. (w ≡ with_group v group)
        × Allowed (L.allows v.setup) [] (v.values ++ group) };
}

pub type Line<T, L> = RuledArrayQueue<Group<T>, View<T>, InLine<L>>;

pub type LinePass<T> = Pass<Group<T>, View<T>>;
