//! How two copies relate.
ghost use Rattle.std.specs.Prelude.{◌≡◌};
ghost use Rattle.pana_event.specs.Event.{Event};
ghost use Rattle.pana_event.specs.Relation.{IsRelation, rel_name, reverse_of};

/// How one copy relates to another.
#[derive(Clone, Copy, Debug, Default, PartialEq, Eq)]
pub enum Rel {
    /// Both know the same updates.
    #[default]
    Equal,
    /// The other knows all that this one does, and more.
    Older,
    /// This one knows all that the other does, and more.
    Newer,
    /// Each knows an update that the other doesn't.
    Conflict,
}

impl Rel {
    /// The name, as a program prints it. Takes no memory.
    pub fn name(self) -> &'static str
        ensures { result.now ≡ rel_name self }
    {
        match self {
            Rel::Equal => "Equal",
            Rel::Older => "Older",
            Rel::Newer => "Newer",
            Rel::Conflict => "Conflict",
        }
    }

    /// The relation of the other copy to this one. Takes no memory.
    pub fn reversed(self) -> Rel
        ensures value { result ≡ reverse_of self }
        ensures turned { (e f : Event) → IsRelation e f self → IsRelation f e result }
    {
        match self {
            Rel::Equal => Rel::Equal,
            Rel::Older => Rel::Newer,
            Rel::Newer => Rel::Older,
            Rel::Conflict => Rel::Conflict,
        }
    }
}
