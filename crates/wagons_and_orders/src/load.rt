//! Whether a wagon carries a load.
ghost use Rattle.std.specs.Prelude.{◌≡◌};
ghost use Rattle.wagons_and_orders.specs.declared.load.Load.TheVariants.{Loaded, Unladen};

/// Whether a wagon on its way carries a load.
#[derive(Clone, Copy, PartialEq, Eq)]
pub enum Load {
    /// It carries one.
    Loaded,
    /// It is on its way empty.
    Unladen,
}

impl Load {
    /// The first word where the wagon carries a load, else the second.
    pub fn word(self, loaded: &'static str, unladen: &'static str) -> &'static str
        ensures loaded { self ≡ Loaded → result.now ≡ loaded.now }
        ensures unladen { self ≡ Unladen → result.now ≡ unladen.now }
    {
        match self {
            Load::Loaded => loaded,
            Load::Unladen => unladen,
        }
    }
}
