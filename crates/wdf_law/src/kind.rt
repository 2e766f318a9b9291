ghost use Rattle.std.specs.Prelude.{◌≡◌};

use crate::role::Role;

/// What an element is.
#[derive(Clone, Copy, Debug, PartialEq, Eq)]
pub enum Kind {
    /// A resistor.
    Res,
    /// A capacitor.
    Cap,
    /// An inductor.
    Ind,
    /// A source, a voltage in series with a resistance.
    Src,
}

impl Kind {
    ghost use Rattle.wdf_law.specs.Network.{is_absorbing, is_resistor, is_reactance, is_source};
    ghost use Rattle.wdf_law.specs.Roles.{is_of};

    /// A resistor.
    pub fn is_resistor(&self) -> bool
        ensures { result ≡ is_resistor self.now }
    {
        matches!(self, Kind::Res)
    }

    /// A capacitor or an inductor, which has a state.
    pub fn is_reactance(&self) -> bool
        ensures { result ≡ is_reactance self.now }
    {
        matches!(self, Kind::Cap | Kind::Ind)
    }

    /// A resistor or a source, which takes up energy.
    pub fn is_absorbing(&self) -> bool
        ensures { result ≡ is_absorbing self.now }
    {
        matches!(self, Kind::Res | Kind::Src)
    }

    /// A source.
    pub fn is_source(&self) -> bool
        ensures { result ≡ is_source self.now }
    {
        matches!(self, Kind::Src)
    }

    pub(crate) fn is_of(&self, role: Role) -> bool
        ensures { result ≡ is_of role self.now }
    {
        match role {
            Role::Resistor => self.is_resistor(),
            Role::Reactance => self.is_reactance(),
            Role::Absorbing => self.is_absorbing(),
            Role::Source => self.is_source(),
        }
    }
}
